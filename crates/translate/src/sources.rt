// What the equations of a case are written of.
ghost use Rattle.translate.specs.internal.Sources.{Sources};

use crate::Shape;
use cases::Flagged;

// The shapes of the nodes of a formula, over n states and the records of a case, as an accepted case has them. Whether most of the records are copies
// is found once, and not at each.
#[derive(Clone, Copy)]
pub struct Equations<'r, 's> {
    pub records: Flagged<'r>,
    pub mostly_copies: bool,
    pub shapes: &'s [Shape],
    pub states: usize,
    pub initial: usize,
    pub ghost within: { Sources records.table.part.now records.first.now records.table.count shapes.now states },
}
