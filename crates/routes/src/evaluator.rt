// What evaluating a formula stands on.
ghost use Rattle.routes.specs.internal.Parts.{Beside};

use crate::direct_case::DirectCase;

// A case, and beside it, for each action formula, the labels accepted as a mask, and for each node its block; and how many rounds there may be.
// Masks and blocks stand in arrays of their own: the nodes are bytes of the file, and there is no heap.
#[derive(Clone, Copy)]
pub struct Evaluator<'a> {
    pub case: DirectCase<'a>,
    pub masks: &'a [u64],
    pub blocks: &'a [u8],
    pub limit: u64,
    ghost beside: { Beside case.header case.formula.part.now masks.now blocks.now },
}
