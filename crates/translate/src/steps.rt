// The records that a box or diamond follows from a state, and the operands that they give. The loop that writes is a `for` loop, as said at
// `Writer`: a chain would be no plainer.
ghost use Rattle.std.specs.Prelude.{◌≡◌, [], ◌∷◌, ◌^◌, ◌<◌, ◌≤◌, length};
ghost use Rattle.sets.specs.Words.{marked};
ghost use Rattle.cases.specs.File.{transition_in};
ghost use Rattle.translate.specs.internal.Parts.{HasRoom, Wrote, target_cells};
ghost use Rattle.translate.specs.internal.Writing.{leaves};
ghost use Rattle.translate.specs.internal.Flags.{follows, followed, target_of};

use crate::bytes::Writer;
use cases::{Flagged, Transition, number_at};
use sets::has_bit;

// The records that leave a state with their labels in a mask. Whether most of all records are copies says no more than which of two tests comes first.
#[derive(Clone, Copy)]
pub struct Steps<'a> {
    pub records: Flagged<'a>,
    pub mostly_copies: bool,
    pub state: usize,
    pub labels: u64,
}

// Whether bit x of a mask of labels is 1. A label past its bits is not in it. `has_bit` asks that there is such a bit, which is not known of the
// labels of any records.
fn marks(labels: u64, x: usize) -> bool
    ensures { result ≡ marked (labels ∷ []) x }
{
    x < 64 && has_bit(labels, x)
}

impl Steps<'_> {
    // Whether a transition is from the state, with its label in the mask.
    fn leaves(&self, t: Transition) -> bool
        ensures { result ≡ leaves self.now.state self.now.labels t }
    {
        t.source == self.state && marks(self.labels, t.label)
    }

    // Whether record j is one of them: of the records that leave so, the first of its kind. Where most records are copies the flag is looked at first, so
    // that a copy is passed by without being read; else half of the records or more are the first of their kind, and a look at the source passes by more of them.
    pub fn has(&self, j: usize) -> bool
        requires { j < self.now.records.table.count }
        ensures { result ≡ follows self.now j }
    {
        if self.mostly_copies {
            return self.records.is_first(j) && self.leaves(self.records.table.at(j));
        }
        self.leaves(self.records.table.at(j)) && self.records.is_first(j)
    }

    // How many there are.
    pub fn count(&self) -> usize
        ensures { (result ≡ length (followed self.now)) × (result ≤ self.now.records.table.count) }
    {
        (0..self.records.table.count)
            .filter(|j| self.has(*j))
            .count()
    }

    // The target of record j. It is not read by `table.at(j)`: that was tried, and the proof that a row and a target have a sum that fits did not
    // close, since `at` gives no bound of what it reads.
    fn target(&self, j: usize) -> usize
        requires { j < self.now.records.table.count }
        ensures { (result ≡ (transition_in self.now.records.table.part.now j).target) × (result < 2 ^ 16) }
    {
        number_at(self.records.table.part, 6 * j + 4)
    }

    // The operand of record j, if it is one of them: the cell of its target, in the row of cells that starts at `base`.
    fn write_target(&self, w: &mut Writer<'_>, j: usize, base: usize)
        requires { (j < self.now.records.table.count) × (base < 2 ^ 32) × HasRoom w.old (length (target_of self.now base j)) }
        ensures { Wrote (target_of self.now base j) w.old w.new }
    {
        if self.has(j) {
            w.put([base + self.target(j)]);
        }
    }

    // Their operands.
    pub fn write_targets(&self, w: &mut Writer<'_>, base: usize)
        requires { (base < 2 ^ 32) × HasRoom w.old (length (followed self.now)) }
        ensures { Wrote (target_cells base (followed self.now)) w.old w.new }
    {
        for j in 0..self.records.table.count {
            self.write_target(w, j, base);
        }
    }
}
