// Writing what one node of the formula gives: its cells, one for each state, and their operands. The loops that write are `for` loops,
// as said at `Writer`: a chain would be no plainer. A node's shape, its number and a state are handed on one by one, since each function needs
// others of them.
ghost use Rattle.std.specs.Prelude.{◌≡◌, [], ◌∷◌, map, ℕ, ◌+◌, ◌*◌, ◌^◌, ◌<◌, ◌≤◌, length};
ghost use Rattle.sets.specs.Lists.{numbers_from};
ghost use Rattle.cases.specs.File.{transition_limit, node_limit};
ghost use Rattle.translate.specs.Bytes.{all_operands};
ghost use Rattle.translate.specs.internal.Writing.{file_cell, shape_operands, shape_cell, second_of};
ghost use Rattle.translate.specs.internal.Parts.{HasRoom, Wrote, WroteCells};
ghost use Rattle.translate.specs.internal.Flags.{distinct_of};

use crate::Shape;
use crate::bytes::Writer;
use crate::sources::Equations;
use crate::steps::Steps;
use solver::{FileCell, Operands};

// The cell of a node of a shape in state s, as a file has it, with its operands where it has any.
fn file_cell(x: Shape, s: usize, operands: Operands) -> FileCell
    ensures { result ≡ file_cell x s operands }
{
    match x {
        Shape::True | Shape::And { .. } | Shape::Box { .. } => FileCell::And(operands),
        Shape::False | Shape::Or { .. } | Shape::Diamond { .. } => FileCell::Or(operands),
        Shape::Variable { block } | Shape::Mu { block } | Shape::Nu { block } => {
            FileCell::Variable { block, state: s }
        }
    }
}

impl Equations<'_, '_> {
    // The records that a box or diamond with these labels follows from state s.
    #[inline]
    fn steps(&self, labels: u64, s: usize) -> Steps<'_>
        ensures { result ≡ record { records = self.now.records; mostly_copies = self.now.mostly_copies; state = s; labels = labels } }
    {
        Steps {
            records: self.records,
            mostly_copies: self.mostly_copies,
            state: s,
            labels,
        }
    }

    // How many operands a node of a shape has in state s.
    pub fn operand_count(&self, x: Shape, s: usize) -> usize
        ensures { ((n i : ℕ) → result ≡ length (shape_operands n (distinct_of self.now.records) x i s)) × (result ≤ transition_limit + 2) }
    {
        match x {
            Shape::And { .. } | Shape::Or { .. } => 2,
            Shape::Box { labels } | Shape::Diamond { labels } => self.steps(labels, s).count(),
            _ => 0,
        }
    }

    // The cell of a node of a shape in state s, where `used` operands come before its own. Answers how many come before those of the next cell.
    fn write_cell(&self, w: &mut Writer<'_>, x: Shape, s: usize, used: usize) -> usize
        requires { HasRoom w.old 3 × (used < 2 ^ 33) }
        ensures { ((n i : ℕ) → WroteCells used (shape_cell n (distinct_of self.now.records) x i s ∷ []) w.old w.new result)
            × (result ≤ used + transition_limit + 2) }
    {
        let count = self.operand_count(x, s);
        let cell = file_cell(x, s, Operands { first: used, count });
        w.put(cell.numbers());
        used + count
    }

    // The cells of a node of a shape, one for each state. Answers how many operands come before those of the next node.
    pub fn write_cells(&self, w: &mut Writer<'_>, x: Shape, used: usize) -> usize
        requires { HasRoom w.old (3 * self.now.states) × (used < 2 ^ 32) }
        ensures { (i : ℕ) → WroteCells used (map (shape_cell self.now.states (distinct_of self.now.records) x i) (numbers_from 0 self.now.states)) w.old w.new result }
    {
        let mut next = used;
        for s in 0..self.states {
            next = self.write_cell(w, x, s, next);
        }
        next
    }

    // Where the row of a node's cells starts.
    fn row(&self, node: usize) -> usize
        requires { node ≤ node_limit + 2 }
        ensures { (result ≡ node * self.now.states) × (result < 2 ^ 31) }
    {
        node * self.states
    }

    // The operands of node i, of a shape, in state s.
    fn write_state(&self, w: &mut Writer<'_>, x: Shape, i: usize, s: usize)
        requires { (i ≤ node_limit + 1) × (second_of x ≤ node_limit) × (s < self.now.states)
            × HasRoom w.old (length (shape_operands self.now.states (distinct_of self.now.records) x i s)) }
        ensures { Wrote (shape_operands self.now.states (distinct_of self.now.records) x i s) w.old w.new }
    {
        let low = self.row(i + 1);
        match x {
            Shape::And { second } | Shape::Or { second } => {
                w.put([low + s, self.row(second) + s]);
            }
            Shape::Box { labels } | Shape::Diamond { labels } => {
                self.steps(labels, s).write_targets(w, low);
            }
            _ => {}
        }
    }

    // The operands of node i, of a shape, in each state.
    pub fn write_operands(&self, w: &mut Writer<'_>, x: Shape, i: usize)
        requires { (i ≤ node_limit + 1) × (second_of x ≤ node_limit)
            × HasRoom w.old (length (all_operands (map (shape_cell self.now.states (distinct_of self.now.records) x i) (numbers_from 0 self.now.states)))) }
        ensures { Wrote (all_operands (map (shape_cell self.now.states (distinct_of self.now.records) x i) (numbers_from 0 self.now.states))) w.old w.new }
    {
        for s in 0..self.states {
            self.write_state(w, x, i, s);
        }
    }
}
