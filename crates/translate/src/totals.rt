// How many operands the cells of a formula's nodes have.
ghost use Rattle.std.specs.Prelude.{◌≡◌, map, ℕ, length};
ghost use Rattle.sets.specs.Lists.{numbers_from};
ghost use Rattle.translate.specs.Bytes.{all_operands};
ghost use Rattle.translate.specs.internal.Writing.{shape_cell};
ghost use Rattle.translate.specs.internal.Shapes.{shape_cells};
ghost use Rattle.translate.specs.internal.Flags.{distinct_of};

use crate::Shape;
use crate::sources::Equations;

impl Equations<'_, '_> {
    // Those of a node of a shape, in all states.
    fn node_total(&self, x: Shape) -> usize
        ensures { (i : ℕ) → result ≡ length (all_operands (map (shape_cell self.now.states (distinct_of self.now.records) x i) (numbers_from 0 self.now.states))) }
    {
        (0..self.states).map(|s| self.operand_count(x, s)).sum()
    }

    // Those of all nodes.
    pub fn operand_total(&self) -> usize
        ensures { result ≡ length (all_operands (shape_cells self.now.states (distinct_of self.now.records) 0 self.now.shapes.now)) }
    {
        self.shapes.iter().map(|x| self.node_total(*x)).sum()
    }
}
