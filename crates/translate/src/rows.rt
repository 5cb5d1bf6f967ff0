// Writing what all nodes of the formula give: their cells, and the operands of these.
ghost use Rattle.std.specs.Prelude.{◌*◌, ◌≤◌, length};
ghost use Rattle.translate.specs.Bytes.{all_operands, cell_numbers};
ghost use Rattle.translate.specs.internal.Shapes.{shape_cells};
ghost use Rattle.translate.specs.internal.Parts.{Starts};
ghost use Rattle.translate.specs.internal.Flags.{distinct_of};

use crate::bytes::Writer;
use crate::sources::Equations;

impl Equations<'_, '_> {
    // The cells of all nodes, to the start of a part. How many operands come before those of a node goes from node to node as the writer does, which
    // a fold would have to take by a closure that changes it.
    pub fn write_all_cells(&self, part: &mut [u8])
        requires { 12 * (length self.now.shapes.now * self.now.states) ≤ length part.old }
        ensures { Starts (cell_numbers 0 (shape_cells self.now.states (distinct_of self.now.records) 0 self.now.shapes.now)) part.old part.new }
    {
        let mut w = Writer { out: part, done: 0 };
        let mut used: usize = 0;
        for x in self.shapes {
            used = self.write_cells(&mut w, *x, used);
        }
    }

    // The operands of all nodes, to the start of a part.
    pub fn write_all_operands(&self, part: &mut [u8])
        requires { 4 * length (all_operands (shape_cells self.now.states (distinct_of self.now.records) 0 self.now.shapes.now)) ≤ length part.old }
        ensures { Starts (all_operands (shape_cells self.now.states (distinct_of self.now.records) 0 self.now.shapes.now)) part.old part.new }
    {
        let mut w = Writer { out: part, done: 0 };
        for (i, x) in self.shapes.iter().enumerate() {
            self.write_operands(&mut w, *x, i);
        }
    }
}
