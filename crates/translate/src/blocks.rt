// Writing the blocks of an equation file: one for each binder of the formula.
ghost use Rattle.std.specs.Prelude.{◌≡◌, [], ◌∷◌, ◌*◌, ◌≤◌, length, count_by};
ghost use Rattle.cases.specs.File.{node_limit};
ghost use Rattle.translate.specs.Bytes.{block_numbers};
ghost use Rattle.translate.specs.internal.Parts.{HasRoom, Wrote, Starts};
ghost use Rattle.translate.specs.internal.Shapes.{shape_binds, shape_blocks};

use crate::Shape;
use crate::bytes::Writer;
use crate::sources::Equations;

// Whether a node of a shape is a binder.
fn is_binder(x: Shape) -> bool
    ensures { result ≡ shape_binds x }
{
    matches!(x, Shape::Mu { .. } | Shape::Nu { .. })
}

// How many nodes are binders. They are counted here and not by `Nodes::binders` of cases, since a nu that is put before the root is among them.
pub fn block_count(shapes: &[Shape]) -> usize
    ensures { result ≡ count_by shape_binds shapes.now }
{
    shapes.iter().filter(|x| is_binder(**x)).count()
}

impl Equations<'_, '_> {
    // The block of node i, of a shape, if it is a binder: its sign, as a file has it, and the first cell of its body.
    fn write_block(&self, w: &mut Writer<'_>, x: Shape, i: usize)
        requires { (i ≤ node_limit) × HasRoom w.old (length (block_numbers (shape_blocks self.now.states i (x ∷ [])))) }
        ensures { Wrote (block_numbers (shape_blocks self.now.states i (x ∷ []))) w.old w.new }
    {
        match x {
            Shape::Mu { .. } => w.put([0, (i + 1) * self.states]),
            Shape::Nu { .. } => w.put([1, (i + 1) * self.states]),
            _ => {}
        }
    }

    // The blocks of all nodes, to the start of a part.
    pub fn write_blocks(&self, part: &mut [u8])
        requires { 8 * length (shape_blocks self.now.states 0 self.now.shapes.now) ≤ length part.old }
        ensures { Starts (block_numbers (shape_blocks self.now.states 0 self.now.shapes.now)) part.old part.new }
    {
        let mut w = Writer { out: part, done: 0 };
        for (i, x) in self.shapes.iter().enumerate() {
            self.write_block(&mut w, *x, i);
        }
    }
}
