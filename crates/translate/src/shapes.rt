// Reading a case's formula table: the shape of each node.
ghost use Rattle.std.specs.Prelude.{◌≡◌, map, ℕ, ◌+◌, ◌<◌, ◌≤◌, length, take};
ghost use Rattle.cases.specs.Action.{Action};
ghost use Rattle.cases.specs.Prefix.{arity_in, formula_arities, end_of};
ghost use Rattle.cases.specs.Conditions.{binder_count};
ghost use Rattle.cases.specs.internal.Checks.{nodes_in};
ghost use Rattle.cases.specs.internal.Masks.{ActionMasks};
ghost use Rattle.translate.specs.internal.Shapes.{shape_in};
ghost use Rattle.translate.specs.internal.Tabled.{HoldsShapes};

use crate::Shape;
use crate::formula::WholeFormula;
use cases::{FormulaKind, Nodes};

// The limit on nodes, and one more for a nu that is put before the root. The array has room for so many, and their number is told beside it, for
// there is no heap.
pub const SHAPES: usize = cases::NODES + 1;

impl WholeFormula<'_> {
    // The node of the second operand of node i: the one behind the subtree of its first operand. It rises by the nodes that are put before the root.
    fn second_of(&self, i: usize) -> usize
        requires { i < self.now.nodes.count }
        ensures { result ≡ end_of (map (arity_in formula_arities) (nodes_in self.now.nodes.part.now self.now.nodes.count)) (i + 1) + self.now.added }
    {
        self.nodes.subtree_end(i + 1) + self.added
    }

    // The block of the binder at node i: as many come before it as there are binders before it, and those that are put before the root.
    fn block_of(&self, i: usize) -> usize
        requires { i ≤ self.now.nodes.count }
        ensures { result ≡ binder_count (take i (nodes_in self.now.nodes.part.now self.now.nodes.count)) + self.now.added }
    {
        let before = Nodes {
            part: self.nodes.part,
            count: i,
        };
        before.binders() + self.added
    }

    // The shape of node i.
    fn shape_at(&self, i: usize) -> Shape
        requires { i < self.now.nodes.count }
        ensures { (action : ℕ → Action) → ActionMasks action (length self.now.masks.now) self.now.masks.now
            → result ≡ shape_in action (nodes_in self.now.nodes.part.now self.now.nodes.count) self.now.added i }
    {
        let x = self.nodes.at(i);
        match x.formula_kind() {
            FormulaKind::False => Shape::False,
            FormulaKind::True => Shape::True,
            FormulaKind::And => Shape::And {
                second: self.second_of(i),
            },
            FormulaKind::Or => Shape::Or {
                second: self.second_of(i),
            },
            FormulaKind::Box => Shape::Box {
                labels: self.masks[x.arg],
            },
            FormulaKind::Diamond => Shape::Diamond {
                labels: self.masks[x.arg],
            },
            FormulaKind::Variable => Shape::Variable {
                block: self.block_of(x.arg),
            },
            FormulaKind::Mu => Shape::Mu {
                block: self.block_of(i),
            },
            FormulaKind::Nu => Shape::Nu {
                block: self.block_of(i),
            },
        }
    }

    // The shapes of all nodes. Where a nu is put before the root, it is the first.
    pub fn shapes(&self) -> [Shape; SHAPES]
        ensures { (action : ℕ → Action) → ActionMasks action (length self.now.masks.now) self.now.masks.now
            → HoldsShapes action self.now.nodes.part.now self.now.nodes.count result }
    {
        let mut shapes = [Shape::Nu { block: 0 }; SHAPES];
        // The places are written by their numbers: an iterator over them would have to pass by those before the root, and be no plainer.
        for i in 0..self.nodes.count {
            shapes[self.added + i] = self.shape_at(i);
        }
        shapes
    }
}
