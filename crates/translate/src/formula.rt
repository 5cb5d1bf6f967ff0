// The formula of a case as it is translated.
ghost use Rattle.std.specs.Prelude.{◌≡◌, cond, ℕ, ◌<◌, ◌≤◌, length};
ghost use Rattle.cases.specs.File.{node_in, node_limit};
ghost use Rattle.cases.specs.Conditions.{node_at, is_binder};
ghost use Rattle.cases.specs.internal.Checks.{nodes_in};
ghost use Rattle.translate.specs.internal.Readable.{Readable};

use cases::Nodes;

// A formula table, the masks of its action formulas (bit x of mask j says whether that at action node j accepts label x), and how many nodes are
// put before its root: a count and no truth value, since places and blocks rise by it. The masks stand beside the nodes, since the project has no
// heap: the nodes are read where they lie in the case.
#[derive(Clone, Copy)]
pub struct WholeFormula<'a> {
    pub nodes: Nodes<'a>,
    pub masks: &'a [u64],
    pub added: usize,
    pub ghost few: { nodes.count ≤ node_limit },
    pub ghost readable: { (i : ℕ) → i < nodes.count → Readable (length masks.now) nodes.count (node_in nodes.part.now i) },
    pub ghost before: { added ≡ cond (is_binder (node_at (nodes_in nodes.part.now nodes.count) 0)) 0 1 },
}

// How many nodes are put before the root of a formula: a nu where it is no binder.
pub fn added_before(nodes: &Nodes<'_>) -> usize
    requires { 1 ≤ nodes.now.count }
    ensures { result ≡ cond (is_binder (node_at (nodes_in nodes.now.part.now nodes.now.count) 0)) 0 1 }
{
    usize::from(!nodes.at(0).is_binder())
}
