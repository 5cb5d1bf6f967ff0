// What is worked out once for each node: the blocks of the binders.
ghost use Rattle.std.specs.Prelude.{◌≡◌, length};
ghost use Rattle.cases.specs.File.{node_limit};
ghost use Rattle.cases.specs.internal.Checks.{nodes_in, NodesFit};
ghost use Rattle.routes.specs.internal.Parts.{BinderBlocks};

use cases::{NODES, Nodes};

// How many binders stand before each node. The count goes along from node to node; a function of the place alone would count anew at each.
// It is a byte: counts of machine size were tried, and made direct slower, for the array is set to 0 and copied.
pub fn blocks_of(formula: &Nodes<'_>) -> [u8; NODES]
    requires { NodesFit node_limit formula.now.part.now formula.now.count }
    ensures { (length result ≡ node_limit) × BinderBlocks (nodes_in formula.now.part.now formula.now.count) result }
{
    let mut blocks = [0u8; NODES];
    let mut count = 0;
    for i in 0..formula.count {
        blocks[i] = count;
        count += u8::from(formula.at(i).is_binder());
    }
    blocks
}
