// Solving blocks by rounds. A block's solution needs that of the blocks after it.
ghost use Rattle.std.specs.Prelude.{◌≡◌, ◌+◌, ◌-◌, ◌<◌, ◌≤◌};
ghost use Rattle.sets.specs.States.{start};
ghost use Rattle.sets.specs.Words.{words, word_count};
ghost use Rattle.solver.specs.File.{sizes_of, block_at};
ghost use Rattle.solver.specs.internal.Working.{Ready, HoldsRows, Started, Solving, Turned, starting};

use crate::BLOCKS;
use crate::cells::{BlockSets, right_sides};
use crate::file::EquationFile;
use sets::Set;
use std::ops::ControlFlow;

// Where block k starts: no state for mu, every state for nu.
fn start_of(file: &EquationFile<'_>, k: usize) -> Set
    requires { k < file.now.tables.sizes.blocks }
    ensures { let e = file.now.tables.bytes.now in result ≡ words word_count (start (sizes_of e).states (block_at e k).sign) }
{
    sets::initial(file.tables.sizes.states, file.tables.sign(k) == 1)
}

// Where all blocks start. This is a loop: by `array::from_fn` it was tried, and it was not proved that each call leaves the file that the closure holds as it was.
pub fn starts(file: &EquationFile<'_>) -> BlockSets
    ensures { let e = file.now.tables.bytes.now in HoldsRows (sizes_of e).states result (starting e (sizes_of e).blocks) }
{
    let mut sets = [sets::empty(); BLOCKS];
    for k in 0..file.tables.sizes.blocks {
        sets[k] = start_of(file, k);
    }
    sets
}

// Solves the last `left` blocks, which are held where they start, with the sets of those before them held, or answers None where the
// rounds left are too few. This is a loop, since the number of rounds to a fixed point is not known before.
#[cycle(round_solve_last)]
pub fn solve_last(
    file: &EquationFile<'_>,
    sets: BlockSets,
    left: usize,
    work: &mut [u8],
    budget: &mut u64,
) -> Option<BlockSets>
    requires { let t = file.now.tables in Ready t.bytes.now work.old × (left ≤ t.sizes.blocks) × Started t.bytes.now (t.sizes.blocks - left) sets }
    ensures { let t = file.now.tables in Solving t.bytes.now sets (t.sizes.blocks - left) budget.old work.new result budget.new }
{
    if left == 0 {
        return Some(sets);
    }
    let mut s = sets;
    loop {
        let end = round(file, s, left, work, budget)?;
        match end {
            ControlFlow::Break(t) => return Some(t),
            ControlFlow::Continue(t) => {
                // The later blocks go back to where they start.
                let k = file.tables.sizes.blocks - left;
                s = sets;
                s[k] = t[k];
            }
        }
    }
}

// One round of the outermost of the last `left` blocks: the later blocks are solved anew, a round is counted, the right-hand sides are
// worked out and compared. Breaks with all sets where its set is stable, and else goes on with its set replaced.
#[cycle(round_solve_last)]
fn round(
    file: &EquationFile<'_>,
    sets: BlockSets,
    left: usize,
    work: &mut [u8],
    budget: &mut u64,
) -> Option<ControlFlow<BlockSets, BlockSets>>
    requires { let t = file.now.tables in Ready t.bytes.now work.old × (0 < left) × (left ≤ t.sizes.blocks) × Started t.bytes.now (t.sizes.blocks - left + 1) sets }
    ensures { let t = file.now.tables in Turned t.bytes.now sets (t.sizes.blocks - left) budget.old work.new result budget.new }
{
    let s = solve_last(file, sets, left - 1, work, budget)?;
    *budget = budget.checked_sub(1)?;
    let k = file.tables.sizes.blocks - left;
    let next = right_sides(*file, s, k, work);
    if next[k] == sets[k] {
        return Some(ControlFlow::Break(s));
    }
    Some(ControlFlow::Continue(next))
}
