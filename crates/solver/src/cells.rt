// The values of cells. The file is taken by value: through a reference its fields would be loaded anew for each cell. `Ready` is asked
// for at each function that is lent the working bytes, and is no invariant of a struct of file and bytes: each function would then speak of the struct before and after.
ghost use Rattle.std.specs.Prelude.{◌≡◌, ◌<◌, ◌≤◌, eqb, get_or};
ghost use Rattle.sets.specs.Lists.{for_some};
ghost use Rattle.sets.specs.Words.{bit};
ghost use Rattle.solver.specs.File.{operands, list_of};
ghost use Rattle.solver.specs.internal.Working.{Ready, ListAt, Valued, CellsValued, Applied};

use crate::file::EquationFile;
use crate::{BLOCKS, Operands};
use sets::Set;

// The sets of all blocks, by block.
pub type BlockSets = [Set; BLOCKS];

// Whether one of the operands of a list has the value wanted. A working byte stands for a truth value as 1 or 0, since the C interface lends bytes. This is a
// loop: by `any` it was tried, and solve took a sixth more instructions.
fn finds(file: EquationFile<'_>, list: Operands, wanted: bool, work: &[u8]) -> bool
    requires { let e = file.tables.bytes.now in Ready e work.now × ListAt e list.first list.count }
    ensures { result ≡ for_some (λ o. eqb (get_or work.now o 0) (bit wanted)) (list_of (operands file.entry.tables.bytes.now) list.first list.count) }
{
    for j in 0..list.count {
        let o = file.tables.operand(list.first + j);
        if work[o] == u8::from(wanted) {
            return true;
        }
    }
    false
}

// The value of cell i, from those of the cells above it: an and is false if an operand is, an or is true if an operand is, and a
// variable is true if its state is in the set of its block.
fn value_of(file: EquationFile<'_>, sets: &BlockSets, i: usize, work: &[u8]) -> bool
    requires { let t = file.tables in Ready t.bytes.now work.now × (i < t.sizes.cells) }
    ensures { Valued file.entry.tables.bytes.now sets.now i work.now result }
{
    let tables = file.tables;
    match tables.kind(i) {
        2 => {
            let (block, state) = tables.pair(i);
            sets::test(&sets[block], state)
        }
        0 => !finds(file, tables.list(i), false, work),
        // Only the kind of an or is left.
        _ => finds(file, tables.list(i), true, work),
    }
}

// Works out the cells from the last down to cell `from`. The loop goes by number, since each cell is worked out from the working bytes above its own. It is kept
// out of the callers' code: in a round's code it was tried, and solve took a twentieth more instructions.
#[inline(never)]
pub fn evaluate(file: EquationFile<'_>, sets: &BlockSets, from: usize, work: &mut [u8])
    requires { let t = file.tables in Ready t.bytes.now work.old × (from ≤ t.sizes.cells) }
    ensures { CellsValued file.entry.tables.bytes.now sets.now from work.new }
{
    for i in (from..file.tables.sizes.cells).rev() {
        work[i] = u8::from(value_of(file, sets, i, work));
    }
}

// The sets with that of block k replaced by its right-hand sides, all of them worked out from the sets as they were. The loop goes by number as that of `evaluate`
// does, and each value goes to two places.
pub fn right_sides(file: EquationFile<'_>, sets: BlockSets, k: usize, work: &mut [u8]) -> BlockSets
    requires { let t = file.tables in Ready t.bytes.now work.old × (k < t.sizes.blocks) }
    ensures { Applied file.entry.tables.bytes.now sets k work.new result }
{
    let first = file.tables.first(k);
    let states = file.tables.sizes.states;
    evaluate(file, &sets, first + states, work);
    let mut next = sets;
    for s in (0..states).rev() {
        let v = value_of(file, &sets, first + s, work);
        work[first + s] = u8::from(v);
        sets::put(&mut next[k], s, v);
    }
    next
}
