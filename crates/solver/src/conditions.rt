// Conditions 11 and 12. What is asked of the tables of a file stands here, as functions of them. They are no methods: those read what a file holds.
ghost use Rattle.std.specs.Prelude.{◌≡◌, ◌&&◌, ◌+◌, ◌-◌, ◌<◌, ◌≤◌, eqb, ltb, leb, length, IfOk, IfErr, Err};
ghost use Rattle.std.specs.Bool.{Decides};
ghost use Rattle.sets.specs.Lists.{numbers_from, every};
ghost use Rattle.solver.specs.File.{sizes_of, blocks_at};
ghost use Rattle.solver.specs.Conditions.{block_ok, operands_before, operands_ok, tables_ok};
ghost use Rattle.solver.specs.internal.Forms.{opened};
ghost use Rattle.solver.specs.internal.Checks.{SizesFit, Places, rest_ok, Spans};

use crate::file::{EquationFile, HEADER, Tables, number_at, sizes_of};
use crate::{Cause, Operands, Sizes};

// Whether each count is in its range, and the initial state is a state.
fn counts_hold(sizes: Sizes) -> bool
    ensures { Decides result (SizesFit sizes) }
{
    (1..=sets::STATES).contains(&sizes.states)
        && (1..=crate::BLOCKS).contains(&sizes.blocks)
        && (1..=crate::CELLS).contains(&sizes.cells)
        && sizes.operands <= crate::OPERANDS
        && sizes.initial < sizes.states
}

// Whether the version, the offsets and the length are right. The bytes and counts are not yet known to be those of tables, of which this would be a method.
fn places_hold(file: &[u8], sizes: Sizes) -> bool
    requires long_enough { blocks_at ≤ length file.now }
    requires sizes_fit { SizesFit sizes }
    ensures { Decides result (Places file.now sizes) }
{
    number_at(file, 0) == 1
        && number_at(file, 24) == HEADER
        && number_at(file, 28) == sizes.cells_from()
        && number_at(file, 32) == sizes.operands_from()
        && file.len() == sizes.operands_from() + 4 * sizes.operands
}

// The tables of a file, or that condition 11 holds.
#[tactic(auto, using(crate::proofs::Reading::opened_short, crate::proofs::Reading::opened_unread))]
fn lay_out(file: &[u8]) -> Result<Tables<'_>, Cause>
    ensures lays_out { IfOk result (λ tables. tables.bytes.now ≡ file.now) }
    ensures refuses { IfErr result (λ cause. Err cause ≡ opened file.now) }
{
    if file.len() < HEADER {
        return Err(Cause::Layout);
    }
    let sizes = sizes_of(file);
    if counts_hold(sizes) && places_hold(file, sizes) {
        return Ok(Tables { bytes: file, sizes });
    }
    Err(Cause::Layout)
}

// Whether block k keeps its rule.
#[tactic(auto, using(crate::proofs::Tables::counted), unfolding(crate::specs::Conditions::block_ok))]
fn block_holds(tables: &Tables<'_>, k: usize) -> bool
    requires inside { k < tables.now.sizes.blocks }
    ensures { result ≡ block_ok tables.now.bytes.now k }
{
    tables.sign(k) <= 1 && tables.first(k) + tables.sizes.states <= tables.sizes.cells
}

// Whether every block keeps its rule.
fn blocks_hold(tables: &Tables<'_>) -> bool
    ensures { result ≡ every (block_ok tables.now.bytes.now) (numbers_from 0 (sizes_of tables.now.bytes.now).blocks) }
{
    (0..tables.sizes.blocks).all(|k| block_holds(tables, k))
}

// Whether an operand of cell i is a cell number above i. A range that contains it would be no plainer, since it starts at i + 1.
fn operand_holds(sizes: Sizes, i: usize, operand: usize) -> bool
    ensures { result ≡ (ltb i operand && ltb operand sizes.cells) }
{
    i < operand && operand < sizes.cells
}

// Whether every operand of a list of cell i is a cell number above i.
fn operands_hold(tables: &Tables<'_>, i: usize, list: Operands) -> bool
    requires inside { list.first + list.count ≤ tables.now.sizes.operands }
    ensures { result ≡ operands_ok tables.now.bytes.now i list.first list.count }
{
    (0..list.count).all(|j| operand_holds(tables.sizes, i, tables.operand(list.first + j)))
}

// Whether a list of cell i starts behind the `used` operands of the lists before it, ends in the operand table, and has the operands of its cell.
fn list_holds(tables: &Tables<'_>, i: usize, used: usize, list: Operands) -> bool
    requires few { used ≤ tables.now.sizes.operands }
    ensures { result ≡ (eqb list.first used && leb list.count (tables.now.sizes.operands - used) && operands_ok tables.now.bytes.now i used list.count) }
{
    list.first == used
        && list.count <= tables.sizes.operands - used
        && operands_hold(tables, i, list)
}

// Whether a variable has a block and a state.
fn variable_holds(sizes: Sizes, block: usize, state: usize) -> bool
    ensures { result ≡ (ltb block sizes.blocks && ltb state sizes.states) }
{
    block < sizes.blocks && state < sizes.states
}

// How many operands cell i has, if it keeps its rule, where the lists before it have `used` operands.
fn operand_count(tables: &Tables<'_>, i: usize, used: usize) -> Option<usize>
    requires inside { i < tables.now.sizes.cells }
    requires counted { used ≡ operands_before tables.now.bytes.now i }
    requires few { used ≤ tables.now.sizes.operands }
    ensures { Spans tables.now.bytes.now i used result }
{
    match tables.kind(i) {
        0 | 1 => {
            let list = tables.list(i);
            list_holds(tables, i, used, list).then_some(list.count)
        }
        2 => {
            let (block, state) = tables.pair(i);
            variable_holds(tables.sizes, block, state).then_some(0)
        }
        _ => None,
    }
}

// Whether every cell keeps its rule, and the lists fill the operand table. This is a loop: `try_fold` would carry the same sum through the same question.
fn cells_hold(tables: &Tables<'_>) -> bool
    ensures { result ≡ rest_ok tables.now.bytes.now 0 }
{
    let mut used = 0;
    for i in 0..tables.sizes.cells {
        let Some(count) = operand_count(tables, i, used) else {
            return false;
        };
        used += count;
    }
    used == tables.sizes.operands
}

// Whether condition 12 does not hold.
#[tactic(auto, unfolding(crate::specs::Conditions::tables_ok))]
fn tables_hold(tables: &Tables<'_>) -> bool
    ensures { result ≡ tables_ok tables.now.bytes.now }
{
    blocks_hold(tables) && cells_hold(tables)
}

// A file that can be solved, or the first of conditions 11 and 12 that holds.
pub fn open_file(file: &[u8]) -> Result<EquationFile<'_>, Cause>
    ensures opens { IfOk result (λ opened. opened.tables.bytes.now ≡ file.now) }
    ensures refuses { IfErr result (λ cause. Err cause ≡ opened file.now) }
{
    let tables = lay_out(file)?;
    if !tables_hold(&tables) {
        return Err(Cause::Table);
    }
    Ok(EquationFile { tables })
}
