// Writing the equation file of a case.
#![tactic(auto)]

mod blocks;
mod bytes;
mod formula;
mod nodes;
mod rows;
mod shapes;
mod sources;
mod steps;
mod totals;

ghost use Rattle.std.specs.Prelude.{◌≡◌, ◌*◌, length};
ghost use Rattle.cases.specs.internal.Checks.{transition_part};
ghost use Rattle.cases.specs.internal.Links.{FirstFlags};
ghost use Rattle.translate.specs.Bytes.{numbers};
ghost use Rattle.translate.specs.internal.Parts.{Starts};
ghost use Rattle.translate.specs.internal.Flags.{distinct_of};
ghost use Rattle.translate.specs.internal.Sources.{RoomFor, shape_system, Emitted};
ghost use Rattle.translate.specs.declared.Cause.TheVariants.{Open};
ghost use Rattle.translate.specs.Translating.{translate_number, written_number, written_length, Translated};

use blocks::block_count;
use bytes::put;
use cases::{Flagged, OpenCase, TRANSITIONS, first_appearances, links_of};
use formula::{WholeFormula, added_before};
use solver::HEADER;
use sources::Equations;

// Why no file is written: found on opening the case, or the buffer is too short.
#[derive(Clone, Copy, PartialEq, Eq)]
pub enum Cause {
    Open(cases::Cause),
    Memory,
}

// What is found on opening the case.
impl From<cases::Cause> for Cause {
    ghost from_gives = { λ cause e. e ≡ Open cause };

    fn from(cause: cases::Cause) -> Cause {
        Self::Open(cause)
    }
}

// The number of a cause.
impl From<Cause> for u64 {
    ghost from_gives = { λ cause n. n ≡ translate_number cause };

    #[tactic(auto, unfolding(crate::specs::Translating::translate_number))]
    fn from(cause: Cause) -> u64 {
        match cause {
            Cause::Open(cause) => u64::from(cause),
            Cause::Memory => 13,
        }
    }
}

// The length of the file that was written, or why there is none.
pub type Written = Result<usize, Cause>;

// What the writers need of a node, by its kind: the node of a second operand, the labels that a box or diamond accepts, bit x for label x, and
// the block of a variable or binder. The kinds of cases have none of these, and they are worked out once for each node.
#[derive(Clone, Copy)]
pub enum Shape {
    False,
    True,
    And { second: usize },
    Or { second: usize },
    Box { labels: u64 },
    Diamond { labels: u64 },
    Variable { block: usize },
    Mu { block: usize },
    Nu { block: usize },
}

impl Equations<'_, '_> {
    // The equations, written to a buffer that has room for them; there are d blocks and p operands.
    fn fill(&self, out: &mut [u8], d: usize, p: usize)
        requires { RoomFor (shape_system self.now.states self.now.initial (distinct_of self.now.records) self.now.shapes.now)
            (length self.now.shapes.now * self.now.states) d p (length out.old) }
        ensures { Starts (numbers (shape_system self.now.states self.now.initial (distinct_of self.now.records) self.now.shapes.now)) out.old out.new }
    {
        let c = self.shapes.len() * self.states;
        let cells = HEADER + 8 * d;
        let operands = cells + 12 * c;
        let header = [
            1,
            self.states,
            d,
            c,
            p,
            self.initial,
            HEADER,
            cells,
            operands,
        ];
        put(out, header);
        let blocks = HEADER;
        self.write_blocks(&mut out[blocks..]);
        self.write_all_cells(&mut out[cells..]);
        self.write_all_operands(&mut out[operands..]);
    }

    // The equations, if there is room.
    fn emit(&self, out: &mut [u8]) -> Written
        ensures { Emitted (shape_system self.now.states self.now.initial (distinct_of self.now.records) self.now.shapes.now) out.old result out.new }
    {
        let d = block_count(self.shapes);
        let p = self.operand_total();
        let size = HEADER + 8 * d + 12 * (self.shapes.len() * self.states) + 4 * p;
        if out.len() < size {
            return Err(Cause::Memory);
        }
        self.fill(out, d, p);
        Ok(size)
    }
}

// Whether most records are copies. It decides no more than the order of two tests, so that nothing is promised of it.
fn mostly_copies(records: &Flagged<'_>) -> bool {
    let count = records.table.count;
    let distinct = (0..count).filter(|j| records.is_first(*j)).count();
    distinct < count - distinct
}

// The equation file of an accepted case, with the flags of first appearances. The labels that an action formula accepts are found once.
pub fn write_case<'a>(case: &OpenCase<'a>, first: &'a [bool], out: &mut [u8]) -> Written
    requires { FirstFlags (transition_part case.now.laid.bytes.now) case.now.laid.header.transitions first.now }
    ensures { Translated case.now.laid.bytes.now out.old (written_number result) (written_length result) out.new }
{
    let masks = case.action_masks();
    let a = case.laid.header.actions;
    let nodes = case.laid.formula();
    let formula = WholeFormula {
        nodes,
        masks: &masks[..a],
        added: added_before(&nodes),
    };
    let shapes = formula.shapes();
    let k = formula.added + nodes.count;
    let table = case.laid.transitions();
    let records = Flagged { table, first };
    let equations = Equations {
        records,
        mostly_copies: mostly_copies(&records),
        shapes: &shapes[..k],
        states: case.laid.header.states,
        initial: case.laid.header.initial,
    };
    equations.emit(out)
}

// Writes the equation file of a case to the start of a buffer.
pub fn translate(case: &[u8], out: &mut [u8]) -> Written
    ensures { Translated case.now out.old (written_number result) (written_length result) out.new }
{
    let opened = cases::open(case)?;
    let mut first = [false; TRANSITIONS];
    first_appearances(&opened, &links_of(&opened), &mut first);
    write_case(&opened, &first, out)
}
