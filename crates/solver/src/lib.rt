// Equation files: their conditions, their standard solution, and the rounds that it takes.
#![tactic(auto)]

mod cells;
mod conditions;
mod file;
mod rounds;

ghost use Rattle.std.specs.Prelude.{◌≡◌, ◌<◌, length};
ghost use Rattle.sets.specs.Words.{state_limit};
ghost use Rattle.solver.specs.File.{cells_at, operands_at};
ghost use Rattle.solver.specs.Outcome.{solve_number, solve_answer, Answered};
ghost use Rattle.solver.specs.internal.Checks.{SizesFit};
ghost use Rattle.solver.specs.internal.Reading.{numbers_in_file};
ghost use Rattle.solver.specs.internal.Working.{AllSolved, Reported};

use conditions::open_file;
use file::EquationFile;
pub use file::{HEADER, sizes_of};
use sets::{Set, WORDS};

pub const BLOCKS: usize = 6;

pub const CELLS: usize = 65 * sets::STATES;

pub const OPERANDS: usize = 133_120;

// The length of the largest equation file.
pub const LARGEST: usize = HEADER + 8 * BLOCKS + 12 * CELLS + 4 * OPERANDS;

// The counts of an equation file, and its initial state.
#[derive(Clone, Copy)]
pub struct Sizes {
    pub states: usize,
    pub blocks: usize,
    pub cells: usize,
    pub operands: usize,
    pub initial: usize,
}

impl Sizes {
    // Where the cells start. This, the next, and whether the places hold ask that the counts fit, so that the sums do; a type for such counts would be no plainer than
    // the one word of the contract. They stand here, where the type stands: this crate reads files by them, and others may.
    pub fn cells_from(&self) -> usize
        requires { SizesFit self.now }
        ensures { result ≡ cells_at self.now }
    {
        HEADER + 8 * self.blocks
    }

    // Where the operands start.
    pub fn operands_from(&self) -> usize
        requires { SizesFit self.now }
        ensures { result ≡ operands_at self.now }
    {
        self.cells_from() + 12 * self.cells
    }
}

// The operands of a cell: where they start in the operand table, and how many there are.
#[derive(Clone, Copy, PartialEq, Eq)]
pub struct Operands {
    pub first: usize,
    pub count: usize,
}

// A cell as it is written to a file: an and or an or of operands, or the variable of a block in a state. What is read is told by the number of its kind.
#[derive(Clone, Copy, PartialEq, Eq)]
pub enum FileCell {
    And(Operands),
    Or(Operands),
    Variable { block: usize, state: usize },
}

impl FileCell {
    // The three numbers that stand for it in a file.
    #[tactic(auto, unfolding(crate::specs::internal::Reading::numbers_in_file))]
    pub fn numbers(self) -> [usize; 3]
        ensures { result ≡ numbers_in_file self }
    {
        match self {
            FileCell::And(list) => [0, list.first, list.count],
            FileCell::Or(list) => [1, list.first, list.count],
            FileCell::Variable { block, state } => [2, block, state],
        }
    }
}

// Why a file is not solved.
#[derive(Clone, Copy, PartialEq, Eq)]
pub enum Cause {
    Layout,
    Table,
    Memory,
    Spent,
}

// The number of a cause.
impl From<Cause> for u64 {
    ghost from_gives = { λ cause number. number ≡ solve_number cause };

    #[tactic(auto, unfolding(crate::specs::Outcome::solve_number))]
    fn from(cause: Cause) -> u64 {
        match cause {
            Cause::Layout => 11,
            Cause::Table => 12,
            Cause::Memory => 13,
            Cause::Spent => 14,
        }
    }
}

// What is reported of a solved file. The routes report of a solved case in the same form.
#[derive(Clone, Copy, PartialEq, Eq)]
pub struct Report {
    pub verdict: bool,
    pub count: usize,
    pub rounds: u64,
}

impl Report {
    // The report of a set of states: whether the initial state is in it, and how many there are.
    fn of_set(set: &Set, initial: usize, rounds: u64) -> Report
        requires { initial < state_limit }
        ensures { Reported set.now initial rounds result }
    {
        Report {
            verdict: sets::test(set, initial),
            count: sets::count(set),
            rounds,
        }
    }
}

pub type Answer = Result<Report, Cause>;

// What solving all blocks finds: the set of block 0, and the rounds that it took.
#[derive(Clone, Copy)]
struct Found {
    row: Set,
    rounds: u64,
}

// Solves all blocks and works out all cells, or answers None where the rounds exceed the limit.
fn run(file: &EquationFile<'_>, work: &mut [u8], limit: u64) -> Option<Found>
    requires { length work.old ≡ file.now.tables.sizes.cells }
    ensures { AllSolved file.now.tables.bytes.now limit work.new result }
{
    work.fill(0);
    let starts = rounds::starts(file);
    let mut budget = limit;
    let sets = rounds::solve_last(file, starts, file.tables.sizes.blocks, work, &mut budget)?;
    cells::evaluate(*file, &sets, 0, work);
    Some(Found {
        row: sets[0],
        rounds: limit - budget,
    })
}

// Solves a file whose conditions 11 and 12 do not hold.
fn solve_opened(file: &EquationFile<'_>, work: &mut [u8], marks: &mut [u64], limit: u64) -> Answer
    ensures { Answered file.now.tables.bytes.now work.old marks.old limit (solve_answer result) work.new marks.new }
{
    let sizes = file.tables.sizes;
    let c = sizes.cells;
    if work.len() < c {
        return Err(Cause::Memory);
    }
    if marks.len() < WORDS {
        return Err(Cause::Memory);
    }
    let Some(found) = run(file, &mut work[..c], limit) else {
        return Err(Cause::Spent);
    };
    let Found { row, rounds } = found;
    sets::store(marks, row);
    Ok(Report::of_set(&row, sizes.initial, rounds))
}

// Solves an equation file. Is lent c working bytes, and the words of a set for the marks.
pub fn solve(file: &[u8], work: &mut [u8], marks: &mut [u64], limit: u64) -> Answer
    ensures { Answered file.now work.old marks.old limit (solve_answer result) work.new marks.new }
{
    let opened = open_file(file)?;
    solve_opened(&opened, work, marks, limit)
}
