// The two routes from a case to its marks: directly on sets of states, and by way of its equation file.
#![tactic(auto)]

mod direct_case;
mod evaluate;
mod evaluator;
mod modal;
mod outcome;
mod price;
mod tables;

ghost use Rattle.std.specs.Prelude.{◌≡◌, ◌<◌};
ghost use Rattle.sets.specs.Words.{state_limit};
ghost use Rattle.sets.specs.Refusals.{refused as refused_outcome};
ghost use Rattle.cases.specs.Opening.{case_number};
ghost use Rattle.cases.specs.Tally.{no_tally};
ghost use Rattle.routes.specs.Route.{route_answer, direct as direct_route, lent, marks_only, run_conditions, RanBy, Ran, EquationRan};
ghost use Rattle.routes.specs.Price.{run_price};
ghost use Rattle.routes.specs.internal.Given.{case_given};
ghost use Rattle.routes.specs.internal.Answering.{ReportedBy};

use cases::{OpenCase, TRANSITIONS, Tally, first_appearances, links_of, reachable};
pub use direct_case::DirectCase;
use evaluate::evaluate_root;
pub use outcome::solving_answer;
use price::price;
use sets::{Set, WORDS};
pub use solver::Report;
use translate::write_case;

// Why a case gets no marks: found on opening it, or on running it.
#[derive(Clone, Copy, PartialEq, Eq)]
pub enum Cause {
    Open(cases::Cause),
    Run(solver::Cause),
}

// What is reported of a case with its marks, or why it gets none.
pub type Answer = Result<Report, Cause>;

// A route's answer, and the tally of the case's transition table: both its numbers are 0 where the case is refused on opening.
// They are two numbers and no `Option`, since C is handed them.
#[derive(Clone, Copy)]
pub struct Tallied {
    pub answer: Answer,
    pub tally: Tally,
}

// A run of the equation route: its answer and tally, and what it costs, in cents.
#[derive(Clone, Copy)]
pub struct Priced {
    pub run: Tallied,
    pub cents: u64,
}

// The numbers of an answer: the refusal number (0 if none), the verdict as 1 or 0, the count and the rounds; the last three are 0 after a
// refusal. They are numbers because C is handed them.
#[derive(Clone, Copy)]
pub struct Numbers {
    pub refusal: u64,
    pub verdict: u64,
    pub count: u64,
    pub rounds: u64,
}

// The report of a run that marks these states: whether the initial state is marked, how many states are marked and can be reached, and the rounds.
fn run_report(initial: usize, marked: &Set, reachable: &Set, rounds: u64) -> Report
    requires { initial < state_limit }
    ensures { ReportedBy initial marked.now reachable.now rounds result }
{
    Report {
        verdict: sets::test(marked, initial),
        count: sets::count(&sets::intersection(*marked, *reachable)),
        rounds,
    }
}

// Direct on a case and its tables.
pub fn direct_parts(case: &DirectCase<'_>, marks: &mut [u64], limit: u64) -> Answer
    ensures { RanBy (run_conditions direct_route (case_given case.now) (marks_only marks.old) limit)
        direct_route (case_given case.now) marks.old (route_answer result) marks.new }
{
    if marks.len() < WORDS {
        return Err(Cause::Run(solver::Cause::Memory));
    }
    let value = evaluate_root(case, limit).ok_or(solver::Cause::Spent)?;
    sets::store(marks, value.set);
    Ok(run_report(
        case.header.initial,
        &value.set,
        &case.reachable,
        value.rounds,
    ))
}

// Direct on an accepted case.
fn direct_opened(case: &OpenCase<'_>, marks: &mut [u64], limit: u64) -> Tallied
    ensures { Ran direct_route case.now.laid.bytes.now (marks_only marks.old) limit (route_answer result.answer) result.tally marks.new }
{
    let links = links_of(case);
    let mut first = [false; TRANSITIONS];
    let tally = first_appearances(case, &links, &mut first);
    let given = DirectCase {
        header: case.laid.header,
        labels: case.laid.labels(),
        transitions: case.laid.transitions(),
        actions: case.laid.actions(),
        formula: case.laid.formula(),
        reachable: reachable(case, &links),
    };
    let answer = direct_parts(&given, marks, limit);
    Tallied { answer, tally }
}

// The answer to a case that is refused on opening. A tally stands beside each answer, so `?` cannot hand a refusal on.
fn unopened(cause: cases::Cause) -> Tallied
    ensures { (route_answer result.answer ≡ refused_outcome (case_number cause)) × (result.tally ≡ no_tally) }
{
    Tallied {
        answer: Err(Cause::from(cause)),
        tally: Tally {
            records: 0,
            distinct: 0,
        },
    }
}

// Evaluates the formula of a case on sets of states. Is lent the words of a set for the marks.
pub fn direct(case: &[u8], marks: &mut [u64], limit: u64) -> Tallied
    ensures { Ran direct_route case.now (marks_only marks.old) limit (route_answer result.answer) result.tally marks.new }
{
    match cases::open(case) {
        Ok(opened) => direct_opened(&opened, marks, limit),
        Err(cause) => unopened(cause),
    }
}

// The equation route on an accepted case. First appearances are found once, for the file and for the tally. Without a file the buffer was too
// short, for the case is accepted. The cells that are paid for are those that the file's header counts. The memory is lent slice by slice, as C lends it.
fn equation_opened(
    case: OpenCase<'_>,
    file: &mut [u8],
    work: &mut [u8],
    marks: &mut [u64],
    limit: u64,
) -> Priced
    ensures ran { EquationRan case.entry.laid.bytes.now (lent file.old work.old marks.old) limit (route_answer result.run.answer) result.run.tally
        file.new work.new marks.new }
    ensures price { result.cents ≡ run_price case.entry.laid.bytes.now limit (route_answer result.run.answer) }
{
    let links = links_of(&case);
    let mut first = [false; TRANSITIONS];
    let tally = first_appearances(&case, &links, &mut first);
    let written = write_case(&case, &first, file);
    let Ok(length) = written else {
        return Priced {
            run: Tallied {
                answer: Err(Cause::Run(solver::Cause::Memory)),
                tally,
            },
            cents: 0,
        };
    };
    let equations = &file[..length];
    let cells = solver::sizes_of(equations).cells;
    let answer = match solver::solve(equations, work, marks, limit) {
        Ok(solved) => {
            let marked = sets::load(marks);
            let reached = reachable(&case, &links);
            Ok(run_report(case.laid.header.initial, &marked, &reached, solved.rounds))
        }
        Err(cause) => Err(Cause::Run(cause)),
    };
    Priced {
        run: Tallied { answer, tally },
        cents: price(answer, cells, limit),
    }
}

// Translates a case and solves its equation file. Is lent bytes for the file, a working byte for each cell, and the words of a set for
// the marks.
pub fn equation(
    case: &[u8],
    file: &mut [u8],
    work: &mut [u8],
    marks: &mut [u64],
    limit: u64,
) -> Priced
    ensures ran { EquationRan case.now (lent file.old work.old marks.old) limit (route_answer result.run.answer) result.run.tally
        file.new work.new marks.new }
    ensures price { result.cents ≡ run_price case.now limit (route_answer result.run.answer) }
{
    match cases::open(case) {
        Ok(opened) => equation_opened(opened, file, work, marks, limit),
        Err(cause) => Priced {
            run: unopened(cause),
            cents: 0,
        },
    }
}
