// The calls for programs in C or Rust. A slice is a pointer and a length. Translating and solving answer five numbers, direct over a case or
// a model six, the equation route seven, and a change of a model one, its refusal number.
#![tactic(auto)]

ghost use Rattle.std.specs.Prelude.{◌≡◌};
ghost use Rattle.sets.specs.Refusals.{refused};
ghost use Rattle.translate.specs.Translating.{written_number, written_length};
ghost use Rattle.routes.specs.Route.{route_answer, lent};
ghost use Rattle.cases.specs.File.{case_within};
ghost use Rattle.exports.specs.Exported.{exported_route, exported_tally, TranslateSays, SolveSays, DirectSays, EquationSays, OpenSays, AddSays, DropSays};
ghost use Rattle.exports.specs.internal.Saying.{Says};

use cases::Transition;
use models::change_number;
use routes::{Answer, Priced, Tallied, solving_answer};
use translate::Written;

// The refusal number (0 if none), the verdict as 1 or 0, the count of marked states, the rounds, and the length of the file that was
// written. What a call does not answer is 0, and so are all but the first after a refusal. Plain numbers in place of a Result, and here and
// below one struct for each call's numbers, since the C interface needs it.
#[repr(C)]
#[derive(Clone, Copy, Default)]
pub struct Numbers {
    pub refusal: u64,
    pub verdict: u64,
    pub count: u64,
    pub rounds: u64,
    pub length: u64,
}

// The refusal number (0 if none), the verdict as 1 or 0, the count of marked states that can be reached and the rounds, which are 0 after a
// refusal; then how many records the case's transition table has and how many of them are distinct, which are 0 where the case is refused on
// opening.
#[repr(C)]
#[derive(Clone, Copy)]
pub struct RouteNumbers {
    pub refusal: u64,
    pub verdict: u64,
    pub count: u64,
    pub rounds: u64,
    pub records: u64,
    pub distinct: u64,
}

// The six numbers of a route, and then the price of the run, in cents. For C they are seven numbers in a row.
#[repr(C)]
#[derive(Clone, Copy)]
pub struct EquationNumbers {
    pub run: RouteNumbers,
    pub cents: u64,
}

// The numbers of an answer.
impl From<Answer> for Numbers {
    ghost from_gives = { λ answer numbers. Says numbers (route_answer answer) 0 };

    #[tactic(auto, unfolding(crate::specs::Exported::exported, routes::specs::Route::shown))]
    fn from(answer: Answer) -> Numbers {
        let numbers = routes::Numbers::from(answer);
        Numbers {
            refusal: numbers.refusal,
            verdict: numbers.verdict,
            count: numbers.count,
            rounds: numbers.rounds,
            length: 0,
        }
    }
}

// The numbers of a translation.
impl From<Written> for Numbers {
    ghost from_gives = { λ answer numbers. Says numbers (refused (written_number answer)) (written_length answer) };

    #[tactic(auto, unfolding(crate::specs::Exported::exported, translate::specs::Translating::written_number, translate::specs::Translating::written_length))]
    fn from(answer: Written) -> Numbers {
        match answer {
            Ok(length) => Numbers {
                length: length as u64,
                ..Numbers::default()
            },
            Err(cause) => Numbers {
                refusal: u64::from(cause),
                ..Numbers::default()
            },
        }
    }
}

// The numbers of a route's answer, and of its tally.
impl From<Tallied> for RouteNumbers {
    ghost from_gives = { λ run numbers. (exported_route numbers ≡ route_answer run.answer) × (exported_tally numbers ≡ run.tally) };

    #[tactic(auto, unfolding(crate::specs::Exported::exported, crate::specs::Exported::exported_route, crate::specs::Exported::exported_tally))]
    fn from(run: Tallied) -> RouteNumbers {
        let five = Numbers::from(run.answer);
        RouteNumbers {
            refusal: five.refusal,
            verdict: five.verdict,
            count: five.count,
            rounds: five.rounds,
            records: run.tally.records as u64,
            distinct: run.tally.distinct as u64,
        }
    }
}

// The numbers of a run of the equation route.
impl From<Priced> for EquationNumbers {
    ghost from_gives = { λ priced numbers. (exported_route numbers.run ≡ route_answer priced.run.answer) × (exported_tally numbers.run ≡ priced.run.tally) × (numbers.cents ≡ priced.cents) };

    fn from(priced: Priced) -> EquationNumbers {
        EquationNumbers {
            run: RouteNumbers::from(priced.run),
            cents: priced.cents,
        }
    }
}

// A transition of three 64-bit numbers, which C gives one by one.
fn transition_of(source: u64, label: u64, target: u64) -> Transition
    ensures { result ≡ record { source = source; label = label; target = target } }
{
    Transition {
        source: source as usize,
        label: label as usize,
        target: target as usize,
    }
}

#[unsafe(no_mangle)]
pub extern "C" fn bithrowy_translate(case: &[u8], file: &mut [u8]) -> Numbers
    ensures { TranslateSays case.now file.old result file.new }
{
    Numbers::from(translate::translate(case, file))
}

#[unsafe(no_mangle)]
pub extern "C" fn bithrowy_solve(
    file: &[u8],
    work: &mut [u8],
    marks: &mut [u64],
    limit: u64,
) -> Numbers
    ensures { SolveSays file.now work.old marks.old limit result work.new marks.new }
{
    Numbers::from(solving_answer(solver::solve(file, work, marks, limit)))
}

#[unsafe(no_mangle)]
pub extern "C" fn bithrowy_direct(case: &[u8], marks: &mut [u64], limit: u64) -> RouteNumbers
    ensures { DirectSays case.now marks.old limit result marks.new }
{
    RouteNumbers::from(routes::direct(case, marks, limit))
}

#[unsafe(no_mangle)]
pub extern "C" fn bithrowy_equation(
    case: &[u8],
    file: &mut [u8],
    work: &mut [u8],
    marks: &mut [u64],
    limit: u64,
) -> EquationNumbers
    ensures { EquationSays case.now (lent file.old work.old marks.old) limit result
        file.new work.new marks.new }
{
    EquationNumbers::from(routes::equation(case, file, work, marks, limit))
}

#[unsafe(no_mangle)]
pub extern "C" fn bithrowy_open(case: &[u8], model: &mut [u8]) -> u64
    ensures { OpenSays case.now model.old result model.new }
{
    change_number(models::open(case, model))
}

#[unsafe(no_mangle)]
pub extern "C" fn bithrowy_add(model: &mut [u8], source: u64, label: u64, target: u64) -> u64
    ensures { AddSays model.old (record { source = source; label = label; target = target }) result model.new }
{
    change_number(models::add(model, transition_of(source, label, target)))
}

#[unsafe(no_mangle)]
pub extern "C" fn bithrowy_drop(model: &mut [u8], source: u64, label: u64, target: u64) -> u64
    ensures { DropSays model.old (record { source = source; label = label; target = target }) result model.new }
{
    change_number(models::drop(model, transition_of(source, label, target)))
}

#[unsafe(no_mangle)]
pub extern "C" fn bithrowy_want(model: &[u8], marks: &mut [u64], limit: u64) -> RouteNumbers
    ensures { DirectSays (case_within model.now) marks.old limit result marks.new }
{
    RouteNumbers::from(models::want(model, marks, limit))
}
