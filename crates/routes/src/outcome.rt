// Answers of solve's as answers of a route, and answers as numbers.
ghost use Rattle.std.specs.Prelude.{◌≡◌};
ghost use Rattle.solver.specs.Outcome.{solve_answer};
ghost use Rattle.routes.specs.Route.{route_number, route_answer, shown};
ghost use Rattle.routes.specs.declared.Cause.TheVariants.{Open, Run};

use crate::{Answer, Cause, Numbers};

// What is found on opening a case.
impl From<cases::Cause> for Cause {
    ghost from_gives = { λ cause given. given ≡ Open cause };

    fn from(cause: cases::Cause) -> Cause {
        Cause::Open(cause)
    }
}

// What is found on running a case.
impl From<solver::Cause> for Cause {
    ghost from_gives = { λ cause given. given ≡ Run cause };

    fn from(cause: solver::Cause) -> Cause {
        Cause::Run(cause)
    }
}

// An answer of solve's. Neither of the two types is this crate's, so there can be no `From` between them.
pub fn solving_answer(answer: solver::Answer) -> Answer
    ensures { route_answer result ≡ solve_answer answer }
{
    Ok(answer?)
}

// The number of a cause.
impl From<Cause> for u64 {
    ghost from_gives = { λ cause number. number ≡ route_number cause };

    #[tactic(auto, unfolding(crate::specs::Route::route_number))]
    fn from(cause: Cause) -> u64 {
        match cause {
            Cause::Open(cause) => u64::from(cause),
            Cause::Run(cause) => u64::from(cause),
        }
    }
}

// The numbers of an answer.
impl From<Answer> for Numbers {
    ghost from_gives = { λ answer numbers. shown numbers ≡ route_answer answer };

    #[tactic(auto, unfolding(crate::specs::Route::route_answer, crate::specs::Route::shown))]
    fn from(answer: Answer) -> Numbers {
        match answer {
            Ok(report) => Numbers {
                refusal: 0,
                verdict: u64::from(report.verdict),
                count: report.count as u64,
                rounds: report.rounds,
            },
            Err(cause) => Numbers {
                refusal: u64::from(cause),
                verdict: 0,
                count: 0,
                rounds: 0,
            },
        }
    }
}
