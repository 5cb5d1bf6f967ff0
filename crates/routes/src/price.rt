// What a run of the equation route costs, in cents.
ghost use Rattle.std.specs.Prelude.{◌≡◌};
ghost use Rattle.routes.specs.Route.{route_answer};
ghost use Rattle.routes.specs.Price.{round_price, solved_price, price};

use crate::{Answer, Cause};

// 2 for each started 1,000 rounds.
fn round_price(rounds: u64) -> u64
    ensures { result ≡ round_price rounds }
{
    2 * rounds.div_ceil(1_000)
}

// The price of a solved run. The run pays for its rounds, and 1 for each started 500 cells. One of at most 100 cells is free. The minimum of 5 is applied last.
#[tactic(auto, unfolding(crate::specs::Price::solved_price))]
fn solved_price(rounds: u64, cells: u64) -> u64
    ensures { result ≡ solved_price rounds cells }
{
    let used = round_price(rounds) + cells.div_ceil(500);
    let owed = if cells <= 100 { 0 } else { used };
    owed.max(5)
}

// The price of an answer. A spent run pays for its limit; any other refusal costs nothing.
#[tactic(auto, unfolding(crate::specs::Price::price, crate::specs::Route::route_answer, crate::specs::Route::route_number, solver::specs::Outcome::solve_number, cases::specs::Opening::case_number))]
pub fn price(answer: Answer, cells: usize, limit: u64) -> u64
    ensures { result ≡ price (route_answer answer) cells limit }
{
    match answer {
        Ok(report) => solved_price(report.rounds, cells as u64),
        Err(Cause::Run(solver::Cause::Spent)) => round_price(limit),
        Err(_) => 0,
    }
}
