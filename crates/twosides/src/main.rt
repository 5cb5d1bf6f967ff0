// Reads a case from standard input and prints three lines. E for the equation route and D for direct have the refusal number (0 if none),
// the verdict as 1 or 0, the count of marked states that can be reached and the rounds; the last three are 0 on a refusal. T has the records of
// the transition table and the distinct ones, both 0 where the case itself is refused.
#![tactic(auto)]

ghost use Rattle.std.specs.Prelude.{◌≡◌, ◌+◌, ◌++◌, codes, length, OnOk};
ghost use Rattle.std.specs.Io.KnownBytes.{Appends};
ghost use Rattle.cases.specs.Tally.{tally_of};
ghost use Rattle.cases.specs.internal.Checks.{largest_case};
ghost use Rattle.routes.specs.Route.{direct, equation, outcome_of, program_limit, program_memory};
ghost use Rattle.lines.specs.Printed.{outcome_text, records_text};

use cases::LARGEST;
use lines::Runs;
use std::io;
use std::io::Write;

// The length of the largest case, and one more, so that a longer input is refused for its length.
const ROOM: usize = LARGEST + 1;

// Room for the largest case, as its definition counts it, and one byte more.
fn space() -> [u8; ROOM]
    ensures { length result ≡ largest_case + 1 }
{
    lines::room::<ROOM>()
}

// The three lines of a case.
fn run<W: Write>(output: &mut W, case: &[u8]) -> io::Result<()>
    ensures { OnOk result (Appends (W.contents output.old) (W.contents output.new) (
        codes "E" ++ outcome_text (outcome_of equation case.now program_memory program_limit)
        ++ codes "\nD" ++ outcome_text (outcome_of direct case.now program_memory program_limit)
        ++ codes "\nT" ++ records_text (tally_of case.now) ++ codes "\n")) }
{
    let Runs {
        equation,
        direct,
        tally,
    } = lines::run_both(case);
    writeln!(output, "E{equation}\nD{direct}\nT{tally}")
}

fn main(rt: HostRuntime) -> io::Result<()> {
    let mut case = space();
    let length = lines::read_full(&mut rt.reader(), &mut case)?;
    run(&mut io::writer(&rt), &case[..length])
}
