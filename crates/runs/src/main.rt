// Reads a stream of cases from standard input, each as its length, a 16-bit number, low byte first, and then so many bytes. Prints a line
// for each: its number in the stream, and then what `twosides` prints. A stream that ends inside a case ends there.
#![tactic(auto)]

ghost use Rattle.std.specs.Prelude.{◌++◌, codes, decimal, OnOk};
ghost use Rattle.std.specs.Io.KnownBytes.{Appends};
ghost use Rattle.cases.specs.Tally.{tally_of};
ghost use Rattle.routes.specs.Route.{direct, equation, outcome_of, program_limit, program_memory};
ghost use Rattle.lines.specs.Printed.{outcome_text, records_text};

use lines::Runs;
use std::io;
use std::io::Write;

// The line of a case. `twosides` prints the same of a case on three lines: what the two share is `lines::run_both`, and each has its own layout.
fn run<W: Write>(output: &mut W, number: u64, case: &[u8]) -> io::Result<()>
    ensures { OnOk result (Appends (W.contents output.old) (W.contents output.new) (
        decimal number
        ++ codes " E" ++ outcome_text (outcome_of equation case.now program_memory program_limit)
        ++ codes " D" ++ outcome_text (outcome_of direct case.now program_memory program_limit)
        ++ codes " T" ++ records_text (tally_of case.now) ++ codes "\n")) }
{
    let Runs {
        equation,
        direct,
        tally,
    } = lines::run_both(case);
    writeln!(output, "{number} E{equation} D{direct} T{tally}")
}

// The cases are numbered, so they are counted; each loop is proved to end too, and the count ends it where the stream does not.
fn main(rt: HostRuntime) -> io::Result<()> {
    let mut input = rt.reader();
    let mut output = io::writer(&rt);
    let mut space = [0u8; lines::LONGEST];
    for number in 1..u64::MAX {
        let Some(case) = lines::next_case(&mut input, &mut space)? else {
            break;
        };
        run(&mut output, number, case.bytes)?;
        if !case.is_whole() {
            break;
        }
    }
    Ok(())
}
