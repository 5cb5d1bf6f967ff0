// Solves an equation file from standard input and prints one line: S, the refusal number (0 if none), the verdict as 1 or 0,
// the count of marked states and the rounds; the last three are 0 on a refusal.
#![tactic(auto)]

ghost use Rattle.std.specs.Prelude.{◌≡◌, ◌+◌, ◌++◌, codes, length, OnOk};
ghost use Rattle.std.specs.Io.KnownBytes.{Appends};
ghost use Rattle.sets.specs.Words.{word_count};
ghost use Rattle.solver.specs.File.{cell_limit};
ghost use Rattle.solver.specs.Outcome.{solve_outcome};
ghost use Rattle.solver.specs.internal.Forms.{largest_file};
ghost use Rattle.routes.specs.Route.{program_limit};
ghost use Rattle.lines.specs.Printed.{outcome_text};

use lines::Printed;
use solver::LARGEST;
use std::io;
use std::io::Write;

// The length of the largest file, and one more, so that a longer input is refused for its length.
const ROOM: usize = LARGEST + 1;

// Room for the largest file, as its definition counts it, and one byte more.
fn space() -> [u8; ROOM]
    ensures { length result ≡ largest_file + 1 }
{
    lines::room::<ROOM>()
}

// The line of a file.
fn run<W: Write>(output: &mut W, file: &[u8]) -> io::Result<()>
    ensures { OnOk result (Appends (W.contents output.old) (W.contents output.new) (
        codes "S" ++ outcome_text (solve_outcome file.now cell_limit word_count program_limit) ++ codes "\n")) }
{
    let solved = Printed(lines::by_file(file));
    writeln!(output, "S{solved}")
}

// As in `twosides`, but for the room and for what is run: one function over both would be handed a length and a closure, and be no plainer.
fn main(rt: HostRuntime) -> io::Result<()> {
    let mut file = space();
    let length = lines::read_full(&mut rt.reader(), &mut file)?;
    run(&mut io::writer(&rt), &file[..length])
}

#[cfg(test)]
mod tests {
    use solver::Sizes;

    // Where the tables of equation files start, worked out by hand: behind a header of 36 bytes a block has 8 bytes, and behind the blocks a cell has 12.
    #[test]
    fn tables_start(rt: HostRuntime) {
        let least = Sizes {
            states: 1,
            blocks: 1,
            cells: 1,
            operands: 0,
            initial: 0,
        };
        assert_eq!(rt; least.cells_from(), 44);
        assert_eq!(rt; least.operands_from(), 56);
        let largest = Sizes {
            states: 256,
            blocks: 6,
            cells: 16_640,
            operands: 133_120,
            initial: 255,
        };
        assert_eq!(rt; largest.cells_from(), 84);
        assert_eq!(rt; largest.operands_from(), 199_764);
    }
}
