// Both routes and solve, as the programs run them: their limit, their memory, how input is read, and how the numbers are printed.
#![tactic(auto)]

ghost use Rattle.std.specs.Prelude.{◌≡◌, ◌↔◌, ◌<◌, ◌≤◌, ◌++◌, codes, length, take, Some, IfOk, OnOk, IfSome, IsNone, IsTrue};
ghost use Rattle.std.specs.Io.KnownBytes.{Appends, Consumes, IsAtEnd};
ghost use Rattle.sets.specs.Words.{word_count};
ghost use Rattle.solver.specs.File.{cell_limit};
ghost use Rattle.solver.specs.Outcome.{solve_outcome};
ghost use Rattle.cases.specs.Tally.{tally_of};
ghost use Rattle.routes.specs.Route.{route_answer, direct, equation, outcome_of, shown, program_limit, program_memory};
ghost use Rattle.lines.specs.Printed.{outcome_text, records_text};
ghost use Rattle.lines.specs.Streams.{CaseRead};

use cases::Tally;
use routes::{Numbers, Tallied, solving_answer};
use sets::WORDS;
use solver::CELLS;
use std::io::{Read, Write};
use std::{fmt, io};

const LIMIT: u64 = 1_000_000;

const FILE: usize = 65_536;

// The longest case that a stream announces, by a length of 16 bits.
pub const LONGEST: usize = 65_535;

// What the equation route answers, with fresh memory. The programs do not print what it costs.
pub fn by_equation(case: &[u8]) -> Tallied
    ensures { (route_answer result.answer ≡ outcome_of equation case.now program_memory program_limit) × (result.tally ≡ tally_of case.now) }
{
    let mut file = [0u8; FILE];
    let mut work = [0u8; CELLS];
    let mut marks = [0u64; WORDS];
    routes::equation(case, &mut file, &mut work, &mut marks, LIMIT).run
}

// What direct answers, with fresh memory.
pub fn by_direct(case: &[u8]) -> Tallied
    ensures { (route_answer result.answer ≡ outcome_of direct case.now program_memory program_limit) × (result.tally ≡ tally_of case.now) }
{
    let mut marks = [0u64; WORDS];
    routes::direct(case, &mut marks, LIMIT)
}

// What both routes answer for a case, and its tally, as they are printed.
#[derive(Clone, Copy)]
pub struct Runs {
    pub equation: Printed<Numbers>,
    pub direct: Printed<Numbers>,
    pub tally: Printed<Tally>,
}

// Both routes on a case, with fresh memory.
pub fn run_both(case: &[u8]) -> Runs
    ensures equation { shown result.equation.0 ≡ outcome_of equation case.now program_memory program_limit }
    ensures direct { shown result.direct.0 ≡ outcome_of direct case.now program_memory program_limit }
    ensures tally { result.tally.0 ≡ tally_of case.now }
{
    let equation = by_equation(case);
    let direct = by_direct(case);
    Runs {
        equation: Printed(Numbers::from(equation.answer)),
        direct: Printed(Numbers::from(direct.answer)),
        tally: Printed(direct.tally),
    }
}

// The numbers of solving an equation file, with fresh memory.
pub fn by_file(file: &[u8]) -> Numbers
    ensures { shown result ≡ solve_outcome file.now cell_limit word_count program_limit }
{
    let mut work = [0u8; CELLS];
    let mut marks = [0u64; WORDS];
    Numbers::from(solving_answer(solver::solve(file, &mut work, &mut marks, LIMIT)))
}

// Reads until a buffer is full or the input ends, and answers how many bytes came. They are the first ones of the buffer. No method of the
// library does it: `read_exact` refuses an input that ends before, and `read_to_end` needs a heap. A turn goes on by as many bytes as one
// read gives, so no range counts the turns.
pub fn read_full<R: Read>(reader: &mut R, buffer: &mut [u8]) -> io::Result<usize>
    ensures within { IfOk result (λ n. n ≤ length buffer.new) }
    ensures bytes { IfOk result (λ n. Consumes (R.remaining reader.old) (R.remaining reader.new) (take n buffer.new)) }
    ensures end { IfOk result (λ n. n < length buffer.new → IsAtEnd (R.remaining reader.new)) }
{
    let mut filled = 0;
    while filled < buffer.len() {
        let count = reader.read(&mut buffer[filled..])?;
        if count == 0 {
            return Ok(filled);
        }
        filled += count;
    }
    Ok(filled)
}

// Room for N bytes. The check does not count them out, as it would those of an array that stands where it is used.
pub fn room<const N: usize>() -> [u8; N]
    ensures { length result ≡ N }
{
    [0u8; N]
}

// Reads the next N bytes; none where the input ends before.
pub fn next_bytes<const N: usize, R: Read>(reader: &mut R) -> io::Result<Option<[u8; N]>>
    ensures bytes { IfOk result (λ o. IfSome o (λ bytes. Consumes (R.remaining reader.old) (R.remaining reader.new) bytes)) }
    ensures end { IfOk result (λ o. IsNone o → IsAtEnd (R.remaining reader.new)) }
{
    let mut bytes = [0u8; N];
    let count = read_full(reader, &mut bytes)?;
    if count < N {
        return Ok(None);
    }
    Ok(Some(bytes))
}

// A case of a stream: how many bytes were announced, and those that came.
#[derive(Clone, Copy)]
pub struct Announced<'a> {
    pub length: usize,
    pub bytes: &'a [u8],
}

impl Announced<'_> {
    // Whether all of them came.
    pub fn is_whole(&self) -> bool
        ensures { IsTrue result ↔ (length self.now.bytes.now ≡ self.now.length) }
    {
        self.bytes.len() == self.length
    }
}

// Reads the next case of a stream into lent bytes, as far as the stream goes: its length, a 16-bit number, low byte first, and then so many
// bytes. None where the stream ends in the length or before it.
pub fn next_case<'a, R: Read>(
    reader: &mut R,
    space: &'a mut [u8; LONGEST],
) -> io::Result<Option<Announced<'a>>>
    ensures case { IfOk result (λ o. IfSome o (λ case. CaseRead (R.remaining reader.entry.now) (R.remaining reader.exit.now) case.length case.bytes.now)) }
    ensures end { IfOk result (λ o. IsNone o → IsAtEnd (R.remaining reader.exit.now)) }
{
    let Some(prefix) = next_bytes(reader)? else {
        return Ok(None);
    };
    let length = u16::from_le_bytes(prefix) as usize;
    let count = read_full(reader, &mut space[..length])?;
    let bytes = &space[..count];
    Ok(Some(Announced { length, bytes }))
}

// The numbers of an answer, of a tally, or of a route's answer and its tally, as the programs print them behind a name: a space, and the
// number in decimal digits, for each.
#[derive(Clone, Copy)]
pub struct Printed<T>(pub T);

impl fmt::Display for Printed<Numbers> {
    ghost output = { λ p. Some (outcome_text (shown p.0)) };

    #[tactic(auto, unfolding(routes::specs::Route::shown))]
    fn fmt<W: fmt::Write>(&self, f: &mut fmt::Formatter<W>) -> fmt::Result {
        let Numbers {
            refusal,
            verdict,
            count,
            rounds,
        } = self.0;
        write!(f, " {refusal} {verdict} {count} {rounds}")
    }
}

impl fmt::Display for Printed<Tally> {
    ghost output = { λ p. Some (records_text p.0) };

    fn fmt<W: fmt::Write>(&self, f: &mut fmt::Formatter<W>) -> fmt::Result {
        let Tally { records, distinct } = self.0;
        write!(f, " {records} {distinct}")
    }
}

impl fmt::Display for Printed<Tallied> {
    ghost output = { λ p. Some (outcome_text (route_answer p.0.answer) ++ records_text p.0.tally) };

    fn fmt<W: fmt::Write>(&self, f: &mut fmt::Formatter<W>) -> fmt::Result {
        let numbers = Printed(Numbers::from(self.0.answer));
        let tally = Printed(self.0.tally);
        write!(f, "{numbers}{tally}")
    }
}

// Prints a line: a name, and what is printed behind it.
pub fn print_line<W: Write, T: fmt::Display>(
    writer: &mut W,
    name: &str,
    printed: &T,
) -> io::Result<()>
    ensures { (text : _) → T.output printed.now ≡ Some text
        → OnOk result (Appends (W.contents writer.old) (W.contents writer.new) (name.now ++ text ++ codes "\n")) }
{
    writeln!(writer, "{name}{printed}")
}
