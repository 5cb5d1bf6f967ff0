// Reads a case from standard input, as its length, a 16-bit number, low byte first, and then so many bytes, and opens it as a model. Then it
// reads calls: 1 adds a transition and 2 drops one, three 16-bit numbers, source, label and target; 3 wants the marks, by a limit of 64 bits.
// Prints a line for each: `open`, `add`, `drop` or `want`, the refusal number (0 if none), and of `want` the verdict, the count of marked
// states that can be reached, the rounds, the records and the distinct ones too. Ends after a refused open, at any other call, and where the
// stream does.
#![tactic(auto)]

use cases::{LARGEST, Transition, Transitions};
use lines::{Printed, next_bytes, next_case, print_line};
use models::{Change, change_number};
use sets::WORDS;
use std::io;
use std::io::{Read, Write};

// An editor: where its calls come from, where its lines go, and the model that it edits.
#[derive(Drop)]
struct Editor<'a, R, W> {
    input: R,
    output: W,
    model: &'a mut [u8],
}

impl<R: Read, W: Write> Editor<'_, R, W> {
    // Opens the case that comes next, as far as the stream goes, and answers whether it was accepted.
    fn open_next(&mut self) -> io::Result<bool> {
        let mut space = [0u8; lines::LONGEST];
        let Some(case) = next_case(&mut self.input, &mut space)? else {
            return Ok(false);
        };
        let change = models::open(case.bytes, self.model);
        let refusal = change_number(change);
        writeln!(self.output, "open {refusal}")?;
        Ok(change.is_ok())
    }

    // Makes a change, add or drop, by the transition that comes next, and answers whether the stream may go on. A transition comes as a case
    // has it, so it is read as a table of one.
    fn change_next<F: FnOnce(&mut [u8], Transition) -> Change>(
        &mut self,
        name: &str,
        change: F,
    ) -> io::Result<bool>
        requires { F.IsAlwaysCallable change }
    {
        let Some(bytes) = next_bytes::<6, R>(&mut self.input)? else {
            return Ok(false);
        };
        let table = Transitions {
            part: &bytes,
            count: 1,
        };
        let refusal = change_number(change(self.model, table.at(0)));
        writeln!(self.output, "{name} {refusal}")?;
        Ok(true)
    }

    // Works out the marks by the limit that comes next, and answers whether the stream may go on.
    fn want_next(&mut self) -> io::Result<bool> {
        let Some(limit) = next_bytes(&mut self.input)? else {
            return Ok(false);
        };
        let mut marks = [0u64; WORDS];
        let run = models::want(self.model, &mut marks, u64::from_le_bytes(limit));
        print_line(&mut self.output, "want", &Printed(run))?;
        Ok(true)
    }

    // Makes the next call, and answers whether the stream may go on. The byte is told apart here and nowhere else, so an enum of calls would be
    // no plainer.
    fn call_next(&mut self) -> io::Result<bool> {
        let Some(call) = next_bytes::<1, R>(&mut self.input)? else {
            return Ok(false);
        };
        match call {
            [1] => self.change_next("add", models::add),
            [2] => self.change_next("drop", models::drop),
            [3] => self.want_next(),
            _ => Ok(false),
        }
    }

    // Makes the calls on an opened model, one after another. Each loop is proved to end, and one that need not would take a handle that no
    // program here has: so the calls are counted, up to more than a stream gives.
    fn call_all(&mut self) -> io::Result<()> {
        for _ in 1..u64::MAX {
            if !self.call_next()? {
                break;
            }
        }
        Ok(())
    }
}

fn main(rt: HostRuntime) -> io::Result<()> {
    let mut model = [0u8; LARGEST];
    let mut editor = Editor {
        input: rt.reader(),
        output: io::writer(&rt),
        model: &mut model,
    };
    if editor.open_next()? {
        editor.call_all()?;
    }
    Ok(())
}
