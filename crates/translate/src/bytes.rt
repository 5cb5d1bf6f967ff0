// Writing numbers of 32 bits, low byte first.
ghost use Rattle.std.specs.Prelude.{[], ◌∷◌, ◌*◌, ◌≤◌, length};
ghost use Rattle.translate.specs.internal.Parts.{HasRoom, Wrote, Starts};

// A buffer with numbers at its start, behind which others are written, and how many they are. The buffer is lent and there is no heap, so the
// number stands beside it. How much room a function needs differs from one to another, so it stands in their contracts and not in the type. Loops
// that write are `for` loops: a chain would end in a closure that changes the writer, and be no plainer.
#[derive(Drop)]
pub struct Writer<'a> {
    pub out: &'a mut [u8],
    pub done: usize,
}

impl Writer<'_> {
    // One number. The records of a case have numbers of 16 bits and are written by the crate `records`: one function for both would be handed
    // the width, and be no plainer.
    fn put_number(&mut self, x: usize)
        requires { HasRoom self.old 1 }
        ensures { Wrote (x ∷ []) self.old self.new }
    {
        let at = 4 * self.done;
        self.out[at..at + 4].copy_from_slice(&x.to_le_bytes()[..4]);
        self.done += 1;
    }

    // Some numbers, one behind another.
    pub fn put<const N: usize>(&mut self, numbers: [usize; N])
        requires { HasRoom self.old N }
        ensures { Wrote numbers.entry self.old self.new }
    {
        for x in numbers {
            self.put_number(x);
        }
    }
}

// Some numbers, to the start of a part.
pub fn put<const N: usize>(part: &mut [u8], numbers: [usize; N])
    requires { 4 * N ≤ length part.old }
    ensures { Starts numbers.entry part.old part.new }
{
    let mut w = Writer { out: part, done: 0 };
    w.put(numbers);
}
