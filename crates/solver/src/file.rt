// Reading an equation file.
ghost use Rattle.std.specs.Prelude.{◌≡◌, ◌+◌, ◌*◌, ◌^◌, ◌<◌, ◌≤◌, length, drop};
ghost use Rattle.solver.specs.File.{u32, cells_at, operands_at, entry_at, sizes_of, blocks_at};
ghost use Rattle.solver.specs.internal.Checks.{Read};
ghost use Rattle.solver.specs.internal.Working.{OpenFile};

use crate::{Operands, Sizes};

// How many bytes stand before the first table.
pub const HEADER: usize = 36;

// The 32-bit number at a place, low byte first. The numbers of a case have 16 bits: one function for both would be handed the width, and be no plainer.
#[tactic(auto, unfolding(crate::specs::File::u32))]
pub fn number_at(file: &[u8], at: usize) -> usize
    requires { at + 4 ≤ length file.now }
    ensures { (result ≡ u32 file.now at) × (result < 2 ^ 32) }
{
    u32::from_le_bytes([file[at], file[at + 1], file[at + 2], file[at + 3]]) as usize
}

// The counts in the header.
pub fn sizes_of(file: &[u8]) -> Sizes
    requires { blocks_at ≤ length file.now }
    ensures { result ≡ sizes_of file.now }
{
    Sizes {
        states: number_at(file, 4),
        blocks: number_at(file, 8),
        cells: number_at(file, 12),
        operands: number_at(file, 16),
        initial: number_at(file, 20),
    }
}

// The tables of a file of which condition 11 does not hold, with its counts.
#[derive(Clone, Copy)]
pub struct Tables<'a> {
    pub bytes: &'a [u8],
    pub sizes: Sizes,
    ghost read: { Read bytes.now sizes },
}

impl<'a> Tables<'a> {
    // The sign of block k, the file's number: 0 is mu, 1 is nu. It stays a number: an enum would be told by the number for condition 12, and told
    // again where a block starts, no plainer.
    pub fn sign(&self, k: usize) -> usize
        requires { k < self.now.sizes.blocks }
        ensures { result ≡ u32 self.now.bytes.now (blocks_at + 8 * k) }
    {
        number_at(self.bytes, HEADER + 8 * k)
    }

    // The first cell of block k.
    pub fn first(&self, k: usize) -> usize
        requires { k < self.now.sizes.blocks }
        ensures { (result ≡ u32 self.now.bytes.now (blocks_at + 8 * k + 4)) × (result < 2 ^ 32) }
    {
        number_at(self.bytes, HEADER + 8 * k + 4)
    }

    // The cell table and what is behind it, which has the places of cells as multiples of 12.
    fn cells(&self) -> &'a [u8]
        ensures { result.now ≡ drop (cells_at (sizes_of self.now.bytes.now)) self.now.bytes.now }
    {
        &self.bytes[self.sizes.cells_from()..]
    }

    // The kind of cell i, the file's number: 0 is an and, 1 an or, 2 a variable. It stays a number: as an enum, which is told by the number and then told again,
    // it was tried, and solve took a quarter more instructions.
    pub fn kind(&self, i: usize) -> usize
        requires { i < self.now.sizes.cells }
        ensures { result ≡ (entry_at self.now.bytes.now i).kind }
    {
        number_at(self.cells(), 12 * i)
    }

    // The two numbers behind the kind of cell i: the block and the state, if it is a variable.
    pub fn pair(&self, i: usize) -> (usize, usize)
        requires { i < self.now.sizes.cells }
        ensures { (result.0 ≡ (entry_at self.now.bytes.now i).one) × (result.1 ≡ (entry_at self.now.bytes.now i).two) }
    {
        let cells = self.cells();
        (number_at(cells, 12 * i + 4), number_at(cells, 12 * i + 8))
    }

    // The operands of cell i, if it is an and or an or.
    pub fn list(&self, i: usize) -> Operands
        requires { i < self.now.sizes.cells }
        ensures { (result.first ≡ (entry_at self.now.bytes.now i).one) × (result.count ≡ (entry_at self.now.bytes.now i).two) }
    {
        let (first, count) = self.pair(i);
        Operands { first, count }
    }

    // The number at place j of the operand table.
    pub fn operand(&self, j: usize) -> usize
        requires { j < self.now.sizes.operands }
        ensures { result ≡ u32 self.now.bytes.now (operands_at (sizes_of self.now.bytes.now) + 4 * j) }
    {
        number_at(self.bytes, self.sizes.operands_from() + 4 * j)
    }
}

// A file of which neither condition 11 nor condition 12 holds.
#[derive(Clone, Copy)]
pub struct EquationFile<'a> {
    pub tables: Tables<'a>,
    ghost opens: { OpenFile tables.bytes.now tables.sizes },
}
