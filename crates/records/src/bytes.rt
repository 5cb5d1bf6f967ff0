// Writing numbers of 16 bits, records and heads.
ghost use Rattle.std.specs.Prelude.{◌≡◌, ◌+◌, ◌≤◌, length};
ghost use Rattle.cases.specs.File.{transitions_start, transition_limit};
ghost use Rattle.cases.specs.internal.Checks.{common_header, CountsFit};
ghost use Rattle.records.specs.Replaced.{record_bytes, with_number, head_for};
ghost use Rattle.records.specs.internal.Writing.{over};

use cases::{Header, Transition};

// One number, low byte first. Translating writes numbers of 32 bits; one writer for both sizes would take the bytes of a number by its size,
// which is no plainer.
fn put_number(bytes: &mut [u8], at: usize, x: usize)
    requires { at + 2 ≤ length bytes.old }
    ensures { bytes.new ≡ with_number bytes.old at x }
{
    let [low, high, ..] = x.to_le_bytes();
    bytes[at] = low;
    bytes[at + 1] = high;
}

// A record.
pub fn put_record(bytes: &mut [u8], at: usize, t: Transition)
    requires { at + 6 ≤ length bytes.old }
    ensures { bytes.new ≡ over bytes.old at (record_bytes t) }
{
    put_number(bytes, at, t.source);
    put_number(bytes, at + 2, t.label);
    put_number(bytes, at + 4, t.target);
}

// The numbers of a head that depend on how many transitions there are. The bytes are no case while they are written, so what is asked is of
// the header alone.
#[tactic(auto, using(crate::proofs::Heads::start_few))]
pub fn put_head(bytes: &mut [u8], h: Header, k: usize)
    requires { (common_header ≤ length bytes.old) × CountsFit h × (h.transitions_at ≡ transitions_start h) × (k ≤ transition_limit) }
    ensures { bytes.new ≡ head_for h k bytes.old }
{
    let actions = h.transitions_at + 6 * k;
    put_number(bytes, 4, k);
    put_number(bytes, 16, actions);
    put_number(bytes, 18, actions + 4 * h.actions);
}
