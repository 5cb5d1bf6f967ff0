// Transition records in a case file: another table in place of a case's own.
#![tactic(auto)]

mod bytes;

ghost use Rattle.std.specs.Prelude.{◌≡◌, [], ◌∷◌, ◌++◌, ◌+◌, ◌*◌, ◌≤◌, ◌<◌, length, MatchOption};
ghost use Rattle.cases.specs.File.{file_end, transition_table, case_within, transition_limit};
ghost use Rattle.cases.specs.Case.{distinct};
ghost use Rattle.cases.specs.internal.Checks.{transition_part, transitions_in, Laid};
ghost use Rattle.cases.specs.internal.Links.{FirstFlags};
ghost use Rattle.records.specs.Replaced.{with_transitions, written_to};
ghost use Rattle.records.specs.Places.{place_of, without_at};
ghost use Rattle.records.specs.internal.Writing.{RecordsWritten};

use bytes::{put_head, put_record};
use cases::{Flagged, Header, LaidCase, Transition, Transitions};

// How many bytes a record has.
const RECORD: usize = 6;

// The first place of t in a table, if it stands there. It is compiled as a call: the search takes longer where it is compiled into callers.
#[inline(never)]
pub fn find(table: &Transitions<'_>, t: Transition) -> Option<usize>
    ensures { MatchOption result (place_of t (transitions_in table.now.part.now table.now.count) ≡ table.now.count) (λ i. (place_of t (transitions_in table.now.part.now table.now.count) ≡ i) × (i < table.now.count)) }
{
    (0..table.count).position(|i| table.at(i) == t)
}

// Writes those transitions of a table that are the first of their kind. Answers how many they are. The number of those that are written is
// also the place of the next, so a chain that filters them would have to count them too.
fn put_distinct(flagged: &Flagged<'_>, out: &mut [u8]) -> usize
    requires { 6 * flagged.now.table.count ≤ length out.old }
    ensures written { RecordsWritten (distinct (transitions_in flagged.now.table.part.now flagged.now.table.count)) out.old out.new result }
    ensures few { result ≤ flagged.now.table.count }
{
    let mut k = 0;
    for i in 0..flagged.table.count {
        if flagged.is_first(i) {
            put_record(out, RECORD * k, flagged.table.at(i));
            k += 1;
        }
    }
    k
}

// Writes a case with its distinct transitions in place of its table, where those that are the first of their kind are flagged.
#[tactic(auto, using(crate::proofs::Heads::start_few, crate::proofs::Files::length_behind))]
pub fn write_distinct(case: &LaidCase<'_>, first: &[bool], out: &mut [u8])
    requires { FirstFlags (transition_part case.now.bytes.now) case.now.header.transitions first.now × (length case.now.bytes.now ≤ length out.old) }
    ensures { out.new ≡ written_to out.old (with_transitions case.now.bytes.now (distinct (transition_table case.now.bytes.now))) }
{
    let records = case.header.transitions_at;
    out[..records].copy_from_slice(&case.bytes[..records]);
    let flagged = Flagged {
        table: case.transitions(),
        first,
    };
    let k = put_distinct(&flagged, &mut out[records..]);
    let actions = case.header.actions_at;
    let rest = &case.bytes[actions..];
    let at = records + RECORD * k;
    out[at..at + rest.len()].copy_from_slice(rest);
    put_head(out, case.header, k);
}

// Puts a record behind the last one of the case that bytes start with, and moves what follows. This and the next are given the header beside
// the bytes, and not as one struct, whose header would have to be changed with the bytes for no caller.
pub fn insert(bytes: &mut [u8], h: Header, t: Transition)
    requires { Laid (case_within bytes.old) h × (h.transitions < transition_limit) × (file_end h + 6 ≤ length bytes.old) }
    ensures { bytes.new ≡ written_to bytes.old (with_transitions (case_within bytes.old) (transition_table (case_within bytes.old) ++ (t ∷ []))) }
{
    let at = h.actions_at;
    let end = at + 4 * h.actions + 4 * h.nodes;
    bytes.copy_within(at..end, at + RECORD);
    put_record(bytes, at, t);
    put_head(bytes, h, h.transitions + 1);
}

// Takes out the record at a place of the case that bytes start with: the last one takes its place, and what follows moves. It is
// moved in the part that begins where it goes, which is one move of memory: moved in the whole, it took longer.
#[tactic(auto, using(crate::proofs::Files::within_lies))]
pub fn remove(bytes: &mut [u8], h: Header, i: usize)
    requires { Laid (case_within bytes.old) h × (i < h.transitions) }
    ensures { bytes.new ≡ written_to bytes.old (with_transitions (case_within bytes.old) (without_at (transition_table (case_within bytes.old)) i)) }
{
    let records = h.transitions_at;
    let table = Transitions {
        part: &bytes[records..],
        count: h.transitions,
    };
    let last = table.at(h.transitions - 1);
    put_record(bytes, records + RECORD * i, last);
    let at = h.actions_at - RECORD;
    let end = h.actions_at + 4 * h.actions + 4 * h.nodes;
    bytes[at..end].copy_within(RECORD.., 0);
    put_head(bytes, h, h.transitions - 1);
}
