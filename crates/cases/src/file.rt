// Reading a case. Each table is read as the part of the file that starts at its offset.
ghost use Rattle.std.specs.Prelude.{◌≡◌, ◌+◌, ◌*◌, ◌^◌, ◌<◌, ◌≤◌, length, take};
ghost use Rattle.cases.specs.File.{u16, version as file_version, has_label_table, header_size, header_of, label_records, transitions_start, actions_start, formula_start, file_end, case_within, label_limit, transition_limit, action_limit};
ghost use Rattle.cases.specs.internal.Checks.{common_header, longest_header, CountsFit};

use crate::Header;

// How many bytes the header has that all versions have, and how many the longest one has.
pub const HEADER: usize = 20;

pub const LONGEST_HEADER: usize = 22;

// The 16-bit number at a place, low byte first. The numbers of an equation file have 32 bits: solver reads those by a function of its own. One
// function for both widths would be handed the width, and be no plainer.
#[tactic(auto, unfolding(crate::specs::File::u16))]
pub fn number_at(part: &[u8], at: usize) -> usize
    requires { at + 2 ≤ length part.now }
    ensures { (result ≡ u16 part.now at) × (result < 2 ^ 16) }
{
    usize::from(u16::from_le_bytes([part[at], part[at + 1]]))
}

// The version.
pub fn version(case: &[u8]) -> usize
    requires { 2 ≤ length case.now }
    ensures { result ≡ file_version case.now }
{
    number_at(case, 0)
}

// Whether a version has label records. But for condition 2, what depends on the version depends on this.
pub fn has_label_table(version: usize) -> bool
    ensures { result ≡ has_label_table version }
{
    version == 2
}

// How many bytes the header of a version has.
pub fn header_size(version: usize) -> usize
    ensures { (result ≡ header_size version) × (common_header ≤ result) × (result ≤ longest_header) }
{
    if has_label_table(version) {
        return LONGEST_HEADER;
    }
    HEADER
}

// The offset of the label records; the header's end in a version that has none.
fn labels_offset(case: &[u8]) -> usize
    requires { (common_header ≤ length case.now) × (header_size (file_version case.now) ≤ length case.now) }
    ensures { result ≡ (header_of case.now).labels_at }
{
    let version = version(case);
    if has_label_table(version) {
        return number_at(case, HEADER);
    }
    header_size(version)
}

// The numbers of the header.
pub fn header(case: &[u8]) -> Header
    requires { (common_header ≤ length case.now) × (header_size (file_version case.now) ≤ length case.now) }
    ensures { result ≡ header_of case.now }
{
    Header {
        version: version(case),
        states: number_at(case, 2),
        transitions: number_at(case, 4),
        labels: number_at(case, 6),
        initial: number_at(case, 8),
        actions: number_at(case, 10),
        nodes: number_at(case, 12),
        labels_at: labels_offset(case),
        transitions_at: number_at(case, 14),
        actions_at: number_at(case, 16),
        formula_at: number_at(case, 18),
    }
}

// How many label records there are.
pub fn label_records(h: Header) -> usize
    ensures { (result ≡ label_records h) × (result ≤ h.labels) }
{
    if has_label_table(h.version) {
        return h.labels;
    }
    0
}

// How many bytes a case has by its header, whatever its counts.
fn told_length(case: &[u8]) -> usize
    requires { common_header ≤ length case.now }
    ensures { result ≡ file_end (header_of case.now) }
{
    let version = version(case);
    let tables = 6 * number_at(case, 4) + 4 * number_at(case, 10) + 4 * number_at(case, 12);
    if has_label_table(version) {
        return header_size(version) + 8 * number_at(case, 6) + tables;
    }
    header_size(version) + tables
}

// Where the case ends that bytes start with: as many of them as its header says, or all there are.
pub fn case_end(bytes: &[u8]) -> usize
    ensures { (result ≤ length bytes.now) × (take result bytes.now ≡ case_within bytes.now) }
{
    let all = bytes.len();
    if all < HEADER {
        return all;
    }
    let end = told_length(bytes);
    if all < end {
        return all;
    }
    end
}

// Where the transitions have to stand, by the version and the counts. This, the next three, and conditions 4 and 5 ask that the counts are in
// range, so that the sums fit; a type for a header of which that is known would be no plainer than the one word of the contract.
pub fn transitions_start(h: Header) -> usize
    requires { CountsFit h }
    ensures { (result ≡ transitions_start h) × (result ≤ longest_header + 8 * label_limit) }
{
    header_size(h.version) + 8 * label_records(h)
}

// Where the action nodes have to stand.
pub fn actions_start(h: Header) -> usize
    requires { CountsFit h }
    ensures { (result ≡ actions_start h) × (result ≤ longest_header + 8 * label_limit + 6 * transition_limit) }
{
    transitions_start(h) + 6 * h.transitions
}

// Where the formula nodes have to stand.
pub fn formula_start(h: Header) -> usize
    requires { CountsFit h }
    ensures { (result ≡ formula_start h) × (result ≤ longest_header + 8 * label_limit + 6 * transition_limit + 4 * action_limit) }
{
    actions_start(h) + 4 * h.actions
}

// Where the file has to end.
pub fn file_end(h: Header) -> usize
    requires { CountsFit h }
    ensures { result ≡ file_end h }
{
    formula_start(h) + 4 * h.nodes
}
