// The tables of a case: each is the part of the file that starts at its offset, with the number of its records.
ghost use Rattle.std.specs.Prelude.{◌≡◌, ◌+◌, ◌*◌, ◌<◌, ◌≤◌, length, drop};
ghost use Rattle.cases.specs.File.{label_records as records_of, label_in, transition_in, node_in};
ghost use Rattle.cases.specs.Conditions.{Accepted};
ghost use Rattle.cases.specs.internal.Checks.{label_part, transition_part, action_part, formula_part, Laid};

use crate::file::{label_records, number_at};
use crate::{Header, Label, Node, Transition};

// A part of a file that starts with a table, and how many records the table has; each has SIZE bytes. One `at` for all three, over a trait of
// records, would want an impl that reads for each of them all the same, and the kind of record in the table: no plainer. Nor would an iterator be,
// which wants an impl with its laws for each of them, where chains over a range with `at` say the same.
#[derive(Clone, Copy)]
pub struct Table<'a, const SIZE: usize> {
    pub part: &'a [u8],
    pub count: usize,
    ghost inside: { SIZE * count ≤ length part.now },
}

pub type LabelRecords<'a> = Table<'a, 8>;

pub type Transitions<'a> = Table<'a, 6>;

pub type Nodes<'a> = Table<'a, 4>;

impl<'a> Table<'a, 8> {
    // Label record j.
    pub fn at(&self, j: usize) -> Label
        requires { j < self.now.count }
        ensures { result ≡ label_in self.now.part.now j }
    {
        let at = 8 * j;
        Label {
            names: [
                number_at(self.part, at),
                number_at(self.part, at + 2),
                number_at(self.part, at + 4),
                number_at(self.part, at + 6),
            ],
        }
    }
}

impl<'a> Table<'a, 6> {
    // Transition i.
    pub fn at(&self, i: usize) -> Transition
        requires { i < self.now.count }
        ensures { result ≡ transition_in self.now.part.now i }
    {
        let at = 6 * i;
        Transition {
            source: number_at(self.part, at),
            label: number_at(self.part, at + 2),
            target: number_at(self.part, at + 4),
        }
    }
}

impl<'a> Table<'a, 4> {
    // Node i.
    pub fn at(&self, i: usize) -> Node
        requires { i < self.now.count }
        ensures { result ≡ node_in self.now.part.now i }
    {
        let at = 4 * i;
        Node {
            kind: number_at(self.part, at),
            arg: number_at(self.part, at + 2),
        }
    }
}

// A case whose layout is right, and its header.
#[derive(Clone, Copy)]
pub struct LaidCase<'a> {
    pub bytes: &'a [u8],
    pub header: Header,
    ghost laid: { Laid bytes.now header },
}

impl<'a> LaidCase<'a> {
    // The table that starts at a place, of so many records.
    fn table<const SIZE: usize>(&self, start: usize, count: usize) -> Table<'a, SIZE>
        requires { start + SIZE * count ≤ length self.now.bytes.now }
        ensures part { result.part.now ≡ drop start self.now.bytes.now }
        ensures count { result.count ≡ count }
    {
        Table {
            part: &self.bytes[start..],
            count,
        }
    }

    // The label records, where there are any.
    pub fn labels(&self) -> LabelRecords<'a>
        ensures part { result.part.now ≡ label_part self.now.bytes.now }
        ensures count { result.count ≡ records_of self.now.header }
    {
        self.table(self.header.labels_at, label_records(self.header))
    }

    // The transitions.
    pub fn transitions(&self) -> Transitions<'a>
        ensures part { result.part.now ≡ transition_part self.now.bytes.now }
        ensures count { result.count ≡ self.now.header.transitions }
    {
        self.table(self.header.transitions_at, self.header.transitions)
    }

    // The action nodes.
    pub fn actions(&self) -> Nodes<'a>
        ensures part { result.part.now ≡ action_part self.now.bytes.now }
        ensures count { result.count ≡ self.now.header.actions }
    {
        self.table(self.header.actions_at, self.header.actions)
    }

    // The formula nodes.
    pub fn formula(&self) -> Nodes<'a>
        ensures part { result.part.now ≡ formula_part self.now.bytes.now }
        ensures count { result.count ≡ self.now.header.nodes }
    {
        self.table(self.header.formula_at, self.header.nodes)
    }
}

// A case that is accepted.
#[derive(Clone, Copy)]
pub struct OpenCase<'a> {
    pub laid: LaidCase<'a>,
    pub ghost accepted: { Accepted laid.bytes.now },
}
