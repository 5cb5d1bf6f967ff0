// The transition part: its records by source, and which of them are the first of their kind.
ghost use Rattle.std.specs.Prelude.{◌≡◌, ◌<◌, ◌≤◌, eqb, length};
ghost use Rattle.cases.specs.File.{transition_limit};
ghost use Rattle.cases.specs.Case.{copies_before, distinct};
ghost use Rattle.cases.specs.Tally.{tally_of};
ghost use Rattle.cases.specs.internal.Checks.{transition_part, transitions_in};
ghost use Rattle.cases.specs.internal.Links.{Linked, FirstFlags};

use crate::{OpenCase, TRANSITIONS, Tally, Transitions};
use sets::STATES;

// The records of a table linked by their source, in rising order: the first record from each state, and after each record the next one with its
// source. TRANSITIONS stands where there is none. It is no Option, since a walk to a record ends there, and so no link is read that is none.
// The links are places in two arrays of fixed size, since there is no heap.
#[derive(Drop)]
pub struct Links {
    pub first: [u16; STATES],
    pub after: [u16; TRANSITIONS],
}

// Links the records of an accepted case. From the last record down, each becomes the first of its source. It writes two arrays at places that it
// reads, so no chain would be plainer. What stands after a record is written before it is read, so that array starts with zeros, which costs least.
pub fn links_of(case: &OpenCase<'_>) -> Links
    ensures { Linked (transition_part case.now.laid.bytes.now) case.now.laid.header.transitions result.first result.after }
{
    let table = case.laid.transitions();
    let mut links = Links {
        first: [TRANSITIONS as u16; STATES],
        after: [0; TRANSITIONS],
    };
    for j in (0..table.count).rev() {
        let s = table.at(j).source;
        links.after[j] = links.first[s];
        links.first[s] = j as u16;
    }
    links
}

// How many records before record i of a table equal it. Only those with its source are looked at: a walk along the links, of which it is not known
// beforehand how long it is.
fn copies_before(table: &Transitions<'_>, links: &Links, i: usize) -> usize
    requires { Linked table.now.part.now table.now.count links.now.first links.now.after × (i < table.now.count) }
    ensures { result ≡ copies_before (transitions_in table.now.part.now table.now.count) i }
{
    let own = table.at(i);
    let mut copies: usize = 0;
    let mut j = links.first[own.source] as usize;
    while j < i {
        if table.at(j) == own {
            copies += 1;
        }
        j = links.after[j] as usize;
    }
    copies
}

// Flags those records of a table that are the first of their kind, and answers how many they are. The flags are summed, since `filter` and `count`
// were tried and compiled to a slower loop, which branches at each flag.
fn flag_appearances(table: &Transitions<'_>, links: &Links, first: &mut [bool]) -> usize
    requires { Linked table.now.part.now table.now.count links.now.first links.now.after × (table.now.count ≤ length first.old) }
    ensures { FirstFlags table.now.part.now table.now.count first.new × (result ≡ length (distinct (transitions_in table.now.part.now table.now.count))) }
{
    let flags = &mut first[..table.count];
    for (i, flag) in flags.iter_mut().enumerate() {
        *flag = copies_before(table, links, i) == 0;
    }
    flags.iter().map(|flag| usize::from(*flag)).sum()
}

// Flags the records of an accepted case that are the first of their kind, and tells how many records there are and how many of them are
// distinct.
pub fn first_appearances(case: &OpenCase<'_>, links: &Links, first: &mut [bool]) -> Tally
    requires { Linked (transition_part case.now.laid.bytes.now) case.now.laid.header.transitions links.now.first links.now.after × (transition_limit ≤ length first.old) }
    ensures flags { FirstFlags (transition_part case.now.laid.bytes.now) case.now.laid.header.transitions first.new }
    ensures tally { result ≡ tally_of case.now.laid.bytes.now }
{
    let table = case.laid.transitions();
    Tally {
        records: table.count,
        distinct: flag_appearances(&table, links, first),
    }
}

// The transitions of a table, and of each whether it is the first of its kind. The flags stand in an array of their own: the records are bytes of
// the file, and there is no heap.
#[derive(Clone, Copy)]
pub struct Flagged<'a> {
    pub table: Transitions<'a>,
    pub first: &'a [bool],
    pub ghost flags: { FirstFlags table.part.now table.count first.now },
}

impl<'a> Flagged<'a> {
    // Whether transition i is the first of its kind.
    pub fn is_first(&self, i: usize) -> bool
        requires { i < self.now.table.count }
        ensures { result ≡ eqb (copies_before (transitions_in self.now.table.part.now self.now.table.count) i) 0 }
    {
        self.first[i]
    }
}
