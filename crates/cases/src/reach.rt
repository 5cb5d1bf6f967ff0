// The states of a case that can be reached: a search from the initial state along the transitions, grouped by source.
ghost use Rattle.std.specs.Prelude.{◌≡◌, true, ℕ, ◌<◌, length, set};
ghost use Rattle.sets.specs.States.{States};
ghost use Rattle.sets.specs.Words.{words, word_count};
ghost use Rattle.cases.specs.Case.{case_of};
ghost use Rattle.cases.specs.computed.Reached.{reachable};
ghost use Rattle.cases.specs.internal.Checks.{transition_part};
ghost use Rattle.cases.specs.internal.Links.{Linked};
ghost use Rattle.cases.specs.internal.Search.{FoundStates, Grown, TargetsBelow, Widened};

use crate::transitions::Links;
use crate::{OpenCase, Transitions};
use sets::{STATES, Set};

// The states that a search has found, as a set and in the order in which they were found. Those whose transitions were not followed yet stand last, so
// the search needs no second set.
#[derive(Drop)]
struct Search {
    found: Set,
    order: [u16; STATES],
    count: usize,
}

impl Search {
    // A state is found, maybe again.
    fn find(&mut self, s: usize)
        requires { (v : States) × FoundStates self.old v × (s < length v) }
        ensures { (v : States) → FoundStates self.old v → s < length v → FoundStates self.new (set v s true) × Grown self.old self.new }
    {
        if !sets::test(&self.found, s) {
            sets::put(&mut self.found, s, true);
            self.order[self.count] = s as u16;
            self.count += 1;
        }
    }

    // The targets of all transitions from a state are found. It is a walk along the links, of which it is not known beforehand how long it is.
    fn find_targets(&mut self, table: &Transitions<'_>, links: &Links, s: usize)
        requires { Linked table.now.part.now table.now.count links.now.first links.now.after
            × (v : States) × FoundStates self.old v × TargetsBelow table.now.part.now table.now.count v × (s < length v) }
        ensures { (v : States) → FoundStates self.old v → TargetsBelow table.now.part.now table.now.count v
            → (w : States) × FoundStates self.new w × Grown self.old self.new × Widened table.now.part.now table.now.count table.now.count s v w }
    {
        let mut j = links.first[s] as usize;
        while j < table.count {
            let t = table.at(j);
            self.find(t.target);
            j = links.after[j] as usize;
        }
    }
}

// The states of an accepted case that can be reached. Each state that is found is taken up once, in order, until none is left; how many there are is
// not known before.
pub fn reachable(case: &OpenCase<'_>, links: &Links) -> Set
    requires { Linked (transition_part case.now.laid.bytes.now) case.now.laid.header.transitions links.now.first links.now.after }
    ensures { result ≡ words word_count (reachable (case_of case.now.laid.bytes.now)) }
{
    let table = case.laid.transitions();
    let mut search = Search {
        found: sets::empty(),
        order: [0; STATES],
        count: 0,
    };
    search.find(case.laid.header.initial);
    let mut done = 0;
    while done < search.count {
        let s = search.order[done] as usize;
        search.find_targets(&table, links, s);
        done += 1;
    }
    search.found
}
