// Boxes and diamonds on sets of states.
ghost use Rattle.cases.specs.Meaning.{box_in, diamond_in};
ghost use Rattle.routes.specs.internal.Evaluating.{states_of, transitions_of, Finds};

use crate::evaluator::Evaluator;
use sets::Set;

impl<'a> Evaluator<'a> {
    // The states where a diamond holds: those with a transition into the set that has one of the labels. The set found is filled in place,
    // record by record; a fold would only hand it on, and an iterator of a table is spoken of at `Table`.
    pub fn diamond_set(&self, labels: u64, set: &Set) -> Set
        ensures { Finds self.now labels set.now (diamond_in (states_of self.now) (transitions_of self.now)) result }
    {
        let mut found = sets::empty();
        let transitions = self.case.transitions;
        for i in 0..transitions.count {
            let t = transitions.at(i);
            if sets::has_bit(labels, t.label) && sets::test(set, t.target) {
                sets::put(&mut found, t.source, true);
            }
        }
        found
    }

    // The states where a box holds: those where the diamond of the complement does not.
    pub fn box_set(&self, labels: u64, set: &Set) -> Set
        ensures { Finds self.now labels set.now (box_in (states_of self.now) (transitions_of self.now)) result }
    {
        let n = self.case.header.states;
        let outside = sets::complement(*set, n);
        sets::complement(self.diamond_set(labels, &outside), n)
    }
}
