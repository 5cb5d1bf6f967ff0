// A case as direct needs it.
ghost use Rattle.std.specs.Prelude.{◌≡◌};
ghost use Rattle.sets.specs.Words.{words, word_count};
ghost use Rattle.cases.specs.File.{label_records};
ghost use Rattle.cases.specs.computed.Reached.{reachable as reachable_states};
ghost use Rattle.routes.specs.internal.Parts.{CaseParts, case_in};

use cases::{Header, LabelRecords, Nodes, Transitions};
use sets::Set;

// The counts and the initial state of a case, its tables, and its states that can be reached.
#[derive(Clone, Copy)]
pub struct DirectCase<'a> {
    pub header: Header,
    pub labels: LabelRecords<'a>,
    pub transitions: Transitions<'a>,
    pub actions: Nodes<'a>,
    pub formula: Nodes<'a>,
    pub reachable: Set,
    ghost parts: { CaseParts header labels.part.now transitions.part.now actions.part.now formula.part.now },
    ghost label_count: { labels.count ≡ label_records header },
    ghost transition_count: { transitions.count ≡ header.transitions },
    ghost action_count: { actions.count ≡ header.actions },
    ghost node_count: { formula.count ≡ header.nodes },
    ghost reached: { reachable ≡ words word_count (reachable_states (case_in header labels.part.now transitions.part.now actions.part.now formula.part.now)) },
}
