// The action part: the labels that an action formula accepts, as a mask with a bit for each label.
ghost use Rattle.std.specs.Prelude.{◌≡◌, ◌<◌, length, get_or};
ghost use Rattle.cases.specs.Action.{Action};
ghost use Rattle.cases.specs.Case.{case_action};
ghost use Rattle.cases.specs.internal.Kinds.{action_number};
ghost use Rattle.cases.specs.File.{label_records, action_limit};
ghost use Rattle.cases.specs.Labels.{alike_labels};
ghost use Rattle.cases.specs.internal.Checks.{labels_in, nodes_in, NodesFit, LabelPart};
ghost use Rattle.cases.specs.internal.Masks.{mask_of, action_of, action_in, WholeActions, ActionMasks};

use crate::kinds::ActionKind;
use crate::labels::alike_labels;
use crate::tables::{Nodes, OpenCase};
use crate::{ACTIONS, Header};

// The mask of a node, where x and y are the masks that stand next after it.
fn mask_of(labels: &[u8], h: Header, kind: ActionKind, arg: usize, x: u64, y: u64) -> u64
    requires { LabelPart labels.now h × (action_number kind ≡ 2 → arg < h.labels) }
    ensures { (a b : Action) → x ≡ mask_of a → y ≡ mask_of b
        → result ≡ mask_of (action_of (alike_labels h (labels_in labels.now (label_records h))) (action_number kind) arg a b) }
{
    match kind {
        ActionKind::False => 0,
        ActionKind::True => !0,
        ActionKind::Label => alike_labels(labels, h, arg),
        ActionKind::Not => !x,
        ActionKind::And => x & y,
        ActionKind::Or => x | y,
        ActionKind::Implies => !x | y,
    }
}

// The mask at a place. Past the end it is 0 and no Option: a node reads two masks, whether it takes two, one or none.
fn mask_at(masks: &[u64], at: usize) -> u64
    ensures { result ≡ get_or masks.now at 0 }
{
    masks.get(at).copied().unwrap_or(0)
}

// The labels that the action formula at each node accepts: bit x of mask j says whether that at node j accepts label x. The nodes are read from
// the last one down, and the masks of the formulas that start at node i or after it, outermost only, stand from `at` on: a stack in an array, and
// beside the nodes another array with a mask for each, for there is no heap. Each turn needs what the last one left on the stack, so no chain of
// iterators would be plainer. The two parts and the header are no open case: direct hands in those of a `DirectCase`, whose tables need
// not be those of an accepted case: it asks nothing of the numbers of label records, and lets a formula through that is one binder too deep.
pub fn action_masks(labels: &[u8], h: Header, part: &[u8]) -> [u64; ACTIONS]
    requires { LabelPart labels.now h × NodesFit action_limit part.now h.actions × WholeActions h.labels (nodes_in part.now h.actions) }
    ensures { (length result ≡ action_limit)
        × ActionMasks (action_in h labels.now part.now) h.actions result }
{
    let actions = Nodes {
        part,
        count: h.actions,
    };
    let mut all = [0u64; ACTIONS];
    let mut masks = [0u64; ACTIONS];
    let mut at = ACTIONS;
    for i in (0..h.actions).rev() {
        let node = actions.at(i);
        let x = mask_at(&masks, at);
        let y = mask_at(&masks, at + 1);
        let mask = mask_of(labels, h, node.action_kind(), node.arg, x, y);
        at = at + node.action_arity() - 1;
        masks[at] = mask;
        all[i] = mask;
    }
    all
}

impl OpenCase<'_> {
    // The labels that each of its action formulas accepts, as masks.
    pub fn action_masks(&self) -> [u64; ACTIONS]
        ensures long { length result ≡ action_limit }
        ensures masks { ActionMasks (case_action self.now.laid.bytes.now) self.now.laid.header.actions result }
    {
        let laid = self.laid;
        action_masks(laid.labels().part, laid.header, laid.actions().part)
    }
}
