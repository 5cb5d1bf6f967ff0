// Evaluating a formula on sets of states: each node after its operands, a binder by rounds.
ghost use Rattle.std.specs.Prelude.{◌≡◌, ◌+◌, ◌<◌};
ghost use Rattle.cases.specs.File.{node_limit};
ghost use Rattle.routes.specs.Route.{direct, run_of};
ghost use Rattle.routes.specs.internal.Answering.{Rooted};
ghost use Rattle.routes.specs.internal.Given.{case_given};
ghost use Rattle.routes.specs.internal.Evaluating.{kind_at, Asks, LoopStart, Evaluated};

use crate::direct_case::DirectCase;
use crate::evaluator::Evaluator;
use crate::tables::blocks_of;
use cases::{FormulaKind, action_masks};
use sets::{Set, WORDS};
use solver::BLOCKS;

// The set of a node, the node after its subtree, and the rounds so far.
#[derive(Clone, Copy)]
pub struct Value {
    pub set: Set,
    pub next: usize,
    pub rounds: u64,
}

impl Value {
    // The value of a node without operands.
    fn leaf(set: Set, at: usize, used: u64) -> Value
        requires { at < node_limit }
        ensures { result ≡ record { set = set; next = at + 1; rounds = used } }
    {
        Value {
            set,
            next: at + 1,
            rounds: used,
        }
    }

    // The value of a node whose last operand has this one.
    fn with_set(self, set: Set) -> Value
        ensures { result ≡ record { set = set; next = self.next; rounds = self.rounds } }
    {
        Value { set, ..self }
    }
}

impl<'a> Evaluator<'a> {
    // The value of node `at`, after `used` rounds; none if they are spent. The sets, the place and the rounds are no struct: the value of an operand
    // is asked with another of them, so each call would build it anew. `Asks` is in each contract, since its bounds are the evaluator's.
    #[cycle(binder_evaluate)]
    fn evaluate(&self, sets: &[Set; BLOCKS], at: usize, used: u64) -> Option<Value>
        requires { Asks self.now at used }
        ensures { Evaluated self.now sets.now at used result }
    {
        let n = self.case.header.states;
        let node = self.case.formula.at(at);
        let kind = node.formula_kind();
        match kind {
            FormulaKind::False => Some(Value::leaf(sets::empty(), at, used)),
            FormulaKind::True => Some(Value::leaf(sets::full(n), at, used)),
            FormulaKind::And => self.and(sets, at, used),
            FormulaKind::Or => self.or(sets, at, used),
            FormulaKind::Box => self.box_node(sets, at, used),
            FormulaKind::Diamond => self.diamond(sets, at, used),
            FormulaKind::Variable => Some(Value::leaf(
                sets[usize::from(self.blocks[node.arg])],
                at,
                used,
            )),
            FormulaKind::Mu => self.binder(sets, at, sets::empty(), used),
            FormulaKind::Nu => self.binder(sets, at, sets::full(n), used),
        }
    }

    // The value of an and: the states in both sets of its operands, left first. This and the next three are not two functions over an operation:
    // that was tried, but of functions that call each other all have the same type parameters. As arms of the `match` they made direct
    // slower. A function that hands both values back would need a contract of its own for two lines.
    #[cycle(binder_evaluate)]
    fn and(&self, sets: &[Set; BLOCKS], at: usize, used: u64) -> Option<Value>
        requires { Asks self.now at used × kind_at self.now at ≡ 2 }
        ensures { Evaluated self.now sets.now at used result }
    {
        let left = self.evaluate(sets, at + 1, used)?;
        let right = self.evaluate(sets, left.next, left.rounds)?;
        Some(right.with_set(sets::intersection(left.set, right.set)))
    }

    // The value of an or: the states in at least one.
    #[cycle(binder_evaluate)]
    fn or(&self, sets: &[Set; BLOCKS], at: usize, used: u64) -> Option<Value>
        requires { Asks self.now at used × kind_at self.now at ≡ 3 }
        ensures { Evaluated self.now sets.now at used result }
    {
        let left = self.evaluate(sets, at + 1, used)?;
        let right = self.evaluate(sets, left.next, left.rounds)?;
        Some(right.with_set(sets::union(left.set, right.set)))
    }

    // The value of a box.
    #[cycle(binder_evaluate)]
    fn box_node(&self, sets: &[Set; BLOCKS], at: usize, used: u64) -> Option<Value>
        requires { Asks self.now at used × kind_at self.now at ≡ 4 }
        ensures { Evaluated self.now sets.now at used result }
    {
        let labels = self.masks[self.case.formula.at(at).arg];
        let one = self.evaluate(sets, at + 1, used)?;
        Some(one.with_set(self.box_set(labels, &one.set)))
    }

    // The value of a diamond.
    #[cycle(binder_evaluate)]
    fn diamond(&self, sets: &[Set; BLOCKS], at: usize, used: u64) -> Option<Value>
        requires { Asks self.now at used × kind_at self.now at ≡ 5 }
        ensures { Evaluated self.now sets.now at used result }
    {
        let labels = self.masks[self.case.formula.at(at).arg];
        let one = self.evaluate(sets, at + 1, used)?;
        Some(one.with_set(self.diamond_set(labels, &one.set)))
    }

    // The value of a mu or a nu, by the rounds of its loop from a first set. The sets of outer binders are held. Inline it spares a copy of each
    // node's value.
    #[cycle(binder_evaluate)]
    #[inline(always)]
    fn binder(&self, sets: &[Set; BLOCKS], at: usize, first: Set, used: u64) -> Option<Value>
        requires { Asks self.now at used × LoopStart self.now at first }
        ensures { Evaluated self.now sets.now at used result }
    {
        let k = usize::from(self.blocks[at]);
        let mut held = first;
        let mut before = used;
        let mut s = *sets;
        // A fixed point: how many rounds there are is not known before.
        loop {
            s[k] = held;
            let one = self.evaluate(&s, at + 1, before)?;
            let rounds = one.rounds;
            if self.limit <= rounds {
                return None;
            }
            if one.set == held {
                return Some(Value {
                    rounds: rounds + 1,
                    ..one
                });
            }
            held = one.set;
            before = rounds + 1;
        }
    }
}

// The value of a formula's root.
pub fn evaluate_root(case: &DirectCase<'_>, limit: u64) -> Option<Value>
    ensures { Rooted (run_of direct (case_given case.now)) limit result }
{
    let masks = action_masks(case.labels.part, case.header, case.actions.part);
    let blocks = blocks_of(&case.formula);
    let evaluator = Evaluator {
        case: *case,
        masks: &masks,
        blocks: &blocks,
        limit,
    };
    evaluator.evaluate(&[[0u64; WORDS]; BLOCKS], 0, 0)
}
