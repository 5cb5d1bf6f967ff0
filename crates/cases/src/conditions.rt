// Opening a case: its conditions, by what they look at.
ghost use Rattle.std.specs.Prelude.{◌≡◌, not, map, ◌≤◌, ◌<◌, eqb};
ghost use Rattle.sets.specs.Lists.{every, for_some};
ghost use Rattle.sets.specs.Refusals.{between, first_of};
ghost use Rattle.cases.specs.Prefix.{arity_in, action_arities, formula_arities, whole_formulas, exactly, end_of};
ghost use Rattle.cases.specs.File.{header_of};
ghost use Rattle.cases.specs.Conditions.{versions, bad_count, bad_offset, bad_length, bad_model, bad_actions, bad_formula, bad_variable, too_deep, transition_ok, action_ok, node_ok, bound_ok, binder_count};
ghost use Rattle.cases.specs.Conditions.{layout_conditions, model_conditions, formula_conditions, case_refusal};
ghost use Rattle.cases.specs.Opening.{case_number, opened_number, Opens};
ghost use Rattle.cases.specs.internal.Checks.{nodes_in, CountsFit, WholeSubtree, binds};

use crate::file::{
    HEADER, actions_start, file_end, formula_start, header, header_size, transitions_start, version,
};
use crate::kinds::{ActionKind, FormulaKind};
use crate::labels::bad_labels;
use crate::tables::{LaidCase, Nodes, OpenCase};
use crate::{Cause, Header, Node, Transition};

// Whether a count is below `low` or above `high`. Condition 3 asks it five times: `contains` and `!` at each place would be no plainer.
fn outside(low: usize, high: usize, count: usize) -> bool
    ensures { result ≡ not (between low high count) }
{
    !(low..=high).contains(&count)
}

// Condition 3.
fn bad_count(h: Header) -> bool
    ensures { result ≡ bad_count h }
{
    if outside(1, sets::STATES, h.states) {
        return true;
    }
    if outside(0, crate::TRANSITIONS, h.transitions) {
        return true;
    }
    if outside(1, crate::LABELS, h.labels) {
        return true;
    }
    if outside(0, crate::ACTIONS, h.actions) {
        return true;
    }
    outside(1, crate::NODES, h.nodes)
}

// Condition 4, where the counts are in range.
fn bad_offset(h: Header) -> bool
    requires { CountsFit h }
    ensures { result ≡ bad_offset h }
{
    if h.labels_at != header_size(h.version) {
        return true;
    }
    if h.transitions_at != transitions_start(h) {
        return true;
    }
    if h.actions_at != actions_start(h) {
        return true;
    }
    h.formula_at != formula_start(h)
}

// Condition 5, where the counts are in range. The layout is not yet known to be right, so the two are no `LaidCase`.
fn bad_length(case: &[u8], h: Header) -> bool
    requires counts_fit { CountsFit h }
    requires header_read { h ≡ header_of case.now }
    ensures { result ≡ bad_length case.now }
{
    case.len() != file_end(h)
}

// Whether a version is one of those that are taken. They are two, and `matches!` or `contains` would say it no plainer.
fn is_taken(version: usize) -> bool
    ensures { result ≡ for_some (eqb version) versions }
{
    version == 1 || version == 2
}

// The layout: the header, or the first of conditions 1 to 5 that holds.
pub fn check_layout(case: &[u8]) -> Result<Header, Cause>
    ensures { Opens (first_of (layout_conditions case.now)) (λ h. h ≡ header_of case.now) result }
{
    if case.len() < HEADER {
        return Err(Cause::Small);
    }
    let v = version(case);
    if case.len() < header_size(v) {
        return Err(Cause::Small);
    }
    if !is_taken(v) {
        return Err(Cause::Version);
    }
    let h = header(case);
    if bad_count(h) {
        return Err(Cause::Count);
    }
    if bad_offset(h) {
        return Err(Cause::Offset);
    }
    if bad_length(case, h) {
        return Err(Cause::Length);
    }
    Ok(h)
}

// Whether the ends of a transition are below n, and its label below l.
pub fn transition_holds(t: Transition, n: usize, l: usize) -> bool
    ensures { result ≡ transition_ok n l t }
{
    if n <= t.source {
        return false;
    }
    if l <= t.label {
        return false;
    }
    t.target < n
}

// Condition 6.
fn bad_model(case: &LaidCase<'_>) -> bool
    ensures { result ≡ bad_model case.now.bytes.now }
{
    let h = case.header;
    let transitions = case.transitions();
    h.states <= h.initial
        || !(0..transitions.count).all(|i| transition_holds(transitions.at(i), h.states, h.labels))
}

// Whether the kind and the argument of an action node are right, with l labels.
fn action_holds(x: Node, l: usize) -> bool
    ensures { result ≡ action_ok l x }
{
    match ActionKind::try_from(x.kind) {
        Ok(ActionKind::Label) => x.arg < l,
        Ok(_) => x.arg == 0,
        Err(()) => false,
    }
}

// Condition 7.
fn bad_actions(case: &LaidCase<'_>) -> bool
    ensures { result ≡ bad_actions case.now.bytes.now }
{
    let actions = case.actions();
    !actions.all(|x| action_holds(x, case.header.labels)) || !actions.whole_actions()
}

// The model, the label records and the action table: the first of conditions 6, 15 and 7 that holds, if one does.
fn check_model(case: &LaidCase<'_>) -> Result<(), Cause>
    ensures { opened_number result ≡ first_of (model_conditions case.now.bytes.now) }
{
    if bad_model(case) {
        return Err(Cause::Model);
    }
    if bad_labels(case) {
        return Err(Cause::Labels);
    }
    if bad_actions(case) {
        return Err(Cause::Actions);
    }
    Ok(())
}

// Whether the kind and the argument of a formula node are right, with a action nodes.
fn node_holds(x: Node, a: usize) -> bool
    ensures { result ≡ node_ok a x }
{
    match FormulaKind::try_from(x.kind) {
        Ok(FormulaKind::Variable) => true,
        Ok(FormulaKind::Box | FormulaKind::Diamond) => x.arg < a,
        Ok(_) => x.arg == 0,
        Err(()) => false,
    }
}

impl Nodes<'_> {
    // Whether a test holds of each node.
    fn all<F: Fn(Node) -> bool>(&self, test: F) -> bool
        requires { F.IsAlwaysCallable test }
        ensures { (p : _) → ((x : _) (b : _) → F.post test x b → b ≡ p x) → result ≡ every p (nodes_in self.now.part.now self.now.count) }
    {
        (0..self.count).all(
            |i: usize| -> bool
                requires { (i < self.now.count) × F.IsAlwaysCallable test }
            { test(self.at(i)) },
        )
    }

    // Whether the nodes of an action table are whole formulas. Where a formula begins none is due, and its root stands for itself. `fold` over the
    // same range would be no plainer.
    fn whole_actions(&self) -> bool
        ensures { result ≡ whole_formulas 0 (map (arity_in action_arities) (nodes_in self.now.part.now self.now.count)) }
    {
        let mut due: usize = 0;
        for i in 0..self.count {
            due = due.saturating_sub(1) + self.at(i).action_arity();
        }
        due == 0
    }

    // The node after the subtree of a node of a formula table, if the subtree is whole. The loop ends early, by a number that each turn changes, so
    // that no chain would be plainer.
    fn whole_subtree(&self, at: usize) -> Option<usize>
        ensures { WholeSubtree (map (arity_in formula_arities) (nodes_in self.now.part.now self.now.count)) at result }
    {
        let mut due: usize = 1;
        for i in at..self.count {
            if due == 0 {
                return Some(i);
            }
            due = due - 1 + self.at(i).formula_arity();
        }
        (due == 0).then_some(self.count)
    }

    // Whether a formula table is one whole formula.
    fn one_formula(&self) -> bool
        ensures { result ≡ exactly 1 (map (arity_in formula_arities) (nodes_in self.now.part.now self.now.count)) }
    {
        self.whole_subtree(0) == Some(self.count)
    }

    // The node after the subtree of a node of a formula table.
    pub fn subtree_end(&self, at: usize) -> usize
        ensures { result ≡ end_of (map (arity_in formula_arities) (nodes_in self.now.part.now self.now.count)) at }
    {
        self.whole_subtree(at).unwrap_or(self.count.max(at))
    }

    // How many binders a formula table has.
    pub fn binders(&self) -> usize
        ensures count { result ≡ binder_count (nodes_in self.now.part.now self.now.count) }
        ensures few { result ≤ self.now.count }
    {
        (0..self.count).filter(|i| self.at(*i).is_binder()).count()
    }

    // Whether node j is a binder and node i stands behind it in its subtree.
    fn binds(&self, j: usize, i: usize) -> bool
        requires { i < self.now.count }
        ensures { result ≡ binds (nodes_in self.now.part.now self.now.count) j i }
    {
        if i <= j {
            return false;
        }
        if !self.at(j).is_binder() {
            return false;
        }
        i < self.subtree_end(j)
    }

    // Whether node i stands in the subtree of its binder, if it is a variable.
    fn variable_bound(&self, i: usize) -> bool
        requires { i < self.now.count }
        ensures { result ≡ bound_ok (nodes_in self.now.part.now self.now.count) i }
    {
        let x = self.at(i);
        !x.is_variable() || self.binds(x.arg, i)
    }
}

// Condition 8.
fn bad_formula(nodes: &Nodes<'_>, actions: usize) -> bool
    ensures { result ≡ bad_formula actions (nodes_in nodes.now.part.now nodes.now.count) }
{
    !nodes.all(|x| node_holds(x, actions)) || !nodes.one_formula()
}

// Condition 9.
fn bad_variable(nodes: &Nodes<'_>) -> bool
    ensures { result ≡ bad_variable (nodes_in nodes.now.part.now nodes.now.count) }
{
    !(0..nodes.count).all(|i| nodes.variable_bound(i))
}

// Condition 10.
fn too_deep(nodes: &Nodes<'_>) -> bool
    requires { 1 ≤ nodes.now.count }
    ensures { result ≡ too_deep (nodes_in nodes.now.part.now nodes.now.count) }
{
    let count = nodes.binders();
    if nodes.at(0).is_binder() {
        return solver::BLOCKS < count;
    }
    solver::BLOCKS < count + 1
}

// The formula table: the first of conditions 8 to 10 that holds, if one does.
fn check_formula(nodes: &Nodes<'_>, actions: usize) -> Result<(), Cause>
    requires { 1 ≤ nodes.now.count }
    ensures { opened_number result ≡ first_of (formula_conditions actions (nodes_in nodes.now.part.now nodes.now.count)) }
{
    if bad_formula(nodes, actions) {
        return Err(Cause::Formula);
    }
    if bad_variable(nodes) {
        return Err(Cause::Variable);
    }
    if too_deep(nodes) {
        return Err(Cause::Depth);
    }
    Ok(())
}

// Opens a case, or answers the first condition that holds.
pub fn open(case: &[u8]) -> Result<OpenCase<'_>, Cause>
    ensures { Opens (case_refusal case.now) (λ o. (o.laid.bytes.now ≡ case.now) × (o.laid.header ≡ header_of case.now)) result }
{
    let header = check_layout(case)?;
    let laid = LaidCase {
        bytes: case,
        header,
    };
    check_model(&laid)?;
    check_formula(&laid.formula(), header.actions)?;
    Ok(OpenCase { laid })
}

// The number of a cause.
impl From<Cause> for u64 {
    ghost from_gives = { λ cause number. number ≡ case_number cause };

    fn from(cause: Cause) -> u64 {
        match cause {
            Cause::Small => 1,
            Cause::Version => 2,
            Cause::Count => 3,
            Cause::Offset => 4,
            Cause::Length => 5,
            Cause::Model => 6,
            Cause::Labels => 15,
            Cause::Actions => 7,
            Cause::Formula => 8,
            Cause::Variable => 9,
            Cause::Depth => 10,
        }
    }
}
