// Case files: their tables and their conditions.
#![tactic(auto)]

mod actions;
mod conditions;
mod file;
mod kinds;
mod labels;
mod reach;
mod tables;
mod transitions;

pub use actions::action_masks;
pub use conditions::{check_layout, open, transition_holds};
pub use file::{case_end, number_at};
pub use kinds::{ActionKind, FormulaKind};
pub use reach::reachable;
pub use tables::{LabelRecords, LaidCase, Nodes, OpenCase, Table, Transitions};
pub use transitions::{Flagged, Links, first_appearances, links_of};

pub const LABELS: usize = 64;

// The largest name of an event in a label.
pub const NAMES: usize = 255;

pub const TRANSITIONS: usize = 2048;

pub const ACTIONS: usize = 128;

pub const NODES: usize = 64;

// The length of the largest case: one with label records.
pub const LARGEST: usize = file::LONGEST_HEADER
    + 8 * LABELS
    + 6 * TRANSITIONS
    + 4 * ACTIONS
    + 4 * NODES;

// The version of a case, its counts, its initial state, and the offsets of its tables. The version is the paper's number and no enum, since condition
// 2 asks of any number whether it is a version that is taken.
#[derive(Clone, Copy)]
pub struct Header {
    pub version: usize,
    pub states: usize,
    pub transitions: usize,
    pub labels: usize,
    pub initial: usize,
    pub actions: usize,
    pub nodes: usize,
    pub labels_at: usize,
    pub transitions_at: usize,
    pub actions_at: usize,
    pub formula_at: usize,
}

// A label: four names, or fewer and a 0 in place of each that is missing.
#[derive(Clone, Copy)]
pub struct Label {
    pub names: [usize; 4],
}

// A transition: source, label, target.
#[derive(Clone, Copy, PartialEq, Eq)]
pub struct Transition {
    pub source: usize,
    pub label: usize,
    pub target: usize,
}

// How many records a transition table has, and how many of them are distinct.
#[derive(Clone, Copy)]
pub struct Tally {
    pub records: usize,
    pub distinct: usize,
}

// A node of the action or formula table: kind, argument. The kind is the number in the file, since conditions 7 and 8 ask whether it is that of a
// kind.
#[derive(Clone, Copy)]
pub struct Node {
    pub kind: usize,
    pub arg: usize,
}

// Why a case is refused.
#[derive(Clone, Copy, PartialEq, Eq)]
pub enum Cause {
    Small,
    Version,
    Count,
    Offset,
    Length,
    Model,
    Labels,
    Actions,
    Formula,
    Variable,
    Depth,
}
