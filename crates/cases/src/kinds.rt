// The kinds of action and formula nodes. Each enum lists its own kinds, so that no function of one stands for the other: a trait over both
// would be no plainer.
ghost use Rattle.std.specs.Prelude.{◌≡◌, ◌≤◌, ◌||◌, eqb, get_or};
ghost use Rattle.cases.specs.Prefix.{action_arities, formula_arities, arity_in};
ghost use Rattle.cases.specs.internal.Kinds.{action_number, formula_number, Reads};
ghost use Rattle.cases.specs.Conditions.{is_binder};

use crate::Node;

#[derive(Clone, Copy, PartialEq, Eq)]
pub enum ActionKind {
    False,
    True,
    Label,
    Not,
    And,
    Or,
    Implies,
}

#[derive(Clone, Copy, PartialEq, Eq)]
pub enum FormulaKind {
    False,
    True,
    And,
    Or,
    Box,
    Diamond,
    Variable,
    Mu,
    Nu,
}

// By the number in the file. The error is (), since one thing alone can be wrong with a number: it is that of no kind.
impl TryFrom<usize> for ActionKind {
    type Error = ();

    ghost try_from_gives = { Reads action_number 6 };

    fn try_from(number: usize) -> Result<Self, ()> {
        match number {
            0 => Ok(ActionKind::False),
            1 => Ok(ActionKind::True),
            2 => Ok(ActionKind::Label),
            3 => Ok(ActionKind::Not),
            4 => Ok(ActionKind::And),
            5 => Ok(ActionKind::Or),
            6 => Ok(ActionKind::Implies),
            _ => Err(()),
        }
    }
}

impl TryFrom<usize> for FormulaKind {
    type Error = ();

    ghost try_from_gives = { Reads formula_number 8 };

    fn try_from(number: usize) -> Result<Self, ()> {
        match number {
            0 => Ok(FormulaKind::False),
            1 => Ok(FormulaKind::True),
            2 => Ok(FormulaKind::And),
            3 => Ok(FormulaKind::Or),
            4 => Ok(FormulaKind::Box),
            5 => Ok(FormulaKind::Diamond),
            6 => Ok(FormulaKind::Variable),
            7 => Ok(FormulaKind::Mu),
            8 => Ok(FormulaKind::Nu),
            _ => Err(()),
        }
    }
}

impl ActionKind {
    // How many operands it has.
    pub fn arity(self) -> usize
        ensures { result ≡ get_or action_arities (action_number self) 0 }
    {
        match self {
            ActionKind::False | ActionKind::True | ActionKind::Label => 0,
            ActionKind::Not => 1,
            ActionKind::And | ActionKind::Or | ActionKind::Implies => 2,
        }
    }
}

impl FormulaKind {
    // How many operands it has.
    pub fn arity(self) -> usize
        ensures { result ≡ get_or formula_arities (formula_number self) 0 }
    {
        match self {
            FormulaKind::False | FormulaKind::True | FormulaKind::Variable => 0,
            FormulaKind::Box | FormulaKind::Diamond | FormulaKind::Mu | FormulaKind::Nu => 1,
            FormulaKind::And | FormulaKind::Or => 2,
        }
    }

    // Whether it is mu or nu.
    pub fn is_binder(self) -> bool
        ensures { result ≡ (eqb (formula_number self) 7 || eqb (formula_number self) 8) }
    {
        matches!(self, FormulaKind::Mu | FormulaKind::Nu)
    }
}

impl Node {
    // Its kind as an action node.
    pub fn action_kind(self) -> ActionKind
        requires { self.kind ≤ 6 }
        ensures { action_number result ≡ self.kind }
    {
        ActionKind::try_from(self.kind).unwrap()
    }

    // Its kind as a formula node.
    pub fn formula_kind(self) -> FormulaKind
        requires { self.kind ≤ 8 }
        ensures { formula_number result ≡ self.kind }
    {
        FormulaKind::try_from(self.kind).unwrap()
    }

    // How many operands it has as an action node; none where there is no such kind.
    pub fn action_arity(self) -> usize
        ensures arity { result ≡ arity_in action_arities self }
        ensures few { result ≤ 2 }
    {
        ActionKind::try_from(self.kind).map_or(0, |kind| kind.arity())
    }

    // How many it has as a formula node.
    pub fn formula_arity(self) -> usize
        ensures arity { result ≡ arity_in formula_arities self }
        ensures few { result ≤ 2 }
    {
        FormulaKind::try_from(self.kind).map_or(0, |kind| kind.arity())
    }

    // Whether it is a mu or a nu.
    pub fn is_binder(self) -> bool
        ensures { result ≡ is_binder self }
    {
        FormulaKind::try_from(self.kind).is_ok_and(|kind| kind.is_binder())
    }

    // Whether it is a variable.
    pub fn is_variable(self) -> bool
        ensures { result ≡ eqb self.kind 6 }
    {
        FormulaKind::try_from(self.kind) == Ok(FormulaKind::Variable)
    }
}
