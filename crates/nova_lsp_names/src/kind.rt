//! Definitions and occurrences of names.

/// What a name stands for. `Joined` is a layout whose fields another one has, too.
#[derive(Clone, Copy, PartialEq, Eq)]
pub enum Role {
    Layout,
    Exception,
    Function,
    Field,
    Joined,
    Parameter,
    Variable,
}

impl Role {
    /// Whether it is a variable or a parameter.
    pub fn is_local(self) -> bool {
        matches!(self, Role::Parameter | Role::Variable)
    }

    /// Whether no field follows that belongs to what stands before it.
    pub fn ends_fields(self) -> bool {
        self.is_global() || self == Role::Variable
    }

    /// Whether it is declared for the whole program.
    pub fn is_global(self) -> bool {
        matches!(self, Role::Layout | Role::Exception | Role::Function)
    }
}

/// Where a name is defined. Tokens and definitions are given by their numbers.
#[derive(Clone, Copy)]
pub struct Definition {
    pub role: Role,
    /// The token of the name.
    pub token: usize,
    /// Of a variable the token after which it is in sight.
    pub from: usize,
    /// The last token of the declaration; of a variable the last one at which it is in sight.
    pub last: usize,
    /// Of a field the layout or the field that has it.
    pub owner: Option<usize>,
    /// The layout whose fields a value has, or the function that gives such a value: the token of its name.
    pub shape: Option<usize>,
}

impl Definition {
    /// What is known where the name is met.
    pub fn new(role: Role, token: usize, owner: Option<usize>) -> Definition {
        Definition {
            role,
            token,
            from: token,
            last: token,
            owner,
            shape: None,
        }
    }
}

/// A token that is a name, and what it stands for.
#[derive(Clone, Copy)]
pub struct Occurrence {
    pub token: usize,
    pub role: Role,
    /// The number of its definition, where there is one.
    pub definition: Option<usize>,
    /// Of a field what has it: the token before the dot, or the bracket of the record.
    pub base: usize,
}
