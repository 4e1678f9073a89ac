//! What is said of a usual slip.

/// Where a slip is shown.
#[derive(Clone, Copy)]
pub enum Mark {
    /// At the token with which the text begins no program.
    Found,
    /// At the token that is so many before it.
    Before(usize),
    /// Right after the token before it.
    Gap,
}

/// A slip: a sentence in place of what is expected and found, what helps, and where it is shown.
#[derive(Clone, Copy)]
pub struct Slip {
    pub title: Option<&'static str>,
    pub help: &'static str,
    pub mark: Mark,
    /// Whether it is said in general, and no slip is known.
    pub is_general: bool,
}

impl Slip {
    /// Of which what is expected and found is the sentence.
    pub fn help(help: &'static str) -> Option<Slip> {
        Some(Slip {
            title: None,
            help,
            mark: Mark::Found,
            is_general: false,
        })
    }

    /// The same, said in general.
    pub fn general(help: &'static str) -> Option<Slip> {
        Some(Slip {
            title: None,
            help,
            mark: Mark::Found,
            is_general: true,
        })
    }

    /// The same, shown after the token before.
    pub fn gap(help: &'static str) -> Option<Slip> {
        Some(Slip {
            title: None,
            help,
            mark: Mark::Gap,
            is_general: false,
        })
    }

    /// With a sentence of its own.
    pub fn titled(title: &'static str, help: &'static str) -> Option<Slip> {
        Some(Slip {
            title: Some(title),
            help,
            mark: Mark::Found,
            is_general: false,
        })
    }

    /// With a sentence of its own, shown at a token before.
    pub fn before(back: usize, title: &'static str, help: &'static str) -> Option<Slip> {
        Some(Slip {
            title: Some(title),
            help,
            mark: Mark::Before(back),
            is_general: false,
        })
    }
}

/// Of an `=` or an arrow that would change a value.
pub const NO_ASSIGNMENT: &str = "nothing is assigned";

/// What stands in place of an assignment.
pub const BIND_AGAIN: &str =
    "Bind the name again: `let x = x + 1;`. What changes from turn to turn of a loop is a parameter.";

/// Of what is no comparison.
pub const COMPARED: &str = "The comparisons are `==`, `!=`, `<`, `<=`, `>` and `>=`.";

/// What stands in place of a range of bits.
pub const BIT_RANGE: &str =
    "Bits 7 to 0 of a word are `x & 0xff`, and bits 15 to 8 `(x >> 8) & 0xff`.";

/// Of several variables that are bound in one statement.
pub const ONE_LET: &str = "Each variable has a `let` of its own: `let a = 1; let b = 2;`.";

/// What stands in place of a changed field.
pub const RECORD_ANEW: &str = "A changed record is made anew: `let h = { a = 5, b = h.b };`.";
