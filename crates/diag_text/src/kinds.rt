//! What each kind of type fault says, and what helps.

/// A type fault of this kind, in a sentence.
pub fn kind_sentence(kind: u8) -> &'static str {
    match kind {
        1 => "there is no function `main`",
        2 => "something of this kind is declared before under this name",
        3 => "no layout of this name is declared above",
        4 => "a field has other than 1 to 32 bits, or a gap other than 1 to 1,024",
        5 => "two fields or alternatives have one name",
        6 => "the alternatives of an overlay have different sizes",
        7 => "a layout has no field, more than 1,024 bits or a height of more than 100",
        8 =>
            "a type names an unknown layout, has a field twice, or is `word[n]` with n other than 1 to 1,024",
        9 => "a list of parameters or patterns has a name twice",
        10 => "no variable of this name is in sight",
        11 => "no function of this name is declared above or in the same group",
        12 => "a function of its own group is called, and something is left to do after the call",
        _ => later_sentence(kind),
    }
}

// The same of kind 13 and those above it.
fn later_sentence(kind: u8) -> &'static str {
    match kind {
        13 => "another number of values is declared",
        14 => "mismatched types",
        15 => "what stands before the dot has no such field",
        16 => "the pattern doesn't fit the type",
        17 => "no exception of this name is declared above",
        18 => "a record has a field twice",
        19 => "no access moves this number of words",
        20 => "a scratch address is no plain number, or the words reach past word 511",
        21 => "a shift goes by more than 31 places",
        22 => "a value is expected, and this has none",
        23 => "an exception, or what `main` takes or gives, has too many words or a bool",
        24 => "a type has more than 1,024 words or a height of more than 100",
        _ => "a fault of the types",
    }
}

/// What helps against a type fault of this kind.
pub fn kind_advice(kind: u8) -> &'static str {
    match kind {
        1 => "A run begins with `main`: `fun main[]: word { 0 }`.",
        2 => "Choose another name. Layouts, exceptions and functions have separate name spaces.",
        3 => "Declare the layout above its use, or mend the name.",
        4 => "Make two fields of a longer one.",
        5 => "Choose another name for one of them.",
        6 => "Make the shorter ones longer by a gap, as in `{ a: 1 } ## {1}`.",
        7 => "Give it a field, or split it.",
        8 => "Declare the layout above, mend the number, or choose another name for a field.",
        9 => "Choose another name for one of them, or `_` in a pattern.",
        10 => "Bind it by a `let` or a parameter above, or mend the name.",
        11 => "Declare it above its use, or join both by `and` to one group.",
        12 => "Call it as the last act, and carry what is left to do along in a parameter.",
        _ => later_advice(kind),
    }
}

// The same of kind 13 and those above it.
fn later_advice(kind: u8) -> &'static str {
    match kind {
        13 => "Write as many as the declaration has.",
        14 =>
            "Write a part of the wanted type, or declare what is found here. Only words are compared, and a condition is a bool.",
        15 => "Take a field that the record has, or unpack the value first.",
        16 =>
            "A pattern in round brackets has as many parts as the tuple: `_` leaves one out. A name fits everything.",
        17 => "Declare the exception above its use, or mend the name.",
        18 => "Leave one of them out.",
        19 =>
            "SRAM and scratch move 1 to 8 words, SDRAM 2, 4, 6 or 8. Make two accesses of a longer one.",
        20 => "Write a number from 0 to 511. A table with computed addresses stands in SRAM.",
        21 => "Write 0 to 31 places.",
        22 =>
            "A `raise` may stand as a body, an arm, the end of a block, or in a `try`. Put it there.",
        23 => "Pass at most 8 words, and a word in place of a bool. More stands in a memory.",
        24 => "Split it, or put it into a memory.",
        _ => "docs/FAULTS.md has it.",
    }
}
