//! Words of other languages, and what Nova has in their place.

use crate::expected::Expected;
use crate::place::Place;
use crate::slip::Slip;

const NO_LOOP: &str = "there are no loops";

const LOOP: &str =
    "A loop is a function that calls itself last: `fun count[n: word]: word { if (n == 0) 0 else count[n - 1] }`.";

const END_OF_LOOP: &str =
    "A loop is a function that calls itself last. It ends where it gives a value in place of the call.";

const END_OF_RUN: &str =
    "A run ends with the value of `main`, or by an exception without a handler: `raise E[]`.";

const STATE: &str = "A state is a function, and its last act calls the next one: `next[x]`.";

const INNER: &str = "A function is declared at the top: `fun f[x: word]: word { x + 1 }`.";

const NO_SWITCH: &str = "there is no `switch`";

const CHAIN: &str = "Write a chain: `if (x == 1) a else if (x == 2) b else c`.";

const NO_THEN: &str = "there is no `then`";

const CHOICE: &str = "Write `if (c) 1 else 2`.";

const NO_ELIF: &str = "there is no `elif`";

const CHOICES: &str = "Write `else if (c) 1 else 2`.";

const UNBOUND: &str = "no variable is declared so";

const BIND: &str = "A variable is bound by `let x = 5;`.";

const CONSTANT: &str =
    "A constant is a function without parameters: `fun limit[]: word { 1500 }`, used as `limit[]`.";

const TYPED: &str =
    "A function is `fun f[x: word]: word { x }`, and a constant one without parameters.";

const FUNCTION: &str = "A function is `fun f[x: word]: word { x }`.";

const NO_OUTPUT: &str = "nothing is printed";

const OUTCOME: &str = "A run ends with the value of `main` and with what the memories hold.";

const SEEN: &str = "Leave the word out: all that follows sees what is declared.";

const BITS: &str = "A header is a layout: `layout l = { a: 8, b: 24 };`.";

const NAMED_TYPE: &str =
    "A type has no name of its own: a number is a `word`, and a header a layout, `layout l = { a: 8, b: 24 };`.";

const OVERLAY: &str =
    "Two readings of the same bits are an overlay: `layout l = { v: overlay { whole: 32 | parts: { a: 16, b: 16 } } };`.";

const NO_METHOD: &str =
    "There are no methods: a function takes what it works on, as in `fun f[x: word]: word { x }`.";

const ACTION: &str =
    "What an action or a control does is a function: `fun f[x: word]: word { x }`. A run begins with `main`.";

const TABLE: &str =
    "A table is words of a memory, and a function that calls itself last looks through it.";

const ONE_TEXT: &str = "A program is one text: nothing is imported.";

const COUNTER: &str =
    "A counter is a word of a memory: `sram(at) <- sram[1](at) + 1;`. The file of the memories says what it holds first.";

const SHIFT_WORD: &str = "a shift is a sign";

const SHIFTS: &str = "Write `x << 8` and `x >> 8`, by a number that stands in the text.";

const BIT_WORD: &str = "an operator on bits is a sign";

const BIT_SIGNS: &str = "Write `x & y`, `x | y`, `x ^ y` and `~x`.";

const EXCEPTION: &str = "An exception is declared by `exception E[word];`.";

const HANDLER: &str =
    "A handler is `handle E[x] { .. }`, with one pattern for each value of the exception.";

// Each table has words of other languages, each with a sentence on it, which may be empty, and what helps.

// Words that begin a statement, before the token.
const STATEMENTS: [(&str, &str, &str); 31] = [
    (
        "return",
        "there is no `return`: the last expression is the value",
        "Leave the word out. An arm of an `if` gives a value: `if (c) x else ..`.",
    ),
    ("while", NO_LOOP, LOOP),
    ("for", NO_LOOP, LOOP),
    ("loop", NO_LOOP, LOOP),
    ("do", NO_LOOP, LOOP),
    ("repeat", NO_LOOP, LOOP),
    ("until", NO_LOOP, LOOP),
    ("break", NO_LOOP, END_OF_LOOP),
    ("continue", NO_LOOP, END_OF_LOOP),
    ("goto", NO_LOOP, END_OF_LOOP),
    ("switch", NO_SWITCH, CHAIN),
    ("match", "there is no `match`", CHAIN),
    (
        "begin",
        "there is no `begin`",
        "A block as a value stands in round brackets: `(let y = x; y + y)`.",
    ),
    ("apply", "there is no `apply`", ACTION),
    (
        "ref",
        "there are no references",
        "A name stands for its value. What changes stands in a memory, or is a parameter of a loop.",
    ),
    ("select", "there is no `select`", CHAIN),
    ("case", NO_SWITCH, CHAIN),
    (
        "not",
        "there is no `not`",
        "Write `!x` of a bool, and `~x` of a word.",
    ),
    (
        "throw",
        "there is no `throw`",
        "Write `raise E[];`, without a `;` where it ends a block.",
    ),
    ("then", NO_THEN, CHOICE),
    ("elif", NO_ELIF, CHOICES),
    (
        "unless",
        "there is no `unless`",
        "Write the condition the other way: `if (x != 0) 1 else 2`.",
    ),
    ("exit", "there is no `exit`", END_OF_RUN),
    ("abort", "there is no `abort`", END_OF_RUN),
    ("transition", "there is no `transition`", STATE),
    ("lambda", "there are no closures", INNER),
    ("fn", "a function stands in no other one", INNER),
    ("def", "a function stands in no other one", INNER),
    (
        "assert",
        "there is no `assert`",
        "Raise an exception: `if (c) x else raise E[]`.",
    ),
    ("print", NO_OUTPUT, OUTCOME),
    ("printf", NO_OUTPUT, OUTCOME),
];

// Words that declare a variable, before its name.
const BINDINGS: [(&str, &str, &str); 22] = [
    ("var", UNBOUND, BIND),
    ("const", UNBOUND, BIND),
    ("val", UNBOUND, BIND),
    ("auto", UNBOUND, BIND),
    ("int", UNBOUND, BIND),
    ("uint", UNBOUND, BIND),
    ("unsigned", UNBOUND, BIND),
    ("u8", UNBOUND, BIND),
    ("u16", UNBOUND, BIND),
    ("u32", UNBOUND, BIND),
    ("uint8_t", UNBOUND, BIND),
    ("uint16_t", UNBOUND, BIND),
    ("uint32_t", UNBOUND, BIND),
    ("char", UNBOUND, BIND),
    ("short", UNBOUND, BIND),
    ("long", UNBOUND, BIND),
    ("signed", UNBOUND, BIND),
    ("float", UNBOUND, BIND),
    ("double", UNBOUND, BIND),
    ("size_t", UNBOUND, BIND),
    ("byte", UNBOUND, BIND),
    ("Let", UNBOUND, BIND),
];

// Operators that are words, after an operand.
const OPERATORS: [(&str, &str, &str); 16] = [
    (
        "and",
        "there is no operator `and`",
        "Write `&&` between bools, and `&` between words.",
    ),
    (
        "or",
        "there is no operator `or`",
        "Write `||` between bools, and `|` between words.",
    ),
    (
        "xor",
        "there is no operator `xor`",
        "Write `^` between words.",
    ),
    (
        "mod",
        "there is no operator `mod`",
        "A remainder by a power of two is a mask: `x & 7`.",
    ),
    (
        "div",
        "there is no operator `div`",
        "A quotient by a power of two is a shift: `x >> 3`.",
    ),
    (
        "is",
        "there is no operator `is`",
        "Words are compared by `==` and `!=`.",
    ),
    (
        "in",
        "there is no operator `in`",
        "A range is `1 <= x && x < 5`.",
    ),
    (
        "as",
        "there are no casts",
        "Each number is a word, its low byte `x & 0xff`. Of a bool write `if (b) 1 else 0`, and of a header `unpack[l](x)`.",
    ),
    ("lsl", SHIFT_WORD, SHIFTS),
    ("lsr", SHIFT_WORD, SHIFTS),
    ("shl", SHIFT_WORD, SHIFTS),
    ("shr", SHIFT_WORD, SHIFTS),
    ("land", BIT_WORD, BIT_SIGNS),
    ("lor", BIT_WORD, BIT_SIGNS),
    ("lxor", BIT_WORD, BIT_SIGNS),
    (
        "end",
        "there is no `end`",
        "A function ends with `}`, and an `if` with the value of its second arm.",
    ),
];

// Words of choices.
const CHOICE_WORDS: [(&str, &str, &str); 4] = [
    ("elif", NO_ELIF, CHOICES),
    ("elsif", NO_ELIF, CHOICES),
    ("elseif", NO_ELIF, CHOICES),
    ("then", NO_THEN, CHOICE),
];

// Words of handlers.
const HANDLERS: [(&str, &str, &str); 3] = [
    ("catch", "", HANDLER),
    ("except", "", HANDLER),
    ("rescue", "", HANDLER),
];

// Words that begin a declaration.
const DECLARATIONS: [(&str, &str, &str); 61] = [
    ("let", "", CONSTANT),
    ("const", "", CONSTANT),
    ("static", "", CONSTANT),
    ("var", "", CONSTANT),
    ("val", "", CONSTANT),
    ("define", "", CONSTANT),
    ("word", "", TYPED),
    ("bool", "", TYPED),
    ("int", "", TYPED),
    ("uint", "", TYPED),
    ("unsigned", "", TYPED),
    ("u8", "", TYPED),
    ("u16", "", TYPED),
    ("u32", "", TYPED),
    ("uint8_t", "", TYPED),
    ("uint16_t", "", TYPED),
    ("uint32_t", "", TYPED),
    ("func", "", FUNCTION),
    ("fn", "", FUNCTION),
    ("def", "", FUNCTION),
    ("function", "", FUNCTION),
    ("void", "", FUNCTION),
    ("proc", "", FUNCTION),
    ("sub", "", FUNCTION),
    ("struct", "", BITS),
    ("type", "", NAMED_TYPE),
    ("record", "", BITS),
    ("typedef", "", NAMED_TYPE),
    ("enum", "", CONSTANT),
    ("class", "", NO_METHOD),
    ("impl", "", NO_METHOD),
    ("trait", "", NO_METHOD),
    ("interface", "", NO_METHOD),
    ("header", "", BITS),
    ("union", "", OVERLAY),
    ("action", "", ACTION),
    ("control", "", ACTION),
    ("parser", "", ACTION),
    ("state", "", ACTION),
    ("table", "", TABLE),
    ("counter", "", COUNTER),
    ("direct_counter", "", COUNTER),
    ("meter", "", COUNTER),
    ("register", "", COUNTER),
    ("import", "", ONE_TEXT),
    ("include", "", ONE_TEXT),
    ("use", "", ONE_TEXT),
    ("using", "", ONE_TEXT),
    ("require", "", ONE_TEXT),
    ("module", "", ONE_TEXT),
    ("mod", "", ONE_TEXT),
    ("namespace", "", ONE_TEXT),
    ("package", "", ONE_TEXT),
    ("error", "", EXCEPTION),
    ("throw", "", EXCEPTION),
    ("raise", "", EXCEPTION),
    ("pub", "", SEEN),
    ("public", "", SEEN),
    ("private", "", SEEN),
    ("extern", "", SEEN),
    ("inline", "", SEEN),
];

// The slip of a word that is so many tokens before a place, if it is one of these.
fn slip_of(
    place: &Place,
    back: usize,
    words: &[(&'static str, &'static str, &'static str)],
) -> Option<Slip> {
    let text = place.text(back);
    for it in words {
        if text == it.0.as_bytes() {
            return titled(back, it.1, it.2);
        }
    }
    None
}

fn titled(back: usize, title: &'static str, help: &'static str) -> Option<Slip> {
    if title.is_empty() {
        return Slip::help(help);
    }
    Slip::before(back, title, help)
}

/// A word of another language inside a function: before the token, or the token itself.
pub fn word_slip(place: &Place, expected: &Expected) -> Option<Slip> {
    if expected.has("fun") {
        return None;
    }
    if let Some(slip) = slip_before(place) {
        return Some(slip);
    }
    if let Some(slip) = slip_of(place, 0, &CHOICE_WORDS) {
        return Some(slip);
    }
    if expected.has("handle") {
        return slip_of(place, 0, &HANDLERS);
    }
    if place.is(0, "finally") {
        return Slip::help("After its handler a `try` is over: write what follows after it.");
    }
    if place.is(0, "(") && place.is(1, "]") && place.is_number(2) && is_memory_like(place) {
        return Slip::help(
            "The memories are `sram`, `sdram` and `scratch`: a fetch is `sram[COUNT](ADDRESS)`.",
        );
    }
    if place.is(0, "in") && place.is_in_let() {
        return Slip::help(
            "A `let` ends with `;`, and what follows sees the name: `let y = 5; y + x`.",
        );
    }
    if expected.has("+") {
        return slip_of(place, 0, &OPERATORS);
    }
    None
}

// A word before the token.
fn slip_before(place: &Place) -> Option<Slip> {
    if place.is(0, ".") {
        return None;
    }
    if place.is(1, "mut") && place.is_among(2, &["let", "(", ","]) {
        return Slip::before(
            1,
            "there is no `mut`",
            "Bind the name again: `let x = x + 1;`.",
        );
    }
    if place.is(1, "rec") && place.is(2, "let") {
        return Slip::before(1, "there is no `rec`", INNER);
    }
    if place.is(1, "return") && place.is_among(0, &["Err", "err", "error", "None"]) {
        return Slip::before(
            1,
            "there is no `return`: the last expression is the value",
            "An error is an exception: `exception E[];` above, and `raise E[]` in an arm.",
        );
    }
    if place.is_word(0) && !place.is_in_layout() {
        if let Some(slip) = slip_of(place, 1, &BINDINGS) {
            return Some(slip);
        }
    }
    slip_of(place, 1, &STATEMENTS)
}

// Whether a name with a number in square brackets stands before a place.
fn is_memory_like(place: &Place) -> bool {
    place.is(3, "[") && place.is_word(4) && !place.is_among(4, &["sram", "sdram", "scratch"])
}

// A text of another kind.
fn other_text(place: &Place) -> Option<Slip> {
    if place.index() > 0 {
        return None;
    }
    match place.text(0) {
        b"memory" if place.later(1).is_number(0) => Slip::titled(
            "this is a memory text, and no source",
            "The words are SRC MEM: the source stands first.",
        ),
        b"params" if place.later(1).is_number(0) => Slip::titled(
            "this is an assembly text, and no source",
            "`nova asm` makes an object of it.",
        ),
        b"ended" | b"raised" | b"going" | b"fault"
            if place.later(1).is_number(0) || place.is(0, "going") => {
            Slip::titled(
                "this is an outcome text, and no source",
                "`nova test` compares it with what the source beside it does.",
            )
        }
        _ => None,
    }
}

// Whether a `let` declares a function in the way of other languages.
fn is_let_of_function(place: &Place) -> bool {
    let behind = place.later(2);
    place.is(0, "let")
        && place.later(1).is_word(0)
        && (behind.is_word(0) || behind.is_among(0, &["(", "["]))
}

/// A word of another language where a declaration is expected.
pub fn declaration_slip(place: &Place) -> Option<Slip> {
    if let Some(slip) = other_text(place) {
        return Some(slip);
    }
    if place.is_among(0, &["}", ")", "]"]) {
        return Slip::titled(
            "this bracket closes nothing",
            "Take it out, or look for a bracket above that closes too early.",
        );
    }
    if place.is(0, ";") {
        return Slip::help("Only a `layout` and an `exception` end with `;`.");
    }
    if place.is(0, "-") && place.next_is("-") {
        return Slip::help("A comment begins with `//`.");
    }
    if place.is_word(0) && place.next_is("fun") {
        return Slip::help(SEEN);
    }
    if place.is_word(0) && place.next_is("=") {
        return Slip::help(if place.later(2).is(0, "{") {
            BITS
        } else {
            CONSTANT
        });
    }
    if place.is(0, "and") {
        return Slip::help(
            "`and` joins a function to the one above it. The first of a group begins with `fun`.",
        );
    }
    if place.is(0, ",") {
        return Slip::help("Declarations follow each other without a comma.");
    }
    if is_let_of_function(place) {
        return Slip::help(FUNCTION);
    }
    match slip_of(place, 0, &DECLARATIONS) {
        Some(slip) => Some(slip),
        None => Slip::general("A program is a list of `layout`, `exception` and `fun`."),
    }
}
