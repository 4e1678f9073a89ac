//! Slips in declarations, patterns, accesses and the like, where few tokens may stand.

use crate::expected::Expected;
use crate::place::Place;
use crate::slip::{BIT_RANGE, NO_ASSIGNMENT, RECORD_ANEW, Slip};

const ACCESS: &str = "A fetch is `sram[COUNT](ADDRESS)`, a store `sram(ADDRESS) <- VALUE;`.";

const HEAD: &str =
    "A function is `fun f[x: word]: word { x }`. One without parameters has `[]`, and `()` is the type of nothing.";

/// A slip where the token before says what is begun.
pub fn head_slip(place: &Place, expected: &Expected) -> Option<Slip> {
    if expected.has("+") || expected.has("fun") {
        return late_slip(place, expected);
    }
    if let Some(slip) = access_slip(place, expected) {
        return Some(slip);
    }
    if let Some(slip) = handler_slip(place, expected) {
        return Some(slip);
    }
    if let Some(slip) = layout_slip(place, expected) {
        return Some(slip);
    }
    if let Some(slip) = named_slip(place, expected) {
        return Some(slip);
    }
    if let Some(slip) = pattern_slip(place, expected) {
        return Some(slip);
    }
    colon_slip(place, expected)
}

// After a whole expression.
fn late_slip(place: &Place, expected: &Expected) -> Option<Slip> {
    if place.is(0, "<-") && place.is(2, ".") {
        return Slip::titled(NO_ASSIGNMENT, RECORD_ANEW);
    }
    if place.is(0, "<-") && expected.has("+") {
        return Slip::help(
            "A store is a statement that begins with `sram(ADDRESS) <-`, without a count.",
        );
    }
    if place.is(0, "handle") && is_in_try(place) {
        return Slip::help("A brace ends the block of a `try`: `try { .. } handle E[] { .. }`.");
    }
    if place.is(0, ":") && place.next_is("=") {
        return Slip::help("A variable is bound by `let x = 5;`.");
    }
    if place.is_range() {
        return Slip::titled("bits of a word have no numbers", BIT_RANGE);
    }
    if place.is(0, ":") && place.next_is(":") {
        return path_slip(place);
    }
    if place.is(0, ":") && place.is_word(1) && place.is_among(2, &["{", ";"]) {
        return labelled_slip(place);
    }
    if place.is(0, ":") && expected.has("+") {
        return Slip::help(
            "A colon gives a type to a parameter or bits to a field. A `let` has no type, and a record's value has `=`.",
        );
    }
    if expected.has("fun") && place.is_word(0) && place.next_is("[") {
        return Slip::help(HEAD);
    }
    None
}

// Whether the innermost bracket is the brace of a `try`.
fn is_in_try(place: &Place) -> bool {
    match place.open_bracket() {
        Some(open) => open.is(1, "try"),
        None => false,
    }
}

// Two colons.
fn path_slip(place: &Place) -> Option<Slip> {
    Slip::titled(
        "there is no `::`",
        if place.later(2).is(0, "MAX") {
            "The greatest word is `0xffffffff`."
        } else {
            "A name is one word. A dot takes a record's field."
        },
    )
}

// A colon behind the first word of a statement.
fn labelled_slip(place: &Place) -> Option<Slip> {
    if place.later(1).is_among(0, &["word", "bool"]) {
        return Slip::help("A variable is bound by `let x = 5;`.");
    }
    Slip::titled(
        "there are no labels",
        "A place to go back to is a function that calls itself last: `fun again[n: word]: word { if (n == 0) 0 else again[n - 1] }`.",
    )
}

// Memories, layouts and exceptions at work.
fn access_slip(place: &Place, expected: &Expected) -> Option<Slip> {
    let is_memory = place.is_among(1, &MEMORIES);
    if is_memory || place.is(1, "[") && place.is_among(2, &MEMORIES) {
        return Slip::help(ACCESS);
    }
    if expected.has("(") && !expected.has("1") && place.is(1, "]") && place.is_among(4, &MEMORIES) {
        return Slip::help(ACCESS);
    }
    if expected.has("<-") {
        return Slip::help(ACCESS);
    }
    if place.is_among(1, &["unpack", "pack"])
        || place.is(1, "]") && place.is_among(4, &["unpack", "pack"])
    {
        return Slip::help(
            "Write the layout's name and the value: `unpack[LAYOUT](w)`, `pack[LAYOUT]({ .. })`.",
        );
    }
    if place.is(0, ",") && place.is(2, "[") && place.is_among(3, &["unpack", "pack"]) {
        return Slip::help(
            "Write the layout's name and the value: `unpack[LAYOUT](w)`, `pack[LAYOUT]({ .. })`.",
        );
    }
    let is_keyword = place.is(1, "(") && place.is_among(2, &["packed", "unpacked"])
        || place.is(1, "[") && place.is_among(2, &["pack", "unpack"]);
    if is_keyword && place.is_word(0) {
        return Slip::help(
            "The name of a layout stands there, as in `packed(l)` and `unpack[l](w)`.",
        );
    }
    if place.is_among(1, &["packed", "unpacked"]) {
        return Slip::help(
            "The types of a layout are `packed(l)`, its words, and `unpacked(l)`, the record of its fields.",
        );
    }
    if place.is(1, "raise") {
        return Slip::help(
            "The name of an exception follows, and its values in `[ ]`: `raise E[x]`.",
        );
    }
    if place.is(2, "raise") {
        return Slip::help("Values stand in `[ ]`, also where there are none: `raise E[]`.");
    }
    None
}

// Handlers, and `..`.
fn handler_slip(place: &Place, expected: &Expected) -> Option<Slip> {
    if place.is(1, "handle") && place.is_among(0, &["_", "{"]) {
        return Slip::help(
            "There is no handler of all exceptions: each is named, as in `handle E[] { .. }`.",
        );
    }
    if place.is(0, ":") && place.is_in_handler() {
        return Slip::help("A pattern has no type: `handle E[x] { .. }`.");
    }
    if place.is(1, "handle") || place.is(2, "handle") {
        return Slip::help(
            "A handler is `handle E[x] { .. }`, with one pattern for each value of the exception.",
        );
    }
    if is_after_handler(place) && expected.has("{") {
        return Slip::help("The body of a handler stands in braces: `handle E[x] { .. }`.");
    }
    if expected.has("handle") {
        return Slip::help("A `try` has a handler: `try { .. } handle E[] { .. }`.");
    }
    if place.is(0, "handle") && place.is(1, "}") {
        return Slip::help(
            "A `try` has one handler. Put it into another `try`: `try { try { .. } handle E[] { .. } } handle F[] { .. }`.",
        );
    }
    let is_dots = place.is(0, ".") && (place.is(1, ".") || place.next_is("."));
    if is_dots && place.is_in_layout() {
        return Slip::help(
            "A field has its number of bits: `a: 8`. Its place follows from those before it.",
        );
    }
    let is_turn = place.is_number(1) || place.is(1, ".") && place.is_number(2);
    if is_dots && is_turn && place.is_in_round_brackets() {
        return Slip::titled(
            "there are no ranges to go through",
            "A loop is a function that calls itself last: `fun sum[i: word, s: word]: word { if (i == 0) s else sum[i - 1, s + i] }`.",
        );
    }
    if is_dots {
        return Slip::titled(
            "there is no `..`",
            "A record has all its fields, as in `{ a = 1, b = h.b }`. A range is `1 <= x && x < 5`.",
        );
    }
    None
}

// Whether the patterns of a handler stand before a place.
fn is_after_handler(place: &Place) -> bool {
    match place.opened(1) {
        Some(open) => place.is(1, "]") && open.is(2, "handle"),
        None => false,
    }
}

// Between the braces of a layout.
fn layout_slip(place: &Place, expected: &Expected) -> Option<Slip> {
    if !place.is_in_layout() {
        return None;
    }
    if let Some(slip) = joint_slip(place, expected) {
        return Some(slip);
    }
    if !expected.has("x") {
        return None;
    }
    if place.is(1, "=") {
        return Slip::help("A layout is `layout l = { a: 8, b: 24 };`.");
    }
    if place.is(1, ":") && place.is_among(0, &["word", "bool"]) {
        return Slip::help("A field has a number of bits: `a: 32`.");
    }
    if !place.is_among(1, &["{", ",", "|"]) {
        return None;
    }
    if place.is_number(0) || place.is_among(0, &["_", ":"]) {
        return Slip::help(
            "Bits without a name are a gap, joined by `##`: `{ a: 8 } ## {8} ## { b: 16 }`.",
        );
    }
    if place.is_among(0, &["word", "bool"]) {
        return Slip::help("A field is its name, a colon and its bits: `a: 8`.");
    }
    None
}

// Between the layouts of a declaration, in gaps and in overlays.
fn joint_slip(place: &Place, expected: &Expected) -> Option<Slip> {
    if place.is(0, ",") && expected.has("##") && !expected.has(",") {
        return Slip::help("Layouts are joined by `##`: `layout l = a ## { b: 8 };`.");
    }
    if place.is(0, "overlay") && place.is_among(1, &["=", "##"]) {
        return Slip::help("An overlay is a field: `layout l = { v: overlay { a: 32 | b: 32 } };`.");
    }
    if place.is_word(0) && place.is_number(1) && expected.has(",") && !place.next_is(":") {
        return Slip::help("A size is a number of bits alone: `a: 8`.");
    }
    if place.is(0, "[") && expected.has("##") {
        return Slip::help(
            "There are no arrays of layouts. Each header of a stack is unpacked by itself: `unpack[l](w)`.",
        );
    }
    if place.is(0, ":") && expected.has("##") && !expected.has(",") {
        return Slip::help("The fields of a layout stand in braces: `layout l = { a: 8, b: 24 };`.");
    }
    if place.is(1, "##") {
        return Slip::help("After `##` comes a layout: its name, `{ a: 8 }`, or a gap `{8}`.");
    }
    if place.is(1, "{") && place.is(0, "-") {
        return Slip::help(
            "A gap has 1 to 1,024 bits, as `{8}`. Fields can't overlap but in an overlay.",
        );
    }
    if expected.has("|") && place.is(0, "}") {
        return Slip::help(
            "An overlay has two alternatives or more: `v: overlay { a: 16 | b: 16 }`.",
        );
    }
    if place.is(0, "-") && expected.has(":") {
        return Slip::help("A name has letters, digits and `_`: `total_length`.");
    }
    None
}

const MEMORIES: [&str; 3] = ["sram", "sdram", "scratch"];

// After a keyword and its name.
fn named_slip(place: &Place, expected: &Expected) -> Option<Slip> {
    if place.is(1, "if") {
        return Slip::help("A condition stands in `( )`: `if (c) 1 else 2`.");
    }
    if place.is(1, "try") {
        return Slip::help("Write `try { .. } handle E[] { .. }`.");
    }
    if place.is(1, "exception") && !place.is_word(0) {
        return Slip::help("An exception has a name: `exception E[word];`.");
    }
    if place.is(1, "layout") && !place.is_word(0) {
        return Slip::help("A layout has a name: `layout l = { a: 8, b: 24 };`.");
    }
    if place.is(3, "exception") && place.is(1, "[") && place.next_is(":") {
        return Slip::help(
            "The values of an exception have types and no names: `exception E[word];`.",
        );
    }
    if place.is(2, "exception") {
        return Slip::help(
            "An exception has a list of types, which may be empty: `exception E[];`.",
        );
    }
    if place.is(2, "layout") {
        return Slip::help("A layout is `layout l = { a: 8, b: 24 };`.");
    }
    function_slip(place, expected)
}

// In the head of a function.
fn function_slip(place: &Place, expected: &Expected) -> Option<Slip> {
    if place.is_among(1, &["fun", "and", "layout", "exception"]) && place.is_number(0) {
        return Slip::help("A name begins with a letter or `_`.");
    }
    if place.is_among(2, &["fun", "and"]) && place.is(0, "-") {
        return Slip::help("A name has letters, digits and `_`: `count_down`.");
    }
    if place.is_among(1, &["fun", "and"]) && !place.is_word(0) {
        return Slip::help("A function has a name: `fun f[x: word]: word { x }`.");
    }
    if place.is_among(2, &["fun", "and"]) && place.is(0, "<") {
        return Slip::titled(
            "a function has no type parameters",
            "Each parameter has one type: `fun f[x: word]: word { x }`.",
        );
    }
    if place.is_among(2, &["fun", "and"]) {
        return Slip::help(if place.is(0, "(") {
            "Parameters and arguments stand in `[ ]`, as in `f[1, 2]`."
        } else {
            HEAD
        });
    }
    if place.is(1, "]") && expected.has(":") {
        return Slip::help(
            "The type of the result stands after a colon: `fun f[x: word]: word { x }`. `()` is the type of nothing.",
        );
    }
    if expected.has("{")
        && !expected.has("x")
        && !expected.has("bool")
        && place.open_bracket().is_none()
    {
        return Slip::help(if place.is(0, ";") {
            "A function is declared once, with its body. Functions that call each other are joined by `and`."
        } else {
            HEAD
        });
    }
    None
}

// After `let`, and in patterns.
fn pattern_slip(place: &Place, expected: &Expected) -> Option<Slip> {
    if place.is(2, "let") && expected.has("=") {
        return match place.text(0) {
            b":" => Slip::help("A `let` has no type: `let x = 5;`."),
            b"," => Slip::help("Several names stand in `( )`: `let (a, b) = f[];`."),
            b";" => Slip::help("A `let` gives a value at once: `let x = 0;`."),
            b"[" => Slip::help("There are no arrays. A table is words of a memory."),
            b"-" => Slip::help("A name has letters, digits and `_`: `total_length`."),
            b"." => Slip::help(RECORD_ANEW),
            _ if place.is_word(0) => Slip::help(
                "A `let` is `let x = 5;`, and a function is declared at the top: `fun f[x: word]: word { x }`.",
            ),
            _ => Slip::help("A `let` is `let x = 5;`."),
        };
    }
    if place.is(1, ")") && expected.has("=") && place.is(0, ":") {
        return Slip::help("A `let` has no type: `let (a, b) = f[];`.");
    }
    if place.is_word(0) && place.is_in_pattern() && expected.has(",") {
        return Slip::help("The names of a pattern are parted by `,`: `let (a, b) = f[];`.");
    }
    if place.is(0, ":") && place.is_in_pattern() {
        return Slip::help("A pattern has no types: `let (a, b) = f[];`.");
    }
    if place.is(0, ")") && place.is(2, "(") && expected.has(",") && place.is_in_pattern() {
        return Slip::help(
            "A pattern in brackets has two parts or more: `let (x, _) = f[];`. One name has no brackets.",
        );
    }
    if expected.has("_") && place.is(0, "{") {
        return Slip::help(
            "A record is bound by one name, and a dot takes its fields: `let h = unpack[l](w); h.a`.",
        );
    }
    if expected.has("_") && place.is(0, ")") && place.is(1, ",") {
        return Slip::help("No `,` stands after the last part.");
    }
    if expected.has("_") && place.is(0, "[") {
        return Slip::help("Several names stand in `( )`: `let (a, b) = f[];`.");
    }
    None
}

// Names before a colon or an equals sign, and what parts fields.
fn colon_slip(place: &Place, expected: &Expected) -> Option<Slip> {
    if expected.has(":") {
        return before_colon_slip(place);
    }
    if place.is_among(0, &["word", "bool"]) && expected.has("]") && expected.has("x") {
        return Slip::help("A parameter is its name, a colon and its type: `fun f[x: word]`.");
    }
    if place.is_word(0) && expected.has("]") && expected.has("x") && !expected.has("1") {
        return Slip::help("A keyword is no name. Choose another name.");
    }
    if place.is(0, "(") && expected.has("]") && expected.has("x") && !expected.has("1") {
        return Slip::help(
            "A function without parameters has `[]`, and a parameter is its name, a colon and its type: `fun f[x: word]`.",
        );
    }
    if expected.has("=") && place.is(0, ".") && place.is_among(2, &["{", ","]) {
        return Slip::help("Each field of a record has its name: `{ a = h.a, b = 1 }`.");
    }
    if place.is(0, "with") && expected.has("=") {
        return Slip::help(RECORD_ANEW);
    }
    if expected.has("=") && place.is(0, ":") {
        return Slip::help("A record's value has `=`: `{ source = 1 }`.");
    }
    if expected.has("=") && place.is(1, ")") {
        return Slip::help("A `let` is `let () = f[x];`.");
    }
    if expected.has("=") && place.is(2, "{") {
        return Slip::help(brace_help(place));
    }
    if place.is(1, "{") && expected.has("x") && !expected.has("1") {
        return Slip::help(brace_help(&place.later(1)));
    }
    sign_slip(place, expected)
}

// Words before a parameter in other languages.
const PASSING: [&str; 7] = ["in", "out", "inout", "const", "mut", "ref", "var"];

// Where a colon is expected.
fn before_colon_slip(place: &Place) -> Option<Slip> {
    match place.text(0) {
        b"," | b"}" if place.is_in_layout() => Slip::help(
            "A field is its name, a colon and its bits: `a: 8`.",
        ),
        b"]" if place.is_among(1, &["void", "unit", "none"]) => Slip::before(
            1,
            "the list of no parameters is empty",
            "A function without parameters is `fun f[]: word { 1 }`.",
        ),
        b"," | b"]" => Slip::help("A parameter has a type: `fun f[x: word]`."),
        b"=" => Slip::help("A colon gives the type or the bits: `{ a: 8 }`."),
        b"<" => Slip::help("A field is its name, a colon and its bits: `a: 8`."),
        _ if place.is_word(0) && place.is_in_layout() && place.next_is(":") => Slip::before(
            1,
            "a field is its name and its bits alone",
            "Leave the word out: `a: 8`.",
        ),
        b"}" => Slip::help(
            "A function is `fun f[x: word]: word { x }`. A brace after the colon begins a record's type.",
        ),
        _ if place.is_among(1, &PASSING) && place.is_word(0) => Slip::before(
            1,
            "a parameter is its name and its type alone",
            "Leave the word out. What a function changes is a part of its result.",
        ),
        _ => Slip::help(
            "A colon stands between a name and its type or its bits: `x: word`, `a: 8`.",
        ),
    }
}

// A sign between fields or layouts that isn't theirs.
fn sign_slip(place: &Place, expected: &Expected) -> Option<Slip> {
    match place.text(0) {
        b";" if place.is_in_layout() && place.ends_declaration() => None,
        b"-" if place.next_is(">") => Slip::titled(
            "a function is no value",
            "It has no type and isn't handed on: a call names its function.",
        ),
        b":" if expected.has("]") && expected.has(",") => Slip::help(
            "`]` ends the parameters, and the type of the result follows: `fun f[x: word]: word { x }`.",
        ),
        b";" if expected.has(",") => Slip::help(
            "The fields of a layout and the parts of a list are parted by `,`.",
        ),
        b"<" if place.is(1, "word") => Slip::help(
            "A word has 32 bits. Parts of fewer bits are fields of a layout: `layout l = { a: 8, b: 24 };`.",
        ),
        _ if place.is_word(0) && place.next_is(":") && expected.has(",") => Slip::gap(
            "The parts of a list are parted by `,`.",
        ),
        b"," if expected.has("|") => Slip::help(
            "The alternatives of an overlay are parted by `|`.",
        ),
        b"|" if expected.has(",") => Slip::help(
            "Alternatives stand in an overlay: `v: overlay { a: 8 | b: 8 }`.",
        ),
        b"=" if expected.has("]") => Slip::help(
            "A parameter has no default: each call gives all arguments.",
        ),
        b"+" | b"{" if expected.has("##") => Slip::help("Layouts are joined by `##`."),
        _ => None,
    }
}

// Where a `{` two tokens before begins a record, and what follows is none.
fn brace_help(place: &Place) -> &'static str {
    if place.is(3, ")") || place.is(3, "else") {
        "The arms of an `if` have no braces, since `{` begins a record. Write `if (c) 1 else 2`."
    } else {
        "`{` begins a record: `{ a = 1 }`. A block as a value stands in round brackets: `(let y = x; y + y)`."
    }
}
