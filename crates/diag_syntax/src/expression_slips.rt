//! Slips in expressions.

use crate::calls::call_slip;
use crate::expected::Expected;
use crate::place::Place;
use crate::slip::{BIND_AGAIN, BIT_RANGE, COMPARED, NO_ASSIGNMENT, ONE_LET, Slip};

/// A slip where an operand or an operator is expected.
pub fn expression_slip(place: &Place, expected: &Expected) -> Option<Slip> {
    if place.is_among(1, &SHIFTS) {
        return shift_slip(place);
    }
    if expected.has("1") && expected.has("~") {
        return operand_slip(place);
    }
    if place.is_number(1) && place.is_among(2, &SHIFTS) && place.is_among(0, &["+", "-"]) {
        return Slip::titled(
            "a shift binds less tightly than `+` and `-`",
            "Write brackets round the shift: `(x << 5) + x`.",
        );
    }
    if is_operator_expected(expected) {
        return operator_slip(place);
    }
    None
}

const SHIFTS: [&str; 3] = ["<<", ">>", "<<<"];

const COMPARISONS: [&str; 6] = ["==", "!=", "<", "<=", ">", ">="];

fn is_operator_expected(expected: &Expected) -> bool {
    expected.has("+") || expected.has("&&")
}

// After a sign of a shift.
fn shift_slip(place: &Place) -> Option<Slip> {
    if place.is_among(0, &["=", ">", "<"]) {
        return Slip::help(
            "Logical shifts are `<<` and `>>`, and `<<<` rotates to the left: `x <<< 29` by 3 places to the right.",
        );
    }
    Slip::help(
        "A shift goes by a number that stands in the text. A loop, or a chain of `if`s, shifts by a variable.",
    )
}

// Where an operand is expected.
fn operand_slip(place: &Place) -> Option<Slip> {
    if place.is_among(0, &["&&", "||"]) && place.is(1, ")") {
        return Slip::help(
            "Brackets stand round the whole condition: `if (x == 1 && y == 2) 1 else 2`.",
        );
    }
    match place.text(0) {
        b"word" | b"bool" if place.is(1, "(") => cast_slip(0),
        b"word" | b"bool" => Slip::titled(UNTYPED, BIND),
        b"fun" | b"layout" | b"exception" => {
            Slip::help(
                "Declarations stand at the top, not inside a function. A function before may lack its last value or a bracket.",
            )
        }
        b"packed" | b"unpacked" => Slip::help(
            "`packed(l)` and `unpacked(l)` are types. The fields of packed words are `unpack[l](w)`.",
        ),
        b"let" => Slip::help(
            "A `let` begins a block. Put round brackets about the block: `(let y = x; y + y)`.",
        ),
        b"if" | b"raise" | b"try" => {
            Slip::help(
                "`if`, `raise` and `try` are no operands. Put them into a `let`, an arm or round brackets.",
            )
        }
        b"handle" => Slip::help("The block of a `try` ends with a value, without a `;`."),
        b")" | b"]" | b"," | b"}" => ending_slip(place),
        _ => sign_slip(place),
    }
}

const UNTYPED: &str = "a variable has no type";

const BIND: &str = "Write `let x = 5;`. The type is that of the value.";

// A sign in place of an operand.
fn sign_slip(place: &Place) -> Option<Slip> {
    match place.text(0) {
        b">" if place.is(1, "<=") => Slip::help(COMPARED),
        b">" if place.is(1, "|") => Slip::titled("there is no `|>`", "A call is `f[x, 1]`."),
        b">" if place.is(1, "<") => Slip::before(1, "there is no `<>`", "Write `!=`."),
        b">" if place.is(1, "-") => Slip::before(
            1,
            "there is no `->`",
            "A store is `sram(ADDRESS) <- VALUE;`, and a dot takes a field.",
        ),
        b"|" | b"||" if place.is_among(1, &["=", "(", "[", ","]) => Slip::titled(
            "there are no closures",
            "A function is declared at the top: `fun f[x: word]: word { x + 1 }`.",
        ),
        b":" if place.is(1, ")") => Slip::help(
            "No colon stands behind a condition: `if (c) 1 else 2`.",
        ),
        b"+" if place.next_is("+") => Slip::titled(NO_ASSIGNMENT, BIND_AGAIN),
        b"-" if place.next_is("-") && place.later(2).is_word(0) && place.later(2).is_joined() => {
            Slip::titled(NO_ASSIGNMENT, BIND_AGAIN)
        }
        b"-" if place.next_is("-") => Slip::help(
            "A comment begins with `//`. There is no unary minus: write `0 - x`.",
        ),
        b"+" | b"-" if place.is(1, "|") && place.next_is("|") => Slip::titled(
            "sums have no limit but 32 bits",
            "A sum that stays at the greatest word is `if (x + y < x) 0xffffffff else x + y`, a difference that stays at 0 `if (x < y) 0 else x - y`.",
        ),
        b"-" if place.is_among(1, &COMPARISONS) => Slip::help(
            "Words have no sign: `x < y` compares from 0 to 4,294,967,295. The sign of 32 bits is `x >> 31`.",
        ),
        b"-" => Slip::help("There is no unary minus. Write `0 - x`."),
        b"+" => Slip::help("There is no unary plus. Leave it out."),
        b"&" if place.is(1, "&&") => Slip::help(
            "There is no `&&&`. Under a mask a word is compared by `x & 0xf0 == 0x40`.",
        ),
        b"&" if place.is(1, "&") => Slip::help("`&&` is one sign, without a blank between."),
        b"&" => Slip::help("There are no pointers: an address is a word."),
        b"|" if place.is(1, "|") => Slip::help("`||` is one sign, without a blank between."),
        b"^" if place.is(1, "^") => Slip::help(
            "There is no `^^`. Between words write `^`, and of bools `a && !b || !a && b`.",
        ),
        b"[" => Slip::help("There are no lists. A tuple stands in `( )`, and a table in a memory."),
        _ => None,
    }
}

// A bracket or a comma in place of an operand.
fn ending_slip(place: &Place) -> Option<Slip> {
    if place.is(1, ",") {
        return Slip::help("No `,` stands after the last part.");
    }
    if place.is(1, "else") {
        return Slip::help("The second arm is missing: write `()` where it gives nothing.");
    }
    if place.is(0, "}") && place.is(1, "{") {
        return Slip::help("A block has a value. That of nothing is `()`.");
    }
    if place.is(0, "}") && place.is(1, ";") {
        return Slip::help("A block ends with a value. Write `()` after the last statement.");
    }
    Slip::help("An operand is missing.")
}

// Where an operator is expected.
fn operator_slip(place: &Place) -> Option<Slip> {
    if place.is(1, ")") && is_after_else(place) {
        return Slip::help("Write `else if (c) 1 else 2`.");
    }
    if place.is(1, ")") && place.is(3, "(") && place.is_among(2, &FOREIGN_TYPES) {
        return cast_slip(2);
    }
    if place.is_among(0, &COMPARISONS) {
        return comparison_slip(place);
    }
    match place.text(0) {
        b"(" if place.is(2, ".") => Slip::help(
            "There are no methods: a dot takes a record's field, and a call is `f[x, 1]`.",
        ),
        b"(" if place.is_word(1) => call_slip(place),
        b"[" if place.later(2).is_range() => Slip::titled(
            "bits of a word have no numbers",
            BIT_RANGE,
        ),
        b"[" => Slip::help(
            "There are no arrays: the parts of a tuple are named by a pattern, `let (a, b) = t;`.",
        ),
        b"," => comma_slip(place),
        b"if" if !place.is_on_new_line() => Slip::help(
            "An `if` begins with its condition: `if (x == 0) 1 else 2`.",
        ),
        b"~" | b"!" => Slip::help(
            "`~` and `!` stand before an operand, and an operator between two.",
        ),
        b"{"
            if place.is_word(1)
                && place.later(1).is_word(0)
                && place.later(2).is_among(0, &["=", ":"]) => Slip::help(
            "A record has no name before it: `{ a = 1, b = 2 }`.",
        ),
        b"{" => Slip::help(
            "Braces are for functions, `try` and records. An arm has none, and a block as a value stands in round brackets.",
        ),
        _ => None,
    }
}

const FOREIGN_TYPES: [&str; 16] = [
    "int", "uint", "unsigned", "char", "short", "long", "byte", "u8", "u16", "u32", "uint8_t",
    "uint16_t", "uint32_t", "int32_t", "size_t", "be16",
];

// A type in brackets before a value.
fn cast_slip(back: usize) -> Option<Slip> {
    Slip::before(
        back,
        "there are no casts",
        "Each number is a word. Its low byte is `x & 0xff`, and a bool is made by `x != 0`.",
    )
}

// A second comparison.
fn comparison_slip(place: &Place) -> Option<Slip> {
    if place.is(2, "<") && place.is_among(3, &["bit", "int", "varbit"]) && place.is(4, "(") {
        return cast_slip(3);
    }
    if place.is(2, "<") && place.is_among(3, &["bit", "int", "varbit"]) {
        return Slip::before(3, UNTYPED, BIND);
    }
    if place.is(2, "<")
        && place.is_among(1, &["bit", "int", "varbit", "word", "u8", "u16", "u32"])
    {
        return Slip::before(
            2,
            "a function has no type arguments",
            "Leave `<..>` out. A word has 32 bits, and its parts are fields of a layout.",
        );
    }
    if place.is_among(2, &["&", "|"]) {
        return Slip::before(
            2,
            "`&` and `|` bind more tightly than a comparison",
            "Comparisons are joined by `&&` and `||`: `x == 1 && y == 2`.",
        );
    }
    Slip::titled("a comparison stands alone", "Write `1 < x && x < 3`.")
}

// Whether the brackets before a place follow an `else`.
fn is_after_else(place: &Place) -> bool {
    match place.opened(1) {
        Some(open) => open.is(1, "else") && (place.is_word(0) || place.is_number(0)),
        None => false,
    }
}

// A comma after a value that stands alone.
fn comma_slip(place: &Place) -> Option<Slip> {
    let Some(open) = place.open_bracket() else {
        return None;
    };
    if open.is(0, "{") {
        let is_bound = place.later(1).is_word(0) && place.later(2).is(0, "=");
        return Slip::help(if is_bound && place.is_among(2, &["{", ";"]) {
            "Several names stand in `( )`: `let (a, b) = f[];`."
        } else if is_bound {
            ONE_LET
        } else {
            "Several values stand in round brackets: `(a, b)`."
        });
    }
    if !open.is(0, "(") {
        return None;
    }
    if open.is(1, "if") {
        return Slip::help("Conditions are joined by `&&` or `||`: `x == 1 && y == 2`.");
    }
    if open.is_among(1, &MEMORIES) || open.is(1, "]") && open.is_among(4, &MEMORIES) {
        return Slip::help(
            "An address is one word: a store is `sram(ADDRESS) <- VALUE;`, and a fetch `sram[COUNT](ADDRESS)`.",
        );
    }
    if open.is(1, "]") && open.is_among(4, &["unpack", "pack"]) {
        return Slip::help("Several words are a tuple: `unpack[l]((w0, w1))`.");
    }
    None
}

const MEMORIES: [&str; 3] = ["sram", "sdram", "scratch"];
