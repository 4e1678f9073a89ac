//! The usual slips that end in a fault of the text, and what to write in their place.

use crate::calls::called_slip;
use crate::expected::Expected;
use crate::expression_slips::expression_slip;
use crate::foreign::{declaration_slip, word_slip};
use crate::head_slips::head_slip;
use crate::place::Place;
use crate::slip::{BIND_AGAIN, COMPARED, Mark, NO_ASSIGNMENT, ONE_LET, RECORD_ANEW, Slip};

/// The slip at a place, or what is said in general.
pub fn slip_at(place: &Place, expected: &Expected) -> Slip {
    match special_slip(place, expected) {
        Some(slip) => slip,
        None => general_slip(place, expected),
    }
}

// A slip that is known.
fn special_slip(place: &Place, expected: &Expected) -> Option<Slip> {
    if let Some(slip) = word_slip(place, expected) {
        return Some(slip);
    }
    if let Some(slip) = number_slip(place) {
        return Some(slip);
    }
    if let Some(slip) = head_slip(place, expected) {
        return Some(slip);
    }
    if expected.has("fun") {
        return declaration_slip(place);
    }
    if let Some(slip) = statement_slip(place, expected) {
        return Some(slip);
    }
    expression_slip(place, expected)
}

// Letters right after a number, and numbers with a point.
fn number_slip(place: &Place) -> Option<Slip> {
    if place.is(1, ".") && place.is_number(0) {
        return part_slip(place);
    }
    if !place.is_number(1) || !place.is_joined() || !place.is_word(0) {
        return None;
    }
    let Some(byte) = place.text(0).first() else {
        return None;
    };
    match *byte {
        b'X' if place.is(1, "0") => Slip::before(
            1,
            "a hexadecimal number begins with `0x`",
            "Write a small `x`: `0xff`.",
        ),
        b'x' if place.is(1, "0") => Slip::before(
            1,
            "no hexadecimal digit follows `0x`",
            "The digits are 0 to 9 and a to f: `0xff`.",
        ),
        b'_' => Slip::before(
            1,
            "a number has no `_`",
            "Write the digits alone, as `0xffff0000`.",
        ),
        b'b' | b'B' if place.is(1, "0") => Slip::before(
            1,
            "there are no binary numbers",
            "Write hexadecimal digits: `0xf` is 1111.",
        ),
        b'o' | b'O' if place.is(1, "0") => Slip::before(
            1,
            "there are no octal numbers",
            "Write decimal or hexadecimal digits: `0x1ff`.",
        ),
        b'B' | b'b' if place.is_in_layout() => Slip::before(
            1,
            "a size is a number of bits",
            "Write the number alone: `a: 16` has two bytes.",
        ),
        b'w' | b's' => Slip::before(
            1,
            "a number has no width",
            "Write the digits alone: each number is a word.",
        ),
        b'u' | b'U' | b'l' | b'L' => Slip::before(
            1,
            "a number has no suffix",
            "Write the digits alone: each number is a word.",
        ),
        _ => Slip::before(
            1,
            "a number and a name stand side by side",
            "Hexadecimal digits stand after `0x`. A name begins with a letter or `_`.",
        ),
    }
}

// A number after a dot.
fn part_slip(place: &Place) -> Option<Slip> {
    if place.is_number(2) {
        return Slip::before(
            2,
            "there are no fractions",
            "A word is a whole number of 32 bits.",
        );
    }
    Slip::titled(
        "parts of a tuple have no numbers",
        "Name them by a pattern: `let (a, b) = f[];`. A dot takes a record's field.",
    )
}

// Slips of statements: assignments, and what ends them.
fn statement_slip(place: &Place, expected: &Expected) -> Option<Slip> {
    if place.is(0, "=") && expected.has("<-") && !expected.has("+") {
        return Slip::help("A store is `sram(at) <- x;`.");
    }
    if let Some(slip) = assignment_slip(place, expected) {
        return Some(slip);
    }
    if let Some(slip) = choice_slip(place, expected) {
        return Some(slip);
    }
    if is_commented_brace(place, expected) {
        return Slip::gap(QUOTIENT);
    }
    if place.is(0, ";") {
        return semicolon_slip(place, expected);
    }
    if expected.has(";") && expected.has("+") {
        return unended_slip(place);
    }
    None
}

// Whether the text or a function ends without its brace, and a comment on the last line has one.
fn is_commented_brace(place: &Place, expected: &Expected) -> bool {
    let is_end = place.text(0).is_empty() || place.begins_declaration();
    is_end && expected.has("}") && place.is_after_commented(b'}')
}

const CHOSEN: &str = "A choice gives the value: `let x = if (c) 5 else x;`.";

const QUOTIENT: &str =
    "`//` begins a comment, up to the line's end. A quotient by a power of two is a shift: `x >> 3`.";

// An `=` where none may stand, and signs such as `+=` and `++`.
fn assignment_slip(place: &Place, expected: &Expected) -> Option<Slip> {
    let is_double = place.is_among(0, &["+", "-"]) && place.text(0) == place.text(1);
    if is_double && place.is_joined() && !expected.has("+") {
        return double_slip(place);
    }
    if !place.is(0, "=") {
        return None;
    }
    let is_parted = !place.is_joined() && place.is_among(1, &["<", ">", "!"]);
    if expected.has("~") && (is_parted || place.is_joined() && place.is_among(1, &["==", "!="])) {
        return Slip::help(COMPARED);
    }
    let is_operand = expected.has("~") || place.is_among(1, &SHIFTS);
    if is_operand && place.is_joined() && place.is_among(1, &OPERATORS) {
        return Slip::before(1, NO_ASSIGNMENT, BIND_AGAIN);
    }
    if !expected.has("+") {
        return None;
    }
    if place.next_is(">") || place.next_is("!") {
        return Slip::help(COMPARED);
    }
    if place.is(2, "=") && place.is_in_let() {
        return Slip::titled(NO_ASSIGNMENT, ONE_LET);
    }
    if let Some(slip) = named_value_slip(place) {
        return Some(slip);
    }
    if is_in_condition(place) {
        return Slip::help("`==` compares words. `=` is for `let` and the fields of records.");
    }
    if place.is(2, ".") {
        return Slip::titled(NO_ASSIGNMENT, RECORD_ANEW);
    }
    if place.is(1, ")") {
        return Slip::titled(
            NO_ASSIGNMENT,
            "Several names are bound by `let (a, b) = f[];`.",
        );
    }
    if place.is(1, "]") {
        return Slip::titled(
            NO_ASSIGNMENT,
            "There are no arrays. A table is words of a memory: `sram(at + i) <- x;`.",
        );
    }
    Slip::titled(
        NO_ASSIGNMENT,
        if place.open_choice().is_some() {
            CHOSEN
        } else {
            BIND_AGAIN
        },
    )
}

// Two signs `++` or `--`.
fn double_slip(place: &Place) -> Option<Slip> {
    let next = place.later(1);
    let is_between = place.is_word(2) || place.is_number(2) || place.is_among(2, &[")", "]"]);
    if is_between && (next.is_word(0) || next.is_number(0) || next.is(0, "(")) && place.is(0, "+") {
        return Slip::before(
            1,
            "there is no `++`",
            "Parts of a word are put together by a shift: `(a << 16) | b`.",
        );
    }
    Slip::before(1, NO_ASSIGNMENT, BIND_AGAIN)
}

// Arguments and packed fields with names, outside a record.
fn named_value_slip(place: &Place) -> Option<Slip> {
    let open = place.open_bracket()?;
    if open.is(0, "[") {
        return Slip::help("Arguments have no names: they are in the order of the parameters.");
    }
    if open.is(0, "(") && open.is(1, "]") && open.is(4, "pack") {
        return Slip::help("The fields of `pack` are a record: `pack[l]({ a = 1, b = 2 })`.");
    }
    None
}

const SHIFTS: [&str; 3] = ["<<", ">>", "<<<"];

const OPERATORS: [&str; 8] = ["+", "-", "&", "|", "^", "<<", ">>", "<<<"];

// Whether the innermost bracket is that of a condition, or a sign of bools stands before.
fn is_in_condition(place: &Place) -> bool {
    if place.is_among(2, &["&&", "||", "!"]) {
        return true;
    }
    let Some(open) = place.open_bracket() else {
        return false;
    };
    open.is(0, "(") && open.is(1, "if")
}

// An `if` without its second arm, and an `else` that follows no arm.
fn choice_slip(place: &Place, expected: &Expected) -> Option<Slip> {
    if expected.has("else") {
        return unfinished_choice(place);
    }
    if place.is(0, "else") && place.is(1, ")") && expected.has("~") {
        return Slip::help("The first arm is missing: `if (c) 1 else 2`. That of nothing is `()`.");
    }
    if place.is(0, "else") && expected.has("~") && !place.is(1, ";") {
        return Slip::help(if place.is(1, "{") {
            "An `if` stands before its `else`: `if (c) 1 else 2`."
        } else {
            "An operand is missing."
        });
    }
    if place.is(0, "else") && place.is(1, ";") && place.open_choice().is_none() {
        return Slip::help("An `if` stands before its `else`: `if (c) 1 else 2`.");
    }
    if place.is(0, "else") && place.is(1, ";") {
        return Slip::gap("An arm ends with a value: write `()` after its last `;`.");
    }
    if place.is(0, "else") && !place.is_after_choice() {
        return Slip::titled(
            "a `let` has no `else`",
            "Its pattern fits each value. A choice is `let x = if (c) 1 else 2;`.",
        );
    }
    if place.is(0, "else") {
        return Slip::help("An `if` before it has both arms, or none is there.");
    }
    if place.is(0, "}") && place.is(1, ";") && expected.has("1") && place.open_choice().is_some() {
        return Slip::help(
            "An arm ends with a value: `(if (c) sram(0) <- 1; () else ())`. The brackets let statements follow.",
        );
    }
    None
}

// Where `else` may stand.
fn unfinished_choice(place: &Place) -> Option<Slip> {
    if place.is(0, ";") && place.next_is("else") {
        return Slip::help("No `;` stands before `else`.");
    }
    if place.is(0, ";") && place.is(1, "]") {
        return after_call(place);
    }
    if place.is_among(0, &[";", "}", ")", "]"]) {
        return Slip::help(
            "Write `else` and what it gives then, or `else ()` where that is nothing.",
        );
    }
    None
}

// A `;` after a call or a `raise` that is the first arm.
fn after_call(place: &Place) -> Option<Slip> {
    let is_raise = match place.opened(1) {
        Some(open) => open.is(2, "raise"),
        None => false,
    };
    Slip::help(if is_raise {
        "Write `else` in place of the `;`, and go on with what follows."
    } else {
        "To go on after a call that gives `()`, write `let () = if (c) f[x] else ();`. Of one that gives a word write `let _ = if (c) f[x] else 0;`."
    })
}

// A `;` that ends no statement.
fn semicolon_slip(place: &Place, expected: &Expected) -> Option<Slip> {
    if place.is(1, ";") {
        return Slip::help("One `;` is enough.");
    }
    if let Some(slip) = raised_slip(place) {
        return Some(slip);
    }
    if expected.has("~") {
        return Slip::help(if is_after_condition(place) {
            "The arms of an `if` follow its condition: `if (c) 1 else 2`."
        } else {
            "A value is missing before the `;`."
        });
    }
    if !expected.has("+") || place.is_in_brackets() {
        return None;
    }
    if expected.has(",") {
        return Slip::help("The fields of a record are parted by `,`.");
    }
    if let (true, Some(open)) = (place.is(1, "]"), place.opened(1)) {
        if let (false, Some(slip)) = (open.declares(1), called_slip(&open, 1)) {
            return Some(at_back(slip, place.index().saturating_sub(open.index())));
        }
    }
    if place.is(1, "]") {
        return Slip::help(
            "A call is no statement. Write `let () = f[x];`, or `let _ = f[x];` where it gives something.",
        );
    }
    Slip::help(
        "Only a `let` and a store end with `;`. Leave it out after a block's value, or write `let _ = ..;`.",
    )
}

// Whether the condition of an `if` stands before a place.
fn is_after_condition(place: &Place) -> bool {
    match place.opened(1) {
        Some(open) => place.is(1, ")") && open.is(1, "if"),
        None => false,
    }
}

// A slip at a token before that is shown so many tokens further back.
fn at_back(slip: Slip, count: usize) -> Slip {
    Slip {
        title: slip.title,
        help: slip.help,
        mark: match slip.mark {
            Mark::Before(back) => Mark::Before(back.saturating_add(count)),
            other => other,
        },
        is_general: slip.is_general,
    }
}

// A `raise` that ends with a `;`.
fn raised_slip(place: &Place) -> Option<Slip> {
    let open = place.opened(1)?;
    if !place.is(1, "]") || !open.is(2, "raise") {
        return None;
    }
    Slip::help("A `raise` ends its block or arm: no `;` and nothing else follows it.")
}

// A statement that hasn't ended.
fn unended_slip(place: &Place) -> Option<Slip> {
    if place.is_after_commented(b';') {
        return Slip::gap(
            "A `let` and a store end with `;`, and `//` begins a comment. A quotient by a power of two is a shift: `x >> 3`.",
        );
    }
    if place.is_on_new_line() || place.is(0, "let") {
        return Slip::gap("A `let` and a store end with `;`.");
    }
    if place.is(0, "}") {
        return Slip::gap("A `let` and a store end with `;`, and a block with a value.");
    }
    None
}

// What is said in general.
fn general_slip(place: &Place, expected: &Expected) -> Slip {
    let help = if place.text(0).is_empty() {
        end_help(expected)
    } else if expected.has(";") && !expected.has("+") {
        "A `layout` and an `exception` end with `;`."
    } else if expected.has(";") && is_beside(place) {
        "Between two values stands an operator. A call is `f[x, 1]`, and a `let` and a store end with `;`."
    } else if expected.has(";") {
        "A `let` and a store end with `;`."
    } else if place.is_among(0, &[")", "]", "}"]) && expected.has("+") {
        "Another bracket is open here, or none."
    } else if place.is(1, ",") && place.is_among(0, &[")", "]", "}"]) {
        "No `,` stands after the last part."
    } else {
        kind_help(place, expected)
    };
    Slip {
        title: None,
        help,
        mark: if expected.has(";") && place.is_on_new_line() {
            Mark::Gap
        } else {
            Mark::Found
        },
        is_general: true,
    }
}

// Whether a value stands right behind another one on a line.
fn is_beside(place: &Place) -> bool {
    let is_value = place.is_word(0) || place.is_number(0);
    is_value && (place.is_word(1) || place.is_number(1)) && !place.is_on_new_line()
}

// Where only more is missing.
fn end_help(expected: &Expected) -> &'static str {
    if expected.has("else") {
        "An `if` has two arms: `else` and what it gives are missing."
    } else {
        "The text ends too early."
    }
}

// By what may stand there.
fn kind_help(place: &Place, expected: &Expected) -> &'static str {
    if expected.has("bool") && place.is(0, "[") || place.is(2, "word") && place.is(1, "[") {
        "Several words are a type by their number, as in `word[4]`. A table stands in a memory."
    } else if expected.has("bool") && place.is(0, "&") {
        "There are no pointers: an address is a word."
    } else if expected.has("bool") {
        "Types are `word` of 32 bits, `bool`, tuples, records, `packed(l)` and `unpacked(l)`."
    } else if place.is(0, "_") {
        "`_` is a pattern, and no name of a parameter or a value."
    } else if expected.has("x") && place.is_word(0) && !expected.has("~") {
        "A keyword is no name. Choose another name."
    } else if expected.has("+") && place.is_word(0) && place.is_word(1) {
        if place.is_in_brackets() {
            "Between two values stands an operator or a comma. A call is `f[x, 1]`."
        } else {
            "Between two values stands an operator. A call is `f[x, 1]`."
        }
    } else if expected.has("+") {
        "Between two values stands an operator or a comma."
    } else {
        ""
    }
}

/// What to write in place of the first byte of `rest`, which begins no token, after the bytes of `front`.
pub fn byte_advice(front: &[u8], rest: &[u8]) -> &'static str {
    if rest.starts_with(b"/*") {
        "A comment is `// ..` up to the line's end. There is no `/* .. */`."
    } else if rest.starts_with(b"#def") && takes_arguments(rest) {
        "A macro with arguments is a function: `fun least[x: word, y: word]: word { if (x < y) x else y }`."
    } else if rest.starts_with(b"#def") {
        "A constant is a function without parameters: `fun limit[]: word { 1500 }`."
    } else if rest.starts_with(b"#i") || rest.starts_with(b"#p") {
        "A program is one text: nothing is imported, and there are no macros."
    } else if front.is_empty() && rest.starts_with(b"\xef\xbb\xbf") {
        "A byte order mark stands before the program. Save the text without it."
    } else if rest.starts_with(b"?;") || rest.starts_with(b"?.") || rest.starts_with(b"?)") {
        "An exception needs no sign: it ends what is under way, up to its handler."
    } else if rest.starts_with(b"*/") || rest.starts_with(b"* ") && front.ends_with(b"(") {
        "A comment is `// ..` up to the line's end. There is no `/* .. */`."
    } else if rest.starts_with(b"*") && !ends_with_operand(front) {
        "There are no pointers: an address is a word, and `sram[1](at)` fetches the word there."
    } else if rest.starts_with(b"/") && ends_with_address(front) {
        "A prefix is compared under its mask: `x & 0xff000000 == 0x0a000000`."
    } else if rest.starts_with(b"'") && ends_with_operand(front) {
        "A name has letters, digits and `_`."
    } else if rest.starts_with(b"\"")
        && (front.ends_with(b"import ") || front.ends_with(b"include "))
    {
        "A program is one text: nothing is imported."
    } else if rest.starts_with(b"\"")
        && (front.ends_with(b"print(") || front.ends_with(b"printf("))
    {
        "Nothing is printed: a run tells the value of `main` and what it wrote, and `nova run --trace` the values of variables."
    } else if rest.starts_with(b"\"") && front.ends_with(b"!(") {
        "There are no macros and no strings. A run ends by an exception: `raise E[]`."
    } else {
        match rest.first() {
            Some(byte) => single_byte_advice(*byte),
            None => "",
        }
    }
}

// Whether four numbers with points between them end a text.
fn ends_with_address(front: &[u8]) -> bool {
    let mut points: usize = 0;
    for byte in front.iter().rev() {
        match *byte {
            b'.' => points = points.saturating_add(1),
            b'0'..=b'9' => {}
            _ => return points == 3,
        }
    }
    false
}

// Whether a bracket follows the second word of a text at once.
fn takes_arguments(text: &[u8]) -> bool {
    let mut blanks: usize = 0;
    for byte in text {
        match *byte {
            b'(' => return blanks == 1,
            b' ' => blanks = blanks.saturating_add(1),
            b'\n' => return false,
            _ => {}
        }
    }
    false
}

// Whether the last byte that isn't blank ends a name, a number or a bracket.
fn ends_with_operand(front: &[u8]) -> bool {
    for byte in front.iter().rev() {
        if !byte.is_ascii_whitespace() {
            return byte.is_ascii_alphanumeric() || matches!(*byte, b'_' | b')' | b']');
        }
    }
    false
}

fn single_byte_advice(byte: u8) -> &'static str {
    match byte {
        b'*' | b'/' | b'%' =>
            "There is no `*`, `/` or `%`. Multiply by shifts and sums, and divide by a loop.",
        b'"' | b'\'' => "There are no strings and no characters. Write their numbers, as 0x41.",
        b'#' => "`##` joins layouts. A comment begins with `//`, and there are no attributes.",
        b'?' => "There is no `? :`. Write `if (c) 1 else 2`.",
        b'@' => "There are no annotations. A name has letters, digits and `_`.",
        b'$' => "A name has letters, digits and `_`.",
        b'\\' => "A function is no value: declare it at the top, `fun f[x: word]: word { x }`.",
        128..=255 => "Names and numbers are of ASCII. Only a comment may hold other bytes.",
        _ => "Take it out: only a comment may hold this byte.",
    }
}
