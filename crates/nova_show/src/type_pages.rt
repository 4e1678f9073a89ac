//! Pages of docs/FAULTS.md, written by tests/pages.py.

use crate::pages::{Page, page_among};

/// The page of this name among those of the kinds of type faults.
pub fn type_page(name: &[u8]) -> Option<&'static str> {
    type_page_0(name)
        .or(type_page_1(name))
        .or(type_page_2(name))
}

fn type_page_0(name: &[u8]) -> Option<&'static str> {
    page_among(
        &[
            Page {
                name: "type 1",
                text: r#"type 1: no main

No function is called `main`. It is answered at the text's end, behind all other faults. The shortest source that has it is the empty text:

`type 1 at 0 0`. The shortest program:

    fun main[]:(){()}

`ended`.
"#,
            },
            Page {
                name: "type 2",
                text: r#"type 2: a name twice

Something of that kind is declared before under this name. Layouts, exceptions and functions have separate name spaces.

    exception E[]; exception E[];

`type 2 at 15 29`.

    exception E[]; exception F[]; layout E = { a: 1 }; fun E[]: word { 1 } fun main[]: word { E[] }

`ended 00000001`. The second declaration's name comes before what it holds: `layout p = q;` behind another `p` is 2, and 3 where `p` is new.
"#,
            },
            Page {
                name: "type 3",
                text: r#"type 3: an unknown layout

It isn't declared above this place. A type that names it is kind 8.

    layout p = q;

`type 3 at 0 13`.

    layout q = { a: 8 }; layout p = q; fun main[]: word { unpack[p](0x41000000).a }

`ended 00000041`. The operand comes first: in `unpack[q](x)` with an unknown `x` it is 10.
"#,
            },
            Page {
                name: "type 4",
                text: r#"type 4: a field of a wrong size

A field has other than 1 to 32 bits, or a gap other than 1 to 1,024.

    layout p = {a: 33};

`type 4 at 0 19`. A longer field is two, so a MAC address of 48 bits is

    layout mac = { high: 32, low: 16 };
    fun main[]: (word, word) { let m = unpack[mac]((0x02005e10, 0x00010000)); (m.high, m.low) }

`ended 02005e10 00000001`. Parts come before the whole, so `{a: 33, a: 1}` is 4 and not 5.
"#,
            },
            Page {
                name: "type 5",
                text: r#"type 5: a field twice in a layout

Two fields of one record, two alternatives of one overlay, or two fields of joined layouts have one name.

    layout p = {a: 1, a: 1};

`type 5 at 0 24`.

    layout p = {a: 4, b: 4}; fun main[]: word { unpack[p](0x12000000).b }

`ended 00000002`.
"#,
            },
            Page {
                name: "type 6",
                text: r#"type 6: alternatives of different sizes

The alternatives of an overlay are views of the same bits, so they are equally long.

    layout p = {v: overlay {a: 1 | b: 2}};

`type 6 at 0 38`. A gap makes up for the rest:

    layout p = {v: overlay {a: {one: 1} ## {1} | b: 2}}; fun main[]: word { unpack[p](0x80000000).v.a.one }

`ended 00000001`.
"#,
            },
            Page {
                name: "type 7",
                text: r#"type 7: a layout without a field, or too large

A declared layout, or one inside a field, has no field, more than 1,024 bits, or, names written out, a tree higher than 100.

    layout p = {8};

`type 7 at 0 15`.

    layout p = {8} ## {a: 8}; fun main[]: word { unpack[p](0x00420000).a }

`ended 00000042`.
"#,
            },
            Page {
                name: "type 8",
                text: r#"type 8: a wrong type

A type names an unknown layout, is `word[n]` with n other than 1 to 1,024, or is a record type with a name twice.

    exception E[word[0]];

`type 8 at 0 21`.

    exception E[word[1]]; fun main[]: word { raise E[7] }

`raised 1 00000007`. At one type 8 comes before 24.
Of a function the types come before the names: `f[a: word[0], a: word]` is 8 and not 9.
"#,
            },
        ],
        name,
    )
}

fn type_page_1(name: &[u8]) -> Option<&'static str> {
    page_among(
        &[
            Page {
                name: "type 9",
                text: r#"type 9: a variable twice in one list

One list of parameters, one pattern or one handler's list of patterns has a name twice. `_` may stand any number of times.

    fun main[a: word, a: word]: word { a }

`type 9 at 4 38`.

    fun f[a: word, _: word]: word { a } fun main[]: word { f[1, 2] }

`syntax syntax at 15`: a parameter is a name, so `_` is for patterns alone.

    fun main[]: word { let (a, _, _) = (1, 2, 3); a }

`ended 00000001`. In a `let` 9 comes before 16, and in a `try` before 13, 16 and 17.
"#,
            },
            Page {
                name: "type 10",
                text: r#"type 10: an unknown variable

No parameter or pattern of this name is in scope.

    fun main[]: word { x }

`type 10 at 19 20`.

    fun main[]: word { let x = 1; x }

`ended 00000001`. It comes before every fault of what it is a part of: `f[x]` with nothing declared is 10 and not 11.
"#,
            },
            Page {
                name: "type 11",
                text: r#"type 11: an unknown function

No function of this name is in an earlier group or the own one.

    fun main[]: word { f[] }

`type 11 at 19 22`. A function has to stand above its use, or in one group with it:

    fun main[]: word { f[] } and f[]: word { 1 }

`ended 00000001`.
"#,
            },
            Page {
                name: "type 12",
                text: r#"type 12: a call of the own group that isn't last

A function calls one of its own group, maybe itself, and still has something to do afterwards. Such a call would want a stack, which the machine hasn't.

    fun main[]: word { ~main[] }

`type 12 at 20 26`. Carry the unfinished part along in a parameter:

    fun sum[n: word, so_far: word]: word { if (n == 0) so_far else sum[n - 1, so_far + n] }
    fun main[]: word { sum[4, 0] }

`ended 0000000a`. The body of a `try` isn't last, since its handler is still there; the handler's own body is.
12 comes before 13: `~f[1, 2]` of an `f` with one parameter is 12. Its arguments come first: `~f[true]` of an `f` of a word is 14.
"#,
            },
            Page {
                name: "type 13",
                text: r#"type 13: another number of arguments

A call, a `raise` or a handler has more or fewer than are declared.

    fun main[]: word { main[1] }

`type 13 at 19 26`.

    fun main[]: word { if (true) 1 else main[] }

`ended 00000001`. Each argument wants a value then, and no type.
So `main[true]` of a `main` without parameters is 13 too.
"#,
            },
            Page {
                name: "type 14",
                text: r#"type 14: another type than is wanted

docs/LANGUAGE.md lists what each place wants.

    fun main[]: word { true }

`type 14 at 19 23`. Slips that end here:

    fun main[]: bool { true == true }

`type 14 at 19 23`: only words are compared. Write `a && b || !a && !b`.

    fun main[x: word]: word { if (x) 1 else 2 }

`type 14 at 30 31`: a condition is a bool. Write `x != 0`.

    layout p = { a: 8, b: 8 }; fun main[]: word { pack[p]({ b = 1, a = 2 }) }

`type 14 at 54 70`: a record is packed with its fields in the layout's order.

    layout p = { a: 32, b: 8 }; fun main[]: word { unpack[p](1).a }

`type 14 at 57 58`: 40 bits are two words, so the operand is a tuple.

Corrected, in one:

    layout p = { a: 32, b: 8 };
    fun main[]: (word, word) { let x = 1; if (x != 0) pack[p]({ a = unpack[p]((1, 0)).a, b = 2 }) else (0, 0) }

`ended 00000001 02000000`. An expression of a wrong size keeps its type, and the least kind at one place is answered. So this is 14 and not 19:

    fun main[]: word { sram[9](0) }

`type 14 at 19 29`: nine words are no word. Where nine words are as good as one, it is 19:

    fun main[]: word { let _ = sram[9](0); 1 }

`type 19 at 27 37`.
"#,
            },
            Page {
                name: "type 15",
                text: r#"type 15: no such field

The part before the dot is no record, or has no field of this name.

    fun main[]: word { 1.a }

`type 15 at 19 22`.

    fun main[]: word { { a = 1 }.a }

`ended 00000001`.
"#,
            },
            Page {
                name: "type 16",
                text: r#"type 16: a pattern that doesn't fit

A pattern in round brackets wants a tuple of as many parts. A name and `_` fit everything.

    fun main[]: word { let () = 1; 1 }

`type 16 at 19 30`.

    fun main[]: word { let _ = 1; let () = (); let (a, b) = (1, 2); b }

`ended 00000002`. The value comes before the pattern: `let (a, b) = x;` with an unknown `x` is 10.
"#,
            },
        ],
        name,
    )
}

fn type_page_2(name: &[u8]) -> Option<&'static str> {
    page_among(
        &[
            Page {
                name: "type 17",
                text: r#"type 17: an unknown exception

No exception of this name is declared above.

    fun main[]: word { raise E[] }

`type 17 at 19 28`.

    exception E[]; fun main[]: word { raise E[] }

`raised 1`. Arguments, and the body of a `try`, come before it; the handler's body comes behind it.
"#,
            },
            Page {
                name: "type 18",
                text: r#"type 18: a field twice in a record

    fun main[]: word { {a = 1, a = 2}.a }

`type 18 at 19 33`.

    fun main[]: word { {a = 1, b = 2}.a }

`ended 00000001`. The record is a part of the dot expression, so 18 comes before 15.
"#,
            },
            Page {
                name: "type 19",
                text: r#"type 19: a number of words that no access has

A fetch or store moves 1 to 8 words, in SDRAM 2, 4, 6 or 8.

    fun main[]: () { sram[0](0) }

`type 19 at 17 27`. A store's number is that of its value:

    fun main[]: word { sdram(0) <- 1; 1 }

`type 19 at 19 33`: SDRAM moves pairs of words.

    fun main[]: word { sdram(0) <- (1, 2); let (_, b) = sdram[2](0); b }

`ended 00000002`. Address and value come first, and 14 of the same place comes before it (above).
"#,
            },
            Page {
                name: "type 20",
                text: r#"type 20: a scratch address

A scratch address isn't a plain number, or the words from there on reach past word 511.

    fun main[]: word { scratch[1](512) }

`type 20 at 19 34`.

    fun main[]: word { scratch[1](511) }

`ended 00000000`. A number in brackets is no plain number. 19 comes before it: `let _ = scratch[9](512);` is 19.
"#,
            },
            Page {
                name: "type 21",
                text: r#"type 21: a shift by more than 31

    fun main[]: word { 1 << 32 }

`type 21 at 19 26`.

    fun main[]: word { 1 << 31 }

`ended 80000000`. The operand's type comes first: `true << 32` is 14.
"#,
            },
            Page {
                name: "type 22",
                text: r#"type 22: no value where one is wanted

A `raise`, or an expression that always ends with one, stands where a value is used.

    exception E[]; fun main[]: word { (raise E[]) }

`type 22 at 35 44`. Bodies, arms, ends of blocks and both parts of a `try` may be without a value:

    exception E[]; fun main[]: word { if (true) 1 else raise E[] }

`ended 00000001`.
"#,
            },
            Page {
                name: "type 23",
                text: r#"type 23: too many words for the outside

The parameters of `main` have more than 8 words or a bool, or its result or an exception has more than 8 words.

    exception E[word[9]];

`type 23 at 0 21`.

    exception E[word[8]]; fun main[]: word { raise E[(1, 2, 3, 4, 5, 6, 7, 8)] }

`raised 1 00000001 00000002 00000003 00000004 00000005 00000006 00000007 00000008`. 9 comes before it at one function.
The bodies of the group come behind it.
"#,
            },
            Page {
                name: "type 24",
                text: r#"type 24: a type that is too large

A type has more than 1,024 words, or is a tree higher than 100.

    exception E[(word[1024], word)];

`type 24 at 0 32`.

    fun f[a: word[1023], b: word]: word { let t = (a, b); let (_, c) = t; c }
    fun main[]: word { 1 }

`ended 00000001`. At one type 8 comes before it. An exception's types come before the exception, so the first source is 24 and not 23.
A list of parameters is no type, so each of them may have 1,024 words.
"#,
            },
        ],
        name,
    )
}
