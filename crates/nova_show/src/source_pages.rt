//! Pages of docs/FAULTS.md, written by tests/pages.py.

use crate::pages::{Page, page_among};

/// The page of this name among those of the text faults, the sizes, the store, the banks and the warnings.
pub fn source_page(name: &[u8]) -> Option<&'static str> {
    source_page_0(name)
        .or(source_page_1(name))
        .or(source_page_2(name))
}

fn source_page_0(name: &[u8]) -> Option<&'static str> {
    page_among(
        &[
            Page {
                name: "syntax char",
                text: r#"syntax char

The byte begins no token. Printable bytes that begin none are `"`, `'`, `$`, `%`, `*`, `?`, `@`, `\`, the backquote, and `/` and `#` alone.
No byte above 127 begins one.

    fun main[]: word { 3 * 2 }

`syntax char at 21`. There is no `*`, `/` or `%`. Multiply by shifts and sums:

    fun main[]: word { (3 << 1) }

`ended 00000006`. A comment `/* .. */` is refused at its `/`, and a byte order mark at byte 0.
Only `// ..` is a comment, and in it any byte but LF may stand.
"#,
            },
            Page {
                name: "syntax number",
                text: r#"syntax number

The number is above 4,294,967,295.

    fun main[]: word { 4294967296 }

`syntax number at 19`. A word has 32 bits, so the largest number is

    fun main[]: word { 4294967295 }

`ended ffffffff`.
"#,
            },
            Page {
                name: "syntax name",
                text: r#"syntax name

The word has more than 64 bytes.

    fun main[]: word { aaaaaaaaaaaaaaaaaaaaaaaaaaaaaaaaaaaaaaaaaaaaaaaaaaaaaaaaaaaaaaaaa }

`syntax name at 19`. With 64 bytes it is a name:

    fun main[]: word { let aaaaaaaaaaaaaaaaaaaaaaaaaaaaaaaaaaaaaaaaaaaaaaaaaaaaaaaaaaaaaaaa = 1; 1 }

`ended 00000001`.
"#,
            },
            Page {
                name: "syntax syntax",
                text: r#"syntax syntax

With the token at this byte the text begins no program. Where only more is missing, it is the text's length.

    fun

`syntax syntax at 4`. The usual slips, each with its place:

    fun main[x: word]: word { x << x }

`syntax syntax at 31`: a shift takes a number, not a variable.

    fun f(x: word): word { x }

`syntax syntax at 5`: parameters and arguments stand in `[ ]`.

    fun main[x: word]: bool { 1 < x < 3 }

`syntax syntax at 32`: a comparison stands alone. Write `1 < x && x < 3`.

    fun main[x: word]: word { main[x]; 1 }

`syntax syntax at 33`: a call is no statement. Write `let _ = ..;`, or `let () = ..;` where it gives `()`.

    fun main[x: word]: () { sram(0) <- x; }

`syntax syntax at 38`: a block ends with a value. Write `()` behind the last statement.

    fun main[x: word]: word { if (x == 0) { 1 } else { 2 } }

`syntax syntax at 40`: the arms of an `if` have no braces. `{` begins a record.

    fun main[x: word]: word { -x }

`syntax syntax at 26`: there is no unary minus. Write `0 - x`.

    exception E;

`syntax syntax at 11`: an exception has a list of types, which may be empty, as in `E[]`.

    exception E[]; fun main[x: word]: word { 1 + raise E[] }

`syntax syntax at 45`: `if`, `raise` and `try` are no operands. Put them in a `let` or an arm.

Corrected, in one:

    exception E[];
    fun shifted[x: word]: word { if (1 < x && x < 3) x << 2 else raise E[] }
    fun stored[x: word]: () { sram(0) <- x; () }
    fun main[]: word { let () = stored[0 - 1]; shifted[2] }

`ended 00000008`.
"#,
            },
            Page {
                name: "syntax deep",
                text: r#"syntax deep

The tree of an expression, pattern, type or layout is certain to be higher than 100 at this byte. 100 brackets round a number are one too many:

    fun main[]: word { ((((((((((((((((((((((((((((((((((((((((((((((((((((((((((((((((((((((((((((((((((((((((((((((((((((1

`syntax deep at 119`. Give the inner parts names:

    fun main[]: word { let x = (((1))); (((x))) }

`ended 00000001`.
"#,
            },
            Page {
                name: "too large",
                text: r#"too large: of a source

With status 8, `too large N` says one of four things (docs/COMMANDS.md). Of a source that is read and typed, N is its expanded size, which is at most 4,096.

    fun a[x: word]: word { x } fun b[x: word]: word { a[x] + a[x] }
    fun c[x: word]: word { b[x] + b[x] } fun d[x: word]: word { c[x] + c[x] }
    fun e[x: word]: word { d[x] + d[x] } fun f[x: word]: word { e[x] + e[x] }
    fun g[x: word]: word { f[x] + f[x] } fun h[x: word]: word { g[x] + g[x] }
    fun i[x: word]: word { h[x] + h[x] } fun main[x: word]: word { i[x] + i[x] }

`too large 8180`. Each call of another group counts that group again, so make a loop of it:

    fun twice[x: word, n: word]: word { if (n == 0) x else twice[x + x, n - 1] }
    fun main[]: word { twice[1, 9] }

`ended 00000200`.
"#,
            },
            Page {
                name: "status 11",
                text: r#"status 11, store

`store LENGTH` with status 11 is said by `compile`, and by `gen` of a made source.
The code has LENGTH instructions, more than the N of `store=N`, or than 2,048.

    s: fun main[a: word, b: word]: word { a + b }
    $ compile s o r store=1
    11 store ..
    $ compile s o r
    0 compiled ..
    saved o: %any
    saved r: %any
"#,
            },
        ],
        name,
    )
}

fn source_page_1(name: &[u8]) -> Option<&'static str> {
    page_among(
        &[
            Page {
                name: "store",
                text: r#"status 11, store

`store LENGTH` with status 11 is said by `compile`, and by `gen` of a made source.
The code has LENGTH instructions, more than the N of `store=N`, or than 2,048.

    s: fun main[a: word, b: word]: word { a + b }
    $ compile s o r store=1
    11 store ..
    $ compile s o r
    0 compiled ..
    saved o: %any
    saved r: %any
"#,
            },
            Page {
                name: "status 9",
                text: r#"status 9, infeasible

`infeasible` with status 9 is said by `compile`. No choice of banks meets the rows of the bank program with so few slots: more values are live at once than
registers and slots can have. It comes only where more than 15 values are live at once, and more than there are slots. REPORT alone is saved. Its certificate
proves that no choice meets these rows, and `check` tests it.
Here forty words are live, and the two banks and the read registers have 38. Two slots don't help either, since a slot is written and read by way of a
transfer register. Give it more slots, or use the words sooner:

    s:
    | fun main[]: word {
    |   let (a0, a1, a2, a3, a4, a5, a6, a7) = sram[8](0); let (b0, b1, b2, b3, b4, b5, b6, b7) = sram[8](8);
    |   let (c0, c1, c2, c3, c4, c5, c6, c7) = sram[8](16); let (d0, d1, d2, d3, d4, d5, d6, d7) = sram[8](24);
    |   let (e0, e1, e2, e3, e4, e5, e6, e7) = sram[8](32);
    |   a0 + a1 + a2 + a3 + a4 + a5 + a6 + a7 + b0 + b1 + b2 + b3 + b4 + b5 + b6 + b7 + c0 + c1 + c2 + c3
    |   + c4 + c5 + c6 + c7 + d0 + d1 + d2 + d3 + d4 + d5 + d6 + d7 + e0 + e1 + e2 + e3 + e4 + e5 + e6 + e7
    | }
    $ compile s o r slots=0
    9 infeasible
    saved r: %any
    $ check r
    0 infeasible
    $ compile s o r
    0 compiled ..
    saved o: %any
    saved r: %any
"#,
            },
            Page {
                name: "infeasible",
                text: r#"status 9, infeasible

`infeasible` with status 9 is said by `compile`. No choice of banks meets the rows of the bank program with so few slots: more values are live at once than
registers and slots can have. It comes only where more than 15 values are live at once, and more than there are slots. REPORT alone is saved. Its certificate
proves that no choice meets these rows, and `check` tests it.
Here forty words are live, and the two banks and the read registers have 38. Two slots don't help either, since a slot is written and read by way of a
transfer register. Give it more slots, or use the words sooner:

    s:
    | fun main[]: word {
    |   let (a0, a1, a2, a3, a4, a5, a6, a7) = sram[8](0); let (b0, b1, b2, b3, b4, b5, b6, b7) = sram[8](8);
    |   let (c0, c1, c2, c3, c4, c5, c6, c7) = sram[8](16); let (d0, d1, d2, d3, d4, d5, d6, d7) = sram[8](24);
    |   let (e0, e1, e2, e3, e4, e5, e6, e7) = sram[8](32);
    |   a0 + a1 + a2 + a3 + a4 + a5 + a6 + a7 + b0 + b1 + b2 + b3 + b4 + b5 + b6 + b7 + c0 + c1 + c2 + c3
    |   + c4 + c5 + c6 + c7 + d0 + d1 + d2 + d3 + d4 + d5 + d6 + d7 + e0 + e1 + e2 + e3 + e4 + e5 + e6 + e7
    | }
    $ compile s o r slots=0
    9 infeasible
    saved r: %any
    $ check r
    0 infeasible
    $ compile s o r
    0 compiled ..
    saved o: %any
    saved r: %any
"#,
            },
            Page {
                name: "status 10",
                text: r#"status 10, budget

`budget N` with status 10 is said by `compile`. All N branches of the search were used before a choice of banks was found. One may be possible or not.
It comes only where more than 15 values are live at once, and more than there are slots. REPORT alone is saved, and `check` says `spent` of it.
The source above may end so with `slots=0 budget=1`, or with 9 where the search needs no second branch. Give it slots, or a greater budget.
"#,
            },
            Page {
                name: "budget",
                text: r#"status 10, budget

`budget N` with status 10 is said by `compile`. All N branches of the search were used before a choice of banks was found. One may be possible or not.
It comes only where more than 15 values are live at once, and more than there are slots. REPORT alone is saved, and `check` says `spent` of it.
The source above may end so with `slots=0 budget=1`, or with 9 where the search needs no second branch. Give it slots, or a greater budget.
"#,
            },
            Page {
                name: "warnings",
                text: r#"warnings, unused, wide, read, condition, endless, address, size

Of a source without a fault `nova check SRC` and `nova build SRC` print warnings. A warning refuses nothing, unless `--deny-warnings` is given.
`--allow unused,size` leaves out those of these names.

| Name | Warning about | When |
|---|---|---|
| `unused` | a variable or a parameter | it is never used. A name that begins with `_` gives no warning. |
| `unused` | a function | `main` reaches it by no call |
| `unused` | an exception | no `raise` names it |
| `unused` | a layout | no type, `unpack`, `pack` or other layout names it |
| `wide` | a number that is packed | it needs more bits than its field has, so the field takes its lowest bits |
| `read` | a fetch that a `let` binds | none of its words is used |
| `condition` | the condition of an `if` | it is `true`, `false`, a comparison of a variable with itself, or of values with a number that they can't reach, such as `x >= 0`, `x & 3 == 4` or a field of 4 bits with 16, or made of such parts |
| `endless` | a call of a function by itself | its arguments are the function's own, and the function neither accesses a memory nor calls another one |
| `address` | an access | its address is a number behind the end of the largest memory |
| `size` | the size | the expanded size is above 3,072, which is three quarters of the limit; the call in `main` is shown whose function makes most of it |
"#,
            },
            Page {
                name: "unused",
                text: r#"warnings, unused, wide, read, condition, endless, address, size

Of a source without a fault `nova check SRC` and `nova build SRC` print warnings. A warning refuses nothing, unless `--deny-warnings` is given.
`--allow unused,size` leaves out those of these names.

| Name | Warning about | When |
|---|---|---|
| `unused` | a variable or a parameter | it is never used. A name that begins with `_` gives no warning. |
| `unused` | a function | `main` reaches it by no call |
| `unused` | an exception | no `raise` names it |
| `unused` | a layout | no type, `unpack`, `pack` or other layout names it |
| `wide` | a number that is packed | it needs more bits than its field has, so the field takes its lowest bits |
| `read` | a fetch that a `let` binds | none of its words is used |
| `condition` | the condition of an `if` | it is `true`, `false`, a comparison of a variable with itself, or of values with a number that they can't reach, such as `x >= 0`, `x & 3 == 4` or a field of 4 bits with 16, or made of such parts |
| `endless` | a call of a function by itself | its arguments are the function's own, and the function neither accesses a memory nor calls another one |
| `address` | an access | its address is a number behind the end of the largest memory |
| `size` | the size | the expanded size is above 3,072, which is three quarters of the limit; the call in `main` is shown whose function makes most of it |
"#,
            },
        ],
        name,
    )
}

fn source_page_2(name: &[u8]) -> Option<&'static str> {
    page_among(
        &[
            Page {
                name: "wide",
                text: r#"warnings, unused, wide, read, condition, endless, address, size

Of a source without a fault `nova check SRC` and `nova build SRC` print warnings. A warning refuses nothing, unless `--deny-warnings` is given.
`--allow unused,size` leaves out those of these names.

| Name | Warning about | When |
|---|---|---|
| `unused` | a variable or a parameter | it is never used. A name that begins with `_` gives no warning. |
| `unused` | a function | `main` reaches it by no call |
| `unused` | an exception | no `raise` names it |
| `unused` | a layout | no type, `unpack`, `pack` or other layout names it |
| `wide` | a number that is packed | it needs more bits than its field has, so the field takes its lowest bits |
| `read` | a fetch that a `let` binds | none of its words is used |
| `condition` | the condition of an `if` | it is `true`, `false`, a comparison of a variable with itself, or of values with a number that they can't reach, such as `x >= 0`, `x & 3 == 4` or a field of 4 bits with 16, or made of such parts |
| `endless` | a call of a function by itself | its arguments are the function's own, and the function neither accesses a memory nor calls another one |
| `address` | an access | its address is a number behind the end of the largest memory |
| `size` | the size | the expanded size is above 3,072, which is three quarters of the limit; the call in `main` is shown whose function makes most of it |
"#,
            },
            Page {
                name: "read",
                text: r#"warnings, unused, wide, read, condition, endless, address, size

Of a source without a fault `nova check SRC` and `nova build SRC` print warnings. A warning refuses nothing, unless `--deny-warnings` is given.
`--allow unused,size` leaves out those of these names.

| Name | Warning about | When |
|---|---|---|
| `unused` | a variable or a parameter | it is never used. A name that begins with `_` gives no warning. |
| `unused` | a function | `main` reaches it by no call |
| `unused` | an exception | no `raise` names it |
| `unused` | a layout | no type, `unpack`, `pack` or other layout names it |
| `wide` | a number that is packed | it needs more bits than its field has, so the field takes its lowest bits |
| `read` | a fetch that a `let` binds | none of its words is used |
| `condition` | the condition of an `if` | it is `true`, `false`, a comparison of a variable with itself, or of values with a number that they can't reach, such as `x >= 0`, `x & 3 == 4` or a field of 4 bits with 16, or made of such parts |
| `endless` | a call of a function by itself | its arguments are the function's own, and the function neither accesses a memory nor calls another one |
| `address` | an access | its address is a number behind the end of the largest memory |
| `size` | the size | the expanded size is above 3,072, which is three quarters of the limit; the call in `main` is shown whose function makes most of it |
"#,
            },
            Page {
                name: "condition",
                text: r#"warnings, unused, wide, read, condition, endless, address, size

Of a source without a fault `nova check SRC` and `nova build SRC` print warnings. A warning refuses nothing, unless `--deny-warnings` is given.
`--allow unused,size` leaves out those of these names.

| Name | Warning about | When |
|---|---|---|
| `unused` | a variable or a parameter | it is never used. A name that begins with `_` gives no warning. |
| `unused` | a function | `main` reaches it by no call |
| `unused` | an exception | no `raise` names it |
| `unused` | a layout | no type, `unpack`, `pack` or other layout names it |
| `wide` | a number that is packed | it needs more bits than its field has, so the field takes its lowest bits |
| `read` | a fetch that a `let` binds | none of its words is used |
| `condition` | the condition of an `if` | it is `true`, `false`, a comparison of a variable with itself, or of values with a number that they can't reach, such as `x >= 0`, `x & 3 == 4` or a field of 4 bits with 16, or made of such parts |
| `endless` | a call of a function by itself | its arguments are the function's own, and the function neither accesses a memory nor calls another one |
| `address` | an access | its address is a number behind the end of the largest memory |
| `size` | the size | the expanded size is above 3,072, which is three quarters of the limit; the call in `main` is shown whose function makes most of it |
"#,
            },
            Page {
                name: "endless",
                text: r#"warnings, unused, wide, read, condition, endless, address, size

Of a source without a fault `nova check SRC` and `nova build SRC` print warnings. A warning refuses nothing, unless `--deny-warnings` is given.
`--allow unused,size` leaves out those of these names.

| Name | Warning about | When |
|---|---|---|
| `unused` | a variable or a parameter | it is never used. A name that begins with `_` gives no warning. |
| `unused` | a function | `main` reaches it by no call |
| `unused` | an exception | no `raise` names it |
| `unused` | a layout | no type, `unpack`, `pack` or other layout names it |
| `wide` | a number that is packed | it needs more bits than its field has, so the field takes its lowest bits |
| `read` | a fetch that a `let` binds | none of its words is used |
| `condition` | the condition of an `if` | it is `true`, `false`, a comparison of a variable with itself, or of values with a number that they can't reach, such as `x >= 0`, `x & 3 == 4` or a field of 4 bits with 16, or made of such parts |
| `endless` | a call of a function by itself | its arguments are the function's own, and the function neither accesses a memory nor calls another one |
| `address` | an access | its address is a number behind the end of the largest memory |
| `size` | the size | the expanded size is above 3,072, which is three quarters of the limit; the call in `main` is shown whose function makes most of it |
"#,
            },
            Page {
                name: "address",
                text: r#"warnings, unused, wide, read, condition, endless, address, size

Of a source without a fault `nova check SRC` and `nova build SRC` print warnings. A warning refuses nothing, unless `--deny-warnings` is given.
`--allow unused,size` leaves out those of these names.

| Name | Warning about | When |
|---|---|---|
| `unused` | a variable or a parameter | it is never used. A name that begins with `_` gives no warning. |
| `unused` | a function | `main` reaches it by no call |
| `unused` | an exception | no `raise` names it |
| `unused` | a layout | no type, `unpack`, `pack` or other layout names it |
| `wide` | a number that is packed | it needs more bits than its field has, so the field takes its lowest bits |
| `read` | a fetch that a `let` binds | none of its words is used |
| `condition` | the condition of an `if` | it is `true`, `false`, a comparison of a variable with itself, or of values with a number that they can't reach, such as `x >= 0`, `x & 3 == 4` or a field of 4 bits with 16, or made of such parts |
| `endless` | a call of a function by itself | its arguments are the function's own, and the function neither accesses a memory nor calls another one |
| `address` | an access | its address is a number behind the end of the largest memory |
| `size` | the size | the expanded size is above 3,072, which is three quarters of the limit; the call in `main` is shown whose function makes most of it |
"#,
            },
            Page {
                name: "size",
                text: r#"warnings, unused, wide, read, condition, endless, address, size

Of a source without a fault `nova check SRC` and `nova build SRC` print warnings. A warning refuses nothing, unless `--deny-warnings` is given.
`--allow unused,size` leaves out those of these names.

| Name | Warning about | When |
|---|---|---|
| `unused` | a variable or a parameter | it is never used. A name that begins with `_` gives no warning. |
| `unused` | a function | `main` reaches it by no call |
| `unused` | an exception | no `raise` names it |
| `unused` | a layout | no type, `unpack`, `pack` or other layout names it |
| `wide` | a number that is packed | it needs more bits than its field has, so the field takes its lowest bits |
| `read` | a fetch that a `let` binds | none of its words is used |
| `condition` | the condition of an `if` | it is `true`, `false`, a comparison of a variable with itself, or of values with a number that they can't reach, such as `x >= 0`, `x & 3 == 4` or a field of 4 bits with 16, or made of such parts |
| `endless` | a call of a function by itself | its arguments are the function's own, and the function neither accesses a memory nor calls another one |
| `address` | an access | its address is a number behind the end of the largest memory |
| `size` | the size | the expanded size is above 3,072, which is three quarters of the limit; the call in `main` is shown whose function makes most of it |
"#,
            },
        ],
        name,
    )
}
