//! Pages of docs/FAULTS.md, written by tests/pages.py.

use crate::pages::{Page, page_among};

/// The page of this name among those of the other statuses.
pub fn status_page(name: &[u8]) -> Option<&'static str> {
    status_page_0(name)
        .or(status_page_1(name))
        .or(status_page_2(name))
}

fn status_page_0(name: &[u8]) -> Option<&'static str> {
    page_among(
        &[
            Page {
                name: "status 0",
                text: r#"status 0: done

Of `run` the code ended, of `exec` and `counts` the program, of `contexts` all contexts, and of every other command what it is for is done. `trace` ends with 0 however the two runs end.
"#,
            },
            Page {
                name: "status 2",
                text: r#"status 2: usage

`usage`: the words are no command. A number may be out of its range, an option out of its order, a file's name empty, or two names the same.
"#,
            },
            Page {
                name: "status 3",
                text: r#"status 3: cannot read

`cannot read NAME`: an input isn't there, or can't be read.
The words are looked at first, then all files are loaded in the order of the words, then what they hold.
So an absent memory text beside a faulty source is status 3.
"#,
            },
            Page {
                name: "status 4",
                text: r#"status 4: cannot write

`cannot write NAME`: an output can't be written. `compile` saves the object before the report, so where the report fails the object is there.
Without a line the output itself failed. Then what was saved stays.
"#,
            },
            Page {
                name: "status 5",
                text: r#"status 5: out of memory

Nothing is printed, and no file was changed. A source with hundreds of values live at hundreds of points may take two gigabytes and a
minute. To have fewer live at a time, read them later or store them earlier.
"#,
            },
            Page {
                name: "status 6",
                text: r#"status 6: a text

`syntax WORD at BYTE` is said of a source (`syntax char`, `syntax number`, `syntax name`, `syntax syntax`, `syntax deep`).
`syntax text line N` and `syntax label line N` are said of an assembly text. `nova asm` says what is wrong with the line.
"#,
            },
        ],
        name,
    )
}

fn status_page_1(name: &[u8]) -> Option<&'static str> {
    page_among(
        &[
            Page {
                name: "status 7",
                text: r#"status 7: a fault of the types

`type KIND at FIRST AFTER` is said of a source, with KIND from 1 to 24: see `type 1` to `type 24`.
"#,
            },
            Page {
                name: "status 8",
                text: r#"status 8: a size

`too large N` says one of four things: a file has more bytes than its limit N, a source has an expanded size N of more than 4,096,
the 0-1 program of its banks has N columns, or else rows, more than 67,108,864,
or a memory text asks for a memory of size N, more than 65,536.
"#,
            },
            Page {
                name: "status 12",
                text: r#"status 12: no object

`object BYTE`: the bytes are no object, of version 1 or 2, from this one on.
"#,
            },
            Page {
                name: "status 13",
                text: r#"status 13: no memory text

`memory line N`: this line isn't of its form. `nova run` says what is wrong with it. docs/MEMORY.md has the form, and a readable one.
"#,
            },
            Page {
                name: "status 14",
                text: r#"status 14: an exception

The outcome begins with `raised K` and the exception's words: no handler took it. Exceptions are numbered from 1 in the order of the declarations.
`run` of an object that `compile` saved names it in a second line, `exception NAME line L`, with the line of its declaration.
"#,
            },
            Page {
                name: "status 15",
                text: r#"status 15: an address fault

The outcome begins with `fault MEMORY ADDRESS`: an access reached past this memory, from this first address on.
The memory's size stands in the first line of the memory text.
"#,
            },
        ],
        name,
    )
}

fn status_page_2(name: &[u8]) -> Option<&'static str> {
    page_among(
        &[
            Page {
                name: "status 16",
                text: r#"status 16: going

The outcome begins with `going`: all steps, calls or jumps were taken. Give more by `steps=N`, or see whether the loop ends.
With this status, as with 0, 14 and 15, `counts` saves its file.
"#,
            },
            Page {
                name: "status 17",
                text: r#"status 17: no true report

`report line N` or `report refused`: the report isn't of its form, or doesn't hold.
"#,
            },
            Page {
                name: "status 18",
                text: r#"status 18: code that breaks a rule

`unlawful place P rule R` or `unlawful line N rule R`: docs/MACHINE.md has the rules by their numbers.
"#,
            },
            Page {
                name: "status 21",
                text: r#"status 21: no text of weights

`weights line N`: this line of the file that `weights=FILE` names isn't of its form.
"#,
            },
            Page {
                name: "status 22",
                text: r#"status 22: no schedule

`schedule line N`: this line isn't of its form, or with it the turns are more than 100,000,000.
"#,
            },
            Page {
                name: "status 23",
                text: r#"status 23: code of another source

`trace params P Q`: the object's code has P parameters, and main of the source takes Q words. `trace write I`: write I, counted from 0, is the first that differs.
The first 1,024 writes of code and source are compared, as far as both go. Compile the source again: the object is of another one, or of an earlier state of it.

    s: fun main[x: word]: word { sram(x) <- 7; x }
    other: fun main[x: word]: word { sram(x) <- 8; x }
    none: fun main[]: word { 7 }
    m:
    | memory 4 0
    | args 00000003
    $ compile other o r
    0 compiled ..
    saved o: %any
    saved r: %any
    $ trace s o m steps=1000 calls=10
    23 trace write 0
    $ trace other o m steps=1000 calls=10
    0
    | write sram 3 00000008 line 1 in main
    | traced 1
    $ compile none o2 r2
    0 compiled ..
    saved o2: %any
    saved r2: %any
    $ trace s o2 m steps=1000 calls=10
    23 trace params 0 1

Source, object and memory text are looked at before, in this order. With the object that `compile` saved of the same source this status doesn't come.
"#,
            },
        ],
        name,
    )
}
