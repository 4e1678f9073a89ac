//! Pages of docs/FAULTS.md, written by tests/pages.py.

use crate::pages::{Page, page_among};

/// The page of this name among those of the texts that aren't sources.
pub fn input_page(name: &[u8]) -> Option<&'static str> {
    input_page_0(name).or(input_page_1(name))
}

fn input_page_0(name: &[u8]) -> Option<&'static str> {
    page_among(
        &[
            Page {
                name: "syntax text",
                text: r#"syntax text, syntax label, unlawful

Of `asm`: the first line that isn't of the form; else a label that is missing or stands twice; else a line whose instruction breaks a rule of docs/MACHINE.md.

    text:
    | params 0
    | immed A0 07 0
    | halt 0 1
    label:
    | params 0
    | br Z far
    | halt 0 0
    rule:
    | params 2
    | alu A0 ADD A0 A1
    | halt 0 1
    corrected:
    | params 2
    | un B0 COPY A1
    | alu A0 ADD A0 B0
    | br Z end
    | end:
    | halt 0 1
    $ asm text o
    6 syntax text line 2
    $ asm label o
    6 syntax label line 2
    $ asm rule o
    18 unlawful line 2 rule 1
    $ asm corrected o
    0 assembled 4
    saved o: %any
    $ lint o
    0 lawful 4
"#,
            },
            Page {
                name: "syntax label",
                text: r#"syntax text, syntax label, unlawful

Of `asm`: the first line that isn't of the form; else a label that is missing or stands twice; else a line whose instruction breaks a rule of docs/MACHINE.md.

    text:
    | params 0
    | immed A0 07 0
    | halt 0 1
    label:
    | params 0
    | br Z far
    | halt 0 0
    rule:
    | params 2
    | alu A0 ADD A0 A1
    | halt 0 1
    corrected:
    | params 2
    | un B0 COPY A1
    | alu A0 ADD A0 B0
    | br Z end
    | end:
    | halt 0 1
    $ asm text o
    6 syntax text line 2
    $ asm label o
    6 syntax label line 2
    $ asm rule o
    18 unlawful line 2 rule 1
    $ asm corrected o
    0 assembled 4
    saved o: %any
    $ lint o
    0 lawful 4
"#,
            },
            Page {
                name: "unlawful",
                text: r#"syntax text, syntax label, unlawful

Of `asm`: the first line that isn't of the form; else a label that is missing or stands twice; else a line whose instruction breaks a rule of docs/MACHINE.md.

    text:
    | params 0
    | immed A0 07 0
    | halt 0 1
    label:
    | params 0
    | br Z far
    | halt 0 0
    rule:
    | params 2
    | alu A0 ADD A0 A1
    | halt 0 1
    corrected:
    | params 2
    | un B0 COPY A1
    | alu A0 ADD A0 B0
    | br Z end
    | end:
    | halt 0 1
    $ asm text o
    6 syntax text line 2
    $ asm label o
    6 syntax label line 2
    $ asm rule o
    18 unlawful line 2 rule 1
    $ asm corrected o
    0 assembled 4
    saved o: %any
    $ lint o
    0 lawful 4
"#,
            },
            Page {
                name: "object",
                text: r#"object

The bytes are no object: the first byte that no object of either version has there, or the file's length where it only ends too early.
Version 2 tells the names of exceptions and where labels start. `lint` and `run` then answer 18 with a place where the code breaks a rule; `dis` lists such code.

    short: %hex 4e564f310000000001000000060000000000
    kind: %hex 4e564f310000000001000000ff00000000000000
    corrected: %hex 4e564f3100000000010000000600000000000000
    start: %hex 4e564f320000000001000000 0000000001000000 0600000000000000 01000000
    named: %hex 4e564f320000000001000000 0100000000000000 0600010000000000 03000000 03 4c6f77
    unlawful: %hex 4e564f31020000000200000000000000010000000601000000000000
    $ lint short
    12 object 18
    $ lint kind
    12 object 12
    $ lint corrected
    0 lawful 1
    $ lint start
    12 object 28
    $ lint named
    0 lawful 1
    $ lint unlawful
    18 unlawful place 0 rule 1
    $ dis unlawful
    0
    | params 2
    | alu A0 ADD A0 A1
    | halt 0 1
"#,
            },
            Page {
                name: "memory line",
                text: r#"memory line

The first line of a memory text that isn't of its form. The form is in docs/MACHINE.md.

    s: fun main[a: word]: word { a }
    few:
    | memory 0 0
    | args
    short:
    | memory 0 0
    | args 7
    past:
    | memory 4 0
    | args 00000007
    | sram 3 00000001 00000002
    scratch:
    | memory 0 0
    | args 00000007
    | scratch 512 00000001
    corrected:
    | memory 4 0
    | args 00000007
    | sram 2 00000001 00000002
    $ exec s few steps=1
    13 memory line 2
    $ exec s short steps=1
    13 memory line 2
    $ exec s past steps=1
    13 memory line 3
    $ exec s scratch steps=1
    13 memory line 3
    $ exec s corrected steps=1
    0
    | ended 00000007
    | ..

A size above 65,536 in the first line is `too large N` with status 8, whatever follows.
"#,
            },
        ],
        name,
    )
}

fn input_page_1(name: &[u8]) -> Option<&'static str> {
    page_among(
        &[
            Page {
                name: "schedule line",
                text: r#"schedule line

A schedule isn't of its form at a line: docs/MACHINE.md has it. A line that is missing is faulty at its own number.

    t:
    | params 1
    | halt 0 1
    m:
    | memory 0 0
    | args 00000007
    five:
    | contexts 5
    few:
    | contexts 2
    | run 0 1
    third:
    | contexts 2
    | args 00000008
    | run 2 1
    many:
    | contexts 2
    | args 00000008
    | run 1 100000000
    | run 0 1
    corrected:
    | contexts 2
    | args 00000008
    | run 1 1
    | run 0 1
    $ asm t o
    0 assembled 1
    saved o: %any
    $ contexts o m five
    22 schedule line 1
    $ contexts o m few
    22 schedule line 2
    $ contexts o m third
    22 schedule line 3
    $ contexts o m many
    22 schedule line 4
    $ contexts o m corrected
    0
    | context 0
    | ended 00000007
    | ..

The object and the memory text are looked at before the schedule.
"#,
            },
            Page {
                name: "weights line",
                text: r#"weights line

A text of weights isn't of its form at a line: docs/WEIGHTS.md has it. A line that is missing is faulty at its own number.

    s: fun main[a: word, b: word]: word { a + b }
    faulty: fun main[]: word { 1 + }
    first:
    | weight 1
    zero:
    | weights 1
    | l 05
    few:
    | weights 2
    | l 5
    more:
    | weights 1
    | l 5
    | l 5
    corrected:
    | weights 1
    | l 5
    $ compile s o r weights=zero
    21 weights line 2
    $ compile s o r weights=few
    21 weights line 3
    $ compile s o r weights=more
    21 weights line 3
    $ compile s o r weights=first
    21 weights line 1
    $ compile faulty o r weights=first
    6 syntax syntax at 23
    $ compile s o r weights=corrected
    0 compiled ..
    saved o: %any
    saved r: %any

The source's text, types and expanded size are looked at before the weights, and the 0-1 program after them.
"#,
            },
            Page {
                name: "report line",
                text: r#"report line, report refused

A report isn't of its form at a line, or is and doesn't hold. The form is in docs/CERTIFICATES.md.
In the refused one below, the node leaves out a row, so its bound falls short.

    cut:
    | novareport 1
    refused:
    | novareport 1
    | slots 0
    | budget 1
    | columns 3
    | rows 3
    | c 1
    | c 1
    | c 1
    | r 1 0:1 1:1
    | r 1 1:1 2:1
    | r 1 0:1 2:1
    | verdict optimal 2
    | x 0 1
    | tree 1
    | d 2 0:1 1:1
    corrected:
    | novareport 1
    | slots 0
    | budget 1
    | columns 3
    | rows 3
    | c 1
    | c 1
    | c 1
    | r 1 0:1 1:1
    | r 1 1:1 2:1
    | r 1 0:1 2:1
    | verdict optimal 2
    | x 0 1
    | tree 1
    | d 2 0:1 1:1 2:1
    $ check cut
    17 report line 2
    $ check refused
    17 report refused
    $ check corrected
    0 optimal 2
"#,
            },
            Page {
                name: "report refused",
                text: r#"report line, report refused

A report isn't of its form at a line, or is and doesn't hold. The form is in docs/CERTIFICATES.md.
In the refused one below, the node leaves out a row, so its bound falls short.

    cut:
    | novareport 1
    refused:
    | novareport 1
    | slots 0
    | budget 1
    | columns 3
    | rows 3
    | c 1
    | c 1
    | c 1
    | r 1 0:1 1:1
    | r 1 1:1 2:1
    | r 1 0:1 2:1
    | verdict optimal 2
    | x 0 1
    | tree 1
    | d 2 0:1 1:1
    corrected:
    | novareport 1
    | slots 0
    | budget 1
    | columns 3
    | rows 3
    | c 1
    | c 1
    | c 1
    | r 1 0:1 1:1
    | r 1 1:1 2:1
    | r 1 0:1 2:1
    | verdict optimal 2
    | x 0 1
    | tree 1
    | d 2 0:1 1:1 2:1
    $ check cut
    17 report line 2
    $ check refused
    17 report refused
    $ check corrected
    0 optimal 2
"#,
            },
        ],
        name,
    )
}
