//! Lines of text, and what all forms share.

use nv_base::{Atom, Bin, Cmp, Mem, Prim, Una};
use nv_lines::Message;
use std::alloc::{AllocError, Global};

/// A text that grows line by line. Where memory runs out it stays as it is from then on, and `into_bytes` tells.
#[derive(Drop)]
pub struct Page {
    text: Message,
}

impl Page {
    /// No lines yet.
    pub fn new(alloc: Global) -> Page {
        Page {
            text: Message::new(alloc),
        }
    }

    /// The text of all lines.
    pub fn into_bytes(self) -> Result<Vec<u8>, AllocError> {
        self.text.into_bytes()
    }

    /// These words, as they are.
    pub fn put(&mut self, words: &str) {
        self.text.put(words)
    }

    /// A number in decimal digits.
    pub fn number(&mut self, n: u32) {
        self.count(n as u64)
    }

    /// A count in decimal digits.
    pub fn count(&mut self, n: u64) {
        self.text.number(n)
    }

    /// The name of a memory.
    pub fn memory(&mut self, m: Mem) {
        self.text.bytes(m.name())
    }

    /// The beginning of a line, N steps to the right.
    pub fn line(&mut self, depth: u32) {
        for _ in 0..depth {
            self.put("  ");
        }
    }

    /// A variable: `v1`.
    pub fn variable(&mut self, x: u32) {
        self.put("v");
        self.number(x)
    }

    /// Variables, with commas between them.
    pub fn variables(&mut self, xs: &[u32]) {
        let mut is_first = true;
        for x in xs {
            if !is_first {
                self.put(", ");
            }
            is_first = false;
            self.variable(*x);
        }
    }

    /// A literal in hexadecimal digits, without zeros in front.
    pub fn literal(&mut self, v: u32) {
        if v < 10 {
            return self.number(v);
        }
        self.put("0x");
        let mut is_begun = false;
        let mut turned = v;
        for _ in 0..8 {
            turned = turned.rotate_left(4);
            let digit = turned & 15;
            is_begun = is_begun || digit != 0;
            if is_begun {
                self.put(digit_text(digit));
            }
        }
    }

    /// A variable or a literal.
    pub fn atom(&mut self, a: &Atom) {
        match a {
            Atom::Var(x) => self.variable(*x),
            Atom::Lit(v) => self.literal(*v),
        }
    }

    /// Variables and literals, with commas between them.
    pub fn atoms(&mut self, xs: &[Atom]) {
        let mut is_first = true;
        for x in xs {
            if !is_first {
                self.put(", ");
            }
            is_first = false;
            self.atom(x);
        }
    }

    /// Words in brackets.
    pub fn words(&mut self, xs: &[Atom]) {
        self.put("(");
        self.atoms(xs);
        self.put(")")
    }

    /// Parameters in brackets.
    pub fn parameters(&mut self, xs: &[u32]) {
        self.put("(");
        self.variables(xs);
        self.put(")")
    }

    /// What a primitive computes: `v2 + v3`.
    pub fn primitive(&mut self, p: &Prim) {
        match p {
            Prim::Same(a) => self.atom(a),
            Prim::Una(op, a) => self.unary(op, a),
            Prim::Bin(op, a, b) => {
                self.atom(a);
                self.put(binary_sign(op));
                self.atom(b)
            }
        }
    }

    fn unary(&mut self, op: &Una, a: &Atom) {
        match op {
            Una::Not => {
                self.put("~");
                self.atom(a)
            }
            Una::Shl(k) => self.shift(a, " << ", *k),
            Una::Shr(k) => self.shift(a, " >> ", *k),
            Una::Rol(k) => self.shift(a, " rol ", *k),
        }
    }

    fn shift(&mut self, a: &Atom, sign: &str, k: u8) {
        self.atom(a);
        self.put(sign);
        self.number(k as u32)
    }

    /// `v1 = v2 + v3`.
    pub fn computed(&mut self, depth: u32, x: u32, p: &Prim) {
        self.line(depth);
        self.variable(x);
        self.put(" = ");
        self.primitive(p);
        self.put("\n")
    }

    /// `v1, v2 = sram[2](v3)`.
    pub fn fetched(&mut self, depth: u32, m: Mem, xs: &[u32], a: &Atom) {
        self.line(depth);
        self.variables(xs);
        self.put(" = ");
        self.memory(m);
        self.put("[");
        self.number(small(xs.len()));
        self.put("](");
        self.atom(a);
        self.put(")\n")
    }

    /// `sram(v3) <- v1, v2`.
    pub fn stored(&mut self, depth: u32, m: Mem, a: &Atom, xs: &[Atom]) {
        self.line(depth);
        self.memory(m);
        self.put("(");
        self.atom(a);
        self.put(") <- ");
        self.atoms(xs);
        self.put("\n")
    }

    /// `if v1 < v2 {`.
    pub fn compared(&mut self, depth: u32, c: &Cmp, a: &Atom, b: &Atom) {
        self.line(depth);
        self.put("if ");
        self.atom(a);
        self.put(comparison_sign(c));
        self.atom(b);
        self.put(" {\n")
    }

    /// What ends a part: `}`.
    pub fn closed(&mut self, depth: u32) {
        self.line(depth);
        self.put("}\n")
    }

    /// A line of a word, a number and words in brackets, such as `jump 3(v1)`.
    pub fn going(&mut self, depth: u32, word: &str, n: u32, xs: &[Atom]) {
        self.line(depth);
        self.put(word);
        self.number(n);
        self.words(xs);
        self.put("\n")
    }

    /// The word of an end: with a result, or with an exception that nothing handles.
    pub fn ending(&mut self, e: u16) {
        if e == 0 {
            return self.put("end ");
        }
        self.put("end raised ");
        self.number(e as u32);
        self.put(" ")
    }

    /// An end, as a line.
    pub fn halted(&mut self, depth: u32, e: u16, xs: &[Atom]) {
        self.line(depth);
        self.ending(e);
        self.words(xs);
        self.put("\n")
    }
}

/// A count as a number; no list of a program has more than fit.
pub fn small(n: usize) -> u32 {
    u32::try_from(n).unwrap_or(u32::MAX)
}

fn digit_text(digit: u32) -> &'static str {
    match digit {
        0 => "0",
        1 => "1",
        2 => "2",
        3 => "3",
        4 => "4",
        5 => "5",
        6 => "6",
        7 => "7",
        8 => "8",
        9 => "9",
        10 => "a",
        11 => "b",
        12 => "c",
        13 => "d",
        14 => "e",
        _ => "f",
    }
}

/// The sign of an operator, between blanks.
pub fn binary_sign(op: &Bin) -> &'static str {
    match op {
        Bin::Add => " + ",
        Bin::Sub => " - ",
        Bin::And => " & ",
        Bin::Or => " | ",
        Bin::Xor => " ^ ",
    }
}

/// The sign of a comparison, between blanks.
pub fn comparison_sign(c: &Cmp) -> &'static str {
    match c {
        Cmp::Eq => " == ",
        Cmp::Ne => " != ",
        Cmp::Lt => " < ",
        Cmp::Ge => " >= ",
    }
}
