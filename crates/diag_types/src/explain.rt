//! What a walk tells of the fault that it comes to.

use crate::walk::{Shape, Walk};
use diag_text::expected::{ExpectedType, Why};
use diag_text::names::{add_all_names, add_names, stands_before};
use diag_text::nearest::push_nearest;
use diag_text::types::{Part, WORD, kind_of};
use nv_ast::{Expr, Fun, Kind, Name, Pat, Span, TyText};
use nv_base::Mem;

impl<'a> Walk<'a> {
    // Appends `WORD: NUMBER WHAT` as a line.
    fn note_number(&mut self, word: &str, n: u64, what: &str) {
        self.note.put(word);
        self.note.put(": ");
        self.note.counted(n, what);
        self.note.line("")
    }

    // The sentence `FRONT NAME BEHIND`.
    fn entitle(&mut self, front: &str, name: &Name, behind: &str) {
        self.title.put(front);
        self.title.put(" ");
        self.title.quoted(name.bytes());
        self.title.put(behind)
    }

    // Appends `found: NAME WHAT` as a line.
    pub fn note_name(&mut self, name: &Name, what: &str) {
        self.note.put("found: ");
        self.note.quoted(name.bytes());
        self.note.put(" ");
        self.note.line(what)
    }

    // Appends the type that is wanted or found.
    fn note_type(&mut self, word: &str, t: usize) {
        self.note.put(word);
        self.note.put(": ");
        self.types.push(self.alloc, &mut self.note, t)
    }

    /// 14, 22 and 24: an expression of another type than is wanted, without a value, or of a type that is too large.
    pub fn explain_value(&mut self, expected: ExpectedType<'a>, value: Option<usize>) {
        if self.kind == 24 {
            return self.note_excess(value);
        }
        if self.kind != 14 && self.kind != 22 {
            return;
        }
        if self.explain_difference(expected, value) {
            return;
        }
        self.note_expected(expected, value);
        match value {
            Some(t) => {
                self.note_type("found", t);
                self.note.line("")
            }
            None => self.note.line("found: no value"),
        }
    }

    // What is expected of a value.
    fn note_expected(&mut self, expected: ExpectedType<'a>, value: Option<usize>) {
        match expected {
            ExpectedType::Typed(t, why) => {
                self.note_type("expected", t);
                why.push(&mut self.note);
                let advice = self.advice_on(why, t, value.unwrap_or(WORD));
                self.advise(advice);
            }
            ExpectedType::Stored => {
                self.note
                    .line("expected: word or a tuple of words, to be stored");
                self.advise(
                    "A store takes words alone: write each word of the value into one tuple.",
                );
            }
            ExpectedType::Value | ExpectedType::Anything => self.note.line("expected: a value"),
        }
    }

    // What of a record, or of a number of words, is another than is expected, and whether that is told.
    fn explain_difference(&mut self, expected: ExpectedType<'a>, value: Option<usize>) -> bool {
        let (ExpectedType::Typed(t, why), Some(found)) = (expected, value) else {
            return false;
        };
        let is_told = match why {
            Why::Unpacked(_) => self.explain_record(t, found),
            Why::Packed(_) => self.explain_packed(t, found),
            _ => false,
        };
        if is_told && self.advice.is_none() {
            let advice = self.advice_on(why, t, found);
            self.advise(advice);
        }
        is_told
    }

    fn advice_on(&self, why: Why<'a>, expected: usize, found: usize) -> &'static str {
        why.advice(self.types.class_of(expected), self.types.class_of(found))
    }

    // What helps against another type than is wanted.
    fn advise(&mut self, text: &'static str) {
        if self.kind == 14 {
            self.advice = Some(text);
        }
    }

    fn note_excess(&mut self, value: Option<usize>) {
        match value {
            Some(t) if self.types.words_of(t) > 1024 => {
                let words = self.types.words_of(t);
                self.note_number("found", words, "word")
            }
            _ => self.note.line("found: a type of more than 100 levels"),
        }
    }

    /// 24: a type of a declaration that has too many words.
    pub fn explain_large(&mut self, t: usize) {
        let words = self.types.words_of(t);
        if self.inside != 24 || words <= 1024 {
            return;
        }
        self.inside = 0;
        self.note_number("found", words, "word")
    }

    /// 8: a number of words that no type has.
    pub fn explain_words(&mut self, n: u32) {
        if self.inside != 8 || (n >= 1 && n <= 1024) {
            return;
        }
        self.inside = 0;
        self.title.put("`word[");
        self.title.number(u64::from(n));
        self.title.put("]` is no type: it has 1 to 1,024 words");
        self.advice = Some("A table stands in a memory.")
    }

    /// 3 and 8: an unknown layout of a declaration.
    pub fn explain_layout_name(&mut self, kind: u8, name: &'a Name) {
        if self.inside != kind {
            return;
        }
        self.inside = 0;
        self.explain_unknown_layout(name)
    }

    /// 3: an unknown layout.
    pub fn explain_unknown_layout(&mut self, name: &'a Name) {
        if self.is_over {
            return;
        }
        self.entitle("no layout", name, " is declared above");
        self.advice = Some("Declare the layout above its use, or mend the name.");
        if is_named(name.bytes(), &SIZED_TYPES) {
            self.advice = Some("A field is a number of bits: `{ a: 8 }`.");
        }
        push_nearest(self.alloc, &mut self.note, name, self.layouts.names())
    }

    /// 5, 8 and 18: a name twice among fields.
    pub fn explain_twice(&mut self, kind: u8, parts: &[Part<'a>]) {
        if self.inside != kind {
            return;
        }
        let names = self.names_of(parts);
        self.note_twice(&names)
    }

    /// 5: a name twice among the fields of joined layouts.
    pub fn explain_shared(&mut self, record: usize) {
        if self.inside != 5 {
            return;
        }
        let fields = self.types.fields_of(self.alloc, &mut self.note, record);
        self.explain_twice(5, &fields);
        if self.inside == 0 {
            self.advice = Some(
                "The fields of joined layouts stand side by side. Give one of the layouts a name, as `eth ## { ip: ip }`: its fields are then `.ip.length`.",
            );
        }
    }

    // Appends the first name that stands twice.
    fn note_twice(&mut self, names: &[&'a Name]) {
        for (n, name) in names.iter().enumerate() {
            if stands_before(names, n, name) {
                self.inside = 0;
                self.culprit = Some(*name);
                return self.entitle("the name", name, " is given twice");
            }
        }
    }

    /// 4: a gap of a wrong size.
    pub fn explain_gap(&mut self, n: u32) {
        if self.inside != 4 || (n >= 1 && n <= 1024) {
            return;
        }
        self.inside = 0;
        self.title.put("a gap has 1 to 1,024 bits, and this one ");
        self.title.number(u64::from(n));
        self.advice = Some(if n == 0 {
            "Leave it out."
        } else {
            "Write several gaps, joined by `##`."
        })
    }

    /// 4: a field of a wrong size.
    pub fn explain_bits(&mut self, name: &'a Name, n: u32) {
        if self.inside != 4 || (n >= 1 && n <= 32) {
            return;
        }
        self.inside = 0;
        self.entitle("field", name, " has ");
        self.title.counted(u64::from(n), "bit");
        self.title.put(", and a field has 1 to 32");
        if n == 0 {
            self.advice = Some("A field without bits holds nothing: leave it out.");
        }
        if n > 32 && n <= 64 {
            self.note_halves(name, n);
            self.advice = Some("");
        }
    }

    // Which two fields a longer one may be.
    fn note_halves(&mut self, name: &'a Name, n: u32) {
        self.note.put("Make two fields of it: `");
        self.note.bytes(name.bytes());
        self.note.put(": 32, ");
        self.note.bytes(name.bytes());
        self.note.put("_low: ");
        self.note.number(u64::from(n.saturating_sub(32)));
        self.note.line("`.")
    }

    /// 6: alternatives of different sizes.
    pub fn explain_sizes(&mut self, sizes: &[(&'a Name, u64)]) {
        if self.inside != 6 || are_same(sizes) {
            return;
        }
        self.inside = 0;
        for it in sizes {
            self.note.put("found: ");
            self.note.quoted(it.0.bytes());
            self.note.put(" of ");
            self.note.number(it.1);
            self.note.line(if it.1 == 1 { " bit" } else { " bits" });
        }
    }

    /// 7: a layout without a field, or too large.
    pub fn explain_unfit(&mut self, shape: Shape) {
        if self.inside != 7 {
            return;
        }
        if shape.fields == 0 {
            self.inside = 0;
            return self.note.line("found: no field");
        }
        if shape.bits > 1024 {
            self.inside = 0;
            return self.note_number("found", shape.bits, "bit");
        }
    }

    /// 23: an exception of too many words.
    pub fn explain_declaration(&mut self, types: usize) {
        if self.inside != 23 {
            return;
        }
        let words = self.types.words_of(types);
        self.title
            .put("an exception has at most 8 words, and this one ");
        self.title.number(words)
    }

    /// 9 and 23: the head of a function.
    pub fn explain_function(&mut self, fun: &'a Fun, params: usize, returned: usize) {
        match self.inside {
            9 => self.explain_parameters(&fun.params),
            23 => self.explain_main(fun, params, returned),
            _ => {}
        }
    }

    // 9: a name twice among parameters.
    fn explain_parameters(&mut self, params: &'a [(Name, TyText)]) {
        let mut names = Vec::new(self.alloc);
        for param in params {
            self.note.keep(&mut names, &param.0);
        }
        self.note_twice(&names)
    }

    // 23: a bool among the parameters, or too many words of the parameters or the result.
    fn explain_main(&mut self, fun: &'a Fun, params: usize, returned: usize) {
        for (n, param) in fun.params.iter().enumerate() {
            let t = self.types.tuple_part(params, n).unwrap_or(WORD);
            if self.types.has_bool(self.alloc, &mut self.note, t) {
                self.advice = Some(
                    "What starts a program is words: write `flag: word`, and `flag != 0` where it is used.",
                );
                return self.entitle("parameter", &param.0, " of `main` has a bool");
            }
        }
        let given = self.types.words_of(params);
        let is_given = given > 8;
        let words = if is_given {
            given
        } else {
            self.types.words_of(returned)
        };
        self.title.put(if is_given {
            "`main` takes "
        } else {
            "`main` gives "
        });
        self.title.counted(words, "word");
        self.title.put(", and at most 8 are allowed")
    }

    /// 10: an unknown variable.
    pub fn explain_variable(&mut self, name: &'a Name) {
        self.entitle("no variable", name, " is in sight");
        if self.functions.get(name).is_some() {
            return self.note_name(name, "is a function, and a call has brackets, as in `f[]`");
        }
        if self.layouts.get(name).is_some() {
            return self.note_name(name, "is a layout: `unpack[l](w)` gives its fields");
        }
        if let Some(advice) = foreign_advice(name.bytes()) {
            self.advice = Some(advice);
        }
        if self.scope.was_bound(name) {
            self.advice = Some(
                "What a block binds is known up to its end. Let the block give the value, as in `let y = (let x = 5; x + 1);`.",
            );
            return self.note_name(name, "is bound in a block or a handler that is over");
        }
        let known = self.scope.names(self.alloc, &mut self.note);
        push_nearest(self.alloc, &mut self.note, name, &known)
    }

    /// 15: no such field.
    pub fn explain_field(&mut self, t: usize, name: &'a Name) {
        if self.kind != 15 || self.is_over {
            return;
        }
        self.entitle("there is no field", name, "");
        self.note_type("found", t);
        self.note.line(" before the dot");
        let fields = self.types.fields_of(self.alloc, &mut self.note, t);
        if self.note_deeper(&fields, name) {
            return;
        }
        if self.layouts.get(name).is_some() {
            self.advice = Some(
                "The fields of joined layouts stand side by side, without the layout's name. `{ ip: ip } ## ..` gives them one.",
            );
            return self.note_name(name, "is a layout, and no field");
        }
        let names = self.names_of(&fields);
        push_nearest(self.alloc, &mut self.note, name, &names)
    }

    // Tells that a field of one of the fields has this name, and gives whether one has.
    fn note_deeper(&mut self, fields: &[Part<'a>], name: &'a Name) -> bool {
        for part in fields {
            let inner = self.types.fields_of(self.alloc, &mut self.note, part.kind);
            if let (Some(outer), true) = (part.name, kind_of(&inner, name).is_some()) {
                self.note_path(outer, name);
                self.advice = Some("");
                return true;
            }
        }
        false
    }

    // Appends how a field of a field is written.
    fn note_path(&mut self, outer: &Name, name: &Name) {
        self.note.quoted(name.bytes());
        self.note.put(" is a field of ");
        self.note.quoted(outer.bytes());
        self.note.put(": write `.");
        self.note.bytes(outer.bytes());
        self.note.put(".");
        self.note.bytes(name.bytes());
        self.note.line("`.")
    }

    // The names of fields.
    fn names_of(&mut self, parts: &[Part<'a>]) -> Vec<&'a Name> {
        let mut names = Vec::new(self.alloc);
        for part in parts {
            if let Some(name) = part.name {
                self.note.keep(&mut names, name);
            }
        }
        names
    }

    /// 21: a shift by too many places.
    pub fn explain_places(&mut self, span: Span, n: u32) {
        if self.kind != 21 || !self.is_at(span) {
            return;
        }
        self.note_number("found", u64::from(n), "place")
    }

    /// 11, 12 and 13: a call.
    pub fn explain_call(&mut self, name: &'a Name, params: usize, given: usize) {
        match self.kind {
            11 => self.explain_function_name(name),
            12 => self.explain_own_call(name),
            13 => self.explain_count(name, params, given, "argument"),
            _ => {}
        }
    }

    // 11: an unknown function.
    fn explain_function_name(&mut self, name: &'a Name) {
        self.entitle("no function", name, " is declared above");
        if self.scope.get(name).is_some() {
            self.advice = Some(
                "There are no arrays: parts of a tuple are named by `let (a, b) = t;`, and a table stands in a memory.",
            );
            return self.note_name(name, "is a variable, and no function");
        }
        if self.layouts.get(name).is_some() {
            self.advice = Some("");
            return self.note_name(
                name,
                "is a layout: write `unpack[l](w)` or `pack[l]({ .. })`",
            );
        }
        if self.exceptions.get(name).is_some() {
            self.advice = Some("");
            return self.note_name(name, "is an exception: write `raise E[..]`");
        }
        if let Some(advice) = foreign_function_advice(name.bytes()) {
            self.advice = Some(advice);
            return;
        }
        push_nearest(self.alloc, &mut self.note, name, self.functions.names())
    }

    // 17: an unknown exception.
    fn explain_exception_name(&mut self, name: &'a Name) {
        self.entitle("no exception", name, " is declared above");
        if self.layouts.get(name).is_some() {
            self.advice = Some("An exception is declared by `exception E[word];`.");
            return self.note_name(name, "is a layout, and no exception");
        }
        if self.functions.get(name).is_some() {
            self.advice = Some("A call is `f[x]`, without `raise`.");
            return self.note_name(name, "is a function, and no exception");
        }
        push_nearest(self.alloc, &mut self.note, name, self.exceptions.names())
    }

    // 12: which function of a group calls which.
    fn explain_own_call(&mut self, name: &'a Name) {
        if self.tries > 0 {
            self.advice = Some(
                "The block of a `try` isn't last, since its handler is left to do. Put the `try` round the first call of the loop, in a function of its own.",
            );
        }
        let current = self.current;
        let Some(caller) = current else {
            return;
        };
        if caller == name {
            return self.note_name(name, "calls itself here");
        }
        self.note.put("found: ");
        self.note.quoted(caller.bytes());
        self.note.put(" calls ");
        self.note.quoted(name.bytes());
        self.note.line(" of its own group here")
    }

    // 13: how many are expected, and how many are there.
    fn explain_count(&mut self, name: &'a Name, types: usize, given: usize, what: &str) {
        let Some(expected) = self.types.tuple_length(types) else {
            return;
        };
        self.title.quoted(name.bytes());
        self.title.put(" takes ");
        self.title.counted(expected as u64, what);
        self.title.put(", and here ");
        self.title.put(if given == 1 { "is " } else { "are " });
        self.title.number(given as u64)
    }

    /// 13 and 17: a raise.
    pub fn explain_raise(&mut self, name: &'a Name, types: usize, given: usize) {
        match self.kind {
            13 => self.explain_count(name, types, given, "value"),
            17 => self.explain_exception_name(name),
            _ => {}
        }
    }

    /// 9, 13, 16 and 17: the exception and the patterns of a handler.
    pub fn explain_handler(&mut self, name: &'a Name, types: usize, patterns: &'a [Pat]) {
        match self.kind {
            9 => self.explain_names(patterns),
            13 => self.explain_handled(name, types, patterns.len()),
            16 => {
                self.note_type("expected", types);
                self.note.line(", as the exception has")
            }
            17 => self.explain_exception_name(name),
            _ => {}
        }
    }

    // 13: how many values an exception has, and how many patterns are there.
    fn explain_handled(&mut self, name: &'a Name, types: usize, given: usize) {
        if let Some(expected) = self.types.tuple_length(types) {
            self.title.quoted(name.bytes());
            self.title.put(" has ");
            self.title.counted(expected as u64, "value");
            self.title.put(", and the handler ");
            self.title.counted(given as u64, "pattern")
        }
    }

    // 9: a name twice in patterns.
    fn explain_names(&mut self, patterns: &'a [Pat]) {
        let mut names = Vec::new(self.alloc);
        add_all_names(&mut self.note, patterns, &mut names);
        self.note_twice(&names)
    }

    /// 9 and 16: the pattern of a let.
    pub fn explain_pattern(&mut self, p: &'a Pat, t: usize) {
        match self.kind {
            9 => self.explain_name(p),
            16 => {
                self.note_type("expected", t);
                self.note.line(", as the value has");
                self.advise_on_pattern(p, t);
                self.note_parts(p, t)
            }
            _ => {}
        }
    }

    // 16: how the fields of a record are taken.
    fn advise_on_pattern(&mut self, p: &Pat, t: usize) {
        if let (Pat::Tuple(ps), true) = (p, t == WORD) {
            self.advice = Some(if ps.is_empty() {
                "The value is a word: give it a name, as `let x = f[];`, or drop it by `let _ = f[];`."
            } else {
                "The value is one word: `let x = f[];`."
            });
        }
        if self.types.class_of(t).is_record() {
            self.advice = Some(
                "A record is bound by one name, and a dot takes its fields: `let h = unpack[l](w); h.a`.",
            );
        }
    }

    // 9: a name twice in a pattern.
    fn explain_name(&mut self, p: &'a Pat) {
        let mut names = Vec::new(self.alloc);
        add_names(&mut self.note, p, &mut names);
        self.note_twice(&names)
    }

    // 16: how many parts a pattern has, where this is what doesn't fit.
    fn note_parts(&mut self, p: &'a Pat, t: usize) {
        match p {
            Pat::Tuple(ps) if self.types.tuple_length(t) != Some(ps.len()) => {
                self.note.put("found: a pattern of ");
                self.note.counted(ps.len() as u64, "part");
                self.note.line("")
            }
            _ => {}
        }
    }

    /// 19 and 20: a number of words, or a scratch address.
    pub fn explain_access(&mut self, mem: Mem, words: u64, address: &'a Expr) {
        match self.kind {
            19 => {
                let expected = match mem {
                    Mem::Sdram => "expected: 2, 4, 6 or 8 words",
                    _ => "expected: 1 to 8 words",
                };
                self.note.line(expected);
                self.note_number("found", words, "word");
                if matches!(mem, Mem::Sdram) && words % 2 == 1 && words < 8 {
                    self.advice = Some(
                        "SDRAM moves pairs of words. Fetch one more and leave it out, as `let (x, _) = sdram[2](at);`, or store one more.",
                    );
                }
                if words == 0 {
                    self.advice = Some("No words are moved: leave the access out.");
                }
            }
            20 => self.explain_scratch(words, address),
            _ => {}
        }
    }

    // 20: where the words of an access would end.
    fn explain_scratch(&mut self, words: u64, address: &'a Expr) {
        match address.kind {
            Kind::Number(at) => {
                let last = u64::from(at).saturating_add(words).saturating_sub(1);
                self.note.line("expected: words up to 511");
                self.note.put("found: words up to ");
                self.note.number(last);
                self.note.line("")
            }
            _ => self.note.line("expected: a plain number, without brackets"),
        }
    }
}

// Types of so many bits in other languages.
const SIZED_TYPES: [&str; 8] = [
    "u8", "u16", "u32", "uint8_t", "uint16_t", "uint32_t", "byte", "bit",
];

// Whether a name is one of these.
fn is_named(name: &[u8], words: &[&str]) -> bool {
    for it in words {
        if name == it.as_bytes() {
            return true;
        }
    }
    false
}

// What helps where a word of another language is taken for a variable.
fn foreign_advice(name: &[u8]) -> Option<&'static str> {
    if is_named(name, &["return"]) {
        Some("There is no `return`: the last expression is the value.")
    } else if is_named(name, &["break", "continue"]) {
        Some(
            "There are no loops: a loop is a function that calls itself last, and ends where it gives a value.",
        )
    } else if is_named(name, &["True", "False", "TRUE", "FALSE"]) {
        Some("The bools are `true` and `false`.")
    } else if is_named(name, &["NULL", "null", "None", "nil"]) {
        Some(
            "There is no null: 0 is a word like others, and an exception tells that nothing is there.",
        )
    } else if is_named(name, &["pass"]) {
        Some("A block that does nothing has the value `()`.")
    } else {
        None
    }
}

// What helps where a function of another language's library is called.
fn foreign_function_advice(name: &[u8]) -> Option<&'static str> {
    if is_named(name, &["ntohs", "ntohl", "htons", "htonl"]) {
        Some("No bytes are swapped: a word's first byte is its highest, as in a packet.")
    } else if is_named(name, &["min", "max", "abs"]) {
        Some(
            "There is no library. Declare it: `fun min[a: word, b: word]: word { if (a < b) a else b }`.",
        )
    } else if is_named(name, &["sizeof", "len"]) {
        Some("A layout has the bits of its fields: their sum is a number that you write.")
    } else if is_named(name, &["memcpy", "memset", "memcmp"]) {
        Some("There is no library. Words are fetched and stored: `sram(to) <- sram[4](from);`.")
    } else if is_named(name, &["print", "printf"]) {
        Some(
            "Nothing is printed: a run ends with the value of `main` and with what the memories hold.",
        )
    } else {
        None
    }
}

// Whether all sizes are one.
fn are_same(sizes: &[(&Name, u64)]) -> bool {
    let Some(first) = sizes.first() else {
        return true;
    };
    for it in sizes {
        if it.1 != first.1 {
            return false;
        }
    }
    true
}
