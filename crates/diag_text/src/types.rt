//! Types by number, as far as they are told: what is found here serves the text that is printed, and nothing rests on it.

use nv_ast::Name;
use nv_lines::Message;
use std::alloc::Global;

/// A type. The parts of a tuple or a record are a stretch of a list.
#[derive(Clone, Copy)]
enum Cell {
    Word,
    Bool,
    Words(u32),
    Tuple(usize, usize),
    Record(usize, usize),
    Overlay(usize, usize),
}

/// Which kind of type it is.
#[derive(Clone, Copy)]
pub enum TypeClass {
    Word,
    Bool,
    /// A tuple without parts.
    Nothing,
    Tuple,
    Record,
}

impl TypeClass {
    /// Whether it is that of bools.
    pub fn is_bool(self) -> bool {
        matches!(self, TypeClass::Bool)
    }

    /// Whether it is that of records.
    pub fn is_record(self) -> bool {
        matches!(self, TypeClass::Record)
    }
}

/// A part of a tuple, or a field; without a name in a record it stands for the fields of another record.
#[derive(Clone, Copy)]
pub struct Part<'a> {
    pub name: Option<&'a Name>,
    pub kind: usize,
}

impl<'a> Part<'a> {
    /// A field.
    pub fn named(name: &'a Name, kind: usize) -> Part<'a> {
        Part {
            name: Some(name),
            kind,
        }
    }
}

/// The number of the type of words.
pub const WORD: usize = 0;
/// The number of the type of bools.
pub const BOOL: usize = 1;

/// The types that were met. Where memory runs out some are missing, and `is_short` tells.
#[derive(Drop)]
pub struct Types<'a> {
    cells: Vec<Cell>,
    words: Vec<u64>,
    parts: Vec<Part<'a>>,
    is_short: bool,
}

impl<'a> Types<'a> {
    /// No types, not yet those of words and bools.
    pub fn new(alloc: Global) -> Types<'a> {
        Types {
            cells: Vec::new(alloc),
            words: Vec::new(alloc),
            parts: Vec::new(alloc),
            is_short: false,
        }
    }

    /// Begins with words and bools.
    pub fn begin(&mut self) {
        self.add(Cell::Word, 1);
        self.add(Cell::Bool, 1);
    }

    /// Whether memory ran out for a type.
    pub fn is_short(&self) -> bool {
        self.is_short
    }

    /// How many words a type has, up to the greatest number.
    pub fn words_of(&self, t: usize) -> u64 {
        match self.words.get(t) {
            Some(words) => *words,
            None => 0,
        }
    }

    fn cell(&self, t: usize) -> Cell {
        match self.cells.get(t) {
            Some(cell) => *cell,
            None => Cell::Word,
        }
    }

    fn part(&self, at: usize) -> Option<Part<'a>> {
        match self.parts.get(at) {
            Some(it) => Some(*it),
            None => None,
        }
    }

    fn add(&mut self, cell: Cell, words: u64) -> usize {
        let t = self.cells.len();
        if self.cells.push(cell).is_err() {
            self.is_short = true;
        }
        if self.words.push(words).is_err() {
            self.is_short = true;
        }
        t
    }

    /// The type of N words.
    pub fn of_words(&mut self, n: u32) -> usize {
        if n == 1 {
            return WORD;
        }
        self.add(Cell::Words(n), u64::from(n))
    }

    /// The tuple of some parts.
    pub fn tuple(&mut self, parts: &[Part<'a>]) -> usize {
        let words = self.words_in(parts);
        let from = self.parts.len();
        self.add_parts(parts);
        let to = self.parts.len();
        self.add(Cell::Tuple(from, to), words)
    }

    /// The record of some fields.
    pub fn record(&mut self, fields: &[Part<'a>]) -> usize {
        let words = self.words_in(fields);
        let from = self.parts.len();
        self.add_parts(fields);
        let to = self.parts.len();
        self.add(Cell::Record(from, to), words)
    }

    /// The record of an overlay's alternatives.
    pub fn overlay(&mut self, alternatives: &[Part<'a>]) -> usize {
        let words = self.words_in(alternatives);
        let from = self.parts.len();
        self.add_parts(alternatives);
        let to = self.parts.len();
        self.add(Cell::Overlay(from, to), words)
    }

    /// Whether a type is the record of an overlay's alternatives.
    pub fn is_overlay(&self, t: usize) -> bool {
        matches!(self.cell(t), Cell::Overlay(_, _))
    }

    /// Whether a bool is a part of a type, or it.
    pub fn has_bool(&self, alloc: Global, out: &mut Message, t: usize) -> bool {
        let mut work = Vec::new(alloc);
        out.keep(&mut work, t);
        for _ in 0..MOST_FIELDS {
            let Some(it) = work.pop() else {
                return false;
            };
            if matches!(self.cell(it), Cell::Bool) {
                return true;
            }
            self.queue_kinds(out, &mut work, it);
        }
        false
    }

    // Puts the types of the parts of a type upon the work.
    fn queue_kinds(&self, out: &mut Message, work: &mut Vec<usize>, t: usize) {
        let (from, to) = self.stretch(t);
        for at in from..to {
            if let Some(it) = self.part(at) {
                out.keep(work, it.kind);
            }
        }
    }

    // The stretch of the parts of a tuple or a record.
    fn stretch(&self, t: usize) -> (usize, usize) {
        match self.cell(t) {
            Cell::Tuple(from, to) | Cell::Record(from, to) | Cell::Overlay(from, to) => (from, to),
            _ => (0, 0),
        }
    }

    fn words_in(&self, parts: &[Part<'a>]) -> u64 {
        let mut words: u64 = 0;
        for it in parts {
            words = words.saturating_add(self.words_of(it.kind));
        }
        words
    }

    fn add_parts(&mut self, parts: &[Part<'a>]) {
        if self.parts.extend_from_slice(parts).is_err() {
            self.is_short = true;
        }
    }

    /// Which kind of type one is.
    pub fn class_of(&self, t: usize) -> TypeClass {
        match self.cell(t) {
            Cell::Word => TypeClass::Word,
            Cell::Bool => TypeClass::Bool,
            Cell::Tuple(from, to) if from >= to => TypeClass::Nothing,
            Cell::Words(_) | Cell::Tuple(_, _) => TypeClass::Tuple,
            Cell::Record(_, _) | Cell::Overlay(_, _) => TypeClass::Record,
        }
    }

    /// How many parts a tuple has.
    pub fn tuple_length(&self, t: usize) -> Option<usize> {
        match self.cell(t) {
            Cell::Words(n) => Some(n as usize),
            Cell::Tuple(from, to) => Some(to.saturating_sub(from)),
            _ => None,
        }
    }

    /// A part of a tuple, counted from 0.
    pub fn tuple_part(&self, t: usize, k: usize) -> Option<usize> {
        match self.cell(t) {
            Cell::Words(_) => Some(WORD),
            Cell::Tuple(from, to) => self.part_below(from.saturating_add(k), to),
            _ => None,
        }
    }

    fn part_below(&self, at: usize, to: usize) -> Option<usize> {
        if at >= to {
            return None;
        }
        match self.part(at) {
            Some(it) => Some(it.kind),
            None => None,
        }
    }

    /// The fields of a record, or none.
    pub fn fields_of(&self, alloc: Global, out: &mut Message, t: usize) -> Vec<Part<'a>> {
        let mut found = Vec::new(alloc);
        let mut work = Vec::new(alloc);
        out.keep(&mut work, t);
        self.add_all_fields(out, &mut found, &mut work);
        found
    }

    // Adds the fields of the records of the work.
    fn add_all_fields(&self, out: &mut Message, found: &mut Vec<Part<'a>>, work: &mut Vec<usize>) {
        for _ in 0..MOST_FIELDS {
            let Some(record) = work.pop() else {
                return;
            };
            if self.is_record(record) {
                let (from, to) = self.stretch(record);
                self.add_fields(out, found, from, to);
                self.queue_records(out, work, from, to);
            }
        }
    }

    // Adds the fields with names in a stretch of parts.
    fn add_fields(&self, out: &mut Message, found: &mut Vec<Part<'a>>, from: usize, to: usize) {
        for at in from..to {
            match self.part(at) {
                Some(it) if it.name.is_some() => out.keep(found, it),
                _ => {}
            }
        }
    }

    // Puts the records without names in a stretch of parts upon the work, the first one on top.
    fn queue_records(&self, out: &mut Message, work: &mut Vec<usize>, from: usize, to: usize) {
        for at in (from..to).rev() {
            match self.part(at) {
                Some(it) if it.name.is_none() => out.keep(work, it.kind),
                _ => {}
            }
        }
    }

    /// The type of a field.
    pub fn field(&self, alloc: Global, out: &mut Message, t: usize, name: &Name) -> Option<usize> {
        let fields = self.fields_of(alloc, out, t);
        kind_of(&fields, name)
    }

    /// Appends a type as a text spells it, of a long one the front.
    pub fn push(&self, alloc: Global, out: &mut Message, t: usize) {
        let mut work = Vec::new(alloc);
        out.keep(&mut work, Piece::Type(t));
        self.push_pieces(out, &mut work)
    }

    fn push_pieces(&self, out: &mut Message, work: &mut Vec<Piece<'a>>) {
        for _ in 0..MOST_PIECES {
            let Some(piece) = work.pop() else {
                return;
            };
            self.push_piece(out, work, piece);
        }
        out.put(" ..")
    }

    fn push_piece(&self, out: &mut Message, work: &mut Vec<Piece<'a>>, piece: Piece<'a>) {
        match piece {
            Piece::Text(text) => out.put(text),
            Piece::Named(name) => {
                out.bytes(name.bytes());
                out.put(": ")
            }
            Piece::Fields(t) => self.queue_parts(out, work, t),
            Piece::Type(t) => self.push_type(out, work, t),
        }
    }

    fn push_type(&self, out: &mut Message, work: &mut Vec<Piece<'a>>, t: usize) {
        match self.cell(t) {
            Cell::Word => out.put("word"),
            Cell::Bool => out.put("bool"),
            Cell::Words(n) => {
                out.put("word[");
                out.number(u64::from(n));
                out.put("]")
            }
            Cell::Tuple(_, _) => {
                out.put("(");
                out.keep(work, Piece::Text(")"));
                self.queue_parts(out, work, t)
            }
            Cell::Record(_, _) | Cell::Overlay(_, _) => {
                out.put("{ ");
                out.keep(work, Piece::Text(" }"));
                self.queue_parts(out, work, t)
            }
        }
    }

    // Puts the parts of a tuple or a record upon the work, the first one on top.
    fn queue_parts(&self, out: &mut Message, work: &mut Vec<Piece<'a>>, t: usize) {
        let (from, to) = self.stretch(t);
        let in_record = self.is_record(t);
        for at in (from..to).rev() {
            if let Some(it) = self.part(at) {
                queue_part(out, work, it, in_record);
            }
            if at > from {
                out.keep(work, Piece::Text(", "));
            }
        }
    }

    fn is_record(&self, t: usize) -> bool {
        matches!(self.cell(t), Cell::Record(_, _) | Cell::Overlay(_, _))
    }
}

/// The type of a field among some.
pub fn kind_of(fields: &[Part], name: &Name) -> Option<usize> {
    for it in fields {
        if it.name.is_some_and(|x| x == name) {
            return Some(it.kind);
        }
    }
    None
}

fn queue_part<'a>(out: &mut Message, work: &mut Vec<Piece<'a>>, it: Part<'a>, in_record: bool) {
    match it.name {
        Some(name) => {
            out.keep(work, Piece::Type(it.kind));
            out.keep(work, Piece::Named(name))
        }
        None if in_record => out.keep(work, Piece::Fields(it.kind)),
        None => out.keep(work, Piece::Type(it.kind)),
    }
}

// A piece of a type's text that is still to be printed.
#[derive(Clone, Copy)]
enum Piece<'a> {
    Text(&'static str),
    Named(&'a Name),
    Type(usize),
    Fields(usize),
}

// The most pieces of a type's text.
const MOST_PIECES: u32 = 150;

// The most records that are looked through for fields.
const MOST_FIELDS: u32 = 100_000;
