//! Types by number, each kept once.

ghost use Rattle.std.specs.Prelude.{◌≡◌, ◌<◌, ◌≤◌, ◌∷◌, [], ℕ, true, Some, is_none, IfSome, IfOk, OnOk, length, slice_get};
ghost use Rattle.nv_ast.specs.Types.{Ty, TupleTy, RecordTy, Tys, ty_and, NamedTys, Form, RecordForm, ChoiceForm, Forms, words_ty, word_parts, same_type, is_too_large};
ghost use Rattle.nv_ast.specs.Faults.{can_store};
ghost use Rattle.nv_types_table.specs.inner.Store.{Extends, IsType, IsParts, IsFields, IsForm, IsForms, IsStore, tuple_of, record_in, part_of, AreTypes};
ghost use Rattle.nv_types_table.specs.inner.Knowing.{IsKnown, AreKnown, KnowsFields, IsFactOf};
ghost use Rattle.nv_types_table.specs.inner.Cells.{AreBelow, over, lone, with_front, fact_at as fact_in, cell_facts as facts_of_cell};

use crate::limits::{HIGHEST, MOST_WORDS};
use indexmap::IndexSet;
use nv_ast::Name;
use nv_base::NoMemory;
use std::alloc::Global;
use std::marker::Model;

/// A type, or a part of one: a list of types, or of named types. Its parts stand before it in the table.
/// A choice is the form of an overlay's value, of which one field is packed. A list of named types is a tree:
/// one field with its name, or both of two lists one after the other.
#[derive(Clone, Copy, PartialEq, Eq, Hash)]
pub enum Cell {
    Word,
    Bool,
    NoParts,
    NoFields,
    Tuple(usize),
    Record(usize),
    Choice(usize),
    Part(usize, usize),
    Field(usize, usize),
    Both(usize, usize),
}

/// What is known of a cell: how many words its values have, its height, whether a bool is inside, and
/// whether it is a list of words alone.
#[derive(Clone, Copy)]
pub struct Facts {
    pub words: u64,
    pub height: u64,
    pub has_bool: bool,
    pub words_alone: bool,
}

/// The number of the type of words.
pub const WORD: usize = 0;
/// The number of the type of bools.
pub const BOOL: usize = 1;
/// The number of the empty list of types.
pub const NO_PARTS: usize = 2;
/// The number of the empty list of named types.
pub const NO_FIELDS: usize = 3;

const ONE_WORD: Facts = Facts {
    words: 1,
    height: 1,
    has_bool: false,
    words_alone: false,
};

const ONE_BOOL: Facts = Facts {
    words: 1,
    height: 1,
    has_bool: true,
    words_alone: false,
};

const NO_WORDS: Facts = Facts {
    words: 0,
    height: 0,
    has_bool: false,
    words_alone: true,
};

const NOTHING: Facts = Facts {
    words: 0,
    height: 0,
    has_bool: false,
    words_alone: false,
};

/// A table of types. Two types are the same exactly where their numbers are.
#[derive(Drop)]
pub struct Table<'a> {
    names: IndexSet<&'a Name>,
    cells: IndexSet<Cell>,
    facts: Vec<Facts>,
}

impl<'a> Model for Table<'a> {
    ghost use Rattle.nv_types_table.specs.inner.Named.{plain_names};
    ghost use Rattle.nv_types_table.specs.inner.Store.{Store};
    ghost use Rattle.nv_types_table.specs.inner.Cells.{IsTable};

    ghost Value = { Store };

    ghost view = { λ t. record { names = plain_names t.names.keys; cells = t.cells.keys } };

    ghost invariant = { λ t. IsTable (plain_names t.names.keys) t.cells.keys t.facts.items };
}

impl<'a> Table<'a> {
    /// The table of words, bools and empty lists.
    pub fn new(alloc: Global) -> Result<Table<'a>, NoMemory> {
        let facts = vec![in alloc; ONE_WORD, ONE_BOOL, NO_WORDS, NOTHING]?;
        let mut cells = IndexSet::new(alloc);
        add_first_cells(&mut cells)?;
        Ok(Table {
            names: IndexSet::new(alloc),
            cells,
            facts,
        })
    }

    /// Lets all types go.
    pub fn end(self) {}

    /// The number of a cell, whose parts are there.
    pub fn number(&mut self, cell: Cell) -> Result<usize, NoMemory>
        requires below { AreBelow (length self.old.cells) cell }
        ensures there { IfOk result (λ i. slice_get self.new.cells i ≡ Some cell) }
        ensures grows { OnOk result (Extends self.old self.new) }
    {
        if let Some(i) = self.cells.get_index_of(&cell) {
            return Ok(i);
        }
        let i = self.cells.len();
        self.facts.push(cell_facts(&self.facts, cell))?;
        if self.cells.insert(cell).is_err() {
            self.facts.pop();
            return Err(NoMemory);
        }
        Ok(i)
    }

    /// The number of a part: itself where it has a cell, as each number that this table gave has, else that of words.
    pub fn part_number(&self, i: usize) -> usize
        ensures below { result < length self.now.cells }
        ensures same { (c : Cell) → slice_get self.now.cells i ≡ Some c → result ≡ i }
        ensures no_cell { length self.now.cells ≤ i → result ≡ 0 }
        ensures store { IsStore self.now }
    {
        if i < self.cells.len() { i } else { WORD }
    }

    /// The cell of a number.
    pub fn cell(&self, i: usize) -> Option<Cell>
        ensures value { result ≡ slice_get self.now.cells i }
        ensures store { IsStore self.now }
    {
        self.cells.get_index(i).copied()
    }

    /// What is known of a type or list, or nothing where the number has no cell.
    pub fn known(&self, i: usize) -> Facts
        ensures of_type { (t : Ty) → IsType self.now i t → IsKnown result t }
        ensures of_parts { (ts : Tys) → IsParts self.now i ts → AreKnown result ts }
        ensures of_fields { (ts : NamedTys) → IsFields self.now i ts → KnowsFields result ts }
        ensures of_cells { IsFactOf self.now i result }
    {
        fact_at(&self.facts, i)
    }

    /// The tuple of some types.
    pub fn tuple(&mut self, parts: usize) -> Result<usize, NoMemory>
        ensures made { (ts : Tys) → IsParts self.old parts ts → IfOk result (λ i. IsType self.new i (TupleTy ts)) }
        ensures grows { OnOk result (Extends self.old self.new) }
    {
        let parts = self.part_number(parts);
        self.number(Cell::Tuple(parts))
    }

    /// The record of some named types.
    pub fn record_of(&mut self, fields: usize) -> Result<usize, NoMemory>
        ensures made { (ts : NamedTys) → IsFields self.old fields ts → IfOk result (λ i. IsType self.new i (RecordTy ts)) }
        ensures form { (fs : Forms) → IsForms self.old fields fs → IfOk result (λ i. IsForm self.new i (RecordForm fs)) }
        ensures grows { OnOk result (Extends self.old self.new) }
    {
        let fields = self.part_number(fields);
        self.number(Cell::Record(fields))
    }

    /// The choice of some named forms.
    pub fn choice(&mut self, alternatives: usize) -> Result<usize, NoMemory>
        ensures form { (fs : Forms) → IsForms self.old alternatives fs → IfOk result (λ i. IsForm self.new i (ChoiceForm fs)) }
        ensures grows { OnOk result (Extends self.old self.new) }
    {
        let alternatives = self.part_number(alternatives);
        self.number(Cell::Choice(alternatives))
    }

    /// The list of types with one more in front.
    pub fn part(&mut self, t: usize, rest: usize) -> Result<usize, NoMemory>
        ensures made { (u : Ty) (us : Tys) → IsType self.old t u → IsParts self.old rest us → IfOk result (λ i. IsParts self.new i (ty_and u us)) }
        ensures grows { OnOk result (Extends self.old self.new) }
    {
        let t = self.part_number(t);
        let rest = self.part_number(rest);
        self.number(Cell::Part(t, rest))
    }

    /// The list of some types.
    pub fn parts_of(&mut self, types: &[usize]) -> Result<usize, NoMemory>
        ensures made { (ts : Tys) → AreTypes self.old types.now ts → IfOk result (λ i. IsParts self.new i ts) }
        ensures grows { OnOk result (Extends self.old self.new) }
    {
        let mut list = NO_PARTS;
        let mut left = types.len();
        while left > 0 {
            left -= 1;
            list = self.part(types[left], list)?;
        }
        Ok(list)
    }

    /// The number of a field's name.
    pub fn name_number(&mut self, name: &'a Name) -> Result<usize, NoMemory>
        ensures there { IfOk result (λ i. slice_get self.new.names i ≡ Some name.now) }
        ensures grows { OnOk result (Extends self.old self.new) }
    {
        let (i, _) = self.names.insert_full(name)?;
        Ok(i)
    }

    /// The type of N words.
    pub fn words(&mut self, n: u32) -> Result<usize, NoMemory>
        ensures made { IfOk result (λ i. IsType self.new i (words_ty n)) }
        ensures grows { OnOk result (Extends self.old self.new) }
    {
        if n == 1 {
            return Ok(WORD);
        }
        let list = self.word_list(n)?;
        self.tuple(list)
    }

    // The list of N words.
    fn word_list(&mut self, n: u32) -> Result<usize, NoMemory>
        ensures made { IfOk result (λ i. IsParts self.new i (word_parts n)) }
        ensures grows { OnOk result (Extends self.old self.new) }
    {
        let mut list = NO_PARTS;
        for i in 0..n {
            list = self.part(WORD, list)?;
        }
        Ok(list)
    }

    /// Whether two types are the same: exactly where their numbers are.
    pub fn is_same(&self, t: usize, u: usize) -> bool
        ensures { (a b : Ty) → IsType self.now t a → IsType self.now u b → result ≡ same_type a b }
    {
        let _ = &self.cells;
        t == u
    }

    /// Whether a type is that of N words.
    pub fn is_words(&self, t: usize, n: u32) -> bool
        ensures { (u : Ty) → IsType self.now t u → result ≡ same_type (words_ty n) u }
    {
        if n == 1 {
            return self.is_same(t, WORD);
        }
        match self.cell(t) {
            Some(Cell::Tuple(parts)) => {
                let facts = self.known(parts);
                facts.words_alone && facts.words == n as u64
            }
            _ => false,
        }
    }

    /// Whether a type is a word or a tuple of words alone.
    pub fn can_store(&self, t: usize) -> bool
        ensures { (u : Ty) → IsType self.now t u → result ≡ can_store u }
    {
        match self.cell(t) {
            Some(Cell::Word) => true,
            Some(Cell::Tuple(parts)) => self.known(parts).words_alone,
            _ => false,
        }
    }

    /// Whether a type has over 1,024 words or is higher than 100.
    pub fn is_too_large(&self, t: usize) -> bool
        ensures { (u : Ty) → IsType self.now t u → result ≡ is_too_large u }
    {
        let facts = self.known(t);
        facts.words > MOST_WORDS as u64 || facts.height > HIGHEST
    }

    /// The parts of a tuple's type.
    pub fn tuple_parts(&self, t: usize) -> Option<usize>
        ensures value { result ≡ tuple_of (slice_get self.now.cells t) }
        ensures store { IsStore self.now }
    {
        match self.cell(t) {
            Some(Cell::Tuple(parts)) => Some(parts),
            _ => None,
        }
    }

    /// The fields of a record's type.
    pub fn record_fields(&self, t: usize) -> Option<usize>
        ensures value { result ≡ record_in (slice_get self.now.cells t) }
        ensures store { IsStore self.now }
    {
        match self.cell(t) {
            Some(Cell::Record(fields)) => Some(fields),
            _ => None,
        }
    }

    /// The first of a list of types, and the others.
    pub fn first_part(&self, list: usize) -> Option<(usize, usize)>
        ensures value { result ≡ part_of (slice_get self.now.cells list) }
        ensures store { IsStore self.now }
    {
        match self.cell(list) {
            Some(Cell::Part(t, rest)) => Some((t, rest)),
            _ => None,
        }
    }

    /// The number of a field's name, if it has one.
    pub fn number_of(&self, name: &'a Name) -> Option<usize>
        ensures there { IfSome result (λ i. slice_get self.now.names i ≡ Some name.now) }
        ensures absent { is_none result ≡ true → (i : ℕ) → slice_get self.now.names i ≡ Some name.now → ⊥ }
    {
        self.names.get_index_of(&name)
    }
}

// Adds words, bools and empty lists to no cells.
fn add_first_cells(cells: &mut IndexSet<Cell>) -> Result<(), NoMemory>
    requires { cells.old.keys ≡ [] }
    ensures { OnOk result (cells.new.keys ≡ Cell.Word ∷ Cell.Bool ∷ Cell.NoParts ∷ Cell.NoFields ∷ []) }
{
    cells.insert(Cell::Word)?;
    cells.insert(Cell::Bool)?;
    cells.insert(Cell::NoParts)?;
    cells.insert(Cell::NoFields)?;
    Ok(())
}

// What is known by a number.
fn fact_at(facts: &[Facts], i: usize) -> Facts
    ensures { result ≡ fact_in facts.now i }
{
    facts.get(i).copied().unwrap_or(NOTHING)
}

// What is known of a cell by what is known of its parts.
fn cell_facts(facts: &[Facts], cell: Cell) -> Facts
    ensures { result ≡ facts_of_cell facts.now cell }
{
    match cell {
        Cell::Word => ONE_WORD,
        Cell::Bool => ONE_BOOL,
        Cell::NoParts => NO_WORDS,
        Cell::NoFields => NOTHING,
        Cell::Tuple(parts) | Cell::Record(parts) | Cell::Choice(parts) => {
            above(fact_at(facts, parts))
        }
        Cell::Part(t, rest) => both(t == WORD, fact_at(facts, t), fact_at(facts, rest)),
        Cell::Field(_, t) => of_field(fact_at(facts, t)),
        Cell::Both(left, right) => both(false, fact_at(facts, left), fact_at(facts, right)),
    }
}

// The facts of a tuple or record of parts with these facts.
fn above(parts: Facts) -> Facts
    ensures { result ≡ over parts }
{
    Facts {
        words: parts.words,
        height: parts.height.saturating_add(1),
        has_bool: parts.has_bool,
        words_alone: false,
    }
}

// The facts of a list of one field.
fn of_field(t: Facts) -> Facts
    ensures { result ≡ lone t }
{
    Facts {
        words: t.words,
        height: t.height,
        has_bool: t.has_bool,
        words_alone: false,
    }
}

// The facts of a list with one more type in front.
fn both(is_word: bool, t: Facts, rest: Facts) -> Facts
    ensures { result ≡ with_front is_word t rest }
{
    Facts {
        words: t.words.saturating_add(rest.words),
        height: t.height.max(rest.height),
        has_bool: t.has_bool || rest.has_bool,
        words_alone: is_word && rest.words_alone,
    }
}
