// Symbolic values.

ghost use Rattle.std.specs.Prelude.{◌≡◌, ◌≤◌, ◌+◌, ◌++◌, IfOk, OnOk};
ghost use Rattle.nv_ast.specs.Types.{words, total_words, total_named_words};
ghost use Rattle.nv_flatten_values.specs.inner.Symbols.{operands, all_operands, named_operands, form, forms, named_forms, fresh, all_fresh, named_fresh, numbers_from, words_symbol, word_symbols, word_operand, truth_operand, fields_of, field_named};
ghost use Rattle.nv_flatten_values.specs.inner.View.{view, list_symbols, list_named_symbols};

use crate::want::{made, put};
use flat_ir::Step;
use nv_ast::Name;
use nv_base::{Atom, NoMemory};
use std::alloc::Global;

/// A value at compile time: a word, a truth (1 or 0), a tuple, or a record of named values, with an
/// operand in place of each word.
#[derive(Drop)]
pub enum Symbol<'a> {
    Word(Atom),
    Truth(Atom),
    Tuple(Vec<Symbol<'a>>),
    Record(Vec<(&'a Name, Symbol<'a>)>),
}

/// Steps, and the symbolic value that an expression has after them.
#[derive(Drop)]
pub struct Valued<'a> {
    pub steps: Vec<Step>,
    pub symbol: Symbol<'a>,
}

/// A field of a record: its name and its value.
pub type Field<'a> = (&'a Name, Symbol<'a>);

/// The operand of a word, the literal 0 of anything else.
pub fn word_in(s: &Symbol) -> Atom
    ensures { result ≡ word_operand (view s.now) }
{
    match s {
        Symbol::Word(a) => *a,
        _ => Atom::Lit(0),
    }
}

/// The operand of a truth, the literal 0 of anything else.
pub fn truth_in(s: &Symbol) -> Atom
    ensures { result ≡ truth_operand (view s.now) }
{
    match s {
        Symbol::Truth(a) => *a,
        _ => Atom::Lit(0),
    }
}

/// The field of a name, the literal 0 where there is none.
#[tactic(auto, using(crate::proofs::Rows::tuple_view, crate::proofs::Rows::record_view))]
pub fn field_in<'a>(s: Symbol<'a>, x: &Name) -> Symbol<'a>
    ensures { view result ≡ field_named x.now (fields_of (view s.entry)) }
{
    match s {
        Symbol::Record(fields) => field_among(fields, x),
        _ => Symbol::Word(Atom::Lit(0)),
    }
}

fn field_among<'a>(fields: Vec<Field<'a>>, x: &Name) -> Symbol<'a>
    ensures { view result ≡ field_named x.now (list_named_symbols fields.entry.items) }
{
    for field in fields {
        if *x == *field.0 {
            return field.1;
        }
    }
    Symbol::Word(Atom::Lit(0))
}

/// A copy of a symbolic value.
#[cycle(copied)]
#[tactic(auto, using(crate::proofs::Rows::tuple_view, crate::proofs::Rows::record_view))]
pub fn copied<'a>(alloc: Global, s: &Symbol<'a>) -> Result<Symbol<'a>, NoMemory>
    ensures { IfOk result (λ copy. view copy ≡ view s.now) }
{
    match s {
        Symbol::Word(a) => Ok(Symbol::Word(*a)),
        Symbol::Truth(a) => Ok(Symbol::Truth(*a)),
        Symbol::Tuple(parts) => Ok(Symbol::Tuple(copied_all(alloc, parts)?)),
        Symbol::Record(fields) => Ok(Symbol::Record(copied_fields(alloc, fields)?)),
    }
}

#[cycle(copied)]
fn copied_all<'a>(alloc: Global, ss: &[Symbol<'a>]) -> Result<Vec<Symbol<'a>>, NoMemory>
    ensures { IfOk result (λ copy. list_symbols copy.items ≡ list_symbols ss.now) }
{
    let mut copy = Vec::with_capacity(alloc, ss.len())?;
    for s in ss {
        copy.push(copied(alloc, s)?)?;
    }
    Ok(copy)
}

#[cycle(copied)]
fn copied_fields<'a>(alloc: Global, fields: &[Field<'a>]) -> Result<Vec<Field<'a>>, NoMemory>
    ensures { IfOk result (λ copy. list_named_symbols copy.items ≡ list_named_symbols fields.now) }
{
    let mut copy = Vec::with_capacity(alloc, fields.len())?;
    for field in fields {
        copy.push((field.0, copied(alloc, &field.1)?))?;
    }
    Ok(copy)
}

// ---- operands

/// The operands of a symbolic value, in the order of its words.
pub fn operands_in(alloc: Global, s: &Symbol) -> Result<Vec<Atom>, NoMemory>
    ensures { IfOk result (λ found. found.items ≡ operands (view s.now)) }
{
    let mut found = Vec::new(alloc);
    add_operands(s, &mut found)?;
    Ok(found)
}

/// The operands of some symbolic values, in order.
pub fn all_operands_in(alloc: Global, ss: &[Symbol]) -> Result<Vec<Atom>, NoMemory>
    ensures { IfOk result (λ found. found.items ≡ all_operands (list_symbols ss.now)) }
{
    let mut found = Vec::new(alloc);
    add_all_operands(ss, &mut found)?;
    Ok(found)
}

#[cycle(add_operands)]
#[tactic(auto, using(crate::proofs::Rows::tuple_view, crate::proofs::Rows::record_view))]
fn add_operands(s: &Symbol, found: &mut Vec<Atom>) -> Result<(), NoMemory>
    ensures { OnOk result (found.new.items ≡ found.old.items ++ operands (view s.now)) }
{
    match s {
        Symbol::Word(a) => Ok(found.push(*a)?),
        Symbol::Truth(a) => Ok(found.push(*a)?),
        Symbol::Tuple(parts) => add_all_operands(parts, found),
        Symbol::Record(fields) => add_field_operands(fields, found),
    }
}

#[cycle(add_operands)]
fn add_all_operands(ss: &[Symbol], found: &mut Vec<Atom>) -> Result<(), NoMemory>
    ensures { OnOk result (found.new.items ≡ found.old.items ++ all_operands (list_symbols ss.now)) }
{
    for s in ss {
        add_operands(s, found)?;
    }
    Ok(())
}

#[cycle(add_operands)]
fn add_field_operands(fields: &[Field], found: &mut Vec<Atom>) -> Result<(), NoMemory>
    ensures { OnOk result (found.new.items ≡ found.old.items ++ named_operands (list_named_symbols fields.now)) }
{
    for field in fields {
        add_operands(&field.1, found)?;
    }
    Ok(())
}

/// Some words as a symbolic value: one is itself, others are their tuple.
#[tactic(auto, using(crate::proofs::Rows::tuple_view, crate::proofs::Rows::record_view))]
pub fn symbol_of_words<'a>(alloc: Global, words: &[Atom]) -> Result<Symbol<'a>, NoMemory>
    ensures { IfOk result (λ s. view s ≡ words_symbol words.now) }
{
    if words.len() == 1 {
        Ok(Symbol::Word(words[0]))
    } else {
        Ok(Symbol::Tuple(tuple_of_words(alloc, words)?))
    }
}

fn tuple_of_words<'a>(alloc: Global, words: &[Atom]) -> Result<Vec<Symbol<'a>>, NoMemory>
    ensures { IfOk result (λ ss. list_symbols ss.items ≡ word_symbols words.now) }
{
    let mut ss = Vec::with_capacity(alloc, words.len())?;
    for w in words {
        ss.push(Symbol::Word(*w))?;
    }
    Ok(ss)
}

// ---- new variables

/// The number of a new variable. There are fewer than memory holds.
pub fn new_variable(next: &mut u32) -> Result<u32, NoMemory>
    ensures number { IfOk result (λ x. x ≡ next.old) }
    ensures next { OnOk result (next.new ≡ next.old + 1) }
    ensures later { next.old ≤ next.new }
{
    let x = *next;
    if x == u32::MAX {
        return Err(NoMemory);
    }
    *next = x + 1;
    Ok(x)
}

/// A symbolic value of the same form, of new variables; they are added to a list.
#[cycle(renewed)]
#[tactic(auto, using(crate::proofs::Rows::tuple_view, crate::proofs::Rows::record_view))]
pub fn renewed<'a>(
    alloc: Global,
    s: &Symbol<'a>,
    next: &mut u32,
    made: &mut Vec<u32>,
) -> Result<Symbol<'a>, NoMemory>
    ensures symbol { IfOk result (λ new. view new ≡ fresh next.old (form (view s.now))) }
    ensures next { OnOk result (next.new ≡ next.old + words (form (view s.now))) }
    ensures made { OnOk result (made.new.items ≡ made.old.items ++ numbers_from next.old (words (form (view s.now)))) }
    ensures later { next.old ≤ next.new }
{
    match s {
        Symbol::Word(_) => Ok(Symbol::Word(Atom::Var(add_variable(next, made)?))),
        Symbol::Truth(_) => Ok(Symbol::Truth(Atom::Var(add_variable(next, made)?))),
        Symbol::Tuple(parts) => Ok(Symbol::Tuple(renewed_all(alloc, parts, next, made)?)),
        Symbol::Record(fields) => Ok(Symbol::Record(renewed_fields(alloc, fields, next, made)?)),
    }
}

/// The number of a new variable, which is added to a list.
pub fn add_variable(next: &mut u32, made: &mut Vec<u32>) -> Result<u32, NoMemory>
    ensures number { IfOk result (λ x. x ≡ next.old) }
    ensures next { OnOk result (next.new ≡ next.old + 1) }
    ensures made { OnOk result (made.new.items ≡ made.old.items ++ numbers_from next.old 1) }
    ensures later { next.old ≤ next.new }
{
    let x = new_variable(next)?;
    made.push(x)?;
    Ok(x)
}

#[cycle(renewed)]
fn renewed_all<'a>(
    alloc: Global,
    ss: &[Symbol<'a>],
    next: &mut u32,
    made: &mut Vec<u32>,
) -> Result<Vec<Symbol<'a>>, NoMemory>
    ensures symbols { IfOk result (λ new. list_symbols new.items ≡ all_fresh next.old (forms (list_symbols ss.now))) }
    ensures next { OnOk result (next.new ≡ next.old + total_words (forms (list_symbols ss.now))) }
    ensures made { OnOk result (made.new.items ≡ made.old.items ++ numbers_from next.old (total_words (forms (list_symbols ss.now)))) }
    ensures later { next.old ≤ next.new }
{
    let mut new = Vec::with_capacity(alloc, ss.len())?;
    for s in ss {
        let one = made!(renewed(alloc, s, next, made), new);
        put!(new, one, new);
    }
    Ok(new)
}

#[cycle(renewed)]
fn renewed_fields<'a>(
    alloc: Global,
    fields: &[Field<'a>],
    next: &mut u32,
    made: &mut Vec<u32>,
) -> Result<Vec<Field<'a>>, NoMemory>
    ensures symbols { IfOk result (λ new. list_named_symbols new.items ≡ named_fresh next.old (named_forms (list_named_symbols fields.now))) }
    ensures next { OnOk result (next.new ≡ next.old + total_named_words (named_forms (list_named_symbols fields.now))) }
    ensures made { OnOk result (made.new.items ≡ made.old.items ++ numbers_from next.old (total_named_words (named_forms (list_named_symbols fields.now)))) }
    ensures later { next.old ≤ next.new }
{
    let mut new = Vec::with_capacity(alloc, fields.len())?;
    for field in fields {
        let one = made!(renewed(alloc, &field.1, next, made), new);
        put!(new, (field.0, one), new);
    }
    Ok(new)
}
