// Unpacking: the fields of packed words by shifts.

ghost use Rattle.std.specs.Prelude.{◌≡◌, ◌≤◌, ◌+◌, ◌*◌, ◌^◌, min, take, length, slice_index, [], ◌∷◌, IfOk, OnOk};
ghost use Rattle.nv_base.specs.Words.{shifted_left, shifted_right};
ghost use Rattle.nv_ast.specs.Bits.{number, slice, packed as packed_bits};
ghost use Rattle.nv_ast.specs.LayoutView.{layout_tree, field_tree, list_fields, list_layouts};
ghost use Rattle.nv_ast.specs.Outline.{outline, outlines, field_outline, field_outlines, size as bit_size, total_size, total_named_size, longest, bit_fields, part_fields, alternative_fields, joined_fields};
ghost use Rattle.nv_meaning_values.specs.inner.TableView.{declared_in};
ghost use Rattle.nv_flatten_values.specs.inner.Reads.{Makes, ReadsRecord, ReadsJoined, ReadsParts, ReadsAlternatives, ReadsField};
ghost use Rattle.nv_flatten_values.specs.inner.View.{list_named_symbols};
ghost use Rattle.nv_flatten_values.specs.inner.Adds.{AddsLets, AddsFields, AddsWord};
ghost use Rattle.nv_flatten_values.specs.inner.FewReads.{ReadsFew};

use crate::parts::{define, shifted};
use crate::symbol::{Field, Symbol};
use crate::want::{made, put};
use flat_ir::Step;
use nv_ast::{FieldText, LayoutText, Name, ShiftOp};
use nv_base::{Atom, Bin, NoMemory, Prim};
use nv_meaning_values::Table;
use std::alloc::Global;

/// Adds the fields of a layout's record, whose bits begin at a place, and answers the place behind
/// them, or the greatest number.
#[cycle(unpack)]
pub fn add_fields<'a>(
    alloc: Global,
    t: &Table<'a>,
    l: &'a LayoutText,
    limit: usize,
    words: &[Atom],
    at: u64,
    steps: &mut Vec<Step>,
    next: &mut u32,
    fields: &mut Vec<Field<'a>>,
) -> Result<u64, NoMemory>
    requires { length words.now ≤ 2 ^ 32 }
    ensures reads { OnOk result (ReadsRecord (outline (take limit (declared_in t.now).layouts) (layout_tree l.now)) at next.old next.new words.now steps.old.items steps.new.items (list_named_symbols fields.old.items) (list_named_symbols fields.new.items)) }
    ensures behind { IfOk result (λ i. i ≡ min (at + bit_size (outline (take limit (declared_in t.now).layouts) (layout_tree l.now))) u64.MAX) }
    ensures well { OnOk result (AddsFields next.old next.new words.now steps.old.items steps.new.items (list_named_symbols fields.old.items) (list_named_symbols fields.new.items)) }
    ensures later { next.old ≤ next.new }
    ensures bounds { OnOk result (ReadsFew words.now steps.old.items steps.new.items (list_named_symbols fields.old.items) (list_named_symbols fields.new.items) (length (bit_fields 0 (outline (take limit (declared_in t.now).layouts) (layout_tree l.now))))) }
{
    match l {
        LayoutText::Named(x) => match t.layout(x, limit) {
            Some((named, before)) => {
                add_fields(alloc, t, named, before, words, at, steps, next, fields)
            }
            None => Ok(at),
        },
        LayoutText::Gap(n) => Ok(at.saturating_add(*n as u64)),
        LayoutText::Parts(fs) => add_parts(alloc, t, fs, limit, words, at, steps, next, fields),
        LayoutText::Joined(ls) => add_joined(alloc, t, ls, limit, words, at, steps, next, fields),
    }
}

#[cycle(unpack)]
fn add_joined<'a>(
    alloc: Global,
    t: &Table<'a>,
    ls: &'a [LayoutText],
    limit: usize,
    words: &[Atom],
    first: u64,
    steps: &mut Vec<Step>,
    next: &mut u32,
    fields: &mut Vec<Field<'a>>,
) -> Result<u64, NoMemory>
    requires { length words.now ≤ 2 ^ 32 }
    ensures reads { OnOk result (ReadsJoined (outlines (take limit (declared_in t.now).layouts) (list_layouts ls.now)) first next.old next.new words.now steps.old.items steps.new.items (list_named_symbols fields.old.items) (list_named_symbols fields.new.items)) }
    ensures behind { IfOk result (λ i. i ≡ min (first + total_size (outlines (take limit (declared_in t.now).layouts) (list_layouts ls.now))) u64.MAX) }
    ensures well { OnOk result (AddsFields next.old next.new words.now steps.old.items steps.new.items (list_named_symbols fields.old.items) (list_named_symbols fields.new.items)) }
    ensures later { next.old ≤ next.new }
    ensures bounds { OnOk result (ReadsFew words.now steps.old.items steps.new.items (list_named_symbols fields.old.items) (list_named_symbols fields.new.items) (length (joined_fields 0 (outlines (take limit (declared_in t.now).layouts) (list_layouts ls.now))))) }
{
    let mut at = first;
    for l in ls {
        at = add_fields(alloc, t, l, limit, words, at, steps, next, fields)?;
    }
    Ok(at)
}

#[cycle(unpack)]
fn add_parts<'a>(
    alloc: Global,
    t: &Table<'a>,
    fs: &'a [(Name, FieldText)],
    limit: usize,
    words: &[Atom],
    first: u64,
    steps: &mut Vec<Step>,
    next: &mut u32,
    fields: &mut Vec<Field<'a>>,
) -> Result<u64, NoMemory>
    requires { length words.now ≤ 2 ^ 32 }
    ensures reads { OnOk result (ReadsParts (field_outlines (take limit (declared_in t.now).layouts) (list_fields fs.now)) first next.old next.new words.now steps.old.items steps.new.items (list_named_symbols fields.old.items) (list_named_symbols fields.new.items)) }
    ensures behind { IfOk result (λ i. i ≡ min (first + total_named_size (field_outlines (take limit (declared_in t.now).layouts) (list_fields fs.now))) u64.MAX) }
    ensures well { OnOk result (AddsFields next.old next.new words.now steps.old.items steps.new.items (list_named_symbols fields.old.items) (list_named_symbols fields.new.items)) }
    ensures later { next.old ≤ next.new }
    ensures bounds { OnOk result (ReadsFew words.now steps.old.items steps.new.items (list_named_symbols fields.old.items) (list_named_symbols fields.new.items) (length (part_fields 0 (field_outlines (take limit (declared_in t.now).layouts) (list_fields fs.now))))) }
{
    let mut at = first;
    for f in fs {
        at = add_field(alloc, t, f, limit, words, at, steps, next, fields)?;
    }
    Ok(at)
}

#[cycle(unpack)]
fn add_alternatives<'a>(
    alloc: Global,
    t: &Table<'a>,
    fs: &'a [(Name, FieldText)],
    limit: usize,
    words: &[Atom],
    at: u64,
    steps: &mut Vec<Step>,
    next: &mut u32,
    fields: &mut Vec<Field<'a>>,
) -> Result<u64, NoMemory>
    requires { length words.now ≤ 2 ^ 32 }
    ensures reads { OnOk result (ReadsAlternatives (field_outlines (take limit (declared_in t.now).layouts) (list_fields fs.now)) at next.old next.new words.now steps.old.items steps.new.items (list_named_symbols fields.old.items) (list_named_symbols fields.new.items)) }
    ensures behind { IfOk result (λ i. i ≡ min (at + longest (field_outlines (take limit (declared_in t.now).layouts) (list_fields fs.now))) u64.MAX) }
    ensures well { OnOk result (AddsFields next.old next.new words.now steps.old.items steps.new.items (list_named_symbols fields.old.items) (list_named_symbols fields.new.items)) }
    ensures later { next.old ≤ next.new }
    ensures bounds { OnOk result (ReadsFew words.now steps.old.items steps.new.items (list_named_symbols fields.old.items) (list_named_symbols fields.new.items) (length (alternative_fields 0 (field_outlines (take limit (declared_in t.now).layouts) (list_fields fs.now))))) }
{
    let mut last = at;
    for f in fs {
        let behind = add_field(alloc, t, f, limit, words, at, steps, next, fields)?;
        last = last.max(behind);
    }
    Ok(last)
}

// Adds a field whose bits begin at a place, and answers the place after them.
#[cycle(unpack)]
fn add_field<'a>(
    alloc: Global,
    t: &Table<'a>,
    f: &'a (Name, FieldText),
    limit: usize,
    words: &[Atom],
    at: u64,
    steps: &mut Vec<Step>,
    next: &mut u32,
    fields: &mut Vec<Field<'a>>,
) -> Result<u64, NoMemory>
    requires { length words.now ≤ 2 ^ 32 }
    ensures reads { OnOk result (ReadsField f.now.0 (field_outline (take limit (declared_in t.now).layouts) (field_tree f.now.1)) at next.old next.new words.now steps.old.items steps.new.items (list_named_symbols fields.old.items) (list_named_symbols fields.new.items)) }
    ensures behind { IfOk result (λ i. i ≡ min (at + bit_size (field_outline (take limit (declared_in t.now).layouts) (field_tree f.now.1))) u64.MAX) }
    ensures well { OnOk result (AddsFields next.old next.new words.now steps.old.items steps.new.items (list_named_symbols fields.old.items) (list_named_symbols fields.new.items)) }
    ensures later { next.old ≤ next.new }
    ensures bounds { OnOk result (ReadsFew words.now steps.old.items steps.new.items (list_named_symbols fields.old.items) (list_named_symbols fields.new.items) (length (bit_fields 0 (field_outline (take limit (declared_in t.now).layouts) (field_tree f.now.1))))) }
{
    match &f.1 {
        FieldText::Bits(n) => {
            let word = word_at(words, at, *n, steps, next)?;
            put!(fields, (&f.0, Symbol::Word(word)));
            Ok(at.saturating_add(*n as u64))
        }
        FieldText::Inner(l) => {
            let mut inner = Vec::new(alloc);
            let behind = made!(
                add_fields(alloc, t, l, limit, words, at, steps, next, &mut inner),
                inner
            );
            put!(fields, (&f.0, Symbol::Record(inner)));
            Ok(behind)
        }
        FieldText::Overlay(fs) => {
            let mut inner = Vec::new(alloc);
            let behind = made!(
                add_alternatives(alloc, t, fs, limit, words, at, steps, next, &mut inner),
                inner
            );
            put!(fields, (&f.0, Symbol::Record(inner)));
            Ok(behind)
        }
    }
}

// The number of 1 to 32 bits from a place on.
fn word_at(
    words: &[Atom],
    at: u64,
    n: u32,
    steps: &mut Vec<Step>,
    next: &mut u32,
) -> Result<Atom, NoMemory>
    requires { length words.now ≤ 2 ^ 32 }
    ensures makes { IfOk result (λ a. Makes ((1 ≤ n) × (n ≤ 32) × (at + n ≤ 32 * length words.now)) next.old next.new words.now steps.old.items steps.new.items a (λ ws. number (slice at n (packed_bits ws)))) }
    ensures well { IfOk result (λ a. AddsLets next.old next.new words.now steps.old.items steps.new.items (a ∷ [])) }
    ensures later { next.old ≤ next.new }
    ensures bounds { IfOk result (λ a. AddsWord words.now steps.old.items steps.new.items a 5 4) }
{
    let behind = at.saturating_add(n as u64);
    if n == 0 || n > 32 || behind > words.len() as u64 * 32 {
        return Ok(Atom::Lit(0));
    }
    let place = (at / 32) as usize;
    let first = (at % 32) as u32;
    if first + n <= 32 {
        between(words[place], first, 32 - n, steps, next)
    } else {
        across(words[place], words[place + 1], first, n, steps, next)
    }
}

/// A word shifted to the left, and then to the right.
pub fn between(
    word: Atom,
    left: u32,
    right: u32,
    steps: &mut Vec<Step>,
    next: &mut u32,
) -> Result<Atom, NoMemory>
    requires left { left ≤ 31 }
    requires right { right ≤ 31 }
    ensures makes { IfOk result (λ a. Makes (1 ≤ 1) next.old next.new (word ∷ []) steps.old.items steps.new.items a (λ ws. shifted_right right (shifted_left left (slice_index ws 0)))) }
    ensures well { IfOk result (λ a. AddsLets next.old next.new (word ∷ []) steps.old.items steps.new.items (a ∷ [])) }
    ensures later { next.old ≤ next.new }
    ensures bounds { IfOk result (λ a. AddsWord (word ∷ []) steps.old.items steps.new.items a 4 2) }
{
    let raised = shifted(ShiftOp::Left, word, left, steps, next)?;
    let lowered = shifted(ShiftOp::Right, raised, right, steps, next)?;
    Ok(lowered)
}

// The number of n bits, of which the first are the last ones of a word, and the rest the first ones
// of the next word.
fn across(
    word: Atom,
    following: Atom,
    first: u32,
    n: u32,
    steps: &mut Vec<Step>,
    next: &mut u32,
) -> Result<Atom, NoMemory>
    requires first { first ≤ 31 }
    requires n { n ≤ 32 }
    requires both { 33 ≤ first + n }
    ensures makes { IfOk result (λ a. Makes (1 ≤ 1) next.old next.new (word ∷ following ∷ []) steps.old.items steps.new.items a (λ ws. number (slice first n (packed_bits ws)))) }
    ensures well { IfOk result (λ a. AddsLets next.old next.new (word ∷ following ∷ []) steps.old.items steps.new.items (a ∷ [])) }
    ensures later { next.old ≤ next.new }
    ensures bounds { IfOk result (λ a. AddsWord (word ∷ following ∷ []) steps.old.items steps.new.items a 5 4) }
{
    let high = between(word, first, 32 - n, steps, next)?;
    let low = shifted(ShiftOp::Right, following, 64 - first - n, steps, next)?;
    let x = define(Prim::Bin(Bin::Or, high, low), steps, next)?;
    Ok(Atom::Var(x))
}
