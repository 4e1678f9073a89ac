// Packing: words out of the fields of a record, by shifts.

ghost use Rattle.std.specs.Prelude.{◌≡◌, ◌≤◌, ◌+◌, ◌*◌, ◌/◌, ◌^◌, take, length, slice_index, bit_or, true, false, [], ◌∷◌, IfOk, OnOk, MatchOption};
ghost use Rattle.nv_base.specs.declared.term.Atom.TheVariants.{Lit};
ghost use Rattle.nv_base.specs.Words.{Env};
ghost use Rattle.nv_ast.specs.Bits.{bits as bits_in};
ghost use Rattle.nv_ast.specs.LayoutView.{layout_tree, field_tree, list_fields, list_layouts};
ghost use Rattle.nv_ast.specs.Outline.{outline, outlines, field_outline, field_outlines, size as bit_size, total_size, total_named_size, longest, IsSound, AllSound, AllNamedSound};
ghost use Rattle.nv_meaning.specs.Values.{word_of, fields_of as value_fields, field_named as value_named};
ghost use Rattle.nv_meaning.specs.Packing.{bits_of, parts_bits, chosen_bits, joined_bits};
ghost use Rattle.nv_meaning_values.specs.inner.TableView.{declared_in};
ghost use Rattle.nv_flatten_values.specs.inner.Reads.{Makes, Writes, has_symbol};
ghost use Rattle.nv_flatten_values.specs.inner.Symbols.{Word, value_in, fields_of, field_named};
ghost use Rattle.nv_flatten_values.specs.inner.View.{view, list_named_symbols};
ghost use Rattle.nv_flatten_values.specs.inner.Adds.{AddsLets, AddsWord, AddsWords};
ghost use Rattle.nv_flatten_values.specs.inner.Written.{packed_fields, packed_layout, packed_parts, packed_chosen, packed_joined, WritesFew};

use crate::parts::{define, shifted};
use crate::symbol::{Field, Symbol, word_in};
use crate::unpack::between;
use flat_ir::Step;
use nv_ast::{FieldText, LayoutText, Name, ShiftOp};
use nv_base::{Atom, Bin, NoMemory, Prim};
use nv_meaning_values::Table;

/// Writes the bits of a layout from a place on, and answers the place after them. Gaps are zeros
/// already.
#[cycle(write)]
pub fn write_layout<'a>(
    t: &Table<'a>,
    l: &'a LayoutText,
    limit: usize,
    s: &Symbol<'a>,
    words: &mut [Atom],
    at: u64,
    steps: &mut Vec<Step>,
    next: &mut u32,
) -> Result<u64, NoMemory>
    requires inside { at + bit_size (outline (take limit (declared_in t.now).layouts) (layout_tree l.now)) ≤ 32 * length words.old }
    requires few { length words.old ≤ 2 ^ 33 }
    ensures writes { OnOk result (Writes (IsSound (outline (take limit (declared_in t.now).layouts) (layout_tree l.now))) next.old next.new (view s.now) steps.old.items steps.new.items words.old words.new at (λ v. bits_of (outline (take limit (declared_in t.now).layouts) (layout_tree l.now)) v)) }
    ensures behind { IfOk result (λ i. (env : Env) → i ≡ at + length (bits_of (outline (take limit (declared_in t.now).layouts) (layout_tree l.now)) (value_in env (view s.now)))) }
    ensures well { OnOk result (AddsWords next.old next.new (view s.now) steps.old.items steps.new.items words.old words.new) }
    ensures bounds { IfOk result (λ i. WritesFew (packed_layout (outline (take limit (declared_in t.now).layouts) (layout_tree l.now)) (view s.now)) (view s.now) steps.old.items steps.new.items words.old words.new at i) }
    ensures later { next.old ≤ next.new }
{
    match l {
        LayoutText::Named(x) => match t.layout(x, limit) {
            Some((named, before)) => write_layout(t, named, before, s, words, at, steps, next),
            None => Ok(at),
        },
        LayoutText::Gap(n) => Ok(at + *n as u64),
        LayoutText::Parts(fs) => write_parts(t, fs, limit, s, words, at, steps, next),
        LayoutText::Joined(ls) => write_joined(t, ls, limit, s, words, at, steps, next),
    }
}

#[cycle(write)]
fn write_joined<'a>(
    t: &Table<'a>,
    ls: &'a [LayoutText],
    limit: usize,
    s: &Symbol<'a>,
    words: &mut [Atom],
    first: u64,
    steps: &mut Vec<Step>,
    next: &mut u32,
) -> Result<u64, NoMemory>
    requires inside { first + total_size (outlines (take limit (declared_in t.now).layouts) (list_layouts ls.now)) ≤ 32 * length words.old }
    requires few { length words.old ≤ 2 ^ 33 }
    ensures writes { OnOk result (Writes (AllSound (outlines (take limit (declared_in t.now).layouts) (list_layouts ls.now))) next.old next.new (view s.now) steps.old.items steps.new.items words.old words.new first (λ v. joined_bits (outlines (take limit (declared_in t.now).layouts) (list_layouts ls.now)) v)) }
    ensures behind { IfOk result (λ i. (env : Env) → i ≡ first + length (joined_bits (outlines (take limit (declared_in t.now).layouts) (list_layouts ls.now)) (value_in env (view s.now)))) }
    ensures well { OnOk result (AddsWords next.old next.new (view s.now) steps.old.items steps.new.items words.old words.new) }
    ensures bounds { IfOk result (λ i. WritesFew (packed_joined (outlines (take limit (declared_in t.now).layouts) (list_layouts ls.now)) (view s.now)) (view s.now) steps.old.items steps.new.items words.old words.new first i) }
    ensures later { next.old ≤ next.new }
{
    let mut at = first;
    for l in ls {
        at = write_layout(t, l, limit, s, words, at, steps, next)?;
    }
    Ok(at)
}

#[cycle(write)]
fn write_parts<'a>(
    t: &Table<'a>,
    fs: &'a [(Name, FieldText)],
    limit: usize,
    s: &Symbol<'a>,
    words: &mut [Atom],
    first: u64,
    steps: &mut Vec<Step>,
    next: &mut u32,
) -> Result<u64, NoMemory>
    requires inside { first + total_named_size (field_outlines (take limit (declared_in t.now).layouts) (list_fields fs.now)) ≤ 32 * length words.old }
    requires few { length words.old ≤ 2 ^ 33 }
    ensures writes { OnOk result (Writes (AllNamedSound (field_outlines (take limit (declared_in t.now).layouts) (list_fields fs.now))) next.old next.new (view s.now) steps.old.items steps.new.items words.old words.new first (λ v. parts_bits (field_outlines (take limit (declared_in t.now).layouts) (list_fields fs.now)) (value_fields v))) }
    ensures behind { IfOk result (λ i. (env : Env) → i ≡ first + length (parts_bits (field_outlines (take limit (declared_in t.now).layouts) (list_fields fs.now)) (value_fields (value_in env (view s.now))))) }
    ensures well { OnOk result (AddsWords next.old next.new (view s.now) steps.old.items steps.new.items words.old words.new) }
    ensures bounds { IfOk result (λ i. WritesFew (packed_parts (field_outlines (take limit (declared_in t.now).layouts) (list_fields fs.now)) (fields_of (view s.now))) (view s.now) steps.old.items steps.new.items words.old words.new first i) }
    ensures later { next.old ≤ next.new }
{
    let mut at = first;
    for f in fs {
        at = write_part(t, f, limit, s, words, at, steps, next)?;
    }
    Ok(at)
}

// Writes a field of a record, as 0 where the record has none of its name.
#[cycle(write)]
fn write_part<'a>(
    t: &Table<'a>,
    f: &'a (Name, FieldText),
    limit: usize,
    s: &Symbol<'a>,
    words: &mut [Atom],
    at: u64,
    steps: &mut Vec<Step>,
    next: &mut u32,
) -> Result<u64, NoMemory>
    requires inside { at + bit_size (field_outline (take limit (declared_in t.now).layouts) (field_tree f.now.1)) ≤ 32 * length words.old }
    requires few { length words.old ≤ 2 ^ 33 }
    ensures writes { OnOk result (Writes (IsSound (field_outline (take limit (declared_in t.now).layouts) (field_tree f.now.1))) next.old next.new (view s.now) steps.old.items steps.new.items words.old words.new at (λ v. bits_of (field_outline (take limit (declared_in t.now).layouts) (field_tree f.now.1)) (value_named f.now.0 (value_fields v)))) }
    ensures behind { IfOk result (λ i. (env : Env) → i ≡ at + length (bits_of (field_outline (take limit (declared_in t.now).layouts) (field_tree f.now.1)) (value_named f.now.0 (value_fields (value_in env (view s.now)))))) }
    ensures well { OnOk result (AddsWords next.old next.new (view s.now) steps.old.items steps.new.items words.old words.new) }
    ensures bounds { IfOk result (λ i. WritesFew (packed_fields (field_outline (take limit (declared_in t.now).layouts) (field_tree f.now.1)) (field_named f.now.0 (fields_of (view s.now)))) (view s.now) steps.old.items steps.new.items words.old words.new at i) }
    ensures later { next.old ≤ next.new }
{
    match part(s, &f.0) {
        Some(p) => write_field(t, &f.1, limit, p, words, at, steps, next),
        None => {
            let none = Symbol::Word(Atom::Lit(0));
            write_field(t, &f.1, limit, &none, words, at, steps, next)
        }
    }
}

// Writes the first alternative that the record has.
#[cycle(write)]
fn write_chosen<'a>(
    t: &Table<'a>,
    fs: &'a [(Name, FieldText)],
    limit: usize,
    s: &Symbol<'a>,
    words: &mut [Atom],
    at: u64,
    steps: &mut Vec<Step>,
    next: &mut u32,
) -> Result<u64, NoMemory>
    requires inside { at + longest (field_outlines (take limit (declared_in t.now).layouts) (list_fields fs.now)) ≤ 32 * length words.old }
    requires few { length words.old ≤ 2 ^ 33 }
    ensures writes { OnOk result (Writes (AllNamedSound (field_outlines (take limit (declared_in t.now).layouts) (list_fields fs.now))) next.old next.new (view s.now) steps.old.items steps.new.items words.old words.new at (λ v. chosen_bits (field_outlines (take limit (declared_in t.now).layouts) (list_fields fs.now)) (value_fields v))) }
    ensures behind { IfOk result (λ i. (env : Env) → i ≡ at + length (chosen_bits (field_outlines (take limit (declared_in t.now).layouts) (list_fields fs.now)) (value_fields (value_in env (view s.now))))) }
    ensures well { OnOk result (AddsWords next.old next.new (view s.now) steps.old.items steps.new.items words.old words.new) }
    ensures bounds { IfOk result (λ i. WritesFew (packed_chosen (field_outlines (take limit (declared_in t.now).layouts) (list_fields fs.now)) (fields_of (view s.now))) (view s.now) steps.old.items steps.new.items words.old words.new at i) }
    ensures later { next.old ≤ next.new }
{
    for f in fs {
        match part(s, &f.0) {
            Some(p) => return write_field(t, &f.1, limit, p, words, at, steps, next),
            None => {}
        }
    }
    Ok(at)
}

#[cycle(write)]
fn write_field<'a>(
    t: &Table<'a>,
    f: &'a FieldText,
    limit: usize,
    s: &Symbol<'a>,
    words: &mut [Atom],
    at: u64,
    steps: &mut Vec<Step>,
    next: &mut u32,
) -> Result<u64, NoMemory>
    requires inside { at + bit_size (field_outline (take limit (declared_in t.now).layouts) (field_tree f.now)) ≤ 32 * length words.old }
    requires few { length words.old ≤ 2 ^ 33 }
    ensures writes { OnOk result (Writes (IsSound (field_outline (take limit (declared_in t.now).layouts) (field_tree f.now))) next.old next.new (view s.now) steps.old.items steps.new.items words.old words.new at (λ v. bits_of (field_outline (take limit (declared_in t.now).layouts) (field_tree f.now)) v)) }
    ensures behind { IfOk result (λ i. (env : Env) → i ≡ at + length (bits_of (field_outline (take limit (declared_in t.now).layouts) (field_tree f.now)) (value_in env (view s.now)))) }
    ensures well { OnOk result (AddsWords next.old next.new (view s.now) steps.old.items steps.new.items words.old words.new) }
    ensures bounds { IfOk result (λ i. WritesFew (packed_fields (field_outline (take limit (declared_in t.now).layouts) (field_tree f.now)) (view s.now)) (view s.now) steps.old.items steps.new.items words.old words.new at i) }
    ensures later { next.old ≤ next.new }
{
    match f {
        FieldText::Bits(n) => {
            write_bits(*n, word_in(s), words, at, steps, next)?;
            Ok(at + *n as u64)
        }
        FieldText::Inner(l) => write_layout(t, l, limit, s, words, at, steps, next),
        FieldText::Overlay(fs) => write_chosen(t, fs, limit, s, words, at, steps, next),
    }
}

// The field of a name.
fn part<'b, 'a>(s: &'b Symbol<'a>, x: &Name) -> Option<&'b Symbol<'a>>
    ensures { MatchOption result ((has_symbol x.now (fields_of (view s.now)) ≡ false) × (field_named x.now (fields_of (view s.now)) ≡ Word (Lit 0))) (λ p. (has_symbol x.now (fields_of (view s.now)) ≡ true) × (field_named x.now (fields_of (view s.now)) ≡ view p.now)) }
{
    part_among(fields_in(s), x)
}

// The fields of a record, none of anything else.
#[tactic(auto, using(crate::proofs::Rows::tuple_view, crate::proofs::Rows::record_view))]
fn fields_in<'b, 'a>(s: &'b Symbol<'a>) -> &'b [Field<'a>]
    ensures { list_named_symbols result.now ≡ fields_of (view s.now) }
{
    match s {
        Symbol::Record(fields) => fields,
        _ => &[],
    }
}

fn part_among<'b, 'a>(fields: &'b [Field<'a>], x: &Name) -> Option<&'b Symbol<'a>>
    ensures { MatchOption result ((has_symbol x.now (list_named_symbols fields.now) ≡ false) × (field_named x.now (list_named_symbols fields.now) ≡ Word (Lit 0))) (λ p. (has_symbol x.now (list_named_symbols fields.now) ≡ true) × (field_named x.now (list_named_symbols fields.now) ≡ view p.now)) }
{
    for field in fields {
        if *x == *field.0 {
            return Some(&field.1);
        }
    }
    None
}

// ---- words

// Writes the n lowest bits of a word, of which there are 1 to 32.
fn write_bits(
    n: u32,
    word: Atom,
    words: &mut [Atom],
    at: u64,
    steps: &mut Vec<Step>,
    next: &mut u32,
) -> Result<(), NoMemory>
    requires inside { at + n ≤ 32 * length words.old }
    requires few { length words.old ≤ 2 ^ 33 }
    ensures writes { OnOk result (Writes ((1 ≤ n) × (n ≤ 32)) next.old next.new (Word word) steps.old.items steps.new.items words.old words.new at (λ v. bits_in n (word_of v))) }
    ensures well { OnOk result (AddsLets next.old next.new (word ∷ words.old) steps.old.items steps.new.items words.new) }
    ensures bounds { OnOk result (WritesFew 1 (Word word) steps.old.items steps.new.items words.old words.new at (at + n)) }
    ensures later { next.old ≤ next.new }
{
    if n == 0 || n > 32 {
        return Ok(());
    }
    let place = (at / 32) as usize;
    let first = (at % 32) as u32;
    let high = between(word, 32 - n, first, steps, next)?;
    let whole = joined(words[place], high, steps, next)?;
    if first + n > 32 {
        let low = shifted(ShiftOp::Left, word, 64 - first - n, steps, next)?;
        words[place] = whole;
        words[place + 1] = low;
    } else {
        words[place] = whole;
    }
    Ok(())
}

// Two words joined bit by bit: the second, where the first is the literal 0.
fn joined(so_far: Atom, more: Atom, steps: &mut Vec<Step>, next: &mut u32) -> Result<Atom, NoMemory>
    ensures makes { IfOk result (λ a. Makes (1 ≤ 1) next.old next.new (so_far ∷ more ∷ []) steps.old.items steps.new.items a (λ ws. bit_or (slice_index ws 0) (slice_index ws 1))) }
    ensures well { IfOk result (λ a. AddsLets next.old next.new (so_far ∷ more ∷ []) steps.old.items steps.new.items (a ∷ [])) }
    ensures bounds { IfOk result (λ a. AddsWord (so_far ∷ more ∷ []) steps.old.items steps.new.items a 3 1) }
    ensures later { next.old ≤ next.new }
{
    match so_far {
        Atom::Lit(0) => Ok(more),
        _ => {
            let x = define(Prim::Bin(Bin::Or, so_far, more), steps, next)?;
            Ok(Atom::Var(x))
        }
    }
}
