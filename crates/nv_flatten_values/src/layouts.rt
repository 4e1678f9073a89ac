// Records in and out of packed words, by the name of a layout.

ghost use Rattle.std.specs.Prelude.{◌≡◌, ◌≤◌, ◌+◌, ◌*◌, ◌^◌, min, take, length, [], IfOk, ◌/◌, replicate, true};
ghost use Rattle.nv_base.specs.Words.{Env, atom_words};
ghost use Rattle.nv_ast.specs.Bits.{packed as packed_bits};
ghost use Rattle.nv_ast.specs.LayoutView.{layout_tree};
ghost use Rattle.nv_ast.specs.Outline.{outline, size as bit_size, bit_fields, IsSound};
ghost use Rattle.nv_ast.specs.Tree.{NamedLayout};
ghost use Rattle.nv_ast.specs.Types.{packed_words, unpacked_ty, packed_ty, can_pack, form_of};
ghost use Rattle.nv_meaning.specs.Packing.{value_at, packed_value};
ghost use Rattle.nv_meaning_values.specs.inner.TableView.{declared_in};
ghost use Rattle.nv_flatten_values.specs.inner.Code.{Computes};
ghost use Rattle.nv_flatten_values.specs.inner.Reads.{Unpacks, Packs};
ghost use Rattle.nv_flatten_values.specs.inner.Soundness.{AreWords};
ghost use Rattle.nv_flatten_values.specs.inner.Symbols.{form, operands, value_in, Fits, AreOlder};
ghost use Rattle.nv_flatten_values.specs.inner.View.{view};
ghost use Rattle.nv_flatten_values.specs.inner.Well.{AreWellLets};
ghost use Rattle.nv_flatten_values.specs.inner.Narrow.{AreNarrowLets};
ghost use Rattle.nv_flatten_values.specs.inner.Small.{AreFewLets, PacksFew};
ghost use Rattle.nv_base.specs.declared.term.Atom.TheVariants.{Lit};

use crate::declarations_want::made;
use crate::pack::write_layout;
use crate::symbol::{Symbol, Valued, symbol_of_words};
use crate::unpack::add_fields;
use nv_ast::{LayoutText, Name};
use nv_base::{Atom, NoMemory};
use nv_meaning_values::Table;
use std::alloc::Global;

// N words that no number holds their bits are more than memory holds.
const MOST_WORDS: usize = 1 << 32;

/// The steps that unpack words by a layout, and the record of its fields.
pub fn unpacked<'a>(
    alloc: Global,
    t: &Table<'a>,
    l: &'a Name,
    words: &[Atom],
    next: &mut u32,
) -> Result<Valued<'a>, NoMemory>
    ensures value { IfOk result (λ r. IsSound (outline (declared_in t.now).layouts (NamedLayout l.now)) → length words.now ≡ packed_words (outline (declared_in t.now).layouts (NamedLayout l.now)) → AreOlder next.old words.now → (env : Env) → AreWords (atom_words env words.now) → Computes next.old r.steps.items env (λ new. (value_in new (view r.symbol) ≡ value_at (outline (declared_in t.now).layouts (NamedLayout l.now)) (packed_bits (atom_words env words.now))) × Fits new (view r.symbol))) }
    ensures formed { IfOk result (λ r. form (view r.symbol) ≡ unpacked_ty (outline (declared_in t.now).layouts (NamedLayout l.now))) }
    ensures older { IfOk result (λ r. AreOlder next.old words.now → AreOlder next.new (operands (view r.symbol))) }
    ensures well { IfOk result (λ r. IsSound (outline (declared_in t.now).layouts (NamedLayout l.now)) → length words.now ≡ packed_words (outline (declared_in t.now).layouts (NamedLayout l.now)) → AreWellLets next.old next.new words.now r.steps.items (operands (view r.symbol))) }
    ensures later { next.old ≤ next.new }
    ensures narrow { IfOk result (λ r. AreNarrowLets words.now r.steps.items (operands (view r.symbol))) }
    ensures small { IfOk result (λ r. AreFewLets r.steps.items (4 * length (bit_fields 0 (outline (declared_in t.now).layouts (NamedLayout l.now))))) }
{
    if words.len() > MOST_WORDS {
        return Err(NoMemory);
    }
    match t.layout(l, t.layouts.len()) {
        Some((text, limit)) => record(alloc, t, text, limit, words, next),
        None => Ok(Valued {
            steps: Vec::new(alloc),
            symbol: Symbol::Record(Vec::new(alloc)),
        }),
    }
}

// The record of a layout.
fn record<'a>(
    alloc: Global,
    t: &Table<'a>,
    l: &'a LayoutText,
    limit: usize,
    words: &[Atom],
    next: &mut u32,
) -> Result<Valued<'a>, NoMemory>
    requires { length words.now ≤ 2 ^ 32 }
    ensures unpacks { IfOk result (λ r. Unpacks (outline (take limit (declared_in t.now).layouts) (layout_tree l.now)) next.old next.new words.now r.steps.items (view r.symbol)) }
    ensures well { IfOk result (λ r. AreWellLets next.old next.new words.now r.steps.items (operands (view r.symbol))) }
    ensures later { next.old ≤ next.new }
    ensures narrow { IfOk result (λ r. AreNarrowLets words.now r.steps.items (operands (view r.symbol))) }
    ensures small { IfOk result (λ r. AreFewLets r.steps.items (4 * length (bit_fields 0 (outline (take limit (declared_in t.now).layouts) (layout_tree l.now))))) }
{
    let mut steps = Vec::new(alloc);
    let mut fields = Vec::new(alloc);
    made!(
        add_fields(alloc, t, l, limit, words, 0, &mut steps, next, &mut fields),
        steps,
        fields
    );
    Ok(Valued {
        steps,
        symbol: Symbol::Record(fields),
    })
}

// A layout of more bits has more words than memory holds.
const MOST_BITS: u64 = 1 << 37;

/// The steps that pack a record by a layout, and the packed words.
pub fn packed<'a>(
    alloc: Global,
    t: &Table<'a>,
    l: &'a Name,
    s: &Symbol<'a>,
    next: &mut u32,
) -> Result<Valued<'a>, NoMemory>
    ensures value { IfOk result (λ r. IsSound (outline (declared_in t.now).layouts (NamedLayout l.now)) → can_pack (form_of (outline (declared_in t.now).layouts (NamedLayout l.now))) (form (view s.now)) ≡ true → AreOlder next.old (operands (view s.now)) → (env : Env) → Fits env (view s.now) → Computes next.old r.steps.items env (λ new. (value_in new (view r.symbol) ≡ packed_value (outline (declared_in t.now).layouts (NamedLayout l.now)) (value_in env (view s.now))) × Fits new (view r.symbol))) }
    ensures formed { IfOk result (λ r. form (view r.symbol) ≡ packed_ty (outline (declared_in t.now).layouts (NamedLayout l.now))) }
    ensures older { IfOk result (λ r. AreOlder next.old (operands (view s.now)) → AreOlder next.new (operands (view r.symbol))) }
    ensures well { IfOk result (λ r. IsSound (outline (declared_in t.now).layouts (NamedLayout l.now)) → can_pack (form_of (outline (declared_in t.now).layouts (NamedLayout l.now))) (form (view s.now)) ≡ true → AreWellLets next.old next.new (operands (view s.now)) r.steps.items (operands (view r.symbol))) }
    ensures narrow { IfOk result (λ r. AreNarrowLets (operands (view s.now)) r.steps.items (operands (view r.symbol))) }
    ensures small { IfOk result (λ r. IsSound (outline (declared_in t.now).layouts (NamedLayout l.now)) → can_pack (form_of (outline (declared_in t.now).layouts (NamedLayout l.now))) (form (view s.now)) ≡ true → PacksFew (outline (declared_in t.now).layouts (NamedLayout l.now)) (operands (view s.now)) r.steps.items) }
    ensures later { next.old ≤ next.new }
{
    match t.layout(l, t.layouts.len()) {
        Some((text, limit)) => {
            let bits = t.size_of(l);
            written(alloc, t, text, limit, bits, s, next)
        }
        None => {
            let symbol = symbol_of_words(alloc, &[])?;
            Ok(Valued {
                steps: Vec::new(alloc),
                symbol,
            })
        }
    }
}

// The words of a layout of so many bits.
fn written<'a>(
    alloc: Global,
    t: &Table<'a>,
    l: &'a LayoutText,
    limit: usize,
    bits: u64,
    s: &Symbol<'a>,
    next: &mut u32,
) -> Result<Valued<'a>, NoMemory>
    requires { bits ≡ min (bit_size (outline (take limit (declared_in t.now).layouts) (layout_tree l.now))) u64.MAX }
    ensures packs { IfOk result (λ r. Packs (outline (take limit (declared_in t.now).layouts) (layout_tree l.now)) next.old next.new (view s.now) r.steps.items (view r.symbol)) }
    ensures well { IfOk result (λ r. AreWellLets next.old next.new (operands (view s.now)) r.steps.items (operands (view r.symbol))) }
    ensures narrow { IfOk result (λ r. AreNarrowLets (operands (view s.now)) r.steps.items (operands (view r.symbol))) }
    ensures small { IfOk result (λ r. IsSound (outline (take limit (declared_in t.now).layouts) (layout_tree l.now)) → can_pack (form_of (outline (take limit (declared_in t.now).layouts) (layout_tree l.now))) (form (view s.now)) ≡ true → PacksFew (outline (take limit (declared_in t.now).layouts) (layout_tree l.now)) (operands (view s.now)) r.steps.items) }
    ensures later { next.old ≤ next.new }
{
    if bits > MOST_BITS {
        return Err(NoMemory);
    }
    let mut words = zeros(alloc, (bits as usize + 31) / 32)?;
    let mut steps = Vec::new(alloc);
    made!(
        write_layout(t, l, limit, s, &mut words, 0, &mut steps, next),
        steps
    );
    let symbol = made!(symbol_of_words(alloc, &words), steps);
    Ok(Valued { steps, symbol })
}

// So many literals 0.
fn zeros(alloc: Global, count: usize) -> Result<Vec<Atom>, NoMemory>
    ensures { IfOk result (λ words. words.items ≡ replicate count (Lit 0)) }
{
    Ok(vec![in alloc; Atom::Lit(0); count]?)
}
