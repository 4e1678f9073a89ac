//! The homes of values.

ghost use Rattle.std.specs.Prelude.{◌≡◌, ◌++◌, map, IfOk, OnOk};
ghost use Rattle.std.specs.List.{flat_map};
ghost use Rattle.std.specs.List.Sorted.{IsPermutation, IsNonDecreasingBy};
ghost use Rattle.place_plan.specs.Fits as fits;
ghost use Rattle.place_plan.specs.Plan.{home_view};
ghost use Rattle.place_plan.specs.inner.UseViews.{use_view};
ghost use Rattle.bank_prog_form.specs.inner.Form.{value_view};
ghost use Rattle.reg_assign_reading.specs.ReadOff as pure;
ghost use Rattle.reg_assign.specs.inner.AssignmentInputs.{labels_in, says_in, numbers_in};
ghost use Rattle.reg_assign_reading.specs.inner.Reading.{says, early_word, preferred_home};

use crate::given::AssignmentInputs;
use crate::places::{home_place, origin_place, word_place};
use bank_prog::{Bank, Column, Origin, Use, Value};
use nv_base::NoMemory;
use place_plan::{Home, Place};
use reg_assign_reading::reading::Reading;
use std::alloc::Global;

/// The copy of a value in a bank, if it has one there.
fn push_fill(
    out: &mut Vec<Place>,
    g: &AssignmentInputs<'_>,
    x: u32,
    h: Bank,
) -> Result<(), NoMemory>
    ensures { OnOk result (out.new.items ≡ out.old.items ++ pure.fill_at (says_in g.now) (numbers_in g.now) x h) }
{
    if g.reading.is_on(Column::Fill(x, h)) {
        out.push(home_place(&g.numbers, h, x))?;
    }
    Ok(())
}

/// The write register of a word, if it is put early.
fn push_word(out: &mut Vec<Place>, r: &Reading<'_>, u: Use) -> Result<(), NoMemory>
    ensures { OnOk result (out.new.items ≡ out.old.items ++ early_word (says r.now) (use_view u)) }
{
    if r.goes_early(u) {
        out.push(word_place(r, u)?)?;
    }
    Ok(())
}

/// The write registers of those words that are put early.
fn push_words(out: &mut Vec<Place>, r: &Reading<'_>, us: &[Use]) -> Result<(), NoMemory>
    ensures { OnOk result (out.new.items ≡ out.old.items ++ flat_map (early_word (says r.now)) (map use_view us.now)) }
{
    for u in us {
        push_word(out, r, *u)?;
    }
    Ok(())
}

/// Where a value is copied directly after its definition.
fn copies_of(alloc: Global, g: &AssignmentInputs<'_>, x: u32) -> Result<Vec<Place>, NoMemory>
    ensures { IfOk result (λ v. v.items ≡ pure.copies_of (labels_in g.now) (says_in g.now) (numbers_in g.now) x) }
{
    let mut copied = Vec::new(alloc);
    push_fill(&mut copied, g, x, Bank::A)?;
    push_fill(&mut copied, g, x, Bank::B)?;
    push_fill(&mut copied, g, x, Bank::M)?;
    push_words(&mut copied, &g.reading, g.reading.bank.form.uses_of(x))?;
    Ok(copied)
}

/// The write register of the first of these uses.
fn first_word(r: &Reading<'_>, us: &[Use]) -> Result<Place, NoMemory>
    ensures { IfOk result (λ q. q ≡ pure.first_word (says r.now) (map use_view us.now)) }
{
    match us.first() {
        Some(u) => word_place(r, *u),
        None => Ok(Place::Slot(0)),
    }
}

/// The home of a value that its definition puts into a bank, or else right into the write register of its use.
fn put_home(alloc: Global, g: &AssignmentInputs<'_>, x: u32) -> Result<Home, NoMemory>
    ensures { IfOk result (λ h. home_view h ≡ pure.put_home (labels_in g.now) (says_in g.now) (numbers_in g.now) x (pure.def_bank (says_in g.now) x)) }
{
    match g.reading.def_bank(x) {
        Some(h) => Ok(Home {
            var: x,
            defined: home_place(&g.numbers, h, x),
            copied: copies_of(alloc, g, x)?,
        }),
        None => Ok(Home {
            var: x,
            defined: first_word(&g.reading, g.reading.bank.form.uses_of(x))?,
            copied: Vec::new(alloc),
        }),
    }
}

/// The home of a value.
fn value_home(alloc: Global, g: &AssignmentInputs<'_>, v: Value) -> Result<Home, NoMemory>
    ensures { IfOk result (λ h. home_view h ≡ pure.value_home (labels_in g.now) (says_in g.now) (numbers_in g.now) (value_view v)) }
{
    match v.origin {
        Origin::Parameter(_, _) => put_home(alloc, g, v.var),
        Origin::Result => put_home(alloc, g, v.var),
        Origin::Fetched(_, _) => Ok(Home {
            var: v.var,
            defined: origin_place(&g.reading, v)?,
            copied: copies_of(alloc, g, v.var)?,
        }),
    }
}

/// Whether a value wants a home: each does but a read one without a use.
fn wants_home(g: &AssignmentInputs<'_>, v: Value) -> bool
    ensures { result ≡ fits.wants_home (labels_in g.now) (value_view v) }
{
    match v.origin {
        Origin::Parameter(_, _) => true,
        Origin::Result => true,
        Origin::Fetched(_, _) => g.reading.bank.form.is_used(v.var),
    }
}

/// The home of a value, if it wants one.
fn push_home(
    alloc: Global,
    out: &mut Vec<Home>,
    g: &AssignmentInputs<'_>,
    v: Value,
) -> Result<(), NoMemory>
    ensures { OnOk result (map home_view out.new.items ≡ map home_view out.old.items ++ preferred_home (labels_in g.now) (says_in g.now) (numbers_in g.now) (value_view v)) }
{
    if wants_home(g, v) {
        out.push(value_home(alloc, g, v)?)?;
    }
    Ok(())
}

/// The homes of those of these values that want one.
pub fn homes_of(
    alloc: Global,
    g: &AssignmentInputs<'_>,
    values: &[Value],
) -> Result<Vec<Home>, NoMemory>
    ensures { IfOk result (λ v. map home_view v.items ≡ flat_map (preferred_home (labels_in g.now) (says_in g.now) (numbers_in g.now)) (map value_view values.now)) }
{
    let mut homes = Vec::new(alloc);
    for v in values {
        push_home(alloc, &mut homes, g, *v)?;
    }
    Ok(homes)
}

/// Homes by rising variable.
pub fn by_variable(homes: Vec<Home>) -> Vec<Home>
    ensures same { IsPermutation homes.items result.items }
    ensures sorted { IsNonDecreasingBy (λ h. h.var) result.items }
{
    let mut sorted = homes;
    sorted.sort_unstable_by_key(|h| h.var);
    sorted
}
