//! Which columns a placement has on.

ghost use Rattle.std.specs.Prelude.{◌≡◌, nat_eq, not, ◌&&◌, map, if◌then◌else◌, IfOk};
ghost use Rattle.std.specs.List.{list_any};
ghost use Rattle.ssu_ir.specs.View.{labels_view};
ghost use Rattle.place_plan.specs.Order.{IsInOrder};
ghost use Rattle.place_plan.specs.Plan.{plan_view};
ghost use Rattle.place_plan.specs.Uses.{uses_of};
ghost use Rattle.place_plan.specs.inner.UseViews.{role_view, use_view};
ghost use Rattle.bank_prog_form.specs.Program as program;
ghost use Rattle.bank_prog_form.specs.declared.column.Bank.TheVariants.{A15};
ghost use Rattle.reg_assign_reading.specs.inner.Chosen as chosen;
ghost use Rattle.reg_assign_reading.specs.inner.PlanTables as tables;

use bank_prog::{Bank, Column, Form, Role, Use};
use nv_base::NoMemory;
use place_plan::Place;
use reg_assign_reading::plan::PlanTables;
use std::alloc::Global;

// ---- places and banks

fn same_bank(h: Bank, j: Bank) -> bool
    ensures { result ≡ program.same_bank h j }
{
    h == j
}

/// The bank of a home, or of a write register in which a word waits.
fn bank_of(q: Place) -> Bank
    ensures { result ≡ chosen.bank_of q }
{
    match q {
        Place::A(_) => Bank::A,
        Place::B(_) => Bank::B,
        Place::L(_) => Bank::T,
        Place::LD(_) => Bank::T,
        Place::S(_) => Bank::W,
        Place::SD(_) => Bank::W,
        Place::Slot(_) => Bank::M,
    }
}

fn is_in_bank(h: Bank, q: Place) -> bool
    ensures { result ≡ chosen.is_in_bank h q }
{
    same_bank(h, bank_of(q))
}

fn is_first(q: Place) -> bool
    ensures { result ≡ chosen.is_first q }
{
    match q {
        Place::A(_) => true,
        Place::B(_) => false,
        Place::L(_) => false,
        Place::LD(_) => false,
        Place::S(_) => false,
        Place::SD(_) => false,
        Place::Slot(_) => false,
    }
}

/// The compiler's own register, where a word is brought into the first bank.
fn brought(q: Place, h: Bank) -> Bank
    ensures { result ≡ (if chosen.is_first q then A15 else h) }
{
    if is_first(q) { Bank::A15 } else { h }
}

/// Where an operand or an address is taken, from a bank at a place.
fn operand_bank(h: Bank, q: Place) -> Bank
    ensures { result ≡ chosen.operand_bank h q }
{
    match h {
        Bank::A => Bank::A,
        Bank::B => brought(q, Bank::B),
        Bank::M => brought(q, Bank::L),
        Bank::T => brought(q, Bank::T),
        Bank::L => Bank::W,
        Bank::A15 => Bank::W,
        Bank::W => Bank::W,
    }
}

/// Where a use wants its word.
fn preferred_bank(role: Role, h: Bank, q: Place) -> Bank
    ensures { result ≡ chosen.preferred_bank (role_view role) h q }
{
    match role {
        Role::Operand => operand_bank(h, q),
        Role::Address => operand_bank(h, q),
        Role::Written(_, _) => Bank::W,
        Role::Argument(_, _) => bank_of(q),
        Role::Ending(_) => Bank::A,
    }
}

// ---- what the tables say

fn defined_of(t: &PlanTables<'_>, x: u32) -> Place
    requires { IsInOrder (plan_view t.now.placement.now) }
    ensures { result ≡ tables.defined_told t.now x }
{
    t.placement.defined_of(x)
}

fn copied_of<'a>(t: &PlanTables<'a>, x: u32) -> &'a [Place]
    requires { IsInOrder (plan_view t.now.placement.now) }
    ensures { result.now ≡ tables.copied_told t.now x }
{
    t.placement.copied_of(x)
}

fn first_of(t: &PlanTables<'_>, k: u32) -> u8
    requires { IsInOrder (plan_view t.now.placement.now) }
    ensures { result ≡ tables.first_told t.now k }
{
    t.placement.first_of(k as u128)
}

fn from_of(t: &PlanTables<'_>, k: u32, i: u32) -> Place
    requires { IsInOrder (plan_view t.now.placement.now) }
    ensures { result ≡ tables.from_told t.now k i }
{
    t.placement.serve_of(k as u128, i as u128).0
}

fn at_of(t: &PlanTables<'_>, k: u32, i: u32) -> Place
    requires { IsInOrder (plan_view t.now.placement.now) }
    ensures { result ≡ tables.at_told t.now k i }
{
    t.placement.serve_of(k as u128, i as u128).1
}

fn l_of(t: &PlanTables<'_>, k: u32) -> Option<u8>
    requires { IsInOrder (plan_view t.now.placement.now) }
    ensures { result ≡ tables.l_told t.now k }
{
    t.placement.pass_of(k as u128).0
}

fn s_of(t: &PlanTables<'_>, k: u32) -> Option<u8>
    requires { IsInOrder (plan_view t.now.placement.now) }
    ensures { result ≡ tables.s_told t.now k }
{
    t.placement.pass_of(k as u128).1
}

fn value_of(t: &PlanTables<'_>, k: u32, i: u32) -> u32
    ensures { result ≡ tables.value_told t.now k i }
{
    match t.uses.get(&(k, i)) {
        Some(u) => u.value,
        None => 0,
    }
}

fn role_of(t: &PlanTables<'_>, k: u32, i: u32) -> Role
    ensures { role_view result ≡ tables.role_told t.now k i }
{
    match t.uses.get(&(k, i)) {
        Some(u) => u.role,
        None => Role::Operand,
    }
}

fn point_of(t: &PlanTables<'_>, x: u32) -> u32
    ensures { result ≡ tables.point_told t.now x }
{
    match t.points.get(&x) {
        Some(k) => *k,
        None => 0,
    }
}

// ---- columns

fn waits(t: &PlanTables<'_>, k: u32, i: u32) -> bool
    requires { IsInOrder (plan_view t.now.placement.now) }
    ensures { result ≡ tables.waits_told t.now k i }
{
    from_of(t, k, i).is_written()
}

fn goes_there(t: &PlanTables<'_>, x: u32) -> bool
    requires { IsInOrder (plan_view t.now.placement.now) }
    ensures { result ≡ tables.goes_told t.now x }
{
    defined_of(t, x).is_written()
}

fn has_copy(t: &PlanTables<'_>, x: u32, h: Bank) -> bool
    requires { IsInOrder (plan_view t.now.placement.now) }
    ensures { result ≡ list_any (chosen.is_in_bank h) (tables.copied_told t.now x) }
{
    let qs = copied_of(t, x);
    for q in qs {
        if is_in_bank(h, *q) {
            return true;
        }
    }
    false
}

fn stays(t: &PlanTables<'_>, us: &[Use]) -> bool
    requires { IsInOrder (plan_view t.now.placement.now) }
    ensures { result ≡ tables.stays_told t.now (map use_view us.now) }
{
    for u in us {
        if from_of(t, u.point, u.operand).is_read() {
            return true;
        }
    }
    false
}

fn names(named: Option<u8>, r: u8) -> bool
    ensures { result ≡ chosen.names named r }
{
    match named {
        Some(n) => n == r,
        None => false,
    }
}

fn begins(t: &PlanTables<'_>, k: u32, f: u8) -> bool
    requires { IsInOrder (plan_view t.now.placement.now) }
    ensures { result ≡ nat_eq (tables.first_told t.now k) f }
{
    first_of(t, k) == f
}

/// The definition of a value puts the word of a use into its write register.
fn is_put(t: &PlanTables<'_>, k: u32, i: u32, f: u8) -> bool
    requires { IsInOrder (plan_view t.now.placement.now) }
    ensures { result ≡ (nat_eq (tables.first_told t.now k) f && (tables.waits_told t.now k i && tables.goes_told t.now (tables.value_told t.now k i))) }
{
    let begun = begins(t, k, f);
    let early = waits(t, k, i);
    let there = goes_there(t, value_of(t, k, i));
    begun && (early && there)
}

/// The word of a use is copied early into its write register.
fn is_copied(t: &PlanTables<'_>, k: u32, i: u32, f: u8) -> bool
    requires { IsInOrder (plan_view t.now.placement.now) }
    ensures { result ≡ (nat_eq (tables.first_told t.now k) f && (tables.waits_told t.now k i && not (tables.goes_told t.now (tables.value_told t.now k i)))) }
{
    let begun = begins(t, k, f);
    let early = waits(t, k, i);
    let there = goes_there(t, value_of(t, k, i));
    begun && (early && !there)
}

/// A value stays in its read register.
fn is_kept(f: &Form<'_>, t: &PlanTables<'_>, x: u32, n: u8) -> bool
    requires { IsInOrder (plan_view t.now.placement.now) }
    ensures { result ≡ (nat_eq (tables.first_told t.now (tables.point_told t.now x)) n && tables.stays_told t.now (uses_of (labels_view f.now.ssu.now) x)) }
{
    let begun = begins(t, point_of(t, x), n);
    let stay = stays(t, f.uses_of(x));
    begun && stay
}

/// A use is served from one bank at another.
fn is_way(t: &PlanTables<'_>, k: u32, i: u32, h: Bank, j: Bank) -> bool
    requires { IsInOrder (plan_view t.now.placement.now) }
    ensures { result ≡ (chosen.is_in_bank h (tables.from_told t.now k i) && program.same_bank j (chosen.preferred_bank (tables.role_told t.now k i) (chosen.bank_of (tables.from_told t.now k i)) (tables.at_told t.now k i))) }
{
    let q = from_of(t, k, i);
    let wanted = preferred_bank(role_of(t, k, i), bank_of(q), at_of(t, k, i));
    let from = is_in_bank(h, q);
    let at = same_bank(j, wanted);
    from && at
}

fn is_on(f: &Form<'_>, t: &PlanTables<'_>, c: Column) -> bool
    requires { IsInOrder (plan_view t.now.placement.now) }
    ensures { result ≡ tables.told (labels_view f.now.ssu.now) t.now c }
{
    match c {
        Column::Def(x, h) => is_in_bank(h, defined_of(t, x)),
        Column::DirectWrite(k, i, n) => is_put(t, k, i, n),
        Column::Fill(x, h) => has_copy(t, x, h),
        Column::Stay(x, n) => is_kept(f, t, x, n),
        Column::EarlyWrite(k, i, n) => is_copied(t, k, i, n),
        Column::First(k, n) => begins(t, k, n),
        Column::Serve(k, i, h, j) => is_way(t, k, i, h, j),
        Column::ReadVia(k, r) => names(l_of(t, k), r),
        Column::WriteVia(k, r) => names(s_of(t, k), r),
    }
}

/// Of each of these columns whether it is on.
pub fn all_on(
    alloc: Global,
    f: &Form<'_>,
    t: &PlanTables<'_>,
    columns: &[Column],
) -> Result<Vec<bool>, NoMemory>
    requires { IsInOrder (plan_view t.now.placement.now) }
    ensures { IfOk result (λ v. v.items ≡ map (tables.told (labels_view f.now.ssu.now) t.now) columns.now) }
{
    let mut on = Vec::new(alloc);
    for c in columns {
        on.push(is_on(f, t, *c))?;
    }
    Ok(on)
}
