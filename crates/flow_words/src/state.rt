// What is known of variables where a tree stands, and the checks of what is put in their place.

ghost use Rattle.std.specs.Prelude.{◌≡◌, true, not, ◌&&◌, nat_lt, OnOk};
ghost use Rattle.std.specs.List.{list_all};
ghost use Rattle.nv_base.specs.Access as access;
ghost use Rattle.nv_base.specs.Words.{HasPrimCount};
ghost use Rattle.flow_words.specs.Definitions as definitions;
ghost use Rattle.flow_words.specs.Tables as tables;
ghost use Rattle.flow_words.specs.Tables.{look, blank as nothing_known, itself as only_itself};
ghost use Rattle.flow_words.specs.inner.Undone.{undone, IsSet};

use crate::bits::{Bit, bits_of};
use nv_base::{Atom, NoMemory, Prim, Una};
use std::alloc::Global;

/// What is known of a variable: whether it is in scope, and then a primitive that has its word, and its bits.
#[derive(Clone, Copy)]
pub struct Known {
    pub live: bool,
    pub made: Prim,
    pub bits: [Bit; 32],
}

/// What is known of a variable that isn't in scope.
pub fn blank() -> Known
    ensures { result ≡ nothing_known }
{
    Known {
        live: false,
        made: Prim::Same(Atom::Lit(0)),
        bits: [Bit::Unknown; 32],
    }
}

/// What is known of a variable in scope without a definition.
pub fn itself(x: u32) -> Known
    ensures { result ≡ only_itself x }
{
    Known {
        live: true,
        made: Prim::Same(Atom::Var(x)),
        bits: [Bit::Unknown; 32],
    }
}

/// What is known of a variable with this definition.
pub fn of_prim(table: &[Known], q: Prim) -> Known
    ensures { result ≡ definitions.of_prim (look table.now) q }
{
    Known {
        live: true,
        made: q,
        bits: bits_of(table, q),
    }
}

/// What is known of a variable.
pub fn known_of(table: &[Known], x: u32) -> Known
    ensures { result ≡ look table.now x }
{
    let i = x as usize;
    if i < table.len() { table[i] } else { blank() }
}

// From now on this is known of a variable.
fn set(table: &mut Vec<Known>, x: u32, k: Known) -> Result<(), NoMemory>
    ensures { OnOk result (IsSet (look table.old.items) x k (look table.new.items)) }
{
    let i = x as usize;
    while table.len() <= i {
        table.push(blank())?;
    }
    table[i] = k;
    Ok(())
}

/// The same, and what was known of it is saved.
pub fn save(
    table: &mut Vec<Known>,
    saved: &mut Vec<(u32, Known)>,
    x: u32,
    k: Known,
) -> Result<(), NoMemory>
    ensures table { OnOk result (look table.new.items ≡ tables.with_known (look table.old.items) x k) }
    ensures saved { OnOk result (undone saved.new.items (look table.new.items) ≡ undone saved.old.items (look table.old.items)) }
{
    let old = known_of(table, x);
    saved.push((x, old))?;
    set(table, x, k)
}

/// What was saved is known again.
pub fn restore(table: &mut Vec<Known>, mut saved: Vec<(u32, Known)>) -> Result<(), NoMemory>
    ensures { OnOk result (look table.new.items ≡ undone saved.items (look table.old.items)) }
{
    while let Some(s) = saved.pop() {
        set(table, s.0, s.1)?;
    }
    Ok(())
}

/// Whether a variable is below this one.
pub fn is_below(x: u32, base: u32) -> bool
    ensures { result ≡ nat_lt x base }
{
    x < base
}

/// Whether a variable isn't in scope yet, and may have this definition.
pub fn may_define(table: &[Known], x: u32, q: Prim) -> bool
    ensures { result ≡ (not (look table.now x).live && tables.is_settled (look table.now) q) }
{
    !known_of(table, x).live && is_settled(table, q)
}

/// Whether two checks are passed.
pub fn both(a: bool, b: bool) -> bool
    ensures { result ≡ (a && b) }
{
    a && b
}

/// Whether an operand is a literal or in scope.
pub fn is_live(table: &[Known], a: Atom) -> bool
    ensures { result ≡ tables.is_live (look table.now) a }
{
    match a {
        Atom::Var(x) => known_of(table, x).live,
        Atom::Lit(_) => true,
    }
}

/// Whether an operand is a literal, or a variable below this one.
pub fn is_old(base: u32, a: Atom) -> bool
    ensures { result ≡ tables.is_old base a }
{
    match a {
        Atom::Var(x) => x < base,
        Atom::Lit(_) => true,
    }
}

/// Whether all these operands are.
pub fn are_old(base: u32, atoms: &[Atom]) -> bool
    ensures { result ≡ list_all (tables.is_old base) atoms.now }
{
    for a in atoms {
        if !is_old(base, *a) {
            return false;
        }
    }
    true
}

// Whether the count of a shift is 1 to 31.
fn has_count(op: Una) -> bool
    ensures { result ≡ access.has_count op }
{
    match op {
        Una::Not => true,
        Una::Shl(k) => 1 <= k && k <= 31,
        Una::Shr(k) => 1 <= k && k <= 31,
        Una::Rol(k) => 1 <= k && k <= 31,
    }
}

/// Whether a primitive may stand here: its variables are in scope, and a shift's count is 1 to 31.
pub fn is_settled(table: &[Known], p: Prim) -> bool
    ensures { result ≡ tables.is_settled (look table.now) p }
{
    match p {
        Prim::Same(a) => is_live(table, a),
        Prim::Una(op, a) => has_count(op) && is_live(table, a),
        Prim::Bin(_, a, b) => is_live(table, a) && is_live(table, b),
    }
}

/// Whether the count of a primitive's shift is 1 to 31.
pub fn is_counted(p: Prim) -> bool
    ensures { result ≡ true → HasPrimCount p }
{
    match p {
        Prim::Same(_) => true,
        Prim::Una(op, _) => has_count(op),
        Prim::Bin(_, _, _) => true,
    }
}

/// Whether its operands are so, and a shift's count is 1 to 31.
pub fn is_old_prim(base: u32, p: Prim) -> bool
    ensures { result ≡ tables.is_old_prim base p }
{
    match p {
        Prim::Same(a) => is_old(base, a),
        Prim::Una(op, a) => has_count(op) && is_old(base, a),
        Prim::Bin(_, a, b) => is_old(base, a) && is_old(base, b),
    }
}
