//! Whether each way keeps the facts of a table.

ghost use Rattle.std.specs.Prelude.{◌≡◌, ◌<◌, ℕ, true, length};
ghost use Rattle.uc_isa.specs.Program.{IsLawfulWithin, IsProgram};
ghost use Rattle.uc_isa.specs.Resources.{IsNext};
ghost use Rattle.uc_peep_facts.specs.Facts.{AreKept, AreOf, known, known_at};

use crate::fact::Facts;
use crate::flow::facts_after;
use crate::idle::is_known;
use uc_isa::{Cond, Instr};

// Whether each of the first facts is among the second.
fn are_known(facts: &Facts, others: &Facts) -> bool
    ensures { result ≡ true → AreOf (known facts.now) (known others.now) }
{
    for k in 0..facts.len() {
        if let Some(f) = facts.get(k) {
            if !is_known(&f, others) {
                return false;
            }
        }
    }
    true
}

// Whether the facts of a place are among these.
fn arrives(table: &[Facts], y: usize, out: &Facts) -> bool
    requires { y < length table.now }
    ensures { result ≡ true → AreOf (known_at table.now y) (known out.now) }
{
    are_known(&table[y], out)
}

// Whether the facts of each next place are among these.
fn all_arrive(i: &Instr, x: usize, table: &[Facts], out: &Facts) -> bool
    requires lawful { IsLawfulWithin (length table.now) x i.now }
    requires inside { x < length table.now }
    ensures { result ≡ true → (y : ℕ) → IsNext i.now x y → AreOf (known_at table.now y) (known out.now) }
{
    match i {
        Instr::Halt { .. } => true,
        Instr::Br { cond, target } => match cond {
            Cond::Always => arrives(table, *target as usize, out),
            _ => arrives(table, *target as usize, out) && arrives(table, x + 1, out),
        },
        _ => arrives(table, x + 1, out),
    }
}

/// Whether each way keeps the facts, and none stands where the engine begins.
pub(crate) fn are_kept(code: &[Instr], table: &[Facts]) -> bool
    requires lawful { IsProgram code.now }
    requires table { length table.now ≡ length code.now }
    ensures { result ≡ true → AreKept code.now table.now }
{
    if table[0].len() != 0 {
        return false;
    }
    for x in 0..code.len() {
        let out = facts_after(&code[x], &table[x]);
        if !all_arrive(&code[x], x, table, &out) {
            return false;
        }
    }
    true
}
