// Facts that are likely to stand at each place. Whether each way keeps them is tested afterwards.

ghost use Rattle.std.specs.Prelude.{◌≡◌, ◌<◌, length};
ghost use Rattle.uc_isa.specs.Program.{IsProgram};

use crate::equal::is_same_fact;
use crate::fact::Facts;
use crate::flow::facts_after;
use crate::idle::is_idle;
use uc_isa::{Cond, Instr};
use uc_peep::LiveSet;

/// So many times all places are gone through, at most.
const SWEEPS: u32 = 1000;

// Whether the first facts have one of the second ones.
fn has_fact(facts: &Facts, others: &Facts, k: usize) -> bool {
    match others.get(k) {
        Some(f) => {
            for j in 0..32 {
                if let Some(g) = facts.get(j) {
                    if is_same_fact(&g, &f) {
                        return true;
                    }
                }
            }
            false
        }
        None => true,
    }
}

// The facts that are among both.
fn common(facts: &Facts, others: &Facts) -> Facts {
    let mut both = Facts::none();
    for k in 0..32 {
        if has_fact(others, facts, k) {
            if let Some(f) = facts.get(k) {
                both.push(f);
            }
        }
    }
    both
}

// Leaves at a place what also stands on this way to it. Where that is less than before, the place is to be looked at.
fn arrive(table: &mut [Facts], reached: &mut [bool], due: &mut [bool], y: usize, out: &Facts)
    ensures table { length table.new ≡ length table.old }
    ensures reached { length reached.new ≡ length reached.old }
    ensures due { length due.new ≡ length due.old }
{
    if y >= table.len() || y >= reached.len() || y >= due.len() {
        return;
    }
    if !reached[y] {
        reached[y] = true;
        due[y] = true;
        table[y] = *out;
        return;
    }
    let both = common(&table[y], out);
    if both.len() < table[y].len() {
        due[y] = true;
    }
    table[y] = both;
}

// Goes on from a place to the next ones.
fn go_on(
    i: &Instr,
    x: usize,
    table: &mut [Facts],
    reached: &mut [bool],
    due: &mut [bool],
    out: &Facts,
)
    requires { x < length table.old }
    ensures table { length table.new ≡ length table.old }
    ensures reached { length reached.new ≡ length reached.old }
    ensures due { length due.new ≡ length due.old }
{
    if let Instr::Br { target, .. } = i {
        arrive(table, reached, due, *target as usize, out);
    }
    if !is_last(i) {
        arrive(table, reached, due, x + 1, out);
    }
}

// Whether the engine never goes on to the next place.
fn is_last(i: &Instr) -> bool {
    matches!(
        i,
        Instr::Halt { .. }
            | Instr::Br {
                cond: Cond::Always,
                ..
            }
    )
}

// What stands after the instruction at a place, which goes where it is idle for what these sets say.
fn out_of(code: &[Instr], sets: &[LiveSet], table: &[Facts], x: usize) -> Facts
    requires lawful { IsProgram code.now }
    requires inside { x < length code.now }
    requires table { x < length table.now }
{
    let facts = table[x];
    if x + 1 < sets.len() && is_idle(&code[x], &facts, &sets[x + 1]) {
        return facts;
    }
    facts_after(&code[x], &facts)
}

// Looks at the places that are due, and says whether there was one.
fn sweep(
    code: &[Instr],
    sets: &[LiveSet],
    table: &mut [Facts],
    reached: &mut [bool],
    due: &mut [bool],
) -> bool
    requires lawful { IsProgram code.now }
    requires table { length table.old ≡ length code.now }
    requires due { length due.old ≡ length code.now }
    ensures table { length table.new ≡ length table.old }
    ensures reached { length reached.new ≡ length reached.old }
    ensures due { length due.new ≡ length due.old }
{
    let mut some = false;
    for x in 0..code.len() {
        if due[x] {
            due[x] = false;
            some = true;
            let out = out_of(code, sets, table, x);
            go_on(&code[x], x, table, reached, due, &out);
        }
    }
    some
}

/// From a table in which only the first place is reached and due, goes on until none is due.
pub(crate) fn solve(
    code: &[Instr],
    sets: &[LiveSet],
    table: &mut [Facts],
    reached: &mut [bool],
    due: &mut [bool],
)
    requires lawful { IsProgram code.now }
    requires table { length table.old ≡ length code.now }
    requires due { length due.old ≡ length code.now }
    ensures table { length table.new ≡ length table.old }
{
    for _n in 0..SWEEPS {
        if !sweep(code, sets, table, reached, due) {
            break;
        }
    }
}
