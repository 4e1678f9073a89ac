// Which operand stands for each variable, and how that is given up again.

ghost use Rattle.std.specs.Prelude.{◌≡◌, ◌+◌, OnOk, IfOk, length};
ghost use Rattle.std.specs.List.{range_with_len};
ghost use Rattle.flow_ir.specs.Substitution.{look};
ghost use Rattle.nv_base.specs.declared.term.Atom.TheVariants.{Var};
ghost use Rattle.flow_merge.specs.inner.Copied as inner;
ghost use Rattle.flow_merge.specs.inner.Copied.{numbered, all_named, undone};

use flow_ir::names::{name, name_of};
use nv_base::{Atom, NoMemory};
use std::alloc::Global;

/// From now on `a` stands for `x`, and what stood for it is saved.
pub fn set(
    names: &mut Vec<Atom>,
    saved: &mut Vec<(u32, Atom)>,
    x: u32,
    a: Atom,
) -> Result<(), NoMemory>
    ensures names { OnOk result (look names.new.items ≡ inner.named (look names.old.items) x a) }
    ensures saved { OnOk result (undone saved.new.items (look names.new.items) ≡ undone saved.old.items (look names.old.items)) }
{
    let old = name_of(names, x);
    saved.push((x, old))?;
    name(names, x, a)
}

/// What was saved stands for its variables again.
pub fn restore(names: &mut Vec<Atom>, mut saved: Vec<(u32, Atom)>) -> Result<(), NoMemory>
    ensures { OnOk result (look names.new.items ≡ undone saved.items (look names.old.items)) }
{
    while let Some(s) = saved.pop() {
        name(names, s.0, s.1)?;
    }
    Ok(())
}

/// The next number.
pub fn take(fresh: &mut u32) -> Result<u32, NoMemory>
    ensures first { IfOk result (λ n. n ≡ fresh.old) }
    ensures next { IfOk result (λ n. fresh.new ≡ fresh.old + 1) }
{
    let first = *fresh;
    match first.checked_add(1) {
        Some(next) => {
            *fresh = next;
            Ok(first)
        }
        None => Err(NoMemory),
    }
}

// A variable gets the next number.
fn set_next(
    names: &mut Vec<Atom>,
    saved: &mut Vec<(u32, Atom)>,
    x: u32,
    fresh: &mut u32,
) -> Result<u32, NoMemory>
    ensures first { IfOk result (λ n. n ≡ fresh.old) }
    ensures next { IfOk result (λ n. fresh.new ≡ fresh.old + 1) }
    ensures names { IfOk result (λ n. look names.new.items ≡ inner.named (look names.old.items) x (Var fresh.old)) }
    ensures saved { IfOk result (λ n. undone saved.new.items (look names.new.items) ≡ undone saved.old.items (look names.old.items)) }
{
    let n = take(fresh)?;
    set(names, saved, x, Atom::Var(n))?;
    Ok(n)
}

/// Variables get the next numbers, which are the answer.
pub fn set_numbers(
    alloc: Global,
    names: &mut Vec<Atom>,
    saved: &mut Vec<(u32, Atom)>,
    xs: &[u32],
    fresh: &mut u32,
) -> Result<Vec<u32>, NoMemory>
    ensures numbers { IfOk result (λ v. v.items ≡ range_with_len fresh.old (length xs.now)) }
    ensures next { IfOk result (λ v. fresh.new ≡ fresh.old + length xs.now) }
    ensures names { IfOk result (λ v. look names.new.items ≡ numbered (look names.old.items) fresh.old xs.now) }
    ensures saved { IfOk result (λ v. undone saved.new.items (look names.new.items) ≡ undone saved.old.items (look names.old.items)) }
{
    let mut v = Vec::new(alloc);
    for x in xs {
        v.push(set_next(names, saved, *x, fresh)?)?;
    }
    Ok(v)
}

// The operand at a place, or 0.
fn operand_at(words: &[Atom], i: usize) -> Atom
    ensures { result ≡ look words.now i }
{
    if i < words.len() {
        words[i]
    } else {
        Atom::Lit(0)
    }
}

/// Operands stand for variables, in turn.
pub fn set_operands(
    names: &mut Vec<Atom>,
    saved: &mut Vec<(u32, Atom)>,
    xs: &[u32],
    words: &[Atom],
) -> Result<(), NoMemory>
    ensures names { OnOk result (look names.new.items ≡ all_named (look names.old.items) xs.now words.now) }
    ensures saved { OnOk result (undone saved.new.items (look names.new.items) ≡ undone saved.old.items (look names.old.items)) }
{
    for (i, x) in xs.iter().enumerate() {
        set(names, saved, *x, operand_at(words, i))?;
    }
    Ok(())
}
