// Small parts of flat code.

ghost use Rattle.std.specs.Prelude.{◌≡◌, ◌<◌, ◌≤◌, ◌+◌, ◌∷◌, ◌++◌, [], Some, true, false, IfOk, OnOk};
ghost use Rattle.nv_base.specs.declared.term.Atom.TheVariants.{Var};
ghost use Rattle.flat_ir.specs.declared.spine.Step.TheVariants.{Let};
ghost use Rattle.nv_flatten_values.specs.inner.Code.{arithmetic_of, comparison_of, ends_of, shift_of, variables};
ghost use Rattle.nv_flatten_values.specs.inner.Symbols.{numbers_from};
ghost use Rattle.nv_flatten_values.specs.inner.Simulation.{Extends};

use crate::symbol::new_variable;
use flat_ir::Step;
use nv_ast::{Op, ShiftOp};
use nv_base::{Args, Atom, Bin, Cmp, NoMemory, Prim, Una, Vars};
use std::alloc::Global;

/// How code ends with the words of an operator.
#[derive(Clone, Copy)]
pub enum Ends {
    /// With the word that its steps give.
    Value,
    /// With 1 or 0, as the comparison holds.
    Test,
    Both,
    Either,
}

/// The operation of an operator on words.
pub fn arithmetic(op: Op) -> Option<Bin>
    ensures { result ≡ arithmetic_of op }
{
    match op {
        Op::Add => Some(Bin::Add),
        Op::Sub => Some(Bin::Sub),
        Op::And => Some(Bin::And),
        Op::Or => Some(Bin::Or),
        Op::Xor => Some(Bin::Xor),
        Op::Eq | Op::Ne | Op::Lt | Op::Le | Op::Gt | Op::Ge | Op::Both | Op::Either => None,
    }
}

/// The comparison of an operator, and whether its operands change places.
pub fn comparison(op: Op) -> Option<(Cmp, bool)>
    ensures { result ≡ comparison_of op }
{
    match op {
        Op::Eq => Some((Cmp::Eq, false)),
        Op::Ne => Some((Cmp::Ne, false)),
        Op::Lt => Some((Cmp::Lt, false)),
        Op::Ge => Some((Cmp::Ge, false)),
        Op::Gt => Some((Cmp::Lt, true)),
        Op::Le => Some((Cmp::Ge, true)),
        Op::Add | Op::Sub | Op::And | Op::Or | Op::Xor | Op::Both | Op::Either => None,
    }
}

/// How code ends with an operator.
pub fn ends_as(op: Op) -> Ends
    ensures { result ≡ ends_of op }
{
    match op {
        Op::Both => Ends::Both,
        Op::Either => Ends::Either,
        Op::Eq | Op::Ne | Op::Lt | Op::Le | Op::Gt | Op::Ge => Ends::Test,
        Op::Add | Op::Sub | Op::And | Op::Or | Op::Xor => Ends::Value,
    }
}

/// Adds steps behind others.
pub fn add_steps(more: Vec<Step>, steps: &mut Vec<Step>) -> Result<(), NoMemory>
    ensures { OnOk result (steps.new.items ≡ steps.old.items ++ more.items) }
{
    for step in more {
        steps.push(step)?;
    }
    Ok(())
}

/// A new variable with the word of a primitive.
pub fn define(p: Prim, steps: &mut Vec<Step>, next: &mut u32) -> Result<u32, NoMemory>
    ensures variable { IfOk result (λ x. x ≡ next.old) }
    ensures next { OnOk result (next.new ≡ next.old + 1) }
    ensures steps { OnOk result (steps.new.items ≡ steps.old.items ++ Let next.old p ∷ []) }
    ensures later { next.old ≤ next.new }
{
    let x = new_variable(next)?;
    steps.push(Step::Let(x, p))?;
    Ok(x)
}

/// The operand of a word shifted by `n` places, at most 31; by none it is the word itself.
pub fn shifted(
    op: ShiftOp,
    word: Atom,
    n: u32,
    steps: &mut Vec<Step>,
    next: &mut u32,
) -> Result<Atom, NoMemory>
    ensures none { n ≡ 0 → IfOk result (λ a. a ≡ word) × OnOk result ((steps.new.items ≡ steps.old.items) × (next.new ≡ next.old)) }
    ensures past { 31 < n → IfOk result (λ a. a ≡ word) × OnOk result ((steps.new.items ≡ steps.old.items) × (next.new ≡ next.old)) }
    ensures some { 1 ≤ n → n ≤ 31 → IfOk result (λ a. a ≡ Var next.old) × OnOk result ((steps.new.items ≡ steps.old.items ++ Let next.old (shift_of op n word) ∷ []) × (next.new ≡ next.old + 1)) }
    ensures extends { OnOk result (Extends steps.old.items steps.new.items) }
    ensures later { next.old ≤ next.new }
{
    if n == 0 || n > 31 {
        return Ok(word);
    }
    let x = define(shift_by(op, n as u8, word), steps, next)?;
    Ok(Atom::Var(x))
}

fn shift_by(op: ShiftOp, n: u8, word: Atom) -> Prim
    ensures { result ≡ shift_of op n word }
{
    match op {
        ShiftOp::Left => Prim::Una(Una::Shl(n), word),
        ShiftOp::Right => Prim::Una(Una::Shr(n), word),
        ShiftOp::Rotate => Prim::Una(Una::Rol(n), word),
    }
}

/// So many new variables, and their operands.
pub fn new_variables(
    alloc: Global,
    n: u32,
    next: &mut u32,
    words: &mut Vec<Atom>,
) -> Result<Vars, NoMemory>
    ensures variables { IfOk result (λ xs. xs.items ≡ numbers_from next.old n) }
    ensures words { OnOk result (words.new.items ≡ words.old.items ++ variables (numbers_from next.old n)) }
    ensures next { OnOk result (next.new ≡ next.old + n) }
    ensures later { next.old ≤ next.new }
{
    let mut vars = Vars::new(alloc);
    for _ in 0..n {
        let x = new_variable(next)?;
        vars.push(x)?;
        words.push(Atom::Var(x))?;
    }
    Ok(vars)
}

/// Operands as a short list.
pub fn short(alloc: Global, operands: &[Atom]) -> Result<Args, NoMemory>
    ensures { IfOk result (λ xs. xs.items ≡ operands.now) }
{
    let mut list = Args::new(alloc);
    for a in operands {
        list.push(*a)?;
    }
    Ok(list)
}

/// Variables as a short list.
pub fn short_vars(alloc: Global, vars: &[u32]) -> Result<Vars, NoMemory>
    ensures { IfOk result (λ xs. xs.items ≡ vars.now) }
{
    let mut list = Vars::new(alloc);
    for x in vars {
        list.push(*x)?;
    }
    Ok(list)
}
