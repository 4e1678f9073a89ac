// The first name of each variable of a label.

ghost use Rattle.std.specs.Prelude.{◌≡◌, ℕ, ◌+◌, ◌≤◌, ◌++◌, map, IfOk, OnOk};
ghost use Rattle.flow_ir.specs.Formed.{defined};
ghost use Rattle.flow_ir.specs.View.{tree_view};
ghost use Rattle.ssu_make.specs.inner.Making.{counted, tops, successor_list, node_operands, node_defined, LaidOut};
ghost use Rattle.ssu_make.specs.Uses.{here, occurs, all_uses};

use crate::counts::Counts;
use crate::naming::plus;
use crate::tree::prim_operands;
use flow_ir::Tree;
use nv_base::{Atom, NoMemory};
use std::alloc::Global;

// One more use, where the operand is a variable.
fn count(counts: &mut Counts, a: Atom) -> Result<(), NoMemory>
    ensures { OnOk result ((y : ℕ) → counted counts.new y ≡ here a y + counted counts.old y) }
{
    match a {
        Atom::Var(x) => counts.put(x, plus(counts.at(x), 1)?),
        Atom::Lit(_) => Ok(()),
    }
}

fn count_all(counts: &mut Counts, list: &[Atom]) -> Result<(), NoMemory>
    ensures { OnOk result ((y : ℕ) → counted counts.new y ≡ occurs list.now y + counted counts.old y) }
{
    for a in list {
        count(counts, *a)?;
    }
    Ok(())
}

// Counts the operands of a node, and adds the variables that it defines and the trees after it.
fn survey_node<'a>(
    alloc: Global,
    t: &'a Tree,
    counts: &mut Counts,
    found: &mut Vec<u32>,
    work: &mut Vec<&'a Tree>,
) -> Result<(), NoMemory>
    ensures counts { OnOk result ((y : ℕ) → counted counts.new y ≡ occurs (node_operands (tree_view t.now)) y + counted counts.old y) }
    ensures found { OnOk result (found.new.items ≡ found.old.items ++ node_defined (tree_view t.now)) }
    ensures work { OnOk result (tops work.new.items ≡ successor_list (tree_view t.now) ++ tops work.old.items) }
{
    match t {
        Tree::Let(x, p, rest) => {
            count_all(counts, &prim_operands(alloc, *p)?)?;
            found.push(*x)?;
            work.push(rest)?;
        }
        Tree::Read(_, xs, a, rest) => {
            count_all(counts, &[*a])?;
            found.extend_from_slice(xs)?;
            work.push(rest)?;
        }
        Tree::Write(_, a, bs, rest) => {
            count_all(counts, bs)?;
            count(counts, *a)?;
            work.push(rest)?;
        }
        Tree::If(_, a, b, first, second) => {
            count_all(counts, &[*a, *b])?;
            work.push(second)?;
            work.push(first)?;
        }
        Tree::Jump(_, bs) => count_all(counts, bs)?,
        Tree::Halt(_, bs) => count_all(counts, bs)?,
    }
    Ok(())
}

/// How often each variable stands as an operand in a tree; the variables that it defines go behind those
/// that were found before.
pub fn survey(alloc: Global, t: &Tree, found: &mut Vec<u32>) -> Result<Counts, NoMemory>
    ensures counts { IfOk result (λ c. (y : ℕ) → counted c y ≡ all_uses (tree_view t.now) y) }
    ensures found { OnOk result (found.new.items ≡ found.old.items ++ defined (tree_view t.now)) }
{
    let mut counts = Counts::new(alloc);
    let mut work = Vec::new(alloc);
    work.push(t)?;
    while let Some(s) = work.pop() {
        survey_node(alloc, s, &mut counts, found, &mut work)?;
    }
    Ok(counts)
}

/// The first name of each of these variables, from `fresh` on: each has one name more than it has uses.
pub fn lay_out(
    alloc: Global,
    counts: &Counts,
    variables: &[u32],
    fresh: &mut u32,
) -> Result<Counts, NoMemory>
    ensures { IfOk result (λ bases. LaidOut (counted bases) (counted counts.now) fresh.old fresh.new variables.now) }
{
    let mut bases = Counts::new(alloc);
    for x in variables {
        bases.put(*x, *fresh)?;
        *fresh = plus(plus(*fresh, counts.at(*x))?, 1)?;
    }
    Ok(bases)
}
