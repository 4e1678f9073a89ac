// A tree with other primitives in the place of some.

ghost use Rattle.std.specs.Prelude.{◌≡◌, [], OnOk, IfOk};
ghost use Rattle.flow_ir.specs.Tree as pure;
ghost use Rattle.flow_ir.specs.View.{tree_view};
ghost use Rattle.nv_base.specs.Words.{HasPrimCount};
ghost use Rattle.flow_words.specs.Bits.{IsNeeded};
ghost use Rattle.flow_words.specs.Sums.{IsFolded};
ghost use Rattle.flow_words.specs.Tables.{look};
ghost use Rattle.flow_words.specs.inner.Reduced.{HasWord};
ghost use Rattle.flow_words.specs.inner.Ruled.{rule};
ghost use Rattle.flow_words.specs.inner.Placed.{place as at, IsPlaced, IsExtra, IsKept, IsFoldedBy, IsChosen, IsEntered, AreEntered, Goes, IsDone};

use crate::bits::{are_same, bits_of, settled};
use crate::plan::cheapest;
use crate::state::{
    Known, are_old, both, is_below, is_counted, is_old, is_old_prim, itself, known_of, may_define,
    of_prim, restore, save,
};
use crate::sums::twice;
use flow_ir::{Step, Tree, joined, push_step, short_atoms, short_numbers};
use nv_base::{Atom, Bin, NoMemory, Prim, Una};
use std::alloc::Global;

/// What is known of variables, the first variable that isn't the tree's own, the next one that may be defined, and
/// whether all checks were passed.
#[derive(Drop)]
pub struct State {
    pub table: Vec<Known>,
    pub base: u32,
    pub fresh: u32,
    pub sound: bool,
}

/// What is put in the place of definitions.
#[derive(Drop)]
pub enum Rules {
    /// Three operations in the place of a sum of halves twice.
    Sums,
    /// Slices of variables, by how often each variable is used.
    Slices(Vec<u32>),
}

// A definition. Its variable isn't in scope yet, and its operands are.
fn put(
    state: &mut State,
    saved: &mut Vec<(u32, Known)>,
    steps: &mut Vec<Step>,
    x: u32,
    q: Prim,
) -> Result<(), NoMemory>
    ensures { OnOk result (IsPlaced x q (at state.old saved.old.items steps.old.items) (at state.new saved.new.items steps.new.items)) }
{
    state.sound = both(state.sound, may_define(&state.table, x, q));
    let k = of_prim(&state.table, q);
    save(&mut state.table, saved, x, k)?;
    push_step(steps, Step::Let(x, q))?;
    Ok(())
}

// A definition of a variable that isn't the tree's own, which is the answer.
fn put_extra(
    state: &mut State,
    saved: &mut Vec<(u32, Known)>,
    steps: &mut Vec<Step>,
    q: Prim,
) -> Result<u32, NoMemory>
    ensures { IfOk result (λ n. IsExtra n q (at state.old saved.old.items steps.old.items) (at state.new saved.new.items steps.new.items)) }
{
    let n = state.fresh;
    state.sound = state.sound && state.base <= n;
    match n.checked_add(1) {
        Some(next) => state.fresh = next,
        None => return Err(NoMemory),
    }
    put(state, saved, steps, n, q)?;
    Ok(n)
}

// A definition of the tree's own variable.
fn put_own(
    state: &mut State,
    saved: &mut Vec<(u32, Known)>,
    steps: &mut Vec<Step>,
    x: u32,
    q: Prim,
) -> Result<(), NoMemory>
    ensures { OnOk result (IsKept x q (at state.old saved.old.items steps.old.items) (at state.new saved.new.items steps.new.items)) }
{
    state.sound = both(state.sound, is_below(x, state.base));
    put(state, saved, steps, x, q)
}

// The word and its halves exchanged are added, and the sum is shifted: the sum of its halves twice.
fn put_folded(
    state: &mut State,
    saved: &mut Vec<(u32, Known)>,
    steps: &mut Vec<Step>,
    x: u32,
    s: Atom,
) -> Result<(), NoMemory>
    ensures { OnOk result (IsFoldedBy x s (at state.old saved.old.items steps.old.items) (at state.new saved.new.items steps.new.items)) }
{
    let turned = put_extra(state, saved, steps, Prim::Una(Una::Rol(16), s))?;
    let sum = put_extra(
        state,
        saved,
        steps,
        Prim::Bin(Bin::Add, s, Atom::Var(turned)),
    )?;
    put_own(
        state,
        saved,
        steps,
        x,
        Prim::Una(Una::Shr(16), Atom::Var(sum)),
    )
}

// A definition of the tree, or what is put in the place of a sum of halves twice.
fn put_sum(
    state: &mut State,
    saved: &mut Vec<(u32, Known)>,
    steps: &mut Vec<Step>,
    x: u32,
    p: Prim,
) -> Result<(), NoMemory>
    ensures { OnOk result ((rest : pure.Tree) → Goes IsFolded (at state.old saved.old.items steps.old.items) (pure.Let x p rest) (at state.new saved.new.items steps.new.items) rest) }
{
    state.sound = both(state.sound, is_old_prim(state.base, p));
    match twice(&state.table, p) {
        Some(s) => put_folded(state, saved, steps, x, s),
        None => put_own(state, saved, steps, x, p),
    }
}

// These definitions, one by one, as far as they are needed.
fn put_extras(
    state: &mut State,
    saved: &mut Vec<(u32, Known)>,
    steps: &mut Vec<Step>,
    prims: &[Prim],
) -> Result<(), NoMemory>
    ensures { OnOk result ((t : pure.Tree) → Goes IsNeeded (at state.old saved.old.items steps.old.items) t (at state.new saved.new.items steps.new.items) t) }
{
    for q in prims {
        let r = settled(&state.table, *q);
        put_extra(state, saved, steps, r)?;
    }
    Ok(())
}

// The second primitive where it has the bits of the first, else the first; an operand where that has these bits.
fn chosen(table: &[Known], p: Prim, q: Prim) -> Prim
    ensures needed { IsNeeded (look table.now) result }
    ensures word { HasPrimCount p → HasWord (look table.now) p result }
{
    let bits = bits_of(table, p);
    let others = bits_of(table, q);
    if is_counted(q) && are_same(&bits, &others) {
        settled(table, q)
    } else {
        settled(table, p)
    }
}

// A definition of the tree as this primitive, where that is as good.
fn put_chosen(
    state: &mut State,
    saved: &mut Vec<(u32, Known)>,
    steps: &mut Vec<Step>,
    x: u32,
    p: Prim,
    q: Prim,
) -> Result<(), NoMemory>
    ensures { OnOk result (IsChosen x p (at state.old saved.old.items steps.old.items) (at state.new saved.new.items steps.new.items)) }
{
    let r = chosen(&state.table, p, q);
    put_own(state, saved, steps, x, r)
}

// A definition of the tree, made of slices of variables.
fn put_slices(
    alloc: Global,
    state: &mut State,
    saved: &mut Vec<(u32, Known)>,
    steps: &mut Vec<Step>,
    uses: &[u32],
    x: u32,
    p: Prim,
) -> Result<(), NoMemory>
    ensures { OnOk result ((rest : pure.Tree) → Goes IsNeeded (at state.old saved.old.items steps.old.items) (pure.Let x p rest) (at state.new saved.new.items steps.new.items) rest) }
{
    state.sound = both(state.sound, is_old_prim(state.base, p));
    let bits = bits_of(&state.table, p);
    let mut prims = cheapest(alloc, &state.table, uses, state.fresh, p, &bits)?;
    let last = match prims.pop() {
        None => p,
        Some(q) => q,
    };
    put_extras(state, saved, steps, &prims)?;
    put_chosen(state, saved, steps, x, p, last)
}

// A definition of the tree.
fn put_let(
    alloc: Global,
    state: &mut State,
    saved: &mut Vec<(u32, Known)>,
    steps: &mut Vec<Step>,
    rules: &Rules,
    x: u32,
    p: Prim,
) -> Result<(), NoMemory>
    ensures { OnOk result ((rest : pure.Tree) → Goes (rule rules.now) (at state.old saved.old.items steps.old.items) (pure.Let x p rest) (at state.new saved.new.items steps.new.items) rest) }
{
    match rules {
        Rules::Sums => put_sum(state, saved, steps, x, p),
        Rules::Slices(uses) => put_slices(alloc, state, saved, steps, uses, x, p),
    }
}

// One of the variables that an access or a call gives words.
fn enter(state: &mut State, saved: &mut Vec<(u32, Known)>, x: u32) -> Result<(), NoMemory>
    ensures { OnOk result (IsEntered x (at state.old saved.old.items []) (at state.new saved.new.items [])) }
{
    state.sound = state.sound && x < state.base && !known_of(&state.table, x).live;
    save(&mut state.table, saved, x, itself(x))
}

/// All of these.
pub fn enter_all(
    state: &mut State,
    saved: &mut Vec<(u32, Known)>,
    xs: &[u32],
) -> Result<(), NoMemory>
    ensures { OnOk result (AreEntered xs.now (at state.old saved.old.items []) (at state.new saved.new.items [])) }
{
    for x in xs {
        enter(state, saved, *x)?;
    }
    Ok(())
}

// The same operands.
fn operands(alloc: Global, xs: &[Atom]) -> Result<Vec<Atom>, NoMemory>
    ensures { IfOk result (λ v. v.items ≡ xs.now) }
{
    Ok(xs.to_vec(alloc)?)
}

/// A tree in which each definition is as the rules say.
pub fn reduced(alloc: Global, rules: &Rules, t: &Tree, state: &mut State) -> Result<Tree, NoMemory>
    ensures { IfOk result (λ u. IsDone (rule rules.now) state.old (tree_view t.now) (tree_view u) state.new) }
{
    let mut saved = Vec::new(alloc);
    let mut steps = Vec::new(alloc);
    let mut cur = t;
    'spine: loop {
        match cur {
            Tree::Let(x, p, rest) => {
                put_let(alloc, state, &mut saved, &mut steps, rules, *x, *p)?;
                cur = rest;
            }
            Tree::Read(m, xs, a, rest) => {
                state.sound = both(state.sound, is_old(state.base, *a));
                enter_all(state, &mut saved, xs)?;
                push_step(&mut steps, Step::Read(*m, short_numbers(alloc, xs)?, *a))?;
                cur = rest;
            }
            Tree::Write(m, a, bs, rest) => {
                state.sound = both(state.sound, is_old(state.base, *a));
                state.sound = both(state.sound, are_old(state.base, bs));
                push_step(&mut steps, Step::Write(*m, *a, short_atoms(alloc, bs)?))?;
                cur = rest;
            }
            Tree::If(c, a, b, first, second) => {
                state.sound = both(state.sound, is_old(state.base, *a));
                state.sound = both(state.sound, is_old(state.base, *b));
                let u = reduced(alloc, rules, first, state)?;
                push_step(&mut steps, Step::If(*c, *a, *b, u))?;
                cur = second;
            }
            Tree::Jump(l, bs) => {
                state.sound = both(state.sound, are_old(state.base, bs));
                let words = operands(alloc, bs)?;
                restore(&mut state.table, saved)?;
                return Ok(joined(alloc, steps, Tree::Jump(*l, words))?);
            }
            Tree::Halt(e, bs) => {
                state.sound = both(state.sound, are_old(state.base, bs));
                let words = short_atoms(alloc, bs)?;
                restore(&mut state.table, saved)?;
                return Ok(joined(alloc, steps, Tree::Halt(*e, words))?);
            }
        }
    }
}
