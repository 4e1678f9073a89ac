// Labels with literals as parameters.

ghost use Rattle.std.specs.Prelude.{◌≡◌, ◌++◌, IfOk, map};
ghost use Rattle.flow_ir.specs.View.{tree_view, label_view};
ghost use Rattle.flow_literals.specs.inner.Hoisted as inner;
ghost use Rattle.flow_literals.specs.inner.Hoisted.{heads_of, IsHoisted, AreHoisted};

use crate::names::{above_all, above_tree, stretch};
use crate::turns::is_zero_test;
use flow_ir::{Label, Step, Tree, joined, push_step, short_atoms, short_numbers};
use nv_base::{Atom, Cmp, Mem, NoMemory, Prim};
use std::alloc::Global;

// The literals that a label takes.
fn heads(table: &[Vec<u32>], l: u32) -> &[u32]
    ensures { result.now ≡ heads_of table.now l }
{
    match table.get(l as usize) {
        Some(row) => row.as_slice(),
        None => &[],
    }
}

// The variable at a place, or the literal.
fn name_at(names: &[u32], i: usize, v: u32) -> Atom
    ensures { result ≡ inner.name_at names.now i v }
{
    if i < names.len() {
        Atom::Var(names[i])
    } else {
        Atom::Lit(v)
    }
}

// What stands for a literal.
fn held(row: &[u32], names: &[u32], v: u32) -> Atom
    ensures { result ≡ inner.held row.now names.now v }
{
    for (i, w) in row.iter().enumerate() {
        if v == *w {
            return name_at(names, i, v);
        }
    }
    Atom::Lit(v)
}

// An operand, or what stands for it.
fn at(row: &[u32], names: &[u32], a: Atom) -> Atom
    ensures { result ≡ inner.at (inner.held row.now names.now) a }
{
    match a {
        Atom::Var(x) => Atom::Var(x),
        Atom::Lit(v) => held(row, names, v),
    }
}

// The same for an operand of a comparison.
fn test_at(row: &[u32], names: &[u32], c: Cmp, a: Atom) -> Atom
    ensures { result ≡ inner.test_at (inner.held row.now names.now) c a }
{
    if is_zero_test(c, a) {
        a
    } else {
        at(row, names, a)
    }
}

// The same for an address.
fn address_at(row: &[u32], names: &[u32], m: Mem, a: Atom) -> Atom
    ensures { result ≡ inner.address_at (inner.held row.now names.now) m a }
{
    match m {
        Mem::Scratch => a,
        Mem::Sram => at(row, names, a),
        Mem::Sdram => at(row, names, a),
    }
}

// The same for the operands of a primitive.
fn prim_at(row: &[u32], names: &[u32], p: Prim) -> Prim
    ensures { result ≡ inner.prim_at (inner.held row.now names.now) p }
{
    match p {
        Prim::Same(a) => Prim::Same(at(row, names, a)),
        Prim::Una(op, a) => Prim::Una(op, at(row, names, a)),
        Prim::Bin(op, a, b) => Prim::Bin(op, at(row, names, a), at(row, names, b)),
    }
}

// The words of a jump, behind those for the literals that its label takes.
fn handed(
    alloc: Global,
    row: &[u32],
    names: &[u32],
    heads: &[u32],
    bs: &[Atom],
) -> Result<Vec<Atom>, NoMemory>
    ensures { IfOk result (λ v. v.items ≡ map (inner.held row.now names.now) heads.now ++ bs.now) }
{
    let mut v = Vec::new(alloc);
    for w in heads {
        v.push(held(row, names, *w))?;
    }
    v.extend_from_slice(bs)?;
    Ok(v)
}

// A tree with the parameters in the place of the literals.
#[inline(never)]
fn hoisted(
    alloc: Global,
    table: &[Vec<u32>],
    row: &[u32],
    names: &[u32],
    t: &Tree,
) -> Result<Tree, NoMemory>
    ensures { IfOk result (λ u. tree_view u ≡ inner.hoisted (heads_of table.now) (inner.held row.now names.now) (tree_view t.now)) }
{
    let mut steps = Vec::new(alloc);
    let mut cur = t;
    'spine: loop {
        match cur {
            Tree::Let(x, p, rest) => {
                push_step(&mut steps, Step::Let(*x, prim_at(row, names, *p)))?;
                cur = rest;
            }
            Tree::Read(m, xs, a, rest) => {
                let xs = short_numbers(alloc, xs)?;
                push_step(
                    &mut steps,
                    Step::Read(*m, xs, address_at(row, names, *m, *a)),
                )?;
                cur = rest;
            }
            Tree::Write(m, a, bs, rest) => {
                let bs = short_atoms(alloc, bs)?;
                push_step(
                    &mut steps,
                    Step::Write(*m, address_at(row, names, *m, *a), bs),
                )?;
                cur = rest;
            }
            Tree::If(c, a, b, first, second) => {
                let u = hoisted(alloc, table, row, names, first)?;
                let left = test_at(row, names, *c, *a);
                let right = test_at(row, names, *c, *b);
                push_step(&mut steps, Step::If(*c, left, right, u))?;
                cur = second;
            }
            Tree::Jump(l, bs) => {
                let words = handed(alloc, row, names, heads(table, *l), bs)?;
                return joined(alloc, steps, Tree::Jump(*l, words));
            }
            Tree::Halt(e, bs) => {
                let words = short_atoms(alloc, bs)?;
                return joined(alloc, steps, Tree::Halt(*e, words));
            }
        }
    }
}

// The parameters of a label, behind those for the literals that it takes.
fn params_with(alloc: Global, names: &[u32], params: &[u32]) -> Result<Vec<u32>, NoMemory>
    ensures { IfOk result (λ v. v.items ≡ names.now ++ params.now) }
{
    let mut v = names.to_vec(alloc)?;
    v.extend_from_slice(params)?;
    Ok(v)
}

// A label that takes its literals.
fn label_hoisted(alloc: Global, table: &[Vec<u32>], i: u32, l: &Label) -> Result<Label, NoMemory>
    ensures { IfOk result (λ m. IsHoisted (heads_of table.now) i (label_view l.now) (label_view m)) }
{
    let row = heads(table, i);
    let first = above_tree(above_all(0, &l.params)?, &l.body)?;
    let names = stretch(alloc, first, row.len())?;
    let body = hoisted(alloc, table, row, &names, &l.body)?;
    let params = params_with(alloc, &names, &l.params)?;
    Ok(Label { params, body })
}

/// All labels with the literals that a table says.
pub fn all_hoisted(
    alloc: Global,
    labels: &[Label],
    table: &[Vec<u32>],
) -> Result<Vec<Label>, NoMemory>
    ensures { IfOk result (λ v. AreHoisted (heads_of table.now) 0 (map label_view labels.now) (map label_view v.items)) }
{
    let mut v = Vec::new(alloc);
    let mut i: u32 = 0;
    for l in labels {
        v.push(label_hoisted(alloc, table, i, l)?)?;
        match i.checked_add(1) {
            Some(next) => i = next,
            None => return Err(NoMemory),
        }
    }
    Ok(v)
}
