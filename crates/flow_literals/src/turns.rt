// The literals that each turn of a label's loop loads.

ghost use Rattle.std.specs.Prelude.{◌≡◌, ◌++◌, true, IfOk, OnOk};
ghost use Rattle.nv_base.specs.Sets.{Within};
ghost use Rattle.flow_ir.specs.View.{tree_view};
ghost use Rattle.flow_literals.specs.Turns as spec;

use flow_ir::Tree;
use nv_base::{Atom, Cmp, Mem, NoMemory, Prim};
use std::alloc::Global;

/// Whether a tree jumps to this label.
pub fn goes_back(l: u32, t: &Tree) -> bool
    ensures { result ≡ spec.goes_back l (tree_view t.now) }
{
    let mut cur = t;
    'spine: loop {
        match cur {
            Tree::Let(_, _, rest) => cur = rest,
            Tree::Read(_, _, _, rest) => cur = rest,
            Tree::Write(_, _, _, rest) => cur = rest,
            Tree::If(_, _, _, first, second) => {
                if goes_back(l, first) {
                    return true;
                }
                cur = second;
            }
            Tree::Jump(k, _) => return *k == l,
            Tree::Halt(_, _) => return false,
        }
    }
}

/// Whether a comparison with this operand takes no literal: a word is tested for 0 by itself.
pub fn is_zero_test(c: Cmp, a: Atom) -> bool
    ensures { result ≡ spec.is_zero_test c a }
{
    match (c, a) {
        (Cmp::Eq, Atom::Lit(v)) => v == 0,
        (Cmp::Ne, Atom::Lit(v)) => v == 0,
        _ => false,
    }
}

/// Adds an operand, if it is a literal.
pub fn note(found: &mut Vec<u32>, a: Atom) -> Result<(), NoMemory>
    ensures { OnOk result (found.new.items ≡ found.old.items ++ spec.literal a) }
{
    match a {
        Atom::Lit(v) => found.push(v)?,
        Atom::Var(_) => {}
    }
    Ok(())
}

/// The same for both operands of a comparison.
pub fn note_test(found: &mut Vec<u32>, c: Cmp, a: Atom, b: Atom) -> Result<(), NoMemory>
    ensures { OnOk result (found.new.items ≡ found.old.items ++ (spec.test_literals c a ++ spec.test_literals c b)) }
{
    if !is_zero_test(c, a) {
        note(found, a)?;
    }
    if !is_zero_test(c, b) {
        note(found, b)?;
    }
    Ok(())
}

/// The same for an address. One of scratch is always a literal.
pub fn note_address(found: &mut Vec<u32>, m: Mem, a: Atom) -> Result<(), NoMemory>
    ensures { OnOk result (found.new.items ≡ found.old.items ++ spec.address_literals m a) }
{
    match m {
        Mem::Scratch => Ok(()),
        Mem::Sram => note(found, a),
        Mem::Sdram => note(found, a),
    }
}

/// The same for a primitive.
pub fn note_prim(found: &mut Vec<u32>, p: Prim) -> Result<(), NoMemory>
    ensures { OnOk result (found.new.items ≡ found.old.items ++ spec.prim_literals p) }
{
    match p {
        Prim::Same(a) => note(found, a),
        Prim::Una(_, a) => note(found, a),
        Prim::Bin(_, a, b) => {
            note(found, a)?;
            note(found, b)
        }
    }
}

/// The literals that each turn loads of the loop of label l, whose body this tree is.
pub fn turn_literals(alloc: Global, l: u32, t: &Tree) -> Result<Vec<u32>, NoMemory>
    ensures { IfOk result (λ v. v.items ≡ spec.turn_literals l (tree_view t.now)) }
{
    let mut found = Vec::new(alloc);
    let mut cur = t;
    'spine: loop {
        match cur {
            Tree::Let(_, p, rest) => {
                note_prim(&mut found, *p)?;
                cur = rest;
            }
            Tree::Read(m, _, a, rest) => {
                note_address(&mut found, *m, *a)?;
                cur = rest;
            }
            Tree::Write(m, a, _, rest) => {
                note_address(&mut found, *m, *a)?;
                cur = rest;
            }
            Tree::If(c, a, b, first, second) => {
                note_test(&mut found, *c, *a, *b)?;
                if goes_back(l, first) {
                    if goes_back(l, second) {
                        return Ok(found);
                    }
                    cur = first;
                } else {
                    cur = second;
                }
            }
            Tree::Jump(_, _) => return Ok(found),
            Tree::Halt(_, _) => return Ok(found),
        }
    }
}

/// Whether all of these are among those.
pub fn are_among(literals: &[u32], row: &[u32]) -> bool
    ensures { result ≡ true → Within literals.now row.now }
{
    for v in literals {
        if !row.contains(v) {
            return false;
        }
    }
    true
}
