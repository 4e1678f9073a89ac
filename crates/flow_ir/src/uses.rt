// Whether a tree uses a variable.

ghost use Rattle.std.specs.Prelude.{◌≡◌};
ghost use Rattle.nv_base.specs.Sets.{is_in, all_vars};
ghost use Rattle.nv_base.specs.Words.{atom_vars, prim_vars};
ghost use Rattle.flow_ir.specs.View.{tree_view};
ghost use Rattle.flow_ir.specs.Wide.{uses};

use crate::flow::Tree;
use nv_base::{Atom, Prim};

/// Whether an operand is this variable.
pub fn in_atom(x: u32, a: Atom) -> bool
    ensures { result ≡ is_in x (atom_vars a) }
{
    match a {
        Atom::Var(y) => x == y,
        Atom::Lit(_) => false,
    }
}

/// Whether a primitive uses it.
pub fn in_prim(x: u32, p: Prim) -> bool
    ensures { result ≡ is_in x (prim_vars p) }
{
    match p {
        Prim::Same(a) => in_atom(x, a),
        Prim::Una(_, a) => in_atom(x, a),
        Prim::Bin(_, a, b) => in_atom(x, a) || in_atom(x, b),
    }
}

/// Whether it is among operands.
pub fn in_all(x: u32, bs: &[Atom]) -> bool
    ensures { result ≡ is_in x (all_vars bs.now) }
{
    for b in bs {
        if in_atom(x, *b) {
            return true;
        }
    }
    false
}

/// Whether a tree uses it.
pub fn mentions(x: u32, t: &Tree) -> bool
    ensures { result ≡ is_in x (uses (tree_view t.now)) }
{
    let mut cur = t;
    'spine: loop {
        match cur {
            Tree::Let(_, p, rest) => {
                if in_prim(x, *p) {
                    return true;
                }
                cur = rest;
            }
            Tree::Read(_, _, a, rest) => {
                if in_atom(x, *a) {
                    return true;
                }
                cur = rest;
            }
            Tree::Write(_, a, bs, rest) => {
                if in_atom(x, *a) || in_all(x, bs) {
                    return true;
                }
                cur = rest;
            }
            Tree::If(_, a, b, first, second) => {
                if in_atom(x, *a) || in_atom(x, *b) || mentions(x, first) {
                    return true;
                }
                cur = second;
            }
            Tree::Jump(_, bs) => return in_all(x, bs),
            Tree::Halt(_, bs) => return in_all(x, bs),
        }
    }
}
