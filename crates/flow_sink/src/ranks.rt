// Which definitions stand late.

ghost use Rattle.std.specs.Prelude.{◌≡◌, ◌++◌, OnOk};
ghost use Rattle.nv_base.specs.Sets.{is_in, all_vars};
ghost use Rattle.nv_base.specs.Words.{atom_vars};
ghost use Rattle.flow_ir.specs.View.{tree_view};
ghost use Rattle.flow_sink.specs.Ordered as spec;

use flow_ir::Tree;
use flow_ir::uses::in_prim;
use nv_base::{Atom, NoMemory};

// Adds the variable of an operand.
fn add_var(a: Atom, out: &mut Vec<u32>) -> Result<(), NoMemory>
    ensures { OnOk result (out.new.items ≡ out.old.items ++ atom_vars a) }
{
    match a {
        Atom::Var(x) => Ok(out.push(x)?),
        Atom::Lit(_) => Ok(()),
    }
}

// Adds the variables of operands.
fn add_vars(bs: &[Atom], out: &mut Vec<u32>) -> Result<(), NoMemory>
    ensures { OnOk result (out.new.items ≡ out.old.items ++ all_vars bs.now) }
{
    for b in bs {
        add_var(*b, out)?;
    }
    Ok(())
}

// Adds the variable of a comparison with 0.
fn add_test(a: Atom, b: Atom, out: &mut Vec<u32>) -> Result<(), NoMemory>
    ensures { OnOk result (out.new.items ≡ out.old.items ++ spec.against_zero a b) }
{
    match (a, b) {
        (Atom::Var(x), Atom::Lit(0)) => Ok(out.push(x)?),
        _ => Ok(()),
    }
}

/// Adds the variables that choices of a tree compare with 0.
pub fn add_tested(t: &Tree, out: &mut Vec<u32>) -> Result<(), NoMemory>
    ensures { OnOk result (out.new.items ≡ out.old.items ++ spec.tested (tree_view t.now)) }
{
    match t {
        Tree::Let(_, _, rest) => add_tested(rest, out),
        Tree::Read(_, _, _, rest) => add_tested(rest, out),
        Tree::Write(_, _, _, rest) => add_tested(rest, out),
        Tree::If(_, a, b, first, second) => {
            add_test(*a, *b, out)?;
            add_tested(first, out)?;
            add_tested(second, out)
        }
        Tree::Jump(_, _) => Ok(()),
        Tree::Halt(_, _) => Ok(()),
    }
}

/// Adds the variables that jumps of a tree to a label hand on.
pub fn add_handed(own: u32, t: &Tree, out: &mut Vec<u32>) -> Result<(), NoMemory>
    ensures { OnOk result (out.new.items ≡ out.old.items ++ spec.handed own (tree_view t.now)) }
{
    match t {
        Tree::Let(_, _, rest) => add_handed(own, rest, out),
        Tree::Read(_, _, _, rest) => add_handed(own, rest, out),
        Tree::Write(_, _, _, rest) => add_handed(own, rest, out),
        Tree::If(_, _, _, first, second) => {
            add_handed(own, first, out)?;
            add_handed(own, second, out)
        }
        Tree::Jump(l, bs) => if *l == own { add_vars(bs, out) } else { Ok(()) }
        Tree::Halt(_, _) => Ok(()),
    }
}

// Whether a variable is among these.
fn is_among(x: u32, xs: &[u32]) -> bool
    ensures { result ≡ is_in x xs.now }
{
    xs.contains(&x)
}

// How late a definition stands.
fn rank(tested: &[u32], handed: &[u32], x: u32) -> u32
    ensures { result ≡ spec.rank tested.now handed.now x }
{
    if is_among(x, tested) {
        2
    } else if is_among(x, handed) {
        1
    } else {
        0
    }
}

/// Whether a tree begins with a definition that stands less late and doesn't use this variable.
pub fn waits(tested: &[u32], handed: &[u32], x: u32, t: &Tree) -> bool
    ensures { result ≡ spec.waits tested.now handed.now x (tree_view t.now) }
{
    match t {
        Tree::Let(y, q, _) => {
            let own = rank(tested, handed, x);
            let next = rank(tested, handed, *y);
            next < own && !in_prim(x, *q)
        }
        Tree::Read(_, _, _, _) => false,
        Tree::Write(_, _, _, _) => false,
        Tree::If(_, _, _, _, _) => false,
        Tree::Jump(_, _) => false,
        Tree::Halt(_, _) => false,
    }
}
