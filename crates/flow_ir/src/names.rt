// Which operand stands for each variable.

ghost use Rattle.std.specs.Prelude.{◌≡◌, OnOk, IfOk};
ghost use Rattle.flow_ir.specs.Substitution as substitution;
ghost use Rattle.flow_ir.specs.Substitution.{all_renamed, prim_renamed, look, IsNamed, AreNamed};

use nv_base::{Args, Atom, NoMemory, Prim};
use std::alloc::Global;

/// What stands for a variable.
pub fn name_of(names: &[Atom], x: u32) -> Atom
    ensures { result ≡ look names.now x }
{
    let i = x as usize;
    if i < names.len() {
        names[i]
    } else {
        Atom::Lit(0)
    }
}

/// From now on `a` stands for `x`.
pub fn name(names: &mut Vec<Atom>, x: u32, a: Atom) -> Result<(), NoMemory>
    ensures { OnOk result (IsNamed (look names.old.items) x a (look names.new.items)) }
{
    let i = x as usize;
    while names.len() <= i {
        names.push(Atom::Lit(0))?;
    }
    names[i] = a;
    Ok(())
}

/// From now on each of these variables stands for itself.
pub fn name_all(names: &mut Vec<Atom>, xs: &[u32]) -> Result<(), NoMemory>
    ensures { OnOk result (AreNamed (look names.old.items) xs.now (look names.new.items)) }
{
    for x in xs {
        name(names, *x, Atom::Var(*x))?;
    }
    Ok(())
}

/// An operand with what stands for its variable.
pub fn renamed(names: &[Atom], a: Atom) -> Atom
    ensures { result ≡ substitution.renamed (look names.now) a }
{
    match a {
        Atom::Var(x) => name_of(names, x),
        Atom::Lit(v) => Atom::Lit(v),
    }
}

/// A primitive with what stands for its variables.
pub fn renamed_prim(names: &[Atom], p: Prim) -> Prim
    ensures { result ≡ prim_renamed (look names.now) p }
{
    match p {
        Prim::Same(a) => Prim::Same(renamed(names, a)),
        Prim::Una(op, a) => Prim::Una(op, renamed(names, a)),
        Prim::Bin(op, a, b) => Prim::Bin(op, renamed(names, a), renamed(names, b)),
    }
}

/// Operands with what stands for their variables.
pub fn renamed_all(alloc: Global, names: &[Atom], atoms: &[Atom]) -> Result<Vec<Atom>, NoMemory>
    ensures { IfOk result (λ v. v.items ≡ all_renamed (look names.now) atoms.now) }
{
    let mut v = Vec::new(alloc);
    for a in atoms {
        v.push(renamed(names, *a))?;
    }
    Ok(v)
}

/// The same as a short list.
pub fn renamed_args(alloc: Global, names: &[Atom], atoms: &[Atom]) -> Result<Args, NoMemory>
    ensures { IfOk result (λ v. v.items ≡ all_renamed (look names.now) atoms.now) }
{
    let mut v = Args::new(alloc);
    for a in atoms {
        v.push(renamed(names, *a))?;
    }
    Ok(v)
}

/// The same numbers.
pub fn numbers(alloc: Global, xs: &[u32]) -> Result<Vec<u32>, NoMemory>
    ensures { IfOk result (λ v. v.items ≡ xs.now) }
{
    Ok(xs.to_vec(alloc)?)
}
