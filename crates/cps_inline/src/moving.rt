// Variables and labels moved up by a base.

ghost use Rattle.std.specs.Prelude.{◌≡◌, ◌+◌, ◌++◌, IfOk};
ghost use Rattle.cps_inline.specs.inner.Inlined as inner;

use nv_base::{Args, Atom, NoMemory, Prim, Vars};
use std::alloc::Global;

/// A number moved up.
pub fn moved(base: u32, x: u32) -> Result<u32, NoMemory>
    ensures { IfOk result (λ n. n ≡ base + x) }
{
    match base.checked_add(x) {
        Some(n) => Ok(n),
        None => Err(NoMemory),
    }
}

/// An operand, with its variable moved up.
pub fn moved_atom(base: u32, a: Atom) -> Result<Atom, NoMemory>
    ensures { IfOk result (λ b. b ≡ inner.moved_atom base a) }
{
    match a {
        Atom::Var(x) => Ok(Atom::Var(moved(base, x)?)),
        Atom::Lit(v) => Ok(Atom::Lit(v)),
    }
}

/// A primitive, with its variables moved up.
pub fn moved_primitive(base: u32, p: Prim) -> Result<Prim, NoMemory>
    ensures { IfOk result (λ q. q ≡ inner.moved_primitive base p) }
{
    match p {
        Prim::Same(a) => Ok(Prim::Same(moved_atom(base, a)?)),
        Prim::Una(op, a) => Ok(Prim::Una(op, moved_atom(base, a)?)),
        Prim::Bin(op, a, b) => Ok(Prim::Bin(op, moved_atom(base, a)?, moved_atom(base, b)?)),
    }
}

/// Numbers moved up.
pub fn moved_numbers(alloc: Global, base: u32, xs: &[u32]) -> Result<Vec<u32>, NoMemory>
    ensures { IfOk result (λ v. v.items ≡ inner.moved base xs.now) }
{
    let mut v = Vec::new(alloc);
    for x in xs {
        v.push(moved(base, *x)?)?;
    }
    Ok(v)
}

/// Operands, with their variables moved up.
pub fn moved_atoms(alloc: Global, base: u32, xs: &[Atom]) -> Result<Vec<Atom>, NoMemory>
    ensures { IfOk result (λ v. v.items ≡ inner.moved_atoms base xs.now) }
{
    let mut v = Vec::new(alloc);
    for a in xs {
        v.push(moved_atom(base, *a)?)?;
    }
    Ok(v)
}

/// Numbers moved up, in a short list.
pub fn short_numbers(alloc: Global, base: u32, xs: &[u32]) -> Result<Vars, NoMemory>
    ensures { IfOk result (λ v. v.items ≡ inner.moved base xs.now) }
{
    let v = moved_numbers(alloc, base, xs)?;
    Ok(Vars::from_slice(alloc, &v)?)
}

/// Operands with their variables moved up, in a short list.
pub fn short_atoms(alloc: Global, base: u32, xs: &[Atom]) -> Result<Args, NoMemory>
    ensures { IfOk result (λ v. v.items ≡ inner.moved_atoms base xs.now) }
{
    let v = moved_atoms(alloc, base, xs)?;
    Ok(Args::from_slice(alloc, &v)?)
}

/// Handlers, with their labels moved up.
pub fn moved_handlers(
    alloc: Global,
    base: u32,
    hs: &[(u16, u32)],
) -> Result<Vec<(u16, u32)>, NoMemory>
    ensures { IfOk result (λ v. v.items ≡ inner.moved_handlers base hs.now) }
{
    let mut v = Vec::new(alloc);
    for h in hs {
        v.push((h.0, moved(base, h.1)?))?;
    }
    Ok(v)
}

/// Some handlers, and the others after them.
pub fn handlers_after(
    mut v: Vec<(u16, u32)>,
    hs: &[(u16, u32)],
) -> Result<Vec<(u16, u32)>, NoMemory>
    ensures { IfOk result (λ u. u.items ≡ v.items ++ hs.now) }
{
    for h in hs {
        v.push(*h)?;
    }
    Ok(v)
}
