//! Where runs of registers may begin.

ghost use Rattle.std.specs.Prelude.{◌≡◌, ◌++◌, IfOk, OnOk};
ghost use Rattle.std.specs.List.{flat_map};
ghost use Rattle.bank_prog_form.specs.Columns as columns;
ghost use Rattle.bank_prog_form.specs.inner.Form as form;
ghost use Rattle.bank_prog_form.specs.inner.Form.{origin_view};
ghost use Rattle.place_plan.specs.inner.UseViews.{role_view};

use crate::form::Origin;
use nv_base::{Mem, NoMemory};
use place_plan::Role;
use std::alloc::Global;

/// Whether n words from register f on are registers of their bank.
fn may_begin(m: Mem, n: u32, f: u8) -> bool
    ensures { result ≡ columns.may_begin m n f }
{
    let end = u64::from(f) + u64::from(n);
    match m {
        Mem::Sram => end <= 8,
        Mem::Sdram => end <= 8 && f % 2 == 0,
        Mem::Scratch => end <= 8,
    }
}

fn push_beginning(fs: &mut Vec<u8>, m: Mem, n: u32, f: u8) -> Result<(), NoMemory>
    ensures { OnOk result (fs.new.items ≡ fs.old.items ++ form.beginning m n f) }
{
    if may_begin(m, n, f) {
        fs.push(f)?;
    }
    Ok(())
}

fn push_beginnings(fs: &mut Vec<u8>, m: Mem, n: u32, firsts: &[u8]) -> Result<(), NoMemory>
    ensures { OnOk result (fs.new.items ≡ fs.old.items ++ flat_map (form.beginning m n) firsts.now) }
{
    for f in firsts {
        push_beginning(fs, m, n, *f)?;
    }
    Ok(())
}

/// Where an access of n words may begin.
pub fn beginnings(alloc: Global, m: Mem, n: u32) -> Result<Vec<u8>, NoMemory>
    ensures { IfOk result (λ fs. fs.items ≡ columns.beginnings m n) }
{
    let mut fs = Vec::new(alloc);
    push_beginnings(&mut fs, m, n, &[0, 1, 2, 3, 4, 5, 6, 7])?;
    Ok(fs)
}

/// Where the write of a word may begin.
pub fn role_beginnings(alloc: Global, n: u32, role: Role) -> Result<Vec<u8>, NoMemory>
    ensures { IfOk result (λ fs. fs.items ≡ columns.role_beginnings n (role_view role)) }
{
    match role {
        Role::Written(m, _) => beginnings(alloc, m, n),
        Role::Operand => Ok(Vec::new(alloc)),
        Role::Address => Ok(Vec::new(alloc)),
        Role::Argument(_, _) => Ok(Vec::new(alloc)),
        Role::Ending(_) => Ok(Vec::new(alloc)),
    }
}

/// Where the read of a value may begin.
pub fn origin_beginnings(alloc: Global, n: u32, origin: Origin) -> Result<Vec<u8>, NoMemory>
    ensures { IfOk result (λ fs. fs.items ≡ columns.origin_beginnings n (origin_view origin)) }
{
    match origin {
        Origin::Parameter(_, _) => Ok(Vec::new(alloc)),
        Origin::Result => Ok(Vec::new(alloc)),
        Origin::Fetched(m, _) => beginnings(alloc, m, n),
    }
}
