//! Rows: lists of values, each once.

ghost use Rattle.std.specs.Prelude.{◌≡◌, ◌++◌, ◌∷◌, [], if◌then◌else◌, IfOk, OnOk};
ghost use Rattle.nv_base.specs.Sets.{is_in, without};
ghost use Rattle.ssu_liveness.specs.inner.Live.{add_all};

use nv_base::NoMemory;
use std::alloc::Global;

/// Whether a value is in a row.
pub fn is_in_row(row: &[u32], x: u32) -> bool
    ensures { result ≡ is_in x row.now }
{
    row.contains(&x)
}

/// One value more, where it isn't there.
pub fn add(row: &mut Vec<u32>, x: u32) -> Result<(), NoMemory>
    ensures { OnOk result (row.new.items ≡ (if is_in x row.old.items then row.old.items else row.old.items ++ x ∷ [])) }
{
    if !is_in_row(row, x) {
        row.push(x)?;
    }
    Ok(())
}

/// These values too.
pub fn add_each(row: &mut Vec<u32>, xs: &[u32]) -> Result<(), NoMemory>
    ensures { OnOk result (row.new.items ≡ add_all xs.now row.old.items) }
{
    for x in xs {
        add(row, *x)?;
    }
    Ok(())
}

/// The row without these values.
pub fn remove_each(alloc: Global, row: &[u32], gone: &[u32]) -> Result<Vec<u32>, NoMemory>
    ensures { IfOk result (λ v. v.items ≡ without row.now gone.now) }
{
    let mut kept = Vec::new(alloc);
    for x in row {
        if !is_in_row(gone, *x) {
            kept.push(*x)?;
        }
    }
    Ok(kept)
}
