//! The numbers of the columns.

ghost use Rattle.std.specs.Prelude.{◌≡◌, ◌≤◌, ◌^◌, ℕ, Some, None, length, map, if◌then◌else◌, IfOk, OnOk};
ghost use Rattle.std.specs.HashMap.{get};
ghost use Rattle.bank_prog_form.specs.Program.{same_column, number_in};
ghost use Rattle.bank_prog_form.specs.inner.Adds.{either};
ghost use Rattle.bank_prog_form.specs.declared.column.Column as column;

use crate::column::Column;
use nv_base::NoMemory;
use std::alloc::Global;
use std::collections::HashMap;

/// At most N columns, and N rows.
pub const COUNT_LIMIT: usize = 1 << 26;

/// Of each column that is there its number.
pub type Numbers = HashMap<Column, u32>;

/// The number of a column, where it is there.
pub fn number(numbers: &Numbers, c: Column) -> Option<u32>
    ensures { result ≡ get same_column numbers.now c }
{
    numbers.get(&c).copied()
}

/// Numbers a column, where it isn't there already.
fn note(numbers: &mut Numbers, c: Column, j: u32) -> Result<(), NoMemory>
    ensures { OnOk result ((d : column.Column) → get same_column numbers.new d ≡ either (get same_column numbers.old d) (if same_column c d then Some j else None)) }
{
    if numbers.get(&c).is_none() {
        numbers.insert(c, j)?;
    }
    Ok(())
}

/// The place of each column among these.
pub fn number_columns(alloc: Global, columns: &[(Column, u32)]) -> Result<Numbers, NoMemory>
    requires { length columns.now ≤ 2 ^ 26 }
    ensures { IfOk result (λ m. (c : column.Column) → get same_column m c ≡ number_in 0 (map (λ d. d.0) columns.now) c) }
{
    let mut numbers = HashMap::new(alloc);
    for j in 0..columns.len() {
        note(&mut numbers, columns[j].0, j as u32)?;
    }
    Ok(numbers)
}
