//! Whether numbers tell the values of rows apart.

ghost use Rattle.std.specs.Prelude.{◌≡◌, ◌↔◌, ◌<◌, ℕ, nat_eq, true, false, Some, All, IfNone, IfOk, IfSome, IsTrue};
ghost use Rattle.std.specs.HashMap.{get};
ghost use Rattle.nv_base.specs.Sets.{is_in};
ghost use Rattle.ssu_liveness.specs.LiveRows.{items_of};
ghost use Rattle.reg_assign_numbers.specs.Rows.{HasNumbers};

use nv_base::NoMemory;
use ssu_liveness::Slots;
use std::alloc::Global;

/// The number of a value, where it has one.
fn number_of(numbers: &Slots, x: u32) -> Option<u32>
    ensures { result ≡ get nat_eq numbers.now x }
{
    numbers.get(&x).copied()
}

/// Whether a number is among these.
fn is_among(numbers: &[u32], n: u32) -> bool
    ensures { result ≡ is_in n numbers.now }
{
    numbers.contains(&n)
}

/// The number of a value, if it is below a limit and none of these.
fn new_number(numbers: &Slots, x: u32, limit: u32, seen: &[u32]) -> Option<u32>
    ensures has { IfSome result (λ n. get nat_eq numbers.now x ≡ Some n) }
    ensures below { IfSome result (λ n. n < limit) }
    ensures new { IfSome result (λ n. is_in n seen.now ≡ false) }
    ensures none { IfNone result ((n : ℕ) → get nat_eq numbers.now x ≡ Some n → n < limit → is_in n seen.now ≡ true) }
{
    match number_of(numbers, x) {
        Some(n) => {
            if n < limit && !is_among(seen, n) {
                Some(n)
            } else {
                None
            }
        }
        None => None,
    }
}

/// Whether each value of a row is there once, and they have numbers below a limit, no two the same.
fn row_is_apart(alloc: Global, numbers: &Slots, row: &[u32], limit: u32) -> Result<bool, NoMemory>
    ensures apart { IfOk result (λ b. b ≡ true → HasNumbers (get nat_eq numbers.now) limit row.now) }
    ensures only { IfOk result (λ b. HasNumbers (get nat_eq numbers.now) limit row.now → b ≡ true) }
{
    let mut seen = Vec::new(alloc);
    for x in row {
        match new_number(numbers, *x, limit, &seen) {
            Some(n) => seen.push(n)?,
            None => return Ok(false),
        }
    }
    Ok(true)
}

/// Whether that holds of each row.
pub fn are_apart(
    alloc: Global,
    numbers: &Slots,
    rows: &[Vec<u32>],
    limit: u32,
) -> Result<bool, NoMemory>
    ensures { IfOk result (λ b. IsTrue b ↔ All (HasNumbers (get nat_eq numbers.now) limit) (items_of rows.now)) }
{
    for row in rows {
        if !row_is_apart(alloc, numbers, row, limit)? {
            return Ok(false);
        }
    }
    Ok(true)
}
