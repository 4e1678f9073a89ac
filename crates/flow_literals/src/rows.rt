// The literals that each label takes.

ghost use Rattle.std.specs.Prelude.{◌+◌, ◌≤◌, ◌⊎◌, length, IfOk, map};
ghost use Rattle.nv_base.specs.Sets.{Within};
ghost use Rattle.flow_ir.specs.View.{label_view};
ghost use Rattle.flow_literals.specs.Turns.{turn_literals as turn};
ghost use Rattle.flow_literals.specs.inner.Hoisted.{IsRow, AreRows};

use crate::choice::wished;
use crate::turns::{are_among, goes_back, turn_literals};
use flow_ir::Label;
use flow_ir::names::numbers;
use nv_base::NoMemory;
use std::alloc::Global;

// The wish, where it leaves nothing to do; else all literals that each turn loads.
fn enough(
    alloc: Global,
    literals: usize,
    params: usize,
    l: u32,
    label: &Label,
    wish: &[u32],
) -> Result<Vec<u32>, NoMemory>
    ensures { IfOk result (λ v. (literals ≤ length v.items) ⊎ ((params ≤ length v.items + length (label_view label.now).params) ⊎ Within (turn l (label_view label.now).body) v.items)) }
{
    let turn = turn_literals(alloc, l, &label.body)?;
    let is_full = wish.len() >= literals || wish.len() + label.params.len() >= params;
    if is_full || are_among(&turn, wish) {
        numbers(alloc, wish)
    } else {
        Ok(turn)
    }
}

// The literals that a label takes.
fn row(
    alloc: Global,
    literals: usize,
    params: usize,
    l: u32,
    label: &Label,
    wish: &[u32],
) -> Result<Vec<u32>, NoMemory>
    ensures { IfOk result (λ v. IsRow literals params l (label_view label.now) v) }
{
    if l == 0 {
        return Ok(Vec::new(alloc));
    }
    if goes_back(l, &label.body) {
        enough(alloc, literals, params, l, label, wish)
    } else {
        numbers(alloc, wish)
    }
}

/// The literals that each label takes.
pub fn rows(
    alloc: Global,
    literals: usize,
    params: usize,
    labels: &[Label],
) -> Result<Vec<Vec<u32>>, NoMemory>
    ensures { IfOk result (λ v. AreRows literals params 0 (map label_view labels.now) v.items) }
{
    let wishes = wished(alloc, literals, params, labels)?;
    let mut v = Vec::new(alloc);
    let mut i: u32 = 0;
    for l in labels {
        v.push(row(alloc, literals, params, i, l, wishes.of(i))?)?;
        match i.checked_add(1) {
            Some(next) => i = next,
            None => return Err(NoMemory),
        }
    }
    Ok(v)
}
