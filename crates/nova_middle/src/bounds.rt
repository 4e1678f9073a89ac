// What a flat program allows its single-use form, and whether a form keeps within it.

ghost use Rattle.std.specs.Prelude.{◌≡◌, ◌↔◌, ◌*◌, ◌≤◌, true, IfOk, map};
ghost use Rattle.flow_ir.specs.Bulk.{bulk};
ghost use Rattle.flow_ir.specs.View.{label_view};
ghost use Rattle.flow_ir.specs.Wide.{wide};
ghost use Rattle.flow_merge.specs.inner.Sizes.{bulk_of};
ghost use Rattle.ssu_ir.specs.Measures.{peak, size};
ghost use Rattle.ssu_ir.specs.Single.{single};
ghost use Rattle.ssu_ir.specs.View.{labels_view};
ghost use Rattle.ssu_make.specs.Bounds.{size_bound, length_bound};

use crate::parts::sum;
use flow_ir::Flow;
use flow_merge::{Sizes, sizes_of};
use nv_base::NoMemory;
use ssu_ir::Ssu;
use std::alloc::Global;

/// How much a form may hold at once, and how large it and its code may be.
#[derive(Clone, Copy)]
pub struct Bounds {
    pub peak: usize,
    pub size: usize,
    pub length: usize,
}

// The product, where it is below 2^64.
fn product(a: usize, b: usize) -> Result<usize, NoMemory>
    ensures { IfOk result (λ n. n ≡ a * b) }
{
    match a.checked_mul(b) {
        Some(n) => Ok(n),
        None => Err(NoMemory),
    }
}

// The bound for points, values and uses.
fn size_of(width: usize, s: &Sizes) -> Result<usize, NoMemory>
    ensures { IfOk result (λ n. n ≡ size_bound width (bulk_of s.now)) }
{
    let labels = product(s.labels, sum(1, product(2, width)?)?)?;
    let jumps = product(s.jumps, sum(1, product(9, width.max(8))?)?)?;
    let defined = product(2, s.defined)?;
    let used = product(9, s.used)?;
    sum(labels, sum(jumps, sum(sum(s.nodes, defined)?, used)?)?)
}

// The bound for instructions.
fn length_of(width: usize, s: &Sizes) -> Result<usize, NoMemory>
    ensures { IfOk result (λ n. n ≡ length_bound width (bulk_of s.now)) }
{
    let labels = product(s.labels, product(3, width)?)?;
    let jumps = product(s.jumps, sum(1, product(21, width.max(8))?)?)?;
    let nodes = product(2, s.nodes)?;
    let defined = product(4, s.defined)?;
    let used = product(18, s.used)?;
    sum(
        sum(labels, sum(jumps, sum(sum(nodes, defined)?, used)?)?)?,
        24,
    )
}

/// The bounds that the width and the bulk of a flow give.
pub fn bounds_of(alloc: Global, f: &Flow) -> Result<Bounds, NoMemory>
    ensures peak { IfOk result (λ b. b.peak ≡ wide (map label_view f.now.labels.items)) }
    ensures size { IfOk result (λ b. b.size ≡ size_bound (wide (map label_view f.now.labels.items)) (bulk (map label_view f.now.labels.items))) }
    ensures length { IfOk result (λ b. b.length ≡ length_bound (wide (map label_view f.now.labels.items)) (bulk (map label_view f.now.labels.items))) }
{
    let peak = crate::wide(alloc, &f.labels)?;
    let sizes = sizes_of(&f.labels)?;
    let size = size_of(peak, &sizes)?;
    let length = length_of(peak, &sizes)?;
    Ok(Bounds { peak, size, length })
}

/// Whether a form is within bounds. No node makes more than 6 instructions for each point, value and use.
pub fn is_within(alloc: Global, b: &Bounds, s: &Ssu) -> Result<bool, NoMemory>
    requires { single (labels_view s.now) ≡ true }
    ensures { IfOk result (λ r. r ≡ true ↔ ((peak (labels_view s.now) ≤ b.now.peak) × (size (labels_view s.now) ≤ b.now.size) × (6 * size (labels_view s.now) ≤ b.now.length))) }
{
    let held = ssu_liveness::peak(alloc, s)? as usize;
    let whole = ssu_ir::size(alloc, s)? as usize;
    Ok(held <= b.peak && whole <= b.size && whole <= b.length / 6)
}
