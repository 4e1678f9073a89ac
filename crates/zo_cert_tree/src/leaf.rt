//! The bound of a leaf.
//!
//! Only the columns that the leaf's rows touch are visited: of the others those fixed at 1 add their cost alone, which the
//! walk keeps as a running sum.

ghost use Rattle.std.specs.Prelude.{◌≡◌, ◌≢◌, ℕ, ◌+◌, ◌-◌, ◌*◌, ◌<◌, ◌≤◌, ◌^◌, [], length, pos, ◌+ℤ◌, ◌-ℤ◌, ◌*ℤ◌, IsTrue, ◌↔◌, All, slice_index_or};
ghost use Rattle.zo_model.specs.Program.{AreSmallTerms, AtMost, IsValid, Rise, columns};
ghost use Rattle.zo_cert_tree.specs.Certificate.{NamesRows, NamesItsRows, bound, coefficient, least_sum, weight};
ghost use Rattle.zo_cert_tree.specs.inner.Leaf.{Avoids, IsClear, changes};
ghost use Rattle.zo_cert_tree.specs.inner.Leaf as leaf;
ghost use Rattle.zo_cert_tree.specs.inner.Path.{current};

use crate::cert::CertNode;
use crate::path::Path;
use zo_model::ZeroOne;

/// `m * a`.
fn product(m: u32, a: i32) -> i128
    ensures value { result ≡ pos m *ℤ a }
    ensures range { m < 2 ^ 32 }
{
    i128::from(m) * i128::from(a)
}

/// `d * (t - 1)`.
pub fn target(d: u32, t: u64) -> i128
    ensures { result ≡ pos d *ℤ (pos t -ℤ pos 1) }
{
    i128::from(d) * (i128::from(t) - 1)
}

/// `d * cost`.
fn scaled(d: u32, cost: u64) -> i128
    requires { cost ≤ 2 ^ 46 }
    ensures value { result ≡ pos d *ℤ pos cost }
    ensures bounded { AtMost (2 ^ 78) result }
{
    i128::from(d) * i128::from(cost)
}

/// By how much a column of this weight changes the bound.
fn change(place: Option<bool>, d: u32, cost: u32, weight: i128) -> i128
    requires { AtMost (2 ^ 99) weight }
    ensures value { result ≡ leaf.change place (pos (d * cost)) weight }
{
    match place {
        Some(true) => -weight,
        Some(false) => 0,
        None => (i128::from(d) * i128::from(cost) - weight).min(0),
    }
}

/// Whether the rows rise and are below the limit.
pub fn rise(limit: usize, multipliers: &[(u32, u32)]) -> bool
    ensures { IsTrue result ↔ Rise 0 limit multipliers.now }
{
    let mut next: usize = 0;
    for (i, _) in multipliers {
        let row = *i as usize;
        if row < next || row >= limit {
            return false;
        }
        next = row + 1;
    }
    true
}

/// Whether the rows rise and are there.
pub fn names_rows(z: &ZeroOne, multipliers: &[(u32, u32)]) -> bool
    ensures { IsTrue result ↔ NamesRows z.now multipliers.now }
{
    rise(z.rows.len(), multipliers)
}

/// Adds `m` times the row to the columns' weights.
fn add_row(weights: &mut [i128], terms: &[(u32, i32)], m: u32)
    requires terms { AreSmallTerms (length weights.old) terms.now }
    requires room { All (AtMost (2 ^ 100)) weights.old }
    ensures added { (j : ℕ) → j < length weights.old → slice_index_or weights.new j (pos 0) ≡ slice_index_or weights.old j (pos 0) +ℤ pos m *ℤ coefficient terms.now j }
    ensures bounded { (b : ℕ) → All (AtMost b) weights.old → All (AtMost (b + 2 ^ 73)) weights.new }
{
    for (j, a) in terms {
        weights[*j as usize] += product(m, *a);
    }
}

/// Writes the weights of the columns.
fn weigh(weights: &mut [i128], z: &ZeroOne, multipliers: &[(u32, u32)])
    requires valid { IsValid z.now }
    requires clear { IsClear (columns z.now) weights.old }
    requires rows { NamesRows z.now multipliers.now }
    ensures value { (j : ℕ) → j < columns z.now → slice_index_or weights.new j (pos 0) ≡ weight z.now multipliers.now j }
    ensures bounded { All (AtMost (2 ^ 99)) weights.new }
{
    for (i, m) in multipliers {
        add_row(weights, &z.rows[*i as usize].terms, *m);
    }
}

/// The sum of the multiplied leasts.
fn least_total(z: &ZeroOne, multipliers: &[(u32, u32)]) -> i128
    requires valid { IsValid z.now }
    requires rows { NamesRows z.now multipliers.now }
    ensures value { result ≡ least_sum z.now multipliers.now }
    ensures bounded { AtMost (2 ^ 88) result }
{
    let mut sum: i128 = 0;
    for (i, m) in multipliers {
        sum += product(*m, z.rows[*i as usize].least);
    }
    sum
}

/// What the columns of a row change the bound by; their weights are then 0.
fn drain_row(
    z: &ZeroOne,
    d: u32,
    fixed: &[Option<bool>],
    terms: &[(u32, i32)],
    weights: &mut [i128],
) -> i128
    requires valid { IsValid z.now }
    requires columns { length weights.old ≡ columns z.now }
    requires places { length fixed.now ≡ columns z.now }
    requires terms { AreSmallTerms (columns z.now) terms.now }
    requires room { All (AtMost (2 ^ 99)) weights.old }
    ensures value { changes z.now.costs.items d weights.old fixed.now (columns z.now) ≡ result +ℤ changes z.now.costs.items d weights.new fixed.now (columns z.now) }
    ensures cleared { (j : ℕ) → (Avoids j terms.now → slice_index_or weights.old j (pos 0) ≡ pos 0) → slice_index_or weights.new j (pos 0) ≡ pos 0 }
    ensures bounded { All (AtMost (2 ^ 99)) weights.new }
{
    let mut sum: i128 = 0;
    for (j, _) in terms {
        let column = *j as usize;
        sum += change(fixed[column], d, z.costs[column], weights[column]);
        weights[column] = 0;
    }
    sum
}

/// What the columns of the rows change the bound by; all weights are then 0.
fn drain(
    z: &ZeroOne,
    d: u32,
    fixed: &[Option<bool>],
    multipliers: &[(u32, u32)],
    weights: &mut [i128],
) -> i128
    requires valid { IsValid z.now }
    requires columns { length weights.old ≡ columns z.now }
    requires places { length fixed.now ≡ columns z.now }
    requires rows { NamesRows z.now multipliers.now }
    requires value { (j : ℕ) → j < columns z.now → slice_index_or weights.old j (pos 0) ≡ weight z.now multipliers.now j }
    requires room { All (AtMost (2 ^ 99)) weights.old }
    ensures value { result ≡ changes z.now.costs.items d weights.old fixed.now (columns z.now) }
    ensures bounded { AtMost (2 ^ 127 - 2 ^ 91) result }
    ensures clear { IsClear (columns z.now) weights.new }
{
    let mut sum: i128 = 0;
    for (i, _) in multipliers {
        sum += drain_row(z, d, fixed, &z.rows[*i as usize].terms, weights);
    }
    sum
}

/// The bound of a leaf with these multipliers.
///
/// The weights are room for the columns of the program, all 0 before and after.
pub fn leaf_bound(
    z: &ZeroOne,
    d: u32,
    multipliers: &[(u32, u32)],
    path: &Path,
    weights: &mut [i128],
) -> i128
    requires valid { IsValid z.now }
    requires path { path.now.costs ≡ z.now.costs.items }
    requires more { path.now.fixings ≢ [] }
    requires clear { IsClear (columns z.now) weights.old }
    requires rows { NamesRows z.now multipliers.now }
    ensures value { result ≡ bound z.now d multipliers.now (current path.now.fixings) }
    ensures clear { IsClear (columns z.now) weights.new }
{
    weigh(weights, z, multipliers);
    let changes = drain(z, d, &path.fixed().at, multipliers, weights);
    least_total(z, multipliers) + scaled(d, path.spent()) + changes
}

/// Whether the rows that the node names, if any, rise and are there.
pub fn is_well_named(z: &ZeroOne, node: &CertNode) -> bool
    ensures { IsTrue result ↔ NamesItsRows z.now node.now }
{
    match node {
        CertNode::Bound(_, multipliers) => names_rows(z, multipliers),
        CertNode::Clash(multipliers) => names_rows(z, multipliers),
        CertNode::Branch(_) | CertNode::Left => true,
    }
}
