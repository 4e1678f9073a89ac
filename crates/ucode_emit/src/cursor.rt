//! What a placement says of each point, taken from its lists in order.

ghost use Rattle.std.specs.Prelude.{◌≡◌, ◌+◌, ◌≤◌, suc, length, take, drop, slice_get};
ghost use Rattle.place_plan.specs.Plan.{first_in, pass_in};
ghost use Rattle.ucode_emit.specs.inner.Cursors.{IsCut, of_point};

use place_plan::{First, Pass, Serve};

/// How far the lists of a placement are done.
#[derive(Drop)]
pub struct Cursor {
    pub serves: usize,
    pub firsts: usize,
    pub passes: usize,
}

// The element that stands next, where it is of the point.
fn next_first(firsts: &[First], at: usize, point: u32) -> Option<First>
    ensures { result ≡ of_point (λ f. f.point) point (slice_get firsts.now at) }
{
    match firsts.get(at) {
        Some(f) => { if f.point == point { Some(*f) } else { None } }
        None => None,
    }
}

// The same of passes.
fn next_pass(passes: &[Pass], at: usize, point: u32) -> Option<Pass>
    ensures { result ≡ of_point (λ q. q.point) point (slice_get passes.now at) }
{
    match passes.get(at) {
        Some(q) => { if q.point == point { Some(*q) } else { None } }
        None => None,
    }
}

/// The first register of the access at the next point, 0 where it has none.
pub fn take_first(firsts: &[First], at: &mut usize, point: u32) -> u8
    requires { IsCut (λ f. f.point) firsts.now at.old point }
    ensures next { IsCut (λ f. f.point) firsts.now at.new (suc point) }
    ensures value { result ≡ first_in firsts.now point }
{
    match next_first(firsts, *at, point) {
        Some(f) => {
            *at += 1;
            f.first
        }
        None => 0,
    }
}

/// The pass of the next point, one that names no register where it has none.
pub fn take_pass(passes: &[Pass], at: &mut usize, point: u32) -> Pass
    requires { IsCut (λ q. q.point) passes.now at.old point }
    ensures next { IsCut (λ q. q.point) passes.now at.new (suc point) }
    ensures value { result ≡ pass_in passes.now point }
{
    match next_pass(passes, *at, point) {
        Some(q) => {
            *at += 1;
            q
        }
        None => Pass {
            point,
            l: None,
            s: None,
        },
    }
}

/// The serves of the next point, which has so many operands.
pub fn take_serves<'a>(serves: &'a [Serve], at: &mut usize, n: usize) -> &'a [Serve]
    requires { at.old + n ≤ length serves.now }
    ensures next { at.new ≡ at.old + n }
    ensures value { result.now ≡ take n (drop at.old serves.now) }
{
    let from = *at;
    *at += n;
    &serves[from..*at]
}
