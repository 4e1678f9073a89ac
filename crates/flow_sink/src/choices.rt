// What sinks, and how much code there is.

ghost use Rattle.std.specs.Prelude.{◌≡◌, ◌+◌, ◌<◌, MatchOption};
ghost use Rattle.flow_ir.specs.View.{tree_view};
ghost use Rattle.flow_sink.specs.Sunk as spec;
ghost use Rattle.flow_sink.specs.Sunk.{nodes};

use flow_ir::Tree;
use flow_ir::uses::{in_all, in_atom, in_prim, mentions};

// Whether one of two holds alone.
fn differ(a: bool, b: bool) -> bool
    ensures { result ≡ spec.differ a b }
{
    a != b
}

/// Whether one arm alone of a tree's first choice uses a variable, and nothing before the arms does.
pub fn sinks(x: u32, t: &Tree) -> bool
    ensures { result ≡ spec.sinks x (tree_view t.now) }
{
    let mut cur = t;
    'spine: loop {
        match cur {
            Tree::Let(_, p, rest) => {
                if in_prim(x, *p) {
                    return false;
                }
                cur = rest;
            }
            Tree::Read(_, _, a, rest) => {
                if in_atom(x, *a) {
                    return false;
                }
                cur = rest;
            }
            Tree::Write(_, a, bs, rest) => {
                if in_atom(x, *a) || in_all(x, bs) {
                    return false;
                }
                cur = rest;
            }
            Tree::If(_, a, b, first, second) => {
                if in_atom(x, *a) || in_atom(x, *b) {
                    return false;
                }
                return differ(mentions(x, first), mentions(x, second));
            }
            Tree::Jump(_, _) => return false,
            Tree::Halt(_, _) => return false,
        }
    }
}

/// What is left of so many nodes without those of a tree, where it has no more.
pub fn left(most: u32, t: &Tree) -> Option<u32>
    ensures { MatchOption result (most < nodes (tree_view t.now)) (λ n. n + nodes (tree_view t.now) ≡ most) }
{
    let mut n = most;
    let mut cur = t;
    'spine: loop {
        if n == 0 {
            return None;
        }
        n -= 1;
        match cur {
            Tree::Let(_, _, rest) => cur = rest,
            Tree::Read(_, _, _, rest) => cur = rest,
            Tree::Write(_, _, _, rest) => cur = rest,
            Tree::If(_, _, _, first, second) => {
                match left(n, first) {
                    Some(m) => n = m,
                    None => return None,
                }
                cur = second;
            }
            Tree::Jump(_, _) => return Some(n),
            Tree::Halt(_, _) => return Some(n),
        }
    }
}
