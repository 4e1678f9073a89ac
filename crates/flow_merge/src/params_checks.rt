// Whether all parameters are wanted.

ghost use Rattle.std.specs.Prelude.{◌≡◌, ◌↔◌, ℕ, ◌<◌, ◌≤◌, true, Some, map, slice_get, slice_index_or};
ghost use Rattle.nv_base.specs.declared.term.Atom.TheVariants.{Var};
ghost use Rattle.flow_ir.specs.View.{tree_view, label_view};
ghost use Rattle.flow_merge.specs.inner.Ranked.{rank_at, IsFound, IsRanked, AreRanked};

use flow_ir::uses::{in_all, in_atom, in_prim};
use flow_ir::{Label, Tree};
use nv_base::Atom;

// The number at a place, or 0.
fn entry(row: &[u32], j: usize) -> u32
    ensures { result ≡ slice_index_or row.now j 0 }
{
    if j < row.len() { row[j] } else { 0 }
}

// The rank of a parameter.
#[tactic(auto, using(crate::proofs::Ranks::rank_none))]
fn rank_of(ranks: &[Vec<u32>], l: usize, j: usize) -> u32
    ensures { result ≡ rank_at ranks.now l j }
{
    match ranks.get(l) {
        Some(row) => entry(row, j),
        None => 0,
    }
}

// Whether x is among words that are handed on to label k, for a parameter of a lower rank.
fn is_handed(ranks: &[Vec<u32>], rank: u32, x: u32, k: u32, words: &[Atom]) -> bool
    ensures { result ≡ true ↔ ((j : ℕ) × (slice_get words.now j ≡ Some (Var x)) × (rank_at ranks.now k j < rank)) }
{
    for (j, a) in words.iter().enumerate() {
        if in_atom(x, *a) && rank_of(ranks, k as usize, j) < rank {
            return true;
        }
    }
    false
}

// Whether a tree uses x, or hands it on for a parameter of a lower rank.
fn is_found(ranks: &[Vec<u32>], rank: u32, x: u32, t: &Tree) -> bool
    ensures { result ≡ true ↔ IsFound ranks.now rank x (tree_view t.now) }
{
    let mut cur = t;
    'spine: loop {
        match cur {
            Tree::Let(_, p, rest) => {
                if in_prim(x, *p) {
                    return true;
                }
                cur = rest;
            }
            Tree::Read(_, _, a, rest) => {
                if in_atom(x, *a) {
                    return true;
                }
                cur = rest;
            }
            Tree::Write(_, a, bs, rest) => {
                if in_atom(x, *a) || in_all(x, bs) {
                    return true;
                }
                cur = rest;
            }
            Tree::If(_, a, b, first, second) => {
                if in_atom(x, *a) || in_atom(x, *b) || is_found(ranks, rank, x, first) {
                    return true;
                }
                cur = second;
            }
            Tree::Jump(k, bs) => return is_handed(ranks, rank, x, *k, bs),
            Tree::Halt(_, bs) => return in_all(x, bs),
        }
    }
}

// Whether a label wants each of its parameters. Label 0 need not.
fn is_ranked(ranks: &[Vec<u32>], i: usize, l: &Label) -> bool
    ensures { result ≡ true ↔ (1 ≤ i → IsRanked ranks.now i (label_view l.now)) }
{
    if i == 0 {
        return true;
    }
    for (j, x) in l.params.iter().enumerate() {
        if !is_found(ranks, rank_of(ranks, i, j), *x, &l.body) {
            return false;
        }
    }
    true
}

/// Whether each label but 0 does.
pub fn are_ranked(ranks: &[Vec<u32>], labels: &[Label]) -> bool
    ensures { result ≡ true ↔ AreRanked ranks.now (map label_view labels.now) }
{
    for (i, l) in labels.iter().enumerate() {
        if !is_ranked(ranks, i, l) {
            return false;
        }
    }
    true
}
