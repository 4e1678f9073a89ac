//! The need of a block: of its parts, each with the words that its lets hold meanwhile.

ghost use Rattle.std.specs.Prelude.{◌≡◌, [], ℕ, List, IfOk};
ghost use Rattle.nv_ast.specs.PatternView.{pattern_tree};
ghost use Rattle.nv_ast.specs.Scope.{names_in};
ghost use Rattle.nv_types_table.specs.inner.Cells.{still};
ghost use Rattle.nv_types_table.specs.inner.Named.{named, plain_names};
ghost use Rattle.nv_types_table.specs.inner.Needs.{held_for, IsEnds, IsEnd, block_needs};

use crate::names::add_names;
use indexmap::IndexMap;
use nv_ast::{Name, Pat};
use nv_base::NoMemory;
use std::alloc::Global;

/// A statement of a block: how many variables were written before it, its need, and of a let the pattern
/// and the words of its value.
#[derive(Clone, Copy)]
pub struct Step<'a> {
    pub before: usize,
    pub need: u64,
    pub pattern: Option<&'a Pat>,
    pub words: u64,
}

// What a let holds: its words, and the place after the last one where a variable of its pattern is written.
#[derive(Clone, Copy)]
struct OpenNeed {
    words: u64,
    until: usize,
}

/// The greatest need of a block's parts by the last places of its variables.
pub fn greatest_need<'a>(
    alloc: Global,
    ends: &IndexMap<&'a Name, usize>,
    steps: &[Step<'a>],
    last: usize,
    tail_need: u64,
) -> Result<u64, NoMemory>
    ensures { (xs : List (List ℕ)) (first : ℕ) → IsEnds first xs (named ends.now.entries) → IfOk result (λ n. n ≡ block_needs xs first [] steps.now last tail_need) }
{
    let mut held = Vec::new(alloc);
    let mut most: u64 = 0;
    for step in steps {
        most = most.max(pending(&held, step.before).saturating_add(step.need));
        if let Some(p) = step.pattern {
            let until = last_place(alloc, ends, p)?;
            held.push(OpenNeed {
                words: step.words,
                until,
            })?;
        }
    }
    Ok(most.max(pending(&held, last).saturating_add(tail_need)))
}

// The place after the last one where a name of a pattern is written, or 0.
fn last_place<'a>(
    alloc: Global,
    ends: &IndexMap<&'a Name, usize>,
    p: &'a Pat,
) -> Result<usize, NoMemory>
    ensures { (xs : List (List ℕ)) (first : ℕ) → IsEnds first xs (named ends.now.entries) → IfOk result (λ n. IsEnd first xs (names_in (pattern_tree p.now)) n) }
{
    let mut names = Vec::new(alloc);
    add_names(p, &mut names)?;
    Ok(latest(ends, &names))
}

// The place after the last one where one of some names is written, or 0.
fn latest<'a>(ends: &IndexMap<&'a Name, usize>, names: &[&'a Name]) -> usize
    ensures { (xs : List (List ℕ)) (first : ℕ) → IsEnds first xs (named ends.now.entries) → IsEnd first xs (plain_names names.now) result }
{
    let mut until: usize = 0;
    for name in names {
        if let Some(end) = ends.get(name) {
            until = until.max(*end);
        }
    }
    until
}

// The words that are held for what is written from a place on.
fn pending(held: &[OpenNeed], place: usize) -> u64
    ensures { result ≡ still (held_for held.now place) }
{
    let mut words: u64 = 0;
    for h in held {
        if h.until > place {
            words = words.saturating_add(h.words);
        }
    }
    words
}
