// Runs of labels.

ghost use Rattle.std.specs.Prelude.{◌≡◌, ◌+◌, ◌*◌, ◌<◌, ◌≤◌, ◌^◌, true, All, Some, Ok, IfOk, OnOk, OnErr, length, replicate, slice_get, slice_index_or, slice_set, sum, vec_capacity};
ghost use Rattle.nv_base.specs.declared.outcome.Outcome.{Outcome};
ghost use Rattle.nv_base.specs.Log.{Log, noted_all};
ghost use Rattle.nv_base.specs.World.{World};
ghost use Rattle.ssu_ir.specs.Entered.{tree_exit, label_exit, AreEntries};
ghost use Rattle.ssu_ir.specs.Meaning.{ssu_meaning, ssu_params};
ghost use Rattle.ssu_ir.specs.Single as rules;
ghost use Rattle.ssu_ir.specs.Single.{are_nodes, uses_once, takes_as_many};
ghost use Rattle.ssu_ir.specs.View.{labels_view};
ghost use Rattle.ssu_ir.specs.inner.Running.{At, LeftBy, HasRoom, env_of};
ghost use Rattle.ssu_ir.specs.inner.Under.{HasTree, tree_at};

use crate::node::NodeId;
use crate::places::{places, room};
use crate::ssu::Ssu;
use crate::step::{LabelExit, NextStep, step};
use crate::variables::assign_all;
use nv_base::{NoMemory, Outcome, Packet, WriteLog};
use std::alloc::Global;

// Runs the nodes of a label from this one on, until the label is left.
fn leave(
    s: &Ssu,
    from: NodeId,
    values: &mut [u32],
    words: &mut Vec<u32>,
    p: &mut Packet,
    log: &mut WriteLog,
) -> LabelExit
    requires tree { HasTree s.now.nodes.slots from.0 }
    requires nodes { are_nodes (labels_view s.now) (tree_at s.now.nodes.slots from.0) ≡ true }
    requires once { uses_once (tree_at s.now.nodes.slots from.0) ≡ true }
    requires room { HasRoom s.now (length values.old) (vec_capacity words.old) }
    requires countable { log.old.count + 2 ^ 32 < 2 ^ 63 }
    ensures left { (log0 : Log) (w : World) → At log0 p.old log.old w → LeftBy (tree_exit (tree_at s.now.nodes.slots from.0) (env_of values.old) w) log0 result words.new.items p.new log.new }
    ensures counted { log.new.count ≤ log.old.count + 2 ^ 32 }
    ensures places { length values.new ≡ length values.old }
    ensures room { vec_capacity words.new ≡ vec_capacity words.old }
{
    let mut id = from;
    'walk: loop {
        match step(s.node(id), values, words, p, log) {
            NextStep::On(next) => id = next,
            NextStep::Left(l) => return l,
        }
    }
}

// Runs a label on the words that were collected.
fn visit(
    s: &Ssu,
    label: u32,
    values: &mut [u32],
    words: &mut Vec<u32>,
    p: &mut Packet,
    log: &mut WriteLog,
) -> LabelExit
    requires single { rules.single (labels_view s.now) ≡ true }
    requires fits { takes_as_many (length words.old.items) (slice_get (labels_view s.now) label) ≡ true }
    requires room { HasRoom s.now (length values.old) (vec_capacity words.old) }
    requires countable { log.old.count + 2 ^ 32 < 2 ^ 63 }
    ensures left { (log0 : Log) (w : World) → At log0 p.old log.old w → LeftBy (label_exit (slice_get (labels_view s.now) label) words.old.items w) log0 result words.new.items p.new log.new }
    ensures counted { log.new.count ≤ log.old.count + 2 ^ 32 }
    ensures places { length values.new ≡ length values.old }
    ensures room { vec_capacity words.new ≡ vec_capacity words.old }
{
    let l = &s.labels[label as usize];
    assign_all(values, &l.params, words);
    leave(s, l.body, values, words, p, log)
}

// Counts an entry of a label.
fn count(counts: &mut Vec<u64>, label: u32)
    requires inside { label < length counts.old.items }
    requires few { slice_index_or counts.old.items label 0 < 2 ^ 63 }
    ensures { counts.new.items ≡ slice_set counts.old.items label (slice_index_or counts.old.items label 0 + 1) }
{
    counts[label as usize] += 1;
}

// Runs labels on the words that were collected, with `n` jumps, and counts the entries of each.
fn run(
    s: &Ssu,
    values: &mut [u32],
    words: &mut Vec<u32>,
    p: &mut Packet,
    log: &mut WriteLog,
    counts: &mut Vec<u64>,
    n: u64,
) -> Outcome
    requires single { rules.single (labels_view s.now) ≡ true }
    requires fits { takes_as_many (length words.old.items) (slice_get (labels_view s.now) 0) ≡ true }
    requires zeros { counts.old.items ≡ replicate (length s.now.labels.items) 0 }
    requires room { HasRoom s.now (length values.old) (vec_capacity words.old) }
    requires jumps { n ≤ 100000000 }
    requires countable { log.old.count + (n + 1) * 2 ^ 32 < 2 ^ 63 }
    ensures outcome { result ≡ (ssu_meaning (labels_view s.now) words.old.items p.old n).outcome }
    ensures packet { p.new ≡ (ssu_meaning (labels_view s.now) words.old.items p.old n).packet }
    ensures log { log.new ≡ noted_all log.old (ssu_meaning (labels_view s.now) words.old.items p.old n).writes }
    ensures counts { AreEntries counts.new.items (labels_view s.now) words.old.items p.old n }
    ensures going { result ≡ Outcome.Going → sum counts.new.items ≡ n + 1 }
{
    let mut label = 0;
    'jumps: for _ in 0..n + 1 {
        count(counts, label);
        match visit(s, label, values, words, p, log) {
            LabelExit::Over(o) => return o,
            LabelExit::Jump(l) => label = l,
        }
    }
    Outcome::Going
}

// The arguments, with room for the words of every jump.
fn first_words(alloc: Global, args: &[u32], room: usize) -> Result<Vec<u32>, NoMemory>
    ensures words { IfOk result (λ v. v.items ≡ args.now) }
    ensures room { IfOk result (λ v. room ≤ vec_capacity v) }
{
    let mut words = Vec::with_capacity(alloc, room)?;
    words.extend_from_slice(args)?;
    Ok(words)
}

/// Runs labels on these words and memories with `n` jumps, and counts how often each label is
/// entered. Without memory nothing is run.
pub fn enter(
    alloc: Global,
    s: &Ssu,
    args: &[u32],
    p: &mut Packet,
    log: &mut WriteLog,
    counts: &mut Vec<u64>,
    n: u64,
) -> Result<Outcome, NoMemory>
    requires single { rules.single (labels_view s.now) ≡ true }
    requires arguments { length args.now ≡ ssu_params (labels_view s.now) }
    requires zeros { counts.old.items ≡ replicate (length s.now.labels.items) 0 }
    requires jumps { n ≤ 100000000 }
    requires countable { log.old.count + (n + 1) * 2 ^ 32 < 2 ^ 63 }
    ensures outcome { IfOk result (λ o. o ≡ (ssu_meaning (labels_view s.now) args.now p.old n).outcome) }
    ensures packet { OnOk result (p.new ≡ (ssu_meaning (labels_view s.now) args.now p.old n).packet) }
    ensures log { OnOk result (log.new ≡ noted_all log.old (ssu_meaning (labels_view s.now) args.now p.old n).writes) }
    ensures counts { OnOk result (AreEntries counts.new.items (labels_view s.now) args.now p.old n) }
    ensures going { result ≡ Ok Outcome.Going → sum counts.new.items ≡ n + 1 }
    ensures unchanged { OnErr result ((p.new ≡ p.old) × (log.new ≡ log.old) × (counts.new.items ≡ counts.old.items)) }
{
    let mut values = vec![in alloc; 0u32; places(s)]?;
    let mut words = first_words(alloc, args, room(s))?;
    Ok(run(s, &mut values, &mut words, p, log, counts, n))
}
