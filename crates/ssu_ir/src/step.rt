// What one node does in a run.

ghost use Rattle.std.specs.Prelude.{◌≡◌, ℕ, ◌+◌, ◌<◌, ◌≤◌, ◌^◌, true, List, All, Some, None, length, vec_capacity};
ghost use Rattle.nv_base.specs.declared.term.Access.{Access};
ghost use Rattle.nv_base.specs.Access.{can_move};
ghost use Rattle.nv_base.specs.Log.{Log, noted};
ghost use Rattle.nv_base.specs.Memories.{fetched, stored};
ghost use Rattle.nv_base.specs.World.{World, ended as ended_by};
ghost use Rattle.nv_base.specs.Words.{assigned_all};
ghost use Rattle.ssu_ir.specs.Slots.{node_of, successors_of};
ghost use Rattle.ssu_ir.specs.inner.Running.{At, Fits, GoesOn, Stepped, env_of, stored_at};

use crate::node::{NodeId, SsuNode};
use crate::variables::{assign, assign_all, assign_each, collect, word_of};
use nv_base::{Access, Mem, Outcome, Packet, Words, Write, WriteLog};

/// How a run leaves a label.
pub enum LabelExit {
    /// By a jump to the label of this number, with the words that were collected.
    Jump(u32),
    /// The run is over.
    Over(Outcome),
}

/// What follows a node.
pub enum NextStep {
    On(NodeId),
    Left(LabelExit),
}

// Reads the words of these variables from an address on.
fn read(values: &mut [u32], m: Mem, xs: &[u32], at: u32, p: &Packet) -> Access
    requires moves { can_move m (length xs.now) ≡ true }
    requires places { All (λ x. x < length values.old) xs.now }
    ensures done { result ≡ Access.Done → (ws : List ℕ) × (fetched m at (length xs.now) p.now ≡ Some ws) × (env_of values.new ≡ assigned_all (env_of values.old) xs.now ws) }
    ensures bad { result ≡ Access.Bad → fetched m at (length xs.now) p.now ≡ None }
    ensures places { length values.new ≡ length values.old }
{
    let mut got = [0u32; 8];
    let into = &mut got[..xs.len()];
    match p.read(m, at as u64, into) {
        Access::Bad => Access::Bad,
        Access::Done => {
            assign_all(values, xs, into);
            Access::Done
        }
    }
}

// Writes words from an address on, and notes the write.
fn write(words: &[u32], m: Mem, at: u32, p: &mut Packet, log: &mut WriteLog) -> Access
    requires moves { can_move m (length words.now) ≡ true }
    requires countable { log.old.count < 2 ^ 63 }
    ensures done { result ≡ Access.Done → (stored m at words.now p.old ≡ Some p.new) × (log.new ≡ noted log.old (record { mem = m; at = at; words = words.now })) }
    ensures bad { result ≡ Access.Bad → (stored m at words.now p.old ≡ None) × (p.new ≡ p.old) × (log.new ≡ log.old) }
{
    match p.write(m, at as u64, words) {
        Access::Bad => Access::Bad,
        Access::Done => {
            log.note(Write {
                mem: m,
                at,
                words: Words::of(words),
            });
            Access::Done
        }
    }
}

// What an end with this number and these words gives.
fn ended(e: u16, words: Words) -> Outcome
    ensures { result ≡ ended_by e words }
{
    if e == 0 {
        Outcome::Ended(words)
    } else {
        Outcome::Raised(e, words)
    }
}

/// Does one node.
pub fn step(
    n: &SsuNode,
    values: &mut [u32],
    words: &mut Vec<u32>,
    p: &mut Packet,
    log: &mut WriteLog,
) -> NextStep
    requires fits { Fits (length values.old) (vec_capacity words.old) (node_of n.now) }
    requires room { 8 ≤ vec_capacity words.old }
    requires countable { log.old.count < 2 ^ 63 }
    ensures stepped { (log0 : Log) (w : World) → At log0 p.old log.old w → Stepped (node_of n.now) (successors_of n.now) (env_of values.old) log0 w result words.new.items (env_of values.new) p.new log.new }
    ensures next { GoesOn (successors_of n.now) result }
    ensures counted { log.new.count ≤ log.old.count + length (stored_at (node_of n.now)) }
    ensures addresses { All (λ y. y < 2 ^ 32) (stored_at (node_of n.now)) }
    ensures places { length values.new ≡ length values.old }
    ensures room { vec_capacity words.new ≡ vec_capacity words.old }
{
    match n {
        SsuNode::Lit(x, v, k) => {
            assign(values, *x, *v);
            NextStep::On(*k)
        }
        SsuNode::Una(x, op, y, k) => {
            let w = op.apply(word_of(values, *y));
            assign(values, *x, w);
            NextStep::On(*k)
        }
        SsuNode::Bin(x, op, y, z, k) => {
            let w = op.apply(word_of(values, *y), word_of(values, *z));
            assign(values, *x, w);
            NextStep::On(*k)
        }
        SsuNode::Clone(xs, y, k) => {
            let w = word_of(values, *y);
            assign_each(values, xs, w);
            NextStep::On(*k)
        }
        SsuNode::Read(m, xs, y, k) => {
            let at = word_of(values, *y);
            match read(values, *m, xs, at, p) {
                Access::Done => NextStep::On(*k),
                Access::Bad => NextStep::Left(LabelExit::Over(Outcome::Fault(*m, at as u64))),
            }
        }
        SsuNode::Write(m, y, xs, k) => {
            let at = word_of(values, *y);
            collect(values, xs, words);
            match write(words, *m, at, p, log) {
                Access::Done => NextStep::On(*k),
                Access::Bad => NextStep::Left(LabelExit::Over(Outcome::Fault(*m, at as u64))),
            }
        }
        SsuNode::If(c, x, y, first, second) => {
            if c.holds(word_of(values, *x), word_of(values, *y)) {
                NextStep::On(*first)
            } else {
                NextStep::On(*second)
            }
        }
        SsuNode::Jump(l, xs) => {
            collect(values, xs, words);
            NextStep::Left(LabelExit::Jump(*l))
        }
        SsuNode::Halt(e, xs) => {
            collect(values, xs, words);
            NextStep::Left(LabelExit::Over(ended(*e, Words::of(words))))
        }
    }
}
