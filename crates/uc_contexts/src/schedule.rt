//! Contexts that take turns by a schedule.
ghost use Rattle.std.specs.Prelude.{◌≡◌, ◌+◌, ◌<◌, ◌≤◌, ◌^◌, ℕ, List, All, Some, length, slice_get, slice_set, replicate, sum_by};
ghost use Rattle.uc_isa.specs.Lawful.{IsLawful};
ghost use Rattle.uc_contexts.specs.Alone.{AreDisjoint, all_alone, lone_runs};
ghost use Rattle.uc_contexts.specs.Turns.{AreFresh, System, started, scheduled, entries, turns};
ghost use Rattle.uc_contexts.specs.declared.state.Context.{Context};

use crate::state::{Context, Contexts};
use nv_base::{Outcome, Packet};
use uc_isa::Code;
use uc_sim::simulate;

impl Context {
    // Takes n turns, one after the other.
    fn run(&mut self, c: &Code, p: &mut Packet, n: u64)
        requires lawful { IsLawful c.now.list }
        requires inside { self.old.engine.place < length c.now.list }
        requires countable { self.old.log.count + n < 2 ^ 63 }
        ensures context { self.new ≡ (turns c.now.list n self.old p.old).context }
        ensures packet { p.new ≡ (turns c.now.list n self.old p.old).packet }
        ensures inside { self.new.engine.place < length c.now.list }
    {
        if let Outcome::Going = self.outcome {
            self.outcome = simulate(c, &mut self.engine, p, &mut self.log, n);
        }
    }
}

impl Contexts {
    // Gives the context with this number n turns.
    fn enter(&mut self, c: &Code, p: &mut Packet, i: u8, n: u64)
        requires lawful { IsLawful c.now.list }
        requires there { i < length self.old }
        requires inside { All (λ x. x.engine.place < length c.now.list) self.old }
        requires countable { All (λ x. x.log.count + n < 2 ^ 63) self.old }
        ensures turned { record { contexts = self.new; packet = p.new } ≡ scheduled c.now.list (replicate n i) (record { contexts = self.old; packet = p.old }) }
        ensures inside { All (λ x. x.engine.place < length c.now.list) self.new }
        ensures counted { (limit : ℕ) → All (λ x. x.log.count + n ≤ limit) self.old → All (λ x. x.log.count ≤ limit) self.new }
        ensures number { length self.new ≡ length self.old }
    {
        self.list[i as usize].run(c, p, n);
    }
}

/// Takes the entries of a schedule in order, where (i, n) stands for n entries of context i: each is one step of that
/// context, or nothing where its run is over. It needs no memory, however many the entries are.
///
/// Where no address that one context writes alone is read or written by another alone, each up to its own number of
/// entries, the order of the entries doesn't matter: each context is as it is alone, and the packet is the first one
/// after all their writes.
pub fn run_schedule(c: &Code, e: &mut Contexts, p: &mut Packet, list: &[(u8, u64)])
    requires lawful { IsLawful c.now.list }
    requires fresh { AreFresh c.now e.old }
    requires named { All (λ entry. entry.0 < length e.old) list.now }
    requires few { sum_by (λ entry. entry.1) list.now ≤ 100000000 }
    ensures scheduled { record { contexts = e.new; packet = p.new } ≡ scheduled c.now.list (entries list.now) (record { contexts = e.old; packet = p.old }) }
    ensures number { length e.new ≡ length e.old }
    ensures alone { (args : List (List ℕ)) → e.old ≡ started args → let runs = lone_runs (entries list.now) args in
        AreDisjoint c.now p.old runs → record { contexts = e.new; packet = p.new } ≡ all_alone c.now p.old runs }
{
    // The check has to be told that the code has an instruction, which `list` promises.
    let _code = c.list();
    for entry in list {
        e.enter(c, p, entry.0, entry.1);
    }
}
