//! The simulator: runs code on a packet, step by step.
#![tactic(auto)]

ghost use Rattle.std.specs.Prelude.{◌≡◌, ◌+◌, ◌<◌, ◌^◌, ◌↔◌, ℕ, [], ◌∷◌, length};
ghost use Rattle.nv_base.specs.Log.{noted_all};
ghost use Rattle.nv_base.specs.Meanings.{source_writes, is_source_write};
ghost use Rattle.nv_base.specs.declared.outcome.Outcome.{Outcome};
ghost use Rattle.uc_isa.specs.Engine.{after, halted, run, stepped_at};
ghost use Rattle.uc_isa.specs.Lawful.{IsLawful};
ghost use Rattle.uc_isa.specs.Step.{EndsRun};

use nv_base::{Mem, Outcome, Packet, SOURCE_SCRATCH, Words, Write, WriteLog};
use uc_isa::{Code, Engine, Stepped, step};

// Notes a write of the source's; one of the compiler's scratch words isn't noted.
fn note(log: &mut WriteLog, w: Write)
    requires { log.old.count < 2 ^ 63 }
    ensures { log.new ≡ noted_all log.old (source_writes (w ∷ [])) }
{
    if w.mem != Mem::Scratch || w.at < SOURCE_SCRATCH {
        log.note(w);
    }
}

// What a halt with this number and these words gives.
fn outcome_of(k: u16, words: Words) -> Outcome
    ensures { result ≡ halted k words }
{
    if k == 0 {
        Outcome::Ended(words)
    } else {
        Outcome::Raised(k, words)
    }
}

/// Takes at most `n` steps, until a halt or a fault, and notes the writes in order, those of the compiler's scratch
/// words from 512 on left out.
pub fn simulate(c: &Code, e: &mut Engine, p: &mut Packet, log: &mut WriteLog, n: u64) -> Outcome
    requires lawful { IsLawful c.now.list }
    requires inside { e.old.place < length c.now.list }
    requires countable { log.old.count + n < 2 ^ 63 }
    ensures outcome { result ≡ (run c.now.list n e.old p.old []).outcome }
    ensures packet { p.new ≡ (run c.now.list n e.old p.old []).packet }
    ensures log { log.new ≡ noted_all log.old (source_writes (run c.now.list n e.old p.old []).writes) }
    ensures engine { e.new ≡ (after c.now.list n e.old p.old).engine }
    ensures going { (result ≡ Outcome.Going) ↔ ((k : ℕ) → k < n → ¬ EndsRun (stepped_at c.now.list k e.old p.old)) }
    ensures inside { e.new.place < length c.now.list }
{
    for _ in 0..n {
        match step(c, e, p) {
            Stepped::Went => {}
            Stepped::Wrote(w) => note(log, w),
            Stepped::Halted(k, words) => return outcome_of(k, words),
            Stepped::Fault(mem, at) => return Outcome::Fault(mem, at),
        }
    }
    Outcome::Going
}
