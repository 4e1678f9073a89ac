//! Contexts: engines of one code, each with its own spill words and log.
ghost use Rattle.std.specs.Prelude.{◌≡◌, ◌+◌, ◌*◌, ◌<◌, ◌≤◌, ◌^◌, All, IfOk, Some, length, slice_get, slice_index_or};
ghost use Rattle.nv_base.specs.Log.{Log, empty_log};
ghost use Rattle.uc_isa.specs.Engine.{start};
ghost use Rattle.uc_contexts.specs.Turns.{AreFresh, base_of, kept_writes, starting, started};
ghost use Rattle.uc_contexts.specs.declared.state.Context.{Context};

use nv_base::{NoMemory, Outcome, SOURCE_SCRATCH, Words, WriteLog};
use std::alloc::Global;
use std::marker::Model;
use uc_isa::{Code, Engine};

/// How many writes each context's log keeps.
const KEPT_WRITES: u32 = 64;

/// How many words of scratch each context has for itself.
const SPILL_WORDS: u32 = 128;

/// One context: its engine, how its run stands, and the log of its writes.
#[derive(Drop)]
pub struct Context {
    pub engine: Engine,
    pub outcome: Outcome,
    pub log: WriteLog,
}

/// Contexts by number. Contracts see their list.
#[derive(Drop)]
pub struct Contexts {
    pub(crate) list: Vec<Context>,
}

impl Model for Contexts {
    ghost use Rattle.std.specs.Prelude.{List};
    ghost use Rattle.uc_contexts.specs.declared.state.Context.{Context};

    ghost Value = { List Context };

    ghost view = { λ c. c.list.items };
}

// The context with this number before its first step.
fn start_context(alloc: Global, number: u32, args: &Words) -> Result<Context, NoMemory>
    requires { number < 4 }
    ensures { IfOk result (λ x. x ≡ starting number args.now) }
{
    let log = WriteLog::new(alloc, KEPT_WRITES)?;
    Ok(Context {
        engine: Engine::start(args.list(), SOURCE_SCRATCH + SPILL_WORDS * number),
        outcome: Outcome::Going,
        log,
    })
}

impl Contexts {
    /// Contexts before their first steps, one for each list of arguments. The words of scratch that context i has for
    /// itself begin at 512 + 128 * i.
    pub fn new(alloc: Global, c: &Code, args: &[Words]) -> Result<Contexts, NoMemory>
        requires some { 1 ≤ length args.now }
        requires few { length args.now ≤ 4 }
        requires arguments { All (λ words. length words ≡ c.now.params) args.now }
        ensures made { IfOk result (λ e. e ≡ started args.now) }
        ensures fresh { IfOk result (AreFresh c.now) }
        ensures number { IfOk result (λ e. length e ≡ length args.now) }
    {
        let mut list = Vec::new(alloc);
        for (number, words) in args.iter().enumerate() {
            list.push(start_context(alloc, number as u32, words)?)?;
        }
        Ok(Contexts { list })
    }

    /// How the run of a context stands.
    pub fn outcome(&self, i: u8) -> Outcome
        requires { i < length self.now }
        ensures { (x : Context) → slice_get self.now i ≡ Some x → result ≡ x.outcome }
    {
        self.list[i as usize].outcome
    }

    /// The log of a context's writes.
    pub fn log(&self, i: u8) -> &WriteLog
        requires { i < length self.now }
        ensures { (x : Context) → slice_get self.now i ≡ Some x → result.now ≡ x.log }
    {
        &self.list[i as usize].log
    }
}
