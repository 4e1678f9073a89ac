// Whole programs.

ghost use Rattle.std.specs.Prelude.{◌≡◌, ◌++◌, ◌∷◌, ℕ, List, [], Some, get_or, IfOk, OnOk, OnErr};
ghost use Rattle.nv_base.specs.Log.{noted_all};
ghost use Rattle.nv_base.specs.Meanings.{source_writes, left_by, IsPrefix};
ghost use Rattle.nv_base.specs.declared.outcome.Write.{Write as WriteEvent};
ghost use Rattle.nv_ast.specs.TypedView.{typed_program};
ghost use Rattle.nv_meaning_values.specs.Notes.{Knows, traced_all, source_made};
ghost use Rattle.nv_meaning_values.specs.Chains.{trail_of};
ghost use Rattle.nv_meaning_values.specs.Callers.{calls_of};
ghost use Rattle.nv_meaning.specs.Meaning.{source, traced as traced_source, run_main as main_run};
ghost use Rattle.nv_ast.specs.ProgramView.{fun_tree};
ghost use Rattle.nv_meaning_values.specs.Running.{Chain, Made as MadeEvent, plain, Running, Result as RunResult, closed, over};
ghost use Rattle.nv_meaning_values.specs.inner.TableView.{declared_in};
ghost use Rattle.nv_meaning.specs.inner.Ran.{at, notes_of, Executes, IsValue, Grown};

use crate::arguments::add_arguments;
use crate::parts::{all_words_in, words_in};
use crate::run::settled;
use nv_ast::{Fun, Name, Typed};
use nv_base::{NoMemory, Outcome, Packet, WriteLog};
use nv_meaning_values::{Caller, Interruption, Notes, Table, Trace, Value, first_words, groups};
use std::alloc::Global;
use std::mem;

/// Runs a program on these arguments with `n` calls: outcome, packet and log are those of its
/// meaning. After `NoMemory` packet and log hold the writes that were made before.
pub fn exec(
    alloc: Global,
    t: &Typed,
    args: &[u32],
    p: &mut Packet,
    log: &mut WriteLog,
    n: u64,
) -> Result<Outcome, NoMemory>
    ensures outcome { IfOk result (λ o. o ≡ (source (typed_program t.now) args.now p.old n).outcome) }
    ensures packet { OnOk result (p.new ≡ (source (typed_program t.now) args.now p.old n).packet) }
    ensures log { OnOk result (log.new ≡ noted_all log.old (source_writes (source (typed_program t.now) args.now p.old n).writes)) }
    ensures so_far { OnErr result ((made : List WriteEvent) × IsPrefix made (source (typed_program t.now) args.now p.old n).writes × (p.new ≡ left_by made p.old) × (log.new ≡ noted_all log.old (source_writes made))) }
{
    let mut trace = Trace::new(alloc, 0)?;
    run_both(alloc, t, args, p, log, &mut trace, n)
}

/// Runs a program on these arguments with `n` calls: outcome, packet and trace are those of its
/// meaning with where each write is made. After `NoMemory` packet and trace hold the writes that were
/// made before.
pub fn traced(
    alloc: Global,
    t: &Typed,
    args: &[u32],
    p: &mut Packet,
    log: &mut Trace,
    n: u64,
) -> Result<Outcome, NoMemory>
    ensures outcome { IfOk result (λ o. o ≡ (traced_source (typed_program t.now) args.now p.old n).outcome) }
    ensures packet { OnOk result (p.new ≡ (traced_source (typed_program t.now) args.now p.old n).packet) }
    ensures trace { OnOk result (trail_of log.new ≡ traced_all (trail_of log.old) (source_made (traced_source (typed_program t.now) args.now p.old n).writes)) }
    ensures so_far { OnErr result ((made : List MadeEvent) × (rest : List MadeEvent) × ((traced_source (typed_program t.now) args.now p.old n).writes ≡ made ++ rest) × (p.new ≡ left_by (plain made) p.old) × (trail_of log.new ≡ traced_all (trail_of log.old) (source_made made))) }
{
    let mut writes = WriteLog::new(alloc, 0)?;
    run_both(alloc, t, args, p, &mut writes, log, n)
}

// Runs a program with a log and a trace.
fn run_both(
    alloc: Global,
    t: &Typed,
    args: &[u32],
    p: &mut Packet,
    log: &mut WriteLog,
    trace: &mut Trace,
    n: u64,
) -> Result<Outcome, NoMemory>
    ensures { Executes result (at n p.old (notes_of log.old trace.old)) (at n p.new (notes_of log.new trace.new)) (traced_source (typed_program t.now) args.now p.old n) }
{
    let table = Table::of(alloc, t.program())?;
    let main = Name::new(alloc, b"main")?;
    let groups = groups(alloc, &t.program().decls)?;
    let no_log = WriteLog::new(alloc, 0)?;
    let no_trace = Trace::new(alloc, 0)?;
    match table.found(&main) {
        Some((place, f)) => {
            let callers = in_main(alloc, &f.name, &groups, place)?;
            let kept = mem::replace(log, no_log);
            let made = mem::replace(trace, no_trace);
            let mut notes = Notes::of(kept, made, groups, callers);
            let answer = run_main(alloc, &table, f, args, p, &mut notes, n);
            let (kept, made) = notes.into_parts();
            *log = kept;
            *trace = made;
            answer
        }
        None => Ok(Outcome::Going),
    }
}

// The call of main alone, where this is the place of main among the functions.
fn in_main<'a>(
    alloc: Global,
    name: &'a Name,
    groups: &[u32],
    place: usize,
) -> Result<Vec<Caller<'a>>, NoMemory>
    ensures { IfOk result (λ callers. calls_of callers.items ≡ (name.now, get_or groups.now place 0) ∷ []) }
{
    let group = if place < groups.len() {
        groups[place]
    } else {
        0
    };
    let mut callers = Vec::new(alloc);
    callers.push(Caller { name, group })?;
    Ok(callers)
}

// Runs main.
fn run_main<'a>(
    alloc: Global,
    t: &Table<'a>,
    f: &'a Fun,
    args: &[u32],
    p: &mut Packet,
    log: &mut Notes<'a>,
    n: u64,
) -> Result<Outcome, NoMemory>
    ensures { (c : Chain) → Knows log.old c → Executes result (at n p.old log.old) (at n p.new log.new) (closed (main_run (declared_in t.now) (Some (fun_tree f.now)) args.now n (record { calls = n; packet = p.old; writes = []; chain = c }))) }
{
    let mut scope = Vec::new(alloc);
    add_arguments(alloc, t, &f.params, args, &mut scope)?;
    let mut left = n;
    let answer = settled(alloc, t, &f.body, &mut scope, p, log, &mut left);
    outcome_of(alloc, answer)
}

// The outcome of a run whose main came to this.
fn outcome_of(alloc: Global, answer: Result<Value, Interruption>) -> Result<Outcome, NoMemory>
    ensures done { (now : Running) (r : RunResult) → IsValue answer.entry now r → IfOk result (λ o. closed r ≡ over o now) }
    ensures before { (now : Running) (r : RunResult) → IsValue answer.entry now r → OnErr result (Grown now r) }
{
    match answer {
        Ok(v) => {
            let words = words_in(alloc, &v)?;
            Ok(Outcome::Ended(first_words(&words)))
        }
        Err(stop) => match stop {
            Interruption::NoMemory => Err(NoMemory),
            Interruption::Raised(k, vs) => {
                let words = all_words_in(alloc, &vs)?;
                Ok(Outcome::Raised(k, first_words(&words)))
            }
            Interruption::Fault(m, at) => Ok(Outcome::Fault(m, at as u64)),
            Interruption::Going => Ok(Outcome::Going),
        },
    }
}
