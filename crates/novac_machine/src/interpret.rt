//! Typed programs, run by the interpreter.
ghost use Rattle.std.specs.Prelude.{◌≡◌, IfOk};
ghost use Rattle.nv_ast.specs.TypedView.{typed_program};
ghost use Rattle.nv_meaning.specs.Meaning.{source as meaning};
ghost use Rattle.novac_words.specs.Status.{outcome_status};
ghost use Rattle.novac_machine.specs.Machine.{full_text};
ghost use Rattle.novac_machine.specs.inner.Outcomes.{IsOutcome};

use crate::simulate::{SHOWN_WRITES, status_of};
use novac_words::Reply;
use nv_ast::Typed;
use nv_base::{NoMemory, WriteLog};
use nv_meaning::exec;
use nv_memtext::{Job, print_outcome};
use std::alloc::Global;

/// Runs a typed program with so many calls.
pub fn exec_job(alloc: Global, program: &Typed, job: Job, calls: u64) -> Result<Reply, NoMemory>
    ensures ends { IfOk result (λ r. r.status ≡ outcome_status (meaning (typed_program program.now) job.args job.packet calls).outcome) }
    ensures end { IfOk result (λ r. IsOutcome r.status) }
    ensures prints { IfOk result (λ r. r.text.items ≡ full_text (meaning (typed_program program.now) job.args job.packet calls)) }
{
    let mut packet = job.packet;
    let mut log = WriteLog::new(alloc, SHOWN_WRITES)?;
    let outcome = exec(
        alloc,
        program,
        job.args.list(),
        &mut packet,
        &mut log,
        calls,
    )?;
    let text = print_outcome(alloc, &outcome, &packet, &log)?;
    Ok(Reply {
        status: status_of(&outcome),
        text,
    })
}
