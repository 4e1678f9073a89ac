// A run that counts the entries of labels.

ghost use Rattle.std.specs.Prelude.{◌≡◌, ◌≤◌, true, length, IfOk};
ghost use Rattle.novac_words.specs.Status.{outcome_status};
ghost use Rattle.novac_machine.specs.inner.Outcomes.{IsOutcome};
ghost use Rattle.ssu_ir.specs.Meaning.{ssu_meaning, ssu_params};
ghost use Rattle.ssu_ir.specs.Single as rules;
ghost use Rattle.ssu_ir.specs.View.{labels_view};
ghost use Rattle.novac_commands.specs.Counting.{AreCounted};
ghost use Rattle.novac_machine.specs.Machine.{full_text};

use novac_machine::{SHOWN_WRITES, status_of};
use novac_words::Reply;
use nv_base::{NoMemory, WriteLog};
use nv_memtext::{Job, print_outcome};
use place_weights::print_counts;
use ssu_ir::{Ssu, enter};
use std::alloc::Global;

/// What a run comes to, and the text of how often each label was entered.
#[derive(Drop)]
pub struct Counted {
    pub reply: Reply,
    pub counts: Vec<u8>,
}

/// Runs a form on these memories and arguments with at most so many jumps.
pub fn count_entries(alloc: Global, form: &Ssu, job: Job, jumps: u64) -> Result<Counted, NoMemory>
    requires single { rules.single (labels_view form.now) ≡ true }
    requires arguments { length job.args ≡ ssu_params (labels_view form.now) }
    requires jumps { jumps ≤ 100000000 }
    ensures ends { IfOk result (λ c. c.reply.status ≡ outcome_status (ssu_meaning (labels_view form.now) job.args job.packet jumps).outcome) }
    ensures end { IfOk result (λ c. IsOutcome c.reply.status) }
    ensures prints { IfOk result (λ c. c.reply.text.items ≡ full_text (ssu_meaning (labels_view form.now) job.args job.packet jumps)) }
    ensures counts { IfOk result (λ c. AreCounted (labels_view form.now) job.args job.packet jumps c.counts.items) }
{
    let mut packet = job.packet;
    let mut log = WriteLog::new(alloc, SHOWN_WRITES)?;
    let mut counts = vec![in alloc; 0u64; form.labels.len()]?;
    let args = job.args.list();
    let outcome = enter(alloc, form, args, &mut packet, &mut log, &mut counts, jumps)?;
    let text = print_outcome(alloc, &outcome, &packet, &log)?;
    let counts = print_counts(alloc, &counts)?;
    Ok(Counted {
        reply: Reply {
            status: status_of(&outcome),
            text,
        },
        counts,
    })
}
