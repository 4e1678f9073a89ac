//! The code of a form.
ghost use Rattle.std.specs.Prelude.{◌≡◌, ◌≤◌, ◌^◌, ℕ, List, [], true, length, IfOk};
ghost use Rattle.uc_isa.specs.Agrees.{Agrees};
ghost use Rattle.uc_isa.specs.Lawful.{IsLawful};
ghost use Rattle.uc_isa.specs.Moves.{moves};
ghost use Rattle.uc_isa.specs.Entries.{IsVisited};
ghost use Rattle.uc_isa.specs.Entry.{AssumesNoMore};
ghost use Rattle.uc_isa.specs.Starts.{AreStarts};
ghost use Rattle.ssu_ir.specs.Entered.{entered};
ghost use Rattle.ssu_ir.specs.Measures as measures;
ghost use Rattle.ssu_ir.specs.Meaning.{ssu_meaning, ssu_params};
ghost use Rattle.ssu_ir.specs.Single.{single};
ghost use Rattle.ssu_ir.specs.View.{labels_view};
ghost use Rattle.place_plan.specs.Weighted.{weighted_cost};
ghost use Rattle.place_plan.specs.Costs.{cost};
ghost use Rattle.place_plan.specs.Fits.{Fits};
ghost use Rattle.place_plan.specs.Plan.{plan_view};
ghost use Rattle.ucode_emit.specs.Operations.{code_operations, form_operations};
ghost use Rattle.ucode_emit.specs.SpillBase.{SpillsByBase};
ghost use Rattle.ucode_emit.specs.Emits.{AreEmitted};

use crate::drafted::{WholeDraft, draft_of};
use crate::settle::settle;
use nv_base::NoMemory;
use place_plan::Placement;
use ssu_ir::Ssu;
use std::alloc::Global;
use uc_isa::{Code, Instr};

// How many parameters label 0 has.
fn params_of(s: &Ssu) -> u8
    requires { single (labels_view s.now) ≡ true }
    ensures params { result ≡ ssu_params (labels_view s.now) }
    ensures few { result ≤ 8 }
{
    match s.labels.first() {
        Some(l) => l.params.len() as u8,
        None => 0,
    }
}

// The instructions, and where labels begin.
fn instructions(alloc: Global, s: &Ssu, p: &Placement) -> Result<(Vec<Instr>, Vec<u32>), NoMemory>
    requires single { single (labels_view s.now) ≡ true }
    requires fits { Fits (labels_view s.now) (plan_view p.now) }
    ensures { IfOk result (λ r. AreEmitted (labels_view s.now) (plan_view p.now) r.0.items r.1.items) }
{
    let WholeDraft {
        code,
        places,
        starts,
    } = draft_of(alloc, s, p)?;
    let list = settle(alloc, code.list(), &places)?;
    Ok((list, starts))
}

/// The code of a form, and where each of its labels begins in it.
#[derive(Drop)]
pub struct Emitted {
    pub code: Code,
    pub starts: Vec<u32>,
}

/// The code of a form in single use, whose values stand where a placement that fits has them.
pub fn emit(alloc: Global, s: &Ssu, p: &Placement) -> Result<Emitted, NoMemory>
    requires single { single (labels_view s.now) ≡ true }
    requires fits { Fits (labels_view s.now) (plan_view p.now) }
    requires few { measures.size (labels_view s.now) ≤ 2 ^ 26 }
    ensures lawful { IfOk result (λ e. IsLawful e.code.list) }
    // By way of B15 the slots are accessed, and no others; nothing else is done with it.
    ensures spills { IfOk result (λ e. SpillsByBase (plan_view p.now).slots e.code.list) }
    // Piece by piece, the code is what the nodes of the form become under this placement.
    ensures emitted { IfOk result (λ e. AreEmitted (labels_view s.now) (plan_view p.now) e.code.list e.starts.items) }
    // Without its moves, the code is what the nodes of the form do, in order.
    ensures operations { IfOk result (λ e. code_operations e.code.list ≡ form_operations (labels_view s.now)) }
    ensures agrees { IfOk result (λ e. Agrees (ssu_params (labels_view s.now)) (ssu_meaning (labels_view s.now)) e.code) }
    // From any engine that holds the arguments and the spill base it does so too, and of scratch from 512 on it reaches its slots alone.
    ensures assumes { IfOk result (λ e. AssumesNoMore (ssu_params (labels_view s.now)) (ssu_meaning (labels_view s.now)) (plan_view p.now).slots e.code.list) }
    ensures light { IfOk result (λ e. moves e.code.list [] [] ≤ cost (labels_view s.now) (plan_view p.now)) }
    // The same where labels have weights.
    ensures weighted { IfOk result (λ e. (ws : List ℕ) → moves e.code.list e.starts.items ws ≤ weighted_cost (labels_view s.now) ws (plan_view p.now)) }
    ensures short { IfOk result (λ e. length e.code.list ≤ measures.code_bound (labels_view s.now)) }
    ensures starts { IfOk result (λ e. AreStarts (length (labels_view s.now)) e.code.list e.starts.items) }
    // The engine comes to the start of a label as often as the form's run enters the label.
    ensures visited { IfOk result (λ e. IsVisited (ssu_params (labels_view s.now)) (entered (labels_view s.now)) e.code.list e.starts.items) }
{
    let (list, starts) = instructions(alloc, s, p)?;
    Ok(Emitted {
        code: Code::new(params_of(s), list),
        starts,
    })
}
