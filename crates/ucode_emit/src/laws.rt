//! Laws of the code that stands for a form in single use under a placement: each is the contract of a
//! function that does nothing.
ghost use Rattle.std.specs.Prelude.{◌≡◌, ℕ, List, map};
ghost use Rattle.uc_isa.specs.Agrees.{Agrees};
ghost use Rattle.uc_isa.specs.Lawful.{IsLawful};
ghost use Rattle.ssu_ir.specs.Tree.{Label};
ghost use Rattle.ssu_ir.specs.Meaning.{ssu_meaning, ssu_params};
ghost use Rattle.place_plan.specs.Plan.{Plan};
ghost use Rattle.ucode_emit.specs.Pieces.{Sequences, instr_of, items, starts, parallel_moves};
ghost use Rattle.ucode_emit.specs.Emits.{AreSequences};
ghost use Rattle.ucode_emit.specs.inner.Layers.{Placed};

/// For every placement that fits a form in single use, and all single moves that do its parallel moves,
/// the code that is made of them piece by piece agrees with the form, and is lawful.
pub fn code_agrees_with_its_form()
    ensures agrees { (labels : List Label) (p : Plan) (mss : Sequences) → Placed labels p → AreSequences (parallel_moves p labels) mss → Agrees (ssu_params labels) (ssu_meaning labels) (record { params = ssu_params labels; list = map (instr_of (starts labels p mss)) (items labels p mss) }) }
    ensures lawful { (labels : List Label) (p : Plan) (mss : Sequences) → Placed labels p → AreSequences (parallel_moves p labels) mss → IsLawful (map (instr_of (starts labels p mss)) (items labels p mss)) }
{}
