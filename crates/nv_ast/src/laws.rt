//! What the definitions give of short programs, and of all programs without a fault.

ghost use Rattle.nv_ast.specs.Laws.{ShortProgram, SumSizes, CaughtSizes, StoredSizes, OverlaidSizes, RoomIsBounded, MainIsNarrow, EmptyProgram, WideShift, EarlyCall, TwoAlternatives};

/// The tokens of a short program spell it, and operators of one level group to the left.
#[tactic(auto, using(crate::proofs::Short::short))]
pub fn short_program()
    ensures { ShortProgram }
{}

/// The sizes of a sum.
#[tactic(auto, using(crate::proofs::Worked::sum_sizes))]
pub fn sum_sizes()
    ensures { SumSizes }
{}

/// The sizes of a program with a `try`, of one with a `let` and a store, and of one with an overlay.
#[tactic(auto, using(crate::proofs::Worked::caught_sizes, crate::proofs::Worked::stored_sizes, crate::proofs::Worked::overlaid_sizes))]
pub fn worked_sizes()
    ensures caught { CaughtSizes }
    ensures stored { StoredSizes }
    ensures overlaid { OverlaidSizes }
{}

/// The room of a program without a fault is bounded by its expanded size.
#[tactic(auto, using(crate::proofs::RoomInSize::room_bounded))]
pub fn room_is_bounded()
    ensures { RoomIsBounded }
{}

/// The parameters of a program's main without a fault fit the 8 words that a run is given.
#[tactic(auto, using(crate::proofs::MainWords::main_narrow))]
pub fn main_is_narrow()
    ensures { MainIsNarrow }
{}

/// The first faults of four programs.
#[tactic(auto, using(crate::proofs::Worked::empty_program, crate::proofs::Worked::wide_shift, crate::proofs::Worked::early_call, crate::proofs::Worked::two_alternatives))]
pub fn first_faults()
    ensures no_main { EmptyProgram }
    ensures wide_shift { WideShift }
    ensures early_call { EarlyCall }
    ensures two_alternatives { TwoAlternatives }
{}
