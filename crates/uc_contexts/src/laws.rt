//! Laws of contexts: each is the contract of a function that does nothing.
ghost use Rattle.std.specs.Prelude.{ℕ, List};
ghost use Rattle.nv_base.specs.Memories.{Memories};
ghost use Rattle.nv_base.specs.declared.term.Mem.{Mem};
ghost use Rattle.uc_isa.specs.Code.{CodeView};
ghost use Rattle.uc_contexts.specs.declared.alone.Marks.{Marks};
ghost use Rattle.uc_contexts.specs.Alone.{AreDisjoint};
ghost use Rattle.uc_contexts.specs.AsSource.{EndAsSource, ShareNoSlot};
ghost use Rattle.uc_contexts.specs.Footprints.{Isolated};
ghost use Rattle.uc_contexts.specs.Marked.{AreFootprints, IsFirstCommon, IsFirstShared, IsShared};

/// The marks of runs on one packet share an address exactly where the runs aren't disjoint.
pub fn marks_tell_what_is_shared()
    ensures disjoint { (c : CodeView) (p : Memories) (runs : List Isolated) (footprints : List Marks) → AreFootprints c p runs footprints → ((m : Mem) (a : ℕ) → ¬ IsShared footprints m a) → AreDisjoint c p runs }
    ensures shared { (c : CodeView) (p : Memories) (runs : List Isolated) (footprints : List Marks) (m : Mem) (a : ℕ) → AreFootprints c p runs footprints → IsShared footprints m a → ¬ AreDisjoint c p runs }
    ensures first { (c : CodeView) (p : Memories) (runs : List Isolated) (footprints : List Marks) (m : Mem) (a : ℕ) → AreFootprints c p runs footprints → IsFirstShared footprints m a → IsFirstCommon c p runs m a }
{}

/// Where contexts keep apart and their code does what a source says, a context whose run is over did what the source does alone. Contexts never
/// share a slot.
pub fn contexts_do_what_their_source_does()
    ensures ended { EndAsSource }
    ensures slots { ShareNoSlot }
{}
