//! Laws of runs: each is the contract of a function that does nothing.
ghost use Rattle.std.specs.Prelude.{◌≡◌, ◌+◌, ◌*◌, ◌<◌, ◌≤◌, ◌⊎◌, ◌++◌, ◌↔◌, suc, nat_le, map, ℕ, List, Some, false, length, slice_get};
ghost use Rattle.nv_base.specs.Memories.{HasSizes, Memories};
ghost use Rattle.uc_isa.specs.Agrees.{Agrees, SourceMeaning};
ghost use Rattle.uc_isa.specs.Code.{CodeView};
ghost use Rattle.uc_isa.specs.Engine.{IsEngine, after};
ghost use Rattle.uc_isa.specs.Lawful.{IsLawful};
ghost use Rattle.uc_isa.specs.Moves.{label_weight, moves_from};
ghost use Rattle.uc_isa.specs.Step.{effect};
ghost use Rattle.uc_isa.specs.declared.engine.Engine.{Engine};
ghost use Rattle.uc_isa.specs.declared.instruction.Instr.{Instr};
ghost use Rattle.uc_isa.specs.Alike.{DoesAlike, Follows, GoesOn, ReadAlike, RunsAlike};
ghost use Rattle.uc_isa.specs.Entries.{EntryCount, IsVisited};
ghost use Rattle.uc_isa.specs.Entry.{AssumesNoMore};
ghost use Rattle.uc_isa.specs.Program.{IsFormed, IsProgram};
ghost use Rattle.uc_isa.specs.Relocated.{DoesMoved};
ghost use Rattle.uc_isa.specs.Resources.{IsNext, IsResource, Resource, value, writes};
ghost use Rattle.uc_isa.specs.Starts.{AreInside, AreStarts, HasShape, IsLabelStart};
ghost use Rattle.uc_isa.specs.StraightCode.{weights};
ghost use Rattle.uc_isa.specs.Visits.{here, stood};

/// What an instruction does depends on what it reads alone, and it changes no more than what it writes. It ends the run
/// and changes nothing, or leads to a next place. A register beyond its bank holds nothing.
pub fn effects_by_reads()
    ensures alike { (i : Instr) (e e' : Engine) (p : Memories) → IsFormed i → IsEngine e → IsEngine e' → HasSizes p → e.place ≡ e'.place → ReadAlike i e e' → DoesAlike i e e' (effect i e p) (effect i e' p) }
    ensures kept { (i : Instr) (e : Engine) (p : Memories) (s : Resource) → IsFormed i → IsEngine e → HasSizes p → writes i s ≡ false → value s (effect i e p).engine ≡ value s e }
    ensures goes { (i : Instr) (e : Engine) (p : Memories) → GoesOn i e p (effect i e p) }
    ensures states { (i : Instr) (e : Engine) (p : Memories) → IsFormed i → IsEngine e → HasSizes p → IsEngine (effect i e p).engine × HasSizes (effect i e p).packet }
    ensures none { (s : Resource) (e : Engine) → IsEngine e → ¬ IsResource s → value s e ≡ 0 }
{}

/// Lawful code is told by what each instruction is and where it stands, and its next places are inside.
pub fn lawful_code()
    ensures program { (code : List Instr) → 1 ≤ length code → IsLawful code → IsProgram code }
    ensures lawful { (code : List Instr) → IsProgram code → IsLawful code }
    ensures inside { (code : List Instr) (x y : ℕ) (i : Instr) → IsProgram code → slice_get code x ≡ Some i → IsNext i x y → y < length code }
{}

/// Runs that are seen alike are so of all that they were seen like.
pub fn runs_alike()
    ensures same { (code : List Instr) (p : Memories) (e : Engine) → RunsAlike code code p e e }
    ensures on { (a b d : List Instr) (p : Memories) (e e' e'' : Engine) → RunsAlike a b p e e' → RunsAlike b d p e' e'' → RunsAlike a d p e e'' }
{}

/// One step more is counted at no place, or at the one that it leads to.
pub fn visits_step_by_step()
    ensures { (code : List Instr) (m : ℕ) (e : Engine) (p : Memories) → ((s : ℕ) → stood code s (suc m) e p ≡ stood code s m e p) ⊎ ((s : ℕ) → stood code s (suc m) e p ≡ stood code s m e p + here s (after code (suc m) e p).engine.place) }
{}

/// A relocated instruction at the moved place does the same, where the next place moves with it.
pub fn relocated_does_the_same()
    ensures { (f : ℕ → ℕ) (i : Instr) (e : Engine) (p : Memories) → f (e.place + 1) ≡ f e.place + 1 → DoesMoved f i e p }
{}

/// The cost of moves is that of the parts of a code; along one label it is the label's weight times those of the
/// instructions; and a label moves with the places, where they keep their order with its starts.
pub fn moves_by_parts()
    ensures parts { (q : ℕ) (a b : List Instr) (starts ws : List ℕ) → moves_from q (a ++ b) starts ws ≡ moves_from q a starts ws + moves_from (q + length a) b starts ws }
    ensures level { (q w : ℕ) (is : List Instr) (starts ws : List ℕ) → ((d : ℕ) → d < length is → label_weight 1 starts ws (q + d) ≡ w) → moves_from q is starts ws ≡ weights is * w }
    ensures same { (x y sofar : ℕ) (starts ws : List ℕ) → ((s : ℕ) → IsLabelStart starts s → nat_le s x ≡ nat_le s y) → label_weight sofar starts ws x ≡ label_weight sofar starts ws y }
    ensures moved { (f : ℕ → ℕ) (sofar x : ℕ) (starts ws : List ℕ) → ((s : ℕ) → IsLabelStart starts s → nat_le (f s) (f x) ≡ nat_le s x) → label_weight sofar (map f starts) ws (f x) ≡ label_weight sofar starts ws x }
{}

/// Code follows itself, and what it follows follows. A source agrees with code exactly where it agrees with code that
/// follows it, and that enters labels as often. What follows code that assumes no more than the arguments and the spill base does so too.
pub fn codes_follow()
    ensures same { (code : List Instr) (starts : List ℕ) → Follows code code starts starts }
    ensures on { (a b d : List Instr) (s t u : List ℕ) → length t ≡ length s → Follows a b s t → Follows b d t u → Follows a d s u }
    ensures agrees { (params : ℕ) (source : SourceMeaning) (c c' : CodeView) (starts starts' : List ℕ) → params ≤ 8 → c'.params ≡ c.params → Follows c.list c'.list starts starts' → (Agrees params source c ↔ Agrees params source c') }
    ensures visited { (params : ℕ) (entered : EntryCount) (code code' : List Instr) (starts starts' : List ℕ) → params ≤ 8 → length starts' ≡ length starts → Follows code code' starts starts' → IsVisited params entered code starts → IsVisited params entered code' starts' }
    ensures assumes { (params : ℕ) (source : SourceMeaning) (slots : ℕ) (code code' : List Instr) (starts starts' : List ℕ) → Follows code code' starts starts' → AssumesNoMore params source slots code → AssumesNoMore params source slots code' }
{}

/// Starts of that shape in lawful code, one a label and inside, are the starts of its labels.
pub fn starts_of_labels()
    ensures { (labels : ℕ) (code : List Instr) (starts : List ℕ) → IsProgram code → length starts ≡ labels → HasShape code starts → AreInside code starts → AreStarts labels code starts }
{}
