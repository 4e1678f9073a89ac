//! Laws of runs through pieces of code, by which emitted code is shown to do what it should: each is the contract of
//! a function that does nothing.
ghost use Rattle.std.specs.Prelude.{◌≡◌, ◌+◌, ◌<◌, ◌≤◌, ◌⊎◌, ℕ, Bool, true, false, not, List, [], ◌∷◌, ◌++◌, Some, None, length, take, drop, slice_get, slice_index};
ghost use Rattle.nv_base.specs.Meanings.{FullOutcome};
ghost use Rattle.nv_base.specs.Memories.{HasSizes, Memories, fetched, source_scratch, stored};
ghost use Rattle.nv_base.specs.Words.{IsWord, bin_word, compares, shifted_left};
ghost use Rattle.nv_base.specs.declared.outcome.Outcome.{Outcome};
ghost use Rattle.nv_base.specs.declared.outcome.Write.{Write};
ghost use Rattle.nv_base.specs.declared.term.Bin.{Bin};
ghost use Rattle.nv_base.specs.declared.term.Cmp.{Cmp};
ghost use Rattle.nv_base.specs.declared.term.Mem.{Mem};
ghost use Rattle.uc_isa.specs.Agrees.{KeepsToItsWords, scratch_access};
ghost use Rattle.uc_isa.specs.Engine.{IsEngine, halted, start};
ghost use Rattle.uc_isa.specs.Lawful.{IsLawful};
ghost use Rattle.uc_isa.specs.Pieces.{EndsIn, GoesByBase, IsCovered, KeepsAfter, KeepsAt, Leads, Moment, SeenAlike, WritesOwn, run_from};
ghost use Rattle.uc_isa.specs.Registers.{Fills, Puts, address_register, failing, register, source_register, write_register};
ghost use Rattle.uc_isa.specs.Registers.Register.{InA, InB};
ghost use Rattle.uc_isa.specs.Step.{address, bin_carry, holds, onward, operand, step, un_word, with_flags, with_read, with_result, write_registers};
ghost use Rattle.uc_isa.specs.Straight.{going, went};
ghost use Rattle.uc_isa.specs.declared.engine.Engine.{Engine};
ghost use Rattle.uc_isa.specs.declared.engine.Stepped.{Stepped};
ghost use Rattle.uc_isa.specs.declared.instruction.Cond.{Cond};
ghost use Rattle.uc_isa.specs.declared.instruction.Dst.{Dst};
ghost use Rattle.uc_isa.specs.declared.instruction.Gpr.{Gpr};
ghost use Rattle.uc_isa.specs.declared.instruction.Instr.{Instr};
ghost use Rattle.uc_isa.specs.declared.instruction.Src.{Src};
ghost use Rattle.uc_isa.specs.declared.instruction.UnOp.{UnOp};

/// Pieces follow one another, and what they lead to is what the run has come to after their steps.
pub fn pieces_follow_one_another()
    ensures none { (code : List Instr) (base : ℕ) (a : Moment) → Leads code base 0 a a }
    ensures went { (code : List Instr) (base : ℕ) (a : Moment) (e : Engine) (p : Memories) → step code a.engine a.packet ≡ went e p → KeepsAt code base a.engine → Leads code base 1 a (record { engine = e; packet = p; writes = a.writes }) }
    ensures wrote { (code : List Instr) (base : ℕ) (a : Moment) (w : Write) (e : Engine) (p : Memories) → step code a.engine a.packet ≡ record { stepped = Stepped.Wrote w; engine = e; packet = p } → KeepsAt code base a.engine → Leads code base 1 a (record { engine = e; packet = p; writes = a.writes ++ w ∷ [] }) }
    ensures then_ { (code : List Instr) (base n m : ℕ) (a b c : Moment) → Leads code base n a b → Leads code base m b c → Leads code base (n + m) a c }
    ensures ended { (code : List Instr) (base n m : ℕ) (a b : Moment) (f : FullOutcome) → Leads code base n a b → EndsIn code base m b f → EndsIn code base (n + m) a f }
    ensures reached { (code : List Instr) (base n : ℕ) (a b : Moment) → Leads code base n a b → run_from code n a ≡ going b.packet b.writes }
{}

/// Where each number of steps is inside a run that keeps to the code's own words, or the run ends so, all accesses of
/// the run do.
pub fn pieces_keep_to_their_words()
    ensures { (code : List Instr) (base : ℕ) (a : Moment) → ((m : ℕ) → IsCovered code base a m ⊎ ((n : ℕ) × (f : FullOutcome) × EndsIn code base n a f)) → (m : ℕ) → KeepsAfter code base m a }
{}

/// A piece of lawful code leaves an engine and memories that can be.
pub fn pieces_keep_states()
    ensures { (code : List Instr) (base n : ℕ) (a b : Moment) → IsLawful code → IsEngine a.engine → HasSizes a.packet → Leads code base n a b → IsEngine b.engine × HasSizes b.packet }
{}

/// What is written into the code's own words a source doesn't see.
pub fn own_writes_are_unseen()
    ensures none { (base : ℕ) (a : Moment) (e : Engine) → WritesOwn base a (record { engine = e; packet = a.packet; writes = a.writes }) }
    ensures one { (base at : ℕ) (ws : List ℕ) (a : Moment) (e : Engine) (q : Memories) → stored Mem.Scratch at ws a.packet ≡ Some q → base ≤ at → at + length ws ≤ base + 128
        → WritesOwn base a (record { engine = e; packet = q; writes = a.writes ++ record { mem = Mem.Scratch; at = at; words = ws } ∷ [] }) }
    ensures then_ { (base : ℕ) (a b c : Moment) → WritesOwn base a b → WritesOwn base b c → WritesOwn base a c }
    ensures seen { (base : ℕ) (a b : Moment) → source_scratch ≤ base → WritesOwn base a b → SeenAlike a b }
{}

/// An operation, or an immediate, at the place where it stands.
pub fn operations_lead_on()
    ensures alu { (code : List Instr) (base : ℕ) (d : Dst) (op : Bin) (x y : Src) (a : Moment) → slice_get code a.engine.place ≡ Some (Instr.Alu d op x y)
        → let v = bin_word op (operand x a.engine) (operand y a.engine) in
        let carry = bin_carry op (operand x a.engine) (operand y a.engine) in
        Leads code base 1 a (record a { engine = onward (with_flags v carry (with_result d v a.engine)) }) }
    ensures un { (code : List Instr) (base : ℕ) (d : Dst) (op : UnOp) (x : Src) (a : Moment) → slice_get code a.engine.place ≡ Some (Instr.Un d op x)
        → let v = un_word op (operand x a.engine) in Leads code base 1 a (record a { engine = onward (with_flags v false (with_result d v a.engine)) }) }
    ensures immed { (code : List Instr) (base : ℕ) (d : Dst) (v s : ℕ) (a : Moment) → slice_get code a.engine.place ≡ Some (Instr.Immed d v s)
        → Leads code base 1 a (record a { engine = onward (with_result d (shifted_left s v) a.engine) }) }
{}

/// A branch goes to its target where its condition holds, else to the next place.
pub fn branches_lead_on()
    ensures taken { (code : List Instr) (base : ℕ) (c : Cond) (target : ℕ) (a : Moment) → slice_get code a.engine.place ≡ Some (Instr.Br c target) → holds c a.engine ≡ true
        → Leads code base 1 a (record a { engine = record a.engine { place = target } }) }
    ensures passed { (code : List Instr) (base : ℕ) (c : Cond) (target : ℕ) (a : Moment) → slice_get code a.engine.place ≡ Some (Instr.Br c target) → holds c a.engine ≡ false
        → Leads code base 1 a (record a { engine = onward a.engine }) }
{}

/// A read brings the words of its memory into a run of read registers, or is the end of the run.
pub fn reads_lead_on()
    ensures words { (code : List Instr) (base : ℕ) (m : Mem) (r n : ℕ) (x : Gpr) (off : ℕ) (ws : List ℕ) (a : Moment) → slice_get code a.engine.place ≡ Some (Instr.Read m r n x off)
        → fetched m (address x a.engine + off) n a.packet ≡ Some ws → KeepsToItsWords base (scratch_access (Some (Instr.Read m r n x off)) a.engine) → GoesByBase base (Some (Instr.Read m r n x off)) a.engine
        → Leads code base 1 a (record a { engine = onward (with_read m r ws a.engine) }) }
    ensures fault { (code : List Instr) (base : ℕ) (m : Mem) (r n : ℕ) (x : Gpr) (off : ℕ) (a : Moment) → slice_get code a.engine.place ≡ Some (Instr.Read m r n x off)
        → fetched m (address x a.engine + off) n a.packet ≡ None → KeepsToItsWords base (scratch_access (Some (Instr.Read m r n x off)) a.engine) → GoesByBase base (Some (Instr.Read m r n x off)) a.engine
        → EndsIn code base 1 a (record { outcome = Outcome.Fault m (address x a.engine + off); packet = a.packet; writes = a.writes }) }
{}

/// A write puts the words of a run of write registers into its memory, or is the end of the run.
pub fn writes_lead_on()
    ensures words { (code : List Instr) (base : ℕ) (m : Mem) (r n : ℕ) (x : Gpr) (off : ℕ) (ws : List ℕ) (q : Memories) (a : Moment) → slice_get code a.engine.place ≡ Some (Instr.Write m r n x off)
        → take n (drop r (write_registers m a.engine)) ≡ ws → stored m (address x a.engine + off) ws a.packet ≡ Some q → KeepsToItsWords base (scratch_access (Some (Instr.Write m r n x off)) a.engine) → GoesByBase base (Some (Instr.Write m r n x off)) a.engine
        → Leads code base 1 a (record { engine = onward a.engine; packet = q; writes = a.writes ++ record { mem = m; at = address x a.engine + off; words = ws } ∷ [] }) }
    ensures fault { (code : List Instr) (base : ℕ) (m : Mem) (r n : ℕ) (x : Gpr) (off : ℕ) (ws : List ℕ) (a : Moment) → slice_get code a.engine.place ≡ Some (Instr.Write m r n x off)
        → take n (drop r (write_registers m a.engine)) ≡ ws → stored m (address x a.engine + off) ws a.packet ≡ None → KeepsToItsWords base (scratch_access (Some (Instr.Write m r n x off)) a.engine) → GoesByBase base (Some (Instr.Write m r n x off)) a.engine
        → EndsIn code base 1 a (record { outcome = Outcome.Fault m (address x a.engine + off); packet = a.packet; writes = a.writes }) }
{}

/// A halt is the end of a run.
pub fn halts_end_runs()
    ensures { (code : List Instr) (base k n : ℕ) (ws : List ℕ) (a : Moment) → slice_get code a.engine.place ≡ Some (Instr.Halt k n) → take n a.engine.a ≡ ws
        → EndsIn code base 1 a (record { outcome = halted k ws; packet = a.packet; writes = a.writes }) }
{}

/// What the registers hold before and after an instruction: a result changes its target alone, and a read its run alone.
pub fn registers_hold_what_was_put()
    ensures operand { (x : Src) (e : Engine) → operand x e ≡ register (source_register x) e }
    ensures address { (x : Gpr) (e : Engine) → address x e ≡ register (address_register x) e }
    ensures result_ { (d : Dst) (v w : ℕ) (carry : Bool) (e : Engine) → IsEngine e → Puts d v e (onward (with_flags w carry (with_result d v e))) }
    ensures immediate { (d : Dst) (v : ℕ) (e : Engine) → IsEngine e → Puts d v e (onward (with_result d v e)) }
    ensures read { (m : Mem) (r : ℕ) (ws : List ℕ) (e : Engine) → IsEngine e → r + length ws ≤ 8 → Fills m r ws e (onward (with_read m r ws e)) }
{}

/// A run of registers that hold these words, one by one, is these words; and what the registers hold at the start.
pub fn runs_of_registers_are_words()
    ensures written { (m : Mem) (r : ℕ) (ws : List ℕ) (e : Engine) → IsEngine e → r + length ws ≤ 8 → ((i : ℕ) → i < length ws → register (write_register m (r + i)) e ≡ slice_index ws i) → take (length ws) (drop r (write_registers m e)) ≡ ws }
    ensures halted { (ws : List ℕ) (e : Engine) → IsEngine e → length ws ≤ 16 → ((i : ℕ) → i < length ws → register (InA i) e ≡ slice_index ws i) → take (length ws) e.a ≡ ws }
    ensures arguments { (args : List ℕ) (base i : ℕ) → i < length args → register (InA i) (start args base) ≡ slice_index args i }
    ensures base { (args : List ℕ) (base : ℕ) → register (InB 15) (start args base) ≡ base }
{}

/// After the difference of two words a branch tells whether they compare so: it is taken where they don't.
pub fn comparisons_are_flags()
    ensures { (cmp : Cmp) (x y : ℕ) (e : Engine) → IsWord x → IsWord y → holds (failing cmp) (onward (with_flags (bin_word Bin.Sub x y) (bin_carry Bin.Sub x y) e)) ≡ not (compares cmp x y) }
{}
