//! Laws of the definitions in specs/: each is the contract of a function that does nothing.
ghost use Rattle.std.specs.Prelude.{◌≡◌, ◌≤◌, ◌+◌, ◌↔◌, ℕ, suc, Bool, true, List, [], ◌∷◌, ◌++◌, All, None, Some, length, take};
ghost use Rattle.nv_base.specs.Log.{Log, empty_log, noted_all};
ghost use Rattle.nv_base.specs.Measures.{Bulk, operands_wide, let_wide, entry_wide, nothing, both, IsAtMost};
ghost use Rattle.nv_base.specs.Memories.{Memories, HasSizes, IsAccess, AreApart, IsSourceStretch, source_scratch, words_at, fetched, stored};
ghost use Rattle.nv_base.specs.Meanings.{Meaning, Same, KeepsOutcomes, AreEqual, AreArguments, seen, applied, left_by, source_memories};
ghost use Rattle.nv_base.specs.Progress.{Before, IsSimulatedBy, IsMonotone, IsMatchedBy, IsStepwise, FollowsAll, FollowsWrites};
ghost use Rattle.nv_base.specs.Access.{can_move, has_count, is_primitive, is_address};
ghost use Rattle.nv_base.specs.Running.{Running};
ghost use Rattle.nv_base.specs.Sets.{Within, is_in, all_different, different};
ghost use Rattle.nv_base.specs.Words.{IsWord, HasCount, HasPrimCount, una_word, bin_word, Env, IsEnv, assigned, assigned_all, atom_word, atom_words, prim_word, prim_vars};
ghost use Rattle.nv_base.specs.declared.outcome.Outcome.{Outcome};
ghost use Rattle.nv_base.specs.declared.outcome.Write.{Write};
ghost use Rattle.nv_base.specs.declared.term.Atom.{Atom};
ghost use Rattle.nv_base.specs.declared.term.Bin.{Bin};
ghost use Rattle.nv_base.specs.declared.term.Mem.{Mem};
ghost use Rattle.nv_base.specs.declared.term.Mem.TheVariants.{Scratch};
ghost use Rattle.nv_base.specs.declared.term.Primitive.{Primitive};
ghost use Rattle.nv_base.specs.declared.term.Una.{Una};

/// To be the same is an equivalence of meanings, so it goes through any number of passes.
pub fn same_is_an_equivalence()
    ensures reflexive { (m : Meaning) → Same m m }
    ensures symmetric { (m n : Meaning) → Same m n → Same n m }
    ensures transitive { (m n k : Meaning) → Same m n → Same n k → Same m k }
{}

/// Two meanings each of which gets as far as the other are the same.
pub fn same_where_each_reaches_the_other()
    ensures { (m n : Meaning) → IsSimulatedBy m n → IsSimulatedBy n m → Same m n }
{}

/// Two meanings that are seen alike at every number are the same.
pub fn same_where_seen_alike()
    ensures { (m n : Meaning) → ((i : ℕ) → seen (m i) ≡ seen (n i)) → Same m n }
{}

/// It is enough to follow a meaning forward into one that gets further with more steps, counting
/// progress where it goes on: the way back is free.
pub fn same_where_it_lands()
    ensures { (m n : Meaning) → IsMatchedBy m n → IsMonotone n → Same m n }
{}

/// Where memories are told by the first ones and the writes, and the second meaning writes at most
/// once a step, each moment at which the first goes on is one at which the second goes on.
pub fn going_where_same()
    ensures { (p : Memories) (m n : Meaning) → Same m n → FollowsWrites p m → FollowsWrites p n → IsStepwise n → (i : ℕ) → (m i).outcome ≡ Outcome.Going → (j : ℕ) × (seen (m i) ≡ seen (n j)) }
{}

/// What follows all writes is seen to follow those that are seen.
pub fn seen_writes_suffice()
    ensures { (p : Memories) (m : Meaning) → FollowsAll p m → FollowsWrites p m }
{}

/// Outcomes that are kept by two passes are kept by one after the other.
pub fn kept_through_two()
    ensures { (a b c : ℕ) (m n k : List ℕ → Memories → Meaning) → KeepsOutcomes a b m n → KeepsOutcomes b c n k → KeepsOutcomes a c m k }
{}

/// A log keeps the first of the writes that were noted, and counts all.
pub fn log_keeps_the_first()
    ensures kept { (keep : ℕ) (ws : List Write) → (noted_all (empty_log keep) ws).kept ≡ take keep ws }
    ensures counted { (keep : ℕ) (ws : List Write) → (noted_all (empty_log keep) ws).count ≡ length ws }
{}

/// Operations on words give words, where a shift's count is 1 to 31.
pub fn operations_give_words()
    ensures one { (op : Una) (x : ℕ) → HasCount op → IsWord x → IsWord (una_word op x) }
    ensures two { (op : Bin) (x y : ℕ) → IsWord x → IsWord y → IsWord (bin_word op x y) }
{}

/// A primitive has the same word under two environments that give its variables the same words.
pub fn a_primitive_depends_on_its_variables()
    ensures { (env env' : Env) (p : Primitive) → All (λ x. env x ≡ env' x) (prim_vars p) → prim_word env p ≡ prim_word env' p }
{}

/// A run that gets further from each step to the next gets further with more steps.
pub fn monotone_by_steps()
    ensures { (m : Meaning) → ((i : ℕ) → Before (m i) (m (suc i))) → IsMonotone m }
{}

/// Memories keep their sizes when words are written, and what is fetched is as many words as were
/// asked for.
pub fn memories_hold_words()
    ensures stored { (m : Mem) (at : ℕ) (ws : List ℕ) (p q : Memories) → HasSizes p → All IsWord ws → stored m at ws p ≡ Some q → HasSizes q }
    ensures fetched { (m : Mem) (at n : ℕ) (p : Memories) (ws : List ℕ) → HasSizes p → fetched m at n p ≡ Some ws → (length ws ≡ n) × All IsWord ws }
{}

/// What was written is read.
pub fn written_is_read()
    ensures { (m : Mem) (at : ℕ) (ws : List ℕ) (p q : Memories) → stored m at ws p ≡ Some q → fetched m at (length ws) q ≡ Some ws }
{}

/// Of lists of variables the different ones are counted: a set in another has at most as many, two
/// together at most as many as both, and all where they are different.
pub fn sets_are_counted()
    ensures below { (a b : List ℕ) → Within a b → different a ≤ different b }
    ensures together { (a b : List ℕ) → different (a ++ b) ≤ different a + different b }
    ensures length { (a : List ℕ) → different a ≤ length a }
    ensures all { (a : List ℕ) → all_different a ≡ true → different a ≡ length a }
{}

/// The tests of an access and of a shift's count tell what the rules say.
pub fn tests_tell_the_rules()
    ensures access { (m : Mem) (n : ℕ) → can_move m n ≡ true ↔ IsAccess m n }
    ensures count { (op : Una) → has_count op ≡ true ↔ HasCount op }
{}

/// Environments of words stay so wherever variables are defined, and then operands are words and so
/// are primitives whose shifts have counts of 1 to 31.
pub fn environments_stay_words()
    ensures blank { IsEnv (λ x. 0) }
    ensures one { (env : Env) (x w : ℕ) → IsEnv env → IsWord w → IsEnv (assigned env x w) }
    ensures many { (env : Env) (xs ws : List ℕ) → IsEnv env → All IsWord ws → IsEnv (assigned_all env xs ws) }
    ensures operand { (env : Env) (a : Atom) → IsEnv env → IsWord (atom_word env a) }
    ensures operands { (env : Env) (atoms : List Atom) → IsEnv env → All IsWord (atom_words env atoms) }
    ensures primitive { (env : Env) (p : Primitive) → IsEnv env → HasPrimCount p → IsWord (prim_word env p) }
    ensures formed { (env : Env) (known : List ℕ) (p : Primitive) → IsEnv env → is_primitive known p ≡ true → IsWord (prim_word env p) }
{}

/// Accesses that have no word in common don't touch one another: a fetch gives the same before and
/// after such a store, and two such stores may come in either order.
pub fn accesses_apart_keep_one_another()
    ensures fetched { (m o : Mem) (at n to : ℕ) (ws : List ℕ) (p q : Memories) → AreApart m at n o to (length ws) → stored o to ws p ≡ Some q → fetched m at n q ≡ fetched m at n p }
    ensures stored { (m o : Mem) (at to : ℕ) (ws vs : List ℕ) (p q r : Memories) → AreApart m at (length ws) o to (length vs) → stored m at ws p ≡ Some q → stored o to vs q ≡ Some r → (k : Memories) × (stored o to vs p ≡ Some k) × (stored m at ws k ≡ Some r) }
    ensures writes { (w v : Write) (p : Memories) → AreApart w.mem w.at (length w.words) v.mem v.at (length v.words) → applied w (applied v p) ≡ applied v (applied w p) }
    ensures sizes { (m : Mem) (w : Write) (p : Memories) → length (words_at m (applied w p)) ≡ length (words_at m p) }
{}

/// What a source sees of memories is unchanged by stores in scratch from 512 on, and tells what the
/// source can fetch of them and what its stores leave.
pub fn sources_see_enough()
    ensures hidden { (at : ℕ) (ws : List ℕ) (p q : Memories) → source_scratch ≤ at → stored Scratch at ws p ≡ Some q → source_memories q ≡ source_memories p }
    ensures fetched { (m : Mem) (at n : ℕ) (p q : Memories) → HasSizes p → HasSizes q → source_memories p ≡ source_memories q → IsSourceStretch m at n → fetched m at n p ≡ fetched m at n q }
    ensures stored { (m : Mem) (at : ℕ) (ws : List ℕ) (p q k : Memories) → HasSizes p → HasSizes q → source_memories p ≡ source_memories q → stored m at ws p ≡ Some k → (l : Memories) × (stored m at ws q ≡ Some l) × (source_memories k ≡ source_memories l) }
    ensures past { (m : Mem) (at : ℕ) (ws : List ℕ) (p q : Memories) → HasSizes p → HasSizes q → source_memories p ≡ source_memories q → stored m at ws p ≡ None → stored m at ws q ≡ None }
    ensures addressed { (env : Env) (m : Mem) (a : Atom) (n : ℕ) → is_address m a n ≡ true → IsSourceStretch m (atom_word env a) n }
{}

/// Meanings whose outcomes are equal within each number of steps keep outcomes, and where one's
/// memories follow its writes, so do the other's.
pub fn equal_meanings_keep()
    ensures outcomes { (params : ℕ) (m n : List ℕ → Memories → Meaning) → AreEqual params m n → KeepsOutcomes params params m n }
    ensures memories { (params : ℕ) (m n : List ℕ → Memories → Meaning) (args : List ℕ) (p : Memories) → AreEqual params m n → AreArguments params args → HasSizes p → FollowsAll p (n args p) → FollowsAll p (m args p) }
{}

/// Where the memories of a run are the first ones after its writes, they are so after a store.
pub fn stores_are_followed()
    ensures { (m : Mem) (at : ℕ) (ws : List ℕ) (q : Memories) (now : Running) (p : Memories) → stored m at ws now.packet ≡ Some q → now.packet ≡ left_by now.writes p → q ≡ left_by (now.writes ++ record { mem = m; at = at; words = ws } ∷ []) p }
{}

/// Widths grow with the variables that are live, and bulks are ordered in each of their numbers.
pub fn measures_are_ordered()
    ensures operands { (held more : List ℕ) (atoms : List Atom) → Within held more → operands_wide held atoms ≤ operands_wide more atoms }
    ensures primitive { (held more : List ℕ) → Within held more → let_wide held ≤ let_wide more }
    ensures entry { (held more : List ℕ) (n : ℕ) → Within held more → entry_wide held n ≤ entry_wide more n }
    ensures reflexive { (a : Bulk) → IsAtMost a a }
    ensures transitive { (a b c : Bulk) → IsAtMost a b → IsAtMost b c → IsAtMost a c }
    ensures least { (a : Bulk) → IsAtMost nothing a }
    ensures sums { (a b c d : Bulk) → IsAtMost a b → IsAtMost c d → IsAtMost (both a c) (both b d) }
{}
