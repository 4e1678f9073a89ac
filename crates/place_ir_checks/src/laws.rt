//! Laws of the definitions in specs/: each is the contract of a function that does nothing.

ghost use Rattle.std.specs.Prelude.{◌≡◌, ◌≤◌, ◌+◌, ℕ, true, Some, None, List, [], ◌∷◌, All, Contains, map, filter};
ghost use Rattle.place_plan.specs.Costs.{defined_cost, copied_cost, served_cost};
ghost use Rattle.place_plan.specs.Uses.{Parameter, Result};
ghost use Rattle.place_plan.specs.declared.place.Place.TheVariants.{A, B, L, S, Slot};
ghost use Rattle.ssu_ir.specs.Examples.{sum_of_two, copied_and_added};
ghost use Rattle.ssu_ir.specs.Points.{points};
ghost use Rattle.ssu_ir.specs.Single.{single};
ghost use Rattle.ssu_ir.specs.Tree.{Label};
ghost use Rattle.place_ir_checks.specs.Examples.{at_home, serve_at, pass_at, sum_in, sum_through, words_in};
ghost use Rattle.place_plan.specs.Fits.{Fits, Rises, wants_home};
ghost use Rattle.place_plan.specs.Plan.{Home, Plan};
ghost use Rattle.place_plan.specs.Uses.{values};
ghost use Rattle.nv_base.specs.Sets.{Within};
ghost use Rattle.ssu_liveness.specs.inner.Numbers.{Numbers};
ghost use Rattle.place_plan.specs.inner.Spilled.{spilled, value_home, AreSpilled, IsNumbered};

/// A placement in slots alone fits, where at each point the live values have different slots
/// among those that may be used.
pub fn slots_alone_fit()
    ensures { (labels : List Label) (number : Numbers) (slots : ℕ) (homes : List Home) → single labels ≡ true → slots ≤ 128 → All (IsNumbered number slots) (points labels) → AreSpilled labels number homes → Fits labels (spilled labels number slots homes) }
{}

/// Homes of the values that want one, by rising variable and each made for its value, are found under
/// the values' variables.
pub fn homes_are_found()
    ensures { (labels : List Label) (number : Numbers) (homes : List Home) → single labels ≡ true → Rises (map (λ h. h.var) homes) → Within (map (λ v. v.var) (filter (wants_home labels) (values labels))) (map (λ h. h.var) homes) → Within (map (λ h. h.var) homes) (map (λ v. v.var) (filter (wants_home labels) (values labels))) → All (Contains (map (value_home number) (filter (wants_home labels) (values labels)))) homes → AreSpilled labels number homes }
{}

/// The operands of a sum fit in the two banks, and one of them in a slot that is read through a
/// register; two words that are read stay in their read registers, and one is put early into its write
/// register.
pub fn small_placements_fit()
    ensures banks { Fits sum_of_two (sum_in (A 0) (B 0) (A 1)) }
    ensures slot { Fits sum_of_two (sum_through 1 (pass_at 1 (Some 3) None ∷ [])) }
    ensures words { Fits copied_and_added (words_in 4 0 (A 1) (S 0 ∷ [])) }
    ensures aside { Fits copied_and_added (record (words_in 4 0 (A 1) (S 0 ∷ [])) { passes = pass_at 5 None (Some 2) ∷ pass_at 7 (Some 6) None ∷ [] }) }
{}

/// What breaks a rule doesn't fit.
pub fn each_rule_refuses()
    ensures few_slots { Fits sum_of_two (sum_through 0 (pass_at 1 (Some 3) None ∷ [])) → ⊥ }
    ensures many_slots { Fits sum_of_two (sum_through 129 (pass_at 1 (Some 3) None ∷ [])) → ⊥ }
    ensures no_pass { Fits sum_of_two (sum_through 1 []) → ⊥ }
    ensures other_pass { Fits sum_of_two (sum_through 1 (pass_at 1 (Some 2) None ∷ [])) → ⊥ }
    ensures pass_past { Fits sum_of_two (sum_through 1 (pass_at 1 (Some 3) None ∷ pass_at 3 None None ∷ [])) → ⊥ }
    ensures one_register { Fits sum_of_two (sum_in (A 0) (A 0) (A 1)) → ⊥ }
    ensures one_bank { Fits sum_of_two (sum_in (A 0) (A 1) (A 1)) → ⊥ }
    ensures own_register { Fits sum_of_two (sum_in (A 15) (B 0) (A 1)) → ⊥ }
    ensures read_register { Fits sum_of_two (sum_in (L 0) (B 0) (A 1)) → ⊥ }
    ensures no_home { Fits sum_of_two (record (sum_in (A 0) (B 0) (A 1)) { homes = at_home 0 (A 0) [] ∷ at_home 1 (B 0) [] ∷ [] }) → ⊥ }
    ensures no_serve { Fits sum_of_two (record (sum_in (A 0) (B 0) (A 1)) { serves = serve_at 1 0 (A 0) (A 0) ∷ serve_at 1 1 (B 0) (B 0) ∷ [] }) → ⊥ }
    ensures other_home { Fits sum_of_two (record (sum_in (A 0) (B 0) (A 1)) { serves = serve_at 1 0 (A 2) (A 2) ∷ serve_at 1 1 (B 0) (B 0) ∷ serve_at 2 0 (A 1) (A 0) ∷ [] }) → ⊥ }
    ensures no_first { Fits copied_and_added (record (words_in 4 0 (A 1) (S 0 ∷ [])) { firsts = [] }) → ⊥ }
    ensures run_past { Fits copied_and_added (words_in 7 0 (A 1) (S 0 ∷ [])) → ⊥ }
    ensures not_put { Fits copied_and_added (words_in 4 0 (A 1) []) → ⊥ }
    ensures word_moved { Fits copied_and_added (words_in 4 1 (A 1) (S 0 ∷ [])) → ⊥ }
    ensures word_waits { Fits copied_and_added (record (words_in 4 0 (A 1) (S 0 ∷ [])) { passes = pass_at 5 None (Some 0) ∷ [] }) → ⊥ }
    ensures value_stays { Fits copied_and_added (record (words_in 4 0 (A 1) (S 0 ∷ [])) { passes = pass_at 7 (Some 4) None ∷ [] }) → ⊥ }
{}

/// What a fetch, a copy and a first place cost: 16 for each access to a slot, 1 for each copy between
/// banks, and nothing for one to or from the compiler's own register.
pub fn costs_of_moves()
    ensures slots { (k r : ℕ) → (served_cost (Slot k) (L r) ≡ 16) × (served_cost (Slot k) (A 15) ≡ 16) × (served_cost (Slot k) (A 3) ≡ 17) × (served_cost (Slot k) (S r) ≡ 17) × (served_cost (Slot k) (Slot r) ≡ 33) × (served_cost (L k) (Slot r) ≡ 17) }
    ensures banks { (k r : ℕ) → (served_cost (A k) (A r) ≡ 0) × (served_cost (B k) (A 15) ≡ 1) × (served_cost (L k) (B r) ≡ 1) × (served_cost (A k) (S r) ≡ 1) × (served_cost (S k) (S k) ≡ 0) }
    ensures homes { (k l i : ℕ) → (copied_cost (Slot k) ≡ 17) × (copied_cost (B k) ≡ 1) × (copied_cost (S k) ≡ 1) × (defined_cost Result (Slot k) ≡ 16) × (defined_cost (Parameter 0 i) (Slot k) ≡ 17) × (defined_cost (Parameter 0 i) (B k) ≡ 1) × (defined_cost (Parameter (l + 1) i) (Slot k) ≡ 0) }
{}
