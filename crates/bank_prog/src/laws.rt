//! Laws of the definitions in specs/: each is the contract of a function that does nothing.

ghost use Rattle.std.specs.Prelude.{◌≡◌, ◌↔◌, ℕ, Bool, true, List, [], map, All, Contains};
ghost use Rattle.ssu_ir.specs.Single.{single};
ghost use Rattle.ssu_ir.specs.Tree.{Label};
ghost use Rattle.zo_model.specs.Contents.{contents};
ghost use Rattle.zo_model.specs.Program.{vector, costs_of, cost_of, Feasible};
ghost use Rattle.zo_model.specs.declared.program.ZeroOne as program;
ghost use Rattle.bank_prog_form.specs.Columns.{columns, costs, priced};
ghost use Rattle.bank_prog.specs.Meaning.{on, named_cost, Holds, IsFeasible};
ghost use Rattle.bank_prog.specs.Weighted.{weighted, weighted_costs, weighted_program};
ghost use Rattle.bank_prog_form.specs.Rows.{lines};
ghost use Rattle.bank_prog_form.specs.declared.column.Column as column;

/// A vector meets the rows of the program of the banks exactly where each line holds by name.
pub fn rows_hold_by_name()
    ensures { (z : program.ZeroOne) (labels : List Label) (slots : ℕ) (ws : List ℕ) (x : ℕ → Bool) → contents z ≡ weighted_program labels slots ws → Feasible z x ↔ IsFeasible labels slots x }
{}

/// Only columns that are there are 1.
pub fn only_columns_are_on()
    ensures { (labels : List Label) (x : ℕ → Bool) (c : column.Column) → on labels x c ≡ true → Contains (columns labels) c }
{}

/// What a vector costs is the sum of the costs of the columns that are 1 by name, each times the weight of its label.
pub fn costs_by_name()
    ensures { (z : program.ZeroOne) (labels : List Label) (slots : ℕ) (ws : List ℕ) (x : ℕ → Bool) → single labels ≡ true → contents z ≡ weighted_program labels slots ws → cost_of z x ≡ named_cost (on labels x) (weighted labels ws) }
{}

/// The same of the costs alone.
pub fn vector_costs_by_name()
    ensures { (labels : List Label) (x : ℕ → Bool) → single labels ≡ true → costs_of (costs labels) x ≡ named_cost (on labels x) (priced labels) }
{}

/// And of the costs under weights.
pub fn weighted_costs_by_name()
    ensures { (labels : List Label) (ws : List ℕ) (x : ℕ → Bool) → single labels ≡ true → costs_of (weighted_costs labels ws) x ≡ named_cost (on labels x) (weighted labels ws) }
{}

/// Where each label weighs 1, a column costs what its kind does.
pub fn no_weights_are_ones()
    ensures { (labels : List Label) → weighted_costs labels [] ≡ costs labels }
{}

/// Of a vector that is made over the columns each column that is there is on as it was chosen.
pub fn chosen_columns_are_on()
    ensures { (labels : List Label) (f : column.Column → Bool) (c : column.Column) → Contains (columns labels) c → on labels (vector (map f (columns labels))) c ≡ f c }
{}
