//! Laws of the definitions: each is the contract of a function that does nothing.

ghost use Rattle.std.specs.Prelude.{◌≡◌, ◌≤◌, ◌*◌, ℕ, true, List, length};
ghost use Rattle.ssu_ir.specs.Measures.{size};
ghost use Rattle.ssu_ir.specs.Single.{single};
ghost use Rattle.ssu_ir.specs.Tree.{Label};
ghost use Rattle.bank_prog_form.specs.Columns.{columns};
ghost use Rattle.bank_prog_form.specs.Program.{rows};

/// The program of the banks of a form has at most 64 columns for each point, value and use of the form.
pub fn columns_are_few()
    ensures { (labels : List Label) → length (columns labels) ≤ 64 * size labels }
{}

/// And at most 64 rows for each, where no value is defined twice.
pub fn rows_are_few()
    ensures { (labels : List Label) (slots : ℕ) → single labels ≡ true → length (rows labels slots) ≤ 64 * size labels }
{}
