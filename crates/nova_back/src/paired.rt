//! The choice of banks that suits every form that holds at most 15 values at once.

ghost use Rattle.std.specs.Prelude.{◌≡◌, ◌≤◌, ℕ, List, true, is_some, length, map, IfOk};
ghost use Rattle.std.specs.HashMap.{get};
ghost use Rattle.ssu_ir.specs.Measures.{peak};
ghost use Rattle.ssu_ir.specs.Single.{single};
ghost use Rattle.ssu_ir.specs.View.{labels_view};
ghost use Rattle.zo_model.specs.Program.{vector, costs_of};
ghost use Rattle.bank_prog_form.specs.Columns as columns;
ghost use Rattle.bank_prog.specs.Meaning.{IsFeasible};
ghost use Rattle.bank_prog.specs.Weighted.{weighted_costs};
ghost use Rattle.bank_prog_form.specs.Program.{same_column};
ghost use Rattle.nova_back.specs.Causes.{IsCheapFor};
ghost use Rattle.nova_back.specs.inner.Paired as inner;

use bank_prog::{Bank, BankTables, Column, Numbers, number};
use nv_base::NoMemory;
use std::alloc::Global;
use zo_model::Assignment;

/// Whether a column is among those that have numbers.
fn is_there(numbers: &Numbers, c: Column) -> bool
    ensures { result ≡ inner.is_there (get same_column numbers.now) c }
{
    number(numbers, c).is_some()
}

/// Whether a use is the second operand of an instruction.
fn is_second(numbers: &Numbers, k: u32, i: u32) -> bool
    ensures { result ≡ inner.is_second (get same_column numbers.now) k i }
{
    i == 1 && is_there(numbers, Column::Serve(k, i, Bank::M, Bank::L))
}

/// Whether a value is first put into this bank, if it can be.
fn puts(h: Bank) -> bool
    ensures { result ≡ inner.is_a h }
{
    match h {
        Bank::A => true,
        Bank::B | Bank::M | Bank::T | Bank::L | Bank::A15 | Bank::W => false,
    }
}

/// Whether a value is copied into this bank.
fn fills(numbers: &Numbers, x: u32, h: Bank) -> bool
    ensures { result ≡ inner.fills (get same_column numbers.now) x h }
{
    match h {
        Bank::A => !is_there(numbers, Column::Def(x, Bank::A)),
        Bank::B => true,
        Bank::M | Bank::T | Bank::L | Bank::A15 | Bank::W => false,
    }
}

/// Whether a use is served from A at this bank.
fn serves_a(second: bool, p: Bank) -> bool
    ensures { result ≡ inner.serves_a second p }
{
    match p {
        Bank::A => !second,
        Bank::W => true,
        Bank::B | Bank::M | Bank::T | Bank::L | Bank::A15 => false,
    }
}

/// Whether a use is served from B at this bank.
fn serves_b(second: bool, p: Bank) -> bool
    ensures { result ≡ inner.serves_b second p }
{
    match p {
        Bank::B => second,
        Bank::A | Bank::M | Bank::T | Bank::L | Bank::A15 | Bank::W => false,
    }
}

/// Whether a use is served from one bank in another.
fn serves(second: bool, h: Bank, p: Bank) -> bool
    ensures { result ≡ inner.serves second h p }
{
    match h {
        Bank::A => serves_a(second, p),
        Bank::B => serves_b(second, p),
        Bank::M | Bank::T | Bank::L | Bank::A15 | Bank::W => false,
    }
}

/// Whether a column is 1.
fn chosen(numbers: &Numbers, c: Column) -> bool
    ensures { result ≡ inner.paired (get same_column numbers.now) c }
{
    match c {
        Column::Def(_, h) => puts(h),
        Column::DirectWrite(_, _, _) => false,
        Column::Fill(x, h) => fills(numbers, x, h),
        Column::Stay(_, _) => false,
        Column::EarlyWrite(_, _, _) => false,
        Column::First(_, f) => f == 0,
        Column::Serve(k, i, h, p) => serves(is_second(numbers, k, i), h, p),
        Column::ReadVia(_, _) => false,
        Column::WriteVia(_, _) => false,
    }
}

/// Of each of these columns whether it is 1.
fn choices(alloc: Global, numbers: &Numbers, names: &[Column]) -> Result<Vec<bool>, NoMemory>
    ensures { IfOk result (λ v. v.items ≡ map (inner.paired (get same_column numbers.now)) names.now) }
{
    Ok(names.iter().map(|c| chosen(numbers, *c)).collect(alloc)?)
}

/// The paired choice: each value in both banks, so that any two of them can be operands of one instruction, and no
/// slot. Where at most 15 values are live at once it meets all rows.
pub fn paired(alloc: Global, bank: &BankTables<'_>) -> Result<Assignment, NoMemory>
    requires { single (labels_view bank.now.form.ssu.now) ≡ true }
    ensures columns { IfOk result (λ x. length x.on.items ≡ length (columns.columns (labels_view bank.now.form.ssu.now))) }
    ensures feasible { (slots : ℕ) → peak (labels_view bank.now.form.ssu.now) ≤ 15 → IfOk result (λ x. IsFeasible (labels_view bank.now.form.ssu.now) slots (vector x.on.items)) }
    ensures cheap { IfOk result (λ x. (ws : List ℕ) → IsCheapFor (labels_view bank.now.form.ssu.now) ws (costs_of (weighted_costs (labels_view bank.now.form.ssu.now) ws) (vector x.on.items))) }
{
    let names = bank.names(alloc)?;
    let on = choices(alloc, &bank.numbers, &names)?;
    Ok(Assignment { on })
}
