//! From the text of a program to the text of a true report.

ghost use Rattle.std.specs.Prelude.{◌≡◌, ◌≢◌, ◌⊎◌, ◌<◌, ◌^◌, ℕ, List, [], ◌∷◌, Some, Err, IfOk, IfErr, IsErr, length};
ghost use Rattle.nv_outside.specs.Causes.{Rose};
ghost use Rattle.nv_outside.specs.Calls.{Asked, Load, Save};
ghost use Rattle.nv_outside.specs.Holding.{IsLonger, Replaced, SameElsewhere};
ghost use Rattle.zo_model.specs.Program.{IsValid, columns};
ghost use Rattle.zo_bench_files.specs.Exit.{exit_code};
ghost use Rattle.zo_bench_files.specs.Written.{IsReportText, IsTextRefusal, IsTrueText, calls_to};
ghost use Rattle.zo_bench_files.specs.declared.solved.Failure.TheVariants.{Read, Text, Words, Write};

use nv_outside::{Files, Loaded, Saved};
use std::alloc::Global;
use zo_cert::print_report;
use zo_model::{NoMemory, ZeroOne, ZoError, read_program};
use zo_solve::{Fixed, Order, Pick, report_of, solve_by};

/// The greatest size of a program's text.
const LIMIT: u64 = 1 << 26;

/// The branches that a search may use.
const BUDGET: u32 = 2_000;

/// Why no report was written.
#[derive(Clone, Copy, Drop)]
pub enum Failure {
    /// The words are no command.
    Words,
    /// The program can't be read.
    Read,
    /// The report can't be written.
    Write,
    /// Memory ran out.
    Memory,
    /// The file isn't the text of a program.
    Text,
}

impl Failure {
    /// The program's exit code.
    pub fn code(self) -> u8
        ensures { result ≡ exit_code self }
    {
        match self {
            Failure::Words => 2,
            Failure::Read => 3,
            Failure::Write => 4,
            Failure::Memory => 5,
            Failure::Text => 6,
        }
    }
}

/// The text of a true report on a program.
fn report_on(alloc: Global, z: ZeroOne) -> Result<Vec<u8>, NoMemory>
    requires valid { IsValid z }
    ensures { IfOk result (λ text. IsReportText z text.items) }
{
    let order = Order::new(alloc, &z)?;
    let pick = Pick::new(
        |z: &ZeroOne, fixed: &Fixed| -> u32
            requires valid { IsValid z.now }
            requires places { length fixed.now.at.items ≡ columns z.now }
        { order.choice(z, fixed) },
    );
    let solved = solve_by(alloc, &z, None, BUDGET, &pick, &order)?;
    let report = report_of(alloc, z, solved, 0, BUDGET)?;
    print_report(alloc, &report)
}

/// The text of a true report on the program of a text.
pub fn solve_text(alloc: Global, bytes: &[u8]) -> Result<Vec<u8>, Failure>
    ensures text { IfOk result (λ text. IsTrueText bytes.now text.items) }
    ensures cause { IfErr result (IsTextRefusal bytes.now) }
    ensures long { 2 ^ 26 < length bytes.now → result ≡ Err Text }
{
    if bytes.len() as u64 > LIMIT {
        return Err(Failure::Text);
    }
    let z = match read_program(alloc, bytes) {
        Ok(z) => z,
        Err(ZoError::NoMemory) => return Err(Failure::Memory),
        Err(ZoError::Bad(_)) => return Err(Failure::Text),
    };
    match report_on(alloc, z) {
        Ok(text) => Ok(text),
        Err(NoMemory) => Err(Failure::Memory),
    }
}

/// Reads the program of one file, and writes a true report on it to another.
pub fn solve_file<F: Files>(
    alloc: Global,
    files: &mut F,
    program: &str,
    report: &str,
) -> Result<(), Failure>
    ensures written { F.tells → IfOk result (λ _. (bytes : List ℕ) × (text : List ℕ) × (F.held files.old program.now ≡ Some bytes) × IsTrueText bytes text × Replaced (F.held files.old) (F.held files.new) report.now text) }
    ensures text { F.tells → result ≡ Err Text → (IsLonger (F.held files.old) program.now (2 ^ 26) ⊎ ((bytes : List ℕ) × (F.held files.old program.now ≡ Some bytes) × IsTextRefusal bytes Text)) }
    ensures read { result ≡ Err Read → Rose (F.load_faults files.old program.now) (F.load_faults files.new program.now) }
    ensures write { result ≡ Err Write → Rose (F.save_faults files.old report.now) (F.save_faults files.new report.now) }
    ensures words { result ≢ Err Words }
    ensures long { F.tells → IsLonger (F.held files.old) program.now (2 ^ 26) → IsErr result }

    // What was called, what is held after it, and which counts of faults stay.
    ensures called { IfOk result (λ _. Asked F.history files.old files.new (Load program.now ∷ Save report.now ∷ [])) }
    ensures called_to { IfErr result (λ failure. Asked F.history files.old files.new (calls_to failure program.now report.now)) }
    ensures elsewhere { F.tells → SameElsewhere (F.held files.old) (F.held files.new) report.now }
    ensures kept { result ≢ Err Write → IfErr result (λ _. F.held files.new ≡ F.held files.old) }
    ensures no_read { result ≢ Err Read → (q : List ℕ) → F.load_faults files.new q ≡ F.load_faults files.old q }
    ensures no_write { result ≢ Err Write → (q : List ℕ) → F.save_faults files.new q ≡ F.save_faults files.old q }
{
    let mut bytes = Vec::new(alloc);
    match files.load(program, LIMIT, &mut bytes) {
        Loaded::Done => {}
        Loaded::TooLong => return Err(Failure::Text),
        Loaded::Failed => return Err(Failure::Read),
        Loaded::NoMemory => return Err(Failure::Memory),
    }
    let text = solve_text(alloc, &bytes)?;
    match files.save(report, &text) {
        Saved::Done => Ok(()),
        Saved::Failed => Err(Failure::Write),
    }
}
