//! A schedule's text, read.
ghost use Rattle.std.specs.Prelude.{◌≡◌, ◌+◌, ◌<◌, ◌≤◌, ◌^◌, ℕ, List, [], All, length, IfOk, IfErr};
ghost use Rattle.uc_schedule.specs.ScheduleText.{Gives, HasWords, IsBad, IsNamed, entry_limit, steps_of};
ghost use Rattle.uc_schedule.specs.Answer.{IsTrueError, AnswersSchedule, AnswersBad};
ghost use Rattle.uc_schedule.specs.inner.Reading.{HasRead};
ghost use Rattle.uc_schedule.specs.declared.read.ScheduleError.TheVariants.{NoMemory as WantOfMemory};

use crate::line::{args_of, count_of, entries_of};
use nv_base::{NoMemory, Words};
use nv_lines::Lines;
use std::alloc::{AllocError, AllocFailed, Global};
use thiserror::Error;

/// How many entries a schedule has at most.
const ENTRY_LIMIT: u64 = 100_000_000;

/// What a schedule says: the arguments of all contexts but the first, and whose turns come how often.
#[derive(Drop)]
pub struct Schedule {
    pub args: Vec<Words>,
    pub entries: Vec<(u8, u64)>,
}

/// Why bytes are refused as a schedule.
#[derive(Clone, Copy, Debug, PartialEq, Eq, Error)]
pub enum ScheduleError {
    #[error("no memory")]
    NoMemory,
    /// The number, from 1, of the first line that isn't of the format.
    #[error("line {0} is not of the format")]
    Bad(u32),
}

/// Reads line 1.
fn read_count(lines: &mut Lines) -> Result<u8, ScheduleError>
    ensures ok { IfOk result (λ k. (params : ℕ) → HasRead params k 1 lines.old lines.new [] []) }
    ensures contexts { IfOk result (λ k. (1 ≤ k) × (k ≤ 4)) }
    ensures shorter { IfOk result (λ _. length lines.new ≤ length lines.old) }
    ensures err { IfErr result (λ e. (params : ℕ) → IsTrueError params lines.old e) }
{
    let Some(line) = lines.next_line() else {
        return Err(ScheduleError::Bad(1));
    };
    let Some(count) = count_of(line) else {
        return Err(ScheduleError::Bad(1));
    };
    Ok(count)
}

/// Reads the lines of arguments, one for each context but the first.
fn read_args(
    alloc: Global,
    lines: &mut Lines,
    params: u8,
    count: u8,
) -> Result<Vec<Words>, ScheduleError>
    requires params { params ≤ 8 }
    requires contexts { 1 ≤ count }
    ensures ok { IfOk result (λ args. (bytes : List ℕ) → HasRead params count 1 bytes lines.old [] [] → HasRead params count count bytes lines.new args.items []) }
    ensures all { IfOk result (λ args. length args.items + 1 ≡ count) }
    ensures shorter { IfOk result (λ _. length lines.new ≤ length lines.old) }
    ensures err { IfErr result (λ e. (bytes : List ℕ) → HasRead params count 1 bytes lines.old [] [] → IsTrueError params bytes e) }
{
    let mut args = Vec::new(alloc);
    for number in 1..count {
        let Some(line) = lines.next_line() else {
            return Err(ScheduleError::Bad(u32::from(number) + 1));
        };
        let Some(words) = args_of(line, params) else {
            return Err(ScheduleError::Bad(u32::from(number) + 1));
        };
        args.push(words)?;
    }
    Ok(args)
}

/// Reads all further lines.
fn read_entries(
    alloc: Global,
    lines: &mut Lines,
    count: u8,
) -> Result<Vec<(u8, u64)>, ScheduleError>
    requires contexts { (1 ≤ count) × (count ≤ 4) }
    requires short { length lines.old + 8 < 2 ^ 32 }
    ensures ok { IfOk result (λ entries. (params : ℕ) (bytes : List ℕ) (args : List (List ℕ)) → HasRead params count count bytes lines.old args [] → length args + 1 ≡ count → Gives params bytes args entries.items) }
    ensures err { IfErr result (λ e. (params : ℕ) (bytes : List ℕ) (args : List (List ℕ)) → HasRead params count count bytes lines.old args [] → length args + 1 ≡ count → IsTrueError params bytes e) }
{
    let mut entries = Vec::new(alloc);
    let mut left = ENTRY_LIMIT;
    let mut number = u32::from(count);
    while let Some(line) = lines.next_line() {
        number += 1;
        let Some(entry) = entries_of(line, count, left) else {
            return Err(ScheduleError::Bad(number));
        };
        left -= entry.1;
        entries.push(entry)?;
    }
    if !lines.is_done() {
        return Err(ScheduleError::Bad(number + 1));
    }
    Ok(entries)
}

// Reads the lines in order.
fn read_text(alloc: Global, bytes: &[u8], params: u8) -> Result<Schedule, ScheduleError>
    requires params { params ≤ 8 }
    requires short { length bytes.now + 8 < 2 ^ 32 }
    ensures gives { IfOk result (λ s. Gives params bytes.now s.args.items s.entries.items) }
    ensures refuses { IfErr result (IsTrueError params bytes.now) }
{
    let mut lines = Lines::of(bytes);
    let count = read_count(&mut lines)?;
    let args = read_args(alloc, &mut lines, params, count)?;
    let entries = read_entries(alloc, &mut lines, count)?;
    Ok(Schedule { args, entries })
}

/// Reads the text of a schedule. `params` is the number of words that each context is started on.
///
/// Each answer but memory exhaustion, which may come for any text, comes exactly where its clauses say.
pub fn read_schedule(alloc: Global, bytes: &[u8], params: u8) -> Result<Schedule, ScheduleError>
    requires params { params ≤ 8 }
    requires short { length bytes.now + 8 < 2 ^ 32 }
    ensures gives { IfOk result (λ s. Gives params bytes.now s.args.items s.entries.items) }
    ensures refuses { IfErr result (IsTrueError params bytes.now) }
    ensures given { (args : List (List ℕ)) (entries : List (ℕ × ℕ)) → Gives params bytes.now args entries → AnswersSchedule result args entries }
    ensures bad { (n : ℕ) → IsBad params bytes.now n → AnswersBad result n }
    ensures four { IfOk result (λ s. length s.args.items < 4) }
    ensures words { IfOk result (λ s. All (HasWords params) s.args.items) }
    ensures named { IfOk result (λ s. All (IsNamed (length s.args.items + 1)) s.entries.items) }
    ensures steps { IfOk result (λ s. steps_of s.entries.items ≤ entry_limit) }
{
    read_text(alloc, bytes, params)
}

impl From<NoMemory> for ScheduleError {
    ghost from_gives = { λ _ e. e ≡ WantOfMemory };

    fn from(_error: NoMemory) -> ScheduleError {
        ScheduleError::NoMemory
    }
}

impl From<AllocError> for ScheduleError {
    ghost from_gives = { λ _ e. e ≡ WantOfMemory };

    fn from(_error: AllocError) -> ScheduleError {
        ScheduleError::NoMemory
    }
}

impl<T: Drop> From<AllocFailed<T>> for ScheduleError {
    ghost from_gives = { λ _ e. e ≡ WantOfMemory };

    fn from(_failed: AllocFailed<T>) -> ScheduleError {
        ScheduleError::NoMemory
    }
}
