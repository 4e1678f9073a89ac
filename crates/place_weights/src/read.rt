// The text of weights, read.

ghost use Rattle.std.specs.Prelude.{◌≡◌, ◌+◌, ◌<◌, ◌≤◌, ◌^◌, ◌++◌, ◌∷◌, [], ℕ, List, All, map, length, codes, decimal, IfSome, IfNone, IfOk, IfErr};
ghost use Rattle.nv_lines.specs.Line.{Lacks, text_of, parted};
ghost use Rattle.place_weights.specs.Answer.{IsTrueError, AnswersWeights, AnswersBad};
ghost use Rattle.place_weights.specs.WeightsText.{AreCounts, Gives, IsBad, clamped, count_limit, count_line, weights_line, weights_text};
ghost use Rattle.place_weights.specs.inner.Fault.{IsCounted, IsFirstLineFault, IsCountFault};
ghost use Rattle.place_weights.specs.declared.read.WeightsError.TheVariants.{NoMemory as WantOfMemory};

use crate::Weights;
use nv_lines::{Lines, Parts};
use std::alloc::{AllocError, AllocFailed, Global};

/// How many lines of counts a text has at most.
pub const COUNT_LIMIT: u64 = 1_048_576;

/// The greatest count.
const COUNT_MOST: u64 = 4_294_967_295;

/// Why bytes are refused as weights.
#[derive(Clone, Copy, Debug, PartialEq, Eq)]
pub enum WeightsError {
    NoMemory,
    /// The number, from 1, of the first line that isn't of the format.
    Bad(u32),
}

// The number of at most `most` after this name, where the line is these two parts.
fn counted_of(line: &[u8], name: &[u8], most: u64) -> Option<u64>
    requires { Lacks 32 name.now }
    ensures some { IfSome result (λ n. (n ≤ most) × (line.now ≡ parted (name.now ∷ decimal n ∷ []))) }
    ensures none { IfNone result (¬ IsCounted name.now most line.now) }
{
    let mut parts = Parts::of(line);
    if !parts.next_is(name) {
        return None;
    }
    let n = parts.next_decimal(most)?;
    if !parts.is_done() {
        return None;
    }
    Some(n)
}

// Reads the first line: how many lines follow.
fn read_first(lines: &mut Lines) -> Result<u64, WeightsError>
    ensures few { IfOk result (λ n. n ≤ count_limit) }
    ensures line { IfOk result (λ n. lines.old ≡ weights_line n ++ 10 ∷ lines.new) }
    ensures err { IfErr result (IsFirstLineFault lines.old) }
{
    let Some(line) = lines.next_line() else {
        return Err(WeightsError::Bad(1));
    };
    match counted_of(line, b"weights", COUNT_LIMIT) {
        Some(n) => Ok(n),
        None => Err(WeightsError::Bad(1)),
    }
}

// Reads the lines of so many counts.
fn read_counts(alloc: Global, lines: &mut Lines, n: u64) -> Result<Vec<u32>, WeightsError>
    requires { n ≤ count_limit }
    ensures count { IfOk result (λ counts. length counts.items ≡ n) }
    ensures words { IfOk result (λ counts. All (λ c. c < 2 ^ 32) counts.items) }
    ensures lines { IfOk result (λ counts. lines.old ≡ text_of (map count_line counts.items) ++ lines.new) }
    ensures err { IfErr result (IsCountFault n lines.old) }
{
    let mut counts = Vec::new(alloc);
    for i in 0..n {
        let number = i as u32 + 2;
        let Some(line) = lines.next_line() else {
            return Err(WeightsError::Bad(number));
        };
        let Some(count) = counted_of(line, b"l", COUNT_MOST) else {
            return Err(WeightsError::Bad(number));
        };
        counts.push(count as u32)?;
    }
    Ok(counts)
}

// The counts of a text.
fn read_text(alloc: Global, bytes: &[u8]) -> Result<Vec<u32>, WeightsError>
    ensures gives { IfOk result (λ counts. Gives bytes.now counts.items) }
    ensures refuses { IfErr result (IsTrueError bytes.now) }
{
    let mut lines = Lines::of(bytes);
    let n = read_first(&mut lines)?;
    let counts = read_counts(alloc, &mut lines, n)?;
    if !lines.is_done() {
        return Err(WeightsError::Bad(n as u32 + 2));
    }
    Ok(counts)
}

// The weight of a label that was entered so often.
fn weight(count: u32) -> u16
    ensures { result ≡ clamped count }
{
    count.max(1).min(1_023) as u16
}

// The weights of labels that were entered so often.
fn weights(alloc: Global, counts: &[u32]) -> Result<Vec<u16>, AllocError>
    ensures { IfOk result (λ v. v.items ≡ map clamped counts.now) }
{
    let mut list = Vec::with_capacity(alloc, counts.len())?;
    for count in counts {
        list.push(weight(*count))?;
    }
    Ok(list)
}

// The weights of a text.
fn weights_of(alloc: Global, bytes: &[u8]) -> Result<Weights, WeightsError>
    ensures gives { IfOk result (λ w. (counts : List ℕ) × Gives bytes.now counts × (w ≡ map clamped counts)) }
    ensures refuses { IfErr result (IsTrueError bytes.now) }
{
    let counts = read_text(alloc, bytes)?;
    let list = weights(alloc, &counts)?;
    Ok(Weights::new(list))
}

/// Reads the weights of a text: the weight of a label is its count, raised to 1 or lowered to 1,023.
///
/// Each answer but memory exhaustion, which may come for any text, comes exactly where its clauses say.
pub fn read_weights(alloc: Global, bytes: &[u8]) -> Result<Weights, WeightsError>
    ensures gives { IfOk result (λ w. (counts : List ℕ) × Gives bytes.now counts × (w ≡ map clamped counts)) }
    ensures refuses { IfErr result (IsTrueError bytes.now) }
    ensures given { (counts : List ℕ) → Gives bytes.now counts → AnswersWeights result counts }
    ensures bad { (n : ℕ) → IsBad bytes.now n → AnswersBad result n }
{
    weights_of(alloc, bytes)
}

impl From<AllocError> for WeightsError {
    ghost from_gives = { λ _ e. e ≡ WantOfMemory };

    fn from(_error: AllocError) -> WeightsError {
        WeightsError::NoMemory
    }
}

impl<T: Drop> From<AllocFailed<T>> for WeightsError {
    ghost from_gives = { λ _ e. e ≡ WantOfMemory };

    fn from(_failed: AllocFailed<T>) -> WeightsError {
        WeightsError::NoMemory
    }
}
