// Counts, printed.

ghost use Rattle.std.specs.Prelude.{◌≡◌, ◌<◌, ◌≤◌, ◌^◌, ◌++◌, All, map, take, length, OnOk, IfOk};
ghost use Rattle.nv_lines.specs.Line.{text_of};
ghost use Rattle.place_weights.specs.WeightsText.{count_line, weights_text, count_limit};

use crate::read::COUNT_LIMIT;
use nv_base::NoMemory;
use nv_lines::push_counted;
use std::alloc::{AllocError, Global};

// Writes the lines of these counts.
fn push_counts(out: &mut Vec<u8>, counts: &[u64]) -> Result<(), AllocError>
    ensures { OnOk result (out.new.items ≡ out.old.items ++ text_of (map count_line counts.now)) }
{
    for count in counts {
        push_counted(out, b"l ", *count)?;
    }
    Ok(())
}

// The first counts, as many as a text has at most.
fn first_counts(counts: &[u64]) -> &[u64]
    ensures first { result.now ≡ take count_limit counts.now }
    ensures few { length result.now ≤ count_limit }
{
    let n = counts.len().min(COUNT_LIMIT as usize);
    &counts[..n]
}

/// The text of the first 1,048,576 counts at most.
pub fn print_counts(alloc: Global, counts: &[u64]) -> Result<Vec<u8>, NoMemory>
    requires { All (λ c. c < 2 ^ 32) counts.now }
    ensures { IfOk result (λ text. text.items ≡ weights_text (take count_limit counts.now)) }
{
    let first = first_counts(counts);
    let mut out = Vec::new(alloc);
    push_counted(&mut out, b"weights ", first.len() as u64)?;
    push_counts(&mut out, first)?;
    Ok(out)
}
