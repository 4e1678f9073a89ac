// Bytes as words of SDRAM, and back.
ghost use Rattle.std.specs.Prelude.{◌≡◌, ◌++◌, ◌*◌, ◌%◌, ◌<◌, ◌≤◌, OnOk, IfOk, MatchBool, length, take};
ghost use Rattle.nova_replay.specs.Frames.{bytes_of, filled, quadwords};
ghost use Rattle.nova_memory.specs.Readable.{words_of};

use nova_memory::first_word;
use std::alloc::AllocError;

/// Sets `words` to the words of bytes, the first byte of a word the highest, filled up with zeros to a whole quadword.
pub fn set_quadwords(words: &mut Vec<u32>, bytes: &[u8]) -> Result<(), AllocError>
    ensures words { OnOk result (words.new.items ≡ quadwords bytes.now) }
    ensures even { OnOk result (length words.new.items % 2 ≡ 0) }
{
    words.clear();
    push_words_of(words, bytes)?;
    fill_quadword(words)
}

fn push_words_of(words: &mut Vec<u32>, bytes: &[u8]) -> Result<(), AllocError>
    ensures { OnOk result (words.new.items ≡ words.old.items ++ words_of bytes.now) }
{
    let mut rest = bytes;
    while !rest.is_empty() {
        let (word, after) = first_word(rest);
        words.push(word)?;
        rest = after;
    }
    Ok(())
}

fn fill_quadword(words: &mut Vec<u32>) -> Result<(), AllocError>
    ensures words { OnOk result (words.new.items ≡ filled words.old.items) }
    ensures even { OnOk result (length words.new.items % 2 ≡ 0) }
{
    if words.len() % 2 == 0 {
        return Ok(());
    }
    words.push(0)?;
    Ok(())
}

/// Appends so many bytes of these words. False where they are fewer, and then nothing is appended.
#[tactic(auto, using(crate::proofs::TakenBytes::take_bytes, crate::proofs::TakenBytes::take_whole))]
pub fn push_bytes(words: &[u32], count: usize, out: &mut Vec<u8>) -> Result<bool, AllocError>
    ensures { IfOk result (λ done. MatchBool done
        ((count ≤ 4 * length words.now) × (out.new.items ≡ out.old.items ++ take count (bytes_of words.now)))
        ((4 * length words.now < count) × (out.new.items ≡ out.old.items))) }
{
    let whole = count / 4;
    let left = count % 4;
    if whole > words.len() {
        return Ok(false);
    }
    if left == 0 {
        push_bytes_of(&words[..whole], out)?;
        return Ok(true);
    }
    if whole == words.len() {
        return Ok(false);
    }
    push_bytes_of(&words[..whole], out)?;
    let last = words[whole].to_be_bytes();
    out.extend_from_slice(&last[..left])?;
    Ok(true)
}

// Appends all bytes of these words.
fn push_bytes_of(words: &[u32], out: &mut Vec<u8>) -> Result<(), AllocError>
    ensures { OnOk result (out.new.items ≡ out.old.items ++ bytes_of words.now) }
{
    let mut rest = words;
    while let [word, after @ ..] = rest {
        out.extend_from_slice(&word.to_be_bytes())?;
        rest = after;
    }
    Ok(())
}
