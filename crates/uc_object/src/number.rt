// Numbers of four bytes, the least first.
ghost use Rattle.std.specs.Prelude.{◌≡◌, ◌+◌, ◌*◌, ◌<◌, ◌≤◌, ◌^◌, length, take, slice_index, IfOk, IfErr};
ghost use Rattle.uc_object.specs.Object.{IsNumber};
ghost use Rattle.uc_object.specs.inner.Parts.{Spells, IsFaultOf};

// The number below a bound whose bytes these begin with, or the first place that no such number has.
pub fn number_below(bound: u64, bytes: &[u8]) -> Result<u32, usize>
    requires some { 1 ≤ bound }
    requires few { bound ≤ 2 ^ 32 }
    ensures length { IfOk result (λ n. 4 ≤ length bytes.now) }
    ensures number { IfOk result (λ n. IsNumber bound n (take 4 bytes.now)) }
    ensures fault { IfErr result (IsFaultOf (Spells (IsNumber bound)) bytes.now) }
    ensures within { IfErr result (λ at. at ≤ length bytes.now) }
{
    let low = with_byte(0, 1, bound, bytes, 0)?;
    let second = with_byte(low, 256, bound, bytes, 1)?;
    let third = with_byte(second, 65_536, bound, bytes, 2)?;
    let whole = with_byte(third, 16_777_216, bound, bytes, 3)?;
    Ok(whole as u32)
}

// The number with one byte more, which counts so much, or the place of this byte.
fn with_byte(number: u64, weight: u64, bound: u64, bytes: &[u8], at: usize) -> Result<u64, usize>
    requires number { number < 2 ^ 32 }
    requires weight { weight ≤ 2 ^ 24 }
    ensures there { IfOk result (λ n. at < length bytes.now) }
    ensures byte { IfOk result (λ n. slice_index bytes.now at < 256) }
    ensures sum { IfOk result (λ n. n ≡ number + weight * slice_index bytes.now at) }
    ensures below { IfOk result (λ n. n < bound) }
    ensures place { IfErr result (λ place. place ≡ at) }
    ensures over { IfErr result (λ place. at < length bytes.now → bound ≤ number + weight * slice_index bytes.now at) }
{
    match bytes.get(at) {
        None => Err(at),
        Some(byte) => {
            let more = number + weight * u64::from(*byte);
            if more < bound { Ok(more) } else { Err(at) }
        }
    }
}
