// The options of an interface description block.
ghost use Rattle.std.specs.Prelude.{◌≡◌, ◌≤◌, ◌+◌, length, Result, option_map, IfSome};
ghost use Rattle.nova_capture.specs.Reading.{Gives};
ghost use Rattle.nova_capture.specs.Blocks.{options_at, option_at, times_with, padded};

use crate::order::{u16_at, u64_at};
use crate::{Fault, Order};

/// What the options say of an interface's times.
#[derive(Clone, Copy)]
pub struct Times {
    pub resolution: u8,
    pub offset: u64,
}

impl Times {
    /// Microseconds since 1970, where no option says otherwise.
    pub const USUAL: Times = Times {
        resolution: 6,
        offset: 0,
    };
}

/// The next multiple of 4.
pub fn padded_len(len: usize) -> usize
    requires { len + 3 ≤ usize.MAX }
    ensures { result ≡ padded len }
{
    (len + 3) / 4 * 4
}

// The option in front: its code, its value, and what follows. None where one passes the end.
#[tactic(auto, unfolding(crate::specs::Blocks::option_at))]
fn option_of(order: Order, bytes: &[u8]) -> Option<(u16, &[u8], &[u8])>
    ensures option { option_map (λ o. (o.0, o.1.now, o.2.now)) result ≡ option_at order bytes.now }
    ensures shorter { IfSome result (λ o. length o.2.now + 4 ≤ length bytes.now) }
{
    if bytes.len() < 4 {
        return None;
    }
    let len = u16_at(order, bytes, 2) as usize;
    let whole = 4 + padded_len(len);
    if bytes.len() < whole {
        return None;
    }
    Some((u16_at(order, bytes, 0), &bytes[4..4 + len], &bytes[whole..]))
}

/// What the options say of times. The last option of a code counts, and one of another length than its own is passed over.
pub fn options_of(order: Order, bytes: &[u8]) -> Result<Times, Fault>
    ensures { result ≡ options_at order (length bytes.now) bytes.now Times.USUAL }
{
    let mut times = Times::USUAL;
    let mut rest = bytes;
    for _ in 0..bytes.len() {
        if rest.is_empty() {
            return Ok(times);
        }
        match option_of(order, rest) {
            None => return Err(Fault::Options),
            Some((0, _, _)) => return Ok(times),
            Some((code, value, more)) => {
                times = with_option(order, code, value, times);
                rest = more;
            }
        }
    }
    Ok(times)
}

// The times with what one option says of them.
fn with_option(order: Order, code: u16, value: &[u8], times: Times) -> Times
    ensures { result ≡ times_with order code value.now times }
{
    if code == 9 && value.len() == 1 {
        return Times {
            resolution: value[0],
            offset: times.offset,
        };
    }
    if code == 14 && value.len() == 8 {
        return Times {
            resolution: times.resolution,
            offset: u64_at(order, value, 0),
        };
    }
    times
}
