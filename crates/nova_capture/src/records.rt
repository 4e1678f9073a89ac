// One record of a capture, whatever the format.
ghost use Rattle.std.specs.Prelude.{◌≡◌, ◌≤◌, length, IfOk};
ghost use Rattle.nova_capture.specs.Reading.{Gives};
ghost use Rattle.nova_capture.specs.Record.{head_of, record_len_at, item_at, first_at};

use crate::blocks::{SECTION, block_len, block_of};
use crate::order::u32_at;
use crate::pcap::{header_of, magic_of, pcap_len, pcap_packet};
use crate::{Fault, Format, Item, Order, State};

/// The most bytes of a packet in a pcap capture.
pub const MOST_CAPTURED: u32 = 262_144;

/// The most bytes of a block.
pub const MOST_BLOCK: u32 = 16_777_216;

/// How many bytes tell how long the next record is.
pub fn head_len(state: State) -> usize
    ensures { result ≡ head_of state }
{
    match state.format {
        Format::Pcap(_, _) => 16,
        Format::Start | Format::Blocks(_) => 12,
    }
}

/// How long the record is that begins so.
pub fn record_len(state: State, head: &[u8]) -> Result<usize, Fault>
    requires { head_of state ≤ length head.now }
    ensures len { result ≡ record_len_at state head.now }
    ensures long { IfOk result (λ n. head_of state ≤ n) }
{
    match state.format {
        Format::Pcap(order, _) => pcap_len(order, head),
        Format::Blocks(order) => block_len(order, head),
        Format::Start => {
            if magic_of(head).is_some() {
                return Ok(24);
            }
            if u32_at(Order::Big, head, 0) != SECTION {
                return Err(Fault::NotACapture);
            }
            block_len(Order::Big, head)
        }
    }
}

/// What a whole record says, with the bytes of its packet. A record of another length than it tells is `Cut`.
pub fn item_of(state: State, bytes: &[u8]) -> Result<(Item, &[u8]), Fault>
    ensures { Gives (λ x. (x.0, x.1.now)) result (item_at state bytes.now) }
{
    match state.format {
        Format::Pcap(order, precision) => pcap_packet(order, precision, bytes),
        Format::Blocks(order) => block_of(order, state, bytes),
        Format::Start => first_of(state, bytes),
    }
}

fn first_of(state: State, bytes: &[u8]) -> Result<(Item, &[u8]), Fault>
    ensures { Gives (λ x. (x.0, x.1.now)) result (first_at state bytes.now) }
{
    if bytes.len() < 12 {
        return Err(Fault::Cut);
    }
    match magic_of(bytes) {
        None => block_of(Order::Big, state, bytes),
        Some((order, precision)) => {
            let header = header_of(order, precision, bytes)?;
            Ok((Item::Header(header), &bytes[..0]))
        }
    }
}
