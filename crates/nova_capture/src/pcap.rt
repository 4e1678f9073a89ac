// The header and the records of a pcap capture.
ghost use Rattle.std.specs.Prelude.{◌≡◌, ◌≤◌, ◌+◌, length, Result, option_map, IfOk};
ghost use Rattle.nova_capture.specs.Reading.{Gives};
ghost use Rattle.nova_capture.specs.Pcap.{header_at, units, magic_at, pcap_len_at, pcap_packet_at};

use crate::order::{u16_at, u32_at};
use crate::{Fault, Header, Item, MOST_CAPTURED, Order, Packet, Precision};

/// How many of a unit make a second.
pub fn units_in_second(precision: Precision) -> u64
    ensures { result ≡ units precision }
{
    match precision {
        Precision::Microseconds => 1_000_000,
        Precision::Nanoseconds => 1_000_000_000,
    }
}

/// What the first four bytes of a pcap capture say.
pub fn magic_of(bytes: &[u8]) -> Option<(Order, Precision)>
    requires { 4 ≤ length bytes.now }
    ensures { result ≡ magic_at bytes.now }
{
    match u32_at(Order::Big, bytes, 0) {
        0xa1b2_c3d4 => Some((Order::Big, Precision::Microseconds)),
        0xd4c3_b2a1 => Some((Order::Little, Precision::Microseconds)),
        0xa1b2_3c4d => Some((Order::Big, Precision::Nanoseconds)),
        0x4d3c_b2a1 => Some((Order::Little, Precision::Nanoseconds)),
        _ => None,
    }
}

/// The header, of 24 bytes.
#[tactic(auto, unfolding(crate::specs::Pcap::header_at))]
pub fn header_of(order: Order, precision: Precision, bytes: &[u8]) -> Result<Header, Fault>
    ensures { result ≡ header_at order precision bytes.now }
{
    if bytes.len() != 24 {
        return Err(Fault::Cut);
    }
    if u16_at(order, bytes, 4) != 2 || u16_at(order, bytes, 6) != 4 {
        return Err(Fault::Version);
    }
    Ok(Header {
        order,
        precision,
        link: (u32_at(order, bytes, 20) % 65536) as u16,
        snap: u32_at(order, bytes, 16),
    })
}

/// How long a record is whose first 16 bytes these are.
#[tactic(auto, unfolding(crate::specs::Pcap::pcap_len_at))]
pub fn pcap_len(order: Order, head: &[u8]) -> Result<usize, Fault>
    requires { 16 ≤ length head.now }
    ensures len { result ≡ pcap_len_at order head.now }
    ensures long { IfOk result (λ n. 16 ≤ n) }
{
    let captured = u32_at(order, head, 8);
    if captured > MOST_CAPTURED {
        return Err(Fault::Length);
    }
    if captured > u32_at(order, head, 12) {
        return Err(Fault::Longer);
    }
    Ok(16 + captured as usize)
}

/// The packet of a record.
#[tactic(auto, unfolding(crate::specs::Pcap::pcap_packet_at))]
pub fn pcap_packet(order: Order, precision: Precision, bytes: &[u8]) -> Result<(Item, &[u8]), Fault>
    ensures { Gives (λ x. (x.0, x.1.now)) result (pcap_packet_at order precision bytes.now) }
{
    if bytes.len() < 16 || bytes.len() != 16 + u32_at(order, bytes, 8) as usize {
        return Err(Fault::Cut);
    }
    let seconds = u32_at(order, bytes, 0) as u64;
    let packet = Packet {
        interface: 0,
        time: Some(seconds * units_in_second(precision) + u32_at(order, bytes, 4) as u64),
        captured: u32_at(order, bytes, 8),
        original: u32_at(order, bytes, 12),
    };
    Ok((Item::Packet(packet), &bytes[16..]))
}
