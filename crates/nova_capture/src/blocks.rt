// The blocks of a pcapng capture.
ghost use Rattle.std.specs.Prelude.{◌≡◌, ◌≤◌, ◌+◌, length, Result, IfOk};
ghost use Rattle.nova_capture.specs.Reading.{Gives};
ghost use Rattle.nova_capture.specs.Blocks.{block_at, block_order_at, block_len_at, section_at, interface_at, enhanced_at, simple_at, packet_at};

use crate::options::options_of;
use crate::order::{u16_at, u32_at};
use crate::{Fault, Interface, Item, MOST_BLOCK, Order, Packet, State};

/// The kind of a section header block, the same in either order.
pub const SECTION: u32 = 0x0a0d_0d0a;

/// The kind of an interface description block.
pub const INTERFACE: u32 = 1;

/// The kind of a simple packet block.
pub const SIMPLE: u32 = 3;

/// The kind of an enhanced packet block.
pub const ENHANCED: u32 = 6;

// In the order of the section.
const ORDER_MAGIC: u32 = 0x1a2b_3c4d;

/// The order of a block: that of its section, or of the section that it begins.
#[tactic(auto, unfolding(crate::specs::Blocks::block_order_at))]
pub fn block_order(order: Order, block: &[u8]) -> Result<Order, Fault>
    requires { 12 ≤ length block.now }
    ensures { result ≡ block_order_at order block.now }
{
    if u32_at(order, block, 0) != SECTION {
        return Ok(order);
    }
    if u32_at(Order::Big, block, 8) == ORDER_MAGIC {
        return Ok(Order::Big);
    }
    if u32_at(Order::Little, block, 8) == ORDER_MAGIC {
        return Ok(Order::Little);
    }
    Err(Fault::ByteOrder)
}

/// How long a block is whose first 12 bytes these are.
#[tactic(auto, unfolding(crate::specs::Blocks::block_len_at))]
pub fn block_len(order: Order, head: &[u8]) -> Result<usize, Fault>
    requires { 12 ≤ length head.now }
    ensures len { result ≡ block_len_at order head.now }
    ensures long { IfOk result (λ n. 12 ≤ n) }
{
    let order = block_order(order, head)?;
    let len = u32_at(order, head, 4);
    if len < 12 || len > MOST_BLOCK || len % 4 != 0 {
        return Err(Fault::Length);
    }
    Ok(len as usize)
}

/// What a block says.
#[tactic(auto, unfolding(crate::specs::Blocks::block_at))]
pub fn block_of(order: Order, state: State, block: &[u8]) -> Result<(Item, &[u8]), Fault>
    ensures { Gives (λ x. (x.0, x.1.now)) result (block_at order state block.now) }
{
    if block.len() < 12 {
        return Err(Fault::Cut);
    }
    let order = block_order(order, block)?;
    let end = block.len() - 4;
    if u32_at(order, block, 4) != u32_at(order, block, end) {
        return Err(Fault::Trailer);
    }
    let body = &block[8..end];
    match u32_at(order, block, 0) {
        SECTION => section_of(order, body),
        INTERFACE => interface_of(order, state, body),
        SIMPLE => simple_of(order, state, body),
        ENHANCED => enhanced_of(order, state, body),
        kind => Ok((Item::Other(kind), body)),
    }
}

#[tactic(auto, unfolding(crate::specs::Blocks::section_at))]
fn section_of(order: Order, body: &[u8]) -> Result<(Item, &[u8]), Fault>
    ensures { Gives (λ x. (x.0, x.1.now)) result (section_at order body.now) }
{
    if body.len() < 16 {
        return Err(Fault::Short);
    }
    if u16_at(order, body, 4) != 1 {
        return Err(Fault::Version);
    }
    Ok((Item::Section(order), &body[..0]))
}

#[tactic(auto, unfolding(crate::specs::Blocks::interface_at))]
fn interface_of(order: Order, state: State, body: &[u8]) -> Result<(Item, &[u8]), Fault>
    ensures { Gives (λ x. (x.0, x.1.now)) result (interface_at order state body.now) }
{
    if body.len() < 8 {
        return Err(Fault::Short);
    }
    if state.interfaces == u32::MAX {
        return Err(Fault::NoInterface);
    }
    let times = options_of(order, &body[8..])?;
    let interface = Interface {
        link: u16_at(order, body, 0),
        snap: u32_at(order, body, 4),
        resolution: times.resolution,
        offset: times.offset,
    };
    Ok((Item::Interface(interface), &body[..0]))
}

#[tactic(auto, unfolding(crate::specs::Blocks::enhanced_at))]
fn enhanced_of(order: Order, state: State, body: &[u8]) -> Result<(Item, &[u8]), Fault>
    ensures { Gives (λ x. (x.0, x.1.now)) result (enhanced_at order state body.now) }
{
    if body.len() < 20 {
        return Err(Fault::Short);
    }
    let packet = Packet {
        interface: u32_at(order, body, 0),
        time: Some(u32_at(order, body, 4) as u64 * 0x1_0000_0000 + u32_at(order, body, 8) as u64),
        captured: u32_at(order, body, 12),
        original: u32_at(order, body, 16),
    };
    packet_of(state, packet, &body[20..])
}

#[tactic(auto, unfolding(crate::specs::Blocks::simple_at))]
fn simple_of(order: Order, state: State, body: &[u8]) -> Result<(Item, &[u8]), Fault>
    ensures { Gives (λ x. (x.0, x.1.now)) result (simple_at order state body.now) }
{
    if body.len() < 4 {
        return Err(Fault::Short);
    }
    let original = u32_at(order, body, 0);
    let packet = Packet {
        interface: 0,
        time: None,
        captured: state.simple_captured(original),
        original,
    };
    packet_of(state, packet, &body[4..])
}

// A packet whose bytes stand in front of these.
#[tactic(auto, unfolding(crate::specs::Blocks::packet_at))]
fn packet_of(state: State, packet: Packet, bytes: &[u8]) -> Result<(Item, &[u8]), Fault>
    ensures { Gives (λ x. (x.0, x.1.now)) result (packet_at state packet bytes.now) }
{
    if packet.interface >= state.interfaces {
        return Err(Fault::NoInterface);
    }
    if packet.captured > packet.original {
        return Err(Fault::Longer);
    }
    if packet.captured as usize > bytes.len() {
        return Err(Fault::Length);
    }
    Ok((Item::Packet(packet), &bytes[..packet.captured as usize]))
}
