// The record that says an item.
ghost use Rattle.std.specs.Prelude.{◌≡◌, ◌≤◌, ◌<◌, ◌+◌, ◌*◌, ◌^◌, ◌++◌, ◌↔◌, [], IsTrue, MatchOption, OnOk, Err, length};
ghost use Rattle.nova_capture.specs.Blocks.{padded, most_block};
ghost use Rattle.nova_capture.specs.Pcap.{units};
ghost use Rattle.nova_capture.specs.Spelling.{Fits, FitsIn, FitsOther, seconds_in, fraction_in, FitsPcap, FitsBlock, HasLength, IsOther, spelling, spelling_in, pcap_header, pcap_record, section_block, interface_block, packet_block, enhanced_block, simple_block, other_block, padding};

use crate::blocks::{ENHANCED, INTERFACE, SECTION, SIMPLE};
use crate::options::padded_len;
use crate::order::{push_u16, push_u32, push_u64};
use crate::pcap::units_in_second;
use crate::{
    Format, Header, Interface, Item, MOST_BLOCK, MOST_CAPTURED, Order, Packet, Precision, State,
    WriteError,
};
use std::alloc::AllocError;

/// Whether a record says this item with these bytes, where the state is this one.
pub fn can_spell(state: State, item: Item, bytes: &[u8]) -> bool
    ensures { IsTrue result ↔ Fits state item bytes.now }
{
    match state.format {
        Format::Start => match item {
            Item::Header(_) | Item::Section(_) => bytes.is_empty(),
            Item::Interface(_) | Item::Packet(_) | Item::Other(_) => false,
        },
        Format::Pcap(_, precision) => match item {
            Item::Packet(packet) => fits_pcap(precision, packet, bytes),
            Item::Header(_) | Item::Section(_) | Item::Interface(_) | Item::Other(_) => false,
        },
        Format::Blocks(order) => fits_blocks(order, state, item, bytes),
    }
}

// The same within a section of pcapng.
fn fits_blocks(order: Order, state: State, item: Item, bytes: &[u8]) -> bool
    ensures { IsTrue result ↔ FitsIn (Format.Blocks order) state item bytes.now }
{
    match item {
        Item::Header(_) => false,
        Item::Section(_) => bytes.is_empty(),
        Item::Interface(_) => bytes.is_empty() && state.interfaces < u32::MAX,
        Item::Packet(packet) => fits_block(state, packet, bytes),
        Item::Other(kind) => fits_other(kind, bytes),
    }
}

fn fits_other(kind: u32, bytes: &[u8]) -> bool
    ensures { IsTrue result ↔ FitsOther kind bytes.now }
{
    is_other(kind) && bytes.len() <= MOST_BLOCK as usize - 12 && bytes.len() % 4 == 0
}

fn is_other(kind: u32) -> bool
    ensures { IsTrue result ↔ IsOther kind }
{
    kind != SECTION && kind != INTERFACE && kind != SIMPLE && kind != ENHANCED
}

fn has_length(packet: Packet, bytes: &[u8]) -> bool
    ensures { IsTrue result ↔ HasLength packet bytes.now }
{
    bytes.len() == packet.captured as usize && packet.captured <= packet.original
}

fn fits_pcap(precision: Precision, packet: Packet, bytes: &[u8]) -> bool
    ensures { IsTrue result ↔ FitsPcap precision packet bytes.now }
{
    let in_range = match packet.time {
        None => false,
        Some(time) => fraction_of(precision, time) <= u32::MAX as u64,
    };
    packet.interface == 0
        && in_range
        && packet.captured <= MOST_CAPTURED
        && has_length(packet, bytes)
}

// The seconds of a time, as far as 32 bits go.
fn seconds_of(precision: Precision, time: u64) -> u64
    ensures seconds { result ≡ seconds_in precision time }
    ensures within { result * units precision ≤ time }
    ensures fits { result < 2 ^ 32 }
{
    (time / units_in_second(precision)).min(u32::MAX as u64)
}

// What the seconds leave of a time.
fn fraction_of(precision: Precision, time: u64) -> u64
    ensures { result ≡ fraction_in precision time }
{
    time - seconds_of(precision, time) * units_in_second(precision)
}

fn fits_block(state: State, packet: Packet, bytes: &[u8]) -> bool
    ensures { IsTrue result ↔ FitsBlock state packet bytes.now }
{
    let in_kind = match packet.time {
        None => {
            packet.interface == 0
                && packet.captured == state.simple_captured(packet.original)
                && packet.captured <= MOST_BLOCK - 16
        }
        Some(_) => packet.captured <= MOST_BLOCK - 32,
    };
    packet.interface < state.interfaces && in_kind && has_length(packet, bytes)
}

/// Appends the record that says this item. `Unfit` exactly where none does, and then nothing is appended.
pub fn push_item(
    out: &mut Vec<u8>,
    state: State,
    item: Item,
    bytes: &[u8],
) -> Result<(), WriteError>
    ensures ok { OnOk result (out.new.items ≡ out.old.items ++ spelling state item bytes.now) }
    ensures fits { OnOk result (Fits state item bytes.now) }
    ensures unfit { result ≡ Err WriteError.Unfit → (Fits state item bytes.now → ⊥) × (out.new.items ≡ out.old.items) }
{
    if !can_spell(state, item, bytes) {
        return Err(WriteError::Unfit);
    }
    match push_fitting(out, state, item, bytes) {
        Ok(()) => Ok(()),
        Err(_) => Err(WriteError::NoMemory),
    }
}

fn push_fitting(out: &mut Vec<u8>, state: State, item: Item, bytes: &[u8]) -> Result<(), AllocError>
    requires { Fits state item bytes.now }
    ensures { OnOk result (out.new.items ≡ out.old.items ++ spelling state item bytes.now) }
{
    match state.format {
        Format::Start => push_first(out, item),
        Format::Pcap(order, precision) => match item {
            Item::Packet(packet) => push_record(out, order, precision, packet, bytes),
            Item::Header(_) | Item::Section(_) | Item::Interface(_) | Item::Other(_) => Ok(()),
        },
        Format::Blocks(order) => push_block(out, order, state, item, bytes),
    }
}

fn push_first(out: &mut Vec<u8>, item: Item) -> Result<(), AllocError>
    ensures { OnOk result (out.new.items ≡ out.old.items ++ spelling_in Format.Start item []) }
{
    match item {
        Item::Header(header) => push_header(out, header),
        Item::Section(order) => push_section(out, order),
        Item::Interface(_) | Item::Packet(_) | Item::Other(_) => Ok(()),
    }
}

fn push_block(
    out: &mut Vec<u8>,
    order: Order,
    state: State,
    item: Item,
    bytes: &[u8],
) -> Result<(), AllocError>
    requires { FitsIn (Format.Blocks order) state item bytes.now }
    ensures { OnOk result (out.new.items ≡ out.old.items ++ spelling_in (Format.Blocks order) item bytes.now) }
{
    let _state = state;
    match item {
        Item::Header(_) => Ok(()),
        Item::Section(begun) => push_section(out, begun),
        Item::Interface(interface) => push_interface(out, order, interface),
        Item::Packet(packet) => push_packet(out, order, packet, bytes),
        Item::Other(kind) => push_other(out, order, kind, bytes),
    }
}

fn push_header(out: &mut Vec<u8>, header: Header) -> Result<(), AllocError>
    ensures { OnOk result (out.new.items ≡ out.old.items ++ pcap_header header) }
{
    let order = header.order;
    let magic = match header.precision {
        Precision::Microseconds => 0xa1b2_c3d4,
        Precision::Nanoseconds => 0xa1b2_3c4d,
    };
    push_u32(out, order, magic)?;
    push_u16(out, order, 2)?;
    push_u16(out, order, 4)?;
    push_u64(out, order, 0)?;
    push_u32(out, order, header.snap)?;
    push_u32(out, order, header.link as u32)
}

fn push_record(
    out: &mut Vec<u8>,
    order: Order,
    precision: Precision,
    packet: Packet,
    bytes: &[u8],
) -> Result<(), AllocError>
    requires { FitsPcap precision packet bytes.now }
    ensures { OnOk result (out.new.items ≡ out.old.items ++ pcap_record order precision packet bytes.now) }
{
    let time = packet.time.unwrap_or(0);
    push_u32(out, order, seconds_of(precision, time) as u32)?;
    push_u32(out, order, fraction_of(precision, time) as u32)?;
    push_u32(out, order, packet.captured)?;
    push_u32(out, order, packet.original)?;
    out.extend_from_slice(bytes)
}

fn push_section(out: &mut Vec<u8>, order: Order) -> Result<(), AllocError>
    ensures { OnOk result (out.new.items ≡ out.old.items ++ section_block order) }
{
    push_u32(out, order, SECTION)?;
    push_u32(out, order, 28)?;
    push_u32(out, order, 0x1a2b_3c4d)?;
    push_u16(out, order, 1)?;
    push_u16(out, order, 0)?;
    push_u64(out, order, u64::MAX)?;
    push_u32(out, order, 28)
}

fn push_interface(out: &mut Vec<u8>, order: Order, described: Interface) -> Result<(), AllocError>
    ensures { OnOk result (out.new.items ≡ out.old.items ++ interface_block order described) }
{
    push_u32(out, order, INTERFACE)?;
    push_u32(out, order, 44)?;
    push_u16(out, order, described.link)?;
    push_u16(out, order, 0)?;
    push_u32(out, order, described.snap)?;
    push_u16(out, order, 9)?;
    push_u16(out, order, 1)?;
    out.extend_from_slice(&[described.resolution, 0, 0, 0])?;
    push_u16(out, order, 14)?;
    push_u16(out, order, 8)?;
    push_u64(out, order, described.offset)?;
    push_u32(out, order, 0)?;
    push_u32(out, order, 44)
}

fn push_packet(
    out: &mut Vec<u8>,
    order: Order,
    packet: Packet,
    bytes: &[u8],
) -> Result<(), AllocError>
    requires { MatchOption packet.time (length bytes.now + 16 ≤ most_block) (λ _. length bytes.now + 32 ≤ most_block) }
    ensures { OnOk result (out.new.items ≡ out.old.items ++ packet_block order packet bytes.now) }
{
    match packet.time {
        None => push_simple(out, order, packet, bytes),
        Some(time) => push_enhanced(out, order, packet, time, bytes),
    }
}

fn push_enhanced(
    out: &mut Vec<u8>,
    order: Order,
    packet: Packet,
    time: u64,
    bytes: &[u8],
) -> Result<(), AllocError>
    requires { length bytes.now + 32 ≤ most_block }
    ensures { OnOk result (out.new.items ≡ out.old.items ++ enhanced_block order packet time bytes.now) }
{
    let total = 32 + padded_len(bytes.len()) as u32;
    push_u32(out, order, ENHANCED)?;
    push_u32(out, order, total)?;
    push_u32(out, order, packet.interface)?;
    push_u32(out, order, (time / 0x1_0000_0000) as u32)?;
    push_u32(out, order, (time % 0x1_0000_0000) as u32)?;
    push_u32(out, order, packet.captured)?;
    push_u32(out, order, packet.original)?;
    push_padded(out, bytes)?;
    push_u32(out, order, total)
}

fn push_simple(
    out: &mut Vec<u8>,
    order: Order,
    packet: Packet,
    bytes: &[u8],
) -> Result<(), AllocError>
    requires { length bytes.now + 16 ≤ most_block }
    ensures { OnOk result (out.new.items ≡ out.old.items ++ simple_block order packet bytes.now) }
{
    let total = 16 + padded_len(bytes.len()) as u32;
    push_u32(out, order, SIMPLE)?;
    push_u32(out, order, total)?;
    push_u32(out, order, packet.original)?;
    push_padded(out, bytes)?;
    push_u32(out, order, total)
}

fn push_other(out: &mut Vec<u8>, order: Order, kind: u32, body: &[u8]) -> Result<(), AllocError>
    requires { length body.now + 12 ≤ most_block }
    ensures { OnOk result (out.new.items ≡ out.old.items ++ other_block order kind body.now) }
{
    let total = 12 + body.len() as u32;
    push_u32(out, order, kind)?;
    push_u32(out, order, total)?;
    out.extend_from_slice(body)?;
    push_u32(out, order, total)
}

// The bytes, and zeros up to the next multiple of 4.
fn push_padded(out: &mut Vec<u8>, bytes: &[u8]) -> Result<(), AllocError>
    requires { length bytes.now + 16 ≤ most_block }
    ensures { OnOk result (out.new.items ≡ out.old.items ++ (bytes.now ++ padding (length bytes.now))) }
{
    out.extend_from_slice(bytes)?;
    let zeros = [0u8; 3];
    out.extend_from_slice(&zeros[..padded_len(bytes.len()) - bytes.len()])
}
