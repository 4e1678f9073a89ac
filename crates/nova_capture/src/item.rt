// What a capture holds.
use crate::Order;

/// The link type of Ethernet frames.
pub const ETHERNET: u16 = 1;

/// The link type of IPv4 and IPv6 packets with no link header.
pub const RAW_IP: u16 = 101;

/// The unit of a pcap capture's times.
#[derive(Clone, Copy)]
pub enum Precision {
    Microseconds,
    Nanoseconds,
}

/// The header of a pcap capture, which describes its one interface.
#[derive(Clone, Copy)]
pub struct Header {
    pub order: Order,
    pub precision: Precision,
    pub link: u16,
    pub snap: u32,
}

/// An interface of a pcapng section. `resolution` is the byte of the option `if_tsresol`: a time counts units of
/// 10^-resolution seconds, or of 2^-(resolution - 128) seconds from 128 on. `offset` is that of `if_tsoffset`: seconds
/// to add, in two's complement.
#[derive(Clone, Copy)]
pub struct Interface {
    pub link: u16,
    pub snap: u32,
    pub resolution: u8,
    pub offset: u64,
}

/// A packet, without its bytes. `interface` counts those of its section from 0. `time` is in units of the interface; a
/// simple packet block has none. `original` is the length that the packet had on the wire.
#[derive(Clone, Copy)]
pub struct Packet {
    pub interface: u32,
    pub time: Option<u64>,
    pub captured: u32,
    pub original: u32,
}

/// What one record of a capture says: a record of pcap, or a block of pcapng. Beside it stand bytes: those of a packet,
/// or the body of another block.
#[derive(Clone, Copy)]
pub enum Item {
    Header(Header),
    Section(Order),
    Interface(Interface),
    Packet(Packet),
    Other(u32),
}
