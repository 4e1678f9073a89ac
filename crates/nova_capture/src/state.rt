// What of a capture's beginning its further records depend on.
ghost use Rattle.std.specs.Prelude.{◌≡◌};
ghost use Rattle.nova_capture.specs.Record.{state_after};
ghost use Rattle.nova_capture.specs.Blocks.{simple_length};
ghost use Rattle.nova_capture.specs.Stream.{behind, packets_after};

use crate::{Item, Order, Precision};

/// What stands next in a capture: its first record, a record of pcap, or a block of pcapng.
#[derive(Clone, Copy)]
pub enum Format {
    Start,
    Pcap(Order, Precision),
    Blocks(Order),
}

/// What the records so far say for the next one. `interfaces` counts those of the section, and `snap` is the snap
/// length of the first of them, or 0.
#[derive(Clone, Copy)]
pub struct State {
    pub format: Format,
    pub interfaces: u32,
    pub snap: u32,
}

impl State {
    /// The state before the first record.
    pub const START: State = State {
        format: Format::Start,
        interfaces: 0,
        snap: 0,
    };

    /// The state behind an item.
    pub fn after(self, item: Item) -> State
        ensures { result ≡ state_after self item }
    {
        match item {
            Item::Header(header) => State {
                format: Format::Pcap(header.order, header.precision),
                interfaces: 1,
                snap: header.snap,
            },
            Item::Section(order) => State {
                format: Format::Blocks(order),
                interfaces: 0,
                snap: 0,
            },
            Item::Interface(interface) => State {
                format: self.format,
                interfaces: self.interfaces.saturating_add(1),
                snap: if self.interfaces == 0 {
                    interface.snap
                } else {
                    self.snap
                },
            },
            Item::Packet(_) | Item::Other(_) => self,
        }
    }

    /// How many bytes of a packet of this length a simple packet block holds.
    pub fn simple_captured(self, original: u32) -> u32
        ensures { result ≡ simple_length self original }
    {
        if self.snap == 0 {
            original
        } else {
            original.min(self.snap)
        }
    }
}

/// A place between two records. `packets` counts those that have come, and the next record begins at `offset`; both stay at
/// the end of their type.
#[derive(Clone, Copy)]
pub struct Position {
    pub state: State,
    pub packets: u64,
    pub offset: u64,
}

impl Position {
    /// Before the first record.
    pub const START: Position = Position {
        state: State::START,
        packets: 0,
        offset: 0,
    };

    /// The position behind a record of so many bytes that says this item.
    pub fn behind(self, item: Item, len: usize) -> Position
        ensures { result ≡ behind self item len }
    {
        Position {
            state: self.state.after(item),
            packets: packets_behind(self.packets, item),
            offset: self.offset.saturating_add(len as u64),
        }
    }
}

fn packets_behind(packets: u64, item: Item) -> u64
    ensures { result ≡ packets_after packets item }
{
    match item {
        Item::Packet(_) => packets.saturating_add(1),
        Item::Header(_) | Item::Section(_) | Item::Interface(_) | Item::Other(_) => packets,
    }
}
