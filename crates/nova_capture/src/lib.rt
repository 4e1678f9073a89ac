//! Captures of packets, read from and written to a stream: pcap in both byte orders and both time units, and pcapng.
#![tactic(auto)]

mod blocks;
mod fault;
mod item;
mod options;
mod order;
mod pcap;
mod reader;
mod records;
mod spell;
mod state;
mod writer;

pub use fault::{Broken, Fault, ReadError, WriteError};
pub use item::{ETHERNET, Header, Interface, Item, Packet, Precision, RAW_IP};
pub use order::Order;
pub use reader::Reader;
pub use records::{MOST_BLOCK, MOST_CAPTURED, head_len, item_of, record_len};
pub use spell::{can_spell, push_item};
pub use state::{Format, Position, State};
pub use writer::Writer;
