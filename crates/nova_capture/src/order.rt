// Numbers in either byte order.
ghost use Rattle.std.specs.Prelude.{◌≡◌, ◌≤◌, ◌<◌, ◌+◌, ◌++◌, ◌^◌, length, drop, OnOk};
ghost use Rattle.nova_capture.specs.Number.{field, digits};

use byteorder::{BigEndian, ByteOrder, LittleEndian};
use std::alloc::AllocError;

/// The byte order of a capture or of a section of one.
#[derive(Clone, Copy)]
pub enum Order {
    Big,
    Little,
}

pub fn u16_at(order: Order, bytes: &[u8], at: usize) -> u16
    requires { at + 2 ≤ length bytes.now }
    ensures { result ≡ field order 2 at bytes.now }
{
    match order {
        Order::Big => BigEndian::read_u16(&bytes[at..]),
        Order::Little => LittleEndian::read_u16(&bytes[at..]),
    }
}

pub fn u32_at(order: Order, bytes: &[u8], at: usize) -> u32
    requires { at + 4 ≤ length bytes.now }
    ensures { result ≡ field order 4 at bytes.now }
{
    match order {
        Order::Big => BigEndian::read_u32(&bytes[at..]),
        Order::Little => LittleEndian::read_u32(&bytes[at..]),
    }
}

pub fn u64_at(order: Order, bytes: &[u8], at: usize) -> u64
    requires { at + 8 ≤ length bytes.now }
    ensures { result ≡ field order 8 at bytes.now }
{
    match order {
        Order::Big => BigEndian::read_u64(&bytes[at..]),
        Order::Little => LittleEndian::read_u64(&bytes[at..]),
    }
}

pub fn push_u16(out: &mut Vec<u8>, order: Order, n: u16) -> Result<(), AllocError>
    ensures { OnOk result (out.new.items ≡ out.old.items ++ digits order 2 n) }
{
    let mut bytes = [0u8; 2];
    match order {
        Order::Big => BigEndian::write_u16(&mut bytes, n),
        Order::Little => LittleEndian::write_u16(&mut bytes, n),
    }
    out.extend_from_slice(&bytes)
}

pub fn push_u32(out: &mut Vec<u8>, order: Order, n: u32) -> Result<(), AllocError>
    ensures { OnOk result (out.new.items ≡ out.old.items ++ digits order 4 n) }
{
    let mut bytes = [0u8; 4];
    match order {
        Order::Big => BigEndian::write_u32(&mut bytes, n),
        Order::Little => LittleEndian::write_u32(&mut bytes, n),
    }
    out.extend_from_slice(&bytes)
}

pub fn push_u64(out: &mut Vec<u8>, order: Order, n: u64) -> Result<(), AllocError>
    ensures { OnOk result (out.new.items ≡ out.old.items ++ digits order 8 n) }
{
    let mut bytes = [0u8; 8];
    match order {
        Order::Big => BigEndian::write_u64(&mut bytes, n),
        Order::Little => LittleEndian::write_u64(&mut bytes, n),
    }
    out.extend_from_slice(&bytes)
}
