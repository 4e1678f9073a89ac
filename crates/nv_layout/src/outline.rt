// Outlines and fields.

use nv_ast::Name;

/// A layout with the names of other layouts written out: a field of so many bits, bits that are left
/// out, a record's fields in order, alternatives that begin at the same bit, or outlines one after
/// another.
#[derive(Drop)]
pub enum Outline {
    Bits(u8),
    Gap(u32),
    Parts(Vec<(Name, Outline)>),
    Overlay(Vec<(Name, Outline)>),
    Joined(Vec<Outline>),
}

/// A field of 1 to 32 bits: its first bit, counted from the most significant one of word 0, and its
/// number of bits.
#[derive(Clone, Copy)]
pub struct Field {
    pub first: u32,
    pub bits: u8,
}
