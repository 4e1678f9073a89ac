//! The uses of values.

use nv_base::Mem;

/// What a use is: an operand, an address, word i of a write, the word for parameter i of label l, or
/// word i of an end.
#[derive(Clone, Copy)]
pub enum Role {
    Operand,
    Address,
    Written(Mem, u32),
    Argument(u32, u32),
    Ending(u32),
}

/// A use of a value.
#[derive(Clone, Copy)]
pub struct Use {
    pub point: u32,
    pub operand: u32,
    pub value: u32,
    pub role: Role,
}
