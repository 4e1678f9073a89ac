//! The columns by name.

/// Where a word is or is brought: a register of bank A or B, a slot (M), the read register into which a
/// read value came (T), a read register through which a slot is read (L), the compiler's own register
/// (A15), or the write register of a written word (W).
#[derive(Clone, Copy, PartialEq, Eq, Hash)]
pub enum Bank {
    A,
    B,
    M,
    T,
    L,
    A15,
    W,
}

/// One choice. A value goes by its variable, an access and a pass by their point, a use by its point
/// and the number of its operand.
#[derive(Clone, Copy, PartialEq, Eq, Hash)]
pub enum Column {
    /// The value is first put into this bank.
    Def(u32, Bank),
    /// The value is first put into the write register of this use, whose write begins at this register.
    DirectWrite(u32, u32, u8),
    /// Directly after its definition the value is copied into this bank.
    Fill(u32, Bank),
    /// The value stays in its read register, where its read begins at this register.
    Stay(u32, u8),
    /// Directly after its definition the value is copied into the write register of this use, whose
    /// write begins at this register.
    EarlyWrite(u32, u32, u8),
    /// The access begins at this register.
    First(u32, u8),
    /// The use is served from the first bank in the second.
    Serve(u32, u32, Bank, Bank),
    /// Slots are read through this read register.
    ReadVia(u32, u8),
    /// Slots are written through this write register.
    WriteVia(u32, u8),
}

/// One way to serve a use: from this bank, in that, at this cost.
#[derive(Clone, Copy)]
pub struct Service {
    pub from: Bank,
    pub at: Bank,
    pub cost: u32,
}

/// Columns with their costs.
pub type Priced = Vec<(Column, u32)>;
