//! Places and placements.

ghost use Rattle.std.specs.Prelude.{◌≡◌};
ghost use Rattle.place_plan.specs.Fits as fits;
ghost use Rattle.place_plan.specs.Places.{same_place};
ghost use Rattle.place_plan.specs.declared.place.PlaceError.TheVariants.{NoMemory as WantOfMemory};

use nv_base::{Mem, NoMemory};
use std::alloc::{AllocError, AllocFailed};

/// Where a word can stand: a register of a bank, by its number, or a slot, a scratch word of the compiler's.
#[derive(Clone, Copy, PartialEq, Eq)]
pub enum Place {
    /// A general register of the first bank.
    A(u8),
    /// A general register of the second bank.
    B(u8),
    /// A register into which SRAM and scratch are read.
    L(u8),
    /// A register into which SDRAM is read.
    LD(u8),
    /// A register from which SRAM and scratch are written.
    S(u8),
    /// A register from which SDRAM is written.
    SD(u8),
    /// A slot.
    Slot(u8),
}

impl Place {
    /// The register into which a word of a read comes.
    pub fn of_read(m: Mem, i: u8) -> Place
        ensures { result ≡ fits.read_place m i }
    {
        match m {
            Mem::Sram => Place::L(i),
            Mem::Sdram => Place::LD(i),
            Mem::Scratch => Place::L(i),
        }
    }

    /// The register from which a word of a write goes.
    pub fn of_write(m: Mem, i: u8) -> Place
        ensures { result ≡ fits.write_place m i }
    {
        match m {
            Mem::Sram => Place::S(i),
            Mem::Sdram => Place::SD(i),
            Mem::Scratch => Place::S(i),
        }
    }

    /// Whether it is this one.
    pub fn is(self, other: Place) -> bool
        ensures { result ≡ same_place self other }
    {
        self == other
    }

    /// Whether it is a slot.
    pub fn is_slot(self) -> bool
        ensures { result ≡ fits.is_slot self }
    {
        matches!(self, Place::Slot(_))
    }

    /// Whether it is a general register or a slot.
    pub fn is_general(self) -> bool
        ensures { result ≡ fits.is_general self }
    {
        matches!(self, Place::A(_) | Place::B(_) | Place::Slot(_))
    }

    /// Whether it is a register that is read into.
    pub fn is_read(self) -> bool
        ensures { result ≡ fits.is_read_register self }
    {
        matches!(self, Place::L(_) | Place::LD(_))
    }

    /// Whether it is a register that is written from.
    pub fn is_written(self) -> bool
        ensures { result ≡ fits.is_write_register self }
    {
        matches!(self, Place::S(_) | Place::SD(_))
    }
}

/// The places of one value: where it is first put, and where copies of it are put directly behind.
#[derive(Drop)]
pub struct Home {
    pub var: u32,
    pub defined: Place,
    pub copied: Vec<Place>,
}

/// The first register of the access at a point.
#[derive(Clone, Copy)]
pub struct First {
    pub point: u32,
    pub first: u8,
}

/// How one use is served: the operand of this number, from this place, at that place.
#[derive(Clone, Copy)]
pub struct Serve {
    pub point: u32,
    pub operand: u8,
    pub from: Place,
    pub at: Place,
}

/// Through which registers the code of a point reads slots and writes slots.
#[derive(Clone, Copy)]
pub struct Pass {
    pub point: u32,
    pub l: Option<u8>,
    pub s: Option<u8>,
}

/// Places for all values of a program, and how each use is served.
#[derive(Drop)]
pub struct Placement {
    /// So many slots may be used.
    pub slots: u32,
    pub homes: Vec<Home>,
    pub firsts: Vec<First>,
    pub serves: Vec<Serve>,
    pub passes: Vec<Pass>,
}

/// Why there is no placement.
#[derive(Clone, Copy, Debug)]
pub enum PlaceError {
    NoMemory,
    /// So many slots are wanted.
    TooFew(u32),
}

impl From<NoMemory> for PlaceError {
    ghost from_gives = { λ _ e. e ≡ WantOfMemory };

    fn from(_error: NoMemory) -> PlaceError {
        PlaceError::NoMemory
    }
}

impl From<AllocError> for PlaceError {
    ghost from_gives = { λ _ e. e ≡ WantOfMemory };

    fn from(_error: AllocError) -> PlaceError {
        PlaceError::NoMemory
    }
}

impl<T: Drop> From<AllocFailed<T>> for PlaceError {
    ghost from_gives = { λ _ e. e ≡ WantOfMemory };

    fn from(_failed: AllocFailed<T>) -> PlaceError {
        PlaceError::NoMemory
    }
}
