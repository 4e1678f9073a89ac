// Why a capture isn't read or written.
ghost use Rattle.std.specs.Prelude.{◌≡◌};
ghost use Rattle.nova_capture.specs.declared.fault.ReadError.TheVariants.{NoMemory as WantToRead};
ghost use Rattle.nova_capture.specs.declared.fault.WriteError.TheVariants.{NoMemory as WantToWrite};

use std::alloc::{AllocError, AllocFailed};
use std::io::ErrorKind;

/// What is wrong with a record: the first of these that holds.
#[derive(Clone, Copy)]
pub enum Fault {
    NotACapture,
    Cut,
    Length,
    Longer,
    ByteOrder,
    Version,
    Trailer,
    Short,
    NoInterface,
    Options,
}

impl Fault {
    /// What it means.
    pub fn sentence(self) -> &'static str {
        match self {
            Fault::NotACapture => "the bytes begin neither as pcap nor as pcapng",
            Fault::Cut => "the capture ends within it",
            Fault::Length => "no length that it can have",
            Fault::Longer => "more bytes captured than the packet had",
            Fault::ByteOrder => "no byte-order magic",
            Fault::Version => "a version that isn't known",
            Fault::Trailer => "its second length differs from the first",
            Fault::Short => "shorter than the fields of its kind",
            Fault::NoInterface => "no such interface",
            Fault::Options => "an option passes its end",
        }
    }
}

/// Where a capture is broken. `packet` counts from 1, and is that of the packet that would have come next. `offset` is
/// the place of the record's first byte.
#[derive(Clone, Copy)]
pub struct Broken {
    pub fault: Fault,
    pub packet: u64,
    pub offset: u64,
}

#[derive(Clone, Copy)]
pub enum ReadError {
    NoMemory,
    Failed(ErrorKind),
    Broken(Broken),
}

#[derive(Clone, Copy)]
pub enum WriteError {
    NoMemory,
    Failed(ErrorKind),
    /// The format has no record of this item here.
    Unfit,
}

impl From<AllocError> for ReadError {
    ghost from_gives = { λ _ e. e ≡ WantToRead };

    fn from(_error: AllocError) -> ReadError {
        ReadError::NoMemory
    }
}

impl From<AllocError> for WriteError {
    ghost from_gives = { λ _ e. e ≡ WantToWrite };

    fn from(_error: AllocError) -> WriteError {
        WriteError::NoMemory
    }
}

impl<T: Drop> From<AllocFailed<T>> for WriteError {
    ghost from_gives = { λ _ e. e ≡ WantToWrite };

    fn from(_error: AllocFailed<T>) -> WriteError {
        WriteError::NoMemory
    }
}
