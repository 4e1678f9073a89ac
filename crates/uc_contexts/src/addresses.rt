//! Sets of addresses, a bit for each address of each memory.
ghost use Rattle.std.specs.Prelude.{◌≡◌, ◌+◌, ◌<◌, ◌≤◌, ℕ, false, IfOk, Some};
ghost use Rattle.nv_base.specs.Memories.{HasSizes, first_word, size_at};
ghost use Rattle.nv_base.specs.declared.term.Mem.{Mem};
ghost use Rattle.uc_contexts.specs.Footprints.{IsTouched};
ghost use Rattle.uc_contexts.specs.Sets.{Adds, has, within};

use crate::bits::Bits;
use nv_base::{Mem, NoMemory, Packet};
use std::alloc::Global;
use std::marker::Model;

/// N words of a memory, from an address on.
#[derive(Clone, Copy)]
pub struct Stretch {
    pub mem: Mem,
    pub at: u64,
    pub words: u8,
}

/// A set of addresses. An address of SDRAM is that of a quadword.
#[derive(Drop)]
pub struct AddressSet {
    sram: Bits,
    sdram: Bits,
    scratch: Bits,
}

impl Model for AddressSet {
    ghost use Rattle.uc_contexts.specs.Sets.{Addresses};

    ghost Value = { Addresses };

    ghost view = { λ s. record { sram = s.sram; sdram = s.sdram; scratch = s.scratch } };
}

impl AddressSet {
    /// None of a packet's addresses.
    pub fn new(alloc: Global, p: &Packet) -> Result<AddressSet, NoMemory>
        ensures sizes { IfOk result (λ s. (m : Mem) → (within m s).size ≡ size_at m p.now) }
        ensures empty { IfOk result (λ s. (m : Mem) (a : ℕ) → has (within m s) a ≡ false) }
        ensures packet { HasSizes p.now }
    {
        Ok(AddressSet {
            sram: Bits::new(alloc, p.size(Mem::Sram))?,
            sdram: Bits::new(alloc, p.size(Mem::Sdram))?,
            scratch: Bits::new(alloc, p.size(Mem::Scratch))?,
        })
    }

    // The addresses of one memory.
    fn of(&self, m: Mem) -> &Bits
        ensures { result.now ≡ within m self.now }
    {
        match m {
            Mem::Sram => &self.sram,
            Mem::Sdram => &self.sdram,
            Mem::Scratch => &self.scratch,
        }
    }

    /// The addresses of a memory are below this size.
    pub fn size(&self, m: Mem) -> u32
        ensures size { result ≡ (within m self.now).size }
        ensures within { (a : ℕ) → result ≤ a → has (within m self.now) a ≡ false }
    {
        self.of(m).size()
    }

    /// Whether an address of a memory is in the set.
    pub fn contains(&self, m: Mem, a: u32) -> bool
        ensures { result ≡ has (within m self.now) a }
    {
        self.of(m).contains(a)
    }

    // Puts the addresses that an access touches into the set.
    pub(crate) fn touch(&mut self, s: &Stretch)
        requires { first_word s.now.mem s.now.at + s.now.words ≤ first_word s.now.mem (within s.now.mem self.old).size }
        ensures sizes { (k : Mem) → (within k self.new).size ≡ (within k self.old).size }
        ensures has { (k : Mem) → Adds (within k self.old) (IsTouched (Some s.now) k) (within k self.new) }
    {
        let words = s.words as u64;
        match s.mem {
            Mem::Sram => self.sram.insert_from(s.at, words),
            Mem::Sdram => self.sdram.insert_from(s.at, (words + 1) / 2),
            Mem::Scratch => self.scratch.insert_from(s.at, words),
        }
    }
}
