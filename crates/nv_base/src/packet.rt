// The three memories of a packet.
ghost use Rattle.std.specs.Prelude.{◌≡◌, ◌+◌, ◌*◌, ◌^◌, ◌<◌, ◌≤◌, ◌↔◌, ◌++◌, ℕ, All, length, take, drop, replicate, None, Some, Err, IfOk, IsErrOf};
ghost use Rattle.nv_base.specs.Memories.{Memories, HasSizes, IsAccess, blank, first_too_large, size_at, fetched, stored, words_at, first_word};
ghost use Rattle.nv_base.specs.declared.term.Access.{Access};
ghost use Rattle.nv_base.specs.declared.term.Mem.{Mem};
ghost use Rattle.nv_base.specs.declared.error.PacketError.{PacketError};

use crate::error::{NoMemory, PacketError};
use crate::term::{Access, Mem};
use std::alloc::Global;
use std::marker::Model;

/// The greatest size of SRAM, in words, and of SDRAM, in quadwords.
pub const SIZE_LIMIT: u32 = 65_536;

// The words of scratch.
const SCRATCH: usize = 1_024;

/// A packet's memories: SRAM and scratch as words, SDRAM as the words of its quadwords, the first
/// word of a quadword first.
#[derive(Drop)]
pub struct Packet {
    sram: Vec<u32>,
    sdram: Vec<u32>,
    scratch: Vec<u32>,
}

impl Model for Packet {
    ghost use Rattle.nv_base.specs.Memories.{Memories, HasSizes};

    ghost Value = { Memories };

    ghost view = { λ p. record { sram = p.sram.items; sdram = p.sdram.items; scratch = p.scratch.items } };

    ghost invariant = { λ p. HasSizes (record { sram = p.sram.items; sdram = p.sdram.items; scratch = p.scratch.items }) };
}

// The number of an address's first word.
fn word_of(m: Mem, at: u64) -> u128
    ensures word { result ≡ first_word m at }
    ensures below { result < 2 ^ 65 }
{
    match m {
        Mem::Sdram => 2 * at as u128,
        Mem::Sram | Mem::Scratch => at as u128,
    }
}

// Puts these words from a place on, where they are inside.
fn put(words: &mut [u32], first: u128, from: &[u32]) -> Access
    requires { first < 2 ^ 65 }
    ensures len { length words.new ≡ length words.old }
    ensures fit { All (λ w. w < 2 ^ 32) words.new }
    ensures done { result ≡ Access.Done → (first + length from.now ≤ length words.old) × (words.new ≡ take first words.old ++ from.now ++ drop (first + length from.now) words.old) }
    ensures bad { result ≡ Access.Bad → (length words.old < first + length from.now) × (words.new ≡ words.old) }
{
    if first + from.len() as u128 > words.len() as u128 {
        return Access::Bad;
    }
    let first = first as usize;
    words[first..first + from.len()].copy_from_slice(from);
    Access::Done
}

// So many zeros.
fn zeros(alloc: Global, count: usize) -> Result<Vec<u32>, NoMemory>
    ensures { IfOk result (λ words. words.items ≡ replicate count 0) }
{
    Ok(vec![in alloc; 0; count]?)
}

impl Packet {
    /// Memories of zeros: SRAM of `sram` words, SDRAM of `sdram` quadwords, scratch of 1,024 words.
    pub fn new(alloc: Global, sram: u32, sdram: u32) -> Result<Packet, PacketError>
        ensures made { IfOk result (λ packet. packet ≡ blank sram sdram) }
        ensures too_large { (n : ℕ) → result ≡ Err (PacketError.TooLarge n) ↔ first_too_large sram sdram ≡ Some n }
    {
        if sram > SIZE_LIMIT {
            return Err(PacketError::TooLarge(sram));
        }
        if sdram > SIZE_LIMIT {
            return Err(PacketError::TooLarge(sdram));
        }
        Ok(Packet {
            sram: zeros(alloc, sram as usize)?,
            sdram: zeros(alloc, 2 * sdram as usize)?,
            scratch: zeros(alloc, SCRATCH)?,
        })
    }

    /// The words of one memory, for SDRAM two a quadword.
    pub fn words(&self, m: Mem) -> &[u32]
        ensures words { result.now ≡ words_at m self.now }
        ensures sizes { HasSizes self.now }
    {
        match m {
            Mem::Sram => &self.sram,
            Mem::Sdram => &self.sdram,
            Mem::Scratch => &self.scratch,
        }
    }

    /// The size of a memory: in words, of SDRAM in quadwords.
    pub fn size(&self, m: Mem) -> u32
        ensures size { result ≡ size_at m self.now }
        ensures sizes { HasSizes self.now }
    {
        match m {
            Mem::Sram => self.sram.len() as u32,
            Mem::Sdram => (self.sdram.len() / 2) as u32,
            Mem::Scratch => self.scratch.len() as u32,
        }
    }

    /// Fills `into` with the words from an address on, that of a quadword at SDRAM. `Bad` says that
    /// they reach past the memory: then `into` is unchanged.
    pub fn read(&self, m: Mem, at: u64, into: &mut [u32]) -> Access
        requires { IsAccess m (length into.old) }
        ensures done { result ≡ Access.Done → fetched m at (length into.old) self.now ≡ Some into.new }
        ensures bad { result ≡ Access.Bad → fetched m at (length into.old) self.now ≡ None }
        ensures unchanged { result ≡ Access.Bad → into.new ≡ into.old }
        ensures near { result ≡ Access.Done → at < 2 ^ 17 }
        ensures sizes { HasSizes self.now }
    {
        let words = self.words(m);
        let first = word_of(m, at);
        if first + into.len() as u128 > words.len() as u128 {
            return Access::Bad;
        }
        let first = first as usize;
        into.copy_from_slice(&words[first..first + into.len()]);
        Access::Done
    }

    /// Puts these words from an address on, that of a quadword at SDRAM. `Bad` says that they reach
    /// past the memory: then nothing changes.
    pub fn write(&mut self, m: Mem, at: u64, from: &[u32]) -> Access
        requires { IsAccess m (length from.now) }
        ensures done { result ≡ Access.Done → stored m at from.now self.old ≡ Some self.new }
        ensures bad { result ≡ Access.Bad → stored m at from.now self.old ≡ None }
        ensures unchanged { result ≡ Access.Bad → self.new ≡ self.old }
        ensures near { result ≡ Access.Done → at < 2 ^ 17 }
        ensures sizes { HasSizes self.new }
    {
        let first = word_of(m, at);
        match m {
            Mem::Sram => put(&mut self.sram, first, from),
            Mem::Sdram => put(&mut self.sdram, first, from),
            Mem::Scratch => put(&mut self.scratch, first, from),
        }
    }
}
