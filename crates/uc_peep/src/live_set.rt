//! Sets of registers and flags.
ghost use Rattle.std.specs.Prelude.{◌≡◌, ◌+◌, ◌<◌, ◌≤◌, ◌==◌, ◌||◌, ◌&&◌, ◌↔◌, ◌^◌, not, nat_eq, false, IsTrue};
ghost use Rattle.std.specs.Int.{bit_at};
ghost use Rattle.uc_isa.specs.Registers.{IsRegister, source_register, target_register, address_register};
ghost use Rattle.uc_isa.specs.Resources.{Resource, IsResource, number, is_address, is_carry, is_flag, is_source, is_target, is_within, is_zero};
ghost use Rattle.uc_isa.specs.Resources.Resource.{In, Zero, Carry};
ghost use Rattle.uc_peep.specs.Sets.{has, IsWithin};
ghost use Rattle.uc_peep.specs.Needless.{is_wanted};

use std::marker::Model;
use uc_isa::{Dst, Gpr, Src};

/// A set of the 64 registers and the two flags. Contracts see it as a number, whose bits are these.
#[derive(Clone, Copy)]
pub struct LiveSet {
    bits: u128,
}

impl Model for LiveSet {
    ghost use Rattle.std.specs.Prelude.{ℕ, ◌<◌, ◌^◌};

    ghost Value = { ℕ };

    ghost view = { λ r. r.bits };

    ghost invariant = { λ r. r.bits < 2 ^ 128 };

    ghost inverse = { λ n. record { bits = n } };
}

// Where each bank's bits begin, and those of the flags.
pub(crate) const BANK_B: u8 = 16;

pub(crate) const BANK_L: u8 = 32;

pub(crate) const BANK_S: u8 = 40;

pub(crate) const BANK_LD: u8 = 48;

pub(crate) const BANK_SD: u8 = 56;

const ZERO: u8 = 64;

const CARRY: u8 = 65;

impl LiveSet {
    pub(crate) fn none() -> LiveSet
        ensures none { (s : Resource) → has result s ≡ false }
        ensures zero { result ≡ 0 }
    {
        LiveSet { bits: 0 }
    }

    // The set of one register or flag.
    fn one(bit: u8) -> LiveSet
        requires { bit < 66 }
        ensures { (s : Resource) → IsResource s → has result s ≡ (number s == bit) }
    {
        LiveSet { bits: 1 << bit }
    }

    // The set of n registers of a bank.
    pub(crate) fn run(first: u8, n: u8) -> LiveSet
        requires { first + n ≤ 64 }
        ensures { (s : Resource) → IsResource s → has result s ≡ is_within first n (number s) }
    {
        let end: u128 = 1 << (first + n);
        let start: u128 = 1 << first;
        LiveSet { bits: end - start }
    }

    pub(crate) fn source(x: &Src) -> LiveSet
        ensures { (s : Resource) → IsResource s → has result s ≡ is_source x.now s }
    {
        match x {
            Src::A(r) => LiveSet::one(r.number),
            Src::B(r) => LiveSet::one(BANK_B + r.number),
            Src::L(r) => LiveSet::one(BANK_L + r.number),
            Src::LD(r) => LiveSet::one(BANK_LD + r.number),
        }
    }

    pub(crate) fn address(x: &Gpr) -> LiveSet
        ensures { (s : Resource) → IsResource s → has result s ≡ is_address x.now s }
    {
        match x {
            Gpr::A(r) => LiveSet::one(r.number),
            Gpr::B(r) => LiveSet::one(BANK_B + r.number),
        }
    }

    pub(crate) fn target(d: &Dst) -> LiveSet
        ensures { (s : Resource) → IsResource s → has result s ≡ is_target d.now s }
    {
        match d {
            Dst::A(r) => LiveSet::one(r.number),
            Dst::B(r) => LiveSet::one(BANK_B + r.number),
            Dst::S(r) => LiveSet::one(BANK_S + r.number),
            Dst::SD(r) => LiveSet::one(BANK_SD + r.number),
            Dst::Nowhere => LiveSet::none(),
        }
    }

    pub(crate) fn zero() -> LiveSet
        ensures { (s : Resource) → IsResource s → has result s ≡ is_zero s }
    {
        LiveSet::one(ZERO)
    }

    pub(crate) fn carry() -> LiveSet
        ensures { (s : Resource) → IsResource s → has result s ≡ is_carry s }
    {
        LiveSet::one(CARRY)
    }

    // Both flags.
    pub(crate) fn both_flags() -> LiveSet
        ensures { (s : Resource) → IsResource s → has result s ≡ is_flag s }
    {
        LiveSet::zero().with(LiveSet::carry())
    }

    // Whether a register or flag is in it.
    fn has_bit(&self, bit: u8) -> bool
        requires { bit < 66 }
        ensures { result ≡ nat_eq (bit_at self.now bit) 1 }
    {
        self.bits >> bit & 1 == 1
    }

    /// Whether the register of an operand is in it.
    pub fn has_src(&self, r: Src) -> bool
        ensures { result ≡ has self.now (In (source_register r)) }
    {
        match r {
            Src::A(r) => self.has_bit(r.number),
            Src::B(r) => self.has_bit(BANK_B + r.number),
            Src::L(r) => self.has_bit(BANK_L + r.number),
            Src::LD(r) => self.has_bit(BANK_LD + r.number),
        }
    }

    /// Whether the register of a target is in it; false for none.
    pub fn has_dst(&self, r: Dst) -> bool
        ensures { result ≡ is_wanted r self.now }
    {
        match r {
            Dst::A(r) => self.has_bit(r.number),
            Dst::B(r) => self.has_bit(BANK_B + r.number),
            Dst::S(r) => self.has_bit(BANK_S + r.number),
            Dst::SD(r) => self.has_bit(BANK_SD + r.number),
            Dst::Nowhere => false,
        }
    }

    /// Whether the flag zero is in it, and whether the carry is.
    pub fn flags(&self) -> (bool, bool)
        ensures zero { result.0 ≡ has self.now Zero }
        ensures carry { result.1 ≡ has self.now Carry }
    {
        (self.has_bit(ZERO), self.has_bit(CARRY))
    }

    // What is in one of the two.
    pub(crate) fn with(self, other: LiveSet) -> LiveSet
        ensures either { (s : Resource) → has result s ≡ (has self s || has other s) }
        ensures more { self ≤ result }
        ensures small { result < 2 ^ 128 }
    {
        LiveSet {
            bits: self.bits | other.bits,
        }
    }

    // What is in the first and not in the second.
    pub(crate) fn without(self, other: LiveSet) -> LiveSet
        ensures { (s : Resource) → IsResource s → has result s ≡ (has self s && not (has other s)) }
    {
        LiveSet {
            bits: self.bits & !other.bits,
        }
    }

    pub(crate) fn same(&self, other: &LiveSet) -> bool
        ensures { IsTrue result ↔ (self.now ≡ other.now) }
    {
        self.bits == other.bits
    }

    // Whether all that is in it is in the other.
    pub(crate) fn is_within(&self, other: &LiveSet) -> bool
        ensures { IsTrue result → IsWithin self.now other.now }
    {
        self.bits & other.bits == self.bits
    }
}
