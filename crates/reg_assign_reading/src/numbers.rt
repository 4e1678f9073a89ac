//! Numbers of registers and slots for the homes of values.

ghost use Rattle.std.specs.Prelude.{◌≡◌, nat_eq};
ghost use Rattle.std.specs.HashMap.{get};
ghost use Rattle.reg_assign_reading.specs.inner.Reading.{number_in, numbers_of};

use bank_prog::Bank;
use ssu_liveness::Slots;

/// Of the values that have homes in each bank, the numbers of their registers or slots.
#[derive(Drop)]
pub struct BankNumbers {
    pub a: Slots,
    pub b: Slots,
    pub m: Slots,
}

/// The number of a value, or 0 where it has none that fits.
fn number_of(slots: &Slots, x: u32) -> u8
    ensures { result ≡ number_in (get nat_eq slots.now x) }
{
    match slots.get(&x) {
        Some(n) => { if *n < 256 { *n as u8 } else { 0 } }
        None => 0,
    }
}

impl BankNumbers {
    /// The number of a value's home in a bank.
    pub fn number(&self, h: Bank, x: u32) -> u8
        ensures { result ≡ numbers_of self.now h x }
    {
        match h {
            Bank::A => number_of(&self.a, x),
            Bank::B => number_of(&self.b, x),
            Bank::M => number_of(&self.m, x),
            Bank::T => 0,
            Bank::L => 0,
            Bank::A15 => 0,
            Bank::W => 0,
        }
    }
}
