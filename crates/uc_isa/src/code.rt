//! Code: a list of instructions, with the number of its parameters.
ghost use Rattle.std.specs.Prelude.{◌≡◌, ◌<◌, ◌≤◌, ◌^◌, length, slice_get, Some};
ghost use Rattle.uc_isa.specs.Code.{IsCode};

use crate::Instr;
use std::marker::Model;

/// At most 8 parameters, and 1 to 2^31 - 1 instructions. Contracts see it as both.
#[derive(Drop)]
pub struct Code {
    params: u8,
    list: Vec<Instr>,
}

impl Model for Code {
    ghost use Rattle.uc_isa.specs.Code.{CodeView, IsCode};

    ghost Value = { CodeView };

    ghost view = { λ c. record { params = c.params; list = c.list.items } };

    ghost invariant = { λ c. IsCode (record { params = c.params; list = c.list.items }) };
}

impl Code {
    /// Code of so many argument words, at most 8, and these instructions.
    pub fn new(params: u8, list: Vec<Instr>) -> Code
        requires params { params ≤ 8 }
        requires some { 1 ≤ length list.items }
        requires few { length list.items < 2 ^ 31 }
        ensures params { result.params ≡ params }
        ensures list { result.list ≡ list.items }
    {
        Code { params, list }
    }

    /// The number of argument words.
    pub fn params(&self) -> u8
        ensures params { result ≡ self.now.params }
        ensures code { IsCode self.now }
    {
        self.params
    }

    /// The instructions, from place 0 on.
    pub fn list(&self) -> &[Instr]
        ensures list { result.now ≡ self.now.list }
        ensures code { IsCode self.now }
    {
        &self.list
    }

    // The instruction at a place inside.
    pub(crate) fn at(&self, place: u32) -> &Instr
        requires { place < length self.now.list }
        ensures instruction { slice_get self.now.list place ≡ Some result.now }
        ensures few { length self.now.list < 2 ^ 31 }
    {
        &self.list[place as usize]
    }
}
