// Objects as values.
ghost use Rattle.std.specs.Prelude.{◌≡◌, ◌<◌, ◌≤◌, ◌^◌, All, length, None, Some, MatchOption};
ghost use Rattle.uc_object.specs.Tagged.{IsTagged};
ghost use Rattle.uc_object.specs.Object.{code_of, exception_of};

use nv_base::Name;
use std::marker::Model;
use uc_isa::Code;

/// The name of an exception: 1 to 64 bytes, a letter or `_` and then letters, digits and `_`. A source has its names in
/// the same form.
pub use nv_base::Name as Tag;

/// Code, the line and the name of each of its exceptions from number 1 on, and the places where its labels start: at most
/// 65,535 exceptions and 2^20 starts. Contracts see it as the three.
#[derive(Drop)]
pub struct Tagged {
    code: Code,
    exceptions: Vec<(u32, Name)>,
    starts: Vec<u32>,
}

impl Model for Tagged {
    ghost use Rattle.uc_object.specs.Tagged.{TaggedView, IsTagged};

    ghost Value = { TaggedView };

    ghost view = { λ t. record { code = t.code; exceptions = t.exceptions.items; starts = t.starts.items } };

    ghost invariant = { λ t. IsTagged (record { code = t.code; exceptions = t.exceptions.items; starts = t.starts.items }) };
}

impl Tagged {
    /// This code with these exceptions and starts.
    pub fn new(code: Code, exceptions: Vec<(u32, Name)>, starts: Vec<u32>) -> Tagged
        requires exceptions { length exceptions.items < 2 ^ 16 }
        requires starts { length starts.items ≤ 2 ^ 20 }
        requires inside { All (λ start. start < length code.list) starts.items }
        ensures { result ≡ record { code = code; exceptions = exceptions.items; starts = starts.items } }
    {
        Tagged {
            code,
            exceptions,
            starts,
        }
    }

    /// The code.
    pub fn code(&self) -> &Code
        ensures { result.now ≡ self.now.code }
    {
        &self.code
    }

    /// The line and the name of each exception.
    pub fn exceptions(&self) -> &[(u32, Name)]
        ensures exceptions { result.now ≡ self.now.exceptions }
        ensures tagged { IsTagged self.now }
    {
        &self.exceptions
    }

    /// The three, each by itself.
    pub fn into_parts(self) -> (Code, Vec<(u32, Name)>, Vec<u32>)
        ensures code { result.0 ≡ self.code }
        ensures exceptions { result.1.items ≡ self.exceptions }
        ensures starts { result.2.items ≡ self.starts }
        ensures tagged { IsTagged self }
    {
        (self.code, self.exceptions, self.starts)
    }

    /// The places where labels start.
    pub fn starts(&self) -> &[u32]
        ensures starts { result.now ≡ self.now.starts }
        ensures tagged { IsTagged self.now }
    {
        &self.starts
    }
}

/// What an object holds, by its version.
#[derive(Drop)]
pub enum Object {
    One(Code),
    Two(Tagged),
}

impl Object {
    /// The code.
    pub fn code(&self) -> &Code
        ensures { result.now ≡ code_of self.now }
    {
        match self {
            Object::One(code) => code,
            Object::Two(tagged) => tagged.code(),
        }
    }

    /// The line and the name of the exception of this number, counted from 1, where the object tells them.
    pub fn exception(&self, number: u16) -> Option<(u32, &[u8])>
        ensures { MatchOption result (exception_of self.now number ≡ None) (λ found. exception_of self.now number ≡ Some (found.0, found.1.now)) }
    {
        match self {
            Object::One(_) => None,
            Object::Two(tagged) => {
                if number == 0 {
                    return None;
                }
                match tagged.exceptions().get(number as usize - 1) {
                    Some((line, name)) => Some((*line, name.bytes())),
                    None => None,
                }
            }
        }
    }
}
