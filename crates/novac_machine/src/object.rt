//! Objects, and whether their code is lawful.
ghost use Rattle.std.specs.Prelude.{◌≡◌, ◌<◌, ◌^◌, ◌⊎◌, length, IfOk, IfErr, OnOk};
ghost use Rattle.uc_isa.specs.Lawful.{IsLawful};
ghost use Rattle.uc_object.specs.Object.{IsObject};
ghost use Rattle.novac_words.specs.Lines.{IsUncaused};
ghost use Rattle.novac_machine.specs.Machine.{IsBadObjectFor, IsUnlawfulFor};

use novac_words::Refusal;
use std::alloc::Global;
use uc_isa::{Code, lint};
use uc_object::{Object, ObjectError, decode};

/// The object that the bytes are.
pub fn object_of<'a>(alloc: Global, bytes: &[u8]) -> Result<Object, Refusal<'a>>
    requires { length bytes.now < 2 ^ 32 }
    ensures object { IfOk result (λ o. IsObject bytes.now o) }
    ensures refused { IfErr result (λ e. IsUncaused e ⊎ IsBadObjectFor bytes.now e) }
{
    match decode(alloc, bytes) {
        Ok(object) => Ok(object),
        Err(ObjectError::Bad(at)) => Err(Refusal::BadObject(at)),
        Err(ObjectError::NoMemory) => Err(Refusal::NoMemory),
    }
}

/// Refuses code that isn't lawful.
pub fn check_lawful<'a>(code: &Code) -> Result<(), Refusal<'a>>
    ensures lawful { OnOk result (IsLawful code.now.list) }
    ensures refused { IfErr result (λ e. IsUnlawfulFor code.now.list e) }
{
    match lint(code) {
        None => Ok(()),
        Some((place, rule)) => Err(Refusal::Unlawful(place, rule)),
    }
}
