//! The command `peep`.
ghost use Rattle.std.specs.Prelude.{◌≡◌, ◌≤◌, ◌⊎◌, length, IfOk, IfErr};
ghost use Rattle.uc_isa.specs.Lawful.{IsLawful};
ghost use Rattle.uc_object.specs.Object.{code_of};
ghost use Rattle.novac_words.specs.Limits.{object_limit};
ghost use Rattle.novac_words.specs.Lines.{IsUncaused};
ghost use Rattle.novac_machine.specs.Machine.{LintRefuses};
ghost use Rattle.novac_machine.specs.Peeping.{IsWithoutNeedless, PeepMakes};
ghost use Rattle.novac_machine.specs.inner.Files.{files_of, AreTold};

use crate::object::{check_lawful, object_of};
use crate::save::Made;
use novac_words::{Refusal, Status, peeped_line};
use nv_base::NoMemory;
use std::alloc::Global;
use uc_object::{Object, Tagged, encode};
use uc_peep::without_needless;

/// Takes the needless instructions out of the code of the object that the bytes are, which is saved under a name.
pub fn peep_bytes<'a>(alloc: Global, bytes: &[u8], name: &'a str) -> Result<Made<'a>, Refusal<'a>>
    requires { length bytes.now ≤ object_limit }
    ensures made { IfOk result (λ m. PeepMakes bytes.now name.now m.status (files_of m.outputs) m.text.items) }
    ensures told { IfOk result (λ m. AreTold m.outputs) }
    ensures refused { IfErr result (λ e. IsUncaused e ⊎ LintRefuses bytes.now e) }
{
    let object = object_of(alloc, bytes)?;
    let code = object.code();
    check_lawful(code)?;
    let before = code.list().len() as u64;
    let shorter = shorter_object(alloc, object)?;
    let text = peeped_line(alloc, before, shorter.code().list().len() as u64)?;
    let bytes = encode(alloc, &shorter)?;
    Ok(Made::one(alloc, Status::Done, text, name, bytes)?)
}

// The object with shorter code in place of its own, and the starts in that code.
fn shorter_object(alloc: Global, object: Object) -> Result<Object, NoMemory>
    requires { IsLawful (code_of object).list }
    ensures { IfOk result (IsWithoutNeedless object) }
{
    match object {
        Object::One(code) => {
            let peeped = without_needless(alloc, code, Vec::new(alloc))?;
            Ok(Object::One(peeped.code))
        }
        Object::Two(tagged) => {
            let (code, exceptions, starts) = tagged.into_parts();
            let peeped = without_needless(alloc, code, starts)?;
            Ok(Object::Two(Tagged::new(peeped.code, exceptions, peeped.starts)))
        }
    }
}
