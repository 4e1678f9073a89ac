//! What holds of all objects.
ghost use Rattle.std.specs.Prelude.{◌≡◌, ◌<◌, ◌^◌, ◌⊎◌, ℕ, List, length, Ok, Err};
ghost use Rattle.uc_object.specs.Object.{IsObject};
ghost use Rattle.uc_object.specs.declared.object.Object.{Object as AnObject};
ghost use Rattle.uc_object.specs.Worked.{ShortObjects};

use crate::{Object, ObjectError, decode, encode};
use std::alloc::Global;

/// Bytes are one object, of one version.
pub fn one_object()
    ensures { (bytes : List ℕ) (o p : AnObject) → IsObject bytes o → IsObject bytes p → o ≡ p }
{}

/// An object has one spelling.
pub fn one_spelling()
    ensures { (o : AnObject) (a b : List ℕ) → IsObject a o → IsObject b o → a ≡ b }
{}

/// What was encoded decodes to itself.
pub fn decode_encoded(alloc: Global, o: &Object) -> Result<Object, ObjectError>
    requires { (bytes : List ℕ) → IsObject bytes o.now → length bytes < 2 ^ 32 }
    ensures { (result ≡ Ok o.now) ⊎ (result ≡ Err ObjectError.NoMemory) }
{
    decode(alloc, &encode(alloc, o)?)
}

/// The bytes of two short objects.
#[tactic(auto, using(crate::proofs::Worked::short_objects))]
pub fn short_objects()
    ensures { ShortObjects }
{}
