//! What is wrong with words.

use crate::setting::Setting;
use crate::verb::Verb;
use std::alloc::{AllocError, AllocFailed};

/// Why words are no command.
#[derive(Clone, Copy)]
pub enum WordFault<'a> {
    NoMemory,
    /// There are no words.
    NoWords,
    /// The first word is no command.
    UnknownCommand(&'a str),
    /// The command has no such option.
    UnknownOption(Verb, &'a str),
    /// The value of an option is missing.
    NoValue(Verb, Setting),
    /// The option has no value.
    UnwantedValue(Verb, Setting),
    /// The value of an option is no number from one to another.
    BadNumber(Verb, Setting, &'a str, u32, u32),
    /// A name is missing: what it names.
    MissingName(Verb, &'static str),
    /// A name too many.
    ExtraName(Verb, &'a str),
}

impl<'a> From<AllocError> for WordFault<'a> {
    ghost use Rattle.std.specs.Prelude.{◌≡◌};
    ghost use Rattle.nova_words.specs.declared.fault.WordFault.TheVariants.{NoMemory as WantOfMemory};

    ghost from_gives = { λ _ e. e ≡ WantOfMemory };

    fn from(_error: AllocError) -> WordFault<'a> {
        WordFault::NoMemory
    }
}

impl<'a, T: Drop> From<AllocFailed<T>> for WordFault<'a> {
    ghost use Rattle.std.specs.Prelude.{◌≡◌};
    ghost use Rattle.nova_words.specs.declared.fault.WordFault.TheVariants.{NoMemory as WantOfMemory};

    ghost from_gives = { λ _ e. e ≡ WantOfMemory };

    fn from(_error: AllocFailed<T>) -> WordFault<'a> {
        WordFault::NoMemory
    }
}
