//! Names and options among the words.
ghost use Rattle.std.specs.Prelude.{◌≡◌, ◌≢◌, ◌<◌, ◌≤◌, Some, length, slice_get, IfErr, IfNone, IfOk, IfSome, MatchOption, codes};
ghost use Rattle.nova_words.specs.Faults.{IsFaultAt};
ghost use Rattle.nova_words.specs.Limits.{HaveNoHelp, name_of};
ghost use Rattle.nova_words.specs.Values.{AsksNone, IsLastValue, IsNotGiven};

use crate::fault::WordFault;
use crate::setting::Setting;
use crate::verb::Verb;
use std::alloc::Global;

/// An option with its value; of one without, the empty text.
#[derive(Clone, Copy)]
pub struct Given<'a> {
    pub setting: Setting,
    pub value: &'a str,
}

/// The names and the options of a command's words, each in their order.
#[derive(Drop)]
pub struct Parts<'a> {
    pub verb: Verb,
    pub names: Vec<&'a str>,
    pub given: Vec<Given<'a>>,
    // The option whose value is the next word.
    pending: Option<Setting>,
    // Whether `--` came, after which each word is a name.
    is_ended: bool,
}

impl<'a> Parts<'a> {
    /// Those of the words after the command.
    pub fn of(alloc: Global, verb: Verb, words: &'a [String]) -> Result<Parts<'a>, WordFault<'a>>
        ensures verb { IfOk result (λ parts. parts.verb ≡ verb) }
        ensures asks { HaveNoHelp words.now → IfOk result (λ parts. IsNotGiven parts.given.items Setting.Help) }
        ensures refused { IfErr result (IsFaultAt (name_of verb)) }
    {
        let mut parts = Parts {
            verb,
            names: Vec::new(alloc),
            given: Vec::new(alloc),
            pending: None,
            is_ended: false,
        };
        for word in words {
            parts.read(word.as_str())?;
        }
        match parts.pending {
            Some(setting) => Err(WordFault::NoValue(verb, setting)),
            None => Ok(parts),
        }
    }

    fn read(&mut self, word: &'a str) -> Result<(), WordFault<'a>>
        ensures verb { self.new.verb ≡ self.old.verb }
        ensures asks { IfOk result (λ _. word.now ≢ codes "--help" → word.now ≢ codes "-h" → AsksNone self.old → AsksNone self.new) }
        ensures refused { IfErr result (IsFaultAt (name_of self.old.verb)) }
    {
        if let Some(setting) = self.pending {
            self.pending = None;
            self.give(setting, word)
        } else if self.is_ended || word == "-" || !word.starts_with('-') {
            self.names.push(word)?;
            Ok(())
        } else if word == "--" {
            self.is_ended = true;
            Ok(())
        } else {
            self.read_option(word)
        }
    }

    fn give(&mut self, setting: Setting, value: &'a str) -> Result<(), WordFault<'a>>
        ensures verb { self.new.verb ≡ self.old.verb }
        ensures asks { IfOk result (λ _. setting ≢ Setting.Help → AsksNone self.old → AsksNone self.new) }
        ensures refused { IfErr result (IsFaultAt (name_of self.old.verb)) }
    {
        self.given.push(Given { setting, value })?;
        Ok(())
    }

    // `--NAME`, `--NAME=VALUE`, `-o` or `-h`.
    fn read_option(&mut self, word: &'a str) -> Result<(), WordFault<'a>>
        ensures verb { self.new.verb ≡ self.old.verb }
        ensures asks { IfOk result (λ _. word.now ≢ codes "--help" → word.now ≢ codes "-h" → AsksNone self.old → AsksNone self.new) }
        ensures refused { IfErr result (IsFaultAt (name_of self.old.verb)) }
    {
        match word.split_once('=') {
            Some((name, value)) => self.read_with_value(word, name, value),
            None => self.read_alone(word),
        }
    }

    fn read_alone(&mut self, word: &'a str) -> Result<(), WordFault<'a>>
        ensures verb { self.new.verb ≡ self.old.verb }
        ensures asks { IfOk result (λ _. word.now ≢ codes "--help" → word.now ≢ codes "-h" → AsksNone self.old → AsksNone self.new) }
        ensures refused { IfErr result (IsFaultAt (name_of self.old.verb)) }
    {
        if word == "-h" {
            return self.give(Setting::Help, "");
        }
        let Some(setting) = self.verb.setting(word) else {
            return Err(WordFault::UnknownOption(self.verb, word));
        };
        if setting.has_value() {
            self.pending = Some(setting);
            Ok(())
        } else {
            self.give(setting, "")
        }
    }

    fn read_with_value(
        &mut self,
        word: &'a str,
        name: &'a str,
        value: &'a str,
    ) -> Result<(), WordFault<'a>>
        ensures verb { self.new.verb ≡ self.old.verb }
        ensures asks { IfOk result (λ _. AsksNone self.old → AsksNone self.new) }
        ensures refused { IfErr result (IsFaultAt (name_of self.old.verb)) }
    {
        let Some(setting) = self.verb.setting(name) else {
            return Err(WordFault::UnknownOption(self.verb, word));
        };
        if setting.has_value() {
            self.give(setting, value)
        } else {
            Err(WordFault::UnwantedValue(self.verb, setting))
        }
    }

    /// The value that was given an option last.
    pub fn value(&self, setting: Setting) -> Option<&'a str>
        ensures given { IfSome result (λ value. IsLastValue self.now.given.items setting value.now) }
        ensures none { IfNone result (IsNotGiven self.now.given.items setting) }
    {
        let mut last = None;
        for given in &self.given {
            if given.setting == setting {
                last = Some(given.value);
            }
        }
        last
    }

    /// The values that were given an option, in order.
    pub fn values(&self, alloc: Global, setting: Setting) -> Result<Vec<&'a str>, WordFault<'a>>
        ensures { IfErr result (IsFaultAt (name_of self.now.verb)) }
    {
        let mut values = Vec::new(alloc);
        for given in &self.given {
            if given.setting == setting {
                values.push(given.value)?;
            }
        }
        Ok(values)
    }

    /// The name at a place, which names this.
    pub fn name(&self, place: usize, what: &'static str) -> Result<&'a str, WordFault<'a>>
        ensures there { IfOk result (λ name. slice_get self.now.names.items place ≡ Some name) }
        ensures missing { IfErr result (λ _. length self.now.names.items ≤ place) }
        ensures fault { IfErr result (λ fault. fault ≡ WordFault.MissingName self.now.verb what.entry) }
        ensures refused { IfErr result (IsFaultAt (name_of self.now.verb)) }
    {
        match self.names.get(place) {
            Some(name) => Ok(*name),
            None => Err(WordFault::MissingName(self.verb, what)),
        }
    }

    /// Refuses more names than so many.
    pub fn check_names(&self, most: usize) -> Result<(), WordFault<'a>>
        ensures few { IfOk result (λ _. length self.now.names.items ≤ most) }
        ensures many { IfErr result (λ _. most < length self.now.names.items) }
        ensures fault { IfErr result (λ fault. MatchOption (slice_get self.now.names.items most) ⊥ (λ name. fault ≡ WordFault.ExtraName self.now.verb name)) }
        ensures refused { IfErr result (IsFaultAt (name_of self.now.verb)) }
    {
        match self.names.get(most) {
            Some(name) => Err(WordFault::ExtraName(self.verb, *name)),
            None => Ok(()),
        }
    }
}
