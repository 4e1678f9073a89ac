//! The commands by name.
ghost use Rattle.std.specs.Prelude.{◌≡◌, ◌≢◌, All, Contains, IfNone, IfSome};
ghost use Rattle.nova_words.specs.Limits.{NamesNone, name_of};
ghost use Rattle.nova_words.specs.Settings.{setting_name, settings_of};

use crate::setting::Setting;

/// What a command line begins with.
#[derive(Clone, Copy, PartialEq, Eq)]
pub enum Verb {
    Build,
    Run,
    List,
    Check,
    Test,
    Trace,
    Page,
    Forms,
    Format,
    Asm,
    Mem,
    Replay,
    Serve,
    Explain,
    Help,
    Version,
}

/// All commands, in the order of the help.
pub const VERBS: [Verb; 16] = [
    Verb::Build,
    Verb::Run,
    Verb::List,
    Verb::Check,
    Verb::Test,
    Verb::Trace,
    Verb::Page,
    Verb::Forms,
    Verb::Format,
    Verb::Asm,
    Verb::Mem,
    Verb::Replay,
    Verb::Serve,
    Verb::Explain,
    Verb::Help,
    Verb::Version,
];

impl Verb {
    /// How it is written.
    pub fn name(self) -> &'static str
        ensures { result.now ≡ name_of self }
    {
        match self {
            Verb::Build => "build",
            Verb::Run => "run",
            Verb::List => "list",
            Verb::Check => "check",
            Verb::Test => "test",
            Verb::Trace => "trace",
            Verb::Page => "page",
            Verb::Forms => "forms",
            Verb::Format => "fmt",
            Verb::Asm => "asm",
            Verb::Mem => "mem",
            Verb::Replay => "replay",
            Verb::Serve => "lsp",
            Verb::Explain => "explain",
            Verb::Help => "help",
            Verb::Version => "version",
        }
    }

    /// The command of this name.
    pub fn named(word: &str) -> Option<Verb>
        ensures some { IfSome result (λ verb. word.now ≡ name_of verb) }
        ensures none { IfNone result (NamesNone word.now) }
    {
        for verb in VERBS.iter() {
            if verb.name() == word {
                return Some(*verb);
            }
        }
        None
    }

    /// Its options.
    pub fn settings(self) -> &'static [Setting]
        ensures { result.now ≡ settings_of self }
    {
        match self {
            Verb::Build => &BUILD,
            Verb::Run => &RUN,
            Verb::List => &LIST,
            Verb::Check => &CHECK,
            Verb::Test => &TEST,
            Verb::Trace => &TRACE,
            Verb::Page => &PAGE,
            Verb::Format => &FORMAT,
            Verb::Asm => &ASM,
            Verb::Forms | Verb::Mem => &SHOWN,
            Verb::Replay => &REPLAY,
            Verb::Serve | Verb::Explain | Verb::Help | Verb::Version => &OTHER,
        }
    }

    /// Its option of this name.
    pub fn setting(self, word: &str) -> Option<Setting>
        ensures some { IfSome result (λ setting. Contains (settings_of self) setting × (word.now ≡ setting_name setting)) }
        ensures none { IfNone result (All (λ s. word.now ≢ setting_name s) (settings_of self)) }
    {
        for setting in self.settings() {
            if setting.name() == word {
                return Some(*setting);
            }
        }
        None
    }
}

const BUILD: [Setting; 11] = [
    Setting::Output,
    Setting::Report,
    Setting::Slots,
    Setting::Budget,
    Setting::Store,
    Setting::Weights,
    Setting::DenyWarnings,
    Setting::Allow,
    Setting::Json,
    Setting::Sarif,
    Setting::Help,
];

const RUN: [Setting; 8] = [
    Setting::Steps,
    Setting::Budget,
    Setting::Profile,
    Setting::Counts,
    Setting::Trace,
    Setting::Until,
    Setting::Json,
    Setting::Help,
];

const LIST: [Setting; 3] = [Setting::Budget, Setting::Json, Setting::Help];

const CHECK: [Setting; 6] = [
    Setting::Verbose,
    Setting::DenyWarnings,
    Setting::Allow,
    Setting::Json,
    Setting::Sarif,
    Setting::Help,
];

const TEST: [Setting; 10] = [
    Setting::Steps,
    Setting::Budget,
    Setting::Case,
    Setting::Update,
    Setting::Coverage,
    Setting::Interpret,
    Setting::Tap,
    Setting::Junit,
    Setting::Json,
    Setting::Help,
];

const TRACE: [Setting; 4] = [Setting::Steps, Setting::Line, Setting::Json, Setting::Help];

const REPLAY: [Setting; 11] = [
    Setting::At,
    Setting::Args,
    Setting::Length,
    Setting::Table,
    Setting::Memory,
    Setting::Keep,
    Setting::Drop,
    Setting::Steps,
    Setting::Limit,
    Setting::Json,
    Setting::Help,
];

const PAGE: [Setting; 5] = [
    Setting::Output,
    Setting::Steps,
    Setting::Budget,
    Setting::Json,
    Setting::Help,
];

const FORMAT: [Setting; 3] = [Setting::Check, Setting::Json, Setting::Help];

const ASM: [Setting; 3] = [Setting::Output, Setting::Json, Setting::Help];

const SHOWN: [Setting; 2] = [Setting::Json, Setting::Help];

const OTHER: [Setting; 1] = [Setting::Help];
