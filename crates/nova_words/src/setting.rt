//! The options.
ghost use Rattle.std.specs.Prelude.{◌≡◌};
ghost use Rattle.nova_words.specs.Settings.{setting_name, takes_value};

/// An option of a command.
#[derive(Clone, Copy, PartialEq, Eq)]
pub enum Setting {
    /// The object that is saved.
    Output,
    /// The report that is saved.
    Report,
    /// The words of scratch in which values may be kept.
    Slots,
    /// The branches of the search for banks.
    Budget,
    /// The instructions of the code.
    Store,
    /// How often each label is entered.
    Weights,
    /// The steps of a run.
    Steps,
    /// How often each label was entered is told.
    Profile,
    /// The text of these numbers that is saved.
    Counts,
    /// The statements that the run comes to are told.
    Trace,
    /// What ends the trace.
    Until,
    /// The sizes of all parts are told.
    Verbose,
    /// Faults are printed as JSON.
    Json,
    /// Faults are printed as a log in the Static Analysis Results Interchange Format.
    Sarif,
    /// Warnings refuse a source.
    DenyWarnings,
    /// The warnings that aren't told.
    Allow,
    /// The one memory text that is tested.
    Case,
    /// Outcome texts are written anew.
    Update,
    /// The parts of sources that no case reaches are told.
    Coverage,
    /// The code isn't run.
    Interpret,
    /// Results of tests in the form of the Test Anything Protocol.
    Tap,
    /// Results of tests in that of JUnit.
    Junit,
    /// The line of a source.
    Line,
    /// It is only told what would change.
    Check,
    /// Where a packet stands in SDRAM.
    At,
    /// The arguments of `main`.
    Args,
    /// The argument that is the packet's length.
    Length,
    /// Words of SRAM from a file.
    Table,
    /// The memories before the first packet.
    Memory,
    /// Packets that raised are written as they came.
    Keep,
    /// Those of one exception aren't.
    Drop,
    /// How many packets are run.
    Limit,
    /// What the command is for.
    Help,
}

impl Setting {
    /// How it is written.
    pub fn name(self) -> &'static str
        ensures { result.now ≡ setting_name self }
    {
        match self {
            Setting::Output => "-o",
            Setting::Report => "--report",
            Setting::Slots => "--slots",
            Setting::Budget => "--budget",
            Setting::Store => "--store",
            Setting::Weights => "--weights",
            Setting::Steps => "--steps",
            Setting::Profile => "--profile",
            Setting::Counts => "--counts",
            Setting::Trace => "--trace",
            Setting::Until => "--until",
            Setting::Verbose => "--verbose",
            Setting::Json => "--json",
            Setting::Sarif => "--sarif",
            Setting::DenyWarnings => "--deny-warnings",
            Setting::Allow => "--allow",
            Setting::Case => "--case",
            Setting::Update => "--update",
            Setting::Coverage => "--coverage",
            Setting::Interpret => "--interpret",
            Setting::Tap => "--tap",
            Setting::Junit => "--junit",
            Setting::Line => "--line",
            Setting::Check => "--check",
            Setting::At => "--at",
            Setting::Args => "--args",
            Setting::Length => "--length",
            Setting::Table => "--table",
            Setting::Memory => "--memory",
            Setting::Keep => "--keep",
            Setting::Drop => "--drop",
            Setting::Limit => "--limit",
            Setting::Help => "--help",
        }
    }

    /// Whether a value follows.
    pub fn has_value(self) -> bool
        ensures { result ≡ takes_value self }
    {
        match self {
            Setting::Profile
            | Setting::Trace
            | Setting::Verbose
            | Setting::Json
            | Setting::Sarif
            | Setting::Check
            | Setting::DenyWarnings
            | Setting::Update
            | Setting::Coverage
            | Setting::Interpret
            | Setting::Tap
            | Setting::Junit
            | Setting::Keep
            | Setting::Help => false,
            Setting::Output
            | Setting::Report
            | Setting::Slots
            | Setting::Budget
            | Setting::Store
            | Setting::Weights
            | Setting::Steps
            | Setting::Counts
            | Setting::Until
            | Setting::Allow
            | Setting::Case
            | Setting::Line
            | Setting::At
            | Setting::Args
            | Setting::Length
            | Setting::Table
            | Setting::Memory
            | Setting::Drop
            | Setting::Limit => true,
        }
    }
}
