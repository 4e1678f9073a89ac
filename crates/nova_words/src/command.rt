//! Which command words are.
ghost use Rattle.std.specs.Prelude.{◌≡◌, ◌≤◌, ◌⊎◌, IfErr, IfOk, IfSome, [], codes};
ghost use Rattle.nova_words.specs.Faults.{HaveFault, IsFaultAt};
ghost use Rattle.nova_words.specs.Limits.{AllowsSome, AsksHelp, FirstIs, HasLimits, HaveNoHelp, IsCalled, IsHelp, MaySave, Saves, name_of};
ghost use Rattle.nova_words.specs.Values.{HasNumbers, IsNotGiven, IsNumberIfGiven, IsNumberOf, IsUntilIfGiven};

use crate::fault::WordFault;
use crate::number::read_number;
use crate::parts::Parts;
use crate::setting::Setting;
use crate::verb::Verb;
use std::alloc::Global;

// The limits and the usual values of numbers.
const MOST_SLOTS: u32 = 128;

const MOST_BUDGET: u32 = 1_000_000;

const USUAL_BUDGET: u32 = 2_000;

const MOST_STORE: u32 = 1_048_576;

const USUAL_STORE: u32 = 2_048;

const MOST_STEPS: u32 = 100_000_000;

const USUAL_STEPS: u32 = 1_000_000;

const MOST_LINE: u32 = 1_000_000;

const MOST_AT: u32 = 65_535;

const MOST_LENGTH: u32 = 7;

/// What `build` is asked for.
#[derive(Clone, Copy)]
pub struct Build<'a> {
    pub source: &'a str,
    /// Where the object is saved, if that is said.
    pub object: Option<&'a str>,
    /// Where the report is saved, if it is.
    pub report: Option<&'a str>,
    /// The text of the weights of labels; without one each weighs 1.
    pub weights: Option<&'a str>,
    pub slots: u32,
    pub budget: u32,
    pub store: u32,
    pub warnings: Warnings<'a>,
}

/// What is done about warnings.
#[derive(Clone, Copy)]
pub struct Warnings<'a> {
    /// Whether one refuses a source.
    pub are_denied: bool,
    /// The names of those that aren't told, with commas between them.
    pub allowed: Option<&'a str>,
}

/// What `run` is asked for.
#[derive(Clone, Copy)]
pub struct Run<'a> {
    /// An object or a source.
    pub program: &'a str,
    /// The memory text.
    pub memory: &'a str,
    pub steps: u32,
    /// The branches of the search for banks of a source, if that is said.
    pub budget: Option<u32>,
    /// Whether it is told how often each label was entered.
    pub has_profile: bool,
    /// Where these numbers are saved, if they are.
    pub counts: Option<&'a str>,
    /// Whether the statements are told that the interpreter comes to, in place of the outcome of the code.
    pub is_traced: bool,
    /// The first of these ends the trace, if one is asked for.
    pub until: Option<Until>,
}

/// What ends a trace.
#[derive(Clone, Copy, PartialEq, Eq)]
pub enum Until {
    Write,
    Raise,
    /// What begins on a line.
    Line(u32),
}

/// What `list` is asked for.
#[derive(Drop)]
pub struct Listing<'a> {
    /// An object or a source.
    pub program: &'a str,
    /// The memory texts on which a source is run, to see where its instructions come from.
    pub memories: Vec<&'a str>,
    /// The branches of the search for banks of a source, if that is said.
    pub budget: Option<u32>,
}

/// What `check` is asked for.
#[derive(Drop)]
pub struct Check<'a> {
    pub sources: Vec<&'a str>,
    /// Whether the sizes of all parts are told.
    pub is_verbose: bool,
    pub warnings: Warnings<'a>,
}

/// What `page` is asked for.
#[derive(Drop)]
pub struct Page<'a> {
    pub source: &'a str,
    /// The memory texts that the code is run on, one after the other.
    pub memories: Vec<&'a str>,
    /// Where the page is saved, if that is said.
    pub output: Option<&'a str>,
    pub steps: u32,
    /// The branches of the search for banks, if that is said.
    pub budget: Option<u32>,
}

/// What `forms` is asked for.
#[derive(Clone, Copy)]
pub struct Forms<'a> {
    pub source: &'a str,
    /// The name of one form, or all are printed.
    pub form: Option<&'a str>,
}

/// What `fmt` is asked for.
#[derive(Drop)]
pub struct Format<'a> {
    pub sources: Vec<&'a str>,
    /// Whether it is only told which sources would change.
    pub is_check: bool,
}

/// What `asm` is asked for.
#[derive(Clone, Copy)]
pub struct Asm<'a> {
    /// The assembly text.
    pub source: &'a str,
    /// Where the object is saved, if that is said.
    pub object: Option<&'a str>,
}

/// What `test` is asked for.
#[derive(Drop)]
pub struct Test<'a> {
    /// Sources, and folders of sources.
    pub paths: Vec<&'a str>,
    /// The steps of code and the calls of the interpreter that each memory text may take.
    pub steps: u32,
    /// The branches of the search for banks of each source, if that is said.
    pub budget: Option<u32>,
    /// The name of the one memory text that is run, without its ending, if it is said.
    pub case: Option<&'a str>,
    /// Whether outcome texts are written anew.
    pub is_updating: bool,
    /// Whether the parts of sources are told that no case reaches.
    pub has_coverage: bool,
    /// Whether the interpreter alone runs.
    pub is_interpreted: bool,
    pub report: TestReport,
}

/// How results of tests are printed.
#[derive(Clone, Copy, PartialEq, Eq)]
pub enum TestReport {
    Lines,
    /// In the form of the Test Anything Protocol.
    Tap,
    /// In that of JUnit.
    Junit,
}

/// What `trace` is asked for.
#[derive(Clone, Copy)]
pub struct Tracing<'a> {
    pub source: &'a str,
    /// The memory text.
    pub memory: &'a str,
    /// The calls of the interpreter.
    pub steps: u32,
    /// The line whose first write ends the trace.
    pub line: Option<u32>,
}

/// What `replay` is asked for.
#[derive(Drop)]
pub struct Replay<'a> {
    /// An object or a source.
    pub program: &'a str,
    /// The capture that is read.
    pub input: &'a str,
    /// The capture that is written.
    pub output: &'a str,
    /// The quadword of SDRAM at which a packet stands.
    pub at: u32,
    /// The arguments of `main`, if they are given.
    pub args: Option<&'a str>,
    /// The argument that is the packet's length, if one is.
    pub length: Option<u32>,
    /// Words of SRAM, each as a place, a colon and a file.
    pub tables: Vec<&'a str>,
    /// The memory text of the memories before the first packet, if there is one.
    pub memory: Option<&'a str>,
    /// Whether a packet that raised is written as it came.
    pub keeps: bool,
    /// The exceptions whose packets aren't.
    pub drops: Vec<&'a str>,
    /// The steps that each packet may take.
    pub steps: u32,
    /// The most packets that are run, if that is said.
    pub limit: Option<u32>,
    /// Whether each packet has a line of JSON.
    pub is_json: bool,
}

/// A command with what its words name.
#[derive(Drop)]
pub enum Command<'a> {
    Build(Build<'a>),
    Run(Run<'a>),
    List(Listing<'a>),
    Check(Check<'a>),
    Test(Test<'a>),
    Trace(Tracing<'a>),
    Page(Page<'a>),
    Forms(Forms<'a>),
    Format(Format<'a>),
    /// Answers an editor.
    Serve,
    Asm(Asm<'a>),
    /// Of a memory text.
    Mem(&'a str),
    Replay(Replay<'a>),
    /// The words that a page is called by.
    Explain(&'a [String]),
    /// Of one command, or of all.
    Help(Option<Verb>),
    Version,
}

/// The command that words are, the program's name left out.
pub fn command_of<'a>(alloc: Global, words: &'a [String]) -> Result<Command<'a>, WordFault<'a>>
    ensures limits { IfOk result HasLimits }
    ensures some { IfOk result AllowsSome }
    ensures called { IfOk result (λ c. FirstIs words.now (λ word. IsCalled word c)) }
    // Only `build`, `run`, `test`, `page`, `fmt` and `asm` save files; `replay` writes its capture piece by piece.
    ensures saves { IfOk result (λ c. Saves c → MaySave words.now) }
    ensures empty { words.now ≡ [] → result ≡ Err WordFault.NoWords }
    ensures help { FirstIs words.now AsksHelp → result ≡ Ok (Command.Help None) }
    ensures version { FirstIs words.now (λ word. word ≡ codes "--version") → result ≡ Ok Command.Version }
    // But for the first word `help`, only a word `--help` or `-h` asks for help.
    ensures asks { HaveNoHelp words.now → IfOk result (λ c. IsHelp c → FirstIs words.now (λ word. AsksHelp word ⊎ (word ≡ codes "help"))) }
    ensures refused { IfErr result (HaveFault words.now) }
{
    match words.first() {
        Some(first) => command_named(alloc, first.as_str(), &words[1..]),
        None => Err(WordFault::NoWords),
    }
}

fn command_named<'a>(
    alloc: Global,
    first: &'a str,
    words: &'a [String],
) -> Result<Command<'a>, WordFault<'a>>
    ensures limits { IfOk result HasLimits }
    ensures some { IfOk result AllowsSome }
    ensures called { IfOk result (IsCalled first.now) }
    ensures help { AsksHelp first.now → result ≡ Ok (Command.Help None) }
    ensures version { first.now ≡ codes "--version" → result ≡ Ok Command.Version }
    ensures asks { HaveNoHelp words.now → IfOk result (λ c. IsHelp c → AsksHelp first.now ⊎ (first.now ≡ codes "help")) }
    ensures refused { IfErr result (IsFaultAt first.now) }
{
    if first == "--help" || first == "-h" {
        return Ok(Command::Help(None));
    }
    if first == "--version" {
        return Ok(Command::Version);
    }
    match Verb::named(first) {
        Some(verb) => command_with(alloc, verb, words),
        None => Err(WordFault::UnknownCommand(first)),
    }
}

// A command with the words after its name.
fn command_with<'a>(
    alloc: Global,
    verb: Verb,
    words: &'a [String],
) -> Result<Command<'a>, WordFault<'a>>
    ensures limits { IfOk result HasLimits }
    ensures some { IfOk result AllowsSome }
    ensures called { IfOk result (IsCalled (name_of verb)) }
    ensures asks { HaveNoHelp words.now → IfOk result (λ c. IsHelp c → verb ≡ Verb.Help) }
    ensures refused { IfErr result (IsFaultAt (name_of verb)) }
{
    let parts = Parts::of(alloc, verb, words)?;
    let command = command_in(alloc, &parts, words);
    drop(parts);
    command
}

fn command_in<'a>(
    alloc: Global,
    parts: &Parts<'a>,
    words: &'a [String],
) -> Result<Command<'a>, WordFault<'a>>
    ensures limits { IfOk result HasLimits }
    ensures some { IfOk result AllowsSome }
    ensures numbers { IfOk result (HasNumbers parts.now.given.items) }
    ensures called { IfOk result (IsCalled (name_of parts.now.verb)) }
    ensures asks { IsNotGiven parts.now.given.items Setting.Help → IfOk result (λ c. IsHelp c → parts.now.verb ≡ Verb.Help) }
    ensures refused { IfErr result (IsFaultAt (name_of parts.now.verb)) }
{
    let verb = parts.verb;
    if parts.value(Setting::Help).is_some() {
        return Ok(Command::Help(Some(verb)));
    }
    match verb {
        Verb::Build => build_in(parts),
        Verb::Run => run_in(parts),
        Verb::List => list_in(alloc, parts),
        Verb::Check => check_in(alloc, parts),
        Verb::Test => test_in(alloc, parts),
        Verb::Trace => trace_in(parts),
        Verb::Page => page_in(alloc, parts),
        Verb::Forms => forms_in(parts),
        Verb::Format => format_in(alloc, parts),
        Verb::Serve => serve_in(parts),
        Verb::Asm => asm_in(parts),
        Verb::Mem => Ok(Command::Mem(only_name(parts, "MEM")?)),
        Verb::Replay => replay_in(alloc, parts),
        Verb::Explain => explain_in(parts, words),
        Verb::Help => help_in(parts),
        Verb::Version => Ok(Command::Version),
    }
}

// The one name, which names this.
fn only_name<'a>(parts: &Parts<'a>, what: &'static str) -> Result<&'a str, WordFault<'a>>
    ensures { IfErr result (IsFaultAt (name_of parts.now.verb)) }
{
    parts.check_names(1)?;
    parts.name(0, what)
}

fn build_in<'a>(parts: &Parts<'a>) -> Result<Command<'a>, WordFault<'a>>
    ensures limits { IfOk result HasLimits }
    ensures some { IfOk result AllowsSome }
    ensures numbers { IfOk result (HasNumbers parts.now.given.items) }
    ensures called { IfOk result (IsCalled (codes "build")) }
    ensures asks { IfOk result (λ c. IsHelp c → ⊥) }
    ensures refused { IfErr result (IsFaultAt (name_of parts.now.verb)) }
{
    let source = only_name(parts, "SRC")?;
    let slots = number_in(parts, Setting::Slots, 0, MOST_SLOTS, MOST_SLOTS)?;
    let budget = number_in(parts, Setting::Budget, 1, MOST_BUDGET, USUAL_BUDGET)?;
    let store = number_in(parts, Setting::Store, 1, MOST_STORE, USUAL_STORE)?;
    Ok(Command::Build(Build {
        source,
        object: parts.value(Setting::Output),
        report: parts.value(Setting::Report),
        weights: parts.value(Setting::Weights),
        slots,
        budget,
        store,
        warnings: warnings_in(parts),
    }))
}

fn warnings_in<'a>(parts: &Parts<'a>) -> Warnings<'a> {
    Warnings {
        are_denied: parts.value(Setting::DenyWarnings).is_some(),
        allowed: parts.value(Setting::Allow),
    }
}

fn list_in<'a>(alloc: Global, parts: &Parts<'a>) -> Result<Command<'a>, WordFault<'a>>
    ensures limits { IfOk result HasLimits }
    ensures some { IfOk result AllowsSome }
    ensures numbers { IfOk result (HasNumbers parts.now.given.items) }
    ensures called { IfOk result (IsCalled (codes "list")) }
    ensures asks { IfOk result (λ c. IsHelp c → ⊥) }
    ensures refused { IfErr result (IsFaultAt (name_of parts.now.verb)) }
{
    let program = parts.name(0, "OBJ or SRC")?;
    let budget = given_number_in(parts, Setting::Budget, 1, MOST_BUDGET)?;
    let memories = names_after(alloc, parts)?;
    Ok(Command::List(Listing {
        program,
        memories,
        budget,
    }))
}

fn run_in<'a>(parts: &Parts<'a>) -> Result<Command<'a>, WordFault<'a>>
    ensures limits { IfOk result HasLimits }
    ensures some { IfOk result AllowsSome }
    ensures numbers { IfOk result (HasNumbers parts.now.given.items) }
    ensures called { IfOk result (IsCalled (codes "run")) }
    ensures asks { IfOk result (λ c. IsHelp c → ⊥) }
    ensures refused { IfErr result (IsFaultAt (name_of parts.now.verb)) }
{
    parts.check_names(2)?;
    let program = parts.name(0, "OBJ or SRC")?;
    let memory = parts.name(1, "MEM")?;
    let steps = number_in(parts, Setting::Steps, 1, MOST_STEPS, USUAL_STEPS)?;
    let budget = given_number_in(parts, Setting::Budget, 1, MOST_BUDGET)?;
    let until = until_in(parts)?;
    Ok(Command::Run(Run {
        program,
        memory,
        steps,
        budget,
        has_profile: parts.value(Setting::Profile).is_some(),
        counts: parts.value(Setting::Counts),
        is_traced: until.is_some() || parts.value(Setting::Trace).is_some(),
        until,
    }))
}

// What ends a trace, if the words give the option.
fn until_in<'a>(parts: &Parts<'a>) -> Result<Option<Until>, WordFault<'a>>
    ensures given { IfOk result (IsUntilIfGiven parts.now.given.items) }
    ensures refused { IfErr result (IsFaultAt (name_of parts.now.verb)) }
{
    match parts.value(Setting::Until) {
        Some("write") => Ok(Some(Until::Write)),
        Some("raise") => Ok(Some(Until::Raise)),
        _ => match given_number_in(parts, Setting::Until, 1, MOST_LINE)? {
            Some(line) => Ok(Some(Until::Line(line))),
            None => Ok(None),
        },
    }
}

fn check_in<'a>(alloc: Global, parts: &Parts<'a>) -> Result<Command<'a>, WordFault<'a>>
    ensures limits { IfOk result HasLimits }
    ensures some { IfOk result AllowsSome }
    ensures numbers { IfOk result (HasNumbers parts.now.given.items) }
    ensures called { IfOk result (IsCalled (codes "check")) }
    ensures asks { IfOk result (λ c. IsHelp c → ⊥) }
    ensures refused { IfErr result (IsFaultAt (name_of parts.now.verb)) }
{
    let sources = names_in(alloc, parts, "SRC")?;
    Ok(Command::Check(Check {
        sources,
        is_verbose: parts.value(Setting::Verbose).is_some(),
        warnings: warnings_in(parts),
    }))
}

fn format_in<'a>(alloc: Global, parts: &Parts<'a>) -> Result<Command<'a>, WordFault<'a>>
    ensures limits { IfOk result HasLimits }
    ensures some { IfOk result AllowsSome }
    ensures numbers { IfOk result (HasNumbers parts.now.given.items) }
    ensures called { IfOk result (IsCalled (codes "fmt")) }
    ensures asks { IfOk result (λ c. IsHelp c → ⊥) }
    ensures refused { IfErr result (IsFaultAt (name_of parts.now.verb)) }
{
    let sources = names_in(alloc, parts, "SRC")?;
    Ok(Command::Format(Format {
        sources,
        is_check: parts.value(Setting::Check).is_some(),
    }))
}

fn serve_in<'a>(parts: &Parts<'a>) -> Result<Command<'a>, WordFault<'a>>
    ensures limits { IfOk result HasLimits }
    ensures some { IfOk result AllowsSome }
    ensures numbers { IfOk result (HasNumbers parts.now.given.items) }
    ensures called { IfOk result (IsCalled (codes "lsp")) }
    ensures asks { IfOk result (λ c. IsHelp c → ⊥) }
    ensures refused { IfErr result (IsFaultAt (name_of parts.now.verb)) }
{
    parts.check_names(0)?;
    Ok(Command::Serve)
}

fn page_in<'a>(alloc: Global, parts: &Parts<'a>) -> Result<Command<'a>, WordFault<'a>>
    ensures limits { IfOk result HasLimits }
    ensures some { IfOk result AllowsSome }
    ensures numbers { IfOk result (HasNumbers parts.now.given.items) }
    ensures called { IfOk result (IsCalled (codes "page")) }
    ensures asks { IfOk result (λ c. IsHelp c → ⊥) }
    ensures refused { IfErr result (IsFaultAt (name_of parts.now.verb)) }
{
    let source = parts.name(0, "SRC")?;
    let steps = number_in(parts, Setting::Steps, 1, MOST_STEPS, USUAL_STEPS)?;
    let budget = given_number_in(parts, Setting::Budget, 1, MOST_BUDGET)?;
    let memories = names_after(alloc, parts)?;
    Ok(Command::Page(Page {
        source,
        memories,
        output: parts.value(Setting::Output),
        steps,
        budget,
    }))
}

fn replay_in<'a>(alloc: Global, parts: &Parts<'a>) -> Result<Command<'a>, WordFault<'a>>
    ensures limits { IfOk result HasLimits }
    ensures some { IfOk result AllowsSome }
    ensures numbers { IfOk result (HasNumbers parts.now.given.items) }
    ensures called { IfOk result (IsCalled (codes "replay")) }
    ensures asks { IfOk result (λ c. IsHelp c → ⊥) }
    ensures refused { IfErr result (IsFaultAt (name_of parts.now.verb)) }
{
    parts.check_names(3)?;
    let program = parts.name(0, "OBJ or SRC")?;
    let input = parts.name(1, "IN")?;
    let output = parts.name(2, "OUT")?;
    let at = number_in(parts, Setting::At, 0, MOST_AT, 0)?;
    let steps = number_in(parts, Setting::Steps, 1, MOST_STEPS, USUAL_STEPS)?;
    let length = given_number_in(parts, Setting::Length, 0, MOST_LENGTH)?;
    let limit = given_number_in(parts, Setting::Limit, 1, u32::MAX)?;
    let tables = parts.values(alloc, Setting::Table)?;
    let drops = parts.values(alloc, Setting::Drop)?;
    Ok(Command::Replay(Replay {
        program,
        input,
        output,
        at,
        args: parts.value(Setting::Args),
        length,
        tables,
        memory: parts.value(Setting::Memory),
        keeps: parts.value(Setting::Keep).is_some(),
        drops,
        steps,
        limit,
        is_json: parts.value(Setting::Json).is_some(),
    }))
}

fn forms_in<'a>(parts: &Parts<'a>) -> Result<Command<'a>, WordFault<'a>>
    ensures limits { IfOk result HasLimits }
    ensures some { IfOk result AllowsSome }
    ensures numbers { IfOk result (HasNumbers parts.now.given.items) }
    ensures called { IfOk result (IsCalled (codes "forms")) }
    ensures asks { IfOk result (λ c. IsHelp c → ⊥) }
    ensures refused { IfErr result (IsFaultAt (name_of parts.now.verb)) }
{
    parts.check_names(2)?;
    let source = parts.name(0, "SRC")?;
    let form = match parts.names.get(1) {
        Some(name) => Some(*name),
        None => None,
    };
    Ok(Command::Forms(Forms { source, form }))
}

fn asm_in<'a>(parts: &Parts<'a>) -> Result<Command<'a>, WordFault<'a>>
    ensures limits { IfOk result HasLimits }
    ensures some { IfOk result AllowsSome }
    ensures numbers { IfOk result (HasNumbers parts.now.given.items) }
    ensures called { IfOk result (IsCalled (codes "asm")) }
    ensures asks { IfOk result (λ c. IsHelp c → ⊥) }
    ensures refused { IfErr result (IsFaultAt (name_of parts.now.verb)) }
{
    let source = only_name(parts, "TEXT")?;
    Ok(Command::Asm(Asm {
        source,
        object: parts.value(Setting::Output),
    }))
}

fn test_in<'a>(alloc: Global, parts: &Parts<'a>) -> Result<Command<'a>, WordFault<'a>>
    ensures limits { IfOk result HasLimits }
    ensures some { IfOk result AllowsSome }
    ensures numbers { IfOk result (HasNumbers parts.now.given.items) }
    ensures called { IfOk result (IsCalled (codes "test")) }
    ensures asks { IfOk result (λ c. IsHelp c → ⊥) }
    ensures refused { IfErr result (IsFaultAt (name_of parts.now.verb)) }
{
    let steps = number_in(parts, Setting::Steps, 1, MOST_STEPS, USUAL_STEPS)?;
    let budget = given_number_in(parts, Setting::Budget, 1, MOST_BUDGET)?;
    let paths = names_in(alloc, parts, "SRC or FOLDER")?;
    Ok(Command::Test(Test {
        paths,
        steps,
        budget,
        case: parts.value(Setting::Case),
        is_updating: parts.value(Setting::Update).is_some(),
        has_coverage: parts.value(Setting::Coverage).is_some(),
        is_interpreted: parts.value(Setting::Interpret).is_some(),
        report: report_in(parts),
    }))
}

fn report_in<'a>(parts: &Parts<'a>) -> TestReport {
    if parts.value(Setting::Junit).is_some() {
        TestReport::Junit
    } else if parts.value(Setting::Tap).is_some() {
        TestReport::Tap
    } else {
        TestReport::Lines
    }
}

fn trace_in<'a>(parts: &Parts<'a>) -> Result<Command<'a>, WordFault<'a>>
    ensures limits { IfOk result HasLimits }
    ensures some { IfOk result AllowsSome }
    ensures numbers { IfOk result (HasNumbers parts.now.given.items) }
    ensures called { IfOk result (IsCalled (codes "trace")) }
    ensures asks { IfOk result (λ c. IsHelp c → ⊥) }
    ensures refused { IfErr result (IsFaultAt (name_of parts.now.verb)) }
{
    parts.check_names(2)?;
    let source = parts.name(0, "SRC")?;
    let memory = parts.name(1, "MEM")?;
    let steps = number_in(parts, Setting::Steps, 1, MOST_STEPS, USUAL_STEPS)?;
    let line = given_number_in(parts, Setting::Line, 1, MOST_LINE)?;
    Ok(Command::Trace(Tracing {
        source,
        memory,
        steps,
        line,
    }))
}

// All names, of which there is one at least, each of which names this.
fn names_in<'a>(
    alloc: Global,
    parts: &Parts<'a>,
    what: &'static str,
) -> Result<Vec<&'a str>, WordFault<'a>>
    ensures { IfErr result (IsFaultAt (name_of parts.now.verb)) }
{
    let _ = parts.name(0, what)?;
    let mut names = Vec::new(alloc);
    for name in parts.names.iter() {
        names.push(*name)?;
    }
    Ok(names)
}

// All names but the first.
fn names_after<'a>(alloc: Global, parts: &Parts<'a>) -> Result<Vec<&'a str>, WordFault<'a>>
    ensures { IfErr result (IsFaultAt (name_of parts.now.verb)) }
{
    let mut names = Vec::new(alloc);
    let mut is_first = true;
    for name in parts.names.iter() {
        if !is_first {
            names.push(*name)?;
        }
        is_first = false;
    }
    Ok(names)
}

fn explain_in<'a>(parts: &Parts<'a>, words: &'a [String]) -> Result<Command<'a>, WordFault<'a>>
    ensures limits { IfOk result HasLimits }
    ensures some { IfOk result AllowsSome }
    ensures numbers { IfOk result (HasNumbers parts.now.given.items) }
    ensures called { IfOk result (IsCalled (codes "explain")) }
    ensures asks { IfOk result (λ c. IsHelp c → ⊥) }
    ensures refused { IfErr result (IsFaultAt (name_of parts.now.verb)) }
{
    let _ = parts.name(0, "CODE")?;
    Ok(Command::Explain(words))
}

fn help_in<'a>(parts: &Parts<'a>) -> Result<Command<'a>, WordFault<'a>>
    requires { parts.now.verb ≡ Verb.Help }
    ensures limits { IfOk result HasLimits }
    ensures some { IfOk result AllowsSome }
    ensures numbers { IfOk result (HasNumbers parts.now.given.items) }
    ensures called { IfOk result (IsCalled (codes "help")) }
    ensures refused { IfErr result (IsFaultAt (name_of parts.now.verb)) }
{
    parts.check_names(1)?;
    match parts.names.first() {
        None => Ok(Command::Help(None)),
        Some(name) => match Verb::named(*name) {
            Some(verb) => Ok(Command::Help(Some(verb))),
            None => Err(WordFault::UnknownCommand(*name)),
        },
    }
}

// The number of an option, or the usual one where the words don't give the option.
fn number_in<'a>(
    parts: &Parts<'a>,
    setting: Setting,
    least: u32,
    most: u32,
    usual: u32,
) -> Result<u32, WordFault<'a>>
    requires least { least ≤ usual }
    requires most { usual ≤ most }
    ensures least { IfOk result (λ n. least ≤ n) }
    ensures most { IfOk result (λ n. n ≤ most) }
    ensures given { IfOk result (IsNumberOf parts.now.given.items setting usual) }
    ensures refused { IfErr result (IsFaultAt (name_of parts.now.verb)) }
{
    match given_number_in(parts, setting, least, most)? {
        Some(n) => Ok(n),
        None => Ok(usual),
    }
}

// The number of an option, if the words give the option.
fn given_number_in<'a>(
    parts: &Parts<'a>,
    setting: Setting,
    least: u32,
    most: u32,
) -> Result<Option<u32>, WordFault<'a>>
    ensures least { IfOk result (λ o. IfSome o (λ n. least ≤ n)) }
    ensures most { IfOk result (λ o. IfSome o (λ n. n ≤ most)) }
    ensures given { IfOk result (IsNumberIfGiven parts.now.given.items setting) }
    ensures refused { IfErr result (IsFaultAt (name_of parts.now.verb)) }
{
    let Some(value) = parts.value(setting) else {
        return Ok(None);
    };
    match read_number(value, least, most) {
        Some(n) => Ok(Some(n)),
        None => Err(WordFault::BadNumber(parts.verb, setting, value, least, most)),
    }
}
