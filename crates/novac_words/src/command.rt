//! The words of a command line.
ghost use Rattle.std.specs.Prelude.{◌≡◌, ◌≤◌, [], None, Some, IfSome, IfNone};
ghost use Rattle.novac_words.specs.Command.{command_of, command_of_two, command_of_three, command_of_four, command_of_more, compile_of, counts_of, options_of, weights_of, taken, gen_of, trace_line, trace_of, number_in, option_of, texts, texts_of};
ghost use Rattle.novac_words.specs.Command.{are_names as names_differ, are_three_names as three_names_differ, is_another as fourth_differs, name_after as named_after};
ghost use Rattle.novac_words.specs.inner.Words.{command_as, name_as, options_as, AreInLimits, HasLimits};

use crate::limits::{DEFAULT_BUDGET, DEFAULT_STORE, MOST_BUDGET, MOST_SLOTS, MOST_STORE};
use nv_lines::read_decimal;

/// The most steps, or calls, of a run.
const MOST_STEPS: u64 = 100_000_000;

/// The greatest seed.
const MOST_SEED: u64 = 4_294_967_295;

/// The greatest line of a source up to which a trace can be asked for.
const MOST_LINE: u64 = 1_000_000;

/// The most lines of a made source.
const MOST_LINES: u64 = 500;

/// How a source is compiled: with N slots, in a search of so many branches, to code of so many instructions.
#[derive(Clone, Copy)]
pub struct Options {
    pub slots: u32,
    pub budget: u32,
    pub store: u32,
}

/// How far a source and a code are traced: the number of steps of the code, that of calls of the source, and the line of the
/// source with whose first write the text ends, where one is given.
#[derive(Clone, Copy)]
pub struct Tracing {
    pub steps: u64,
    pub calls: u64,
    pub line: Option<u32>,
}

/// A command with what its words name.
#[derive(Clone, Copy)]
pub enum Command<'a> {
    /// Source, object, report, options, and the text of weights, where one is named.
    Compile(&'a str, &'a str, &'a str, Options, Option<&'a str>),
    /// Object, memory text, number of steps.
    Run(&'a str, &'a str, u64),
    /// Source, memory text, number of calls.
    Exec(&'a str, &'a str, u64),
    /// Assembly text, object.
    Asm(&'a str, &'a str),
    /// Object.
    Dis(&'a str),
    /// Object.
    Lint(&'a str),
    /// Report.
    Check(&'a str),
    /// Seed, size.
    Gen(u32, u32),
    /// Object, memory text, schedule.
    Contexts(&'a str, &'a str, &'a str),
    /// Object, the object that is saved.
    Peep(&'a str, &'a str),
    /// Source, object, memory text, and how far both run.
    Trace(&'a str, &'a str, &'a str, Tracing),
    /// Source, memory text, the text of counts that is saved, number of jumps.
    Counts(&'a str, &'a str, &'a str, u64),
}

impl<'a> Command<'a> {
    /// The command that the words are.
    pub fn of(words: &'a Vec<String>) -> Option<Command<'a>>
        ensures some { IfSome result (λ c. command_of (texts_of words.now) ≡ Some (command_as c)) }
        ensures none { IfNone result (command_of (texts_of words.now) ≡ None) }
        ensures limits { IfSome result HasLimits }
    {
        match words.len() {
            0 | 1 => None,
            2 => of_two(words[0].as_str(), words[1].as_str()),
            3 => of_three(words[0].as_str(), words[1].as_str(), words[2].as_str()),
            _ => of_more(
                words[0].as_str(),
                words[1].as_str(),
                words[2].as_str(),
                words[3].as_str(),
                &words[4..],
            ),
        }
    }
}

// `dis OBJ`, `lint OBJ` and `check REPORT`.
fn of_two<'a>(verb: &'a str, name: &'a str) -> Option<Command<'a>>
    ensures some { IfSome result (λ c. command_of_two verb.now name.now ≡ Some (command_as c)) }
    ensures none { IfNone result (command_of_two verb.now name.now ≡ None) }
    ensures limits { IfSome result HasLimits }
{
    if name.is_empty() {
        None
    } else if verb == "dis" {
        Some(Command::Dis(name))
    } else if verb == "lint" {
        Some(Command::Lint(name))
    } else if verb == "check" {
        Some(Command::Check(name))
    } else {
        None
    }
}

// `gen SEED SIZE`, `asm TEXT OBJ` and `peep OBJ OUT`.
fn of_three<'a>(verb: &'a str, input: &'a str, object: &'a str) -> Option<Command<'a>>
    ensures some { IfSome result (λ c. command_of_three verb.now input.now object.now ≡ Some (command_as c)) }
    ensures none { IfNone result (command_of_three verb.now input.now object.now ≡ None) }
    ensures limits { IfSome result HasLimits }
{
    if verb == "gen" {
        of_gen(input, object)
    } else if verb == "asm" && are_names(input, object) {
        Some(Command::Asm(input, object))
    } else if verb == "peep" && are_names(input, object) {
        Some(Command::Peep(input, object))
    } else {
        None
    }
}

// `gen SEED SIZE`.
fn of_gen<'a>(seed: &str, size: &str) -> Option<Command<'a>>
    ensures some { IfSome result (λ c. gen_of seed.now size.now ≡ Some (command_as c)) }
    ensures none { IfNone result (gen_of seed.now size.now ≡ None) }
    ensures limits { IfSome result HasLimits }
{
    let seed = number_in(seed, 0, MOST_SEED)?;
    let size = number_in(size, 1, MOST_LINES)?;
    Some(Command::Gen(seed as u32, size as u32))
}

// The number from `least` to `most` of which the word is the spelling.
fn number_in(word: &str, least: u64, most: u64) -> Option<u64>
    ensures some { IfSome result (λ n. number_in least most word.now ≡ Some n) }
    ensures none { IfNone result (number_in least most word.now ≡ None) }
    ensures least { IfSome result (λ n. least ≤ n) }
    ensures most { IfSome result (λ n. n ≤ most) }
{
    let n = read_decimal(word.as_bytes(), most)?;
    if n < least { None } else { Some(n) }
}

// Whether neither file name is empty, and the two differ.
fn are_names(a: &str, b: &str) -> bool
    ensures { result ≡ names_differ a.now b.now }
{
    !a.is_empty() && !b.is_empty() && a != b
}

// Whether no file name is empty, and the three differ.
fn are_three_names(a: &str, b: &str, c: &str) -> bool
    ensures { result ≡ three_names_differ a.now b.now c.now }
{
    are_names(a, b) && are_names(a, c) && are_names(b, c)
}

// A command of four words or more, `words` being those after the fourth.
fn of_more<'a>(
    verb: &'a str,
    first: &'a str,
    second: &'a str,
    third: &'a str,
    words: &'a [String],
) -> Option<Command<'a>>
    ensures some { IfSome result (λ c. command_of_more verb.now first.now second.now third.now (texts words.now) ≡ Some (command_as c)) }
    ensures none { IfNone result (command_of_more verb.now first.now second.now third.now (texts words.now) ≡ None) }
    ensures limits { IfSome result HasLimits }
{
    if verb == "compile" {
        of_compile(first, second, third, words)
    } else if verb == "counts" {
        of_counts(first, second, third, words)
    } else if verb == "trace" {
        of_trace(first, second, third, words)
    } else if words.is_empty() {
        of_four(verb, first, second, third)
    } else {
        None
    }
}

// `run OBJ MEM steps=N`, `exec SRC MEM steps=N` and `contexts OBJ MEM SCHEDULE`.
fn of_four<'a>(
    verb: &'a str,
    first: &'a str,
    second: &'a str,
    third: &'a str,
) -> Option<Command<'a>>
    ensures some { IfSome result (λ c. command_of_four verb.now first.now second.now third.now [] ≡ Some (command_as c)) }
    ensures none { IfNone result (command_of_four verb.now first.now second.now third.now [] ≡ None) }
    ensures limits { IfSome result HasLimits }
{
    if verb == "run" && are_names(first, second) {
        match option_in(third, "steps=", 1, MOST_STEPS) {
            Some(n) => Some(Command::Run(first, second, n)),
            None => None,
        }
    } else if verb == "exec" && are_names(first, second) {
        match option_in(third, "steps=", 1, MOST_STEPS) {
            Some(n) => Some(Command::Exec(first, second, n)),
            None => None,
        }
    } else if verb == "contexts" && are_three_names(first, second, third) {
        Some(Command::Contexts(first, second, third))
    } else {
        None
    }
}

// `counts SRC MEM FILE steps=N`.
fn of_counts<'a>(
    source: &'a str,
    memory: &'a str,
    output: &'a str,
    words: &'a [String],
) -> Option<Command<'a>>
    ensures some { IfSome result (λ c. counts_of source.now memory.now output.now (texts words.now) ≡ Some (command_as c)) }
    ensures none { IfNone result (counts_of source.now memory.now output.now (texts words.now) ≡ None) }
    ensures limits { IfSome result HasLimits }
{
    let [steps] = words else {
        return None;
    };
    if !are_three_names(source, memory, output) {
        return None;
    }
    match option_in(steps.as_str(), "steps=", 1, MOST_STEPS) {
        Some(n) => Some(Command::Counts(source, memory, output, n)),
        None => None,
    }
}

// `trace SRC OBJ MEM steps=N calls=N`, and `line=N`, which may be absent.
fn of_trace<'a>(
    source: &'a str,
    object: &'a str,
    memory: &'a str,
    words: &'a [String],
) -> Option<Command<'a>>
    ensures some { IfSome result (λ c. trace_of source.now object.now memory.now (texts words.now) ≡ Some (command_as c)) }
    ensures none { IfNone result (trace_of source.now object.now memory.now (texts words.now) ≡ None) }
    ensures limits { IfSome result HasLimits }
{
    let [steps, calls, line @ ..] = words else {
        return None;
    };
    if !are_three_names(source, object, memory) {
        return None;
    }
    let steps = option_in(steps.as_str(), "steps=", 1, MOST_STEPS)?;
    let calls = option_in(calls.as_str(), "calls=", 1, MOST_STEPS)?;
    let line = line_in(line)?;
    Some(Command::Trace(source, object, memory, Tracing { steps, calls, line }))
}

// `line=N`, which may be absent, and no other word.
fn line_in(words: &[String]) -> Option<Option<u32>>
    ensures some { IfSome result (λ line. trace_line (texts words.now) ≡ Some line) }
    ensures none { IfNone result (trace_line (texts words.now) ≡ None) }
{
    match words {
        [] => Some(None),
        [word] => match option_in(word.as_str(), "line=", 1, MOST_LINE) {
            Some(n) => Some(Some(n as u32)),
            None => None,
        },
        _ => None,
    }
}

// `compile SRC OBJ REPORT` and options.
fn of_compile<'a>(
    source: &'a str,
    object: &'a str,
    report: &'a str,
    words: &'a [String],
) -> Option<Command<'a>>
    ensures some { IfSome result (λ c. compile_of source.now object.now report.now (texts words.now) ≡ Some (command_as c)) }
    ensures none { IfNone result (compile_of source.now object.now report.now (texts words.now) ≡ None) }
    ensures limits { IfSome result HasLimits }
{
    if !are_three_names(source, object, report) {
        return None;
    }
    let (options, weights) = options_in(words)?;
    if is_another(source, object, report, weights) {
        Some(Command::Compile(source, object, report, options, weights))
    } else {
        None
    }
}

// Whether a fourth file, where there is one, has another name than these three.
fn is_another(a: &str, b: &str, c: &str, fourth: Option<&str>) -> bool
    ensures { result ≡ fourth_differs a.now b.now c.now (name_as fourth.entry) }
{
    match fourth {
        Some(d) => are_names(a, d) && are_names(b, d) && are_names(c, d),
        None => true,
    }
}

// `slots=N`, `budget=N`, `store=N` and `weights=FILE`, each of which may be absent, and no other word.
fn options_in<'a>(words: &'a [String]) -> Option<(Options, Option<&'a str>)>
    ensures some { IfSome result (λ o. options_of (texts words.now) ≡ Some (options_as o.0 o.1)) }
    ensures none { IfNone result (options_of (texts words.now) ≡ None) }
    ensures limits { IfSome result (λ o. AreInLimits o.0) }
{
    let most = MOST_SLOTS as u64;
    let (slots, words) = taken_from(words, "slots=", 0, most, most);
    let (budget, words) = taken_from(
        words,
        "budget=",
        1,
        MOST_BUDGET as u64,
        DEFAULT_BUDGET as u64,
    );
    let (store, words) = taken_from(words, "store=", 1, MOST_STORE as u64, DEFAULT_STORE as u64);
    let weights = weights_in(words)?;
    let options = Options {
        slots: slots as u32,
        budget: budget as u32,
        store: store as u32,
    };
    Some((options, weights))
}

// `weights=FILE`, which may be absent, and no other word.
fn weights_in<'a>(words: &'a [String]) -> Option<Option<&'a str>>
    ensures some { IfSome result (λ name. weights_of (texts words.now) ≡ Some (name_as name)) }
    ensures none { IfNone result (weights_of (texts words.now) ≡ None) }
{
    match words {
        [] => Some(None),
        [word] => match name_after(word.as_str(), "weights=") {
            Some(name) => Some(Some(name)),
            None => None,
        },
        _ => None,
    }
}

// The file name that the word has after a key.
fn name_after<'a>(word: &'a str, key: &str) -> Option<&'a str>
    ensures some { IfSome result (λ name. named_after key.now word.now ≡ Some name.now) }
    ensures none { IfNone result (named_after key.now word.now ≡ None) }
{
    let name = word.strip_prefix(key)?;
    if name.is_empty() { None } else { Some(name) }
}

// The number that the first word spells after a key, and the words after it; where it spells none, the other number and
// all words.
fn taken_from<'a>(
    words: &'a [String],
    key: &str,
    least: u64,
    most: u64,
    other: u64,
) -> (u64, &'a [String])
    requires least { least ≤ other }
    requires most { other ≤ most }
    ensures number { result.0 ≡ (taken key.now least most other (texts words.now)).0 }
    ensures words { texts result.1.now ≡ (taken key.now least most other (texts words.now)).1 }
    ensures least { least ≤ result.0 }
    ensures most { result.0 ≤ most }
{
    if words.is_empty() {
        return (other, words);
    }
    match option_in(words[0].as_str(), key, least, most) {
        Some(n) => (n, &words[1..]),
        None => (other, words),
    }
}

// The number of a range that the word spells after a key.
fn option_in(word: &str, key: &str, least: u64, most: u64) -> Option<u64>
    ensures some { IfSome result (λ n. option_of key.now least most word.now ≡ Some n) }
    ensures none { IfNone result (option_of key.now least most word.now ≡ None) }
    ensures least { IfSome result (λ n. least ≤ n) }
    ensures most { IfSome result (λ n. n ≤ most) }
{
    let spelling = word.strip_prefix(key)?;
    let n = read_decimal(spelling.as_bytes(), most)?;
    if n < least { None } else { Some(n) }
}
