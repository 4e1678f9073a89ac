// The calls in progress.

ghost use Rattle.std.specs.Prelude.{◌≡◌, ◌<◌, ◌-◌, List, IfOk, OnOk, OnErr, map, set, length};
ghost use Rattle.nv_meaning_values.specs.Running.{InCall, innermost, is_own, called};
ghost use Rattle.nv_meaning_values.specs.Callers.{call_of, calls_of, maybe_call, IsMark, LieAbove};

use nv_ast::{Name, Span};
use nv_base::NoMemory;
use std::alloc::Global;

/// A call in progress: the function's name, and the number of its group.
#[derive(Clone, Copy)]
pub struct Caller<'a> {
    pub name: &'a Name,
    pub group: u32,
}

/// How many calls were in progress, and the innermost of them; and for people how many calls a trace counted, and where the
/// text was evaluated.
#[derive(Clone, Copy)]
pub struct Mark<'a> {
    pub depth: usize,
    pub innermost: Option<Caller<'a>>,
    pub level: u32,
    pub here: Span,
}

// The innermost call.
fn last<'a>(callers: &[Caller<'a>]) -> Option<Caller<'a>>
    ensures { maybe_call result ≡ innermost (calls_of callers.now) }
{
    if callers.is_empty() {
        None
    } else {
        Some(callers[callers.len() - 1])
    }
}

/// The calls in progress, to come back to, at this level and this place of the text.
pub fn marked<'a>(callers: &[Caller<'a>], level: u32, here: Span) -> Mark<'a>
    ensures { IsMark result (calls_of callers.now) }
{
    Mark {
        depth: callers.len(),
        innermost: last(callers),
        level,
        here,
    }
}

/// Adds a call, in the innermost one's place where it is of the same group.
pub fn enter<'a>(callers: &mut Vec<Caller<'a>>, f: Caller<'a>) -> Result<(), NoMemory>
    ensures called { OnOk result (calls_of callers.new.items ≡ called (calls_of callers.old.items) (call_of f.entry)) }
    ensures same { OnErr result (callers.new.items ≡ callers.old.items) }
{
    if has_group(last(callers), f.group) {
        put_last(callers, f);
    } else {
        callers.push(f)?;
    }
    Ok(())
}

fn has_group(f: Option<Caller>, group: u32) -> bool
    ensures { result ≡ is_own (maybe_call f.entry) group }
{
    match f {
        Some(f) => f.group == group,
        None => false,
    }
}

/// Leaves the calls that were added since the mark.
pub fn leave<'a>(callers: &mut Vec<Caller<'a>>, mark: Mark<'a>)
    ensures { (fs : List InCall) → IsMark mark.entry fs → LieAbove fs (calls_of callers.old.items) → calls_of callers.new.items ≡ fs }
{
    callers.truncate(mark.depth);
    match mark.innermost {
        Some(f) => put_last(callers, f),
        None => {}
    }
}

// Puts a call in the innermost one's place.
fn put_last<'a>(callers: &mut Vec<Caller<'a>>, f: Caller<'a>)
    ensures { 0 < length callers.old.items → callers.new.items ≡ set callers.old.items (length callers.old.items - 1) f.entry }
{
    let depth = callers.len();
    if depth > 0 {
        callers[depth - 1] = f;
    }
}

/// The names of the functions that are called, the outermost first.
pub fn names(alloc: Global, callers: &[Caller]) -> Result<Vec<Name>, NoMemory>
    ensures { IfOk result (λ names. names.items ≡ map (λ f. f.0) (calls_of callers.now)) }
{
    let mut names = Vec::with_capacity(alloc, callers.len())?;
    for f in callers {
        names.push(f.name.clone()?)?;
    }
    Ok(names)
}
