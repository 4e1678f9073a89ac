// Stores to a packet.

ghost use Rattle.std.specs.Prelude.{◌≡◌, ℕ, length, true};
ghost use Rattle.nv_ast.specs.Faults.{can_move as may_move};
ghost use Rattle.nv_meaning_values.specs.Values.{Scope, words_of};
ghost use Rattle.nv_meaning_values.specs.Running.{store};
ghost use Rattle.nv_meaning_values.specs.inner.View.{view};
ghost use Rattle.nv_meaning.specs.Meaning.{Declared};
ghost use Rattle.nv_meaning.specs.inner.Ran.{at as moment, RanScope};

use crate::parts::words_in;
use nv_ast::Span;
use nv_base::{Access, Mem, Packet, Words, Write};
use nv_meaning_values::{Interruption, Notes, Value, can_move};
use std::alloc::Global;

/// Stores the words of a value from an address on, and notes the write.
pub fn stored<'a>(
    alloc: Global,
    p: &mut Packet,
    log: &mut Notes<'a>,
    span: Span,
    m: Mem,
    at: u32,
    v: Value<'a>,
) -> Result<(), Interruption<'a>>
    ensures { (d : Declared) (left : ℕ) (scope : Scope) → RanScope d (moment left p.old log.old) (moment left p.new log.new) result scope (λ call now. store span scope m at (words_of (view v.entry)) now) }
{
    let words = words_in(alloc, &v)?;
    if !can_move(m, words.len()) {
        return Ok(());
    }
    write(alloc, p, log, span, m, at, &words)
}

fn write<'a>(
    alloc: Global,
    p: &mut Packet,
    log: &mut Notes<'a>,
    span: Span,
    m: Mem,
    at: u32,
    words: &[u32],
) -> Result<(), Interruption<'a>>
    requires { may_move m (length words.now) ≡ true }
    ensures { (d : Declared) (left : ℕ) (scope : Scope) → RanScope d (moment left p.old log.old) (moment left p.new log.new) result scope (λ call now. store span scope m at words.now now) }
{
    let w = Write {
        mem: m,
        at,
        words: Words::of(words),
    };
    match log.store(alloc, p, span, w)? {
        Access::Done => Ok(()),
        Access::Bad => Err(Interruption::Fault(m, at)),
    }
}
