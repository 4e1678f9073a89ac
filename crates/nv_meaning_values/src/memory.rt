// Accesses to a packet.

ghost use Rattle.std.specs.Prelude.{◌≡◌};
ghost use Rattle.nv_ast.specs.Faults.{can_move as may_move};
ghost use Rattle.nv_meaning_values.specs.Running.{Running, fetch};
ghost use Rattle.nv_meaning_values.specs.inner.Interrupting.{IsValue};

use crate::stop::Interruption;
use crate::value::{Value, value_of_words};
use nv_base::{Access, Mem, Packet};
use std::alloc::Global;

/// Whether an access may have N words.
pub fn can_move(m: Mem, n: usize) -> bool
    ensures { result ≡ may_move m n }
{
    match m {
        Mem::Sram | Mem::Scratch => 1 <= n && n <= 8,
        Mem::Sdram => n == 2 || n == 4 || n == 6 || n == 8,
    }
}

/// Fetches n words from an address.
pub fn fetched<'a>(
    alloc: Global,
    p: &Packet,
    m: Mem,
    n: u32,
    at: u32,
) -> Result<Value<'a>, Interruption<'a>>
    ensures { (now : Running) → now.packet ≡ p.now → IsValue result now (fetch m n at now) }
{
    if !can_move(m, n as usize) {
        return Ok(Value::Word(0));
    }
    let mut words = [0u32; 8];
    let into = &mut words[..n as usize];
    match p.read(m, at as u64, into) {
        Access::Done => Ok(value_of_words(alloc, into)?),
        Access::Bad => Err(Interruption::Fault(m, at)),
    }
}
