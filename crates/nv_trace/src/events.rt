// The events of a trace as a text, for a script.

ghost use Rattle.std.specs.Prelude.{◌≤◌};

use nv_base::Mem;
use nv_lines::Message;
use nv_meaning_values::{Event, Trace};

// A sum by which two lists of accesses are told apart: each number is mixed into it, and it is multiplied.
const BASIS: u32 = 2_166_136_261;

const FACTOR: u32 = 16_777_619;

/// Appends the events of a trace: `c` with the place of a function that is called, `b` with the level that it comes back to, `f` and
/// `s` with the first byte of a fetch or a store in the text. A line follows with where the text is evaluated in the function in
/// progress, where the last expression was begun, and the sum of all accesses.
pub fn push_events(out: &mut Message, trace: &Trace) {
    let mut sum = BASIS;
    let events = trace.events();
    for event in events.list() {
        push_event(out, *event);
        sum = summed(sum, *event);
    }
    out.line("");
    out.number(u64::from(events.here().first));
    out.put(" ");
    out.number(u64::from(events.last().first));
    out.put(" ");
    out.number(u64::from(sum));
    out.line("")
}

fn push_event(out: &mut Message, event: Event) {
    match event {
        Event::Call(place) => {
            out.put("c");
            out.number(u64::from(place))
        }
        Event::Back(level) => {
            out.put("b");
            out.number(u64::from(level))
        }
        Event::Fetch(span, _, _, _) => {
            out.put("f");
            out.number(u64::from(span.first))
        }
        Event::Store(span, _) => {
            out.put("s");
            out.number(u64::from(span.first))
        }
        Event::Bound(_) | Event::Raised(_) => {}
    }
}

// The sum with an access: its kind and its memory, its address, and how many words it has.
fn summed(sum: u32, event: Event) -> u32 {
    match event {
        Event::Call(_) | Event::Back(_) | Event::Bound(_) | Event::Raised(_) => sum,
        Event::Fetch(_, mem, at, count) => mixed(mixed(mixed(sum, code_of(mem)), at), count),
        Event::Store(_, write) => {
            let count = write.words.list().len() as u32;
            mixed(mixed(mixed(sum, 3 + code_of(write.mem)), write.at), count)
        }
    }
}

fn mixed(sum: u32, n: u32) -> u32 {
    (sum ^ n).wrapping_mul(FACTOR)
}

fn code_of(mem: Mem) -> u32
    ensures { result ≤ 2 }
{
    match mem {
        Mem::Sram => 0,
        Mem::Sdram => 1,
        Mem::Scratch => 2,
    }
}
