// The writes of a trace beside those of a log.

ghost use Rattle.std.specs.Prelude.{◌≡◌, ◌↔◌, IsTrue, IfSome, IfNone, map};
ghost use Rattle.nv_trace.specs.Unlike.{IsFirstUnlike, AgreeAsFar};

use nv_base::{Write, WriteLog};
use nv_meaning_values::Trace;

/// The first place that both keep at which their writes differ.
pub fn compare(t: &Trace, log: &WriteLog) -> Option<u32>
    ensures found { IfSome result (λ i. IsFirstUnlike i (map (λ m. m.write) t.now.kept) log.now.kept) }
    ensures none { IfNone result (AgreeAsFar (map (λ m. m.write) t.now.kept) log.now.kept) }
{
    let made = t.kept();
    let noted = log.kept();
    let both = made.len().min(noted.len());
    let mut i = 0;
    while i < both {
        if !is_same(&made[i].write, &noted[i]) {
            return Some(i as u32);
        }
        i += 1;
    }
    None
}

// Whether two writes are the same.
fn is_same(v: &Write, w: &Write) -> bool
    ensures { IsTrue result ↔ (v.now ≡ w.now) }
{
    if v.mem != w.mem || v.at != w.at {
        return false;
    }
    v.words.list() == w.words.list()
}
