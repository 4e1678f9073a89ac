//! A run of code, step by step.
ghost use Rattle.std.specs.Prelude.{◌≡◌, ◌<◌, ◌≤◌, length};
ghost use Rattle.novac_words.specs.Limits.{memory_limit};
ghost use Rattle.uc_isa.specs.Lawful.{IsLawful};

use novac_words::limits::SPILL_BASE;
use nv_memtext::{Job, read_memory};
use std::alloc::Global;
use uc_isa::{Code, Engine, Stepped, lint, step};

/// How many steps a run took, and how many of them at each place of the code.
#[derive(Drop)]
pub struct Visits {
    pub steps: u32,
    pub places: Vec<u32>,
}

/// A run of lawful code until it ends, or of so many steps; none for memory exhaustion, or where the code or the memory text is
/// refused.
pub fn visits_of(alloc: Global, code: &Code, memory: &[u8], most: u32) -> Option<Visits>
    requires { length memory.now ≤ memory_limit }
{
    match lint(code) {
        None => {}
        Some(_) => return None,
    }
    let Ok(job) = read_memory(alloc, memory, code.params()) else {
        return None;
    };
    let Ok(mut places) = vec![in alloc; 0u32; code.list().len()] else {
        return None;
    };
    let steps = steps_of(code, job, most, &mut places);
    Some(Visits { steps, places })
}

fn steps_of(code: &Code, job: Job, most: u32, places: &mut [u32]) -> u32
    requires { IsLawful code.now.list }
{
    // The check has to be told that the code has an instruction, which `list` promises.
    let _list = code.list();
    let mut engine = Engine::start(job.args.list(), SPILL_BASE);
    let mut packet = job.packet;
    for taken in 0..most {
        note(places, engine.place);
        match step(code, &mut engine, &mut packet) {
            Stepped::Went | Stepped::Wrote(_) => {}
            Stepped::Halted(_, _) | Stepped::Fault(_, _) => return taken + 1,
        }
    }
    most
}

// One step more at a place.
fn note(places: &mut [u32], place: u32) {
    if let Some(steps) = places.get_mut(place as usize) {
        *steps = steps.saturating_add(1);
    }
}
