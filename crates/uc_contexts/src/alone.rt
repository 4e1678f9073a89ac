//! Runs alone, with marks of what they read and write.
ghost use Rattle.std.specs.Prelude.{◌≡◌, ◌+◌, ◌<◌, ◌≤◌, ℕ, Some, true, length, slice_get, IfOk, IfErr};
ghost use Rattle.nv_base.specs.Memories.{HasSizes, first_word, words_at};
ghost use Rattle.nv_base.specs.declared.term.Mem.{Mem};
ghost use Rattle.uc_isa.specs.Lawful.{IsLawful};
ghost use Rattle.uc_isa.specs.Step.{EndsRun, address, step};
ghost use Rattle.uc_contexts.specs.Footprints.{IsTouched, Isolated, moment, to_read, was_read, was_written};
ghost use Rattle.uc_contexts.specs.Marked.{Fit, IsFootprint};
ghost use Rattle.uc_contexts.specs.Sets.{Adds, within};

use crate::addresses::{AddressSet, Stretch};
use nv_base::{NoMemory, Packet};
use std::alloc::Global;
use uc_isa::{Code, Engine, Gpr, Instr, Stepped, step};

/// The addresses that a run read and those that it wrote.
#[derive(Drop)]
pub struct Marks {
    pub read: AddressSet,
    pub written: AddressSet,
}

fn address(x: &Gpr, e: &Engine) -> u32
    ensures { result ≡ address x.now e.now }
{
    match x {
        Gpr::A(r) => e.a[r.number as usize],
        Gpr::B(r) => e.b[r.number as usize],
    }
}

// What the next instruction is to read.
fn to_read(c: &Code, e: &Engine) -> Option<Stretch>
    requires { e.now.place < length c.now.list }
    ensures { result ≡ to_read (slice_get c.now.list e.now.place) e.now }
{
    match &c.list()[e.place as usize] {
        Instr::Read { mem, n, x, off, .. } => Some(Stretch {
            mem: *mem,
            at: address(x, e) as u64 + *off as u64,
            words: *n,
        }),
        _ => None,
    }
}

// Takes a step, marks what it read and wrote, and tells whether it ended the run.
fn take_step(c: &Code, e: &mut Engine, p: &mut Packet, marks: &mut Marks) -> bool
    requires lawful { IsLawful c.now.list }
    requires inside { e.old.place < length c.now.list }
    requires fit { Fit marks.old p.old }
    ensures engine { e.new ≡ (step c.now.list e.old p.old).engine }
    ensures packet { p.new ≡ (step c.now.list e.old p.old).packet }
    ensures inside { e.new.place < length c.now.list }
    ensures read { let touched = was_read (to_read (slice_get c.now.list e.old.place) e.old) (step c.now.list e.old p.old).stepped in
        (m : Mem) → Adds (within m marks.old.read) (IsTouched touched m) (within m marks.new.read) }
    ensures written { (m : Mem) → Adds (within m marks.old.written) (IsTouched (was_written (step c.now.list e.old p.old).stepped) m) (within m marks.new.written) }
    ensures fit { Fit marks.new p.new }
    ensures over { result ≡ true → EndsRun (step c.now.list e.old p.old).stepped }
{
    let reading = to_read(c, e);
    match step(c, e, p) {
        Stepped::Went => {
            if let Some(stretch) = &reading {
                marks.read.touch(stretch);
            }
            false
        }
        Stepped::Wrote(w) => {
            marks.written.touch(&Stretch {
                mem: w.mem,
                at: w.at as u64,
                words: w.words.list().len() as u8,
            });
            false
        }
        Stepped::Halted(_, _) | Stepped::Fault(_, _) => true,
    }
}

/// The addresses that code reads and writes in its first `m` steps, when it runs alone on these arguments with this
/// spill base. The packet is left as by these steps; where there is no memory, it is unchanged.
pub fn footprint(
    alloc: Global,
    c: &Code,
    args: &[u32],
    base: u32,
    p: &mut Packet,
    m: u64,
) -> Result<Marks, NoMemory>
    requires lawful { IsLawful c.now.list }
    requires arguments { length args.now ≡ c.now.params }
    requires base { (512 ≤ base) × (base ≤ 896) }
    requires few { m ≤ 100000000 }
    ensures footprint { IfOk result (IsFootprint c.now p.old (record { args = args.now; base = base; steps = m })) }
    ensures packet { IfOk result (λ _. p.new ≡ (moment c.now p.old (record { args = args.now; base = base; steps = m }) m).packet) }
    ensures unchanged { IfErr result (λ _. p.new ≡ p.old) }
{
    // The check has to be told that the code has an instruction, which `list` promises.
    let _code = c.list();
    let mut marks = Marks {
        read: AddressSet::new(alloc, p)?,
        written: AddressSet::new(alloc, p)?,
    };
    let mut e = Engine::start(args, base);
    for _ in 0..m {
        if take_step(c, &mut e, p, &mut marks) {
            return Ok(marks);
        }
    }
    Ok(marks)
}
