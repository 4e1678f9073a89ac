// One packet's run.
ghost use Rattle.std.specs.Prelude.{◌≡◌, ◌+◌, ◌%◌, ◌<◌, ◌^◌, Some, None, true, false, length};
ghost use Rattle.nv_base.specs.Memories.{stored};
ghost use Rattle.uc_isa.specs.Lawful.{IsLawful};
ghost use Rattle.nova_replay.specs.Fates.{Ran};

use nv_base::{Access, Mem, Outcome, Packet, SOURCE_SCRATCH, Words, WriteLog};
use uc_isa::{Code, Engine};
use uc_sim::simulate;

// The most words of one write.
const MOST_WORDS: usize = 8;

/// Puts the words of a packet into SDRAM from a quadword on. False where they reach past it; then nothing changes.
#[tactic(auto, using(crate::proofs::Stored::stored_nothing, crate::proofs::Stored::stored_more, crate::proofs::Stored::stored_past, crate::proofs::Stored::stored_can))]
pub fn put_words(memory: &mut Packet, at: u32, words: &[u32]) -> bool
    requires even { length words.now % 2 ≡ 0 }
    ensures put { result ≡ true → stored Mem.Sdram at words.now memory.old ≡ Some memory.new }
    ensures past { result ≡ false → stored Mem.Sdram at words.now memory.old ≡ None }
    ensures same { result ≡ false → memory.new ≡ memory.old }
{
    let room = memory.words(Mem::Sdram).len() as u64;
    if 2 * u64::from(at) + words.len() as u64 > room {
        return false;
    }
    let mut rest = words;
    let mut place = u64::from(at);
    while !rest.is_empty() {
        let (front, after) = rest.split_at(rest.len().min(MOST_WORDS));
        match memory.write(Mem::Sdram, place, front) {
            Access::Done => {}
            Access::Bad => return false,
        }
        place += (front.len() / 2) as u64;
        rest = after;
    }
    true
}

/// Puts a packet into SDRAM, and runs code on the memories that the packet before left. None where the packet reaches past SDRAM.
pub fn run_packet(
    code: &Code,
    args: &Words,
    at: u32,
    words: &[u32],
    steps: u32,
    memory: &mut Packet,
    log: &mut WriteLog,
) -> Option<Outcome>
    requires lawful { IsLawful code.now.list }
    requires even { length words.now % 2 ≡ 0 }
    requires countable { log.old.count + steps < 2 ^ 63 }
    ensures { Ran code.now args.now steps (stored Mem.Sdram at words.now memory.old) memory.old memory.new result }
{
    if !put_words(memory, at, words) {
        return None;
    }
    // The check has to be told that the code has an instruction, which `list` promises.
    let _list = code.list();
    let mut engine = Engine::start(args.list(), SOURCE_SCRATCH);
    Some(simulate(code, &mut engine, memory, log, u64::from(steps)))
}
