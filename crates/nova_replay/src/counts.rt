// How many packets came to which end.
ghost use Rattle.std.specs.Prelude.{◌≡◌, ◌<◌, ◌^◌, OnOk, if◌then◌else◌};
ghost use Rattle.nova_replay.specs.Replaying.{counted, no_packets, one_more, one_more_at, shown_with, tally_of, with_cause};

use crate::packet::Fate;
use nv_base::Mem;
use std::alloc::{AllocError, Global};

/// How many troubles are told one by one.
pub const SHOWN_TROUBLES: usize = 8;

/// A packet that isn't forwarded for want of something, by its number and the place of its record.
#[derive(Clone, Copy)]
pub struct Trouble {
    pub packet: u64,
    pub offset: u64,
    pub cause: Cause,
}

#[derive(Clone, Copy)]
pub enum Cause {
    /// An access at this address reached past the memory.
    Fault(Mem, u64),
    /// It had not ended after all steps.
    Steps,
    /// It reaches past SDRAM as it comes in.
    LongIn,
    /// So many bytes can't come out.
    LongOut(u64),
}

/// The counts of a replay. All of them stand still at the end of their type.
#[derive(Drop)]
pub struct Counts {
    pub forwarded: u64,
    pub kept: u64,
    /// By the number of the exception, from 1.
    pub raised: Vec<u64>,
    pub faulted: u64,
    pub spent: u64,
    pub long: u64,
    /// The first troubles.
    pub shown: Vec<Trouble>,
}

impl Counts {
    pub fn new(alloc: Global) -> Counts
        ensures { tally_of result ≡ no_packets }
    {
        Counts {
            forwarded: 0,
            kept: 0,
            raised: Vec::new(alloc),
            faulted: 0,
            spent: 0,
            long: 0,
            shown: Vec::new(alloc),
        }
    }

    /// Whether a packet faulted, ran out of steps, or was too long.
    pub fn has_trouble(&self) -> bool {
        self.faulted > 0 || self.spent > 0 || self.long > 0
    }

    /// How many packets came to grief, of which the first are shown.
    pub fn troubles(&self) -> u64 {
        self.faulted
            .saturating_add(self.spent)
            .saturating_add(self.long)
    }

    /// One more packet of this number and place, with this fate.
    pub fn count(&mut self, packet: u64, offset: u64, fate: &Fate) -> Result<(), AllocError>
        ensures { OnOk result (tally_of self.new ≡ counted packet offset fate.now (tally_of self.old)) }
    {
        match fate {
            Fate::Ended(_, _) => {
                self.forwarded = self.forwarded.saturating_add(1);
                Ok(())
            }
            Fate::Raised(number, _, is_kept) => {
                self.kept = one_more_if(*is_kept, self.kept);
                raise(&mut self.raised, usize::from(number.saturating_sub(1)))
            }
            Fate::Trouble(cause) => {
                self.add(*cause);
                let trouble = Trouble {
                    packet,
                    offset,
                    cause: *cause,
                };
                show(&mut self.shown, trouble)
            }
        }
    }

    fn add(&mut self, cause: Cause)
        ensures { tally_of self.new ≡ with_cause (tally_of self.old) cause }
    {
        match cause {
            Cause::Fault(_, _) => self.faulted = self.faulted.saturating_add(1),
            Cause::Steps => self.spent = self.spent.saturating_add(1),
            Cause::LongIn | Cause::LongOut(_) => self.long = self.long.saturating_add(1),
        }
    }
}

fn one_more_if(is_more: bool, count: u64) -> u64
    ensures { result ≡ if is_more then one_more count else count }
{
    if is_more {
        count.saturating_add(1)
    } else {
        count
    }
}

fn show(shown: &mut Vec<Trouble>, trouble: Trouble) -> Result<(), AllocError>
    ensures { OnOk result (shown.new.items ≡ shown_with shown.old.items trouble) }
{
    if shown.len() < SHOWN_TROUBLES {
        shown.push(trouble)?;
        return Ok(());
    }
    Ok(())
}

// One more at a place.
#[tactic(auto, using(crate::proofs::Counting::set_one_more, crate::proofs::Counting::one_more_grown, crate::proofs::Counting::one_more_end))]
fn raise(counts: &mut Vec<u64>, place: usize) -> Result<(), AllocError>
    requires { place < 2 ^ 16 }
    ensures { OnOk result (counts.new.items ≡ one_more_at place counts.old.items) }
{
    if place < counts.len() {
        counts[place] = counts[place].saturating_add(1);
        return Ok(());
    }
    for _ in counts.len()..place {
        counts.push(0)?;
    }
    counts.push(1)?;
    Ok(())
}
