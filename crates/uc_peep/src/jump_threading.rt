// Sets that are nearly what they are to be, found by a list of work: whether all is found, sweeps show afterwards.

ghost use Rattle.std.specs.Prelude.{◌≡◌, ◌<◌, ◌≤◌, OnOk, length};
ghost use Rattle.uc_isa.specs.Program.{IsProgram};
ghost use Rattle.uc_peep.specs.Liveness.{IsGrown};

use crate::LiveSet;
use crate::liveness::{sweep, update};
use std::alloc::AllocError;
use uc_isa::Instr;

// Updates the set of a place, says whether it rose, and notes the place where it did and a branch goes there.
#[tactic(auto, using(crate::proofs::Sweeps::grown_none, crate::proofs::Sweeps::grown_update))]
fn update_noted(
    code: &[Instr],
    sets: &mut [LiveSet],
    heads: &[u32],
    work: &mut Vec<u32>,
    x: usize,
) -> Result<bool, AllocError>
    requires lawful { IsProgram code.now }
    requires length { length sets.old ≡ length code.now }
    requires small { length code.now < 2147483648 }
    requires inside { x < length code.now }
    ensures { OnOk result (IsGrown code.now sets.old sets.new) }
{
    let rose = update(code, sets, x);
    if rose && x < heads.len() && heads[x] != u32::MAX {
        work.push(x as u32)?;
    }
    Ok(rose)
}

// Updates the set of the last place before an end, and those before it, as long as they rise.
#[tactic(auto, using(crate::proofs::Sweeps::grown_none, crate::proofs::Sweeps::grown_more))]
fn climb(
    code: &[Instr],
    sets: &mut [LiveSet],
    heads: &[u32],
    work: &mut Vec<u32>,
    end: usize,
) -> Result<(), AllocError>
    requires lawful { IsProgram code.now }
    requires length { length sets.old ≡ length code.now }
    requires small { length code.now < 2147483648 }
    requires inside { end ≤ length code.now }
    ensures { OnOk result (IsGrown code.now sets.old sets.new) }
{
    'places: for x in (0..end).rev() {
        let rose = update_noted(code, sets, heads, work, x)?;
        if !rose {
            break;
        }
    }
    Ok(())
}

// Links the branches to each place. The links only decide which sets are looked at again, and when: whatever they are,
// `thread_jumps` keeps the sets sound, and the last sweep of `settle` shows that each has all that it needs.
pub(crate) fn link_branches(code: &[Instr], heads: &mut [u32], links: &mut [u32])
    requires small { length code.now < 2147483648 }
{
    for x in 0..code.len() {
        if let Instr::Br { target, .. } = code[x] {
            let t = target as usize;
            if t < heads.len() && x < links.len() {
                links[x] = heads[t];
                heads[t] = x as u32;
            }
        }
    }
}

// Updates the sets of the branches to a place, and of what leads there.
#[tactic(auto, using(crate::proofs::Sweeps::grown_none, crate::proofs::Sweeps::grown_more))]
fn follow(
    code: &[Instr],
    sets: &mut [LiveSet],
    heads: &[u32],
    links: &[u32],
    work: &mut Vec<u32>,
    q: u32,
) -> Result<(), AllocError>
    requires lawful { IsProgram code.now }
    requires length { length sets.old ≡ length code.now }
    requires small { length code.now < 2147483648 }
    ensures { OnOk result (IsGrown code.now sets.old sets.new) }
{
    let mut b = if (q as usize) < heads.len() {
        heads[q as usize]
    } else {
        u32::MAX
    };
    'branches: for _n in 0..code.len() {
        let x = b as usize;
        if x >= links.len() || x >= code.len() {
            break;
        }
        climb(code, sets, heads, work, x + 1)?;
        b = links[x];
    }
    Ok(())
}

// Updates each set twice, from the last place on, and follows what rose at the second time.
#[tactic(auto, using(crate::proofs::Sweeps::grown_none, crate::proofs::Sweeps::grown_more, crate::proofs::Sweeps::grown_sweep))]
pub fn thread_jumps(
    code: &[Instr],
    sets: &mut [LiveSet],
    heads: &[u32],
    links: &[u32],
    work: &mut Vec<u32>,
) -> Result<(), AllocError>
    requires lawful { IsProgram code.now }
    requires length { length sets.old ≡ length code.now }
    requires small { length code.now < 2147483648 }
    ensures { OnOk result (IsGrown code.now sets.old sets.new) }
{
    let _rose = sweep(code, sets);
    'first: for x in (0..code.len()).rev() {
        update_noted(code, sets, heads, work, x)?;
    }
    'rest: for _n in 0..code.len() as u64 * 128 {
        match work.pop() {
            Some(q) => follow(code, sets, heads, links, work, q)?,
            None => break,
        }
    }
    Ok(())
}
