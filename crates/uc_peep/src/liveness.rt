//! What is live at each place of code.
ghost use Rattle.std.specs.Prelude.{◌≡◌, ◌<◌, ◌≤◌, ◌+◌, ◌*◌, ◌^◌, ◌||◌, ◌&&◌, ℕ, true, false, length, sum, slice_index, slice_get, Some, IfOk, OnOk};
ghost use Rattle.uc_isa.specs.Lawful.{IsLawful, IsRun};
ghost use Rattle.uc_isa.specs.declared.instruction.Instr.{Instr};
ghost use Rattle.uc_isa.specs.Program.{IsFormed, IsLawfulWithin, IsProgram};
ghost use Rattle.uc_isa.specs.Resources.{Resource, IsResource, is_read_run, is_write_run, reads, tests, writes};
ghost use Rattle.uc_peep.specs.Sets.{has};
ghost use Rattle.uc_peep.specs.Liveness.{AreSmall, Covers, IsLiveBefore, IsLiveAfter, IsClosed, IsLiveAt, IsSound, IsUpdated};

use crate::LiveSet;
use crate::jump_threading::{link_branches, thread_jumps};
use crate::live_set::{BANK_L, BANK_LD, BANK_S, BANK_SD};
use nv_base::{Mem, NoMemory};
use std::alloc::{AllocError, Global};
use uc_isa::{Code, Cond, Instr};

// The read registers of a memory from number r on.
fn read_run(mem: Mem, r: u8, n: u8) -> LiveSet
    requires { IsRun r n }
    ensures { (s : Resource) → IsResource s → has result s ≡ is_read_run mem r n s }
{
    match mem {
        Mem::Sdram => LiveSet::run(BANK_LD + r, n),
        Mem::Sram | Mem::Scratch => LiveSet::run(BANK_L + r, n),
    }
}

// The write registers of a memory from number r on.
fn write_run(mem: Mem, r: u8, n: u8) -> LiveSet
    requires { IsRun r n }
    ensures { (s : Resource) → IsResource s → has result s ≡ is_write_run mem r n s }
{
    match mem {
        Mem::Sdram => LiveSet::run(BANK_SD + r, n),
        Mem::Sram | Mem::Scratch => LiveSet::run(BANK_S + r, n),
    }
}

// The flag that a branch asks.
fn tested_by(cond: &Cond) -> LiveSet
    ensures { (s : Resource) → IsResource s → has result s ≡ tests cond.now s }
{
    match cond {
        Cond::Always => LiveSet::none(),
        Cond::Z | Cond::NZ => LiveSet::zero(),
        Cond::C | Cond::NC => LiveSet::carry(),
    }
}

// What an instruction reads.
fn read_by(i: &Instr) -> LiveSet
    requires { IsFormed i.now }
    ensures { (s : Resource) → IsResource s → has result s ≡ reads i.now s }
{
    match i {
        Instr::Alu { x, y, .. } => LiveSet::source(x).with(LiveSet::source(y)),
        Instr::Un { x, .. } => LiveSet::source(x),
        Instr::Immed { .. } => LiveSet::none(),
        Instr::Br { cond, .. } => tested_by(cond),
        Instr::Read { x, .. } => LiveSet::address(x),
        Instr::Write { mem, r, n, x, .. } => write_run(*mem, *r, *n).with(LiveSet::address(x)),
        Instr::Halt { n, .. } => LiveSet::run(0, *n),
    }
}

/// What an instruction writes.
pub fn written_by(i: &Instr) -> LiveSet
    requires { IsFormed i.now }
    ensures { (s : Resource) → IsResource s → has result s ≡ writes i.now s }
{
    match i {
        Instr::Alu { dst, .. } => LiveSet::both_flags().with(LiveSet::target(dst)),
        Instr::Un { dst, .. } => LiveSet::both_flags().with(LiveSet::target(dst)),
        Instr::Immed { dst, .. } => LiveSet::target(dst),
        Instr::Br { .. } => LiveSet::none(),
        Instr::Read { mem, r, n, .. } => read_run(*mem, *r, *n),
        Instr::Write { .. } => LiveSet::none(),
        Instr::Halt { .. } => LiveSet::none(),
    }
}

// What is in the set of a place after a branch at x.
fn after_branch(cond: &Cond, target: u32, x: usize, sets: &[LiveSet]) -> LiveSet
    requires lawful { IsLawfulWithin (length sets.now) x (Instr.Br cond.now target) }
    requires inside { x < length sets.now }
    ensures { IsLiveAfter (Instr.Br cond.now target) x sets.now result }
{
    let there = sets[target as usize];
    match cond {
        Cond::Always => there,
        Cond::Z => there.with(sets[x + 1]),
        Cond::NZ => there.with(sets[x + 1]),
        Cond::C => there.with(sets[x + 1]),
        Cond::NC => there.with(sets[x + 1]),
    }
}

// What is in the set of a place after the instruction at x.
fn live_after(i: &Instr, x: usize, sets: &[LiveSet]) -> LiveSet
    requires lawful { IsLawfulWithin (length sets.now) x i.now }
    requires inside { x < length sets.now }
    ensures { IsLiveAfter i.now x sets.now result }
{
    match i {
        Instr::Alu { .. } => sets[x + 1],
        Instr::Un { .. } => sets[x + 1],
        Instr::Immed { .. } => sets[x + 1],
        Instr::Br { cond, target } => after_branch(cond, *target, x, sets),
        Instr::Read { .. } => sets[x + 1],
        Instr::Write { .. } => sets[x + 1],
        Instr::Halt { .. } => LiveSet::none(),
    }
}

// What an instruction at x needs.
pub(crate) fn live_before(i: &Instr, x: usize, sets: &[LiveSet]) -> LiveSet
    requires lawful { IsLawfulWithin (length sets.now) x i.now }
    requires inside { x < length sets.now }
    ensures { IsLiveBefore i.now x sets.now result }
{
    live_after(i, x, sets)
        .without(written_by(i))
        .with(read_by(i))
}

// Adds what the instruction at x needs to the set of its place, and says whether that is more than it had.
pub(crate) fn update(code: &[Instr], sets: &mut [LiveSet], x: usize) -> bool
    requires lawful { IsProgram code.now }
    requires length { length sets.old ≡ length code.now }
    requires inside { x < length sets.old }
    ensures { IsUpdated code.now sets.old sets.new x result }
{
    let old = sets[x];
    let new = old.with(live_before(&code[x], x, sets));
    if new.same(&old) {
        return false;
    }
    sets[x] = new;
    true
}

// Updates all sets, from the last place to the first, and says whether any rose.
pub(crate) fn sweep(code: &[Instr], sets: &mut [LiveSet]) -> bool
    requires lawful { IsProgram code.now }
    requires length { length sets.old ≡ length code.now }
    ensures sound { IsSound code.now sets.old → IsSound code.now sets.new }
    ensures small { AreSmall sets.old → AreSmall sets.new }
    ensures rises { result ≡ true → sum sets.old < sum sets.new }
    ensures closed { result ≡ false → IsClosed code.now sets.new }
    ensures steady { result ≡ false → sets.new ≡ sets.old }
{
    let mut rose = false;
    for x in (0..code.len()).rev() {
        if update(code, sets, x) {
            rose = true;
        }
    }
    rose
}

// From sound sets, sweeps until none rises.
fn settle(code: &[Instr], sets: &mut [LiveSet])
    requires lawful { IsProgram code.now }
    requires length { length sets.old ≡ length code.now }
    requires sound { IsSound code.now sets.old }
    requires few { AreSmall sets.old }
    ensures live { (x : ℕ) → IsLiveAt code.now x (slice_index sets.new x) }
    ensures closed { IsClosed code.now sets.new }
{
    let mut rose = true;
    while rose {
        rose = sweep(code, sets);
    }
}

// From empty sets: a list of work finds nearly all, and sweeps show that it is all.
fn solve(
    alloc: Global,
    code: &[Instr],
    sets: &mut [LiveSet],
    heads: &mut [u32],
    links: &mut [u32],
) -> Result<(), AllocError>
    requires lawful { IsProgram code.now }
    requires length { length sets.old ≡ length code.now }
    requires small { length code.now < 2147483648 }
    requires empty { (x : ℕ) → slice_index sets.old x ≡ 0 }
    ensures live { OnOk result ((x : ℕ) → IsLiveAt code.now x (slice_index sets.new x)) }
    ensures closed { OnOk result (IsClosed code.now sets.new) }
{
    link_branches(code, heads, links);
    let mut work = Vec::new(alloc);
    thread_jumps(code, sets, heads, links, &mut work)?;
    settle(code, sets);
    Ok(())
}

// For each place what is live there.
pub(crate) fn live_sets(alloc: Global, code: &[Instr]) -> Result<Vec<LiveSet>, AllocError>
    requires lawful { IsProgram code.now }
    requires small { length code.now < 2147483648 }
    ensures length { IfOk result (λ v. length v.items ≡ length code.now) }
    ensures live { IfOk result (λ v. (x : ℕ) → IsLiveAt code.now x (slice_index v.items x)) }
    ensures closed { IfOk result (λ v. IsClosed code.now v.items) }
{
    let n = code.len();
    let mut sets = vec![in alloc; LiveSet::none(); n]?;
    let mut heads = vec![in alloc; u32::MAX; n]?;
    let mut links = vec![in alloc; u32::MAX; n]?;
    solve(alloc, code, &mut sets, &mut heads, &mut links)?;
    Ok(sets)
}

/// For each place exactly what is live there: what some path of places from there reads before it writes it.
pub fn live(alloc: Global, c: &Code) -> Result<Vec<LiveSet>, NoMemory>
    requires lawful { IsLawful c.now.list }
    ensures count { IfOk result (λ v. length v.items ≡ length c.now.list) }
    ensures live { IfOk result (λ v. (x : ℕ) → IsLiveAt c.now.list x (slice_index v.items x)) }
{
    Ok(live_sets(alloc, c.list())?)
}
