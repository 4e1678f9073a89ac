//! How often the points are come to.
//!
//! A label of a loop is come to ten times as often as another one. Each arm of a test is taken three quarters as often as the test, so that
//! code behind many tests still counts. An arm whose ends all raise exceptions is taken a quarter as often, and the other arm then as
//! often as the test.

use crate::loops::Jumps;
use nv_base::NoMemory;
use ssu_ir::{Ssu, SsuNode};
use ssu_liveness::PointId;
use std::alloc::Global;

/// How often the entry of the form is come to, in the unit of frequencies.
pub const ONCE: u32 = 1024;

/// So many times as often a label of a loop is come to.
const LOOP: u32 = 10;
/// How often an arm of a test is taken.
#[derive(Clone, Copy)]
enum Arm {
    /// As often as the test.
    Always,
    /// Three quarters as often.
    Often,
    /// A quarter as often.
    Rarely,
}

/// What comes behind a point.
#[derive(Clone, Copy)]
enum Next {
    /// A label begins.
    Entry(usize),
    One,
    Two,
    Jump(usize),
    Ended,
    Raised,
}

/// Of each point how often it is come to.
#[derive(Drop)]
pub struct Frequencies {
    at_points: Vec<u32>,
}

impl Frequencies {
    /// How often a point is come to; seldom where it isn't there.
    pub fn at(&self, point: u32) -> u32 {
        self.at_points.get(point as usize).copied().unwrap_or(1)
    }
}

/// What comes behind a node.
fn next_of(n: &SsuNode) -> Next {
    match n {
        SsuNode::Lit(_, _, _)
        | SsuNode::Una(_, _, _, _)
        | SsuNode::Bin(_, _, _, _, _)
        | SsuNode::Clone(_, _, _)
        | SsuNode::Read(_, _, _, _)
        | SsuNode::Write(_, _, _, _) => Next::One,
        SsuNode::If(_, _, _, _, _) => Next::Two,
        SsuNode::Jump(l, _) => Next::Jump(*l as usize),
        SsuNode::Halt(0, _) => Next::Ended,
        SsuNode::Halt(_, _) => Next::Raised,
    }
}

/// What comes behind each point.
fn all_next(alloc: Global, s: &Ssu, point_ids: &[PointId]) -> Result<Vec<Next>, NoMemory> {
    let mut all = Vec::new(alloc);
    for id in point_ids {
        let next = match id {
            PointId::Entry(l) => Next::Entry(*l),
            PointId::Node(id) => match s.nodes.get(id.0) {
                Some(n) => next_of(n),
                None => Next::Ended,
            },
        };
        all.push(next)?;
    }
    Ok(all)
}

/// Of each label whether it is in a loop.
fn loops_of(alloc: Global, count: usize, all: &[Next]) -> Result<Vec<bool>, NoMemory> {
    let mut jumps = Jumps::new(alloc, count)?;
    let mut label = 0;
    for next in all {
        match next {
            Next::Entry(l) => label = *l,
            Next::Jump(l) => jumps.add(label, *l)?,
            Next::One | Next::Two | Next::Ended | Next::Raised => {}
        }
    }
    jumps.in_loops(alloc)
}

/// How often the arms of a test are taken, by whether all their ends raise exceptions.
fn arms_of(first: bool, second: bool) -> (Arm, Arm) {
    match (first, second) {
        (true, false) => (Arm::Rarely, Arm::Always),
        (false, true) => (Arm::Always, Arm::Rarely),
        (true, true) | (false, false) => (Arm::Often, Arm::Often),
    }
}

/// Of each test how often its arms are taken, the last test first. The points are gone over from the last on: what
/// waits are the parts of the tree behind them, the nearest last, with whether all their ends raise exceptions.
fn all_arms(alloc: Global, all: &[Next]) -> Result<Vec<(Arm, Arm)>, NoMemory> {
    let mut arms = Vec::new(alloc);
    let mut waiting = Vec::new(alloc);
    for next in all.iter().rev() {
        match next {
            Next::Entry(_) => waiting.clear(),
            Next::One => {}
            Next::Two => {
                let first = waiting.pop() == Some(true);
                let second = waiting.pop() == Some(true);
                arms.push(arms_of(first, second))?;
                waiting.push(first && second)?;
            }
            Next::Jump(_) | Next::Ended => waiting.push(false)?,
            Next::Raised => waiting.push(true)?,
        }
    }
    Ok(arms)
}

/// How often a label is come to.
fn label_frequency(is_loop: bool) -> u32 {
    if is_loop {
        ONCE.saturating_mul(LOOP)
    } else {
        ONCE
    }
}

/// How often an arm of a test that is come to so often is taken.
fn arm_frequency(test: u32, arm: Arm) -> u32 {
    let quarter = test.wrapping_shr(2);
    match arm {
        Arm::Always => test,
        Arm::Often => test.saturating_sub(quarter),
        Arm::Rarely => quarter.max(1),
    }
}

/// How often the points of a form are come to.
pub fn frequencies_of(
    alloc: Global,
    s: &Ssu,
    point_ids: &[PointId],
) -> Result<Frequencies, NoMemory> {
    let all = all_next(alloc, s, point_ids)?;
    let loops = loops_of(alloc, s.labels.len(), &all)?;
    let mut arms = all_arms(alloc, &all)?;
    let mut waiting: Vec<u32> = Vec::new(alloc);
    let mut at_points = Vec::new(alloc);
    let mut now: u32 = ONCE;
    for next in &all {
        if let Next::Entry(l) = next {
            now = label_frequency(loops.get(*l).copied() == Some(true));
        }
        at_points.push(now)?;
        match next {
            Next::Entry(_) | Next::One => {}
            Next::Two => {
                let (first, second) = arms.pop().unwrap_or((Arm::Often, Arm::Often));
                waiting.push(arm_frequency(now, second))?;
                now = arm_frequency(now, first);
            }
            Next::Jump(_) | Next::Ended | Next::Raised => now = waiting.pop().unwrap_or(1),
        }
    }
    Ok(Frequencies { at_points })
}
