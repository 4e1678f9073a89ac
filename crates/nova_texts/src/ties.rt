//! The places of a source that instructions of its code come from, as far as they are known.

use crate::points::{Point, Sort};
use nova_show::{Kind, kind_of};
use nv_base::{Mem, NoMemory};
use nv_lines::line_of;
use std::alloc::Global;
use uc_isa::Instr;

// Several lines are known for a place.
const SEVERAL: u32 = u32::MAX;

/// For each place of code the byte of the source that it comes from and one more, or 0; and the name of the function that a label there
/// belongs to, or no byte.
#[derive(Drop)]
pub struct Ties<'a> {
    source: &'a [u8],
    pub places: Vec<u32>,
    pub functions: Vec<&'a [u8]>,
    // Whether several functions are known for a place.
    are_several: Vec<bool>,
}

impl<'a> Ties<'a> {
    /// None, for code of so many instructions.
    pub fn new(alloc: Global, source: &'a [u8], count: usize) -> Result<Ties<'a>, NoMemory> {
        let places = vec![in alloc; 0u32; count]?;
        let none: &'a [u8] = b"";
        let functions = vec![in alloc; none; count]?;
        let are_several = vec![in alloc; false; count]?;
        Ok(Ties {
            source,
            places,
            functions,
            are_several,
        })
    }

    /// A place comes from the line of a byte; where another line is known for it, from none.
    pub fn tie(&mut self, place: usize, at: u32) {
        let source = self.source;
        let Some(cell) = self.places.get_mut(place) else {
            return;
        };
        let new = at.saturating_add(1);
        if *cell == 0 {
            *cell = new;
        } else if *cell != new && !is_same_line(source, *cell, new) {
            *cell = SEVERAL;
        }
    }

    /// The label at a place belongs to a function; where another one is known for it, to none.
    pub fn name(&mut self, place: usize, function: &'a [u8]) {
        let (Some(cell), Some(is_several)) = (
            self.functions.get_mut(place),
            self.are_several.get_mut(place),
        ) else {
            return;
        };
        if cell.is_empty() && !*is_several {
            *cell = function;
        } else if *cell != function {
            *is_several = true;
            *cell = b"";
        }
    }

    /// No place comes from several lines any more: of these nothing is known.
    pub fn settle(&mut self) {
        for cell in self.places.iter_mut() {
            if *cell == SEVERAL {
                *cell = 0;
            }
        }
    }

    /// Ties each access, raise and end that one place of the source alone can make. `exceptions` are the names of the exceptions in
    /// order, and `end` is where a run ends, if that is one place.
    pub fn tie_single(
        &mut self,
        code: &[Instr],
        points: &[Point],
        exceptions: &[&[u8]],
        end: Option<u32>,
    ) {
        for (place, i) in code.iter().enumerate() {
            if let Some(at) = single_origin(i, points, exceptions, end) {
                self.tie(place, at);
            }
        }
    }
}

fn is_same_line(source: &[u8], one: u32, other: u32) -> bool {
    if one == SEVERAL || other == SEVERAL {
        return false;
    }
    let (one, other) = (one as usize, other as usize);
    line_of(source, one.saturating_sub(1)) == line_of(source, other.saturating_sub(1))
}

// The one place that an instruction can come from.
fn single_origin(
    i: &Instr,
    points: &[Point],
    exceptions: &[&[u8]],
    end: Option<u32>,
) -> Option<u32> {
    if kind_of(i) == Kind::Spill {
        return None;
    }
    match i {
        Instr::Read {
            mem,
            r: _,
            n,
            x: _,
            off: _,
        } => only_fetch(points, *mem, u32::from(*n)),
        Instr::Write {
            mem,
            r: _,
            n: _,
            x: _,
            off: _,
        } => only_store(points, *mem),
        Instr::Halt { k: 0, n: _ } => end,
        Instr::Halt { k, n: _ } => match exceptions.get((*k as usize).saturating_sub(1)) {
            Some(name) => only_raise(points, *name),
            None => None,
        },
        Instr::Alu {
            dst: _,
            op: _,
            x: _,
            y: _,
        } => None,
        Instr::Un {
            dst: _,
            op: _,
            x: _,
        } => None,
        Instr::Immed { dst: _, v: _, s: _ } => None,
        Instr::Br { cond: _, target: _ } => None,
    }
}

// The one place where so many words or more are fetched from a memory: code may leave out those that nothing wants.
fn only_fetch(points: &[Point], mem: Mem, count: u32) -> Option<u32> {
    let mut only = Only::new();
    for point in points {
        if let Sort::Fetch(other, n) = point.sort {
            if other == mem && n >= count {
                only.add(point.span.first);
            }
        }
    }
    only.get()
}

fn only_store(points: &[Point], mem: Mem) -> Option<u32> {
    let mut only = Only::new();
    for point in points {
        if let Sort::Store(other) = point.sort {
            if other == mem {
                only.add(point.span.first);
            }
        }
    }
    only.get()
}

fn only_raise(points: &[Point], name: &[u8]) -> Option<u32> {
    let mut only = Only::new();
    for point in points {
        if let Sort::Raise(other) = point.sort {
            if other.bytes() == name {
                only.add(point.span.first);
            }
        }
    }
    only.get()
}

/// The one thing that was added.
#[derive(Clone, Copy)]
pub struct Only {
    at: Option<u32>,
    is_several: bool,
}

impl Only {
    /// Nothing yet.
    pub fn new() -> Only {
        Only {
            at: None,
            is_several: false,
        }
    }

    /// Adds one.
    pub fn add(&mut self, at: u32) {
        self.is_several = self.is_several || self.at.is_some();
        self.at = Some(at);
    }

    /// It, where it is alone.
    pub fn get(&self) -> Option<u32> {
        if self.is_several { None } else { self.at }
    }
}
