//! The sizes of a program without a fault.

use crate::fields::FieldLister;
use diag_types::Walk;
use nv_ast::{Decl, Fun, LayoutText, Name, Program, Span, Typed};
use nv_lines::Message;
use nv_types_table::cost::Cost;
use std::alloc::Global;

/// Appends the sizes of a program: of the whole, and of each declaration.
pub fn push_typed_sizes(alloc: Global, out: &mut Message, name: &str, typed: &Typed) {
    out.put(name);
    out.line(": a program without a fault");
    out.put("expanded size ");
    out.number(u64::from(typed.expanded()));
    out.line(" of at most 4096");
    push_room(out, typed.room());
    push_parts(
        alloc,
        out,
        typed.program(),
        typed.expanded(),
        Some(typed.room()),
    )
}

/// Appends in one line how large a program is.
pub fn push_typed_short_sizes(out: &mut Message, name: &str, typed: &Typed) {
    let mut layouts: u64 = 0;
    let mut exceptions: u64 = 0;
    let mut functions: u64 = 0;
    for decl in typed.program().decls.iter() {
        match decl {
            Decl::Layout(_, _, _) => layouts = layouts.saturating_add(1),
            Decl::Exception(_, _, _) => exceptions = exceptions.saturating_add(1),
            Decl::Group(funs) => functions = functions.saturating_add(funs.len() as u64),
        }
    }
    out.put(name);
    out.put(": no fault: ");
    out.counted(functions, "function");
    out.put(", ");
    out.counted(layouts, "layout");
    out.put(", ");
    out.counted(exceptions, "exception");
    out.put(", expanded size ");
    out.number(u64::from(typed.expanded()));
    out.line(" of at most 4096")
}

// Appends the room, and whether the slots of compiled code are enough for it.
fn push_room(out: &mut Message, room: u32) {
    out.put("room ");
    out.number(u64::from(room));
    out.put(": at most so many words are wanted at once");
    out.line(if room <= 128 {
        ", so the 128 slots of compiled code are enough"
    } else {
        ""
    })
}

/// Appends the sizes of each declaration of a program of this expanded size and room.
pub fn push_parts(
    alloc: Global,
    out: &mut Message,
    program: &Program,
    expanded: u32,
    room: Option<u32>,
) {
    let nowhere = Span { first: 0, after: 0 };
    let mut walk = Walk::new(alloc, 0, nowhere);
    push_walked(alloc, out, &mut walk, program, expanded, room);
    drop(walk)
}

// The same, by a walk that is still to be made.
fn push_walked<'a>(
    alloc: Global,
    out: &mut Message,
    walk: &mut Walk<'a>,
    program: &'a Program,
    expanded: u32,
    room: Option<u32>,
) {
    walk.program(program);
    out.fail_if(walk.is_short());
    let has_costs = has_costs(walk, expanded, room);
    let mut teller = SizeReport {
        walk,
        fields: FieldLister::new(alloc),
        exceptions: 0,
        groups: 0,
        has_costs,
    };
    teller.push_all(out, program);
    drop(teller)
}

// Whether the walk found the sizes of the whole that `check` found.
fn has_costs(walk: &Walk, expanded: u32, room: Option<u32>) -> bool {
    let Some(cost) = main_cost(walk) else {
        return false;
    };
    let same_room = match room {
        Some(words) => cost.need.saturating_add(8) == u64::from(words),
        None => true,
    };
    same_room && cost.size.min(u64::from(u32::MAX)) == u64::from(expanded)
}

/// What the group of `main` costs.
pub fn main_cost<'a>(walk: &Walk<'a>) -> Option<Cost> {
    for name in walk.functions.names() {
        if name.bytes() == b"main".as_slice() {
            return walk.costs.get(*name);
        }
    }
    None
}

// What was told so far, and what it is told from.
#[derive(Drop)]
struct SizeReport<'a, 'w> {
    walk: &'w Walk<'a>,
    fields: FieldLister<'a>,
    exceptions: u64,
    groups: u64,
    has_costs: bool,
}

impl<'a, 'w> SizeReport<'a, 'w> {
    fn push_all(&mut self, out: &mut Message, program: &'a Program) {
        for decl in program.decls.iter() {
            match decl {
                Decl::Layout(name, text, _) => self.push_layout(out, name, text),
                Decl::Exception(name, _, _) => self.push_exception(out, name),
                Decl::Group(funs) => self.push_group(out, funs),
            }
        }
    }

    fn push_layout(&mut self, out: &mut Message, name: &'a Name, text: &'a LayoutText) {
        let bits = match self.walk.layouts.get(name) {
            Some(shape) => shape.bits,
            None => 0,
        };
        self.fields.push_layout(out, name, text, bits)
    }

    // An exception, with the number that an outcome has for it.
    fn push_exception(&mut self, out: &mut Message, name: &'a Name) {
        self.exceptions = self.exceptions.saturating_add(1);
        let words = match self.walk.exceptions.get(name) {
            Some(t) => self.walk.types.words_of(t),
            None => 0,
        };
        out.put("exception ");
        out.quoted(name.bytes());
        out.put(": `raised ");
        out.number(self.exceptions);
        out.put("`, ");
        out.counted(words, "word");
        out.line("")
    }

    fn push_group(&mut self, out: &mut Message, funs: &'a [Fun]) {
        self.groups = self.groups.saturating_add(1);
        for fun in funs {
            self.push_function(out, fun);
        }
    }

    fn push_function(&mut self, out: &mut Message, fun: &'a Fun) {
        out.put("function ");
        out.quoted(fun.name.bytes());
        out.put(": group ");
        out.number(self.groups);
        if let (true, Some(cost)) = (self.has_costs, self.walk.own.get(&fun.name)) {
            out.put(", size ");
            out.number(cost.size);
            out.put(", need ");
            out.number(cost.need);
        }
        out.put(", ");
        out.counted(self.words_of_parameters(fun), "word");
        out.line(" of parameters")
    }

    fn words_of_parameters(&self, fun: &'a Fun) -> u64 {
        match self.walk.functions.get(&fun.name) {
            Some(function) => self.walk.types.words_of(function.params),
            None => 0,
        }
    }
}
