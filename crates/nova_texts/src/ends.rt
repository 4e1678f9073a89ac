//! Where a run of a program that raises nothing ends.

use crate::ties::Only;
use nv_ast::{Decl, Expr, Fun, Kind, Name, Program};
use nv_base::NoMemory;
use std::alloc::Global;

/// The functions of a program in order.
pub fn functions_of<'a>(alloc: Global, program: &'a Program) -> Result<Vec<&'a Fun>, NoMemory> {
    let mut functions = Vec::new(alloc);
    for decl in program.decls.iter() {
        add_functions(decl, &mut functions)?;
    }
    Ok(functions)
}

fn add_functions<'a>(decl: &'a Decl, functions: &mut Vec<&'a Fun>) -> Result<(), NoMemory> {
    if let Decl::Group(group) = decl {
        for f in group.iter() {
            functions.push(f)?;
        }
    }
    Ok(())
}

/// The names of the exceptions of a program in order.
pub fn exceptions_of<'a>(alloc: Global, program: &'a Program) -> Result<Vec<&'a [u8]>, NoMemory> {
    let mut names = Vec::new(alloc);
    for decl in program.decls.iter() {
        if let Decl::Exception(name, _, _) = decl {
            names.push(name.bytes())?;
        }
    }
    Ok(names)
}

/// The place of a function among the functions.
pub fn place_of(functions: &[&Fun], name: &[u8]) -> Option<usize> {
    for (place, f) in functions.iter().enumerate() {
        if f.name.bytes() == name {
            return Some(place);
        }
    }
    None
}

/// The expression with which each run ends that raises nothing, where it is one: that of `main`, or of a function that is called in its
/// place.
pub fn only_end(alloc: Global, functions: &[&Fun]) -> Result<Option<u32>, NoMemory> {
    let mut walk = Walk {
        is_wanted: vec![in alloc; false; functions.len()]?,
        is_seen: vec![in alloc; false; functions.len()]?,
        only: Only::new(),
    };
    walk.want(functions, b"main");
    // Each round sees all functions that are wanted, and there are no more rounds than functions.
    for _ in 0..functions.len() {
        for (place, f) in functions.iter().enumerate() {
            if walk.sees(place) {
                walk.expr(functions, &f.body);
            }
        }
    }
    Ok(walk.only.get())
}

// Which functions end a run, which of them were looked at, and the ends so far.
#[derive(Drop)]
struct Walk {
    is_wanted: Vec<bool>,
    is_seen: Vec<bool>,
    only: Only,
}

impl Walk {
    fn want(&mut self, functions: &[&Fun], name: &[u8]) {
        if let Some(place) = place_of(functions, name) {
            if let Some(cell) = self.is_wanted.get_mut(place) {
                *cell = true;
            }
        }
    }

    // Whether the function at a place is looked at now.
    fn sees(&mut self, place: usize) -> bool {
        match (self.is_wanted.get(place), self.is_seen.get_mut(place)) {
            (Some(true), Some(seen)) if !*seen => {
                *seen = true;
                true
            }
            _ => false,
        }
    }

    #[cycle(walk)]
    fn expr(&mut self, functions: &[&Fun], e: &Expr) {
        match &e.kind {
            Kind::Paren(a) => self.expr(functions, a),
            Kind::If(_, a, b) => {
                self.expr(functions, a);
                self.expr(functions, b)
            }
            Kind::Try(a, _, _, h) => {
                self.expr(functions, a);
                self.expr(functions, h)
            }
            Kind::Block(_, tail) => self.expr(functions, tail),
            Kind::Call(f, _) => self.want(functions, f.bytes()),
            Kind::Raise(_, _) => {}
            Kind::Number(_)
            | Kind::Truth(_)
            | Kind::Var(_)
            | Kind::Tuple(_)
            | Kind::Fields(_)
            | Kind::Dot(_, _)
            | Kind::Invert(_)
            | Kind::Negate(_)
            | Kind::Binary(_, _, _)
            | Kind::Shift(_, _, _)
            | Kind::Unpack(_, _)
            | Kind::Pack(_, _)
            | Kind::Fetch(_, _, _) => self.only.add(e.span.first),
        }
    }
}
