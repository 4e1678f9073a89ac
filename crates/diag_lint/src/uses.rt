//! Declarations that nobody uses.

use crate::lint::Lint;
use crate::warning::Cause;
use diag_text::declared::Declared;
use nv_ast::{Decl, Fun, Program};

impl<'a> Lint<'a> {
    /// Warns of a declaration that nobody uses.
    pub fn warn_if_unused(&mut self, reached: &Declared<'a, ()>, decl: &'a Decl) {
        match decl {
            Decl::Layout(name, _, span) if self.used_layouts.get(name).is_none() => self.warn(
                Cause::Layout(name),
                *span,
            ),
            Decl::Exception(name, _, span) if self.raised.get(name).is_none() => self.warn(
                Cause::Exception(name),
                *span,
            ),
            Decl::Group(funs) => self.unused_functions(reached, funs),
            _ => {}
        }
    }

    fn unused_functions(&mut self, reached: &Declared<'a, ()>, funs: &'a [Fun]) {
        for fun in funs {
            if reached.get(&fun.name).is_none() {
                self.warn(Cause::Function(&fun.name), fun.span);
            }
        }
    }

    /// The functions that `main` reaches. A function is called by its own group and by those after it, so one walk from the last call
    /// to the first finds all but what a group calls among itself, and each further one finds more of that.
    pub fn reached(&mut self, program: &'a Program) -> Declared<'a, ()> {
        let mut reached = Declared::new(self.alloc);
        add_main(&mut reached, program);
        for _ in 0..self.calls.len() {
            let before = reached.names().len();
            self.reach_more(&mut reached);
            if reached.names().len() == before {
                break;
            }
        }
        self.note.fail_if(reached.is_short());
        reached
    }

    // Adds what the functions call that are reached.
    fn reach_more(&self, reached: &mut Declared<'a, ()>) {
        for call in self.calls.iter().rev() {
            if reached.get(call.caller).is_some() && reached.get(call.callee).is_none() {
                reached.add(call.callee, ());
            }
        }
    }
}

fn add_main<'a>(reached: &mut Declared<'a, ()>, program: &'a Program) {
    for decl in program.decls.iter() {
        if let Decl::Group(funs) = decl {
            add_main_of(reached, funs);
        }
    }
}

fn add_main_of<'a>(reached: &mut Declared<'a, ()>, funs: &'a [Fun]) {
    for fun in funs {
        if fun.name.bytes() == b"main".as_slice() {
            reached.add(&fun.name, ());
        }
    }
}
