// Terms and their labels.

use nv_base::{Args, Atom, Cmp, Mem, Prim, Vars};

/// What a function does, up to where it jumps, calls, returns, throws or ends.
#[cycle(term)]
pub enum Term {
    /// Gives a variable the word of a primitive.
    Let(u32, Prim, Box<Term>),
    /// Gives variables the words of a memory from an address on.
    Read(Mem, Vars, Atom, Box<Term>),
    /// Writes words to a memory from an address on.
    Write(Mem, Atom, Args, Box<Term>),
    /// Does the first part where the comparison holds, else the second.
    If(Cmp, Atom, Atom, Box<Term>, Box<Term>),
    /// Makes labels, which it and the labels' own bodies may name, and goes on.
    Fix(Vec<Cont>, Box<Term>),
    /// Calls a function, by its number in the program. Its words go to the label, its exceptions to the
    /// handlers, each a number with a label, the nearest first. Without a label the function is of the own
    /// group, and takes over from the caller.
    Call(u32, Vec<Atom>, Option<u32>, Vec<(u16, u32)>),
    /// Gives words to the label of the call that the function is in, or ends the run with them.
    Return(Vec<Atom>),
    /// Gives words to the nearest handler of the exception's number among the calls that wait, or ends
    /// the run with the exception.
    Throw(u16, Args),
    /// Goes on at a label.
    Jump(u32, Vec<Atom>),
    /// Ends the run: with number 0 with a result, else with the exception of the number.
    Halt(u16, Args),
}

/// A label, with its parameters and what it does.
#[cycle(term)]
#[derive(Drop)]
pub struct Cont {
    pub label: u32,
    pub params: Vec<u32>,
    pub body: Term,
}

// A loop along what follows, of labels along the body of the last one: that is how long programs grow.
impl Drop for Term {
    #[cycle(term)]
    fn drop(mut self) {
        'spine: loop {
            match self {
                Term::Let(_, _, rest) => self = Box::into_inner(rest),
                Term::Read(_, _, _, rest) => self = Box::into_inner(rest),
                Term::Write(_, _, _, rest) => self = Box::into_inner(rest),
                Term::If(_, _, _, first, second) => {
                    let _first = first;
                    self = Box::into_inner(second);
                }
                Term::Fix(mut conts, rest) => {
                    let _rest = rest;
                    match conts.pop() {
                        Some(
                            Cont {
                                label: _,
                                params: _,
                                body,
                            },
                        ) => self = body,
                        None => return,
                    }
                }
                Term::Call(_, _, _, _) => return,
                Term::Return(_) => return,
                Term::Throw(_, _) => return,
                Term::Jump(_, _) => return,
                Term::Halt(_, _) => return,
            }
        }
    }
}
