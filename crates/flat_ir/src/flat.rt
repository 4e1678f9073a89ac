// Flat code and its functions.

ghost use Rattle.std.specs.Prelude.{◌≡◌, true};
ghost use Rattle.flat_ir.specs.Formed.{is_program};

use nv_base::{Args, Atom, Cmp, Mem, Prim, Vars};

/// What a function does. Every value is words; true is 1 and false is 0.
pub enum Flat {
    /// Gives a variable the word of a primitive.
    Let(u32, Prim, Box<Flat>),
    /// Gives variables the words of a memory from an address on.
    Fetch(Mem, Vars, Atom, Box<Flat>),
    /// Stores words in a memory from an address on.
    Store(Mem, Atom, Args, Box<Flat>),
    /// Does the first part where the comparison holds, else the second.
    If(Cmp, Atom, Atom, Box<Flat>, Box<Flat>),
    /// Does the first part, and gives its words to variables of the second.
    Bind(Vec<u32>, Box<Flat>, Box<Flat>),
    /// Calls a function, by its number in the program, and gives what it gives.
    Call(u32, Vec<Atom>),
    /// Raises the exception of a number, counted from 1, with its words.
    Raise(u16, Args),
    /// Does the first part; where that raises the exception of the number, does the second, whose variables have the words.
    Try(Box<Flat>, u16, Vars, Box<Flat>),
    /// Gives words.
    Give(Vec<Atom>),
}

// A loop along what follows, so that long code doesn't run out of stack; first parts lie no deeper than in the source.
impl Drop for Flat {
    fn drop(mut self) {
        'spine: loop {
            match self {
                Flat::Let(_, _, rest) => self = Box::into_inner(rest),
                Flat::Fetch(_, _, _, rest) => self = Box::into_inner(rest),
                Flat::Store(_, _, _, rest) => self = Box::into_inner(rest),
                Flat::If(_, _, _, first, second) => {
                    let _first = first;
                    self = Box::into_inner(second);
                }
                Flat::Bind(_, first, rest) => {
                    let _first = first;
                    self = Box::into_inner(rest);
                }
                Flat::Try(first, _, _, handler) => {
                    let _first = first;
                    self = Box::into_inner(handler);
                }
                Flat::Call(_, _) => return,
                Flat::Raise(_, _) => return,
                Flat::Give(_) => return,
            }
        }
    }
}

/// A function: the variables of its parameters, how many words it gives, what it does, and the
/// number of its group. A function calls those of earlier groups, and those of its own in tail
/// position.
#[derive(Drop)]
pub struct FlatFun {
    pub params: Vec<u32>,
    pub results: u32,
    pub body: Flat,
    pub group: u32,
}

/// A well formed program: its functions, and the number of `main` among them. A function gives the
/// same number of words wherever it ends, and takes as many as each call of it gives; a call goes to
/// an earlier group, or in tail position to the own one; each variable is defined once in its
/// function, above its use.
#[derive(Drop)]
pub struct FlatProgram {
    pub funs: Vec<FlatFun>,
    pub main: u32,
    pub ghost formed: { is_program funs.items main ≡ true },
}
