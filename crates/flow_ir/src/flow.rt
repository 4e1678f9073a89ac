// Trees, labels and flows.

ghost use Rattle.std.specs.Prelude.{◌≡◌, true, map};
ghost use Rattle.flow_ir.specs.View.{label_view};
ghost use Rattle.flow_ir.specs.Formed.{is_flow};

use nv_base::{Args, Atom, Cmp, Mem, Prim, Vars};

/// What a label does, up to where it jumps or ends.
pub enum Tree {
    /// Gives a variable the word of a primitive.
    Let(u32, Prim, Box<Tree>),
    /// Gives variables the words of a memory from an address on.
    Read(Mem, Vars, Atom, Box<Tree>),
    /// Writes words to a memory from an address on.
    Write(Mem, Atom, Args, Box<Tree>),
    /// Does the first part where the comparison holds, else the second.
    If(Cmp, Atom, Atom, Box<Tree>, Box<Tree>),
    /// Goes on at a label, by its number in the flow, with the words of its parameters.
    Jump(u32, Vec<Atom>),
    /// Ends the run: with number 0 with a result, else with the exception of the number.
    Halt(u16, Args),
}

// A loop along what follows, so that a long tree doesn't run out of stack.
impl Drop for Tree {
    fn drop(mut self) {
        'spine: loop {
            match self {
                Tree::Let(_, _, rest) => self = Box::into_inner(rest),
                Tree::Read(_, _, _, rest) => self = Box::into_inner(rest),
                Tree::Write(_, _, _, rest) => self = Box::into_inner(rest),
                Tree::If(_, _, _, first, second) => {
                    let _first = first;
                    self = Box::into_inner(second);
                }
                Tree::Jump(_, _) => return,
                Tree::Halt(_, _) => return,
            }
        }
    }
}

/// A label: its parameters, and what it does.
#[derive(Drop)]
pub struct Label {
    pub params: Vec<u32>,
    pub body: Tree,
}

/// A well formed flow. A run starts at label 0, which no jump names, with the arguments as its
/// parameters, 8 at most. A jump names a label that is there, with as many words as that has
/// parameters; each variable stands once in its label, above its use.
#[derive(Drop)]
pub struct Flow {
    pub labels: Vec<Label>,
    pub ghost formed: { is_flow (map label_view labels.items) ≡ true },
}
