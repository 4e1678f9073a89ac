// Nodes and labels.

use nv_base::{Bin, Cmp, Mem, Una, Vars};

/// The number of a node.
#[derive(Clone, Copy, PartialEq, Eq)]
pub struct NodeId(pub usize);

/// One node; the nodes after it by their numbers.
#[derive(Drop)]
pub enum SsuNode {
    /// Gives a variable the word of a literal.
    Lit(u32, u32, NodeId),
    /// Gives a variable the word of an operation on one word.
    Una(u32, Una, u32, NodeId),
    /// Gives a variable the word of an operation on two words.
    Bin(u32, Bin, u32, u32, NodeId),
    /// Gives each of some variables the word of one.
    Clone(Vec<u32>, u32, NodeId),
    /// Gives variables the words of a memory from an address on.
    Read(Mem, Vars, u32, NodeId),
    /// Writes words to a memory from an address on.
    Write(Mem, u32, Vars, NodeId),
    /// Goes on with the first node where the comparison holds, else with the second.
    If(Cmp, u32, u32, NodeId, NodeId),
    /// Goes on at a label, by its number, with the words of its parameters.
    Jump(u32, Vec<u32>),
    /// Ends the run: with number 0 with a result, else with the exception of the number.
    Halt(u16, Vars),
}

/// A label: its parameters, and the number of its first node.
#[derive(Drop)]
pub struct SsuLabel {
    pub params: Vec<u32>,
    pub body: NodeId,
}
