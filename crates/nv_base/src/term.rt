// Memories, operands, operations and comparisons.
ghost use Rattle.std.specs.Prelude.{◌≡◌, ◌≤◌};
ghost use Rattle.nv_base.specs.Words.{una_word, bin_word, compares, negated as negation, HasCount};

use crate::word;
use smallvec::SmallVec;
use std::alloc::Global;

/// A kind of packet memory: SRAM and scratch are addressed in words, SDRAM in quadwords of two words.
#[derive(Clone, Copy, PartialEq, Eq)]
pub enum Mem {
    Sram,
    Sdram,
    Scratch,
}

impl Mem {
    ghost use Rattle.std.specs.Prelude.{◌≡◌, ◌≢◌, MatchOption};
    ghost use Rattle.nv_base.specs.declared.term.Mem.{Mem};
    ghost use Rattle.nv_base.specs.MemoryNames.{memory_name};

    /// The name of the memory in texts.
    pub fn name(self) -> &'static [u8]
        ensures { result.now ≡ memory_name self }
    {
        match self {
            Mem::Sram => b"sram",
            Mem::Sdram => b"sdram",
            Mem::Scratch => b"scratch",
        }
    }

    /// The memory of a name.
    pub fn of_name(name: &[u8]) -> Option<Mem>
        ensures { MatchOption result ((m : Mem) → name.now ≢ memory_name m) (λ m. name.now ≡ memory_name m) }
    {
        match name {
            b"sram" => Some(Mem::Sram),
            b"sdram" => Some(Mem::Sdram),
            b"scratch" => Some(Mem::Scratch),
            _ => None,
        }
    }
}

/// Whether an access was within its memory.
#[derive(Clone, Copy, Debug, PartialEq, Eq)]
pub enum Access {
    /// It was, and is done.
    Done,
    /// It reached past the memory, and nothing changed.
    Bad,
}

/// An operand: a variable by its number, or a literal.
#[derive(Clone, Copy)]
pub enum Atom {
    Var(u32),
    Lit(u32),
}

// What an unused place of a short list holds.
impl Default for Atom {
    ghost use Rattle.nv_base.specs.declared.term.Atom.TheVariants.{Lit};

    ghost is_default = { λ a. a ≡ Lit 0 };

    fn default() -> Atom {
        Atom::Lit(0)
    }
}

/// An operation on one word. A count of places is 1 to 31.
#[derive(Clone, Copy)]
pub enum Una {
    /// Each bit turned over.
    Not,
    /// Shifted to the left, with zeros from the right.
    Shl(u8),
    /// Shifted to the right, with zeros from the left.
    Shr(u8),
    /// Rotated to the left.
    Rol(u8),
}

impl Una {
    /// What the operation gives of a word.
    pub fn apply(self, x: u32) -> u32
        requires { HasCount self }
        ensures { result ≡ una_word self x }
    {
        match self {
            Una::Not => word::not(x),
            Una::Shl(k) => word::shl(x, k),
            Una::Shr(k) => word::shr(x, k),
            Una::Rol(k) => word::rol(x, k),
        }
    }
}

/// An operation on two words, modulo 2^32 or bit by bit.
#[derive(Clone, Copy)]
pub enum Bin {
    Add,
    Sub,
    And,
    Or,
    Xor,
}

impl Bin {
    /// What the operation gives of two words.
    pub fn apply(self, x: u32, y: u32) -> u32
        ensures { result ≡ bin_word self x y }
    {
        match self {
            Bin::Add => word::add(x, y),
            Bin::Sub => word::sub(x, y),
            Bin::And => word::and(x, y),
            Bin::Or => word::or(x, y),
            Bin::Xor => word::xor(x, y),
        }
    }
}

/// What gives a variable its word: an operand as it is, or an operation on operands.
#[derive(Clone, Copy)]
pub enum Primitive {
    Same(Atom),
    Una(Una, Atom),
    Bin(Bin, Atom, Atom),
}

/// A comparison of unsigned words.
#[derive(Clone, Copy)]
pub enum Cmp {
    Eq,
    Ne,
    Lt,
    Ge,
}

impl Cmp {
    /// Whether the comparison holds.
    pub fn holds(self, x: u32, y: u32) -> bool
        ensures { result ≡ compares self x y }
    {
        match self {
            Cmp::Eq => x == y,
            Cmp::Ne => x != y,
            Cmp::Lt => x < y,
            Cmp::Ge => x >= y,
        }
    }

    /// The comparison that holds where this one doesn't.
    pub fn negated(self) -> Cmp
        ensures { result ≡ negation self }
    {
        match self {
            Cmp::Eq => Cmp::Ne,
            Cmp::Ne => Cmp::Eq,
            Cmp::Lt => Cmp::Ge,
            Cmp::Ge => Cmp::Lt,
        }
    }
}

/// Operands, mostly at most eight.
pub type Args = SmallVec<Atom, 8, Global>;

/// Variables, mostly at most eight.
pub type Vars = SmallVec<u32, 8, Global>;
