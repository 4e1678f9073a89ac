//! How many instructions are for what.
ghost use Rattle.std.specs.Prelude.{◌≡◌, ◌+◌, ◌<◌, ◌^◌, ℕ, List, [], length};
ghost use Rattle.uc_isa.specs.Moves.{moves};
ghost use Rattle.nova_show.specs.Kinds.{AddsOne, AreNumbers, AreParts, cost_of, kind_weight};

use crate::kind::{Kind, kind_of};
use uc_isa::Instr;

/// How many instructions of code there are, and how many of them are for what.
#[derive(Clone, Copy)]
pub struct Counts {
    pub all: u64,
    pub within: u64,
    pub between: u64,
    pub literals: u64,
    pub spills: u64,
}

impl Counts {
    // One instruction more.
    fn add(&mut self, kind: Kind)
        requires few { self.old.all < 2 ^ 31 }
        requires parts { AreParts self.old }
        ensures all { self.new.all ≡ self.old.all + 1 }
        ensures parts { AreParts self.new }
        ensures one { AddsOne kind self.old self.new }
        ensures cost { cost_of self.new ≡ cost_of self.old + kind_weight kind }
    {
        self.all += 1;
        match kind {
            Kind::Within => self.within += 1,
            Kind::Between => self.between += 1,
            Kind::Literal => self.literals += 1,
            Kind::Spill => self.spills += 1,
            Kind::Other => {}
        }
    }
}

/// Those of some instructions. Where each label weighs 1, their moves cost what the counts of moves between banks and of
/// accesses to slots come to.
pub fn counts_of(list: &[Instr]) -> Counts
    requires few { length list.now < 2 ^ 31 }
    ensures all { result.all ≡ length list.now }
    ensures each { AreNumbers result list.now }
    ensures cost { (starts : List ℕ) → moves list.now starts [] ≡ cost_of result }
{
    let mut counts = Counts {
        all: 0,
        within: 0,
        between: 0,
        literals: 0,
        spills: 0,
    };
    for i in list {
        counts.add(kind_of(i));
    }
    counts
}
