//! The commands of the machine's side.
ghost use Rattle.laws_commands.specs.Machine.{PeepKeeps, SumCommands};

/// What `lint`, `run`, `dis` and `contexts` make of the object of a sum.
#[tactic(auto, using(crate::proofs::MachineProved::sum_commands))]
pub fn sum_commands()
    ensures { SumCommands }
{}

/// Code without its needless instructions does what it did.
pub fn peep_keeps()
    ensures { PeepKeeps }
{}
