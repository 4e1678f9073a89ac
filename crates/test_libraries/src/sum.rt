// The sum of two parameters.
ghost use Rattle.std.specs.Prelude.{◌≡◌, IfOk};
ghost use Rattle.ssu_ir.specs.Examples.{sum_of_two};
ghost use Rattle.ssu_ir.specs.View.{labels_view};

use nv_base::{Bin, NoMemory, Vars};
use ssu_ir::{Ssu, SsuBuild, SsuLabel, SsuNode};
use std::alloc::Global;

/// The sum of two parameters.
pub fn sum(alloc: Global) -> Result<Ssu, NoMemory>
    ensures { IfOk result (λ s. labels_view s ≡ sum_of_two) }
{
    let words = Vars::from_slice(alloc, &[2])?;
    let params = Vec::from_array(alloc, [0, 1])?;
    let mut b = SsuBuild::new(alloc);
    let end = b.add(SsuNode::Halt(0, words))?;
    let body = b.add(SsuNode::Bin(2, Bin::Add, 0, 1, end))?;
    let labels = Vec::from_array(alloc, [SsuLabel { params, body }])?;
    Ok(b.finish(labels))
}
