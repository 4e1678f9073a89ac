// Tests, and code that does one part or another by a test.

ghost use Rattle.std.specs.Prelude.{◌≡◌, ◌<◌, ◌∷◌, [], if◌then◌else◌, IfOk};
ghost use Rattle.nv_base.specs.declared.term.Atom.TheVariants.{Lit};
ghost use Rattle.nv_base.specs.Words.{Env};
ghost use Rattle.flat_ir.specs.Meaning.{Calls, does};
ghost use Rattle.nv_base.specs.Running.{Running};
ghost use Rattle.flat_ir.specs.Running.{Gives};
ghost use Rattle.flat_ir.specs.Spine.{steps_do};
ghost use Rattle.nv_flatten_values.specs.inner.Code.{chosen};
ghost use Rattle.nv_flatten_values.specs.inner.Well.{GivesLiteral, IsChoice};

use flat_ir::{Flat, Step, join};
use nv_base::{Atom, Cmp, NoMemory};
use std::alloc::Global;

/// Code in a box. Where there is no memory for it, the code and the live values go by a call.
macro_rules! boxed {
    ($alloc:expr, $code:expr $(, $held:expr)*) => {
        match Box::new($alloc, $code) {
            Ok(inside) => inside,
            Err(failed) => {
                drop(failed.value);
                $(drop($held);)*
                return Err(NoMemory);
            }
        }
    };
}

/// Steps, and a comparison that after them is a condition's truth.
#[derive(Drop)]
pub struct Test {
    pub steps: Vec<Step>,
    pub cmp: Cmp,
    pub left: Atom,
    pub right: Atom,
}

/// Code that gives a truth.
pub fn give_truth(alloc: Global, b: bool) -> Result<Flat, NoMemory>
    ensures gives { IfOk result (λ t. (call : Calls) (env : Env) (now : Running) → does call t env now ≡ Gives ((if b then 1 else 0) ∷ []) now) }
    ensures literal { IfOk result (λ t. GivesLiteral t) }
{
    let mut words = Vec::new(alloc);
    words.push(Atom::Lit(b as u32))?;
    Ok(Flat::Give(words))
}

/// Code that does the first part where a test holds, else the second.
pub fn branch(alloc: Global, test: Test, first: Flat, second: Flat) -> Result<Flat, NoMemory>
    ensures chooses { IfOk result (λ t. (call : Calls) → does call t ≡ steps_do call test.steps.items (chosen test.cmp test.left test.right (does call first) (does call second))) }
    ensures nodes { IfOk result (λ t. IsChoice test.steps.items test.cmp test.left test.right first second t) }
{
    let first = boxed!(alloc, first, second, test.steps);
    let second = boxed!(alloc, second, first, test.steps);
    Ok(join(
        alloc,
        test.steps,
        Flat::If(test.cmp, test.left, test.right, first, second),
    )?)
}
