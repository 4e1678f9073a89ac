//! Trees of a search that was cut off.

ghost use Rattle.std.specs.Prelude.{◌≡◌, ◌<◌, ◌^◌, IsTrue, ◌↔◌, length};
ghost use Rattle.zo_model.specs.Program.{IsValid};
ghost use Rattle.zo_cert_tree.specs.Certificate.{IsShaped, IsTreeWith};
ghost use Rattle.zo_cert_tree.specs.Spent.{IsSpent};

use crate::cert::Cert;
use crate::checking::{Work, shaped};
use crate::limits::has_left;
use zo_model::ZeroOne;

/// Whether the tree is shaped, with as many branches as the budget allows and a node left open.
pub fn is_spent(z: &ZeroOne, c: &Cert, budget: u32, w: &mut Work) -> bool
    requires valid { IsValid z.now }
    requires work { w.old ≡ z.now.costs.items }
    requires few { length c.now.nodes.items < 2 ^ 32 }
    ensures work { w.new ≡ w.old }
    ensures exact { IsTrue result ↔ (IsTreeWith (IsShaped z.now) c.now × IsSpent budget c.now) }
{
    match shaped(z, c, w) {
        Some(branches) => branches == budget && has_left(&c.nodes),
        None => false,
    }
}
