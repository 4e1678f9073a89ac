//! The code of all points, one after the other.

ghost use Rattle.std.specs.Prelude.{IfOk};
ghost use Rattle.ssu_ir.specs.View.{labels_view};
ghost use Rattle.place_plan.specs.Plan.{plan_view};
ghost use Rattle.ucode_emit.specs.inner.Drafted.{AreDrafted};
ghost use Rattle.ucode_emit.specs.inner.Layers.{Placed};

use crate::draft::Draft;
use crate::settle::places_of;
use crate::walk::{points_of, push_points};
use nv_base::NoMemory;
use place_plan::Placement;
use ssu_ir::Ssu;
use std::alloc::Global;

/// The code of all points, whose branches name points.
#[derive(Drop)]
pub struct WholeDraft {
    pub code: Draft,
    /// The place at which each point begins.
    pub places: Vec<u32>,
    /// The place at which each label begins.
    pub starts: Vec<u32>,
}

/// The code of all points, and where points and labels begin.
pub fn draft_of(alloc: Global, s: &Ssu, p: &Placement) -> Result<WholeDraft, NoMemory>
    requires { Placed (labels_view s.now) (plan_view p.now) }
    ensures { IfOk result (λ d. AreDrafted (labels_view s.now) (plan_view p.now) d.code d.places.items d.starts.items) }
{
    let points = points_of(alloc, s, p)?;
    let mut code = Draft::new(alloc);
    let places = push_points(alloc, &mut code, s, p, &points)?;
    let starts = places_of(alloc, &points.entries, &places)?;
    Ok(WholeDraft {
        code,
        places,
        starts,
    })
}
