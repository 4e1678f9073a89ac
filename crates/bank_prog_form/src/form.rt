//! The values, uses and accesses of a form in tables.

ghost use Rattle.std.specs.Prelude.{◌≡◌, ℕ, nat_eq, true, map, IfOk};
ghost use Rattle.std.specs.HashMap.{get};
ghost use Rattle.ssu_ir.specs.Points.{points};
ghost use Rattle.ssu_ir.specs.Single.{single};
ghost use Rattle.ssu_ir.specs.Slots.{bare_all};
ghost use Rattle.ssu_ir.specs.View.{labels_view, placed_of};
ghost use Rattle.ssu_liveness.specs.LiveRows.{items_of};
ghost use Rattle.ssu_liveness.specs.inner.Live.{source_among, value_by, labels_rows};
ghost use Rattle.ssu_liveness.specs.inner.PointIds.{kind_of_point};
ghost use Rattle.place_plan.specs.Uses.{uses_of, is_used};
ghost use Rattle.place_plan.specs.Fits.{parameter};
ghost use Rattle.place_plan.specs.inner.UseViews.{use_view};
ghost use Rattle.bank_prog_form.specs.Columns.{origin_of, is_fetched};
ghost use Rattle.bank_prog_form.specs.inner.Form.{AreTables, origin_view};

use crate::tables::tables_of;
use nv_base::{Mem, NoMemory};
use place_plan::Use;
use ssu_ir::Ssu;
use ssu_liveness::{Copies, PointId, all_rows, copies_of, point_ids_of};
use std::alloc::Global;
use std::collections::HashMap;

/// How a value comes: parameter i of label l, a result, or word i of a read.
#[derive(Clone, Copy)]
pub enum Origin {
    Parameter(u32, u32),
    Result,
    Fetched(Mem, u32),
}

impl Origin {
    /// Whether the value is read.
    pub fn is_fetched(self) -> bool
        ensures { result ≡ is_fetched (origin_view self) }
    {
        match self {
            Origin::Parameter(_, _) => false,
            Origin::Result => false,
            Origin::Fetched(_, _) => true,
        }
    }
}

/// A value, by the point that defines it.
#[derive(Clone, Copy)]
pub struct Value {
    pub point: u32,
    pub var: u32,
    pub origin: Origin,
}

/// N words of a memory are read or written at a point.
#[derive(Clone, Copy)]
pub struct Access {
    pub point: u32,
    pub mem: Mem,
    pub words: u32,
}

/// A point: what it defines, uses, reads and writes.
#[derive(Drop)]
pub struct PointSummary {
    pub point: u32,
    /// How many words its access has.
    pub words: u32,
    /// Whether it is an instruction of two operands.
    pub two: bool,
    /// Whether it has a use.
    pub busy: bool,
    pub values: Vec<Value>,
    pub uses: Vec<Use>,
    pub reads: Vec<Access>,
    pub writes: Vec<Access>,
}

/// All points, values, uses and accesses in order, of each variable how its value comes, and of each
/// value that is used its uses.
#[derive(Drop)]
pub struct Tables {
    pub summaries: Vec<PointSummary>,
    pub values: Vec<Value>,
    pub uses: Vec<Use>,
    pub accesses: Vec<Access>,
    pub origins: HashMap<u32, Origin>,
    pub users: HashMap<u32, Vec<Use>>,
}

/// A form with its tables: its points, of each name that is a clone the value, the live values at each point, and the rest.
#[derive(Drop)]
pub struct Form<'a> {
    pub ssu: &'a Ssu,
    pub point_ids: Vec<PointId>,
    pub copies: Copies,
    pub live: Vec<Vec<u32>>,
    pub tables: Tables,
    ghost in_order: { map (kind_of_point ssu.now) point_ids.items ≡ map (λ p. p.place) (points (labels_view ssu.now)) },
    ghost sources: { (z : ℕ) → get nat_eq copies z ≡ source_among (bare_all (placed_of ssu.now)) z },
    ghost rows: { items_of live.items ≡ labels_rows (value_by (get nat_eq copies)) (labels_view ssu.now) },
    ghost right: { AreTables (labels_view ssu.now) tables },
}

/// A form with its tables.
pub fn form_of(alloc: Global, s: &Ssu) -> Result<Form<'_>, NoMemory>
    requires { single (labels_view s.now) ≡ true }
    ensures { IfOk result (λ f. f.ssu.now ≡ s.now) }
{
    let point_ids = point_ids_of(alloc, s)?;
    let copies = copies_of(alloc, s)?;
    let live = all_rows(alloc, s, &copies)?;
    let tables = tables_of(alloc, s, &copies, &point_ids)?;
    Ok(Form {
        ssu: s,
        point_ids,
        copies,
        live,
        tables,
    })
}

impl Form<'_> {
    /// How the value of a variable comes.
    pub fn origin_of(&self, x: u32) -> Origin
        ensures { origin_view result ≡ origin_of (labels_view self.now.ssu.now) x }
    {
        match self.tables.origins.get(&x) {
            Some(s) => *s,
            None => Origin::Result,
        }
    }

    /// The uses of a value.
    pub fn uses_of(&self, x: u32) -> &[Use]
        ensures { map use_view result.now ≡ uses_of (labels_view self.now.ssu.now) x }
    {
        match self.tables.users.get(&x) {
            Some(us) => us,
            None => &[],
        }
    }

    /// Whether a value is used.
    pub fn is_used(&self, x: u32) -> bool
        ensures { result ≡ is_used (labels_view self.now.ssu.now) x }
    {
        !self.uses_of(x).is_empty()
    }

    /// The parameter of this number of a label.
    pub fn parameter(&self, l: u32, i: u32) -> u32
        ensures { result ≡ parameter (labels_view self.now.ssu.now) l i }
    {
        match self.ssu.labels.get(l as usize) {
            Some(l) => l.params.get(i as usize).copied().unwrap_or(0),
            None => 0,
        }
    }
}
