//! The costs of the columns under weights of labels.

ghost use Rattle.std.specs.Prelude.{◌≡◌, ◌≤◌, ℕ, nat_eq, List, map, All, IfOk};
ghost use Rattle.std.specs.HashMap.{get};
ghost use Rattle.ssu_ir.specs.Points.{points};
ghost use Rattle.ssu_ir.specs.Tree.{Label};
ghost use Rattle.ssu_ir.specs.View.{labels_view};
ghost use Rattle.place_weights.specs.Weighted.{AreWeights, weight_of};
ghost use Rattle.ssu_liveness.specs.inner.PointIds.{kind_of_point};
ghost use Rattle.bank_prog_form.specs.inner.Form.{value_view};
ghost use Rattle.bank_prog.specs.Weighted.{column_point, point_in, weigh};
ghost use Rattle.bank_prog.specs.inner.Located.{label_at, labels_behind, known_point, AreLocated};
ghost use Rattle.ssu_ir.specs.declared.ssu.Ssu as ssu;

use bank_prog_form::column::Column;
use bank_prog_form::form::{Form, Value};
use bank_prog_form::tables::short;
use nv_base::NoMemory;
use place_weights::Weights;
use ssu_ir::Ssu;
use ssu_liveness::PointId;
use std::alloc::Global;
use std::collections::HashMap;

/// The weight of each point, in order, and of any past the last; the point that defines each value.
#[derive(Drop)]
pub struct Located {
    pub weights: Vec<u16>,
    pub past: u16,
    pub points: HashMap<u32, u32>,
}

/// The label of a point that follows one of this label.
fn label_at(point_id: PointId, label: u32) -> Result<u32, NoMemory>
    ensures { IfOk result (λ l. (s : ssu.Ssu) → l ≡ label_at label (kind_of_point s point_id)) }
{
    match point_id {
        PointId::Entry(l) => short(l),
        PointId::Node(_) => Ok(label),
    }
}

/// The weights of points in order.
fn weights_of_points(
    alloc: Global,
    point_ids: &[PointId],
    w: &Weights,
) -> Result<Vec<u16>, NoMemory>
    ensures { IfOk result (λ v. (s : ssu.Ssu) → v.items ≡ map (weight_of w.now) (labels_behind 0 (map (kind_of_point s) point_ids.now))) }
{
    let mut weights = Vec::new(alloc);
    let mut label = 0;
    for point_id in point_ids {
        label = label_at(*point_id, label)?;
        weights.push(w.of(label))?;
    }
    Ok(weights)
}

/// The point that defines each value.
pub fn defining_points(alloc: Global, values: &[Value]) -> Result<HashMap<u32, u32>, NoMemory>
    ensures { IfOk result (λ m. (x : ℕ) → known_point (get nat_eq m x) ≡ point_in (map value_view values.now) x) }
{
    let mut points = HashMap::new(alloc);
    let mut i = values.len();
    while i > 0 {
        i -= 1;
        points.insert(values[i].var, values[i].point)?;
    }
    Ok(points)
}

/// What is kept of a form to weigh its columns.
fn locate(alloc: Global, f: &Form<'_>, w: &Weights) -> Result<Located, NoMemory>
    ensures located { IfOk result (AreLocated (labels_view f.now.ssu.now) w.now) }
    ensures weights { IfOk result (λ _. AreWeights w.now) }
{
    Ok(Located {
        weights: weights_of_points(alloc, &f.point_ids, w)?,
        past: w.of(short(f.ssu.labels.len())?),
        points: defining_points(alloc, &f.tables.values)?,
    })
}

impl Located {
    /// The point that defines a value.
    fn point_of(&self, x: u32) -> u32
        ensures { result ≡ known_point (get nat_eq self.now.points x) }
    {
        self.points.get(&x).copied().unwrap_or(0)
    }

    /// The point in which a column lies.
    fn column_point(&self, c: Column) -> u32
        ensures { (labels : List Label) (ws : List ℕ) → AreLocated labels ws self.now → result ≡ column_point labels c }
    {
        match c {
            Column::Def(x, _) => self.point_of(x),
            Column::DirectWrite(k, _, _) => k,
            Column::Fill(x, _) => self.point_of(x),
            Column::Stay(x, _) => self.point_of(x),
            Column::EarlyWrite(k, _, _) => k,
            Column::First(k, _) => k,
            Column::Serve(k, _, _, _) => k,
            Column::ReadVia(k, _) => k,
            Column::WriteVia(k, _) => k,
        }
    }

    /// The cost of a column.
    fn cost(&self, c: (Column, u32)) -> u32
        requires { c.1 ≤ 33 }
        ensures { (labels : List Label) (ws : List ℕ) → AreLocated labels ws self.now → result ≡ (weigh labels ws c).1 }
    {
        let k = self.column_point(c.0) as usize;
        let weight = self.weights.get(k).copied().unwrap_or(self.past);
        c.1 * u32::from(weight)
    }
}

/// The costs of the columns of a form, where its labels have these weights.
pub fn weighted_costs(
    alloc: Global,
    f: &Form<'_>,
    priced: &[(Column, u32)],
    w: &Weights,
) -> Result<Vec<u32>, NoMemory>
    requires { All (λ c. c.1 ≤ 33) priced.now }
    ensures costs { IfOk result (λ v. v.items ≡ map (λ c. c.1) (map (weigh (labels_view f.now.ssu.now) w.now) priced.now)) }
    ensures weights { IfOk result (λ _. AreWeights w.now) }
{
    let located = locate(alloc, f, w)?;
    let mut costs = Vec::new(alloc);
    for c in priced {
        costs.push(located.cost(*c))?;
    }
    Ok(costs)
}
