//! How uses are served, where accesses begin, and through which registers slots pass.

ghost use Rattle.std.specs.Prelude.{◌≡◌, ◌++◌, map, IfOk, OnOk};
ghost use Rattle.std.specs.List.{flat_map};
ghost use Rattle.bank_prog_form.specs.inner.Form.{access_view, summary_view};
ghost use Rattle.reg_assign_reading.specs.ReadOff as pure;
ghost use Rattle.reg_assign.specs.inner.AssignmentInputs.{labels_in, says_in, numbers_in};
ghost use Rattle.reg_assign_reading.specs.inner.Reading.{says, part_pass};
ghost use Rattle.place_plan.specs.inner.UseViews.{role_view, use_view};

use crate::given::AssignmentInputs;
use crate::places::{bank_place, home_place, small, word_place};
use bank_prog::services::services;
use bank_prog::{Access, Bank, PointSummary, Role, Service, Use};
use nv_base::NoMemory;
use place_plan::{First, Pass, Place, Serve};
use reg_assign_reading::columns::Family;
use reg_assign_reading::reading::Reading;
use std::alloc::Global;

/// Where a use wants its word.
fn target(g: &AssignmentInputs<'_>, u: Use, h: Bank) -> Result<Place, NoMemory>
    ensures { IfOk result (λ q. q ≡ pure.target (labels_in g.now) (says_in g.now) (numbers_in g.now) (use_view u) h (role_view u.role)) }
{
    match u.role {
        Role::Operand => bank_place(g, u, h),
        Role::Address => bank_place(g, u, h),
        Role::Written(_, _) => word_place(&g.reading, u),
        Role::Argument(l, i) => Ok(home_place(&g.numbers, h, g.reading.bank.form.parameter(l, i))),
        Role::Ending(i) => Ok(Place::A(small(u64::from(i))?)),
    }
}

/// Serves a use in a way, or where there is none takes its word from its write register.
fn serve_by(g: &AssignmentInputs<'_>, u: Use, s: Option<Service>) -> Result<Serve, NoMemory>
    ensures { IfOk result (λ v. v ≡ pure.serve_by (labels_in g.now) (says_in g.now) (numbers_in g.now) (use_view u) s) }
{
    let operand = small(u64::from(u.operand))?;
    match s {
        Some(s) => Ok(Serve {
            point: u.point,
            operand,
            from: bank_place(g, u, s.from)?,
            at: target(g, u, s.at)?,
        }),
        None => {
            let word = word_place(&g.reading, u)?;
            Ok(Serve {
                point: u.point,
                operand,
                from: word,
                at: word,
            })
        }
    }
}

/// Serves a use.
fn use_serve(g: &AssignmentInputs<'_>, u: Use) -> Result<Serve, NoMemory>
    ensures { IfOk result (λ v. v ≡ pure.use_serve (labels_in g.now) (says_in g.now) (numbers_in g.now) (use_view u)) }
{
    serve_by(g, u, g.reading.service_on(u, services(u.role)))
}

/// Serves these uses.
pub fn serves_of(
    alloc: Global,
    g: &AssignmentInputs<'_>,
    uses: &[Use],
) -> Result<Vec<Serve>, NoMemory>
    ensures { IfOk result (λ v. v.items ≡ map (pure.use_serve (labels_in g.now) (says_in g.now) (numbers_in g.now)) (map use_view uses.now)) }
{
    let mut serves = Vec::new(alloc);
    for u in uses {
        serves.push(use_serve(g, *u)?)?;
    }
    Ok(serves)
}

/// Where these accesses begin.
pub fn firsts_of(
    alloc: Global,
    r: &Reading<'_>,
    accesses: &[Access],
) -> Result<Vec<First>, NoMemory>
    ensures { IfOk result (λ v. v.items ≡ map (pure.access_first (says r.now)) (map access_view accesses.now)) }
{
    let mut firsts = Vec::new(alloc);
    for a in accesses {
        firsts.push(First {
            point: a.point,
            first: r.begins(a.point),
        })?;
    }
    Ok(firsts)
}

/// The registers through which slots pass at a point, if one is named.
fn push_pass(out: &mut Vec<Pass>, r: &Reading<'_>, point: u32) -> Result<(), NoMemory>
    ensures { OnOk result (out.new.items ≡ out.old.items ++ pure.pass_by point (pure.pass_l (says r.now) point) (pure.pass_s (says r.now) point)) }
{
    let l = r.first_on(Family::ReadVia(point));
    let s = r.first_on(Family::WriteVia(point));
    if l.is_some() || s.is_some() {
        out.push(Pass { point, l, s })?;
    }
    Ok(())
}

/// The registers through which slots pass at these points.
pub fn passes_of(
    alloc: Global,
    r: &Reading<'_>,
    summaries: &[PointSummary],
) -> Result<Vec<Pass>, NoMemory>
    ensures { IfOk result (λ v. v.items ≡ flat_map (part_pass (says r.now)) (map summary_view summaries.now)) }
{
    let mut passes = Vec::new(alloc);
    for summary in summaries {
        push_pass(&mut passes, r, summary.point)?;
    }
    Ok(passes)
}
