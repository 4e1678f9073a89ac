//! The columns with their costs.

ghost use Rattle.std.specs.Prelude.{◌≡◌, ◌++◌, ◌∷◌, [], map, IfOk, OnOk};
ghost use Rattle.std.specs.List.{flat_map, list_any};
ghost use Rattle.ssu_ir.specs.View.{labels_view};
ghost use Rattle.place_plan.specs.Uses.{is_used};
ghost use Rattle.place_plan.specs.inner.UseViews.{use_view};
ghost use Rattle.bank_prog_form.specs.Columns as columns;
ghost use Rattle.bank_prog_form.specs.declared.column.Column.TheVariants as column;
ghost use Rattle.bank_prog_form.specs.inner.Form as form;
ghost use Rattle.bank_prog_form.specs.inner.Form.{summary_view, value_view, access_view};

use crate::early::push_ears;
use bank_prog_form::column::{Bank, Column, Priced, Service};
use bank_prog_form::form::{Access, Form, Origin, PointSummary, Value};
use bank_prog_form::names;
use bank_prog_form::runs::{beginnings, origin_beginnings, role_beginnings};
use bank_prog_form::services::services;
use nv_base::NoMemory;
use place_plan::Use;
use std::alloc::Global;

/// Three columns more.
fn push_three(
    out: &mut Priced,
    a: (Column, u32),
    b: (Column, u32),
    c: (Column, u32),
) -> Result<(), NoMemory>
    ensures { OnOk result (out.new.items ≡ out.old.items ++ a ∷ b ∷ c ∷ []) }
{
    out.push(a)?;
    out.push(b)?;
    out.push(c)?;
    Ok(())
}

/// Eight columns more, at no cost.
fn push_eight(out: &mut Priced, cs: &[Column; 8]) -> Result<(), NoMemory>
    ensures { OnOk result (out.new.items ≡ out.old.items ++ map (λ c. (c, 0)) cs.now) }
{
    for c in cs {
        out.push((*c, 0))?;
    }
    Ok(())
}

// ---- where values are first put

fn push_def(out: &mut Priced, v: Value) -> Result<(), NoMemory>
    ensures { OnOk result (out.new.items ≡ out.old.items ++ columns.def_columns (value_view v)) }
{
    let a = Column::Def(v.var, Bank::A);
    let b = Column::Def(v.var, Bank::B);
    let m = Column::Def(v.var, Bank::M);
    match v.origin {
        Origin::Parameter(0, _) => push_three(out, (a, 0), (b, 1), (m, 17)),
        Origin::Parameter(_, _) => push_three(out, (a, 0), (b, 0), (m, 0)),
        Origin::Result => push_three(out, (a, 0), (b, 0), (m, 16)),
        Origin::Fetched(_, _) => Ok(()),
    }
}

fn push_defs(out: &mut Priced, values: &[Value]) -> Result<(), NoMemory>
    ensures { OnOk result (out.new.items ≡ out.old.items ++ flat_map columns.def_columns (map value_view values.now)) }
{
    for v in values {
        push_def(out, *v)?;
    }
    Ok(())
}

// ---- words that are put into their write registers

fn push_dir(alloc: Global, out: &mut Priced, f: &Form<'_>, n: u32, u: Use) -> Result<(), NoMemory>
    ensures { OnOk result (out.new.items ≡ out.old.items ++ columns.dir_columns (labels_view f.now.ssu.now) n (use_view u)) }
{
    match f.origin_of(u.value) {
        Origin::Parameter(_, _) => Ok(()),
        Origin::Result => push_dirs_at(out, u, &role_beginnings(alloc, n, u.role)?),
        Origin::Fetched(_, _) => Ok(()),
    }
}

fn push_dirs_at(out: &mut Priced, u: Use, firsts: &[u8]) -> Result<(), NoMemory>
    ensures { OnOk result (out.new.items ≡ out.old.items ++ map (λ f. (column.DirectWrite u.point u.operand f, 0)) firsts.now) }
{
    for f in firsts {
        out.push((Column::DirectWrite(u.point, u.operand, *f), 0))?;
    }
    Ok(())
}

fn push_point_dirs(
    alloc: Global,
    out: &mut Priced,
    f: &Form<'_>,
    n: u32,
    uses: &[Use],
) -> Result<(), NoMemory>
    ensures { OnOk result (out.new.items ≡ out.old.items ++ flat_map (columns.dir_columns (labels_view f.now.ssu.now) n) (map use_view uses.now)) }
{
    for u in uses {
        push_dir(alloc, out, f, n, *u)?;
    }
    Ok(())
}

fn push_dirs(
    alloc: Global,
    out: &mut Priced,
    f: &Form<'_>,
    summaries: &[PointSummary],
) -> Result<(), NoMemory>
    ensures { OnOk result (out.new.items ≡ out.old.items ++ flat_map (form.part_dirs (labels_view f.now.ssu.now)) (map summary_view summaries.now)) }
{
    for summary in summaries {
        push_point_dirs(alloc, out, f, summary.words, &summary.uses)?;
    }
    Ok(())
}

// ---- copies into banks

fn push_fill(out: &mut Priced, f: &Form<'_>, v: Value) -> Result<(), NoMemory>
    ensures { OnOk result (out.new.items ≡ out.old.items ++ columns.fill_columns (labels_view f.now.ssu.now) (value_view v)) }
{
    if f.is_used(v.var) {
        let a = Column::Fill(v.var, Bank::A);
        let b = Column::Fill(v.var, Bank::B);
        let m = Column::Fill(v.var, Bank::M);
        push_three(out, (a, 1), (b, 1), (m, 17))?;
    }
    Ok(())
}

fn push_fills(out: &mut Priced, f: &Form<'_>, values: &[Value]) -> Result<(), NoMemory>
    ensures { OnOk result (out.new.items ≡ out.old.items ++ flat_map (columns.fill_columns (labels_view f.now.ssu.now)) (map value_view values.now)) }
{
    for v in values {
        push_fill(out, f, *v)?;
    }
    Ok(())
}

// ---- read values that stay

fn push_stays_at(out: &mut Priced, x: u32, firsts: &[u8]) -> Result<(), NoMemory>
    ensures { OnOk result (out.new.items ≡ out.old.items ++ map (λ f. (column.Stay x f, 0)) firsts.now) }
{
    for f in firsts {
        out.push((Column::Stay(x, *f), 0))?;
    }
    Ok(())
}

fn push_stay(
    alloc: Global,
    out: &mut Priced,
    f: &Form<'_>,
    n: u32,
    v: Value,
) -> Result<(), NoMemory>
    ensures { OnOk result (out.new.items ≡ out.old.items ++ columns.stay_columns (labels_view f.now.ssu.now) n (value_view v)) }
{
    if f.is_used(v.var) {
        push_stays_at(out, v.var, &origin_beginnings(alloc, n, v.origin)?)?;
    }
    Ok(())
}

fn push_point_stays(
    alloc: Global,
    out: &mut Priced,
    f: &Form<'_>,
    n: u32,
    values: &[Value],
) -> Result<(), NoMemory>
    ensures { OnOk result (out.new.items ≡ out.old.items ++ flat_map (columns.stay_columns (labels_view f.now.ssu.now) n) (map value_view values.now)) }
{
    for v in values {
        push_stay(alloc, out, f, n, *v)?;
    }
    Ok(())
}

fn push_stays(
    alloc: Global,
    out: &mut Priced,
    f: &Form<'_>,
    summaries: &[PointSummary],
) -> Result<(), NoMemory>
    ensures { OnOk result (out.new.items ≡ out.old.items ++ flat_map (form.part_stays (labels_view f.now.ssu.now)) (map summary_view summaries.now)) }
{
    for summary in summaries {
        push_point_stays(alloc, out, f, summary.words, &summary.values)?;
    }
    Ok(())
}

// ---- where accesses begin

fn push_firsts_at(out: &mut Priced, k: u32, firsts: &[u8]) -> Result<(), NoMemory>
    ensures { OnOk result (out.new.items ≡ out.old.items ++ map (λ f. (column.First k f, 0)) firsts.now) }
{
    for f in firsts {
        out.push((Column::First(k, *f), 0))?;
    }
    Ok(())
}

fn push_first(alloc: Global, out: &mut Priced, a: Access) -> Result<(), NoMemory>
    ensures { OnOk result (out.new.items ≡ out.old.items ++ columns.first_columns (access_view a)) }
{
    push_firsts_at(out, a.point, &beginnings(alloc, a.mem, a.words)?)
}

fn push_firsts(alloc: Global, out: &mut Priced, accesses: &[Access]) -> Result<(), NoMemory>
    ensures { OnOk result (out.new.items ≡ out.old.items ++ flat_map columns.first_columns (map access_view accesses.now)) }
{
    for a in accesses {
        push_first(alloc, out, *a)?;
    }
    Ok(())
}

// ---- how uses are served

/// Whether a value can be served from a bank.
fn has_bank(fetched: bool, h: Bank) -> bool
    ensures { result ≡ columns.has_bank fetched h }
{
    match h {
        Bank::T => fetched,
        _ => true,
    }
}

fn push_service(out: &mut Priced, fetched: bool, u: Use, s: Service) -> Result<(), NoMemory>
    ensures { OnOk result (out.new.items ≡ out.old.items ++ form.service_columns fetched (use_view u) s) }
{
    if has_bank(fetched, s.from) {
        out.push((Column::Serve(u.point, u.operand, s.from, s.at), s.cost))?;
    }
    Ok(())
}

fn push_services(
    out: &mut Priced,
    fetched: bool,
    u: Use,
    services: &[Service],
) -> Result<(), NoMemory>
    ensures { OnOk result (out.new.items ≡ out.old.items ++ flat_map (form.service_columns fetched (use_view u)) services.now) }
{
    for s in services {
        push_service(out, fetched, u, *s)?;
    }
    Ok(())
}

fn push_srv(out: &mut Priced, f: &Form<'_>, u: Use) -> Result<(), NoMemory>
    ensures { OnOk result (out.new.items ≡ out.old.items ++ columns.srv_columns (labels_view f.now.ssu.now) (use_view u)) }
{
    let fetched = f.origin_of(u.value).is_fetched();
    push_services(out, fetched, u, services(u.role))
}

fn push_srvs(out: &mut Priced, f: &Form<'_>, uses: &[Use]) -> Result<(), NoMemory>
    ensures { OnOk result (out.new.items ≡ out.old.items ++ flat_map (columns.srv_columns (labels_view f.now.ssu.now)) (map use_view uses.now)) }
{
    for u in uses {
        push_srv(out, f, *u)?;
    }
    Ok(())
}

// ---- passes

fn push_pas_l(out: &mut Priced, summary: &PointSummary) -> Result<(), NoMemory>
    ensures { OnOk result (out.new.items ≡ out.old.items ++ form.part_pas_l (summary_view summary.now)) }
{
    if summary.busy {
        push_eight(out, &names::pas_l(summary.point))?;
    }
    Ok(())
}

fn push_pas_ls(out: &mut Priced, summaries: &[PointSummary]) -> Result<(), NoMemory>
    ensures { OnOk result (out.new.items ≡ out.old.items ++ flat_map form.part_pas_l (map summary_view summaries.now)) }
{
    for summary in summaries {
        push_pas_l(out, summary)?;
    }
    Ok(())
}

/// Whether one of these values is used.
fn any_used(f: &Form<'_>, values: &[Value]) -> bool
    ensures { result ≡ list_any (λ v. is_used (labels_view f.now.ssu.now) v.var) (map value_view values.now) }
{
    for v in values {
        if f.is_used(v.var) {
            return true;
        }
    }
    false
}

fn push_pas_s(out: &mut Priced, f: &Form<'_>, summary: &PointSummary) -> Result<(), NoMemory>
    ensures { OnOk result (out.new.items ≡ out.old.items ++ form.part_pas_s (labels_view f.now.ssu.now) (summary_view summary.now)) }
{
    if any_used(f, &summary.values) {
        push_eight(out, &names::pas_s(summary.point))?;
    }
    Ok(())
}

fn push_pas_ss(out: &mut Priced, f: &Form<'_>, summaries: &[PointSummary]) -> Result<(), NoMemory>
    ensures { OnOk result (out.new.items ≡ out.old.items ++ flat_map (form.part_pas_s (labels_view f.now.ssu.now)) (map summary_view summaries.now)) }
{
    for summary in summaries {
        push_pas_s(out, f, summary)?;
    }
    Ok(())
}

/// All columns with their costs.
pub fn columns_of(alloc: Global, f: &Form<'_>) -> Result<Priced, NoMemory>
    ensures { IfOk result (λ out. out.items ≡ columns.priced (labels_view f.now.ssu.now)) }
{
    let mut out = Vec::new(alloc);
    push_defs(&mut out, &f.tables.values)?;
    push_dirs(alloc, &mut out, f, &f.tables.summaries)?;
    push_fills(&mut out, f, &f.tables.values)?;
    push_stays(alloc, &mut out, f, &f.tables.summaries)?;
    push_ears(alloc, &mut out, &f.tables.summaries)?;
    push_firsts(alloc, &mut out, &f.tables.accesses)?;
    push_srvs(&mut out, f, &f.tables.uses)?;
    push_pas_ls(&mut out, &f.tables.summaries)?;
    push_pas_ss(&mut out, f, &f.tables.summaries)?;
    Ok(out)
}
