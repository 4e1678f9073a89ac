//! Rows of the fifth family, third sentence: a write register belongs to a word that waits, to a slot that is
//! written through it, or to the write here.

ghost use Rattle.std.specs.Prelude.{◌≡◌, ◌++◌, nat_eq, map, drop, true, IfOk, OnOk};
ghost use Rattle.std.specs.HashMap.{get};
ghost use Rattle.std.specs.List.{flat_map};
ghost use Rattle.ssu_ir.specs.Points.{points};
ghost use Rattle.ssu_ir.specs.Single.{single};
ghost use Rattle.ssu_ir.specs.View.{labels_view};
ghost use Rattle.bank_prog_form.specs.Columns.{each_point};
ghost use Rattle.bank_prog_form.specs.Program.{same_column};
ghost use Rattle.bank_prog_form.specs.Rows as lines;
ghost use Rattle.bank_prog_form.specs.inner.Adds.{Adds};
ghost use Rattle.bank_prog_form.specs.inner.Form.{access_view, summary_view};
ghost use Rattle.bank_prog_rows.specs.inner.Waiting as waits;
ghost use Rattle.place_plan.specs.inner.UseViews.{role_view, use_view};

use crate::owners::{is_on_side, run_at};
use crate::spans::{Defined, counts_below, defined_at, item};
use bank_prog_form::column::Column;
use bank_prog_form::coverings::add_coverings;
use bank_prog_form::form::{Access, Form, PointSummary};
use bank_prog_form::lines::push_at_most;
use bank_prog_form::numbers::Numbers;
use bank_prog_form::tables::short;
use nv_base::NoMemory;
use place_plan::{Role, Use};
use std::alloc::Global;
use zo_model::Row;

/// Whether a value that is defined at this point is so at k or above.
fn is_covered(below: &[u32], at: Option<u32>, k: u32) -> bool
    ensures { result ≡ waits.covers (waits.read_from below.now) at k }
{
    match at {
        Some(d) => { d <= k && u64::from(k) <= u64::from(d) + u64::from(item(below, d as usize)) }
        None => false,
    }
}

fn is_written(role: Role) -> bool
    ensures { result ≡ lines.is_written (role_view role) }
{
    match role {
        Role::Operand => false,
        Role::Address => false,
        Role::Written(_, _) => true,
        Role::Argument(_, _) => false,
        Role::Ending(_) => false,
    }
}

fn keep_written(kept: &mut Vec<Use>, u: Use) -> Result<(), NoMemory>
    ensures { OnOk result (map use_view kept.new.items ≡ map use_view kept.old.items ++ waits.written_only (use_view u)) }
{
    if is_written(u.role) {
        kept.push(u)?;
    }
    Ok(())
}

/// The written words among these uses.
fn written_words(alloc: Global, uses: &[Use]) -> Result<Vec<Use>, NoMemory>
    ensures { IfOk result (λ v. map use_view v.items ≡ flat_map waits.written_only (map use_view uses.now)) }
{
    let mut kept = Vec::new(alloc);
    for u in uses {
        keep_written(&mut kept, *u)?;
    }
    Ok(kept)
}

/// Whether a point has another below.
fn is_below(below: &[u32], k: u32, point: u32) -> bool
    ensures { result ≡ waits.is_below (waits.read_from below.now) k point }
{
    k < point && u64::from(point) <= u64::from(k) + u64::from(item(below, k as usize))
}

/// Whether a use is a written word that waits at point k.
fn is_waiting(below: &[u32], defined: &Defined, k: u32, u: Use) -> bool
    ensures { result ≡ waits.waits_by below.now (get nat_eq defined.now) k (use_view u) }
{
    is_written(u.role)
        && (is_covered(below, defined.get(&u.value).copied(), k) && is_below(below, k, u.point))
}

fn keep_waiting(
    kept: &mut Vec<Use>,
    below: &[u32],
    defined: &Defined,
    k: u32,
    u: Use,
) -> Result<(), NoMemory>
    ensures { OnOk result (map use_view kept.new.items ≡ map use_view kept.old.items ++ waits.kept_waiting below.now (get nat_eq defined.now) k (use_view u)) }
{
    if is_waiting(below, defined, k, u) {
        kept.push(u)?;
    }
    Ok(())
}

/// The written words that wait at point k.
fn words_of_point(
    alloc: Global,
    below: &[u32],
    defined: &Defined,
    k: u32,
    uses: &[Use],
) -> Result<Vec<Use>, NoMemory>
    ensures { IfOk result (λ v. map use_view v.items ≡ flat_map (waits.kept_waiting below.now (get nat_eq defined.now) k) (map use_view uses.now)) }
{
    let mut kept = Vec::new(alloc);
    for u in uses {
        keep_waiting(&mut kept, below, defined, k, *u)?;
    }
    Ok(kept)
}

fn words_of_points(
    alloc: Global,
    below: &[u32],
    defined: &Defined,
    uses: &[Use],
    summaries: &[PointSummary],
) -> Result<Vec<Vec<Use>>, NoMemory>
    ensures { IfOk result (λ v. waits.lists_of v.items ≡ waits.each_waiting below.now (get nat_eq defined.now) (map use_view uses.now) 0 summaries.now) }
{
    let mut words = Vec::new(alloc);
    for k in 0..summaries.len() {
        words.push(words_of_point(alloc, below, defined, short(k)?, uses)?)?;
    }
    Ok(words)
}

/// Of each point the written words that wait there.
fn waiting_words(alloc: Global, f: &Form<'_>) -> Result<Vec<Vec<Use>>, NoMemory>
    requires single { single (labels_view f.now.ssu.now) ≡ true }
    ensures { IfOk result (λ v. waits.lists_of v.items ≡ waits.all_waiting (labels_view f.now.ssu.now)) }
{
    let below = counts_below(alloc, f.ssu, &f.point_ids)?;
    let defined = defined_at(alloc, &f.tables.values)?;
    let written = written_words(alloc, &f.tables.uses)?;
    words_of_points(alloc, &below, &defined, &written, &f.tables.summaries)
}

/// The columns that a word is put early into register r, where it can.
fn add_role_early(
    cs: &mut Vec<Column>,
    sdram: bool,
    r: u8,
    k: u32,
    i: u32,
    role: Role,
) -> Result<(), NoMemory>
    ensures { OnOk result (cs.new.items ≡ cs.old.items ++ lines.role_early sdram r k i (role_view role)) }
{
    if let Role::Written(m, j) = role {
        if is_on_side(sdram, m) {
            if let Some(f) = run_at(r, j) {
                cs.push(Column::DirectWrite(k, i, f))?;
                cs.push(Column::EarlyWrite(k, i, f))?;
            }
        }
    }
    Ok(())
}

fn add_word(cs: &mut Vec<Column>, sdram: bool, r: u8, u: Use) -> Result<(), NoMemory>
    ensures { OnOk result (cs.new.items ≡ cs.old.items ++ waits.word_early sdram r (use_view u)) }
{
    add_role_early(cs, sdram, r, u.point, u.operand, u.role)
}

fn add_words(cs: &mut Vec<Column>, sdram: bool, r: u8, us: &[Use]) -> Result<(), NoMemory>
    ensures { OnOk result (cs.new.items ≡ cs.old.items ++ flat_map (waits.word_early sdram r) (map use_view us.now)) }
{
    for u in us {
        add_word(cs, sdram, r, *u)?;
    }
    Ok(())
}

fn add_write(cs: &mut Vec<Column>, sdram: bool, r: u8, a: Access) -> Result<(), NoMemory>
    ensures { OnOk result (cs.new.items ≡ cs.old.items ++ lines.side_covering sdram r (access_view a)) }
{
    if is_on_side(sdram, a.mem) {
        add_coverings(cs, a, r)?;
    }
    Ok(())
}

fn add_writes(cs: &mut Vec<Column>, sdram: bool, r: u8, writes: &[Access]) -> Result<(), NoMemory>
    ensures { OnOk result (cs.new.items ≡ cs.old.items ++ flat_map (lines.side_covering sdram r) (map access_view writes.now)) }
{
    for a in writes {
        add_write(cs, sdram, r, *a)?;
    }
    Ok(())
}

fn push_write_owner(
    alloc: Global,
    numbers: &Numbers,
    k: u32,
    us: &[Use],
    writes: &[Access],
    r: u8,
    rows: &mut Vec<Row>,
) -> Result<(), NoMemory>
    ensures { OnOk result (Adds (get same_column numbers.now) rows.old.items rows.new.items (waits.write_owner k (map use_view us.now) (map access_view writes.now) r)) }
{
    let mut cs = Vec::new(alloc);
    add_words(&mut cs, false, r, us)?;
    cs.push(Column::WriteVia(k, r))?;
    add_writes(&mut cs, false, r, writes)?;
    push_at_most(alloc, numbers, 1, &cs, rows)
}

fn push_sdram_write_owner(
    alloc: Global,
    numbers: &Numbers,
    us: &[Use],
    writes: &[Access],
    r: u8,
    rows: &mut Vec<Row>,
) -> Result<(), NoMemory>
    ensures { OnOk result (Adds (get same_column numbers.now) rows.old.items rows.new.items (waits.sdram_write_owner (map use_view us.now) (map access_view writes.now) r)) }
{
    let mut cs = Vec::new(alloc);
    add_words(&mut cs, true, r, us)?;
    add_writes(&mut cs, true, r, writes)?;
    push_at_most(alloc, numbers, 1, &cs, rows)
}

fn push_write_owners_at(
    alloc: Global,
    numbers: &Numbers,
    k: u32,
    us: &[Use],
    writes: &[Access],
    rs: &[u8],
    rows: &mut Vec<Row>,
) -> Result<(), NoMemory>
    ensures { OnOk result (Adds (get same_column numbers.now) rows.old.items rows.new.items (flat_map (waits.write_owner k (map use_view us.now) (map access_view writes.now)) rs.now)) }
{
    for r in rs {
        push_write_owner(alloc, numbers, k, us, writes, *r, rows)?;
    }
    Ok(())
}

fn push_sdram_write_owners(
    alloc: Global,
    numbers: &Numbers,
    us: &[Use],
    writes: &[Access],
    rs: &[u8],
    rows: &mut Vec<Row>,
) -> Result<(), NoMemory>
    ensures { OnOk result (Adds (get same_column numbers.now) rows.old.items rows.new.items (flat_map (waits.sdram_write_owner (map use_view us.now) (map access_view writes.now)) rs.now)) }
{
    for r in rs {
        push_sdram_write_owner(alloc, numbers, us, writes, *r, rows)?;
    }
    Ok(())
}

/// The write registers of one point, where these words wait.
fn push_point_writes(
    alloc: Global,
    numbers: &Numbers,
    summary: &PointSummary,
    us: &[Use],
    rows: &mut Vec<Row>,
) -> Result<(), NoMemory>
    ensures { OnOk result (Adds (get same_column numbers.now) rows.old.items rows.new.items (waits.part_writes (summary_view summary.now) (map use_view us.now))) }
{
    let rs = [0, 1, 2, 3, 4, 5, 6, 7];
    push_write_owners_at(
        alloc,
        numbers,
        summary.point,
        us,
        &summary.writes,
        &rs,
        rows,
    )?;
    push_sdram_write_owners(alloc, numbers, us, &summary.writes, &rs, rows)
}

/// The words of a number, or none past the last.
fn words_at(words: &[Vec<Use>], k: usize) -> &[Use]
    ensures { map use_view result.now ≡ waits.first_list (waits.lists_of (drop k words.now)) }
{
    match words.get(k) {
        Some(us) => us,
        None => &[],
    }
}

fn push_writes(
    alloc: Global,
    numbers: &Numbers,
    summaries: &[PointSummary],
    words: &[Vec<Use>],
    rows: &mut Vec<Row>,
) -> Result<(), NoMemory>
    ensures { OnOk result (Adds (get same_column numbers.now) rows.old.items rows.new.items (waits.writes (map summary_view summaries.now) (waits.lists_of words.now))) }
{
    for k in 0..summaries.len() {
        push_point_writes(alloc, numbers, &summaries[k], words_at(words, k), rows)?;
    }
    Ok(())
}

/// The rows of the third sentence.
pub fn push_write_owners(
    alloc: Global,
    numbers: &Numbers,
    f: &Form<'_>,
    rows: &mut Vec<Row>,
) -> Result<(), NoMemory>
    requires single { single (labels_view f.now.ssu.now) ≡ true }
    ensures { OnOk result (Adds (get same_column numbers.now) rows.old.items rows.new.items (each_point (lines.write_owners (labels_view f.now.ssu.now)) 0 (points (labels_view f.now.ssu.now)))) }
{
    let words = waiting_words(alloc, f)?;
    push_writes(alloc, numbers, &f.tables.summaries, &words, rows)
}
