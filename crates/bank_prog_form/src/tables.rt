//! The tables of a form, made in one walk over its points.

ghost use Rattle.std.specs.Prelude.{◌≡◌, ◌++◌, ℕ, nat_eq, nat_le, length, map, true, IfOk, OnOk};
ghost use Rattle.std.specs.HashMap.{get};
ghost use Rattle.std.specs.List.{flat_map};
ghost use Rattle.ssu_ir.specs.Points.{points};
ghost use Rattle.ssu_ir.specs.Single.{single};
ghost use Rattle.ssu_ir.specs.Slots.{node_of, bare_all};
ghost use Rattle.ssu_ir.specs.Tree.{node_uses};
ghost use Rattle.ssu_ir.specs.View.{labels_view, placed_of};
ghost use Rattle.place_plan.specs.Uses as pure;
ghost use Rattle.ssu_liveness.specs.inner.Live.{source_among, value_by};
ghost use Rattle.place_plan.specs.inner.Parts.{gather};
ghost use Rattle.place_plan.specs.inner.UseViews.{role_view, use_view};
ghost use Rattle.ssu_liveness.specs.inner.PointIds.{kind_of_point};
ghost use Rattle.bank_prog_form.specs.Columns.{origin_in};
ghost use Rattle.bank_prog_form.specs.Rows.{two_operands};
ghost use Rattle.bank_prog_form.specs.inner.Form as form;
ghost use Rattle.bank_prog_form.specs.inner.Form.{AreTables, value_view, access_view, summary_view};

use crate::form::{Access, Origin, PointSummary, Tables, Value};
use nv_base::{Mem, NoMemory};
use place_plan::{Role, Use};
use ssu_ir::{Ssu, SsuNode};
use ssu_liveness::{Copies, PointId, value_of};
use std::alloc::Global;
use std::collections::HashMap;

/// A number that fits.
pub fn short(n: usize) -> Result<u32, NoMemory>
    ensures { IfOk result (λ k. k ≡ n) }
{
    match u32::try_from(n) {
        Ok(k) => Ok(k),
        Err(_) => Err(NoMemory),
    }
}

// ---- what a point defines

fn params(alloc: Global, k: u32, l: u32, xs: &[u32]) -> Result<Vec<Value>, NoMemory>
    ensures { IfOk result (λ v. map value_view v.items ≡ pure.numbered k (pure.Parameter l) 0 xs.now) }
{
    let mut values = Vec::new(alloc);
    for i in 0..xs.len() {
        values.push(Value {
            point: k,
            var: xs[i],
            origin: Origin::Parameter(l, short(i)?),
        })?;
    }
    Ok(values)
}

fn words_read(alloc: Global, k: u32, m: Mem, xs: &[u32]) -> Result<Vec<Value>, NoMemory>
    ensures { IfOk result (λ v. map value_view v.items ≡ pure.numbered k (pure.Fetched m) 0 xs.now) }
{
    let mut values = Vec::new(alloc);
    for i in 0..xs.len() {
        values.push(Value {
            point: k,
            var: xs[i],
            origin: Origin::Fetched(m, short(i)?),
        })?;
    }
    Ok(values)
}

fn result(alloc: Global, k: u32, x: u32) -> Result<Vec<Value>, NoMemory>
    ensures { IfOk result (λ v. map value_view v.items ≡ pure.result k x) }
{
    let mut values = Vec::new(alloc);
    values.push(Value {
        point: k,
        var: x,
        origin: Origin::Result,
    })?;
    Ok(values)
}

fn node_values(alloc: Global, k: u32, n: &SsuNode) -> Result<Vec<Value>, NoMemory>
    ensures { IfOk result (λ v. map value_view v.items ≡ pure.node_values k (node_of n.now)) }
{
    match n {
        SsuNode::Lit(x, _, _) => result(alloc, k, *x),
        SsuNode::Una(x, _, _, _) => result(alloc, k, *x),
        SsuNode::Bin(x, _, _, _, _) => result(alloc, k, *x),
        SsuNode::Clone(_, _, _) => Ok(Vec::new(alloc)),
        SsuNode::Read(m, xs, _, _) => words_read(alloc, k, *m, xs),
        SsuNode::Write(_, _, _, _) => Ok(Vec::new(alloc)),
        SsuNode::If(_, _, _, _, _) => Ok(Vec::new(alloc)),
        SsuNode::Jump(_, _) => Ok(Vec::new(alloc)),
        SsuNode::Halt(_, _) => Ok(Vec::new(alloc)),
    }
}

// ---- what it uses

fn add_use(
    uses: &mut Vec<Use>,
    copies: &Copies,
    k: u32,
    i: u32,
    x: u32,
    role: Role,
) -> Result<(), NoMemory>
    ensures { OnOk result (map use_view uses.new.items ≡ map use_view uses.old.items ++ form.use_of (value_by (get nat_eq copies.now)) k i x (role_view role)) }
{
    uses.push(Use {
        point: k,
        operand: i,
        value: value_of(copies, x),
        role,
    })?;
    Ok(())
}

fn add_written(
    uses: &mut Vec<Use>,
    copies: &Copies,
    k: u32,
    m: Mem,
    xs: &[u32],
) -> Result<(), NoMemory>
    ensures { OnOk result (map use_view uses.new.items ≡ map use_view uses.old.items ++ form.uses_from (value_by (get nat_eq copies.now)) k 1 (pure.Written m) 0 xs.now) }
{
    for i in 0..xs.len() {
        let word = short(i)?;
        add_use(
            uses,
            copies,
            k,
            short(i + 1)?,
            xs[i],
            Role::Written(m, word),
        )?;
    }
    Ok(())
}

fn add_arguments(
    uses: &mut Vec<Use>,
    copies: &Copies,
    k: u32,
    l: u32,
    xs: &[u32],
) -> Result<(), NoMemory>
    ensures { OnOk result (map use_view uses.new.items ≡ map use_view uses.old.items ++ form.uses_from (value_by (get nat_eq copies.now)) k 0 (pure.Argument l) 0 xs.now) }
{
    for i in 0..xs.len() {
        let word = short(i)?;
        add_use(uses, copies, k, word, xs[i], Role::Argument(l, word))?;
    }
    Ok(())
}

fn add_endings(uses: &mut Vec<Use>, copies: &Copies, k: u32, xs: &[u32]) -> Result<(), NoMemory>
    ensures { OnOk result (map use_view uses.new.items ≡ map use_view uses.old.items ++ form.uses_from (value_by (get nat_eq copies.now)) k 0 pure.Ending 0 xs.now) }
{
    for i in 0..xs.len() {
        let word = short(i)?;
        add_use(uses, copies, k, word, xs[i], Role::Ending(word))?;
    }
    Ok(())
}

fn add_node_uses(uses: &mut Vec<Use>, copies: &Copies, k: u32, n: &SsuNode) -> Result<(), NoMemory>
    ensures { OnOk result (map use_view uses.new.items ≡ map use_view uses.old.items ++ pure.uses_at k 0 (map (value_by (get nat_eq copies.now)) (node_uses (node_of n.now))) (pure.node_roles (node_of n.now))) }
{
    match n {
        SsuNode::Lit(_, _, _) => {}
        SsuNode::Una(_, _, y, _) => add_use(uses, copies, k, 0, *y, Role::Operand)?,
        SsuNode::Bin(_, _, y, z, _) => {
            add_use(uses, copies, k, 0, *y, Role::Operand)?;
            add_use(uses, copies, k, 1, *z, Role::Operand)?;
        }
        SsuNode::Clone(_, _, _) => {}
        SsuNode::Read(_, _, y, _) => add_use(uses, copies, k, 0, *y, Role::Address)?,
        SsuNode::Write(m, y, xs, _) => {
            add_use(uses, copies, k, 0, *y, Role::Address)?;
            add_written(uses, copies, k, *m, xs)?;
        }
        SsuNode::If(_, x, y, _, _) => {
            add_use(uses, copies, k, 0, *x, Role::Operand)?;
            add_use(uses, copies, k, 1, *y, Role::Operand)?;
        }
        SsuNode::Jump(l, xs) => add_arguments(uses, copies, k, *l, xs)?,
        SsuNode::Halt(_, xs) => add_endings(uses, copies, k, xs)?,
    }
    Ok(())
}

// ---- what it reads and writes

fn one_access(alloc: Global, k: u32, m: Mem, words: u32) -> Result<Vec<Access>, NoMemory>
    ensures { IfOk result (λ v. map access_view v.items ≡ form.one_access k m words) }
{
    let mut accesses = Vec::new(alloc);
    accesses.push(Access {
        point: k,
        mem: m,
        words,
    })?;
    Ok(accesses)
}

fn node_reads(alloc: Global, k: u32, n: &SsuNode) -> Result<Vec<Access>, NoMemory>
    ensures { IfOk result (λ v. map access_view v.items ≡ pure.reads_at k (form.at_node (node_of n.now))) }
{
    match n {
        SsuNode::Lit(_, _, _) => Ok(Vec::new(alloc)),
        SsuNode::Una(_, _, _, _) => Ok(Vec::new(alloc)),
        SsuNode::Bin(_, _, _, _, _) => Ok(Vec::new(alloc)),
        SsuNode::Clone(_, _, _) => Ok(Vec::new(alloc)),
        SsuNode::Read(m, xs, _, _) => one_access(alloc, k, *m, short(xs.len())?),
        SsuNode::Write(_, _, _, _) => Ok(Vec::new(alloc)),
        SsuNode::If(_, _, _, _, _) => Ok(Vec::new(alloc)),
        SsuNode::Jump(_, _) => Ok(Vec::new(alloc)),
        SsuNode::Halt(_, _) => Ok(Vec::new(alloc)),
    }
}

fn node_writes(alloc: Global, k: u32, n: &SsuNode) -> Result<Vec<Access>, NoMemory>
    ensures { IfOk result (λ v. map access_view v.items ≡ pure.writes_at k (form.at_node (node_of n.now))) }
{
    match n {
        SsuNode::Lit(_, _, _) => Ok(Vec::new(alloc)),
        SsuNode::Una(_, _, _, _) => Ok(Vec::new(alloc)),
        SsuNode::Bin(_, _, _, _, _) => Ok(Vec::new(alloc)),
        SsuNode::Clone(_, _, _) => Ok(Vec::new(alloc)),
        SsuNode::Read(_, _, _, _) => Ok(Vec::new(alloc)),
        SsuNode::Write(m, _, xs, _) => one_access(alloc, k, *m, short(xs.len())?),
        SsuNode::If(_, _, _, _, _) => Ok(Vec::new(alloc)),
        SsuNode::Jump(_, _) => Ok(Vec::new(alloc)),
        SsuNode::Halt(_, _) => Ok(Vec::new(alloc)),
    }
}

fn node_words(n: &SsuNode) -> Result<u32, NoMemory>
    ensures { IfOk result (λ k. k ≡ form.node_words (node_of n.now)) }
{
    match n {
        SsuNode::Lit(_, _, _) => Ok(0),
        SsuNode::Una(_, _, _, _) => Ok(0),
        SsuNode::Bin(_, _, _, _, _) => Ok(0),
        SsuNode::Clone(_, _, _) => Ok(0),
        SsuNode::Read(_, xs, _, _) => short(xs.len()),
        SsuNode::Write(_, _, xs, _) => short(xs.len()),
        SsuNode::If(_, _, _, _, _) => Ok(0),
        SsuNode::Jump(_, _) => Ok(0),
        SsuNode::Halt(_, _) => Ok(0),
    }
}

fn has_two_operands(n: &SsuNode) -> bool
    ensures { result ≡ two_operands (pure.node_roles (node_of n.now)) }
{
    match n {
        SsuNode::Lit(_, _, _) => false,
        SsuNode::Una(_, _, _, _) => false,
        SsuNode::Bin(_, _, _, _, _) => true,
        SsuNode::Clone(_, _, _) => false,
        SsuNode::Read(_, _, _, _) => false,
        SsuNode::Write(_, _, _, _) => false,
        SsuNode::If(_, _, _, _, _) => true,
        SsuNode::Jump(_, _) => false,
        SsuNode::Halt(_, _) => false,
    }
}

fn is_busy(n: &SsuNode) -> bool
    ensures { result ≡ nat_le 1 (length (node_uses (node_of n.now))) }
{
    match n {
        SsuNode::Lit(_, _, _) => false,
        SsuNode::Una(_, _, _, _) => true,
        SsuNode::Bin(_, _, _, _, _) => true,
        SsuNode::Clone(_, _, _) => false,
        SsuNode::Read(_, _, _, _) => true,
        SsuNode::Write(_, _, _, _) => true,
        SsuNode::If(_, _, _, _, _) => true,
        SsuNode::Jump(_, xs) => xs.len() >= 1,
        SsuNode::Halt(_, xs) => xs.len() >= 1,
    }
}

// ---- points

fn node_summary(
    alloc: Global,
    copies: &Copies,
    k: u32,
    n: &SsuNode,
) -> Result<PointSummary, NoMemory>
    ensures { IfOk result (λ t. summary_view t ≡ form.part_at (value_by (get nat_eq copies.now)) k (form.at_node (node_of n.now))) }
{
    let mut uses = Vec::new(alloc);
    add_node_uses(&mut uses, copies, k, n)?;
    Ok(PointSummary {
        point: k,
        words: node_words(n)?,
        two: has_two_operands(n),
        busy: is_busy(n),
        values: node_values(alloc, k, n)?,
        uses,
        reads: node_reads(alloc, k, n)?,
        writes: node_writes(alloc, k, n)?,
    })
}

fn entry_summary(alloc: Global, k: u32, l: u32, xs: &[u32]) -> Result<PointSummary, NoMemory>
    ensures { IfOk result (λ t. (of : ℕ → ℕ) → summary_view t ≡ form.part_at of k (form.at_entry l xs.now)) }
{
    Ok(PointSummary {
        point: k,
        words: 0,
        two: false,
        busy: false,
        values: params(alloc, k, l, xs)?,
        uses: Vec::new(alloc),
        reads: Vec::new(alloc),
        writes: Vec::new(alloc),
    })
}

fn point_summary(
    alloc: Global,
    s: &Ssu,
    copies: &Copies,
    k: u32,
    point_id: PointId,
) -> Result<PointSummary, NoMemory>
    ensures { IfOk result (λ t. summary_view t ≡ form.part_at (value_by (get nat_eq copies.now)) k (kind_of_point s.now point_id)) }
{
    match point_id {
        PointId::Entry(l) => match s.labels.get(l) {
            Some(label) => entry_summary(alloc, k, short(l)?, &label.params),
            None => Err(NoMemory),
        },
        PointId::Node(id) => match s.nodes.get(id.0) {
            Some(n) => node_summary(alloc, copies, k, n),
            None => Err(NoMemory),
        },
    }
}

fn summaries_of(
    alloc: Global,
    s: &Ssu,
    copies: &Copies,
    point_ids: &[PointId],
) -> Result<Vec<PointSummary>, NoMemory>
    ensures { IfOk result (λ v. map summary_view v.items ≡ gather (form.parts_at (value_by (get nat_eq copies.now))) 0 (map (kind_of_point s.now) point_ids.now)) }
{
    let mut summaries = Vec::new(alloc);
    for k in 0..point_ids.len() {
        summaries.push(point_summary(alloc, s, copies, short(k)?, point_ids[k])?)?;
    }
    Ok(summaries)
}

// ---- all together

fn add_values(all: &mut Vec<Value>, summary: &PointSummary) -> Result<(), NoMemory>
    ensures { OnOk result (map value_view all.new.items ≡ map value_view all.old.items ++ form.part_values (summary_view summary.now)) }
{
    all.extend_from_slice(&summary.values)?;
    Ok(())
}

fn all_values(alloc: Global, summaries: &[PointSummary]) -> Result<Vec<Value>, NoMemory>
    ensures { IfOk result (λ v. map value_view v.items ≡ flat_map form.part_values (map summary_view summaries.now)) }
{
    let mut all = Vec::new(alloc);
    for summary in summaries {
        add_values(&mut all, summary)?;
    }
    Ok(all)
}

fn add_uses(all: &mut Vec<Use>, summary: &PointSummary) -> Result<(), NoMemory>
    ensures { OnOk result (map use_view all.new.items ≡ map use_view all.old.items ++ form.part_uses (summary_view summary.now)) }
{
    all.extend_from_slice(&summary.uses)?;
    Ok(())
}

fn all_uses(alloc: Global, summaries: &[PointSummary]) -> Result<Vec<Use>, NoMemory>
    ensures { IfOk result (λ v. map use_view v.items ≡ flat_map form.part_uses (map summary_view summaries.now)) }
{
    let mut all = Vec::new(alloc);
    for summary in summaries {
        add_uses(&mut all, summary)?;
    }
    Ok(all)
}

fn add_accesses(all: &mut Vec<Access>, summary: &PointSummary) -> Result<(), NoMemory>
    ensures { OnOk result (map access_view all.new.items ≡ map access_view all.old.items ++ form.part_accesses (summary_view summary.now)) }
{
    all.extend_from_slice(&summary.reads)?;
    all.extend_from_slice(&summary.writes)?;
    Ok(())
}

fn all_accesses(alloc: Global, summaries: &[PointSummary]) -> Result<Vec<Access>, NoMemory>
    ensures { IfOk result (λ v. map access_view v.items ≡ flat_map form.part_accesses (map summary_view summaries.now)) }
{
    let mut all = Vec::new(alloc);
    for summary in summaries {
        add_accesses(&mut all, summary)?;
    }
    Ok(all)
}

// ---- by variable

/// How a value comes, where that isn't known.
fn note_origin(origins: &mut HashMap<u32, Origin>, v: Value) -> Result<(), NoMemory>
    ensures { OnOk result ((x : ℕ) → form.origin_found (get nat_eq origins.new x) ≡ form.origin_noted (form.origin_found (get nat_eq origins.old x)) (value_view v) x) }
{
    if origins.get(&v.var).is_none() {
        origins.insert(v.var, v.origin)?;
    }
    Ok(())
}

fn all_origins(alloc: Global, values: &[Value]) -> Result<HashMap<u32, Origin>, NoMemory>
    ensures { IfOk result (λ m. (x : ℕ) → form.known_sort (get nat_eq m x) ≡ origin_in (map value_view values.now) x) }
{
    let mut origins = HashMap::new(alloc);
    for v in values {
        note_origin(&mut origins, *v)?;
    }
    Ok(origins)
}

/// One use more of a value.
fn note_use(alloc: Global, users: &mut HashMap<u32, Vec<Use>>, u: Use) -> Result<(), NoMemory>
    ensures { OnOk result ((x : ℕ) → form.known_uses (get nat_eq users.new x) ≡ form.known_uses (get nat_eq users.old x) ++ form.used_by x (use_view u)) }
{
    let mut uses = match users.remove(&u.value) {
        Some(uses) => uses,
        None => Vec::new(alloc),
    };
    uses.push(u)?;
    users.insert(u.value, uses)?;
    Ok(())
}

fn all_users(alloc: Global, uses: &[Use]) -> Result<HashMap<u32, Vec<Use>>, NoMemory>
    ensures { IfOk result (λ m. (x : ℕ) → form.known_uses (get nat_eq m x) ≡ flat_map (form.used_by x) (map use_view uses.now)) }
{
    let mut users = HashMap::new(alloc);
    for u in uses {
        note_use(alloc, &mut users, *u)?;
    }
    Ok(users)
}

/// The tables of a form, by its clones and its points.
pub fn tables_of(
    alloc: Global,
    s: &Ssu,
    copies: &Copies,
    point_ids: &[PointId],
) -> Result<Tables, NoMemory>
    requires single { single (labels_view s.now) ≡ true }
    requires copies { (z : ℕ) → get nat_eq copies.now z ≡ source_among (bare_all (placed_of s.now)) z }
    requires point_ids { map (kind_of_point s.now) point_ids.now ≡ map (λ p. p.place) (points (labels_view s.now)) }
    ensures { IfOk result (AreTables (labels_view s.now)) }
{
    let summaries = summaries_of(alloc, s, copies, point_ids)?;
    let values = all_values(alloc, &summaries)?;
    let uses = all_uses(alloc, &summaries)?;
    let accesses = all_accesses(alloc, &summaries)?;
    let origins = all_origins(alloc, &values)?;
    let users = all_users(alloc, &uses)?;
    Ok(Tables {
        summaries,
        values,
        uses,
        accesses,
        origins,
        users,
    })
}
