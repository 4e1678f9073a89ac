//! What an expression has beside its parts.

ghost use Rattle.std.specs.Prelude.{◌≡◌, ◌*◌, ◌==◌, ◌&&◌, ◌≤◌, [], false, not, Option, None, Some, is_none, IfOk, OnOk, cond, option_to_list, length, drop};
ghost use Rattle.nv_ast.specs.ExprView.{tree_of};
ghost use Rattle.nv_ast.specs.Tree.{VarTree};
ghost use Rattle.nv_ast.specs.Types.{Ty, Tys, NamedTys, RecordTy, total_named_words};
ghost use Rattle.nv_ast.specs.Typing.{operand_ty, result_ty, field_ty};
ghost use Rattle.nv_ast.specs.Faults.{Expected as ExpectedTree, can_move as moves, wrong_scratch, field_twice};
ghost use Rattle.nv_ast.specs.Tests.{where_true};
ghost use Rattle.nv_types_table.specs.inner.Cells.{still};
ghost use Rattle.nv_types_table.specs.inner.Named.{named};
ghost use Rattle.nv_types_table.specs.inner.Store.{Store, IsType, IsParts, IsValue, AreFields, count_tys, field_names};
ghost use Rattle.nv_types_table.specs.inner.Faulty.{Judges, first};
ghost use Rattle.nv_types_table.specs.inner.Costs.{node_cost, cost_of_call};
ghost use Rattle.nv_types_table.specs.inner.Needs.{IsEnds, block_needs};
ghost use Rattle.nv_types_scopes.specs.inner.Judging.{IsExpected, judged_faults};

use crate::expected::Expected;
use crate::functions::{Checker, TypedExpr};
use crate::patterns::has_length;
use indexmap::IndexMap;
use nv_ast::{Expr, Kind, Name, Op, Span};
use nv_base::{Mem, NoMemory, SOURCE_SCRATCH};
use nv_types_table::cost::Cost;
use nv_types_table::error::TypeError;
use nv_types_table::needs::{Step, greatest_need};
use nv_types_table::record_fields::field_type;
use nv_types_table::table::{BOOL, WORD};

impl<'a> Checker<'a> {
    ghost use Rattle.nv_types_scopes.specs.inner.Standing.{Keeps, written_in};
    ghost use Rattle.nv_types_scopes.specs.inner.Walk.{Checks, ExpectsNext};

    /// 10: an unknown variable.
    pub fn variable(
        &mut self,
        span: Span,
        expected: Expected,
        name: &'a Name,
    ) -> Result<TypedExpr, TypeError>
        ensures { Checks self.old self.new false expected (VarTree span name.now) result }
    {
        self.written.push(name)?;
        match self.scope.look_up(name) {
            Some(t) => self.plain(span, expected, Some(t), Cost::NONE),
            None => Err(TypeError::Fault(10, span)),
        }
    }

    /// 18: a field twice in a record.
    pub fn made_record(
        &mut self,
        span: Span,
        expected: Expected,
        types: &[(&'a Name, usize)],
        parts: Cost,
    ) -> Result<TypedExpr, TypeError>
        ensures judged { (w : ExpectedTree) (ts : NamedTys) → IsExpected self.old.table expected w → AreFields self.old.table (named types.now) ts → Judges (judged_faults span w (Some (RecordTy ts)) None (first (field_twice (field_names ts)))) result }
        ensures typed { (ts : NamedTys) → AreFields self.old.table (named types.now) ts → IfOk result (λ f. IsValue self.new.table f.value (Some (RecordTy ts))) }
        ensures counted { (ts : NamedTys) → AreFields self.old.table (named types.now) ts → IfOk result (λ f. f.cost ≡ node_cost (still (total_named_words ts)) parts) }
        ensures keeps { OnOk result (Keeps self.old self.new) }
        ensures writes { OnOk result (written_in self.new ≡ written_in self.old) }
    {
        let list = self.table.fields_of(self.alloc, types)?;
        let t = self.table.record_of(list)?;
        let repeats = self.table.repeats_a_name(self.alloc, list)?;
        let twice = kind_where(repeats, 18);
        self.judge(span, expected, Some(t), None, twice)?;
        Ok(self.found(Some(t), parts))
    }

    /// The type of a value's field, if the value is a record with such a field.
    pub fn field_of(&self, name: &'a Name, value: Option<usize>) -> Option<usize>
        ensures { (u : Option Ty) → IsValue self.now.table value u → IsValue self.now.table result (field_ty name.now u) }
    {
        match value {
            Some(t) => field_type(&self.table, name, t),
            None => None,
        }
    }

    /// What is wanted of the next argument, and the list of the types of those after it.
    pub fn next_expected(&self, left: Option<usize>) -> (Expected, Option<usize>)
        ensures { ExpectsNext self.now.table left result.0 result.1 }
    {
        let Some(list) = left else {
            return (Expected::Value, None);
        };
        match self.table.first_part(list) {
            Some((t, rest)) => (Expected::Typed(t), Some(rest)),
            None => (Expected::Value, None),
        }
    }

    /// The types of arguments where these are as many.
    pub fn if_as_many(&self, types: usize, count: usize) -> Option<usize>
        ensures { (ts : Tys) → IsParts self.now.table types ts → result ≡ cond (count_tys ts == count) (Some types) None }
    {
        if has_length(&self.table, types, count) {
            Some(types)
        } else {
            None
        }
    }

    /// The greatest need of a block's parts, each with the words that earlier lets hold for it and what
    /// follows. Its variables are those written from `first` on, those of its tail from `last` on.
    pub fn block_need(
        &self,
        first: usize,
        steps: &[Step<'a>],
        last: usize,
        tail_need: u64,
    ) -> Result<u64, NoMemory>
        requires inside { first ≤ length (written_in self.now) }
        ensures { IfOk result (λ n. n ≡ block_needs (drop first (written_in self.now)) first [] steps.now last tail_need) }
    {
        let mut ends = IndexMap::new(self.alloc);
        self.add_places(first, &mut ends)?;
        greatest_need(self.alloc, &ends, steps, last, tail_need)
    }

    // For each variable that is written from a place on, adds the place after the last one to none.
    fn add_places(&self, first: usize, ends: &mut IndexMap<&'a Name, usize>) -> Result<(), NoMemory>
        requires inside { first ≤ length (written_in self.now) }
        requires none { ends.old.entries ≡ [] }
        ensures { OnOk result (IsEnds first (drop first (written_in self.now)) (named ends.new.entries)) }
    {
        for i in first..self.written.len() {
            ends.insert(self.written[i], i + 1)?;
        }
        Ok(())
    }
}

/// The kind of a fault where there is one.
pub fn kind_where(found: bool, kind: u8) -> Option<u8>
    ensures { option_to_list result ≡ where_true found kind }
{
    if found { Some(kind) } else { None }
}

/// Whether a call of a function of the own group stands outside tail position.
pub fn is_outside(behind: Option<Cost>, tail: bool) -> bool
    ensures { result ≡ (is_none behind && not tail) }
{
    behind.is_none() && !tail
}

/// What a call costs beside its arguments: the size and need of a group that is behind.
pub fn called_cost(behind: Option<Cost>) -> Cost
    ensures { result ≡ cost_of_call behind }
{
    match behind {
        Some(cost) => Cost { words: 0, ..cost },
        None => Cost::NONE,
    }
}

/// What 4 instructions for each bit field cost.
pub fn field_cost(fields: u64) -> Cost
    ensures { result ≡ record { words = 0; size = still (4 * fields); need = 0 } }
{
    Cost {
        size: fields.saturating_mul(4),
        ..Cost::NONE
    }
}

/// The type of an operator's operands.
pub fn operand_type(op: Op) -> usize
    ensures { (s : Store) → IsType s result (operand_ty op) }
{
    match op {
        Op::Both | Op::Either => BOOL,
        _ => WORD,
    }
}

/// The type of an operator's result.
pub fn result_type(op: Op) -> usize
    ensures { (s : Store) → IsType s result (result_ty op) }
{
    match op {
        Op::Add | Op::Sub | Op::And | Op::Or | Op::Xor => WORD,
        _ => BOOL,
    }
}

/// Whether a fetch or a store moves N words: 1 to 8, and for SDRAM 2, 4, 6 or 8.
pub fn can_move(mem: Mem, n: u64) -> bool
    ensures { result ≡ moves mem n }
{
    match mem {
        Mem::Sram | Mem::Scratch => 1 <= n && n <= 8,
        Mem::Sdram => n == 2 || n == 4 || n == 6 || n == 8,
    }
}

/// Whether a scratch address is a number that with the words reaches no further than 512.
pub fn is_in_reach(mem: Mem, address: &Expr, n: u64) -> bool
    ensures { where_true (not result) 20 ≡ wrong_scratch mem (tree_of address.now) n }
{
    match mem {
        Mem::Scratch => match address.kind {
            Kind::Number(at) => (at as u64).saturating_add(n) <= SOURCE_SCRATCH as u64,
            _ => false,
        },
        _ => true,
    }
}
