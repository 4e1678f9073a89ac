//! What is declared, and the state of a walk.

ghost use Rattle.std.specs.Prelude.{◌≡◌, ◌++◌, [], None, IfOk, Option, option_to_list};
ghost use Rattle.nv_ast.specs.Types.{Ty, words_of_value};
ghost use Rattle.nv_ast.specs.Faults.{Expected as ExpectedTree, at_span, other_type, no_value, too_large_value};
ghost use Rattle.nv_ast.specs.Scope.{nothing_known};
ghost use Rattle.nv_types_table.specs.inner.Faulty.{Judges};
ghost use Rattle.nv_types_table.specs.inner.Cells.{still};
ghost use Rattle.nv_types_table.specs.inner.Costs.{node_cost};
ghost use Rattle.nv_types_table.specs.inner.Store.{IsValue};
ghost use Rattle.nv_types_scopes.specs.inner.Judging.{IsExpected, judged_faults};

use crate::declared::Declared;
use crate::expected::Expected;
use crate::scope::Scope;
use nv_ast::{Name, Span};
use nv_base::NoMemory;
use nv_types_table::cost::Cost;
use nv_types_table::error::{TypeError, fault_where};
use nv_types_table::shapes::Shape;
use nv_types_table::table::Table;
use std::alloc::Global;

/// A function that may be called: the list of its parameters' types, and its result's type.
#[derive(Clone, Copy)]
pub struct Function {
    pub params: usize,
    pub result: usize,
}

/// An expression without a fault: the type of its value, if it has one, and what it costs.
#[derive(Clone, Copy)]
pub struct TypedExpr {
    pub value: Option<usize>,
    pub cost: Cost,
}

/// A walk over a program: what is declared so far, what calls of the functions of groups that are behind cost,
/// the variables in sight, and the variables that were written in the function so far.
#[derive(Drop)]
pub struct Checker<'a> {
    pub alloc: Global,
    pub table: Table<'a>,
    pub layouts: Declared<'a, Shape>,
    pub exceptions: Declared<'a, usize>,
    pub functions: Declared<'a, Function>,
    pub costs: Declared<'a, Cost>,
    pub scope: Scope<'a>,
    pub written: Vec<&'a Name>,
}

impl<'a> Checker<'a> {
    ghost use Rattle.nv_types_scopes.specs.inner.Standing.{Holds, Sees, Counts};

    /// At the start of a program.
    pub fn new(alloc: Global) -> Result<Checker<'a>, NoMemory>
        ensures known { IfOk result (λ c. Holds c nothing_known) }
        ensures variables { IfOk result (λ c. Sees c []) }
        ensures counted { IfOk result (λ c. Counts c [] []) }
    {
        Ok(Checker {
            alloc,
            table: Table::new(alloc)?,
            layouts: Declared::new(alloc),
            exceptions: Declared::new(alloc),
            functions: Declared::new(alloc),
            costs: Declared::new(alloc),
            scope: Scope::new(alloc),
            written: Vec::new(alloc),
        })
    }

    /// The end of a walk, which lets its parts go in turn.
    pub fn end(self) {
        self.table.end();
        self.layouts.end();
        self.exceptions.end();
        self.functions.end();
        self.costs.end();
    }

    /// How many words a value has.
    pub fn words_of(&self, value: Option<usize>) -> u64
        ensures { (t : Option Ty) → IsValue self.now.table value t → result ≡ still (words_of_value t) }
    {
        match value {
            Some(t) => self.table.known(t).words,
            None => 0,
        }
    }

    /// Judges an expression whose parts have no fault: first the least of its kinds below 14, then the type of
    /// its value, then the least of its kinds from 15 to 21, then that it has a value and isn't too large.
    pub fn judge(
        &self,
        span: Span,
        expected: Expected,
        value: Option<usize>,
        low: Option<u8>,
        middle: Option<u8>,
    ) -> Result<(), TypeError>
        ensures { (w : ExpectedTree) (t : Option Ty) → IsExpected self.now.table expected w → IsValue self.now.table value t → Judges (judged_faults span w t low middle) result }
    {
        fault_of(low, span)?;
        self.right_type(span, expected, value)?;
        fault_of(middle, span)?;
        self.fitting_value(span, expected, value)
    }

    // 14: another type than a right one.
    fn right_type(
        &self,
        span: Span,
        expected: Expected,
        value: Option<usize>,
    ) -> Result<(), TypeError>
        ensures { (w : ExpectedTree) (t : Option Ty) → IsExpected self.now.table expected w → IsValue self.now.table value t → Judges (at_span span (other_type w t)) result }
    {
        match value {
            Some(t) => fault_where(!expected.is_right(self.alloc, &self.table, t)?, 14, span),
            None => Ok(()),
        }
    }

    // 22: no value where one is wanted; 24: a value of a type that is too large.
    fn fitting_value(
        &self,
        span: Span,
        expected: Expected,
        value: Option<usize>,
    ) -> Result<(), TypeError>
        ensures { (w : ExpectedTree) (t : Option Ty) → IsExpected self.now.table expected w → IsValue self.now.table value t → Judges (at_span span (no_value w t ++ too_large_value t)) result }
    {
        match value {
            Some(t) => fault_where(self.table.is_too_large(t), 24, span),
            None => fault_where(expected.value(), 22, span),
        }
    }

    /// Judges an expression of no kinds but 14, 22 and 24, and counts it with its parts.
    pub fn plain(
        &self,
        span: Span,
        expected: Expected,
        value: Option<usize>,
        parts: Cost,
    ) -> Result<TypedExpr, TypeError>
        ensures judged { (w : ExpectedTree) (t : Option Ty) → IsExpected self.now.table expected w → IsValue self.now.table value t → Judges (judged_faults span w t None None) result }
        ensures same { IfOk result (λ f. f.value ≡ value) }
        ensures counted { (t : Option Ty) → IsValue self.now.table value t → IfOk result (λ f. f.cost ≡ node_cost (still (words_of_value t)) parts) }
    {
        self.judge(span, expected, value, None, None)?;
        Ok(self.found(value, parts))
    }

    /// An expression with its parts.
    pub fn found(&self, value: Option<usize>, parts: Cost) -> TypedExpr
        ensures same { result.value ≡ value }
        ensures counted { (t : Option Ty) → IsValue self.now.table value t → result.cost ≡ node_cost (still (words_of_value t)) parts }
    {
        TypedExpr {
            value,
            cost: Cost::node(self.words_of(value), parts),
        }
    }
}

// The fault of a kind, if there is one.
fn fault_of(kind: Option<u8>, span: Span) -> Result<(), TypeError>
    ensures { Judges (at_span span (option_to_list kind)) result }
{
    match kind {
        Some(k) => Err(TypeError::Fault(k, span)),
        None => Ok(()),
    }
}
