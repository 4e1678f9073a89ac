//! What is wanted of an expression.

ghost use Rattle.std.specs.Prelude.{◌≡◌, IfOk, Option};
ghost use Rattle.nv_ast.specs.Types.{Ty, words_ty};
ghost use Rattle.nv_ast.specs.Faults.{Expected as ExpectedTree, same_as as same_as_type};
ghost use Rattle.nv_types_table.specs.inner.Store.{Store, IsType, IsValue};
ghost use Rattle.nv_types_scopes.specs.inner.Judging.{IsExpected};

use crate::packing::can_pack_record;
use nv_base::NoMemory;
use nv_types_table::table::Table;
use std::alloc::Global;

/// What is wanted of an expression: nothing, or a value of a right type.
#[derive(Clone, Copy)]
pub enum Expected {
    /// It may have no value, and any type is right.
    Anything,
    /// A value of any type.
    Value,
    /// A value of this type.
    Typed(usize),
    /// It may have no value, and this type is right.
    Same(usize),
    /// A value that can be packed by the record of these forms.
    Packed(usize),
    /// A value that can be stored: a word or a tuple of words alone.
    Stored,
}

impl Expected {
    /// What is wanted of a part that is to have the type of an earlier one.
    pub fn same_as(earlier: Option<usize>) -> Expected
        ensures { (s : Store) (t : Option Ty) → IsValue s earlier t → IsExpected s result (same_as_type t) }
    {
        match earlier {
            Some(t) => Expected::Same(t),
            None => Expected::Anything,
        }
    }

    /// Whether a value is wanted.
    pub fn value(self) -> bool
        ensures { (s : Store) (w : ExpectedTree) → IsExpected s self w → result ≡ w.value }
    {
        match self {
            Expected::Anything | Expected::Same(_) => false,
            Expected::Value | Expected::Typed(_) | Expected::Packed(_) | Expected::Stored => true,
        }
    }

    /// Whether a type is right.
    pub fn is_right(self, alloc: Global, table: &Table, t: usize) -> Result<bool, NoMemory>
        ensures { (w : ExpectedTree) (u : Ty) → IsExpected table.now self w → IsType table.now t u → IfOk result (λ b. b ≡ w.right u) }
    {
        match self {
            Expected::Anything | Expected::Value => Ok(true),
            Expected::Typed(want) | Expected::Same(want) => Ok(table.is_same(t, want)),
            Expected::Packed(forms) => can_pack_record(table, alloc, forms, t),
            Expected::Stored => Ok(table.can_store(t)),
        }
    }

    /// Whether the type of N words is right.
    pub fn is_right_words(self, table: &Table, n: u32) -> bool
        ensures { (w : ExpectedTree) → IsExpected table.now self w → result ≡ w.right (words_ty n) }
    {
        match self {
            Expected::Anything | Expected::Value | Expected::Stored => true,
            Expected::Typed(want) | Expected::Same(want) => table.is_words(want, n),
            Expected::Packed(_) => false,
        }
    }
}
