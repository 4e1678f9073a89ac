//! The fields of records, found by their names.

ghost use Rattle.std.specs.Prelude.{◌≡◌, ◌<◌, ℕ, List, IfSome, Some};
ghost use Rattle.nv_ast.specs.Types.{Ty};
ghost use Rattle.nv_ast.specs.Typing.{field_ty};
ghost use Rattle.nv_types_table.specs.inner.Rows.{Row, leaves, field_with};
ghost use Rattle.nv_types_table.specs.inner.Store.{IsStore, Stands, IsRow, IsType, IsValue};

use crate::table::{Cell, Table};
use nv_ast::Name;

/// The type of a field, if the type is a record with such a field.
pub fn field_type<'a>(table: &Table<'a>, name: &'a Name, t: usize) -> Option<usize>
    ensures { (u : Ty) → IsType table.now t u → IsValue table.now result (field_ty name.now (Some u)) }
{
    let number = table.number_of(name)?;
    let fields = table.record_fields(t)?;
    field_in(table, fields, number)
}

/// What stands under a name in a list of fields, if one has that name: the type or form of the first.
pub fn field_in(table: &Table, fields: usize, name: usize) -> Option<usize>
    ensures found { (ps : List (ℕ × ℕ)) → IsRow table.now fields ps → result ≡ field_with name ps }
    ensures store { IsStore table.now }
    ensures below { IfSome result (λ t. t < fields) }
{
    if table.is_empty(fields) {
        return None;
    }
    find_in(table, fields, name)
}

// The same in a tree of fields.
fn find_in(table: &Table, list: usize, name: usize) -> Option<usize>
    ensures found { (t : Row) → Stands table.now list t → result ≡ field_with name (leaves t) }
    ensures below { IfSome result (λ t. t < list) }
{
    match table.cell(list) {
        Some(Cell::Field(x, t)) => { if x == name { Some(t) } else { None } }
        Some(Cell::Both(left, right)) => match find_in(table, left, name) {
            Some(t) => Some(t),
            None => find_in(table, right, name),
        },
        _ => None,
    }
}
