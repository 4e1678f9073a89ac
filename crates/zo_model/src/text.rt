//! The text of a program: counts of columns and rows, then a line for each column, then one for each row.

ghost use Rattle.std.specs.Prelude.{◌≡◌, ◌≢◌, ◌+◌, ◌<◌, ◌≤◌, ◌^◌, ◌++◌, ◌∷◌, [], ◌↔◌, ◌≤ℤ◌, pos, neg_ℤ, ℕ, ℤ, List, All, map, take, length, codes, decimal, IsTrue, IfSome, IfNone, MatchOption, IfOk, IfErr, OnOk};
ghost use Rattle.std.specs.Fmt.{signed_decimal};
ghost use Rattle.std.specs.List.{flat_map};
ghost use Rattle.nv_lines.specs.Line.{text_of};
ghost use Rattle.zo_model.specs.Contents.{contents, row_contents};
ghost use Rattle.zo_model.specs.Program.{IsValid};
ghost use Rattle.zo_model.specs.ProgramText.{columns_line, rows_line, cost_line, term_text, row_line, program_lines, program_text};

use crate::error::{NoMemory, ZoError};
use crate::program::{Row, ZeroOne};
use nv_lines::{
    Lines, Parts, push_counted, push_decimal, push_signed, read_decimal, read_signed, split_once,
};
use std::alloc::{AllocError, Global};

/// Writes a term after a space.
fn push_term(out: &mut Vec<u8>, term: &(u32, i32)) -> Result<(), AllocError>
    ensures { OnOk result (out.new.items ≡ out.old.items ++ (32 ∷ term_text term.now)) }
{
    out.push(b' ')?;
    push_decimal(out, u64::from(term.0))?;
    out.push(b':')?;
    push_signed(out, term.1)?;
    Ok(())
}

/// Writes terms, each after a space.
fn push_terms(out: &mut Vec<u8>, terms: &[(u32, i32)]) -> Result<(), AllocError>
    ensures { OnOk result (out.new.items ≡ out.old.items ++ flat_map (λ t. 32 ∷ term_text t) terms.now) }
{
    for term in terms {
        push_term(out, term)?;
    }
    Ok(())
}

/// Writes the line of a row.
fn push_row(out: &mut Vec<u8>, row: &Row) -> Result<(), AllocError>
    ensures { OnOk result (out.new.items ≡ out.old.items ++ (row_line (row_contents row.now) ++ 10 ∷ [])) }
{
    out.extend_from_slice(b"r ")?;
    push_signed(out, row.least)?;
    push_terms(out, &row.terms)?;
    out.push(b'\n')?;
    Ok(())
}

/// Writes the lines of the columns.
fn push_costs(out: &mut Vec<u8>, costs: &[u32]) -> Result<(), AllocError>
    ensures { OnOk result (out.new.items ≡ out.old.items ++ text_of (map cost_line costs.now)) }
{
    for cost in costs {
        push_counted(out, b"c ", u64::from(*cost))?;
    }
    Ok(())
}

/// Writes the lines of the rows.
fn push_rows(out: &mut Vec<u8>, rows: &[Row]) -> Result<(), AllocError>
    ensures { OnOk result (out.new.items ≡ out.old.items ++ text_of (map row_line (map row_contents rows.now))) }
{
    for row in rows {
        push_row(out, row)?;
    }
    Ok(())
}

/// Appends the text of a program.
pub fn push_program(out: &mut Vec<u8>, z: &ZeroOne) -> Result<(), AllocError>
    ensures { OnOk result (out.new.items ≡ out.old.items ++ program_text (contents z.now)) }
{
    push_counted(out, b"columns ", z.costs.len() as u64)?;
    push_counted(out, b"rows ", z.rows.len() as u64)?;
    push_costs(out, &z.costs)?;
    push_rows(out, &z.rows)?;
    Ok(())
}

/// The text of a program.
pub fn print_program(alloc: Global, z: &ZeroOne) -> Result<Vec<u8>, NoMemory>
    ensures { IfOk result (λ text. text.items ≡ program_text (contents z.now)) }
{
    let mut out = Vec::new(alloc);
    push_program(&mut out, z)?;
    Ok(out)
}
