//! The text of a program, read.

ghost use Rattle.std.specs.Prelude.{◌≡◌, ◌≢◌, ◌+◌, ◌*◌, ◌<◌, ◌≤◌, ◌^◌, ◌++◌, ◌∷◌, [], ◌≤ℤ◌, pos, neg_ℤ, ℕ, ℤ, List, All, map, length, codes, decimal, IfSome, IfNone, MatchOption, IfOk, IfErr, OnOk};
ghost use Rattle.std.specs.Fmt.{signed_decimal};
ghost use Rattle.nv_lines.specs.Line.{Lacks, text_of, parts, parted};
ghost use Rattle.nv_lines.specs.Format.{IsText};
ghost use Rattle.zo_model.specs.Contents.{Contents, contents, row_contents};
ghost use Rattle.zo_model.specs.Program.{IsCoefficient, IsValid};
ghost use Rattle.zo_model.specs.ProgramAnswer.{IsTrueRefusal, AnswersProgram, AnswersBad};
ghost use Rattle.zo_model.specs.ProgramText.{cost_line, term_text, row_line, program_lines, program_text, IsRowText, IsValidContents, AreProgramLines, IsFirstFault};
ghost use Rattle.zo_model.specs.inner.TermParts.{IsTerm, SpellTerms};
ghost use Rattle.zo_model.specs.inner.LineFault.{IsCounted, IsCost, IsRowLine, NoLine, IsLineFault};
ghost use Rattle.zo_model.specs.inner.ProgramFault.{IsProgramFault, IsCostFault, IsRowFault};
ghost use Rattle.zo_model.specs.declared.error.ZoError.{ZoError};
ghost use Rattle.zo_model.specs.declared.error.ZoError.TheVariants.{Bad};

use crate::error::ZoError;
use crate::program::{COST_LIMIT, COUNT_LIMIT, LEAST_LIMIT, Row, ZeroOne};
use nv_lines::{Lines, Parts, read_decimal, read_signed, split_once};
use std::alloc::{AllocError, Global};

/// The lines of a text, read one by one, and how many were read.
#[derive(Drop)]
pub struct Reader<'a> {
    pub lines: Lines<'a>,
    pub number: u32,
}

impl<'a> Reader<'a> {
    /// The next line, or the fault that there is none.
    pub fn next_line(&mut self) -> Result<&'a [u8], ZoError>
        requires { 2 * self.old.number + length self.old.lines < 2 ^ 32 }
        ensures line { IfOk result (λ line. self.old.lines ≡ line.now ++ 10 ∷ self.new.lines) }
        ensures one { IfOk result (λ line. Lacks 10 line.now) }
        ensures none { IfErr result (λ e. (e ≡ Bad (self.old.number + 1)) × Lacks 10 self.old.lines) }
        ensures number { self.new.number ≡ self.old.number + 1 }
    {
        self.number += 1;
        self.lines.next_line().ok_or(ZoError::Bad(self.number))
    }
}

/// The number of at most `most` after this name, where the line is these two parts.
pub fn counted_of(line: &[u8], name: &[u8], most: u64) -> Option<u64>
    requires { Lacks 32 name.now }
    ensures some { IfSome result (λ n. (n ≤ most) × (line.now ≡ parted (name.now ∷ decimal n ∷ []))) }
    ensures none { IfNone result (¬ IsCounted name.now most line.now) }
{
    let mut parts = Parts::of(line);
    if !parts.next_is(name) {
        return None;
    }
    let n = parts.next_decimal(most)?;
    if !parts.is_done() {
        return None;
    }
    Some(n)
}

/// Reads a line of a name and a number.
pub fn read_counted(reader: &mut Reader, name: &[u8], most: u64) -> Result<u64, ZoError>
    requires room { 2 * reader.old.number + length reader.old.lines < 2 ^ 32 }
    requires name { Lacks 32 name.now }
    requires some { 0 < length name.now }
    ensures ok { IfOk result (λ n. (n ≤ most) × (reader.old.lines ≡ parted (name.now ∷ decimal n ∷ []) ++ 10 ∷ reader.new.lines)) }
    ensures number { OnOk result (reader.new.number ≡ reader.old.number + 1) }
    ensures room { OnOk result (2 * reader.new.number + length reader.new.lines < 2 ^ 32) }
    ensures err { IfErr result (IsLineFault (IsCounted name.now most) reader.old.lines reader.old.number) }
{
    let line = reader.next_line()?;
    match counted_of(line, name, most) {
        Some(n) => Ok(n),
        None => Err(ZoError::Bad(reader.number)),
    }
}

/// The cost of a column's line.
fn cost_of(line: &[u8]) -> Option<u32>
    ensures some { IfSome result (λ c. (c < 2 ^ 20) × (line.now ≡ cost_line c)) }
    ensures none { IfNone result (¬ IsCost line.now) }
{
    Some(counted_of(line, b"c", u64::from(COST_LIMIT) - 1)? as u32)
}

/// Reads the lines of N columns.
fn read_costs(alloc: Global, reader: &mut Reader, n: u64) -> Result<Vec<u32>, ZoError>
    requires room { 2 * reader.old.number + length reader.old.lines < 2 ^ 32 }
    ensures count { IfOk result (λ costs. length costs.items ≡ n) }
    ensures fit { IfOk result (λ costs. All (λ c. c < 2 ^ 20) costs.items) }
    ensures lines { IfOk result (λ costs. reader.old.lines ≡ text_of (map cost_line costs.items) ++ reader.new.lines) }
    ensures number { OnOk result (reader.new.number ≡ reader.old.number + n) }
    ensures room { OnOk result (2 * reader.new.number + length reader.new.lines < 2 ^ 32) }
    ensures err { IfErr result (IsCostFault n reader.old.lines reader.old.number) }
{
    let mut costs = Vec::new(alloc);
    for _ in 0..n {
        let line = reader.next_line()?;
        let Some(cost) = cost_of(line) else {
            return Err(ZoError::Bad(reader.number));
        };
        costs.push(cost)?;
    }
    Ok(costs)
}

/// The term of a part, over N columns, where its column is `low` at least.
fn term_of(part: &[u8], low: u64, columns: u64) -> Option<(u32, i32)>
    requires { columns ≤ 2 ^ 26 }
    ensures some { IfSome result (IsTerm low columns part.now) }
    ensures none { IfNone result ((t : ℕ × ℤ) → ¬ IsTerm low columns part.now t) }
{
    let (column, coefficient) = split_once(part, b':')?;
    let column = read_decimal(column, COUNT_LIMIT as u64)?;
    let coefficient = read_signed(coefficient, -32_768, 32_767)?;
    if column < low || columns <= column || coefficient == 0 {
        return None;
    }
    Some((column as u32, coefficient))
}

/// The terms of these parts, over N columns, or `None`; or memory exhaustion.
fn terms_of(
    alloc: Global,
    parts: Parts,
    columns: u64,
) -> Result<Option<Vec<(u32, i32)>>, AllocError>
    requires { columns ≤ 2 ^ 26 }
    ensures some { IfOk result (λ found. IfSome found (λ terms. SpellTerms columns parts.entry terms.items)) }
    ensures none { IfOk result (λ found. IfNone found ((ts : List (ℕ × ℤ)) → ¬ SpellTerms columns parts.entry ts)) }
{
    let mut parts = parts;
    let mut terms = Vec::new(alloc);
    let mut low = 0;
    while let Some(part) = parts.next_part() {
        let Some((column, coefficient)) = term_of(part, low, columns) else {
            return Ok(None);
        };
        low = u64::from(column) + 1;
        terms.push((column, coefficient))?;
    }
    Ok(Some(terms))
}

/// The row of a line, over N columns, or `None`; or memory exhaustion.
fn row_of(alloc: Global, line: &[u8], columns: u64) -> Result<Option<Row>, AllocError>
    requires { columns ≤ 2 ^ 26 }
    ensures some { IfOk result (λ found. IfSome found (λ row. IsRowText columns (row_contents row) × (line.now ≡ row_line (row_contents row)))) }
    ensures none { IfOk result (λ found. IfNone found (¬ IsRowLine columns line.now)) }
{
    let mut parts = Parts::of(line);
    if !parts.next_is(b"r") {
        return Ok(None);
    }
    let Some(least) = parts.next_signed(-LEAST_LIMIT, LEAST_LIMIT) else {
        return Ok(None);
    };
    match terms_of(alloc, parts, columns)? {
        Some(terms) => Ok(Some(Row { terms, least })),
        None => Ok(None),
    }
}

/// Reads the lines of N rows over N columns.
fn read_rows(alloc: Global, reader: &mut Reader, columns: u64, m: u64) -> Result<Vec<Row>, ZoError>
    requires few { columns ≤ 2 ^ 26 }
    requires room { 2 * reader.old.number + length reader.old.lines < 2 ^ 32 }
    ensures count { IfOk result (λ rows. length rows.items ≡ m) }
    ensures fit { IfOk result (λ rows. All (IsRowText columns) (map row_contents rows.items)) }
    ensures lines { IfOk result (λ rows. reader.old.lines ≡ text_of (map row_line (map row_contents rows.items)) ++ reader.new.lines) }
    ensures number { OnOk result (reader.new.number ≡ reader.old.number + m) }
    ensures room { OnOk result (2 * reader.new.number + length reader.new.lines < 2 ^ 32) }
    ensures err { IfErr result (IsRowFault columns m reader.old.lines reader.old.number) }
{
    let mut rows = Vec::new(alloc);
    for _ in 0..m {
        let line = reader.next_line()?;
        let Some(row) = row_of(alloc, line, columns)? else {
            return Err(ZoError::Bad(reader.number));
        };
        rows.push(row)?;
    }
    Ok(rows)
}

/// Reads the lines of a program, whatever follows them.
pub fn read_program_lines(alloc: Global, reader: &mut Reader) -> Result<ZeroOne, ZoError>
    requires room { 2 * reader.old.number + length reader.old.lines < 2 ^ 32 }
    ensures valid { IfOk result (λ z. IsValidContents (contents z)) }
    ensures lines { IfOk result (λ z. reader.old.lines ≡ text_of (program_lines (contents z)) ++ reader.new.lines) }
    ensures number { IfOk result (λ z. reader.new.number ≡ reader.old.number + length (program_lines (contents z))) }
    ensures room { OnOk result (2 * reader.new.number + length reader.new.lines < 2 ^ 32) }
    ensures err { IfErr result (IsProgramFault reader.old.lines reader.old.number) }
{
    let n = read_counted(reader, b"columns", COUNT_LIMIT as u64)?;
    let m = read_counted(reader, b"rows", COUNT_LIMIT as u64)?;
    let costs = read_costs(alloc, reader, n)?;
    let rows = read_rows(alloc, reader, n, m)?;
    Ok(ZeroOne { costs, rows })
}

/// Reads the lines of a program and their end.
fn read_whole(alloc: Global, bytes: &[u8]) -> Result<ZeroOne, ZoError>
    requires { length bytes.now < 2 ^ 32 }
    ensures valid { IfOk result (λ z. IsValidContents (contents z)) }
    ensures text { IfOk result (λ z. bytes.now ≡ program_text (contents z)) }
    ensures refuses { IfErr result (IsTrueRefusal bytes.now) }
{
    let mut reader = Reader {
        lines: Lines::of(bytes),
        number: 0,
    };
    let z = read_program_lines(alloc, &mut reader)?;
    if !reader.lines.is_done() {
        return Err(ZoError::Bad(reader.number + 1));
    }
    Ok(z)
}

/// The program of a text.
///
/// Memory exhaustion may be the answer to any bytes; each other answer comes exactly where its clauses say. So the text of a
/// program is read as that program.
pub fn read_program(alloc: Global, bytes: &[u8]) -> Result<ZeroOne, ZoError>
    requires { length bytes.now < 2 ^ 32 }
    ensures valid { IfOk result IsValid }
    ensures text { IfOk result (λ z. bytes.now ≡ program_text (contents z)) }
    ensures refuses { IfErr result (IsTrueRefusal bytes.now) }

    ensures given { (p : Contents) → IsValidContents p → bytes.now ≡ program_text p → AnswersProgram result p }
    ensures bad { (n : ℕ) → IsFirstFault bytes.now n → AnswersBad result n }
{
    read_whole(alloc, bytes)
}
