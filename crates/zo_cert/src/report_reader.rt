//! The text of a report, read.

ghost use Rattle.std.specs.Prelude.{◌≡◌, ◌≢◌, ◌+◌, ◌*◌, ◌<◌, ◌≤◌, ◌^◌, ◌++◌, ◌∷◌, [], ℕ, All, false, replicate, map, length, codes, decimal, IfSome, IfNone, IfOk, IfErr, OnOk};
ghost use Rattle.nv_lines.specs.Line.{text_of, parts};
ghost use Rattle.zo_model.specs.Program.{IsValid, columns, cost_of, vector};
ghost use Rattle.zo_model.specs.inner.LineFault.{IsLineFault};
ghost use Rattle.zo_model.specs.declared.error.ZoError.{ZoError};
ghost use Rattle.zo_model.specs.declared.error.ZoError.TheVariants.{Bad};
ghost use Rattle.zo_cert.specs.Contents.{ReportContents, report_contents};
ghost use Rattle.zo_cert_tree.specs.Node.{node_contents, IsNodeText, node_line};
ghost use Rattle.zo_cert.specs.Report.{IsBlank, IsValidReport};
ghost use Rattle.zo_cert.specs.ReportFault.{IsReport, IsFirstReportFault};
ghost use Rattle.zo_cert.specs.inner.ReportPart.{AreFrontLines, AreTreeLines, IsStop, IsCostedFault, IsVerdictFault};
ghost use Rattle.zo_cert.specs.ReportAnswer.{IsTrueReportRefusal, AnswersReport, AnswersFault};
ghost use Rattle.zo_cert.specs.inner.ReportLine.{IsOnesLine, IsNodeFault};
ghost use Rattle.zo_cert.specs.ReportText.{counted_line, x_line, verdict_lines, report_text};

use crate::report::{Report, Verdict};
use nv_lines::{Lines, Parts, read_decimal, strip};
use std::alloc::{AllocError, Global};
use zo_cert_tree::node_reader::node_of;
use zo_cert_tree::{Cert, CertNode};
use zo_model::{Assignment, Reader, ZeroOne, ZoError, cost, read_counted, read_program_lines};

/// The columns that a report names are below this.
const NAMES: u64 = 1 << 26;

/// The greatest number of nodes.
const MOST: u64 = u32::MAX as u64;

/// The column of a part, which is `low` at least and below `columns`.
fn column_of(part: &[u8], low: usize, columns: usize) -> Option<usize>
    requires { columns ≤ 2 ^ 26 }
    ensures some { IfSome result (λ j. (low ≤ j) × (j < columns) × (part.now ≡ decimal j)) }
    ensures none { IfNone result ((j : ℕ) → low ≤ j → j < columns → part.now ≢ decimal j) }
{
    let column = read_decimal(part, NAMES)? as usize;
    if column < low {
        return None;
    }
    if column >= columns {
        return None;
    }
    Some(column)
}

/// So many columns that are 0.
fn blanks(alloc: Global, columns: usize) -> Result<Vec<bool>, AllocError>
    ensures { IfOk result (λ on. on.items ≡ replicate columns false) }
{
    vec![in alloc; false; columns]
}

/// The columns that are 1, by a line of them, or `None`; or memory exhaustion.
fn ones_of(alloc: Global, line: &[u8], columns: usize) -> Result<Option<Vec<bool>>, AllocError>
    requires { columns ≤ 2 ^ 26 }
    ensures some { IfOk result (λ found. IfSome found (λ on. (length on.items ≡ columns) × (line.now ≡ x_line on.items))) }
    ensures none { IfOk result (λ found. IfNone found (¬ IsOnesLine columns line.now)) }
{
    let mut parts = Parts::of(line);
    if !parts.next_is(b"x") {
        return Ok(None);
    }
    let mut on = blanks(alloc, columns)?;
    let mut low = 0;
    while let Some(part) = parts.next_part() {
        let Some(column) = column_of(part, low, columns) else {
            return Ok(None);
        };
        on[column] = true;
        low = column + 1;
    }
    Ok(Some(on))
}

/// Reads a line that is this text.
fn read_exact(reader: &mut Reader, text: &[u8]) -> Result<(), ZoError>
    requires room { 2 * reader.old.number + length reader.old.lines < 2 ^ 32 }
    requires some { 0 < length text.now }
    ensures line { OnOk result (reader.old.lines ≡ text.now ++ 10 ∷ reader.new.lines) }
    ensures number { OnOk result (reader.new.number ≡ reader.old.number + 1) }
    ensures err { IfErr result (IsLineFault (λ line. line ≡ text.now) reader.old.lines reader.old.number) }
    ensures room { OnOk result (2 * reader.new.number + length reader.new.lines < 2 ^ 32) }
{
    let line = reader.next_line()?;
    if line != text {
        return Err(ZoError::Bad(reader.number));
    }
    Ok(())
}

/// Reads the line of the columns that are 1.
fn read_ones(alloc: Global, reader: &mut Reader, columns: usize) -> Result<Assignment, ZoError>
    requires few { columns ≤ 2 ^ 26 }
    requires room { 2 * reader.old.number + length reader.old.lines < 2 ^ 32 }
    ensures count { IfOk result (λ x. length x.on.items ≡ columns) }
    ensures line { IfOk result (λ x. reader.old.lines ≡ x_line x.on.items ++ 10 ∷ reader.new.lines) }
    ensures number { OnOk result (reader.new.number ≡ reader.old.number + 1) }
    ensures err { IfErr result (IsLineFault (IsOnesLine columns) reader.old.lines reader.old.number) }
    ensures room { OnOk result (2 * reader.new.number + length reader.new.lines < 2 ^ 32) }
{
    let line = reader.next_line()?;
    match ones_of(alloc, line, columns)? {
        Some(on) => Ok(Assignment { on }),
        None => Err(ZoError::Bad(reader.number)),
    }
}

/// Reads the columns that are 1 after a verdict in line `number` that states their cost.
fn read_costed(
    alloc: Global,
    reader: &mut Reader,
    z: &ZeroOne,
    stated: &[u8],
    number: u32,
) -> Result<Assignment, ZoError>
    requires room { 2 * reader.old.number + length reader.old.lines < 2 ^ 32 }
    requires valid { IsValid z.now }
    ensures count { IfOk result (λ x. length x.on.items ≡ columns z.now) }
    ensures cost { IfOk result (λ x. stated.now ≡ decimal (cost_of z.now (vector x.on.items))) }
    ensures line { IfOk result (λ x. reader.old.lines ≡ x_line x.on.items ++ 10 ∷ reader.new.lines) }
    ensures number { OnOk result (reader.new.number ≡ reader.old.number + 1) }
    ensures err { IfErr result (IsCostedFault z.now.costs.items stated.now number reader.old.lines reader.old.number) }
    ensures room { OnOk result (2 * reader.new.number + length reader.new.lines < 2 ^ 32) }
{
    let Some(stated) = read_decimal(stated, u64::MAX) else {
        return Err(ZoError::Bad(number));
    };
    let x = read_ones(alloc, reader, z.costs.len())?;
    if cost(z, &x) != stated {
        return Err(ZoError::Bad(number));
    }
    Ok(x)
}

/// Reads N nodes.
fn read_nodes(alloc: Global, reader: &mut Reader, count: u64) -> Result<Vec<CertNode>, ZoError>
    requires room { 2 * reader.old.number + length reader.old.lines < 2 ^ 32 }
    ensures count { IfOk result (λ nodes. length nodes.items ≡ count) }
    ensures fit { IfOk result (λ nodes. All IsNodeText (map node_contents nodes.items)) }
    ensures lines { IfOk result (λ nodes. reader.old.lines ≡ text_of (map node_line (map node_contents nodes.items)) ++ reader.new.lines) }
    ensures number { OnOk result (reader.new.number ≡ reader.old.number + count) }
    ensures err { IfErr result (IsNodeFault count reader.old.lines reader.old.number) }
    ensures room { OnOk result (2 * reader.new.number + length reader.new.lines < 2 ^ 32) }
{
    let mut nodes = Vec::new(alloc);
    for _ in 0..count {
        let line = reader.next_line()?;
        let Some(node) = node_of(alloc, line)? else {
            return Err(ZoError::Bad(reader.number));
        };
        nodes.push(node)?;
    }
    Ok(nodes)
}

/// Reads the verdict, and the columns that are 1 where it has a cost.
fn read_verdict(
    alloc: Global,
    reader: &mut Reader,
    z: &ZeroOne,
) -> Result<(Verdict, Assignment), ZoError>
    requires room { 2 * reader.old.number + length reader.old.lines < 2 ^ 32 }
    requires valid { IsValid z.now }
    ensures count { IfOk result (λ r. length r.1.on.items ≡ columns z.now) }
    ensures blank { IfOk result (λ r. IsBlank r.0 r.1.on.items) }
    ensures lines { IfOk result (λ r. reader.old.lines ≡ text_of (verdict_lines r.0 z.now.costs.items r.1.on.items) ++ reader.new.lines) }
    ensures number { IfOk result (λ r. reader.new.number ≡ reader.old.number + length (verdict_lines r.0 z.now.costs.items r.1.on.items)) }
    ensures err { IfErr result (IsVerdictFault z.now.costs.items reader.old.lines reader.old.number) }
    ensures room { OnOk result (2 * reader.new.number + length reader.new.lines < 2 ^ 32) }
{
    let line = reader.next_line()?;
    let number = reader.number;
    if line == b"verdict infeasible".as_slice() {
        let on = blanks(alloc, z.costs.len())?;
        return Ok((Verdict::Infeasible, Assignment { on }));
    }
    if line == b"verdict spent".as_slice() {
        let on = blanks(alloc, z.costs.len())?;
        return Ok((Verdict::Spent, Assignment { on }));
    }
    if let Some(stated) = strip(line, b"verdict optimal ") {
        let x = read_costed(alloc, reader, z, stated, number)?;
        return Ok((Verdict::Optimal, x));
    }
    let Some(stated) = strip(line, b"verdict feasible ") else {
        return Err(ZoError::Bad(number));
    };
    let x = read_costed(alloc, reader, z, stated, number)?;
    Ok((Verdict::Feasible, x))
}

/// Reads the first three lines: the slots and the budget.
fn read_front(reader: &mut Reader) -> Result<(u32, u32), ZoError>
    requires room { 2 * reader.old.number + length reader.old.lines < 2 ^ 32 }
    ensures slots { IfOk result (λ r. r.0 ≤ 128) }
    ensures low { IfOk result (λ r. 1 ≤ r.1) }
    ensures high { IfOk result (λ r. r.1 ≤ 1000000) }
    ensures lines { IfOk result (λ r. reader.old.lines ≡ text_of (codes "novareport 1" ∷ counted_line (codes "slots") r.0 ∷ counted_line (codes "budget") r.1 ∷ []) ++ reader.new.lines) }
    ensures number { OnOk result (reader.new.number ≡ reader.old.number + 3) }
    ensures err { IfErr result (IsStop AreFrontLines reader.old.lines reader.old.number) }
    ensures room { OnOk result (2 * reader.new.number + length reader.new.lines < 2 ^ 32) }
{
    read_exact(reader, b"novareport 1")?;
    let slots = read_counted(reader, b"slots", 128)?;
    let budget = read_counted(reader, b"budget", 1_000_000)?;
    if budget == 0 {
        return Err(ZoError::Bad(reader.number));
    }
    Ok((slots as u32, budget as u32))
}

/// Reads the tree.
fn read_tree(alloc: Global, reader: &mut Reader) -> Result<Cert, ZoError>
    requires room { 2 * reader.old.number + length reader.old.lines < 2 ^ 32 }
    ensures some { IfOk result (λ tree. 1 ≤ length tree.nodes.items) }
    ensures few { IfOk result (λ tree. length tree.nodes.items < 2 ^ 32) }
    ensures fit { IfOk result (λ tree. All IsNodeText (map node_contents tree.nodes.items)) }
    ensures lines { IfOk result (λ tree. reader.old.lines ≡ text_of (counted_line (codes "tree") (length (map node_contents tree.nodes.items)) ∷ map node_line (map node_contents tree.nodes.items)) ++ reader.new.lines) }
    ensures number { IfOk result (λ tree. reader.new.number ≡ reader.old.number + (1 + length tree.nodes.items)) }
    ensures err { IfErr result (IsStop AreTreeLines reader.old.lines reader.old.number) }
    ensures room { OnOk result (2 * reader.new.number + length reader.new.lines < 2 ^ 32) }
{
    let count = read_counted(reader, b"tree", MOST)?;
    if count == 0 {
        return Err(ZoError::Bad(reader.number));
    }
    let nodes = read_nodes(alloc, reader, count)?;
    Ok(Cert { nodes })
}

/// Reads the lines of a report and their end.
fn read_whole(alloc: Global, bytes: &[u8]) -> Result<Report, ZoError>
    requires { length bytes.now < 2 ^ 32 }
    ensures valid { IfOk result (λ r. IsReport (report_contents r)) }
    ensures text { IfOk result (λ r. bytes.now ≡ report_text (report_contents r)) }
    ensures refuses { IfErr result (IsTrueReportRefusal bytes.now) }
{
    let mut reader = Reader {
        lines: Lines::of(bytes),
        number: 0,
    };
    let (slots, budget) = read_front(&mut reader)?;
    let z = read_program_lines(alloc, &mut reader)?;
    let (verdict, x) = read_verdict(alloc, &mut reader, &z)?;
    let tree = read_tree(alloc, &mut reader)?;
    if !reader.lines.is_done() {
        return Err(ZoError::Bad(reader.number + 1));
    }
    Ok(Report {
        slots,
        budget,
        z,
        verdict,
        x,
        tree,
    })
}

/// The report of a text.
///
/// Memory exhaustion may be the answer to any bytes; each other answer comes exactly where its clauses say. `Bad` names the
/// first line that isn't of the format. A cost that isn't that of the columns in a line of them that can be read is a
/// fault of the verdict's line; where that line can't be read, the fault is there. So the text of a valid report is read
/// as that report.
pub fn read_report(alloc: Global, bytes: &[u8]) -> Result<Report, ZoError>
    requires { length bytes.now < 2 ^ 32 }
    ensures valid { IfOk result IsValidReport }
    ensures report { IfOk result (λ r. IsReport (report_contents r)) }
    ensures text { IfOk result (λ r. bytes.now ≡ report_text (report_contents r)) }
    ensures refuses { IfErr result (IsTrueReportRefusal bytes.now) }

    ensures given { (r : ReportContents) → IsReport r → bytes.now ≡ report_text r → AnswersReport result r }
    ensures bad { (n : ℕ) → IsFirstReportFault bytes.now n → AnswersFault result n }
{
    read_whole(alloc, bytes)
}
