// The text of a report, printed and read back.
ghost use Rattle.std.specs.Prelude.{IfOk};
ghost use Rattle.zo_cert.specs.Report.{IsValidReport};

use std::alloc::Global;
use zo_cert::laws::read_back;
use zo_cert::{Report, ZoError, print_report, read_report};

const COVER: &[u8] =
    b"novareport 1\nslots 0\nbudget 1\ncolumns 3\nrows 3\nc 1\nc 1\nc 1\nr 1 0:1 1:1\nr 1 1:1 2:1\nr 1 0:1 2:1\nverdict optimal 2\nx 0 1\ntree 1\nd 2 0:1 1:1 2:1\n";

fn read(alloc: Global, text: &[u8]) -> Result<Report, ZoError>
    ensures { IfOk result IsValidReport }
{
    if text.len() > 1_000_000 {
        return Err(ZoError::NoMemory);
    }
    read_report(alloc, text)
}

/// Whether the report of this text is read back from its text, and printed as it.
fn is_read_back(alloc: Global, text: &[u8]) -> Result<bool, ZoError> {
    let first = read(alloc, text)?;
    let second = read_back(alloc, &first)?;
    let shown = print_report(alloc, &first)?;
    Ok(shown.as_slice() == text && second.tree.nodes.len() == first.tree.nodes.len())
}

#[test]
fn a_report_is_read_back_from_its_text(rt: HostRuntime) {
    assert_eq!(rt; is_read_back(rt.alloc(), COVER), Ok(true));
}
