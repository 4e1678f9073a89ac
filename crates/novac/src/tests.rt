// The top call over files in memory of which a call fails. Each command and each status is in the rows of tests/.
use crate::{Status, run};
use nv_outside::{MemFiles, MemSink, Saved};
use std::alloc::{AllocError, Global};
use std::process::Abort;
use std::test::Fail;

const SUM: &[u8] = b"fun main[a: word, b: word]: word { a + b }";

const NONE: &[u8] = b"memory 0 0\nargs\n";

// A store with these files, of which the loads and saves of these numbers fail.
fn store(
    rt: &impl Abort,
    alloc: Global,
    failing: &[u64],
    held: &[(&str, &[u8])],
) -> Result<MemFiles, AllocError> {
    let mut files = MemFiles::new(alloc, failing.to_vec(alloc)?);
    for (name, bytes) in held {
        assert_eq!(rt; files.give(name, bytes), Saved::Done);
    }
    Ok(files)
}

// The status with which `run` ends on these words.
fn called(
    alloc: Global,
    files: &mut MemFiles,
    out: &mut MemSink,
    words: &[&str],
) -> Result<Status, AllocError> {
    let mut list = Vec::new(alloc);
    for word in words {
        list.push(word.to_string(alloc)?)?;
    }
    Ok(run(alloc, &list, files, out))
}

// That `run` ends on these words with this status, and prints this text; the puts of these numbers fail.
fn expect(
    rt: &impl Abort,
    alloc: Global,
    files: &mut MemFiles,
    failing: &[u64],
    words: &[&str],
    status: Status,
    text: &[u8],
) -> Result<(), AllocError> {
    let mut out = MemSink::new(alloc, failing.to_vec(alloc)?);
    assert_eq!(rt; called(alloc, files, &mut out, words)?, status);
    assert_eq!(rt; out.bytes(), text);
    Ok(())
}

#[test]
fn a_failing_save_is_a_write_fault(rt: HostRuntime) -> Result<(), Fail> {
    let mut files = store(&rt, rt.alloc(), &[1], &[("s", SUM)])?;
    let words = ["compile", "s", "o", "r"].as_slice();
    expect(
        &rt,
        rt.alloc(),
        &mut files,
        &[],
        words,
        Status::WriteFault,
        b"cannot write o\n",
    )?;
    assert_eq!(rt; files.held("o"), None);
    assert_eq!(rt; files.held("r"), None);
    Ok(())
}

#[test]
fn a_failing_save_of_the_report_leaves_the_object(rt: HostRuntime) -> Result<(), Fail> {
    let mut files = store(&rt, rt.alloc(), &[2], &[("s", SUM)])?;
    let words = ["compile", "s", "o", "r"].as_slice();
    expect(
        &rt,
        rt.alloc(),
        &mut files,
        &[],
        words,
        Status::WriteFault,
        b"cannot write r\n",
    )?;
    assert!(rt; files.held("o").is_some());
    assert_eq!(rt; files.held("r"), None);
    Ok(())
}

#[test]
fn files_that_are_not_told_are_whole(rt: HostRuntime) -> Result<(), Fail> {
    let mut files = store(&rt, rt.alloc(), &[], &[("s", SUM)])?;
    let words = ["compile", "s", "o", "r"].as_slice();
    expect(
        &rt,
        rt.alloc(),
        &mut files,
        &[0],
        words,
        Status::WriteFault,
        b"",
    )?;
    assert!(rt; files.held("o").is_some());
    assert!(rt; files.held("r").is_some());
    Ok(())
}

#[test]
fn a_failing_load_changes_no_file(rt: HostRuntime) -> Result<(), Fail> {
    let mut files = store(&rt, rt.alloc(), &[0], &[("s", SUM), ("o", NONE)])?;
    let words = ["compile", "s", "o", "r"].as_slice();
    expect(
        &rt,
        rt.alloc(),
        &mut files,
        &[],
        words,
        Status::ReadFault,
        b"cannot read s\n",
    )?;
    assert_eq!(rt; files.held("s"), Some(SUM));
    assert_eq!(rt; files.held("o"), Some(NONE));
    assert_eq!(rt; files.held("r"), None);
    Ok(())
}
