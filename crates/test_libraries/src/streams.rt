// A reader that is interrupted is asked again, and a fault in mid-stream shows.
ghost use Rattle.std.specs.Prelude.{◌≤◌, IfOk};

use nv_outside::Loaded;
use nv_outside::stream::read_whole;
use std::io;
use std::io::{ErrorKind, Read};
use std::test::Fail;

// A file that gives a byte at a time, three in all. Its call number 1 fails so.
#[derive(Drop)]
struct Faulty {
    calls: u32,
    moved: usize,
    fault: ErrorKind,
}

// A file of which nothing was asked yet.
fn file_with(fault: ErrorKind) -> Faulty {
    Faulty {
        calls: 0,
        moved: 0,
        fault,
    }
}

impl Faulty {
    // How many bytes the next call moves, of those that it may.
    fn step(&mut self, most: usize) -> io::Result<usize>
        ensures { IfOk result (λ n. n ≤ most) }
    {
        self.calls = self.calls.saturating_add(1);
        if self.calls == 2 {
            return Err(io::Error::from(self.fault));
        }
        let n = most.min(1).min(3usize.saturating_sub(self.moved));
        self.moved = self.moved.saturating_add(n);
        Ok(n)
    }
}

impl Read for Faulty {
    fn read(&mut self, buf: &mut [u8]) -> io::Result<usize> {
        let n = self.step(buf.len())?;
        buf[..n].fill(9);
        Ok(n)
    }
}

#[test]
fn a_read_that_is_interrupted_is_tried_again(rt: HostRuntime) -> Result<(), Fail> {
    let mut into = vec![in rt.alloc(); 7]?;
    let mut file = file_with(ErrorKind::Interrupted);
    assert_eq!(rt; read_whole(&mut file, 3, &mut into), Loaded::Done);
    assert_eq!(rt; into.as_slice(), [7, 9, 9, 9].as_slice());
    Ok(())
}

#[test]
fn a_read_that_fails_in_mid_stream_leaves_nothing(rt: HostRuntime) -> Result<(), Fail> {
    let mut into = vec![in rt.alloc(); 7]?;
    let mut file = file_with(ErrorKind::BrokenPipe);
    assert_eq!(rt; read_whole(&mut file, 3, &mut into), Loaded::Failed);
    assert_eq!(rt; into.as_slice(), [7].as_slice());
    Ok(())
}
