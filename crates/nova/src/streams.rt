//! Files of the system that are read and written piece by piece.

use nova_replay::Streams;
use std::fs::OpenOptions;
use std::{fs, io, rt};

/// The files of the system, over the runtime that `main` is given.
#[derive(Drop)]
pub struct DiskStreams<'a, R: rt::Files> {
    rt: &'a R,
}

impl<'a, R: rt::Files> DiskStreams<'a, R> {
    /// The files of this runtime.
    pub fn new(rt: &'a R) -> DiskStreams<'a, R> {
        DiskStreams { rt }
    }
}

impl<'a, R: rt::Files> Streams for DiskStreams<'a, R> {
    type Input = R::File;

    type Output = R::File;

    fn open(&mut self, name: &str) -> io::Result<R::File> {
        fs::open(self.rt, if name == "-" { "/dev/stdin" } else { name })
    }

    fn create(&mut self, name: &str) -> io::Result<R::File> {
        if name == "-" {
            // What the standard output has already stays.
            OpenOptions::new().append(true).open(self.rt, "/dev/stdout")
        } else {
            fs::create(self.rt, name)
        }
    }
}
