//! A source that was read and checked once.

use diag_text::finding::Source;
use nv_ast::{Program, Typed};
use nv_text::{MOST_BYTES, TextError, Token, parse, tokens};
use nv_types::{Fault, TypeError, check, faults_of, judge};
use std::alloc::Global;

/// What reading and checking a source tells.
#[derive(Drop)]
pub enum Verdict {
    /// Memory ran out before it was told.
    NoMemory,
    /// It has too many bytes to be read.
    TooLong,
    /// It has no program.
    Unread(TextError),
    /// Its program has faults in its types: at least one, the first of each function.
    Faulty(Program, Vec<Fault>),
    /// Its program is too large; and the expanded size.
    TooLarge(Program, u32),
    /// Its program is typed.
    Fine(Typed),
}

/// A source, its tokens where it has a program, and what was told of it. All that is said of a source is said from this.
#[derive(Drop)]
pub struct Checked<'n, 's> {
    pub source: Source<'n, 's>,
    pub tokens: Vec<Token>,
    pub verdict: Verdict,
}

impl<'n, 's> Checked<'n, 's> {
    /// Reads and checks a source.
    pub fn new(alloc: Global, name: &'n str, bytes: &'s [u8]) -> Checked<'n, 's> {
        let mut it = Checked {
            source: Source { name, bytes },
            tokens: Vec::new(alloc),
            verdict: Verdict::TooLong,
        };
        if bytes.len() <= MOST_BYTES {
            it.verdict = match parse(alloc, bytes) {
                Ok(program) => it.checked(alloc, bytes, program),
                Err(fault) => Verdict::Unread(fault),
            };
        }
        it
    }

    // What is told of a source that has a program. Its tokens are kept.
    fn checked(&mut self, alloc: Global, bytes: &[u8], program: Program) -> Verdict {
        if bytes.len() > MOST_BYTES {
            return Verdict::TooLong;
        }
        match tokens(alloc, bytes) {
            Ok(found) => {
                self.tokens = found;
                verdict_of(alloc, program)
            }
            Err(_) => Verdict::NoMemory,
        }
    }

    /// Its typed program, where it isn't refused.
    pub fn typed(&self) -> Option<&Typed> {
        match &self.verdict {
            Verdict::Fine(typed) => Some(typed),
            _ => None,
        }
    }
}

// What checking a program tells.
fn verdict_of(alloc: Global, program: Program) -> Verdict {
    match judge(alloc, &program) {
        Ok(()) => fine(alloc, program),
        Err(TypeError::NoMemory) => Verdict::NoMemory,
        Err(TypeError::TooLarge(size)) => Verdict::TooLarge(program, size),
        Err(TypeError::Fault(_, _)) => match faults_of(alloc, &program) {
            Ok(found) => Verdict::Faulty(program, found),
            Err(_) => Verdict::NoMemory,
        },
    }
}

// A program that has nothing to be refused for.
fn fine(alloc: Global, program: Program) -> Verdict {
    match check(alloc, program) {
        Ok(typed) => Verdict::Fine(typed),
        Err(_) => Verdict::NoMemory,
    }
}
