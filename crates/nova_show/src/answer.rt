//! What a command answers.
ghost use Rattle.std.specs.Prelude.{◌≡◌};
ghost use Rattle.nova_show.specs.Endings.{ending_number};

use diag_text::finding::{Finding, Form, Severity, Source};
use nv_lines::Message;
use std::alloc::Global;

/// How a call of the program ended.
#[derive(Clone, Copy, Debug, PartialEq, Eq)]
pub enum Ending {
    /// It did what the words say.
    Done,
    /// It was refused, or failed.
    Failed,
    /// The words are no command.
    BadWords,
}

impl Ending {
    /// The number that the program ends with.
    pub fn code(self) -> u8
        ensures { result ≡ ending_number self }
    {
        match self {
            Ending::Done => 0,
            Ending::Failed => 1,
            Ending::BadWords => 2,
        }
    }
}

/// What a command prints on the standard output, and what on the standard error.
#[derive(Drop)]
pub struct Answer {
    pub ending: Ending,
    pub out: Message,
    pub err: Message,
    /// How faults are printed.
    pub form: Form,
    alloc: Global,
}

impl Answer {
    /// Nothing yet.
    pub fn new(alloc: Global) -> Answer
        ensures { result.ending ≡ Ending.Done }
    {
        Answer::in_form(alloc, Form::Text)
    }

    /// Nothing yet, of which faults are printed in this form.
    pub fn in_form(alloc: Global, form: Form) -> Answer
        ensures { result.ending ≡ Ending.Done }
    {
        Answer {
            ending: Ending::Done,
            out: Message::new(alloc),
            err: Message::new(alloc),
            form,
            alloc,
        }
    }

    /// A fault of which nothing is said yet.
    pub fn finding(&self) -> Finding {
        Finding::new(self.alloc, Severity::Error)
    }

    /// Appends what is no fault of a file, in one sentence.
    pub fn note(&mut self, name: &str, text: &str)
        ensures { self.new.ending ≡ self.old.ending }
    {
        let mut it = Finding::new(self.alloc, Severity::Note);
        it.title.put(text);
        it.push(
            self.alloc,
            &mut self.err,
            self.form,
            Source { name, bytes: b"" },
        );
        drop(it)
    }

    /// Appends a fault of a file.
    pub fn push(&mut self, name: &str, finding: Finding)
        ensures { self.new.ending ≡ Ending.Failed }
    {
        self.push_in(Source { name, bytes: b"" }, finding)
    }

    /// Appends a fault that has a place in the bytes of a file.
    pub fn push_in(&mut self, source: Source, finding: Finding)
        ensures { self.new.ending ≡ Ending.Failed }
    {
        self.ending = Ending::Failed;
        finding.push(self.alloc, &mut self.err, self.form, source);
        drop(finding)
    }

    /// Appends what is no fault and has a place in the bytes of a file.
    pub fn tell_in(&mut self, source: Source, finding: Finding)
        ensures { self.new.ending ≡ self.old.ending }
    {
        finding.push(self.alloc, &mut self.err, self.form, source);
        drop(finding)
    }

    /// Appends a fault of a file, of one sentence.
    pub fn fault(&mut self, name: &str, text: &str)
        ensures { self.new.ending ≡ Ending.Failed }
    {
        let mut it = self.finding();
        it.title.put(text);
        self.push(name, it)
    }

    /// Appends a fault of a line of a file.
    pub fn line_fault(&mut self, name: &str, line: u32, text: &str)
        ensures { self.new.ending ≡ Ending.Failed }
    {
        if !self.form.is_text() {
            return self.line_object(name, line, text);
        }
        self.ending = Ending::Failed;
        self.err.put(name);
        self.err.put(":");
        self.err.number(u64::from(line));
        self.err.put(":1: error: ");
        self.err.line(text)
    }

    fn line_object(&mut self, name: &str, line: u32, text: &str)
        ensures { self.new.ending ≡ Ending.Failed }
    {
        let mut it = self.finding();
        it.title.put("line ");
        it.title.number(u64::from(line));
        it.title.put(": ");
        it.title.put(text);
        self.push(name, it)
    }

    /// How the call ended, and what it prints.
    pub fn into_parts(self) -> (Ending, Message, Message)
        ensures { result.0 ≡ self.ending }
    {
        (self.ending, self.out, self.err)
    }

    /// Memory ran out, which is told where the texts are printed.
    pub fn fail(&mut self)
        ensures { self.new.ending ≡ self.old.ending }
    {
        self.err.fail()
    }
}
