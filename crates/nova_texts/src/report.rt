//! What came of each test.

use crate::xml::push_escaped;
use nova_words::TestReport;
use nv_lines::{Lines, Message};
use std::alloc::{AllocError, Global};

/// The results so far, in the form in which they are printed.
#[derive(Drop)]
pub struct Report {
    form: TestReport,
    passed: u64,
    failed: u64,
    // What is printed of the tests.
    body: Message,
}

impl Report {
    /// Of no test.
    pub fn new(alloc: Global, form: TestReport) -> Report {
        Report {
            form,
            passed: 0,
            failed: 0,
            body: Message::new(alloc),
        }
    }

    /// How many tests failed.
    pub fn failed(&self) -> u64 {
        self.failed
    }

    /// Whether there was no test.
    pub fn is_empty(&self) -> bool {
        self.passed == 0 && self.failed == 0
    }

    /// A test came to what it should; a remark may follow in a line.
    pub fn pass(&mut self, path: &str, remark: &str) {
        self.passed = self.passed.saturating_add(1);
        match self.form {
            TestReport::Lines => {
                self.body.put(path);
                self.body.put(": ok");
                self.body.line(remark)
            }
            TestReport::Tap => {
                self.body.put("ok ");
                self.push_title(path)
            }
            TestReport::Junit => {
                self.body.put("<testcase classname=\"nova\" name=\"");
                push_escaped(&mut self.body, path.as_bytes());
                self.body.line("\"/>")
            }
        }
    }

    /// A test came to something else: the first line of a text says what is wrong, the others show it.
    pub fn fail(&mut self, path: &str, reason: Message) {
        match reason.into_bytes() {
            Ok(text) => self.fail_for(path, &text),
            Err(AllocError) => self.body.fail(),
        }
    }

    /// The same of a test that couldn't be made, of which the reason is told elsewhere.
    pub fn refuse(&mut self, path: &str) {
        self.failed = self.failed.saturating_add(1);
        match self.form {
            TestReport::Lines => {}
            TestReport::Tap => {
                self.body.put("not ok ");
                self.push_title(path);
                self.body.line("# refused")
            }
            TestReport::Junit => self.push_failure(path, b"refused\n"),
        }
    }

    fn fail_for(&mut self, path: &str, text: &[u8]) {
        self.failed = self.failed.saturating_add(1);
        match self.form {
            TestReport::Lines => {
                self.body.put(path);
                self.body.put(": FAILED: ");
                self.body.bytes(text)
            }
            TestReport::Tap => {
                self.body.put("not ok ");
                self.push_title(path);
                push_comments(&mut self.body, text)
            }
            TestReport::Junit => self.push_failure(path, text),
        }
    }

    // The number of a test and its name, where the dash keeps a name that begins with a digit apart.
    fn push_title(&mut self, path: &str) {
        self.body.number(self.passed.saturating_add(self.failed));
        self.body.put(" - ");
        for byte in path.as_bytes() {
            // A `#` would begin a directive.
            self.body.byte(if *byte == b'#' { b'?' } else { *byte });
        }
        self.body.line("")
    }

    fn push_failure(&mut self, path: &str, text: &[u8]) {
        self.body.put("<testcase classname=\"nova\" name=\"");
        push_escaped(&mut self.body, path.as_bytes());
        self.body.put("\"><failure message=\"");
        push_escaped(&mut self.body, first_line(text));
        self.body.put("\">");
        push_escaped(&mut self.body, text);
        self.body.line("</failure></testcase>")
    }

    /// Appends all of it.
    pub fn push(&self, out: &mut Message) {
        let count = self.passed.saturating_add(self.failed);
        match self.form {
            TestReport::Lines => {
                out.message_text(&self.body);
                out.number(self.passed);
                out.put(" passed, ");
                out.number(self.failed);
                out.line(" failed")
            }
            TestReport::Tap => {
                out.line("TAP version 13");
                out.message_text(&self.body);
                out.put("1..");
                out.number(count);
                out.line("")
            }
            TestReport::Junit => {
                out.line("<?xml version=\"1.0\" encoding=\"UTF-8\"?>");
                self.push_suite(out, "<testsuites tests=\"", count);
                self.push_suite(out, "<testsuite name=\"nova\" tests=\"", count);
                out.message_text(&self.body);
                out.line("</testsuite>");
                out.line("</testsuites>")
            }
        }
    }

    // A tag with how many tests there are and how many failed.
    fn push_suite(&self, out: &mut Message, tag: &str, count: u64) {
        out.put(tag);
        out.number(count);
        out.put("\" failures=\"");
        out.number(self.failed);
        out.line("\">")
    }
}

fn first_line(text: &[u8]) -> &[u8] {
    let mut lines = Lines::of(text);
    match lines.next_line() {
        Some(line) => line,
        None => text,
    }
}

// Each line behind a `#`.
fn push_comments(out: &mut Message, text: &[u8]) {
    let mut is_first = true;
    for byte in text {
        if is_first {
            out.put("# ");
        }
        out.byte(*byte);
        is_first = *byte == b'\n';
    }
}
