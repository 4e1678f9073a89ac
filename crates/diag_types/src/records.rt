//! How a record, or a number of words, differs from what a layout has.

use crate::walk::Walk;
use diag_text::types::{BOOL, Part, WORD, kind_of};
use nv_ast::Name;

impl<'a> Walk<'a> {
    /// Tells how a record differs from that of a layout, and gives whether a difference is told.
    pub fn explain_record(&mut self, expected: usize, found: usize) -> bool {
        let layout = self.types.fields_of(self.alloc, &mut self.note, expected);
        let record = self.types.fields_of(self.alloc, &mut self.note, found);
        self.explain_fields(&layout, &record)
    }

    // The same of their fields.
    fn explain_fields(&mut self, layout: &[Part<'a>], record: &[Part<'a>]) -> bool {
        if record.is_empty() {
            return false;
        }
        let is_missing = self.note_absent("missing", layout, record);
        let is_unknown = self.note_absent("not in the layout", record, layout);
        is_missing
            || is_unknown
            || self.note_order(layout, record)
            || self.note_overlays(layout, record)
            || self.note_kinds(layout, record)
    }

    // Tells the first field of bits that is given no word, and gives whether there is one.
    fn note_kinds(&mut self, layout: &[Part<'a>], record: &[Part<'a>]) -> bool {
        for it in layout {
            if self.note_kind(it, record) {
                return true;
            }
        }
        false
    }

    // The same of one field.
    fn note_kind(&mut self, field: &Part<'a>, record: &[Part<'a>]) -> bool {
        let Some(name) = field.name else {
            return false;
        };
        let Some(found) = kind_of(record, name) else {
            return false;
        };
        if field.kind != WORD || found == WORD {
            return false;
        }
        self.culprit = Some(name);
        self.advice = Some(if found == BOOL {
            "A word of a bool is `if (b) 1 else 0`."
        } else {
            "A field of bits takes one word."
        });
        self.note.put("expected: word, as the field ");
        self.note.quoted(name.bytes());
        self.note.line("");
        self.note.put("found: ");
        self.types.push(self.alloc, &mut self.note, found);
        self.note.line("");
        true
    }

    // Tells which fields of some aren't among others, and gives whether there are any.
    fn note_absent(&mut self, word: &str, fields: &[Part<'a>], others: &[Part<'a>]) -> bool {
        let mut is_told = false;
        for it in fields {
            if let Some(name) = it.name {
                if kind_of(others, name).is_none() {
                    self.note.put(if is_told { ", " } else { word });
                    self.note.put(if is_told { "" } else { ": " });
                    self.note.quoted(name.bytes());
                    is_told = true;
                }
            }
        }
        if is_told {
            self.note.line("");
        }
        is_told
    }

    // Tells the first two fields that stand in another order, and gives whether there are any.
    fn note_order(&mut self, layout: &[Part<'a>], record: &[Part<'a>]) -> bool {
        for (n, it) in layout.iter().enumerate() {
            if self.note_other(it.name, name_at(record, n)) {
                return true;
            }
        }
        false
    }

    // Tells that a field stands before another one, where these are two.
    fn note_other(&mut self, name: Option<&'a Name>, other: Option<&'a Name>) -> bool {
        let Some(name) = name else {
            return false;
        };
        let Some(other) = other else {
            return false;
        };
        if name == other {
            return false;
        }
        self.note.quoted(name.bytes());
        self.note.put(" stands before ");
        self.note.quoted(other.bytes());
        self.note.line(" in the layout");
        true
    }

    // Tells of which overlay another number of alternatives than one is given.
    fn note_overlays(&mut self, layout: &[Part<'a>], record: &[Part<'a>]) -> bool {
        for it in layout {
            if self.note_if_overlay(it, record) {
                return true;
            }
        }
        false
    }

    // The same of one field.
    fn note_if_overlay(&mut self, field: &Part<'a>, record: &[Part<'a>]) -> bool {
        let Some(name) = field.name else {
            return false;
        };
        if !self.types.is_overlay(field.kind) {
            return false;
        }
        self.note_overlay(name, field.kind, kind_of(record, name))
    }

    fn note_overlay(&mut self, name: &'a Name, overlay: usize, found: Option<usize>) -> bool {
        let Some(found) = found else {
            return false;
        };
        let given = self.types.fields_of(self.alloc, &mut self.note, found);
        let alternatives = self.types.fields_of(self.alloc, &mut self.note, overlay);
        self.note_given(name, &given, &alternatives)
    }

    // Tells which alternatives are given, or which there are, where one alone isn't given.
    fn note_given(
        &mut self,
        name: &'a Name,
        given: &[Part<'a>],
        alternatives: &[Part<'a>],
    ) -> bool {
        if given.len() == 1 {
            return false;
        }
        self.note.quoted(name.bytes());
        if given.is_empty() {
            self.note.put(" is an overlay of");
            self.note_names(alternatives);
        } else {
            self.note.put(" has");
            self.note_names(given);
        }
        self.note.line(": give one, as in `{ a = 1 }`");
        true
    }

    fn note_names(&mut self, fields: &[Part<'a>]) {
        for (n, it) in fields.iter().enumerate() {
            if let Some(name) = it.name {
                self.note.put(if n == 0 { " " } else { " and " });
                self.note.quoted(name.bytes());
            }
        }
    }

    /// Tells that a value has more words than a packed one, and gives whether it has.
    pub fn explain_packed(&mut self, expected: usize, found: usize) -> bool {
        let least = self.types.words_of(expected);
        let most = self.types.words_of(found);
        if least >= most || most > 8 || self.types.tuple_length(found) != Some(most as usize) {
            return false;
        }
        self.note.put("expected: ");
        self.note.counted(least, "word");
        self.note.put(", as a packed value, found: ");
        self.note.counted(most, "word");
        self.note.line("");
        self.note_bound(least, most);
        true
    }

    // How the last words are left out.
    fn note_bound(&mut self, least: u64, most: u64) {
        self.note.put("Leave the last out: `let (");
        for n in 0..most {
            self.note.put(if n == 0 { "" } else { ", " });
            if n < least {
                self.note.put("w");
                self.note.number(n);
            } else {
                self.note.put("_");
            }
        }
        self.note.line(") = ..;`.")
    }
}

// The name of a field of a number.
fn name_at<'a>(fields: &[Part<'a>], n: usize) -> Option<&'a Name> {
    match fields.get(n) {
        Some(it) => it.name,
        None => None,
    }
}
