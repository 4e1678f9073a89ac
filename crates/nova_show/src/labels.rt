//! The labels of an object by where they start.

use nv_lines::Message;
use std::alloc::Global;
use uc_object::{Object, Tagged};

/// The place where a label starts, and its number.
#[derive(Clone, Copy, PartialEq, Eq, PartialOrd, Ord)]
pub struct Label {
    pub start: u32,
    pub number: u32,
}

/// The labels of an object in the order of the places where they start, those of one place in that of their numbers.
pub fn labels_of(alloc: Global, out: &mut Message, object: &Object) -> Vec<Label> {
    let mut labels = Vec::new(alloc);
    if let Object::Two(tagged) = object {
        add_labels(out, tagged, &mut labels);
    }
    if labels.sort().is_err() {
        out.fail();
    }
    labels
}

fn add_labels(out: &mut Message, tagged: &Tagged, labels: &mut Vec<Label>) {
    let mut number = 0u32;
    for start in tagged.starts() {
        let start = *start;
        out.keep(labels, Label { start, number });
        number = number.saturating_add(1);
    }
}
