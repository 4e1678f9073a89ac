//! How often a run entered each label, and how many steps it took there.
ghost use Rattle.std.specs.Prelude.{◌<◌, ◌^◌, All, IfOk};

use crate::answer::Answer;
use crate::labels::{Label, labels_of};
use crate::saving::{Saving, add_saving};
use crate::visits::Visits;
use nv_base::NoMemory;
use nv_lines::Message;
use place_weights::print_counts;
use std::alloc::Global;
use std::cmp::Reverse;
use uc_object::{Object, Tagged};

// The steps of a run at the places of a label, and how often the label was entered.
#[derive(Clone, Copy)]
struct Share {
    label: u32,
    entries: u64,
    steps: u64,
}

/// Appends a line for each label that was entered, that with the most steps first.
pub fn push_profile(alloc: Global, out: &mut Message, object: &Object, visits: &Visits) {
    let labels = labels_of(alloc, out, object);
    let mut shares = shares_of(alloc, out, &labels, visits);
    if shares.sort_by_key(|it| Reverse(it.steps)).is_err() {
        out.fail();
    }
    out.line("     steps   entries  label");
    for share in shares.iter() {
        push_share(out, *share);
    }
}

fn shares_of(alloc: Global, out: &mut Message, labels: &[Label], visits: &Visits) -> Vec<Share> {
    let mut shares = Vec::new(alloc);
    for (n, label) in labels.iter().enumerate() {
        let from = label.start as usize;
        let to = match labels.get(n.saturating_add(1)) {
            Some(next) => next.start as usize,
            None => visits.places.len(),
        };
        let share = Share {
            label: label.number,
            entries: u64::from(visits_at(visits, label.start)),
            steps: steps_between(visits, from, to),
        };
        if share.entries > 0 {
            out.keep(&mut shares, share);
        }
    }
    shares
}

fn visits_at(visits: &Visits, place: u32) -> u32 {
    match visits.places.get(place as usize) {
        Some(n) => *n,
        None => 0,
    }
}

// The steps at the places from one up to another.
fn steps_between(visits: &Visits, from: usize, to: usize) -> u64 {
    let mut steps = 0u64;
    for place in from..to {
        if let Some(n) = visits.places.get(place) {
            steps = steps.saturating_add(u64::from(*n));
        }
    }
    steps
}

fn push_share(out: &mut Message, share: Share) {
    push_right(out, share.steps, 10);
    push_right(out, share.entries, 10);
    out.put("  L");
    out.number(u64::from(share.label));
    out.line("")
}

/// Appends a number, right in a column that is so wide.
pub fn push_right(out: &mut Message, number: u64, wide: u32) {
    let mut least = 10u64;
    let mut digits = 1u32;
    for _ in 0..20 {
        if number >= least {
            digits = digits.saturating_add(1);
        }
        least = least.saturating_mul(10);
    }
    for _ in digits..wide {
        out.put(" ");
    }
    out.number(number)
}

/// Saves the text of how often each label was entered.
pub fn save_counts(
    alloc: Global,
    name: &str,
    object: &Object,
    visits: &Visits,
    savings: &mut Vec<Saving>,
    answer: &mut Answer,
) {
    match object {
        Object::One(_) => answer.fault(
            name,
            "the object doesn't tell where labels start, so there are no counts",
        ),
        Object::Two(tagged) => match counts_text(alloc, tagged, visits) {
            Ok(text) => add_saving(alloc, savings, name, text, answer),
            Err(NoMemory) => answer.fail(),
        },
    }
}

// The text of how often each label was entered.
fn counts_text(alloc: Global, tagged: &Tagged, visits: &Visits) -> Result<Vec<u8>, NoMemory> {
    let counts = counts_of(alloc, tagged.starts(), visits)?;
    print_counts(alloc, &counts)
}

// How often each label was entered, in the order of their numbers.
fn counts_of(alloc: Global, starts: &[u32], visits: &Visits) -> Result<Vec<u64>, NoMemory>
    ensures { IfOk result (λ counts. All (λ c. c < 2 ^ 32) counts.items) }
{
    let mut counts = Vec::new(alloc);
    for start in starts {
        counts.push(u64::from(visits_at(visits, *start)))?;
    }
    Ok(counts)
}
