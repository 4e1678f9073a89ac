//! Why an object is not run or listed.

use crate::answer::{Answer, Ending};
use diag_text::finding::Code;
use novac_words::Refusal;

/// Says why an object is refused.
pub fn push_refusal(program: &str, refusal: Refusal, answer: &mut Answer) {
    match refusal {
        Refusal::BadObject(at) => push_bad_object(program, at, answer),
        Refusal::Unlawful(place, rule) => push_unlawful(program, place, rule, answer),
        Refusal::NoMemory => answer.fail(),
        _ => answer.ending = Ending::Failed,
    }
}

fn push_bad_object(name: &str, at: u32, answer: &mut Answer) {
    let mut it = answer.finding();
    it.title
        .put("no object begins with these bytes: from byte ");
    it.title.number(u64::from(at));
    it.title.put(" on they are others, or they end there");
    it.code = Code::Named("status 12");
    answer.push(name, it)
}

fn push_unlawful(name: &str, place: u32, rule: u8, answer: &mut Answer) {
    let mut it = answer.finding();
    it.title.put("the instruction at place ");
    it.title.number(u64::from(place));
    it.title.put(" breaks rule ");
    it.title.number(u64::from(rule));
    it.title.put(" of lawful code");
    it.code = Code::Named("status 18");
    answer.push(name, it)
}
