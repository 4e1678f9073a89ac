// The values of the language.

ghost use Rattle.std.specs.Prelude.{◌≡◌, take, IfOk};
ghost use Rattle.nv_meaning_values.specs.Values.{word_of, truth_of, words_value, word_values};
ghost use Rattle.nv_meaning_values.specs.inner.View.{view, list_values};

use nv_ast::Name;
use nv_base::{NoMemory, Words};
use std::alloc::Global;

/// A field of a record: its name and its value.
pub type Field<'a> = (&'a Name, Value<'a>);

/// A value: a word, a truth, a tuple, or a record of named values.
#[derive(Drop)]
pub enum Value<'a> {
    Word(u32),
    Truth(bool),
    Tuple(Vec<Value<'a>>),
    Record(Vec<(&'a Name, Value<'a>)>),
}

/// The word that a value is, 0 where it is none.
pub fn word_in(v: Value) -> u32
    ensures { result ≡ word_of (view v.entry) }
{
    match v {
        Value::Word(w) => w,
        _ => 0,
    }
}

/// Whether a value is the truth `true`.
pub fn is_true(v: &Value) -> bool
    ensures { result ≡ truth_of (view v.now) }
{
    match v {
        Value::Truth(b) => *b,
        _ => false,
    }
}

/// Whether a value is the truth `true`; it is used up.
pub fn truth_in(v: Value) -> bool
    ensures { result ≡ truth_of (view v.entry) }
{
    is_true(&v)
}

/// Some words as a value: one is itself, others are their tuple.
#[tactic(auto, using(crate::proofs::Rows::tuple_view, crate::proofs::Rows::record_view))]
pub fn value_of_words<'a>(alloc: Global, words: &[u32]) -> Result<Value<'a>, NoMemory>
    ensures { IfOk result (λ v. view v ≡ words_value words.now) }
{
    if words.len() == 1 {
        Ok(Value::Word(words[0]))
    } else {
        Ok(Value::Tuple(tuple_of_words(alloc, words)?))
    }
}

fn tuple_of_words<'a>(alloc: Global, words: &[u32]) -> Result<Vec<Value<'a>>, NoMemory>
    ensures { IfOk result (λ vs. list_values vs.items ≡ word_values words.now) }
{
    let mut vs = Vec::with_capacity(alloc, words.len())?;
    for w in words {
        vs.push(Value::Word(*w))?;
    }
    Ok(vs)
}

/// The first eight of some words; a typed program's outcome has no more.
pub fn first_words(words: &[u32]) -> Words
    ensures { result ≡ take 8 words.now }
{
    if words.len() <= 8 {
        Words::of(words)
    } else {
        Words::of(&words[..8])
    }
}
