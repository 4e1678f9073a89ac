//! The name of the file that a command saves.

use crate::answer::Answer;
use std::alloc::Global;

/// The name that the words give it, or else that of the input with another ending.
pub fn output_name(
    alloc: Global,
    input: &str,
    given: Option<&str>,
    from: &str,
    to: &str,
    answer: &mut Answer,
) -> Option<String> {
    let made = match given {
        Some(name) => name.to_string(alloc),
        None => match input.strip_suffix(from) {
            Some(stem) => format!(in alloc; "{stem}{to}"),
            None => format!(in alloc; "{input}{to}"),
        },
    };
    match made {
        Ok(name) => Some(name),
        Err(_) => {
            answer.fail();
            None
        }
    }
}
