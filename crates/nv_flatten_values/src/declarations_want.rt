// What is handed on where there is no memory.

/// What was made, or the memory exhaustion handed on, once the live values go by a call: a value
/// that goes by itself has all its variants in the proof of the function.
macro_rules! made {
    ($found:expr $(, $held:expr)*) => {
        match $found {
            Ok(found) => found,
            Err(want) => {
                $(drop($held);)*
                return Err(want);
            }
        }
    };
}

pub(crate) use made;
