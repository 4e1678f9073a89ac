// What is handed on where there is no memory.

/// What was made, or the memory exhaustion handed on, once the live values go by a call: a value
/// that goes by itself has all its variants in the proof of the function.
macro_rules! made {
    ($found:expr $(, $held:expr)*) => {
        match $found {
            Ok(found) => found,
            Err(want) => {
                $(drop($held);)*
                return Err(want);
            }
        }
    };
}

/// Puts an item at the end of a vector, or hands the memory exhaustion on, once the item and the values
/// that are held go by a call.
macro_rules! put {
    ($items:expr, $item:expr $(, $held:expr)*) => {
        match $items.push($item) {
            Ok(()) => {}
            Err(failed) => {
                drop(failed.value);
                $(drop($held);)*
                return Err(NoMemory);
            }
        }
    };
}

pub(crate) use made;
pub(crate) use put;
