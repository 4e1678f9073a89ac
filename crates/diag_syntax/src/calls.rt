//! Calls in the way of other languages, `f(x)`, of functions that Nova has in another form or not at all.

use crate::place::Place;
use crate::slip::Slip;

const BRACKETS: &str = "Parameters and arguments stand in `[ ]`, as in `f[1, 2]`.";

const MEMORIES: &str =
    "The memories are `sram`, `sdram` and `scratch`: a fetch is `sram[COUNT](ADDRESS)`, a store `sram(ADDRESS) <- VALUE;`.";

const ORDER: &str = "a word has the order of the network already";

const NO_SWAP: &str = "Leave the call out: the first byte of a packet is the highest of its word.";

const NO_DROP: &str = "nothing drops a packet";

const DROP: &str =
    "An exception ends a run: `exception Drop[];` above, and `raise Drop[]` in an arm.";

const NO_CHECK: &str = "nothing checks a condition but an `if`";

const CHECK: &str = "Raise an exception: `if (c) x else raise E[]`.";

const NO_OPTION: &str = "there are no options and results";

const OPTION: &str =
    "Raise an exception where there is no value, or give a tuple with a bool: `(true, x)`.";

const NO_EXTERN: &str = "there are no functions but those of the text";

const EXTERN: &str =
    "Write the function: `fun hash[x: word]: word { x ^ (x >> 16) }`, and call it as `hash[x]`.";

const ROTATION: &str = "a rotation is an operator";

const ROTATED: &str =
    "`x <<< 3` rotates by 3 places to the left, and `x <<< 29` by as many to the right.";

const NO_OUTPUT: &str = "nothing is printed";

const OUTCOME: &str =
    "A run tells the value of `main` and what it wrote. `nova trace` tells which line made each write.";

const NO_SIZE: &str = "a size isn't asked for at run time";

const SIZE: &str = "`nova check --verbose` prints the bits and words of each layout.";

// Each name with a sentence on it and what helps.
const CALLS: [(&str, &str, &str); 50] = [
    ("htons", ORDER, NO_SWAP),
    ("htonl", ORDER, NO_SWAP),
    ("ntohs", ORDER, NO_SWAP),
    ("ntohl", ORDER, NO_SWAP),
    ("bswap", ORDER, NO_SWAP),
    ("bswap16", ORDER, NO_SWAP),
    ("bswap32", ORDER, NO_SWAP),
    ("bpf_htons", ORDER, NO_SWAP),
    ("bpf_ntohs", ORDER, NO_SWAP),
    ("bpf_htonl", ORDER, NO_SWAP),
    ("bpf_ntohl", ORDER, NO_SWAP),
    ("drop", NO_DROP, DROP),
    ("mark_to_drop", NO_DROP, DROP),
    ("drop_packet", NO_DROP, DROP),
    ("verify", NO_CHECK, CHECK),
    ("assert_eq", NO_CHECK, CHECK),
    ("Some", NO_OPTION, OPTION),
    ("Ok", NO_OPTION, OPTION),
    ("Err", NO_OPTION, OPTION),
    ("Just", NO_OPTION, OPTION),
    ("hash", NO_EXTERN, EXTERN),
    ("crc16", NO_EXTERN, EXTERN),
    ("crc32", NO_EXTERN, EXTERN),
    ("checksum", NO_EXTERN, EXTERN),
    ("csum16", NO_EXTERN, EXTERN),
    ("update_checksum", NO_EXTERN, EXTERN),
    ("verify_checksum", NO_EXTERN, EXTERN),
    ("random", NO_EXTERN, EXTERN),
    ("memcpy", NO_EXTERN, EXTERN),
    ("memset", NO_EXTERN, EXTERN),
    ("min", NO_EXTERN, EXTERN),
    ("max", NO_EXTERN, EXTERN),
    ("abs", NO_EXTERN, EXTERN),
    ("rol", ROTATION, ROTATED),
    ("rol32", ROTATION, ROTATED),
    ("rotl", ROTATION, ROTATED),
    ("ror", ROTATION, ROTATED),
    ("rotr", ROTATION, ROTATED),
    ("rotate_left", ROTATION, ROTATED),
    ("print", NO_OUTPUT, OUTCOME),
    ("printf", NO_OUTPUT, OUTCOME),
    ("println", NO_OUTPUT, OUTCOME),
    ("printk", NO_OUTPUT, OUTCOME),
    ("log", NO_OUTPUT, OUTCOME),
    ("log_msg", NO_OUTPUT, OUTCOME),
    ("puts", NO_OUTPUT, OUTCOME),
    ("bpf_printk", NO_OUTPUT, OUTCOME),
    ("echo", NO_OUTPUT, OUTCOME),
    ("sizeof", NO_SIZE, SIZE),
    ("offsetof", NO_SIZE, SIZE),
];

// Other names of memories.
const MEMORY_NAMES: [&str; 12] = [
    "mem", "memory", "lmem", "dram", "ram", "cls", "ctm", "imem", "emem", "local", "store", "load",
];

/// The slip of a `(` after a name.
pub fn call_slip(place: &Place) -> Option<Slip> {
    if place.declares(1) {
        return Slip::help(BRACKETS);
    }
    if place.is_before_arrow() || place.is_among(1, &MEMORY_NAMES) {
        return Slip::help(MEMORIES);
    }
    match called_slip(place, 1) {
        Some(slip) => Some(slip),
        None => Slip::help(BRACKETS),
    }
}

/// The slip of a name that is so many tokens before a place, where it is one of those.
pub fn called_slip(place: &Place, back: usize) -> Option<Slip> {
    let name = place.text(back);
    for it in &CALLS {
        if name == it.0.as_bytes() {
            return Slip::before(back, it.1, it.2);
        }
    }
    None
}
