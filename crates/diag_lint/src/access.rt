//! Accesses that no run can make.

use nv_ast::{Expr, Kind};
use nv_base::Mem;

// The greatest size of SRAM, in words, and of SDRAM, in quadwords.
const GREATEST_SIZE: u64 = 65_536;

/// Whether an access of so many words at a number is behind the end of the largest memory.
pub fn is_past_end(mem: Mem, words: u64, address: &Expr) -> bool {
    let Kind::Number(at) = &address.kind else {
        return false;
    };
    let addresses = match mem {
        Mem::Sram => words,
        Mem::Sdram => words / 2,
        Mem::Scratch => return false,
    };
    u64::from(*at).saturating_add(addresses) > GREATEST_SIZE
}
