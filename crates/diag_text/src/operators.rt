//! What operators take and give.

use crate::types::{BOOL, WORD};
use nv_ast::Op;

/// The type of an operator's operands.
pub fn operand_of(op: Op) -> usize {
    match op {
        Op::Both | Op::Either => BOOL,
        _ => WORD,
    }
}

/// The type of what an operator gives.
pub fn result_of(op: Op) -> usize {
    match op {
        Op::Add | Op::Sub | Op::And | Op::Or | Op::Xor => WORD,
        _ => BOOL,
    }
}
