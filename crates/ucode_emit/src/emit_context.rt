//! What the code of one point stands on.

use crate::moves::Move;
use place_plan::{Pass, Serve};

/// What the code of one point stands on, besides its node and the homes of values.
#[derive(Clone, Copy)]
pub struct EmitContext<'a> {
    pub point: u32,
    /// How each operand is served, in order.
    pub serves: &'a [Serve],
    /// The first register of its access; 0 where it has none.
    pub first: u8,
    /// Through which registers slots are read and written.
    pub pass: Pass,
    /// The moves that, one after the other, do its parallel move; none where it has none.
    pub singles: &'a [Move],
    /// The point to which it branches: from a fork its second arm, from a jump the entry of the label; of
    /// other nodes it is never asked.
    pub to: u32,
}
