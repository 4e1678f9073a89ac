//! A placement with the tables of its form.

use bank_prog::Use;
use place_plan::Placement;
use std::collections::HashMap;

/// A placement, and the tables of its form: of an operand its use, and of a variable the point of its value.
#[derive(Drop)]
pub struct PlanTables<'a> {
    pub placement: &'a Placement,
    pub uses: HashMap<(u32, u32), Use>,
    pub points: HashMap<u32, u32>,
}
