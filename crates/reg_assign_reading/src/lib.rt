//! What a vector of the program of the banks and a placement say of each other: the placement that is read off a
//! vector, and the vector that stands for a placement. A vector by the names of its columns, numbers for homes, and the
//! tables of a placement.
#![tactic(auto)]

pub mod columns;
pub mod numbers;
pub mod plan;
pub mod plan_tables;
pub mod reading;
