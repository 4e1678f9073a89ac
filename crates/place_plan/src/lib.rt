//! Placements: what they say of the values and the uses of a form, when one fits and what it costs, under weights of
//! labels too; and the one in slots alone.
#![tactic(auto)]

pub mod laws;
mod lookups;
mod parts;
mod parts_homes;
mod parts_passes;
mod parts_serves;
mod place;
mod spill;
mod used;
mod uses;

pub use parts::point_number;
pub use place::{First, Home, Pass, Place, PlaceError, Placement, Serve};
pub use spill::spill_all;
pub use uses::{Role, Use};
