//! Where the values of a program in single-use form stand while its code runs: points by their numbers, what a placement says there,
//! whether values have the homes that they want, and whether a placement fits.
//! The compiler's own placement fits by proof, so here only tests call `fits`; it is for other users of the library.
#![tactic(auto)]

mod checking;
mod keeps;
mod laws;
pub mod pieces;
pub mod points;
pub mod registers;
pub mod values;
pub mod words;

pub use checking::fits;
pub use place_plan::{First, Home, Pass, Place, PlaceError, Placement, Serve, spill_all};
pub use place_weights::Weights;
pub use ssu_liveness::{
    Copies, PointId, Slots, copies_of, held, peak, point_ids_of, row_numbers, value_of,
};
