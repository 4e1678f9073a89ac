//! Contraction and pruning of flows: labels to which one jump leads are put in its place, choices between literals are made,
//! and parameters that nothing wants go.
//!
//! Block merging and jump threading: a block with one way in is joined to the block before it, and a block that only ends is
//! copied to each jump. A choice between literals is made (branch folding). The plan of what to join is found without a
//! proof; the copies mean the same whatever it says, and whether the result is merged is tested.
//!
//! Elimination of dead parameters: a parameter is wanted where an effect, a test or a wanted parameter uses it. This is the
//! least solution over the jumps, found by a work list, as in aggressive dead-code elimination: a loop that only feeds
//! itself is dead too. The words that jumps hand on for the others go with them.
#![tactic(auto)]

mod analysis;
mod checks;
mod copying;
mod heads;
mod joins;
mod names;
mod params_checks;
mod params_program;
mod plan;
mod program;
mod pruning;
mod sizes;

pub use checks::is_literal;
pub use params_program::prune;
pub use program::{copy_joins, merge_labels};
pub use sizes::{Sizes, sizes_of};
