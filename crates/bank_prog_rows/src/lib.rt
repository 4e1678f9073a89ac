//! Rows of the program of the banks, in families, a file for each: what is chosen once (`choice`), where the words of uses
//! are (`cover`), the owners of transfer registers (`owners`, `refills`, `waiting`), where runs begin (`begins`), and through
//! which registers slots pass (`passes`). Each function appends the rows of one sentence, and promises exactly the lines
//! that the definition has by name. Banks of operands and room in a bank are in crate `bank_prog`.
#![tactic(auto)]

mod begins;
mod choice;
mod cover;
mod owners;
mod passes;
mod refills;
mod spans;
mod waiting;

pub use begins::push_adjacency;
pub use choice::push_one_choice;
pub use cover::push_homes_cover;
pub use owners::push_owners;
pub use passes::push_passes;
