//! What the commands for objects and assembly texts make of the contents of their files, or why they are refused; runs of
//! typed programs; and what any command makes, saved.
#![tactic(auto)]

mod assemble;
mod contexts;
mod footprints;
mod interpret;
mod lint;
mod list;
mod object;
mod peep;
mod save;
mod simulate;

pub use assemble::assemble_bytes;
pub use contexts::contexts_bytes;
pub use interpret::exec_job;
pub use lint::lint_bytes;
pub use list::list_bytes;
pub use object::{check_lawful, object_of};
pub use peep::peep_bytes;
pub use save::{Made, Output, Outputs};
pub use simulate::{SHOWN_WRITES, job_of, run_bytes, status_of};
