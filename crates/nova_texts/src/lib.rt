//! The commands of `nova` that print or write texts over any files: `asm` and `mem` turn assembly texts and memory texts into
//! what they stand for, `fmt` lays out sources, and `trace` prints which statement of a source made each write, by which
//! calls, and where a run ended. Others have their texts from here: code beside its source, the statements of a run, the parts
//! of a source that tests reach, findings as a log, and results of tests as lines or in two forms for other programs.
#![tactic(auto)]

mod alongside;
mod assemble;
mod beside;
mod coverage;
mod ends;
mod format;
mod lines;
mod memory;
mod place;
mod points;
mod report;
mod sarif;
mod steps;
mod ties;
mod trace;
mod xml;

pub use assemble::assemble_file;
pub use beside::{Listed, list_beside};
pub use coverage::Coverage;
pub use format::format_sources;
pub use memory::show_memory;
pub use place::{last_place, push_outside_place};
pub use report::Report;
pub use sarif::sarif_log;
pub use steps::print_steps;
pub use trace::print_trace;
