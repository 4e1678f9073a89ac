//! The commands: `run` does what the words of a command line say, over any files and any sink. Each command makes code and
//! a report, the outcome of a run, an object, a listing or a verdict from the contents of its files, or is refused.
#![tactic(auto)]

mod compile;
mod count;
mod counting;
mod execute;
mod generate;
mod load;
mod perform;
mod program;
mod report;
mod source;
mod top;
mod trace;

pub use compile::{CompileOutcome, outcome_of_report};
pub use counting::{Counted, count_entries};
pub use execute::exec_bytes;
pub use load::load_inputs;
pub use nova_compile::{CompileError, Compiled, compile_text, object_of};
pub use perform::work;
pub use place_weights::{Weights, WeightsError, print_counts, read_weights};
pub use program::exit_code;
pub use top::run;
