//! What the commands of the program `nova` answer that needs no compiler: words that are no command, help, pages, steps of runs and
//! listings of objects; and files that are loaded and saved.
#![tactic(auto)]

mod answer;
mod counts;
mod explain;
mod help;
mod input_pages;
mod inputs;
mod kind;
mod labels;
mod listing;
mod memory_text;
mod output;
mod outside;
mod pages;
mod profile;
mod refusal;
mod saving;
mod source_pages;
mod status_pages;
mod type_pages;
mod visits;
mod words;

pub use answer::{Answer, Ending};
pub use counts::{Counts, counts_of};
pub use explain::push_page_on;
pub use help::{VERSION, push_help};
pub use inputs::load;
pub use kind::{Kind, kind_of};
pub use listing::{Origins, list_object};
pub use memory_text::{MemoryText, load_memory, push_memory_fault, push_run_refusal};
pub use output::output_name;
pub use outside::push_outside;
pub use pages::page_of;
pub use profile::{push_profile, save_counts};
pub use refusal::push_refusal;
pub use saving::{Saving, add_saving, print, save_all};
pub use visits::{Visits, visits_of};
pub use words::{push_nearest, push_word_fault};
