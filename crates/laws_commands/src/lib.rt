//! Laws of the commands' definitions, each as the contract of a function that does nothing: which command some words are, what the commands make
//! of a short object, that contents have one answer, that a compiled object runs as its source does, and what a compilation says, sentence by
//! sentence. Worked examples stand beside them: what definitions give of short codes, forms, reports, texts, traces and stores.
#![tactic(auto)]

pub mod answers;
pub mod examples_forms;
pub mod examples_machine;
pub mod examples_reports;
pub mod forms;
pub mod machine;
pub mod messages;
pub mod reports;
pub mod runs;
pub mod sentences;
pub mod sources;
pub mod stores;
pub mod texts;
pub mod traces;
pub mod weights;
pub mod words;
