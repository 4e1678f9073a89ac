//! Which statement of the source made each write, where the writes of its code differ, and the events of a run for people.
#![tactic(auto)]

mod events;
mod lines;
mod text;
mod unlike;

pub use events::push_events;
pub use lines::line_of;
pub use nv_meaning::traced;
pub use nv_meaning_values::{Event, Made, Trace};
pub use text::trace_text;
pub use unlike::compare;
