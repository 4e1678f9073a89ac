//! The texts of a page of HTML on a program: what comes before its texts, and the script that shows them.
#![tactic(auto)]

mod end;
mod frame;
mod head;
mod page;
mod script;
mod style;

pub use page::{
    push_page_block, push_page_end, push_page_form, push_page_head, push_page_listing,
    push_page_part,
};
