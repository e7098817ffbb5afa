//! What the program fairview shows of the text of journals: waits, shares, stories and polls as text.
#![tactic(auto)]

pub mod fault;
pub mod lag;
pub mod laws;
pub mod name;
pub mod page;
mod pages;
pub mod poll;
pub mod poll_line;
pub mod share;
pub mod share_line;
pub mod story;
pub mod story_line;
pub mod view;
pub mod wait;
pub mod wait_line;
pub mod walk;
pub mod walks;

pub use fault::ViewFault;
pub use name::name_of;
pub use share::Form;
pub use view::{View, view_text};
