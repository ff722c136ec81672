//! Script lines and the texts of answers.
#![tactic(auto)]

mod bad_journal;
mod commands;
mod laws;
mod line;
mod made;
mod names;
mod read;
mod reply;
mod reports;
mod words;

pub use bad_journal::write_bad_journal;
pub use laws::each_line_says_one_thing;
pub use read::{is_skipped, read_line};
pub use reply::write_reply;
