//! The lines of an input, read in whatever pieces its source gives, within a budget of bytes.
#![tactic(auto)]

mod line;
mod line_buffer;
mod piece;
mod reader;

pub use line::{LineRead, next_line};
pub use reader::{Reader, Stop};
