//! The five command files of a site together: read from a folder, and what they say.
#![tactic(auto)]

mod folder;
mod meaning;
mod read;

pub use folder::read_texts;
pub use meaning::texts_say_one_thing;
pub use read::{Configuration, ConfigurationError, FileRefusal, are_within, read_configuration};
