//! A site over a store: it is reopened from its journal, each event is answered, and what it changes is journalled.
#![tactic(auto)]

mod commit;
mod data;
mod engine;
mod events;
mod payload;
mod perform;
mod reopen;
mod work;

pub use configuration::{Configuration, read_texts};
pub use engine::Engine;
pub use events::{Shut, ShutCause};
