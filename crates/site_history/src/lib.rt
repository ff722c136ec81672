//! Sites, steps and histories, and what an event does to a world.
#![tactic(auto)]

mod images;

pub use images::{agreeing_read_alike, fresh_store_is_settled};
