//! What is answered to an event, and how that is done: plans, which are made from what a site keeps in memory and know no store.
#![tactic(auto)]

mod configurations;
mod events;
mod files;
mod plan;

pub use events::decide;
pub use plan::{Plan, Work};
