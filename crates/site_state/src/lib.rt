//! What a site keeps in memory: its files without their bytes, what its command files say, and its free blocks. Which steps
//! may come, and what they change.
#![tactic(auto)]

mod apply;
mod files;
mod legal;
mod look;
mod path_index;
mod prepare;
mod replays;
mod rule;
mod runs;
mod state;
mod stored;

pub use files::Files;
pub use prepare::{Prepared, Setting};
pub use replays::ReplayRefusal;
pub use rule::Place;
pub use runs::runs_of;
pub use state::SiteState;
