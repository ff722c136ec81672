//! Free blocks of the cache.
#![tactic(auto)]

mod flags;
mod groups;
mod refusal;
mod runs;
mod space;

pub use refusal::SpaceRefusal;
pub use runs::{are_maximal, blocks_needed, end_of, have_blocks};
pub use space::CacheSpace;
