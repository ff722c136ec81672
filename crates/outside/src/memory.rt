//! Objects in memory, which tell what they hold and fail at given calls, counted from 1.

mod calls;
mod clock;
mod folder;
mod patterns;
mod sink;
mod source;

pub use clock::MemoryClock;
pub use folder::MemoryFolder;
pub use patterns::{LiteralPattern, LiteralPatterns};
pub use sink::MemorySink;
pub use source::MemorySource;
