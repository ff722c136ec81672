//! What lies outside a site: sources and sinks of bytes, a folder of texts, a clock and patterns over names. Each
//! object counts its faults, and a call fails only where that count rose.
#![tactic(auto)]

mod clock;
mod folder;
mod host;
mod memory;
mod patterns;
mod stream;

pub use clock::Clock;
pub use folder::{Folder, FolderFault, NamedText};
pub use host::{DiskFolder, StandardInput, StandardOutput, SystemClock};
pub use memory::{
    LiteralPattern, LiteralPatterns, MemoryClock, MemoryFolder, MemorySink, MemorySource,
};
pub use patterns::{PatternFault, Patterns};
pub use stream::{Failed, Sink, Source, write_all};
