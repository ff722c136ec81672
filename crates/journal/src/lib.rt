//! The journal: gated records in area 0 of a store, each on the medium before it is acknowledged.
//!
//! The records stand one behind the other from place 0. Each is a gate byte, the length of its payload as four
//! bytes, the least first, and the payload, of 1 to 1,048,576 bytes. A gate is open where it is 1, and closed at
//! any other value. The first closed gate ends the journal, or else the area's end does. A record is written
//! behind its closed gate, with a closed gate behind it, and synced; then its gate is opened, and that synced.
#![tactic(auto)]

mod gate;
mod journal;
mod reader;
mod refusal;
mod window;
mod writing;

pub use journal::Journal;
pub use reader::{Found, Reader};
pub use refusal::{AppendRefusal, JournalRefusal};
