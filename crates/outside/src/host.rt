//! Adapters over the host, which tell nothing of what stands there.

mod clock;
mod folder;
mod input;
mod output;
mod tries;

pub use clock::SystemClock;
pub use folder::DiskFolder;
pub use input::StandardInput;
pub use output::StandardOutput;
