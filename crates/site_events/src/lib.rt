//! What a site is asked, and what it answers.
#![tactic(auto)]

mod event;
mod reply;

pub use event::{Asked, AttributeChange, Daemon, Event};
pub use reply::{
    CommandFile, FileRow, FileState, IdleCause, LineRefusal, QueueRow, Reply, Rule, SetRow,
    SummaryRow, VolumeRow, Vsn,
};
