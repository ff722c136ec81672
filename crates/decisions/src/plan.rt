//! Plans.

use base::{Bytes, List};
use site_events::Reply;
use site_state::Prepared;
use site_types::Run;

/// What is done to answer an event.
#[derive(Drop)]
pub enum Plan {
    /// This is replied, and nothing is changed.
    Answer(Reply),
    /// The store does its work, then the step is recorded and made, and then is replied what the work says.
    Make { prepared: Prepared, work: Work },
}

/// What the store does before a step is recorded, and what is replied then.
#[derive(Drop)]
pub enum Work {
    /// Nothing.
    Nothing { reply: Reply },
    /// These bytes are stored at the runs of the step, and synced.
    Store { bytes: Bytes, reply: Reply },
    /// The buffer is filled with the first bytes that stand at these runs, and is the reply.
    Load { runs: List<Run>, buffer: Vec<u8> },
}
