//! What is heard, and what keeps an answer from being written.

use crate::kept::Ending;
use site_events::{Asked, LineRefusal};

/// What was read, or why nothing was. An answer has the form `F`.
#[derive(Drop)]
pub enum Heard<F> {
    /// Bytes that ask nothing.
    Skipped,
    /// What a request asks, or why it asks nothing: `LineRefusal::NoMemory` where no memory was found to read it.
    Asks(Result<Asked, LineRefusal>, F),
    /// There is no further request.
    Stopped(Ending),
}

/// Why an answer was not written.
#[derive(Clone, Copy, Debug, PartialEq, Eq)]
pub enum WriteRefusal {
    /// The sink failed. A first part of the answer was written, and not all.
    SinkFault,
    /// No memory was found for the answer. Nothing of it was written.
    NoMemory,
}
