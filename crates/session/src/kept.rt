//! What a session keeps.

use engine::Engine;

/// One for each answer that was written whole.
#[derive(Clone, Copy, Debug, PartialEq, Eq)]
pub struct Mark {
    /// How many answers were written, with this one.
    pub answered: u64,
    /// How many steps of the site were acknowledged.
    pub steps: u64,
    /// The store's instant then.
    pub instant: u64,
}

/// A site, the moment of its events, the marks of its answers, and the first cause of a status other than 0.
#[derive(Drop)]
pub struct Session<B, P> {
    pub engine: Engine<B, P>,
    /// The session's own moment, in seconds, which its events have and `at` moves on. It never goes back. Where it has none, each
    /// event takes the next one of a clock.
    pub own_moment: Option<u64>,
    /// One for each answer that was written whole.
    pub marks: Vec<Mark>,
    /// 2 where the first cause was a bad journal, 3 where it was a fault of the store or of the folder, 9 where it was want of
    /// memory, and 0 where none came.
    pub status: u8,
}

/// What ended a session.
#[derive(Clone, Copy, Debug, PartialEq, Eq)]
pub enum Ending {
    /// The input's end was met.
    Ended,
    /// An answer ended it.
    Closed,
    /// The source failed.
    SourceFault,
    /// The sink failed.
    SinkFault,
    /// A byte was taken beyond the budget.
    OverBudget,
    /// An answer found no memory for its text or its mark.
    NoMemory,
}
