//! What an engine keeps.

ghost use Rattle.std.specs.Prelude.{◌<◌};
ghost use Rattle.base.specs.declared.limits.TheConstants.{END_OF_TIME};

use journal::Journal;
use site_state::SiteState;
use std::alloc::Global;

/// A site over a store.
#[derive(Drop)]
pub struct Engine<B, P> {
    pub alloc: Global,
    pub bank: B,
    pub patterns: P,
    pub journal: Journal,
    pub site: SiteState,
    /// How many steps were acknowledged.
    pub steps: u64,
    /// The written form of the step in hand.
    pub payload: Vec<u8>,
    /// The moment of the last event, in seconds.
    pub clock: u64,
    /// Whether the journal is to be read again before the next event.
    pub due: bool,
    pub ghost range: { clock < END_OF_TIME },
}
