//! Tests of what a site keeps, and of events.
#![tactic(auto)]

#[cfg(test)]
mod events;
#[cfg(test)]
mod sites;
