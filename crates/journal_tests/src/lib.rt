//! Tests of the store and of the journal.
#![tactic(auto)]

#[cfg(test)]
mod banks;
#[cfg(test)]
mod journals;
