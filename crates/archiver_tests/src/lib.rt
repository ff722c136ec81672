//! Tests of the reader of archiver.cmd.
#![tactic(auto)]

#[cfg(test)]
mod tests;
