//! Tests of the five command files together.
#![tactic(auto)]

#[cfg(test)]
mod whole;
