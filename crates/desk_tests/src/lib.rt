//! Tests of what lines ask, and of the texts of answers.
#![tactic(auto)]

#[cfg(test)]
mod words;
