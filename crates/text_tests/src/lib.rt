//! Tests of the forms of command files.
#![tactic(auto)]

#[cfg(test)]
mod text;
