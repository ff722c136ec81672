//! Tests of the written forms of steps, of names, and of free blocks.
#![tactic(auto)]

#[cfg(test)]
mod blocks;
#[cfg(test)]
mod names;
#[cfg(test)]
mod steps;
