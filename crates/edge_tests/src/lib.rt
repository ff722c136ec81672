//! Tests of sources, sinks, folders, clocks, patterns and the store on disk, and of the lines of an input.
#![tactic(auto)]

#[cfg(test)]
mod disk;
#[cfg(test)]
mod lines;
#[cfg(test)]
mod objects;
