//! Tests of the readers of site.conf, stager.cmd, releaser.cmd and recycler.cmd.
#![tactic(auto)]

#[cfg(test)]
mod tests;
