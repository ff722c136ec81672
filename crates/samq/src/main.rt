//! The program: answers the lines of standard input over the store of a folder.
#![tactic(auto)]

mod folders;
mod host;
mod top;

use std::process::ExitCode;

fn main(rt: HostRuntime) -> ExitCode {
    ExitCode::from(host::run(&rt))
}

#[cfg(test)]
mod tests;
