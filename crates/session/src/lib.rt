//! Sessions: requests from a source, answers to a sink, and a mark for each answer written whole. The requests are the lines of a
//! script, or those of another protocol.
#![tactic(auto)]

mod heard;
mod kept;
mod lines;
mod moments;
mod protocol;
mod round;
mod run;

pub use heard::{Heard, WriteRefusal};
pub use kept::{Ending, Mark, Session};
pub use lines::Lines;
pub use protocol::Protocol;
pub use round::one_round;
pub use run::{Outcome, converse, run_lines};
