//! The one written form of each step.
#![tactic(auto)]

mod choices;
mod decode;
mod encode;
mod field;
mod kinds;
mod list;
mod parts;
mod refusal;
mod unique;
mod unread;

pub use decode::decode_step;
pub use encode::encode_step;
pub use refusal::StepRefusal;
pub use unique::{one_form, ranges, written_length};
