use base::{Bytes, List};

/// A line of a command file that has fields.
#[derive(Drop)]
pub struct Line {
    /// The number of its first physical line, counted from 1.
    pub number: u32,
    /// The fields, none of which is empty; at least one.
    pub fields: List<Bytes>,
}
