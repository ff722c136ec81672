//! What every crate stands on: bytes and lists as contracts see them, the limits of a site, and which texts name a file, an owner or
//! a group.
#![tactic(auto)]

mod bytes;
mod limits;
mod names;

pub use bytes::{Bytes, List};
pub use limits::{
    CACHE_BLOCKS_MAX, COMMAND_FILE_MAX, END_OF_TIME, FIELD_NUMBER_MAX, FIELD_SIZE_MAX,
    FILE_COUNT_MAX, FILE_SIZE_MAX, INODE_MAX, JOURNAL_SIZE_MAX, LINE_MAX, MEMBER_COUNT_MAX,
    NAME_MAX, PATH_MAX, PAYLOAD_MAX, SECTION_COUNT_MAX, VOLUME_COUNT_MAX,
};
pub use names::{is_legal_below_root, is_legal_name, is_legal_path};
