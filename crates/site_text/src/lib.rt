//! The text of command files: lines and fields, numbers, and what their readers share.
#![tactic(auto)]

mod ages;
mod cursor;
mod fault;
mod fields;
mod files;
mod forms;
mod line;
mod numbers;
mod options;
mod refusal;
mod sizes;
mod text_lines;
mod value_lines;
mod values;
mod weights;
mod words;

pub use ages::read_age;
pub use cursor::Fields;
pub use fault::{ConfError, ConfFault, ConfRefusal, LineError};
pub use fields::{cut_at, cut_fields};
pub use files::{CommandFile, each_text_says_one_thing, read_file};
pub use forms::{directives_read_what_is_said, forms_read_what_is_said, read_ignored};
pub use line::Line;
pub use numbers::{read_number, read_number_within};
pub use options::{OptionTable, TableOption, options_read_what_is_said, read_options};
pub use refusal::TextRefusal;
pub use sizes::read_size;
pub use text_lines::lines;
pub use value_lines::value_line;
pub use values::{
    age_value, is_digit, is_letter, is_media, is_name, multiple_value, number_value, size_value,
    weight_value,
};
pub use weights::read_weight;
pub use words::{find_word, is_option, no_option, option_named, refuse_if, word_value};
