//! Lines of archiver.cmd: what each says, by what the lines before it said.
#![tactic(auto)]

mod assignments;
mod copies;
mod copy_lines;
mod criteria;
mod kinds;
mod known;
mod lines;
mod names;
mod param_options;
mod paths;
mod reading;
mod section_lines;
mod value_lines;

pub use copy_lines::DEFAULT_AGE;
pub use criteria::{Criterion, CriterionWord, Release, Stage};
pub use known::{Known, mention};
pub use lines::read_line;
pub use names::same_name;
pub use param_options::{Given, Join, Owner, ParamOption, ReservePart, Sort, SortKey, Unarchage};
pub use reading::{
    Assignment, CopyConf, CopyName, Local, Opened, ParamsLine, PoolLine, Reading, Section, SetCopy,
    VsnExpr, VsnsLine,
};
