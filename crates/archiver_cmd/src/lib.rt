//! What archiver.cmd says: which files belong to which sets, and which copies are made of them, when and where.
#![tactic(auto)]

mod conf;
mod levels;
mod params;
mod read;

pub use archiver_lines::{
    Assignment, CopyConf, CopyName, Given, Join, Local, Owner, ParamsLine, Release, ReservePart,
    Sort, SortKey, Stage, Unarchage, VsnExpr,
};
pub use conf::{ArchiverConf, SetConf, VsnsGroup};
pub use params::{Params, Reserve};
pub use read::{each_archiver_says_one_thing, read_archiver};
