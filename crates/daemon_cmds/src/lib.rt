//! The command files of a site beside the archiver's: site.conf, stager.cmd, releaser.cmd and recycler.cmd.
#![tactic(auto)]

mod recycler;
mod recycler_conf;
mod recycler_lines;
mod releaser;
mod releaser_conf;
mod releaser_lines;
mod site;
mod site_conf;
mod site_lines;
mod stager;
mod stager_conf;
mod stager_lines;

pub use recycler::{each_recycler_says_one_thing, read_recycler};
pub use recycler_conf::{LibraryRecycling, NoRecycle, RecyclerConf};
pub use releaser::{each_releaser_says_one_thing, read_releaser};
pub use releaser_conf::{AgeWeights, ReleaserConf};
pub use site::{each_site_says_one_thing, read_site};
pub use site_conf::{Library, SiteConf, Volume};
pub use stager::{each_stager_says_one_thing, read_stager};
pub use stager_conf::StagerConf;
