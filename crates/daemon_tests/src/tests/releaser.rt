//! releaser.cmd.

use super::{Refused, SITE, Said, push_number, refused};
use base::{Bytes, COMMAND_FILE_MAX};
use daemon_cmds::{AgeWeights, ReleaserConf, read_releaser, read_site};
use site_text::{ConfError, ConfFault};
use std::alloc::{AllocError, Global};
use std::test::Fail;

fn push_ages(text: &mut Bytes, alloc: Global, ages: AgeWeights) -> Result<(), AllocError> {
    match ages {
        AgeWeights::Least(weight) => push_number(text, alloc, u64::from(weight)),
        AgeWeights::Separate {
            access,
            modify,
            residence,
        } => {
            push_number(text, alloc, u64::from(access))?;
            push_number(text, alloc, u64::from(modify))?;
            push_number(text, alloc, u64::from(residence))
        }
    }
}

/// The weights of ages, a `|`, the weight of the size and the least residence, then `n` for no_release and `r` for
/// rearch_no_release.
fn push_all(text: &mut Bytes, alloc: Global, releaser: &ReleaserConf) -> Result<(), AllocError> {
    push_ages(text, alloc, releaser.ages)?;
    text.push(b'|')?;
    push_number(text, alloc, u64::from(releaser.size))?;
    push_number(text, alloc, releaser.min_residence_age)?;
    if releaser.no_release {
        text.push(b'n')?;
    }
    if releaser.rearch_no_release {
        text.push(b'r')?;
    }
    Ok(())
}

fn shown(alloc: Global, releaser: &ReleaserConf) -> Result<Bytes, AllocError> {
    let mut text = Bytes::new(alloc);
    push_all(&mut text, alloc, releaser)?;
    Ok(text)
}

/// What the reader says of a text, or why it refuses it.
fn said(alloc: Global, site: &[u8], text: &[u8]) -> Result<Bytes, ConfError> {
    if site.len() > COMMAND_FILE_MAX || text.len() > COMMAND_FILE_MAX {
        return Err(ConfError::NoMemory);
    }
    let site = read_site(alloc, site)?;
    Ok(shown(alloc, &read_releaser(alloc, text, &site)?)?)
}

const SAID: [Said; 19] = [
    (b"", b"1000000 |1000000 600 "),
    (
        b"logfile = /var/adm/releaser.log\nlist_size = 10000\ndisplay_all_candidates\ndebug_partial\ndisplay_all_candidates = x\ndebug_partial = y z",
        b"1000000 |1000000 600 ",
    ),
    (
        b"weight_age = 0.5\r\nweight_size = .25 # a quarter\r\nmin_residence_age = 1h30m\r\n",
        b"500000 |250000 5400 ",
    ),
    (
        b"weight_age_modify = 0.3\nno_release",
        b"1000000 300000 1000000 |1000000 600 n",
    ),
    (
        b"weight_age_access = 0\nweight_age_residence = 1\nweight_age_access = 0.1\nrearch_no_release",
        b"100000 1000000 1000000 |1000000 600 r",
    ),
    (
        b"weight_age = 0.1\nweight_age = 0.2\nweight_size = 0\nweight_size = 0.7",
        b"200000 |700000 600 ",
    ),
    (
        b"fs = other\nweight_age = 0.1\nno_release\nweight_size = 0\nmin_residence_age = 0",
        b"1000000 |1000000 600 ",
    ),
    (
        b"weight_age = 0.1\nweight_size = 0.2\nfs = samfs1\nweight_size = 0.3\nmin_residence_age = 1d\nno_release",
        b"100000 |300000 86400 n",
    ),
    (
        b"weight_age = 0.1\nfs = samfs1\nweight_age_access = 0.2",
        b"200000 1000000 1000000 |1000000 600 ",
    ),
    (
        b"weight_age_access = 0.1\nweight_age_modify = 0.2\nfs = samfs1\nweight_age_access = 0.3",
        b"300000 200000 1000000 |1000000 600 ",
    ),
    (
        b"weight_age_access = 0.1\nfs = samfs1\nweight_age = 0.3",
        b"300000 |1000000 600 ",
    ),
    (
        b"weight_age_access = 0.1\nmin_residence_age = 5\nfs = samfs1\nweight_size = 0.3",
        b"100000 1000000 1000000 |300000 5 ",
    ),
    (
        b"fs = samfs1\nweight_age = 0.1\nfs = other\nweight_age_access = 0.5\nfs = samfs1\nweight_age = 0.2",
        b"200000 |1000000 600 ",
    ),
    (
        b"# \xf0\x9f\x8e\xac\nlogfile\t=\t/var/\xc3\xa9t\xc3\xa9\nweight_size\t=\t0.5 # \xe2\x82\xac\n\tno_release\t",
        b"1000000 |500000 600 n",
    ),
    (
        b"no_release\nfs = samfs1\nrearch_no_release",
        b"1000000 |1000000 600 nr",
    ),
    (
        b"weight_age\\\n_access = 0.000001",
        b"1 1000000 1000000 |1000000 600 ",
    ),
    (
        b"min_residence_age=1y1w1d1h1m1",
        b"1000000 |1000000 32230861 ",
    ),
    (
        b"# weights\n\nweight_age_\\\r\nresidence = \\\n.5 # half\\\nno_release # none\nlogfile=x",
        b"1000000 1000000 500000 |1000000 600 n",
    ),
    (
        b"fs = samfs1\r\nmin_residence_age = 30m\r\nfs = other\r\nmin_residence_age = 1d\r\nfs = samfs1\r\nweight_size = 1.0\r\n",
        b"1000000 |1000000 1800 ",
    ),
];

#[test]
fn releaser_cmd_says(rt: HostRuntime) -> Result<(), Fail> {
    for (text, want) in SAID {
        assert_eq!(rt; said(rt.alloc(), SITE, text)?.as_slice(), want);
    }
    Ok(())
}

const REFUSED: [Refused; 31] = [
    (b"no_release = x", 1, ConfFault::UnknownDirective),
    (b"weight_age", 1, ConfFault::UnknownDirective),
    (b"list_size", 1, ConfFault::UnknownDirective),
    (b"weight_age_partial = 0.1", 1, ConfFault::UnknownDirective),
    (b"no_release\nNo_release", 2, ConfFault::UnknownDirective),
    (b"weight_size =", 1, ConfFault::MissingField),
    (b"= 0.5", 1, ConfFault::MissingField),
    (b"logfile =", 1, ConfFault::MissingField),
    (b"no_release now", 1, ConfFault::ExtraField),
    (b"debug_partial x", 1, ConfFault::ExtraField),
    (b"fs = samfs1 other", 1, ConfFault::ExtraField),
    (b"fs = sam/fs1", 1, ConfFault::BadValue),
    (b"weight_age = 1.1", 1, ConfFault::BadValue),
    (b"weight_age = 0.1234567 x", 1, ConfFault::BadValue),
    (b"min_residence_age = 1x", 1, ConfFault::BadValue),
    (b"min_residence_age = 999999999999y", 1, ConfFault::BadValue),
    (
        b"weight_age = 0.1\nweight_age_access = 0.2",
        2,
        ConfFault::Conflict,
    ),
    (
        b"weight_age_residence = 0.1\nweight_age = x",
        2,
        ConfFault::Conflict,
    ),
    (
        b"weight_age_modify = 0.1\n\nweight_age =",
        3,
        ConfFault::Conflict,
    ),
    (
        b"fs = other\nweight_age = 0.1\nfs = samfs1\nweight_age_access = 1\nfs = other\nweight_age_access = 1",
        6,
        ConfFault::Conflict,
    ),
    (
        b"fs = samfs1\nweight_age = 1\nweight_size = 1\nweight_age_modify = 1\nweight_size = 2",
        4,
        ConfFault::Conflict,
    ),
    (b"x\n\xc3\n", 2, ConfFault::NotText),
    (b"no_release\\", 1, ConfFault::NotText),
    (b"fs =\\\n\nweight_age = 2", 1, ConfFault::MissingField),
    (b"min_residence_age =", 1, ConfFault::MissingField),
    (b"weight_age = 0.5 x", 1, ConfFault::ExtraField),
    (b"min_residence_age = 1 h", 1, ConfFault::ExtraField),
    (
        b"fs = abcdefghijklmnopqrstuvwxyz.-_XYZ1",
        1,
        ConfFault::BadValue,
    ),
    (b"# c\n\nweight_size = .\nfrob", 3, ConfFault::BadValue),
    (b"frob now\nno_release now", 1, ConfFault::UnknownDirective),
    (b"no_release\\\n\n\\", 3, ConfFault::NotText),
];

#[test]
fn releaser_cmd_is_refused(rt: HostRuntime) {
    for (text, line, fault) in REFUSED {
        assert_eq!(rt; said(rt.alloc(), SITE, text).err(), refused(line, fault));
    }
}
