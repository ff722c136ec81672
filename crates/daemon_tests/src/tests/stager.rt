//! stager.cmd.

use super::{Refused, SITE, Said, push_number, refused};
use base::{Bytes, COMMAND_FILE_MAX};
use daemon_cmds::{StagerConf, read_site, read_stager};
use site_text::{ConfError, ConfFault};
use std::alloc::{AllocError, Global};
use std::test::Fail;

/// The drives, a `|`, the queue's limit, and the order of copies.
fn push_all(text: &mut Bytes, alloc: Global, stager: &StagerConf) -> Result<(), AllocError> {
    for drives in stager.drives.as_slice() {
        push_number(text, alloc, u64::from(*drives))?;
    }
    text.push(b'|')?;
    push_number(text, alloc, u64::from(stager.maxactive))?;
    for copy in stager.copysel.as_slice() {
        push_number(text, alloc, u64::from(*copy))?;
    }
    Ok(())
}

fn shown(alloc: Global, stager: &StagerConf) -> Result<Bytes, AllocError> {
    let mut text = Bytes::new(alloc);
    push_all(&mut text, alloc, stager)?;
    Ok(text)
}

/// What the reader says of a text, or why it refuses it.
fn said(alloc: Global, site: &[u8], text: &[u8]) -> Result<Bytes, ConfError> {
    if site.len() > COMMAND_FILE_MAX || text.len() > COMMAND_FILE_MAX {
        return Err(ConfError::NoMemory);
    }
    let site = read_site(alloc, site)?;
    Ok(shown(alloc, &read_stager(alloc, text, &site)?)?)
}

const SAID: [Said; 8] = [
    (b"", b"2 1 |4000 1 2 3 4 "),
    (
        b"bufsize = li 16 lock\r\ndirectio=on\r\nlogfile = /var/adm/stager.log all\r\n",
        b"2 1 |4000 1 2 3 4 ",
    ),
    (
        b"drives = robot 0\ndrives =vault 64 # more than it has\ndrives = robot 1",
        b"1 64 |4000 1 2 3 4 ",
    ),
    (
        b"maxactive = 1\nmaxactive = 65536\ncopysel = 4:2",
        b"2 1 |65536 4 2 1 3 ",
    ),
    (b"copysel = 3:2:1:4\ncopysel = 03\n", b"2 1 |4000 3 1 2 4 "),
    (b"copysel=2:\\\n4:1", b"2 1 |4000 2 4 1 3 "),
    (
        b"# \xf0\x9f\x8e\xac\nlogfile\t=\t/var/\xc3\xa9t\xc3\xa9 \xe2\x82\xac # \xc3\xbc\ndrives\t= robot\t1",
        b"1 1 |4000 1 2 3 4 ",
    ),
    (
        b"# stage\n\ndrives = \\\r\nvault \\\n 0\nmaxactive = 000000100 # files\\\ncopysel = 4:3:2:1",
        b"2 0 |100 4 3 2 1 ",
    ),
];

#[test]
fn stager_cmd_says(rt: HostRuntime) -> Result<(), Fail> {
    for (text, want) in SAID {
        assert_eq!(rt; said(rt.alloc(), SITE, text)?.as_slice(), want);
    }
    Ok(())
}

const REFUSED: [Refused; 32] = [
    (b"logfile", 1, ConfFault::UnknownDirective),
    (b"maxactive 3", 1, ConfFault::UnknownDirective),
    (b"stream = 3", 1, ConfFault::UnknownDirective),
    (b"stream =\nlogfile =", 1, ConfFault::UnknownDirective),
    (
        b"drives = robot 1\n\nfs = samfs1",
        3,
        ConfFault::UnknownDirective,
    ),
    (b"directio =", 1, ConfFault::MissingField),
    (b"=", 1, ConfFault::MissingField),
    (b"drives = robot", 1, ConfFault::MissingField),
    (b"maxactive =", 1, ConfFault::MissingField),
    (b"copysel =\\\n\ncopysel = 5", 1, ConfFault::MissingField),
    (b"drives = robot 1 2", 1, ConfFault::ExtraField),
    (b"maxactive = 3 4k", 1, ConfFault::ExtraField),
    (b"copysel = 1 : 2", 1, ConfFault::ExtraField),
    (b"drives = tower 1", 1, ConfFault::BadValue),
    (b"drives = tower", 1, ConfFault::BadValue),
    (b"drives = Robot 65", 1, ConfFault::BadValue),
    (b"drives = robot two", 1, ConfFault::BadValue),
    (b"maxactive = 4k", 1, ConfFault::BadValue),
    (b"maxactive = 1000000000", 1, ConfFault::BadValue),
    (b"copysel = 1:5", 1, ConfFault::BadValue),
    (b"copysel = 0", 1, ConfFault::BadValue),
    (b"copysel = 2:1:2", 1, ConfFault::BadValue),
    (b"copysel = 1:2:3:4:1", 1, ConfFault::BadValue),
    (b"copysel = 1:", 1, ConfFault::BadValue),
    (b"copysel = 1::2 x", 1, ConfFault::BadValue),
    (b"drives = robot 65", 1, ConfFault::OutOfRange),
    (b"drives = robot 65 x", 1, ConfFault::OutOfRange),
    (b"copysel = 2\n\nmaxactive = 0", 3, ConfFault::OutOfRange),
    (
        b"maxactive = 65537\ndrives = tower 1",
        1,
        ConfFault::OutOfRange,
    ),
    (b"maxactive = 0\nx\\", 2, ConfFault::NotText),
    (b"maxactive = 0\nx\\\n", 2, ConfFault::NotText),
    (b"maxactive = 0\n\n\xe2\x82", 3, ConfFault::NotText),
];

#[test]
fn stager_cmd_is_refused(rt: HostRuntime) {
    for (text, line, fault) in REFUSED {
        assert_eq!(rt; said(rt.alloc(), SITE, text).err(), refused(line, fault));
    }
}
