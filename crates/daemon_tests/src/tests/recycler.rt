//! recycler.cmd.

use super::{Refused, SITE, Said, push_number, refused};
use base::{Bytes, COMMAND_FILE_MAX};
use daemon_cmds::{LibraryRecycling, NoRecycle, RecyclerConf, read_recycler, read_site};
use site_text::{ConfError, ConfFault};
use std::alloc::{AllocError, Global};
use std::test::Fail;

/// `|HWM MINGAIN VSNCOUNT DATAQUANTITY`, and `i` where it is ignored.
fn push_library(
    text: &mut Bytes,
    alloc: Global,
    library: &LibraryRecycling,
) -> Result<(), AllocError> {
    text.push(b'|')?;
    push_number(text, alloc, u64::from(library.hwm))?;
    push_number(text, alloc, u64::from(library.mingain))?;
    push_number(text, alloc, u64::from(library.vsncount))?;
    push_number(text, alloc, library.dataquantity)?;
    if library.ignore {
        text.push(b'i')?;
    }
    Ok(())
}

/// `|LINE MEDIA EXPR ..`.
fn push_volumes(text: &mut Bytes, alloc: Global, volumes: &NoRecycle) -> Result<(), AllocError> {
    text.push(b'|')?;
    push_number(text, alloc, u64::from(volumes.line))?;
    text.extend(volumes.media.as_slice())?;
    for pattern in volumes.patterns.as_slice() {
        text.push(b' ')?;
        text.extend(pattern.as_slice())?;
    }
    Ok(())
}

/// The libraries and the volumes.
fn push_all(text: &mut Bytes, alloc: Global, recycler: &RecyclerConf) -> Result<(), AllocError> {
    for library in recycler.libraries.as_slice() {
        push_library(text, alloc, library)?;
    }
    for volumes in recycler.no_recycle.as_slice() {
        push_volumes(text, alloc, volumes)?;
    }
    Ok(())
}

fn shown(alloc: Global, recycler: &RecyclerConf) -> Result<Bytes, AllocError> {
    let mut text = Bytes::new(alloc);
    push_all(&mut text, alloc, recycler)?;
    Ok(text)
}

/// What the reader says of a text, or why it refuses it.
fn said(alloc: Global, site: &[u8], text: &[u8]) -> Result<Bytes, ConfError> {
    if site.len() > COMMAND_FILE_MAX || text.len() > COMMAND_FILE_MAX {
        return Err(ConfError::NoMemory);
    }
    let site = read_site(alloc, site)?;
    Ok(shown(alloc, &read_recycler(alloc, text, &site)?)?)
}

const SAID: [Said; 9] = [
    (b"", b"|95 60 1 1073741824 |95 60 1 1073741824 "),
    (
        b"logfile = /var/adm/recycler.log\r\nrobot\r\nvault -mail root@site\r\n",
        b"|95 60 1 1073741824 |95 60 1 1073741824 ",
    ),
    (
        b"vault -hwm 80 -mingain 0 -vsncount 3 -dataquantity 10G -ignore",
        b"|95 60 1 1073741824 |80 0 3 10737418240 i",
    ),
    (
        b"robot -hwm 80 -hwm 70\nvault -ignore\nrobot -mingain 100 -hwm 60 \\\n -dataquantity 0",
        b"|60 100 1 0 |95 60 1 1073741824 i",
    ),
    (
        b"no_recycle li ^DAY ^FIN # two\n\nno_recycle s9 [a-c]=\\\\d\n",
        b"|95 60 1 1073741824 |95 60 1 1073741824 |1 li ^DAY ^FIN|3 s9 [a-c]=\\\\d",
    ),
    (
        b"robot -mail a=b\nlogfile=x y",
        b"|95 60 1 1073741824 |95 60 1 1073741824 ",
    ),
    (
        b"# recycle\r\nrobot -vsncount 0 -dataquantity 2g -dataquantity 512K # little\\\r\nvault -dataquantity \\\r\n1t\r\nno_recycle s9 A\r\n",
        b"|95 60 0 524288 |95 60 1 1099511627776 |5 s9 A",
    ),
    (
        b"robot -mingain 007 -ignore -ignore",
        b"|95 7 1 1073741824 i|95 60 1 1073741824 ",
    ),
    (
        b"# \xf0\x9f\x8e\xac\nlogfile\t=\t/var/\xc3\xa9t\xc3\xa9\nrobot\t-hwm\t80\t# \xe2\x82\xac\nno_recycle li\t\xc3\xa9",
        b"|80 60 1 1073741824 |95 60 1 1073741824 |4 li \xc3\xa9",
    ),
];

/// A site whose libraries are called as words of the file.
const SITE_OF_WORDS: &[u8] = b"library = no_recycle 1\nlibrary = logfile 1\n";

/// What is said in that site.
const SAID_OF_WORDS: [Said; 2] = [
    (
        b"logfile -hwm 5",
        b"|95 60 1 1073741824 |5 60 1 1073741824 ",
    ),
    (
        b"logfile = -hwm 5\nno_recycle li X\nlogfile -ignore\nlogfile",
        b"|95 60 1 1073741824 |95 60 1 1073741824 i|2 li X",
    ),
];

#[test]
fn recycler_cmd_says(rt: HostRuntime) -> Result<(), Fail> {
    for (text, want) in SAID {
        assert_eq!(rt; said(rt.alloc(), SITE, text)?.as_slice(), want);
    }
    for (text, want) in SAID_OF_WORDS {
        assert_eq!(rt; said(rt.alloc(), SITE_OF_WORDS, text)?.as_slice(), want);
    }
    Ok(())
}

const REFUSED: [Refused; 35] = [
    (b"tower -hwm 5", 1, ConfFault::UnknownDirective),
    (b"Robot", 1, ConfFault::UnknownDirective),
    (b"robot = 5", 1, ConfFault::UnknownDirective),
    (b"robot -hwm=5", 1, ConfFault::UnknownDirective),
    (b"robot -high 5", 1, ConfFault::UnknownDirective),
    (b"script = x", 1, ConfFault::UnknownDirective),
    (b"no_recycle = li", 1, ConfFault::UnknownDirective),
    (b"logfile", 1, ConfFault::UnknownDirective),
    (b"robot\n\nlogfile =", 3, ConfFault::MissingField),
    (b"= x", 1, ConfFault::MissingField),
    (b"robot -hwm", 1, ConfFault::MissingField),
    (b"robot -ignore -mail", 1, ConfFault::MissingField),
    (b"robot -mingain", 1, ConfFault::MissingField),
    (b"robot -hwm 5 -vsncount", 1, ConfFault::MissingField),
    (b"robot\nvault -dataquantity", 2, ConfFault::MissingField),
    (b"no_recycle", 1, ConfFault::MissingField),
    (b"no_recycle li", 1, ConfFault::MissingField),
    (b"robot hwm 5", 1, ConfFault::ExtraField),
    (b"robot -ignore 1 -frob", 1, ConfFault::ExtraField),
    (b"no_recycle LI", 1, ConfFault::BadValue),
    (b"robot -hwm x -frob", 1, ConfFault::BadValue),
    (b"robot -hwm -mingain 5", 1, ConfFault::BadValue),
    (b"vault -dataquantity 1X", 1, ConfFault::BadValue),
    (b"vault -vsncount 1000000000", 1, ConfFault::BadValue),
    (b"robot -hwm 101\ntower", 1, ConfFault::OutOfRange),
    (
        b"robot -hwm 100\nvault -mingain 101",
        2,
        ConfFault::OutOfRange,
    ),
    (b"tower\nrobot\\", 2, ConfFault::NotText),
    (b"tower -frob", 1, ConfFault::UnknownDirective),
    (b"robot -ignore -hwm = 5", 1, ConfFault::BadValue),
    (
        b"robot\\\n\ntower\nrobot -hwm",
        3,
        ConfFault::UnknownDirective,
    ),
    (b"no_recycle LI x", 1, ConfFault::BadValue),
    (b"vault -dataquantity 1024T", 1, ConfFault::BadValue),
    (b"robot -hwm 101 x", 1, ConfFault::OutOfRange),
    (b"robot x -hwm 101", 1, ConfFault::ExtraField),
    (b"# c\nrobot\n\xff", 3, ConfFault::NotText),
];

/// What is refused in the site whose libraries are called as words.
const REFUSED_OF_WORDS: [Refused; 4] = [
    (b"no_recycle -hwm 5", 1, ConfFault::BadValue),
    (b"logfile\nno_recycle", 2, ConfFault::MissingField),
    (b"logfile =", 1, ConfFault::MissingField),
    (b"logfile hwm 5", 1, ConfFault::ExtraField),
];

#[test]
fn recycler_cmd_is_refused(rt: HostRuntime) {
    for (text, line, fault) in REFUSED {
        assert_eq!(rt; said(rt.alloc(), SITE, text).err(), refused(line, fault));
    }
    for (text, line, fault) in REFUSED_OF_WORDS {
        assert_eq!(rt;
            said(rt.alloc(), SITE_OF_WORDS, text).err(),
            refused(line, fault)
        );
    }
}
