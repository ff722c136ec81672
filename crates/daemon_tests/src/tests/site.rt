//! site.conf.

use super::{Refused, Said, push_number, refused};
use base::{Bytes, COMMAND_FILE_MAX};
use daemon_cmds::{Library, SiteConf, Volume, read_site};
use site_text::{ConfError, ConfFault};
use std::alloc::{AllocError, Global};
use std::test::Fail;

/// `|NAME DRIVES`.
fn push_library(text: &mut Bytes, alloc: Global, library: &Library) -> Result<(), AllocError> {
    text.push(b'|')?;
    text.extend(library.name.as_slice())?;
    text.push(b' ')?;
    push_number(text, alloc, u64::from(library.drives))
}

/// `|PLACE MEDIA VSN CAPACITY`.
fn push_volume(text: &mut Bytes, alloc: Global, volume: &Volume) -> Result<(), AllocError> {
    text.push(b'|')?;
    push_number(text, alloc, volume.library as u64)?;
    text.extend(volume.media.as_slice())?;
    text.push(b' ')?;
    text.extend(volume.vsn.as_slice())?;
    text.push(b' ')?;
    push_number(text, alloc, volume.capacity)
}

/// `NAME CACHE HIGH LOW`, the libraries and the volumes.
fn push_all(text: &mut Bytes, alloc: Global, site: &SiteConf) -> Result<(), AllocError> {
    text.extend(site.name.as_slice())?;
    text.push(b' ')?;
    push_number(text, alloc, site.cache)?;
    push_number(text, alloc, u64::from(site.high))?;
    push_number(text, alloc, u64::from(site.low))?;
    for library in site.libraries.as_slice() {
        push_library(text, alloc, library)?;
    }
    for volume in site.volumes.as_slice() {
        push_volume(text, alloc, volume)?;
    }
    Ok(())
}

fn shown(alloc: Global, site: &SiteConf) -> Result<Bytes, AllocError> {
    let mut text = Bytes::new(alloc);
    push_all(&mut text, alloc, site)?;
    Ok(text)
}

/// What the reader says of a text, or why it refuses it.
fn said(alloc: Global, text: &[u8]) -> Result<Bytes, ConfError> {
    if text.len() > COMMAND_FILE_MAX {
        return Err(ConfError::NoMemory);
    }
    Ok(shown(alloc, &read_site(alloc, text)?)?)
}

const SAID: [Said; 11] = [
    (b"", b"samfs1 67108864 80 70 "),
    (
        b"# the site\r\nfs=film_1.a\r\n\tcache =256m # in memory\r\n\r\nhigh = 090\r\nlow= 0\r\n",
        b"film_1.a 268435456 90 0 ",
    ),
    (b"low = 95\ncache = 4k", b"samfs1 4096 80 95 "),
    (
        b"library = robot1 2\nlibrary = \\\n vault 64\nvolume = vault li VLT001 8M\nvolume = robot1 s9 D-1 512\n",
        b"samfs1 67108864 80 70 |robot1 2 |vault 64 |1 li VLT001 8388608 |0 s9 D-1 512 ",
    ),
    (
        b"cache = 64G\nhigh = 70\nlow = 70\nlibrary = fs 1\nvolume = fs 99 fs 32T\n",
        b"samfs1 68719476736 70 70 |fs 1 |0 99 fs 35184372088832 ",
    ),
    (
        b"fs = abcdefghijklmnopqrstuvwxyz.-_XYZ\nlow = 0 # it ends here\\\nhigh = 100",
        b"abcdefghijklmnopqrstuvwxyz.-_XYZ 67108864 100 0 ",
    ),
    (
        b"library = a 1\nvolume = a \\\r\nli V 1g",
        b"samfs1 67108864 80 70 |a 1 |0 li V 1073741824 ",
    ),
    (b" \t\n\\\n\nca\\\nche=\\\n8192", b"samfs1 8192 80 70 "),
    (
        b"# caf\xc3\xa9\nlibrary\t=\tr\t2\nlow = 5 # \xe2\x82\xac\nvolume = r\tli\tV \t1M",
        b"samfs1 67108864 80 5 |r 2 |0 li V 1048576 ",
    ),
    (
        b"library = abcdefghijklmnopqrstuvwxyz.-_XYZ 1\nvolume = abcdefghijklmnopqrstuvwxyz.-_XYZ li abcdefghijklmnopqrstuvwxyz.-_XYZ 512",
        b"samfs1 67108864 80 70 |abcdefghijklmnopqrstuvwxyz.-_XYZ 1 |0 li abcdefghijklmnopqrstuvwxyz.-_XYZ 512 ",
    ),
    // the film house
    (
        b"fs = film1\ncache = 64M\nlibrary = robot1 2\nlibrary = vault 1\n\
        volume = robot1 li DAY001 8M\nvolume = robot1 li DAY002 8M\nvolume = robot1 li DAY003 8M\nvolume = robot1 li DAY004 8M\n\
        volume = robot1 li FIN001 8M\nvolume = robot1 li FIN002 8M\nvolume = robot1 li FIN003 8M\nvolume = robot1 li FIN004 8M\n\
        volume = vault li VLT001 8M\nvolume = vault li VLT002 8M\nvolume = vault li VLT003 8M\nvolume = vault li VLT004 8M\n",
        b"film1 67108864 80 70 |robot1 2 |vault 1 \
        |0 li DAY001 8388608 |0 li DAY002 8388608 |0 li DAY003 8388608 |0 li DAY004 8388608 \
        |0 li FIN001 8388608 |0 li FIN002 8388608 |0 li FIN003 8388608 |0 li FIN004 8388608 \
        |1 li VLT001 8388608 |1 li VLT002 8388608 |1 li VLT003 8388608 |1 li VLT004 8388608 ",
    ),
];

#[test]
fn site_conf_says(rt: HostRuntime) -> Result<(), Fail> {
    for (text, want) in SAID {
        assert_eq!(rt; said(rt.alloc(), text)?.as_slice(), want);
    }
    Ok(())
}

/// Lines that are of no form.
const OF_NO_FORM: [Refused; 39] = [
    (b"frob = 1", 1, ConfFault::UnknownDirective),
    (b"fs = a\nfrob", 2, ConfFault::UnknownDirective),
    (b"fs samfs1", 1, ConfFault::UnknownDirective),
    (b"frob =", 1, ConfFault::UnknownDirective),
    (b"FS = a", 1, ConfFault::UnknownDirective),
    (b"frob = a\nfs =", 1, ConfFault::UnknownDirective),
    (b"fs =", 1, ConfFault::MissingField),
    (b"= 5", 1, ConfFault::MissingField),
    (b"\n# c\nlibrary = robot", 3, ConfFault::MissingField),
    (b"volume = ", 1, ConfFault::MissingField),
    (b"library = a 1\nvolume = a li", 2, ConfFault::MissingField),
    (
        b"library = a 1\nvolume = a li V",
        2,
        ConfFault::MissingField,
    ),
    (b"library = \\\n\\\na\nfrob", 1, ConfFault::MissingField),
    (b"fs = a b", 1, ConfFault::ExtraField),
    (b"library = a 1 1", 1, ConfFault::ExtraField),
    (b"high = 50 low = 60", 1, ConfFault::ExtraField),
    (
        b"library = a 1\nvolume = a li V 1M 1M",
        2,
        ConfFault::ExtraField,
    ),
    (b"fs = a+b", 1, ConfFault::BadValue),
    (b"fs = a+b c", 1, ConfFault::BadValue),
    (
        b"fs = abcdefghijklmnopqrstuvwxyz.-_XYZ1",
        1,
        ConfFault::BadValue,
    ),
    (
        b"library = abcdefghijklmnopqrstuvwxyz.-_XYZ1 1",
        1,
        ConfFault::BadValue,
    ),
    (
        b"volume = abcdefghijklmnopqrstuvwxyz.-_XYZ1 li V 1M",
        1,
        ConfFault::BadValue,
    ),
    (
        b"library = a 1\nvolume = a li abcdefghijklmnopqrstuvwxyz.-_XYZ1 1M",
        2,
        ConfFault::BadValue,
    ),
    (b"fs = a\r", 1, ConfFault::BadValue),
    (b"cache = 64Q", 1, ConfFault::BadValue),
    (b"cache = 1024T", 1, ConfFault::BadValue),
    (b"cache = 4KB", 1, ConfFault::BadValue),
    (b"high = x", 1, ConfFault::BadValue),
    (b"high = 1000000000", 1, ConfFault::BadValue),
    (b"high = 50\nlow = 60k", 2, ConfFault::BadValue),
    (b"library = a 1k", 1, ConfFault::BadValue),
    (b"library = a+b 65", 1, ConfFault::BadValue),
    (b"volume = a+b li V 1M", 1, ConfFault::BadValue),
    (b"library = a 1\nvolume = a LI", 2, ConfFault::BadValue),
    (
        b"library = a 1\nvolume = a lib V 1M",
        2,
        ConfFault::BadValue,
    ),
    (
        b"library = a 1\nvolume = a li V/1 1",
        2,
        ConfFault::BadValue,
    ),
    (b"frob\nfs = a\xff", 2, ConfFault::NotText),
    (b"fs = \\\na\\\n", 2, ConfFault::NotText),
    (b"fs = a\\\r\n", 1, ConfFault::NotText),
];

/// Lines that are of their form, and may not stand here or say too much.
const AGAINST_OTHERS: [Refused; 24] = [
    (b"volume = a li V 1M", 1, ConfFault::Conflict),
    (b"volume = a LI V/1 1", 1, ConfFault::Conflict),
    (b"volume = a li V 1M\nlibrary = a 1", 1, ConfFault::Conflict),
    (b"low = 60\nhigh = 50", 2, ConfFault::Conflict),
    (b"high = 50\nlow = 60", 2, ConfFault::Conflict),
    (b"high = 50\nlow = 60 x", 2, ConfFault::Conflict),
    (b"fs = a\ncache = 4k\nfs = a", 3, ConfFault::Duplicate),
    (b"fs = a\nfs =", 2, ConfFault::Duplicate),
    (b"cache = 4k\ncache = 1", 2, ConfFault::Duplicate),
    (b"high = 5\n\nhigh = x y", 3, ConfFault::Duplicate),
    (b"low = 1\nlow = 300", 2, ConfFault::Duplicate),
    (b"library = a 1\nlibrary = a 0", 2, ConfFault::Duplicate),
    (
        b"library = a 1\nvolume = a li V 1M\nvolume = a zz V 1",
        3,
        ConfFault::Duplicate,
    ),
    (b"cache = 0", 1, ConfFault::OutOfRange),
    (b"cache = 6k", 1, ConfFault::OutOfRange),
    (b"cache = 65G", 1, ConfFault::OutOfRange),
    (b"high = 101 x", 1, ConfFault::OutOfRange),
    (b"high = 50\nlow = 101", 2, ConfFault::OutOfRange),
    (b"library = a 0", 1, ConfFault::OutOfRange),
    (b"library = a 65\nfrob", 1, ConfFault::OutOfRange),
    (
        b"library = a 1\nvolume = a li V 0",
        2,
        ConfFault::OutOfRange,
    ),
    (
        b"library = a 1\nvolume = a li V 513",
        2,
        ConfFault::OutOfRange,
    ),
    (
        b"library = a 1\nvolume = a li V 33T",
        2,
        ConfFault::OutOfRange,
    ),
    (
        b"# c\nlow = 50\ncache = 6k\nhigh = 40",
        3,
        ConfFault::OutOfRange,
    ),
];

#[test]
fn site_conf_is_of_no_form(rt: HostRuntime) {
    for (text, line, fault) in OF_NO_FORM {
        assert_eq!(rt; said(rt.alloc(), text).err(), refused(line, fault));
    }
}

#[test]
fn site_conf_is_against_others(rt: HostRuntime) {
    for (text, line, fault) in AGAINST_OTHERS {
        assert_eq!(rt; said(rt.alloc(), text).err(), refused(line, fault));
    }
}
