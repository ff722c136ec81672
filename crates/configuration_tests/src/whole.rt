//! What no clause says: that the calls succeed, and texts made by hand from the forms of the five files.

use base::Bytes;
use configuration::{
    Configuration, ConfigurationError, FileRefusal, are_within, read_configuration, read_texts,
};
use fixtures::{File, folder_of};
use outside::{FolderFault, MemoryFolder};
use site_events::CommandFile;
use site_text::ConfFault;
use site_types::SiteTexts;
use std::alloc::{AllocError, Global};
use std::test::Fail;

// ---- a folder's files

const NAMES: [&[u8]; 5] = [
    b"site.conf",
    b"archiver.cmd",
    b"stager.cmd",
    b"releaser.cmd",
    b"recycler.cmd",
];

/// The text of each file is its own name; one is absent, and the call with this number fails.
fn folder(alloc: Global, absent: &[u8], failing: u64) -> Result<MemoryFolder, AllocError> {
    let mut files: Vec<File<'_>> = Vec::new(alloc);
    for name in NAMES {
        if name != absent {
            files.push((name, name))?;
        }
    }
    folder_of(alloc, &files, &[failing])
}

/// The texts, each behind a `|`.
fn shown(alloc: Global, texts: &SiteTexts) -> Result<Bytes, AllocError> {
    let mut all = Bytes::new(alloc);
    for text in [
        &texts.site,
        &texts.archiver,
        &texts.stager,
        &texts.releaser,
        &texts.recycler,
    ] {
        all.push(b'|')?;
        all.extend(text.as_slice())?;
    }
    Ok(all)
}

/// The file that is absent, and what is read.
const FOLDERS: [(&[u8], &[u8]); 4] = [
    (
        b"none",
        b"|site.conf|archiver.cmd|stager.cmd|releaser.cmd|recycler.cmd",
    ),
    (
        b"site.conf",
        b"||archiver.cmd|stager.cmd|releaser.cmd|recycler.cmd",
    ),
    (
        b"stager.cmd",
        b"|site.conf|archiver.cmd||releaser.cmd|recycler.cmd",
    ),
    (
        b"recycler.cmd",
        b"|site.conf|archiver.cmd|stager.cmd|releaser.cmd|",
    ),
];

#[test]
fn each_file_is_read_under_its_name(rt: HostRuntime) -> Result<(), Fail> {
    for (absent, want) in FOLDERS {
        let mut folder = folder(rt.alloc(), absent, 6)?;
        let texts = read_texts(rt.alloc(), &mut folder)?;
        let all = shown(rt.alloc(), &texts)?;
        assert_eq!(rt; all.as_slice(), want);
        assert_eq!(rt; folder.faults(), 0);
    }
    Ok(())
}

#[test]
fn a_call_that_fails_ends_it(rt: HostRuntime) -> Result<(), Fail> {
    for failing in 1..6 {
        let mut folder = folder(rt.alloc(), b"site.conf", failing)?;
        let fault = read_texts(rt.alloc(), &mut folder).err();
        assert_eq!(rt; fault, Some(FolderFault::Failed));
        assert_eq!(rt; folder.faults(), 1);
    }
    Ok(())
}

#[test]
fn a_long_text_is_cut_one_byte_past_the_most(rt: HostRuntime) -> Result<(), Fail> {
    for (length, want, fits) in [
        (65_536, 65_536, true),
        (65_537, 65_537, false),
        (70_000, 65_537, false),
    ] {
        let text = vec![in rt.alloc(); 35; length]?;
        let mut folder = folder_of(rt.alloc(), &[(b"stager.cmd", &text)], &[])?;
        let texts = read_texts(rt.alloc(), &mut folder)?;
        assert_eq!(rt; texts.stager.len(), want);
        assert_eq!(rt; are_within(&texts), fits);
    }
    Ok(())
}

// ---- what texts say

/// The texts of site.conf, archiver.cmd, stager.cmd, releaser.cmd and recycler.cmd.
type Texts = [&'static [u8]; 5];

fn site_texts(alloc: Global, texts: Texts) -> Result<SiteTexts, AllocError> {
    let [site, archiver, stager, releaser, recycler] = texts;
    Ok(SiteTexts {
        site: Bytes::from_slice(alloc, site)?,
        archiver: Bytes::from_slice(alloc, archiver)?,
        stager: Bytes::from_slice(alloc, stager)?,
        releaser: Bytes::from_slice(alloc, releaser)?,
        recycler: Bytes::from_slice(alloc, recycler)?,
    })
}

fn configuration(alloc: Global, texts: Texts) -> Result<Configuration, ConfigurationError> {
    let Ok(texts) = site_texts(alloc, texts) else {
        return Err(ConfigurationError::NoMemory);
    };
    if !are_within(&texts) {
        return Err(ConfigurationError::NoMemory);
    }
    read_configuration(alloc, &texts)
}

/// The blocks, the volumes, the sets, the drives of the first library, the least residence, and the high mark of the first
/// library; 0 where there is no library.
fn numbers(conf: &Configuration) -> [u64; 6] {
    let drives = conf.stager.drives.as_slice().first().copied();
    let recycling = conf.recycler.libraries.as_slice().first().copied();
    [
        u64::from(conf.blocks()),
        conf.site.volumes.len() as u64,
        conf.archiver.sets.len() as u64,
        u64::from(drives.unwrap_or(0)),
        conf.releaser.min_residence_age,
        u64::from(recycling.map_or(0, |library| library.hwm)),
    ]
}

/// What texts say, in numbers. A configuration is let go in few functions, since each is long to prove.
fn said(alloc: Global, texts: Texts) -> Result<[u64; 6], ConfigurationError> {
    configuration(alloc, texts).map(|conf| numbers(&conf))
}

/// Why texts are refused, if they are.
fn refusal_of(alloc: Global, texts: Texts) -> Option<ConfigurationError> {
    said(alloc, texts).err()
}

/// A cache of 1 MiB, and two volumes of one library with two drives.
const SITE: &[u8] =
    b"cache = 1M\nlibrary = lib 2\nvolume = lib li V1 10M\nvolume = lib li V2 20M\n";

/// Texts, and the numbers of what they say.
const SAID: [(Texts, [u64; 6]); 3] = [
    ([b"", b"", b"", b"", b""], [16_384, 0, 1, 0, 600, 0]),
    ([SITE, b"", b"", b"", b""], [256, 2, 1, 2, 600, 95]),
    (
        [
            SITE,
            b"work .\n1 10m",
            b"drives = lib 1",
            b"fs = samfs1\nmin_residence_age = 5",
            b"lib -hwm 50",
        ],
        [256, 2, 2, 1, 5, 50],
    ),
];

#[test]
fn the_files_say_a_configuration(rt: HostRuntime) {
    for (texts, want) in SAID {
        assert_eq!(rt; said(rt.alloc(), texts), Ok(want));
    }
}

fn refused(file: CommandFile, line: u32, fault: ConfFault) -> Option<ConfigurationError> {
    Some(ConfigurationError::Refused(FileRefusal { file, line, fault }))
}

/// Texts, and which of them is refused at which line, and why.
const REFUSED: [(Texts, CommandFile, u32, ConfFault); 5] = [
    (
        [b"cache = 1", b"", b"", b"", b""],
        CommandFile::Site,
        1,
        ConfFault::OutOfRange,
    ),
    (
        [SITE, b"a .\n1\nset1 work -color red", b"", b"", b""],
        CommandFile::Archiver,
        3,
        ConfFault::UnknownDirective,
    ),
    (
        [SITE, b"", b"\ndrives = tower 1", b"", b""],
        CommandFile::Stager,
        2,
        ConfFault::BadValue,
    ),
    (
        [SITE, b"", b"", b"no_release\nweight_age = 2", b""],
        CommandFile::Releaser,
        2,
        ConfFault::BadValue,
    ),
    (
        [SITE, b"", b"", b"", b"# none\n\ntower -hwm 5"],
        CommandFile::Recycler,
        3,
        ConfFault::UnknownDirective,
    ),
];

#[test]
fn each_file_is_refused(rt: HostRuntime) {
    for (texts, file, line, fault) in REFUSED {
        assert_eq!(rt; refusal_of(rt.alloc(), texts), refused(file, line, fault));
    }
}

/// Texts of which two are wrong, and which of them is told, and its line.
const TWO_WRONG: [(Texts, CommandFile, u32); 4] = [
    (
        [b"\nfrob", b"wait", b"", b"", b"frob"],
        CommandFile::Site,
        2,
    ),
    (
        [b"", b"\n\nwait", b"", b"frob = 1", b""],
        CommandFile::Archiver,
        3,
    ),
    (
        [b"", b"", b"frob = 1", b"frob = 1", b"frob"],
        CommandFile::Stager,
        1,
    ),
    (
        [b"", b"", b"", b"\nfrob = 1", b"frob"],
        CommandFile::Releaser,
        2,
    ),
];

#[test]
fn the_first_of_two_wrong_files_is_told(rt: HostRuntime) {
    for (texts, file, line) in TWO_WRONG {
        assert_eq!(rt;
            refusal_of(rt.alloc(), texts),
            refused(file, line, ConfFault::UnknownDirective)
        );
    }
}
