//! Lines and answers written out by hand.

use base::{Bytes, List};
use desk::{is_skipped, read_line, write_reply};
use site_events::{
    Asked, CommandFile, Daemon, Event, FileRow, FileState, IdleCause, LineRefusal, Reply, Rule,
    SetRow, SummaryRow, VolumeRow, Vsn,
};
use site_text::ConfFault;
use std::alloc::{AllocError, Global};

fn writes(alloc: Global, reply: &Reply, wanted: &[u8]) -> bool {
    match write_reply(alloc, reply) {
        Ok(text) => text.as_slice() == wanted,
        Err(_) => false,
    }
}

#[test]
fn short_answers(rt: HostRuntime) {
    let mut vsn = Vsn {
        bytes: [0; 32],
        length: 2,
    };
    vsn.bytes[0] = b'V';
    vsn.bytes[1] = b'1';
    let table = [
        (
            Reply::Stored {
                inode: 1,
                created: true,
            },
            b"ok 1\n".as_slice(),
        ),
        (Reply::Done(0), b"ok 0\n"),
        (Reply::At(1099511627775), b"at 1099511627775\n"),
        (Reply::Unarchived { inode: 7, copy: 2 }, b"unarchived 7 2\n"),
        (Reply::StageFailed(9), b"stage failed 9\n"),
        (Reply::Marked(vsn), b"marked V1\n"),
        (Reply::Relabelled { vsn, label: 2 }, b"relabelled V1 2\n"),
        (Reply::Idle(IdleCause::BelowMark), b"idle: below the mark\n"),
    ];
    for (reply, wanted) in &table {
        assert!(rt; writes(rt.alloc(), reply, wanted));
    }
}

#[test]
fn refusals_and_faults(rt: HostRuntime) {
    let table = [
        (
            Reply::Refused(Rule::VolumeNotAllowed),
            b"refused: volume not allowed\n".as_slice(),
        ),
        (
            Reply::Claimed {
                daemon: Daemon::Archiver,
                job: 1,
            },
            b"refused: claimed by archiver job 1\n",
        ),
        (
            Reply::ConfRefused {
                file: CommandFile::Recycler,
                line: 12,
                fault: ConfFault::CopyBeforeSet,
            },
            b"refused: recycler.cmd line 12: copy before set\n",
        ),
        (
            Reply::PatternRefused {
                file: CommandFile::Archiver,
                line: 3,
            },
            b"refused: archiver.cmd line 3: pattern refused\n",
        ),
        (
            Reply::Line(LineRefusal::BadWord(2)),
            b"refused: bad word 2\n",
        ),
        (Reply::JournalFull, b"refused: journal full\n"),
        (Reply::FolderFault, b"fault: folder\n"),
        (Reply::BadJournal(0), b"bad journal at 0\n"),
        (Reply::NoMemory, b"no memory\n"),
    ];
    for (reply, wanted) in &table {
        assert!(rt; writes(rt.alloc(), reply, wanted));
    }
}

fn bytes(alloc: Global, text: &[u8]) -> Result<Bytes, AllocError> {
    Bytes::from_slice(alloc, text)
}

fn file_row(alloc: Global) -> Result<FileRow, AllocError> {
    Ok(FileRow {
        inode: 1,
        length: 0,
        state: FileState::Online,
        copies: *b"1---",
        owner: bytes(alloc, b"u")?,
        group: bytes(alloc, b"g")?,
        path: bytes(alloc, b"/e")?,
    })
}

fn volume_row(alloc: Global) -> Result<VolumeRow, AllocError> {
    Ok(VolumeRow {
        library: bytes(alloc, b"lib")?,
        media: bytes(alloc, b"li")?,
        vsn: bytes(alloc, b"V1")?,
        label: 1,
        capacity: 1048576,
        used: 512,
        current: 0,
        readonly: true,
        unavailable: false,
        recycling: true,
        key: Bytes::new(alloc),
    })
}

fn set_row(alloc: Global) -> Result<SetRow, AllocError> {
    Ok(SetRow {
        set: bytes(alloc, b"docs")?,
        copy: 1,
        due: 0,
        started: false,
    })
}

const SUMMARY: SummaryRow = SummaryRow {
    files: 1,
    bytes: 1403,
    online: 1,
    copies: 2,
    stale: 0,
    damaged: 0,
    cache_used: 1,
    cache_blocks: 65536,
    volumes: 2,
    used: 4096,
    current: 4096,
    queue: 0,
    jobs: 0,
    moment: 3600,
};

fn reports(alloc: Global) -> Result<[Reply; 6], AllocError> {
    let mut files = List::new(alloc);
    files.push(file_row(alloc)?)?;
    let mut volumes = List::new(alloc);
    volumes.push(volume_row(alloc)?)?;
    let mut sets = List::new(alloc);
    sets.push(set_row(alloc)?)?;
    Ok([
        Reply::Files(files),
        Reply::Volumes(volumes),
        Reply::Sets(sets),
        Reply::Queue(List::new(alloc)),
        Reply::Bytes(bytes(alloc, b"x")?),
        Reply::Summary(SUMMARY),
    ])
}

#[test]
fn long_answers(rt: HostRuntime) -> Result<(), AllocError> {
    let table = [
        b"files 1\n1 0 online 1--- u g /e\n".as_slice(),
        b"volumes 1\nlib li V1 1 1048576 512 0 R-c -\n",
        b"sets 1\ndocs.1 due 0 started no\n",
        b"queue 0\n",
        b"bytes 1\nx\n",
        b"files 1 bytes 1403 online 1\ncopies 2 stale 0 damaged 0\ncache used 1 of 65536 blocks\nvolumes 2 used 4096 current 4096\nqueue 0 jobs 0\nmoment 3600\n",
    ];
    let reports = reports(rt.alloc())?;
    for (reply, wanted) in reports.iter().zip(table) {
        assert!(rt; writes(rt.alloc(), reply, wanted));
    }
    Ok(())
}

fn is_put(asked: &Asked, text: &[u8]) -> bool {
    match asked {
        Asked::One(
            Event::Put {
                path,
                owner,
                group,
                bytes,
            },
        ) => {
            path.as_slice() == b"/a".as_slice()
                && owner.as_slice() == b"u".as_slice()
                && group.as_slice() == b"g".as_slice()
                && bytes.as_slice() == text
        }
        _ => false,
    }
}

#[test]
fn puts_are_read(rt: HostRuntime) {
    let table = [
        (b"put /a u g hi".as_slice(), b"hi".as_slice()),
        (b" put\t/a  u g  hi ", b" hi "),
        (b"put /a u g", b""),
        (b"put /a u g ", b""),
        (b"put /a u g\t\tx", b"\tx"),
    ];
    for (line, text) in table {
        match read_line(rt.alloc(), line) {
            Ok(asked) => assert!(rt; is_put(&asked, text)),
            Err(_) => assert!(rt; false),
        }
    }
}

fn refused_word(alloc: Global, line: &[u8]) -> u32 {
    match read_line(alloc, line) {
        Err(LineRefusal::NotACommand) => 1,
        Err(LineRefusal::BadWord(number)) => number,
        _ => 0,
    }
}

#[test]
fn refused_lines(rt: HostRuntime) {
    let table = [
        (b"frob".as_slice(), 1),
        (b"Put /a u g", 1),
        (b"rm", 2),
        (b"rm /a /b", 3),
        (b"put /a u", 4),
        (b"at 1099511627776", 2),
        (b"at 000000000000000000001", 2),
        (b"at 5s", 2),
        (b"head /a 16777217", 3),
        (b"make /a u g 1024T 1", 5),
        (b"make /a u g 8kk 1", 5),
        (b"make /a u g 8 1234567890", 6),
        (b"make /a u g 8 1 x", 7),
        (b"configure now", 2),
    ];
    for (line, number) in table {
        assert!(rt; refused_word(rt.alloc(), line) == number);
    }
}

#[test]
fn skipped_lines(rt: HostRuntime) {
    for line in [b"".as_slice(), b" \t", b"#", b"# put /a u g"] {
        assert!(rt; is_skipped(line));
    }
    assert!(rt; !is_skipped(b" # x"));
    let long = [b' '; 4097];
    assert!(rt; !is_skipped(&long));
    let refused = matches!(read_line(rt.alloc(), &long), Err(LineRefusal::LineTooLong));
    assert!(rt; refused);
}

fn asks_moment(alloc: Global, line: &[u8], moment: u64) -> bool {
    match read_line(alloc, line) {
        Ok(Asked::At(at)) => at == moment,
        _ => false,
    }
}

fn asks_read(alloc: Global, line: &[u8], path: &[u8], most: u32) -> bool {
    match read_line(alloc, line) {
        Ok(Asked::One(Event::Read { path: of, upto })) => of.as_slice() == path && upto == most,
        _ => false,
    }
}

fn asks_removal(alloc: Global, line: &[u8], path: &[u8]) -> bool {
    match read_line(alloc, line) {
        Ok(Asked::One(Event::Remove { path: of })) => of.as_slice() == path,
        _ => false,
    }
}

fn asks_made(alloc: Global, line: &[u8], wanted: &[u8]) -> bool {
    match read_line(alloc, line) {
        Ok(Asked::One(Event::Put { bytes, .. })) => bytes.as_slice() == wanted,
        _ => false,
    }
}

#[test]
fn other_lines(rt: HostRuntime) {
    let alloc = rt.alloc();
    assert!(rt; asks_moment(alloc, b"at 00000001099511627775", 1099511627775));
    assert!(rt; asks_read(alloc, b" cat  /a ", b"/a", 16777216));
    assert!(rt; asks_read(alloc, b"head /a 0", b"/a", 0));
    assert!(rt; asks_removal(alloc, b"rm\t/a", b"/a"));
    assert!(rt; asks_made(alloc, b"make /a u g 3 254", &[254, 255, 0]));
    assert!(rt; asks_made(alloc, b"make /a u g 0k 7", b""));
    let configures = matches!(read_line(alloc, b"configure"), Ok(Asked::Configure));
    assert!(rt; configures);
}
