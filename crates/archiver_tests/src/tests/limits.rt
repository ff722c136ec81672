//! How many lines, sets and expressions there may be, and how long a path.

use super::{Refusal, refusal};
use base::Bytes;
use site_text::ConfFault;
use std::alloc::{AllocError, Global};
use std::test::Fail;

/// A text that has a part so many times, between two others.
fn repeated(
    alloc: Global,
    front: &[u8],
    part: &[u8],
    times: u32,
    end: &[u8],
) -> Result<Bytes, AllocError> {
    let mut text = Bytes::from_slice(alloc, front)?;
    for _ in 0..times {
        text.extend(part)?;
    }
    text.extend(end)?;
    Ok(text)
}

/// The front of a text, a part and how often it stands behind, the end, and the refusal if there is one.
type Repeated = (&'static [u8], &'static [u8], u32, &'static [u8], Refusal);

const LINES: [Repeated; 5] = [
    (b"", b"a .\n", 64, b"", None),
    (b"", b"a .\n", 65, b"", Some((65, ConfFault::TooMany))),
    (
        b"",
        b"a .\n",
        64,
        b"allsets",
        Some((65, ConfFault::TooMany)),
    ),
    (b"", b"a .\n", 64, b"a-b .", Some((65, ConfFault::BadValue))),
    (
        b"",
        b"a .\n",
        63,
        b"fs = f\n1\nallsets .",
        Some((66, ConfFault::Conflict)),
    ),
];

const EXPRESSIONS: [Repeated; 6] = [
    (b"vsns\nallsets li", b" x", 256, b"\nendvsns", None),
    (
        b"vsns\nallsets li",
        b" x",
        257,
        b"\nendvsns",
        Some((2, ConfFault::TooMany)),
    ),
    (
        b"vsns\nallsets li",
        b" x",
        256,
        b"\nendvsns\nvsns\nallsets.1 lt y\nendvsns",
        Some((5, ConfFault::TooMany)),
    ),
    (
        b"vsnpools\np li",
        b" x",
        128,
        b"\nendvsnpools\nvsns\nallsets li -pool p\nallsets.1 li -pool p\nallsets lt -pool p\nendvsns",
        None,
    ),
    (
        b"vsnpools\np li",
        b" x",
        128,
        b"\nendvsnpools\nvsns\nallsets li -pool p -pool p\nallsets.1 li y\nendvsns",
        Some((6, ConfFault::TooMany)),
    ),
    (
        b"vsnpools\np li",
        b" x",
        300,
        b"\nendvsnpools\nvsns\nallsets lt -pool p -pool p x\nendvsns",
        None,
    ),
];

/// Lines with another fault, which comes first at a name, and behind it only where there is room.
const AROUND_THE_ROOM: [Repeated; 12] = [
    (
        b"vsns\nallsets.5 li",
        b" x",
        257,
        b"",
        Some((2, ConfFault::BadValue)),
    ),
    (
        b"vsns\nb.1 li",
        b" x",
        257,
        b"",
        Some((2, ConfFault::UnknownSet)),
    ),
    (
        b"vsns\nallsets LI",
        b" x",
        257,
        b"",
        Some((2, ConfFault::TooMany)),
    ),
    (
        b"vsns\nallsets LI",
        b" x",
        256,
        b"",
        Some((2, ConfFault::BadValue)),
    ),
    (
        b"vsns\nallsets li -pool q",
        b" x",
        257,
        b"",
        Some((2, ConfFault::TooMany)),
    ),
    (
        b"vsns\nallsets li",
        b" x",
        256,
        b" -pool q",
        Some((2, ConfFault::UnknownPool)),
    ),
    (
        b"vsns\nallsets li",
        b" x",
        257,
        b" -pool",
        Some((2, ConfFault::TooMany)),
    ),
    (
        b"vsns\nallsets li",
        b" x",
        256,
        b" -pool",
        Some((2, ConfFault::MissingField)),
    ),
    (
        b"vsns\nallsets li",
        b" x",
        256,
        b"\nallsets",
        Some((3, ConfFault::MissingField)),
    ),
    (
        b"vsnpools\np li",
        b" x",
        300,
        b"\nendvsnpools\nvsns\nallsets li -pool p -pool q",
        Some((5, ConfFault::TooMany)),
    ),
    (
        b"vsnpools\np li",
        b" x",
        300,
        b"\nendvsnpools\nvsns\nallsets lt -pool p -pool q",
        Some((5, ConfFault::UnknownPool)),
    ),
    (
        b"vsnpools\np li",
        b" x",
        300,
        b"\nendvsnpools\nvsns\nallsets LI -pool p",
        Some((5, ConfFault::BadValue)),
    ),
];

const PATHS: [Repeated; 3] = [
    (b"a ", b"x", 1023, b"", None),
    (b"a ", b"x", 1024, b"", Some((1, ConfFault::BadValue))),
    (
        b"a ",
        b"x/",
        511,
        b"y -frob",
        Some((1, ConfFault::UnknownDirective)),
    ),
];

#[test]
fn counts_lines(rt: HostRuntime) -> Result<(), Fail> {
    for (front, part, times, end, want) in LINES {
        let text = repeated(rt.alloc(), front, part, times, end)?;
        assert_eq!(rt; refusal(rt.alloc(), text.as_slice())?, want);
    }
    Ok(())
}

#[test]
fn counts_expressions(rt: HostRuntime) -> Result<(), Fail> {
    for (front, part, times, end, want) in EXPRESSIONS {
        let text = repeated(rt.alloc(), front, part, times, end)?;
        assert_eq!(rt; refusal(rt.alloc(), text.as_slice())?, want);
    }
    Ok(())
}

#[test]
fn tells_the_first_fault_around_the_room(rt: HostRuntime) -> Result<(), Fail> {
    for (front, part, times, end, want) in AROUND_THE_ROOM {
        let text = repeated(rt.alloc(), front, part, times, end)?;
        assert_eq!(rt; refusal(rt.alloc(), text.as_slice())?, want);
    }
    Ok(())
}

#[test]
fn measures_paths(rt: HostRuntime) -> Result<(), Fail> {
    for (front, part, times, end, want) in PATHS {
        let text = repeated(rt.alloc(), front, part, times, end)?;
        assert_eq!(rt; refusal(rt.alloc(), text.as_slice())?, want);
    }
    Ok(())
}

/// Parts of so many file systems, each with a copy line, and then this.
fn with_parts(alloc: Global, parts: u32, end: &[u8]) -> Result<Bytes, AllocError> {
    let mut text = Bytes::new(alloc);
    for part in 0..parts {
        let lines = format!(in alloc; "fs = f{part}\n1\n")?;
        text.extend(lines.as_bytes())?;
    }
    text.extend(end)?;
    Ok(text)
}

/// How many file systems have parts, the end behind them, and the refusal if there is one.
const SETS: [(u32, &[u8], Refusal); 11] = [
    (64, b"", None),
    (64, b"f3 .\n2\nfs = f60\n2\nfs = g", None),
    (64, b"b", Some((129, ConfFault::TooMany))),
    (64, b"allsets", Some((129, ConfFault::TooMany))),
    (64, b"fs = g\n5", Some((130, ConfFault::TooMany))),
    (64, b"fs = samfs1\n1", Some((130, ConfFault::TooMany))),
    (64, b"fs = no_archive\n1", Some((130, ConfFault::TooMany))),
    (63, b"fs = no_archive\n1", Some((128, ConfFault::Conflict))),
    (64, b"no_archive tmp", Some((129, ConfFault::TooMany))),
    (63, b"no_archive tmp\nno_archive x", None),
    (63, b"no_archive tmp\nb .", Some((128, ConfFault::TooMany))),
];

#[test]
fn counts_sets(rt: HostRuntime) -> Result<(), Fail> {
    for (parts, end, want) in SETS {
        let text = with_parts(rt.alloc(), parts, end)?;
        assert_eq!(rt; refusal(rt.alloc(), text.as_slice())?, want);
    }
    Ok(())
}
