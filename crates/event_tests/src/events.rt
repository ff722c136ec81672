//! Tests of events over a store in memory.

ghost use Rattle.std.specs.Prelude.{◌≤◌};

use bank::{BankCall, FailAt, MemoryBank};
use base::{Bytes, JOURNAL_SIZE_MAX};
use engine::Engine;
use fixtures::{SMALL_SITE, failing_bank, fresh_bank};
use site_events::{Event, Reply};
use site_types::SiteTexts;
use std::alloc::{AllocError, Global};
use std::process::Abort;
use std::test::Fail;

/// The bytes of a journal.
const JOURNAL: u64 = 262_144;

// An event, and how it is answered.
#[derive(Clone, Copy)]
struct Row<'a> {
    word: &'a str,
    path: &'a str,
    bytes: &'a [u8],
    upto: u32,
    expected: &'a str,
}

impl<'a> Row<'a> {
    fn new(word: &'a str, path: &'a str, bytes: &'a [u8], upto: u32, expected: &'a str) -> Row<'a> {
        Row {
            word,
            path,
            bytes,
            upto,
            expected,
        }
    }
}

// What is left of a store behind events.
#[derive(Drop)]
struct Left {
    bank: MemoryBank,
    steps: u64,
    blocks: u32,
}

// A configuration by this text of site.conf.
fn configuration_of(alloc: Global, site: &[u8]) -> Result<Event, AllocError> {
    let mut texts = SiteTexts::empty(alloc);
    texts.site = Bytes::from_slice(alloc, site)?;
    Ok(Event::Configure { texts })
}

// The event of a row.
fn event_of(alloc: Global, row: &Row<'_>) -> Result<Event, AllocError> {
    let path = Bytes::from_slice(alloc, row.path.as_bytes())?;
    match row.word {
        "put" => Ok(Event::Put {
            path,
            owner: Bytes::from_slice(alloc, b"ann")?,
            group: Bytes::from_slice(alloc, b"lab")?,
            bytes: Bytes::from_slice(alloc, row.bytes)?,
        }),
        "read" => Ok(Event::Read {
            path,
            upto: row.upto,
        }),
        "configure" => configuration_of(alloc, row.bytes),
        _ => Ok(Event::Remove { path }),
    }
}

// A reply as a text.
fn text_of(alloc: Global, reply: &Reply) -> Result<String, AllocError> {
    match reply {
        Reply::Stored { inode, created } => format!(in alloc; "stored {inode} {created}"),
        Reply::Done(inode) => format!(in alloc; "done {inode}"),
        Reply::Bytes(bytes) => format!(in alloc; "bytes {:?}", bytes.as_slice()),
        Reply::Refused(rule) => format!(in alloc; "refused {rule:?}"),
        Reply::JournalFull => String::from_str(alloc, "journal full"),
        Reply::BankFault => String::from_str(alloc, "fault"),
        Reply::NoMemory => String::from_str(alloc, "no memory"),
        _ => String::from_str(alloc, "another"),
    }
}

// That a reply is as expected.
fn expect(rt: &impl Abort, alloc: Global, reply: &Reply, expected: &str) {
    let Ok(text) = text_of(alloc, reply) else {
        panic!(rt; "no memory");
    };
    assert_eq!(rt; text.as_str(), expected);
}

// Reopens a store for these events. The one function that holds an engine: each further one would be long to prove.
fn served(
    rt: &impl Abort,
    alloc: Global,
    bank: MemoryBank,
    journal_bytes: u64,
    rows: &[Row<'_>],
) -> Left
    requires { journal_bytes ≤ JOURNAL_SIZE_MAX }
{
    let Ok(mut engine) = Engine::reopen(alloc, bank, 0u8, journal_bytes) else {
        panic!(rt; "not reopened");
    };
    for row in rows {
        let Ok(event) = event_of(alloc, row) else {
            panic!(rt; "no memory");
        };
        let reply = engine.event(event, 1);
        expect(rt, alloc, &reply, row.expected);
    }
    let steps = engine.steps();
    let blocks = engine.configuration().blocks();
    Left {
        bank: engine.close().0,
        steps,
        blocks,
    }
}

#[test]
fn serves_files_over_reopenings(rt: HostRuntime) -> Result<(), Fail> {
    let rows = [
        Row::new("put", "/a", &[1, 2, 3], 0, "stored 1 true"),
        Row::new("put", "/b", &[], 0, "stored 2 true"),
        Row::new("read", "/a", &[], 9, "bytes [1, 2, 3]"),
        Row::new("put", "/a", &[4, 5], 0, "stored 1 false"),
        Row::new("read", "/a", &[], 1, "bytes [4]"),
        Row::new("read", "/b", &[], 9, "bytes []"),
        Row::new("put", "a", &[1], 0, "refused BadPath"),
        Row::new("remove", "/b", &[], 0, "done 2"),
        Row::new("read", "/b", &[], 9, "refused NoFile"),
        Row::new("put", "/b", &[6], 0, "stored 3 true"),
        Row::new("read", "/b", &[], 9, "bytes [6]"),
    ];
    let mut bank = fresh_bank(rt.alloc())?;
    for row in rows.chunks(1) {
        bank = served(&rt, rt.alloc(), bank, JOURNAL, row).bank;
    }
    Ok(())
}

#[test]
fn goes_on_behind_a_fault(rt: HostRuntime) -> Result<(), Fail> {
    // the area and the call that fails, and what is read of the file then, and how many steps were made
    let rows = [
        (0, BankCall::Write, 1, "refused NoFile", 0),
        (0, BankCall::Sync, 2, "refused NoFile", 0),
        (0, BankCall::Sync, 3, "bytes [8]", 2),
        (1, BankCall::Write, 1, "refused NoFile", 0),
        (1, BankCall::Sync, 1, "refused NoFile", 0),
    ];
    for (area, call, number, expected, steps) in rows {
        let events = [
            Row::new("put", "/a", &[8], 0, "fault"),
            Row::new("read", "/a", &[], 9, expected),
        ];
        let bank = failing_bank(rt.alloc(), &[FailAt { area, call, number }])?;
        let left = served(&rt, rt.alloc(), bank, JOURNAL, &events);
        assert_eq!(rt; left.steps, steps);
    }
    Ok(())
}

// A call on the journal that is to fail, by its kind and number.
fn on_journal((call, number): (BankCall, u64)) -> FailAt {
    FailAt {
        area: 0,
        call,
        number,
    }
}

#[test]
fn a_reopening_that_fails_is_tried_again(rt: HostRuntime) -> Result<(), Fail> {
    // the calls on the journal that fail, one of an append and one of the reopening behind it, and what is read of the file then
    let rows = [
        ((BankCall::Sync, 2), (BankCall::Sync, 3), "refused NoFile"),
        ((BankCall::Sync, 2), (BankCall::Read, 2), "refused NoFile"),
        ((BankCall::Sync, 3), (BankCall::Sync, 4), "bytes [8]"),
        ((BankCall::Sync, 3), (BankCall::Read, 2), "bytes [8]"),
    ];
    for (append, reopening, expected) in rows {
        let events = [
            Row::new("put", "/a", &[8], 0, "fault"),
            Row::new("read", "/a", &[], 9, "fault"),
            Row::new("read", "/a", &[], 9, expected),
        ];
        let bank = failing_bank(rt.alloc(), &[on_journal(append), on_journal(reopening)])?;
        served(&rt, rt.alloc(), bank, JOURNAL, &events);
    }
    Ok(())
}

#[test]
fn the_cache_is_as_configured(rt: HostRuntime) -> Result<(), Fail> {
    let bytes = vec![in rt.alloc(); 0u8; 1_048_577]?;
    let events = [
        Row::new("configure", "/", SMALL_SITE, 0, "done 0"),
        Row::new("put", "/a", &bytes, 0, "refused NoSpace"),
        Row::new("put", "/a", &bytes[1..], 0, "stored 1 true"),
    ];
    let bank = fresh_bank(rt.alloc())?;
    let left = served(&rt, rt.alloc(), bank, JOURNAL, &events);
    assert_eq!(rt; left.blocks, 256);
    Ok(())
}

#[test]
fn a_configuration_needs_room_in_the_journal(rt: HostRuntime) -> Result<(), Fail> {
    let events = [Row::new("configure", "/", SMALL_SITE, 0, "journal full")];
    let bank = fresh_bank(rt.alloc())?;
    let left = served(&rt, rt.alloc(), bank, 64, &events);
    assert_eq!(rt; left.blocks, 16_384);
    Ok(())
}
