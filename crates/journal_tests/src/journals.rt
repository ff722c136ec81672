//! Tests of the journal over a store in memory. The values come from the format.

use bank::{Bank, BankCall, FailAt, MemoryBank};
use base::{JOURNAL_SIZE_MAX, PAYLOAD_MAX};
use fixtures::{failing_bank, fresh_bank};
use journal::{AppendRefusal, Found, Journal, JournalRefusal, Reader};
use std::alloc::{AllocError, Global};
use std::process::Abort;
use std::test::Fail;

// A text with one payload more: the bytes of a short one, the length of another.
fn with_payload(alloc: Global, text: &String, payload: &[u8]) -> Result<String, AllocError> {
    if payload.len() < 8 {
        format!(in alloc; "{text} {payload:?}")
    } else {
        format!(in alloc; "{text} {}", payload.len())
    }
}

// What a reading of all records in so many bytes answers.
fn reopened(
    rt: &impl Abort,
    alloc: Global,
    bank: &mut MemoryBank,
    size: u64,
) -> Result<String, AllocError> {
    assert!(rt; size <= JOURNAL_SIZE_MAX);
    let mut reader = match Reader::open(alloc, bank, size) {
        Ok(reader) => reader,
        Err(JournalRefusal::BankFault) => return String::from_str(alloc, "fault"),
        Err(JournalRefusal::NoMemory) => return String::from_str(alloc, "no memory"),
    };
    let mut records = String::new(alloc);
    for _ in 0..100 {
        match reader.advance(bank) {
            Ok(Found::Record) => records = with_payload(alloc, &records, reader.payload())?,
            Ok(Found::End) => return format!(in alloc; "ok{records}"),
            Ok(Found::BadLength) => return format!(in alloc; "bad {}{records}", reader.place()),
            Err(_) => return String::from_str(alloc, "fault"),
        }
    }
    String::from_str(alloc, "no end")
}

// The journal behind all records in so many bytes.
fn journal_of(rt: &impl Abort, alloc: Global, bank: &mut MemoryBank, size: u64) -> Option<Journal> {
    assert!(rt; size <= JOURNAL_SIZE_MAX);
    let mut reader = Reader::open(alloc, bank, size).ok()?;
    for _ in 0..100 {
        match reader.advance(bank) {
            Ok(Found::Record) => {}
            Ok(Found::End) => return Some(reader.into_journal()),
            _ => return None,
        }
    }
    None
}

// What appending so many bytes answers.
fn appended(
    rt: &impl Abort,
    alloc: Global,
    journal: &mut Journal,
    bank: &mut MemoryBank,
    length: usize,
) -> Result<Result<u64, AppendRefusal>, AllocError> {
    assert!(rt; length > 0 && length <= PAYLOAD_MAX as usize);
    let payload = vec![in alloc; 7u8; length]?;
    Ok(journal.append(bank, &payload))
}

// How many calls of a kind were made.
fn made(bank: &MemoryBank, kind: BankCall) -> usize {
    bank.calls().iter().filter(|c| c.kind == kind).count()
}

#[test]
fn reads_what_the_format_says(rt: HostRuntime) -> Result<(), Fail> {
    let rows: [(&[u8], u64, &str); 11] = [
        (&[], 64, "ok"),
        (&[2, 1, 0, 0, 0, 7], 64, "ok"),
        (
            &[1, 5, 0, 0, 0, 255, 0, 0, 0, 0],
            268435456,
            "ok [255, 0, 0, 0, 0]",
        ),
        (
            &[1, 1, 0, 0, 0, 7, 1, 2, 0, 0, 0, 8, 9],
            64,
            "ok [7] [8, 9]",
        ),
        (&[1, 1, 0, 0, 0, 7], 6, "ok [7]"),
        (&[1, 1, 0, 0, 0, 7, 1, 1, 0, 0, 0, 7], 6, "ok [7]"),
        (&[1, 1, 0, 0, 0, 7], 5, "bad 0"),
        (&[1], 64, "bad 0"),
        (&[1, 1, 0, 16, 0], 268435456, "bad 0"),
        (&[1, 1, 0, 0, 0, 7, 1, 0, 0, 0, 0], 64, "bad 6 [7]"),
        (&[1, 1, 0, 0, 0, 7, 1, 54, 0, 0, 0], 64, "bad 6 [7]"),
    ];
    for (bytes, size, expected) in rows {
        let mut bank = fresh_bank(rt.alloc())?;
        assert!(rt; bytes.len() < 100);
        bank.write(0, 0, bytes)?;
        let answer = reopened(&rt, rt.alloc(), &mut bank, size)?;
        assert_eq!(rt; answer.as_str(), expected);
    }
    Ok(())
}

#[test]
fn appends_until_it_is_full(rt: HostRuntime) -> Result<(), Fail> {
    // the size, the lengths of three payloads, the number of the last record, and how many writes were made
    let rows: [(u64, [usize; 3], u64, usize, &str); 5] = [
        (16, [10, 1, 1], 1, 2, "ok 10"),
        (21, [10, 1, 2], 1, 2, "ok 10"),
        (22, [10, 1, 2], 2, 4, "ok 10 [7]"),
        (64, [10, 43, 1], 2, 4, "ok 10 43"),
        (20000, [4096, 4097, 5], 3, 8, "ok 4096 4097 [7, 7, 7, 7, 7]"),
    ];
    for (size, lengths, last, writes, expected) in rows {
        let mut bank = fresh_bank(rt.alloc())?;
        let Some(mut journal) = journal_of(&rt, rt.alloc(), &mut bank, size) else {
            panic!(rt; "not reopened");
        };
        let mut number = 0;
        for length in lengths {
            match appended(&rt, rt.alloc(), &mut journal, &mut bank, length)? {
                Ok(n) => number = n,
                Err(e) => assert_eq!(rt; e, AppendRefusal::JournalFull),
            }
        }
        assert_eq!(rt; number, last, "of {size}");
        assert_eq!(rt; made(&bank, BankCall::Write), writes, "of {size}");
        let answer = reopened(&rt, rt.alloc(), &mut bank, size)?;
        assert_eq!(rt; answer.as_str(), expected);
    }
    Ok(())
}

#[test]
fn fails_with_the_store(rt: HostRuntime) -> Result<(), Fail> {
    // the call that fails, whether it fails the reopening, and what the next reopening reads
    let rows = [
        (BankCall::Sync, 1, true, "ok"),
        (BankCall::Read, 1, true, "ok"),
        (BankCall::Write, 1, false, "ok"),
        (BankCall::Sync, 2, false, "ok"),
        (BankCall::Write, 2, false, "ok"),
        (BankCall::Sync, 3, false, "ok [7, 7]"),
    ];
    for (call, number, at_once, expected) in rows {
        let fail = [FailAt {
            area: 0,
            call,
            number,
        }];
        let mut bank = failing_bank(rt.alloc(), &fail)?;
        match journal_of(&rt, rt.alloc(), &mut bank, 64) {
            Some(mut journal) => {
                let answer = appended(&rt, rt.alloc(), &mut journal, &mut bank, 2)?;
                assert_eq!(rt; answer, Err(AppendRefusal::BankFault));
                assert!(rt; !at_once);
            }
            None => assert!(rt; at_once),
        }
        let answer = reopened(&rt, rt.alloc(), &mut bank, 64)?;
        assert_eq!(rt; answer.as_str(), expected);
    }
    Ok(())
}

#[test]
fn reads_in_large_pieces(rt: HostRuntime) -> Result<(), Fail> {
    let mut bank = fresh_bank(rt.alloc())?;
    let Some(mut journal) = journal_of(&rt, rt.alloc(), &mut bank, 4_000_000) else {
        panic!(rt; "not reopened");
    };
    for _ in 0..12 {
        let answer = appended(&rt, rt.alloc(), &mut journal, &mut bank, 200_000)?;
        assert!(rt; answer.is_ok());
    }
    let before = made(&bank, BankCall::Read);
    let answer = reopened(&rt, rt.alloc(), &mut bank, 4_000_000)?;
    assert_eq!(rt; answer.len(), 2 + 12 * 7);
    assert_eq!(rt; made(&bank, BankCall::Read).checked_sub(before), Some(3));
    Ok(())
}
