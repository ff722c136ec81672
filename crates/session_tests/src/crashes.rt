//! What is left of a site after a crash at each instant, and after each call of the store failed once.

use crate::left::{CHANGES, Change, READS, read_after};
use crate::scripts::{Case, Left, plain, run};
use bank::{Bank, BankCall, FailAt, MemoryBank};
use base::Bytes;
use fixtures::{File, failing_bank, fresh_bank};
use session::Mark;
use std::alloc::Global;
use std::process::Abort;
use std::test::Fail;

/// The command files: a cache of four blocks.
const FILES: [File<'static>; 1] = [(b"site.conf", b"cache = 16K\n")];

/// No call has so high a number.
const CALLS: u64 = 22;

// Runs a text over a store and a folder of these files.
fn run_text(
    alloc: Global,
    bank: MemoryBank,
    files: &[File<'_>],
    text: &[u8],
) -> Result<Left, Fail> {
    let case = Case {
        pieces: [50, 50],
        ..plain(text, b"", &[])
    };
    run(alloc, bank, files, case)
}

// All lines that change a site.
fn all_changes(alloc: Global) -> Result<Vec<u8>, Fail> {
    let mut text = Vec::new(alloc);
    for (line, _) in CHANGES {
        text.extend_from_slice(line)?;
    }
    Ok(text)
}

// What the first of them leave, for each count of them, from 0.
fn reads_of_prefixes(alloc: Global) -> Result<Vec<Vec<u8>>, Fail> {
    let mut reads = Vec::new(alloc);
    let mut made = Vec::new(alloc);
    reads.push(read_after(alloc, &made)?)?;
    for (_, change) in CHANGES {
        made.push(change)?;
        reads.push(read_after(alloc, &made)?)?;
    }
    Ok(reads)
}

// Reads what a store holds. No command file is there any more.
fn read_again(alloc: Global, bank: MemoryBank) -> Result<Bytes, Fail> {
    Ok(run_text(alloc, bank, &[], READS)?.written)
}

// Reads what a crash left.
fn read_back(alloc: Global, bank: &MemoryBank, instant: u64, pick: u8) -> Result<Bytes, Fail> {
    read_again(alloc, bank.crashed(instant, pick)?)
}

// How many lines were answered by an instant.
fn answered(marks: &[Mark], instant: u64) -> usize {
    marks.iter().filter(|mark| mark.instant <= instant).count()
}

// A crash at an instant leaves what was answered by then, and at most one line more.
fn crash_at(
    rt: &impl Abort,
    alloc: Global,
    left: &Left,
    reads: &[Vec<u8>],
    instant: u64,
) -> Result<(), Fail> {
    let told = answered(left.marks.as_slice(), instant);
    for pick in 0..3 {
        let read = read_back(alloc, &left.bank, instant, pick)?;
        let mut near = reads.iter().skip(told).take(2);
        let is_near = near.any(|left| left.as_slice() == read.as_slice());
        assert!(rt; is_near);
    }
    Ok(())
}

#[test]
fn a_crash_at_each_instant_leaves_what_was_answered(rt: HostRuntime) -> Result<(), Fail> {
    let alloc = rt.alloc();
    let all = all_changes(alloc)?;
    let left = run_text(alloc, fresh_bank(alloc)?, &FILES, &all)?;
    assert_eq!(rt; left.marks.len(), CHANGES.len());
    let reads = reads_of_prefixes(alloc)?;
    for instant in 0..=left.bank.instant() {
        crash_at(&rt, alloc, &left, &reads, instant)?;
    }
    Ok(())
}

// What the lines changed whose answer is `ok`.
fn acknowledged(alloc: Global, answers: &[u8]) -> Result<Vec<Change>, Fail> {
    let mut made = Vec::new(alloc);
    for ((_, change), answer) in CHANGES.iter().zip(answers.split(|byte| *byte == b'\n')) {
        if answer.starts_with(b"ok") {
            made.push(*change)?;
        }
    }
    Ok(made)
}

// Runs all lines over a store of which this call fails.
fn failing_run(alloc: Global, area: u32, call: BankCall, number: u64) -> Result<Left, Fail> {
    let bank = failing_bank(alloc, &[FailAt { area, call, number }])?;
    run_text(alloc, bank, &FILES, &all_changes(alloc)?)
}

// What was acknowledged is there; the line at whose end the journal failed may be, and then all lines went well.
fn is_kept(rt: &impl Abort, alloc: Global, left: &Left, all: &[u8]) -> Result<(), Fail> {
    let read = read_back(alloc, &left.bank, left.bank.instant(), 1)?;
    if read.as_slice() == all {
        return Ok(());
    }
    let kept = acknowledged(alloc, left.written.as_slice())?;
    let expected = read_after(alloc, &kept)?;
    assert!(rt; expected.as_slice() == read.as_slice());
    Ok(())
}

// What all lines leave.
fn read_of_all(alloc: Global) -> Result<Vec<u8>, Fail> {
    let mut made = Vec::new(alloc);
    for (_, change) in CHANGES {
        made.push(change)?;
    }
    read_after(alloc, &made)
}

// So it is after each call of an area failed.
fn each_is_kept(rt: &impl Abort, alloc: Global, area: u32) -> Result<(), Fail> {
    let all = read_of_all(alloc)?;
    for call in [BankCall::Read, BankCall::Write, BankCall::Sync] {
        for number in 1..CALLS {
            let left = failing_run(alloc, area, call, number)?;
            is_kept(rt, alloc, &left, &all)?;
        }
    }
    Ok(())
}

#[test]
fn each_call_of_the_journal_that_fails_leaves_what_was_acknowledged(
    rt: HostRuntime,
) -> Result<(), Fail> {
    each_is_kept(&rt, rt.alloc(), 0)
}

#[test]
fn each_call_of_the_cache_that_fails_leaves_what_was_acknowledged(
    rt: HostRuntime,
) -> Result<(), Fail> {
    each_is_kept(&rt, rt.alloc(), 1)
}

#[test]
fn no_call_has_so_high_a_number(rt: HostRuntime) -> Result<(), Fail> {
    let alloc = rt.alloc();
    for area in 0..2 {
        for call in [BankCall::Read, BankCall::Write, BankCall::Sync] {
            let left = failing_run(alloc, area, call, CALLS)?;
            let kept = acknowledged(alloc, left.written.as_slice())?;
            assert_eq!(rt; kept.len(), CHANGES.len());
        }
    }
    Ok(())
}

#[test]
fn a_reopened_site_has_the_cache_that_it_was_configured_with(rt: HostRuntime) -> Result<(), Fail> {
    let alloc = rt.alloc();
    let table: [(&[u8], &[Change]); 2] = [
        (b"configure\n", &[Change::Small]),
        (
            b"configure\nput /a u g hi\n",
            &[Change::Small, Change::A(b"hi")],
        ),
    ];
    for (lines, made) in table {
        let left = run_text(alloc, fresh_bank(alloc)?, &FILES, lines)?;
        let read = read_again(alloc, left.bank)?;
        let expected = read_after(alloc, made)?;
        assert!(rt; expected.as_slice() == read.as_slice());
    }
    Ok(())
}

#[test]
fn a_reopening_that_fails_is_tried_again(rt: HostRuntime) -> Result<(), Fail> {
    let alloc = rt.alloc();
    // Opening syncs the journal once; a record is synced before its gate and behind it.
    let fail = [
        FailAt {
            area: 0,
            call: BankCall::Sync,
            number: 3,
        },
        FailAt {
            area: 0,
            call: BankCall::Sync,
            number: 4,
        },
    ];
    let bank = failing_bank(alloc, &fail)?;
    let lines = b"put /a u g hi\nput /b u g yo\nput /b u g ho\ncat /a\n";
    let left = run_text(alloc, bank, &[], lines)?;
    let answers: &[u8] = b"fault: bank\nfault: bank\nok 2\nbytes 2\nhi\n";
    assert!(rt; left.written.as_slice() == answers);
    Ok(())
}
