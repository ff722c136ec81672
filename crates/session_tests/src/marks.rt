//! What runs answer, and what the marks beside their answers count.

use crate::scripts::{Case, expect_over, plain, run};
use bank::{Bank, BankCall, FailAt, MemoryBank};
use fixtures::{failing_bank, folder_of, fresh_bank};
use session::Mark;
use std::alloc::Global;
use std::process::Abort;
use std::test::Fail;

// A store that fails one call.
fn failing(alloc: Global, area: u32, call: BankCall, number: u64) -> Result<MemoryBank, Fail> {
    Ok(failing_bank(alloc, &[FailAt { area, call, number }])?)
}

// The same over a folder without a file.
fn expect(
    rt: &impl Abort,
    alloc: Global,
    bank: MemoryBank,
    case: Case<'_>,
) -> Result<MemoryBank, Fail> {
    expect_over(rt, alloc, bank, &mut folder_of(alloc, &[], &[])?, case)
}

#[test]
fn the_first_put_and_an_empty_input(rt: HostRuntime) -> Result<(), Fail> {
    let alloc = rt.alloc();
    let put = plain(b"put /a u g hi", b"ok 1\n", &[1]);
    expect(&rt, alloc, fresh_bank(alloc)?, put)?;
    let bank = expect(&rt, alloc, fresh_bank(alloc)?, plain(b"", b"", &[]))?;
    assert!(rt; bank.calls().iter().all(|call| call.kind != BankCall::Write));
    Ok(())
}

const LINES: &[u8] =
    b"put /a u g hi\r\n# skipped\n \t\nput /a u g again\nput a u g x\nput //b u g x\nput /./b u g x\nput /b/.. u g x\nput /b/ u g x\nput /\x01 u g x\nput /\xff u g x\nput /b u/v g x\nput /b u g%h x\nput /b u\nfrob\nrm\nrm /none\nconfigure\n put \t/b u g  two \n";

const ANSWERS: &[u8] =
    b"ok 1\nok 1\nrefused: bad path\nrefused: bad path\nrefused: bad path\nrefused: bad path\nrefused: bad path\nrefused: bad path\nrefused: bad path\nrefused: bad attribute\nrefused: bad attribute\nrefused: bad word 4\nrefused: not a command\nrefused: bad word 2\nrefused: no file\nrefused: running\nok 2\n";

#[test]
fn each_line_has_its_answer(rt: HostRuntime) -> Result<(), Fail> {
    let alloc = rt.alloc();
    let steps = [1, 2, 2, 2, 2, 2, 2, 2, 2, 2, 2, 2, 2, 2, 2, 2, 3];
    expect(
        &rt,
        alloc,
        fresh_bank(alloc)?,
        plain(LINES, ANSWERS, &steps),
    )?;
    Ok(())
}

const FILES: &[u8] =
    b"at 100\nput /a u g one\nput /a v h three\ncat /a\nhead /a 2\nhead /a 0\nat 50\nrm /a\ncat /a\nhead /a 1\nput /b u g x\n";

const BYTES: &[u8] =
    b"at 100\nok 1\nok 1\nbytes 5\nthree\nbytes 2\nth\nbytes 0\n\nat 100\nok 1\nrefused: no file\nrefused: no file\nok 2\n";

#[test]
fn files_are_put_read_and_removed(rt: HostRuntime) -> Result<(), Fail> {
    let alloc = rt.alloc();
    let steps = [0, 1, 2, 3, 4, 5, 5, 6, 6, 6, 7];
    expect(&rt, alloc, fresh_bank(alloc)?, plain(FILES, BYTES, &steps))?;
    Ok(())
}

#[test]
fn a_second_run_goes_on(rt: HostRuntime) -> Result<(), Fail> {
    let alloc = rt.alloc();
    let first = plain(b"at 100\nput /a u g hi\n", b"at 100\nok 1\n", &[0, 1]);
    let bank = expect(&rt, alloc, fresh_bank(alloc)?, first)?;
    // the run's moment begins at that of the last step
    let second = plain(
        b"at 7\ncat /a\nput /a u g yo\nput /c u g x\n",
        b"at 100\nbytes 2\nhi\nok 1\nok 2\n",
        &[1, 2, 3, 4],
    );
    let bank = expect(&rt, alloc, bank, second)?;
    expect(
        &rt,
        alloc,
        bank,
        plain(b"cat /a\nrm /c\n", b"bytes 2\nyo\nok 2\n", &[5, 6]),
    )?;
    Ok(())
}

#[test]
fn the_cache_fills_up(rt: HostRuntime) -> Result<(), Fail> {
    let alloc = rt.alloc();
    let full = plain(
        b"make /f1 u g 16777216 0\nmake /f2 u g 16777216 1\nmake /f3 u g 16777216 2\nmake /f4 u g 16777216 3\nput /x u g y\nput /x u g\nmake /y u g 16777217 0\n",
        b"ok 1\nok 2\nok 3\nok 4\nrefused: no space\nok 5\nrefused: too large\n",
        &[1, 2, 3, 4, 4, 5, 5],
    );
    expect(&rt, alloc, fresh_bank(alloc)?, full)?;
    Ok(())
}

// A line of so many bytes, and a line feed.
fn long_line(alloc: Global, front: &[u8], more: usize, behind: &[u8]) -> Result<Vec<u8>, Fail> {
    let mut line = front.to_vec(alloc)?;
    line.extend_from_slice(&vec![in alloc; b'x'; more]?)?;
    line.extend_from_slice(behind)?;
    Ok(line)
}

#[test]
fn long_lines_and_long_paths(rt: HostRuntime) -> Result<(), Fail> {
    let alloc = rt.alloc();
    let fits = long_line(alloc, b"put /a u g ", 4085, b"\n")?;
    expect(
        &rt,
        alloc,
        fresh_bank(alloc)?,
        plain(&fits, b"ok 1\n", &[1]),
    )?;
    let over = long_line(alloc, b"put /a u g ", 4086, b"\n")?;
    let refused = plain(&over, b"refused: line too long\n", &[0]);
    expect(&rt, alloc, fresh_bank(alloc)?, refused)?;
    let path = long_line(alloc, b"put /", 1024, b" u g\n")?;
    let refused = plain(&path, b"refused: bad path\n", &[0]);
    expect(&rt, alloc, fresh_bank(alloc)?, refused)?;
    Ok(())
}

#[test]
fn each_status_has_its_cause(rt: HostRuntime) -> Result<(), Fail> {
    let alloc = rt.alloc();
    let put = plain(b"put /a u g hi\n", b"ok 1\n", &[1]);
    let over = Case {
        text: b"put /a u g hi\nxyz",
        budget: 16,
        status: 7,
        ..put
    };
    expect(&rt, alloc, fresh_bank(alloc)?, over)?;
    let nothing = Case {
        answers: b"",
        steps: &[],
        ..put
    };
    let unread = Case {
        read: 2,
        status: 4,
        ..nothing
    };
    expect(&rt, alloc, fresh_bank(alloc)?, unread)?;
    let unwritten = Case {
        write: 1,
        status: 5,
        ..nothing
    };
    expect(&rt, alloc, fresh_bank(alloc)?, unwritten)?;
    Ok(())
}

#[test]
fn a_bad_journal_is_told_and_only_read(rt: HostRuntime) -> Result<(), Fail> {
    let alloc = rt.alloc();
    let refused = Case {
        status: 2,
        ..plain(b"put /a u g hi\n", b"bad journal at 0\n", &[])
    };
    // the words are written in three calls, and then the digits
    let cut = Case {
        write: 4,
        answers: b"bad journal at ",
        ..refused
    };
    for case in [refused, cut] {
        let mut used = fresh_bank(alloc)?;
        // a record of five bytes, which are those of no step
        let record = [1, 5, 0, 0, 0, 255, 0, 0, 0, 0];
        assert!(rt; used.write(0, 0, &record).is_ok());
        let bank = expect(&rt, alloc, used, case)?;
        let calls = bank.calls();
        assert_eq!(rt;
            calls
                .iter()
                .filter(|call| call.kind == BankCall::Write)
                .count(),
            1
        );
    }
    Ok(())
}

const TWO_PUTS: &[u8] = b"put /a u g hi\nput /b u g yo\n";

#[test]
fn a_fault_at_opening_ends_the_run(rt: HostRuntime) -> Result<(), Fail> {
    let alloc = rt.alloc();
    let shut = Case {
        status: 3,
        ..plain(TWO_PUTS, b"", &[])
    };
    for call in [BankCall::Sync, BankCall::Read] {
        expect(&rt, alloc, failing(alloc, 0, call, 1)?, shut)?;
    }
    Ok(())
}

#[test]
fn a_fault_of_the_store_is_answered_and_the_next_put_goes_on(rt: HostRuntime) -> Result<(), Fail> {
    let alloc = rt.alloc();
    let lost = Case {
        status: 3,
        ..plain(TWO_PUTS, b"fault: bank\nok 1\n", &[0, 1])
    };
    // the bytes of the file, and the record of its step up to its gate
    expect(&rt, alloc, failing(alloc, 1, BankCall::Write, 1)?, lost)?;
    expect(&rt, alloc, failing(alloc, 1, BankCall::Sync, 1)?, lost)?;
    expect(&rt, alloc, failing(alloc, 0, BankCall::Write, 1)?, lost)?;
    expect(&rt, alloc, failing(alloc, 0, BankCall::Sync, 2)?, lost)?;
    expect(&rt, alloc, failing(alloc, 0, BankCall::Write, 2)?, lost)?;
    // the gate was written, and the reopening finds the step
    let adopted = Case {
        answers: b"fault: bank\nok 2\n",
        steps: &[0, 2],
        ..lost
    };
    expect(&rt, alloc, failing(alloc, 0, BankCall::Sync, 3)?, adopted)?;
    Ok(())
}

const CHANGES: &[u8] = b"configure\nput /a u g hi\nput /a u g again\ncat /a\nrm /a\n";

// The steps of a store that crashed.
fn steps_after(rt: &impl Abort, alloc: Global, bank: MemoryBank) -> Result<u64, Fail> {
    let left = run(alloc, bank, &[], plain(b"rm /none\n", b"", &[]))?;
    assert_eq!(rt; left.status, 0);
    assert!(rt; left.written.as_slice() == b"refused: no file\n".as_slice());
    assert_eq!(rt; left.marks.len(), 1);
    Ok(left.marks.as_slice().last().map_or(0, |mark| mark.steps))
}

// How many steps were acknowledged at an instant.
fn acknowledged(marks: &[Mark], instant: u64) -> u64 {
    let mut steps = 0;
    for mark in marks {
        if mark.instant <= instant {
            steps = mark.steps;
        }
    }
    steps
}

#[test]
fn a_crash_leaves_each_acknowledged_step(rt: HostRuntime) -> Result<(), Fail> {
    let alloc = rt.alloc();
    let left = run(alloc, fresh_bank(alloc)?, &[], plain(CHANGES, b"", &[]))?;
    assert_eq!(rt; left.status, 0);
    let answers: &[u8] = b"ok 0\nok 1\nok 1\nbytes 5\nagain\nok 1\n";
    assert!(rt; left.written.as_slice() == answers);
    for instant in 0..=left.bank.instant() {
        let least = acknowledged(left.marks.as_slice(), instant);
        for pick in 0..3 {
            let steps = steps_after(&rt, alloc, left.bank.crashed(instant, pick)?)?;
            assert!(rt; least <= steps);
            assert!(rt; steps <= least.saturating_add(1));
        }
    }
    Ok(())
}
