use bank::{Bank, BankCall, FailAt, FileBank, FileBankRefusal};
use fixtures::{failing_bank, fresh_bank};
use std::fs;
use std::test::Fail;

#[test]
fn a_folder_gives_back_what_was_written(rt: HostRuntime) -> Result<(), Fail> {
    fs::create_dir_all(&rt, "store")?;
    let mut bank = FileBank::open(rt, rt.alloc(), "store")?;
    assert_eq!(rt;
        FileBank::open(rt, rt.alloc(), "store").err(),
        Some(FileBankRefusal::Locked)
    );
    let mut got = [7u8; 4];
    bank.read(5, 0, &mut got)?;
    assert_eq!(rt; got, [0, 0, 0, 0]);
    for area in 0..40u32 {
        bank.write(area, 1, &[area as u8, 9])?;
        bank.sync(area)?;
    }
    for area in 0..40u32 {
        bank.read(area, 0, &mut got)?;
        assert_eq!(rt; got, [0, area as u8, 9, 0], "area {area}");
    }
    drop(bank);
    let mut bank = FileBank::open(rt, rt.alloc(), "store")?;
    bank.read(39, 1, &mut got)?;
    assert_eq!(rt; got, [39, 9, 0, 0]);
    assert_eq!(rt;
        fs::read(&rt, "store/39")?.as_slice(),
        [0, 39, 9].as_slice()
    );
    fs::remove_dir_all(&rt, "store")?;
    Ok(())
}

#[test]
fn listed_calls_fail_and_change_nothing(rt: HostRuntime) -> Result<(), Fail> {
    let fail = [
        (BankCall::Write, 2),
        (BankCall::Sync, 1),
        (BankCall::Read, 3),
    ]
    .map(|(call, number)| FailAt {
        area: 1,
        call,
        number,
    });
    let mut bank = failing_bank(rt.alloc(), &fail)?;
    let mut got = [0u8; 2];
    for (byte, is_written, is_read, stands) in [
        (1, true, true, 1),
        (2, false, false, 1),
        (3, true, true, 3),
    ] {
        assert!(rt; bank.write(0, 0, &[byte]).is_ok());
        assert_eq!(rt;
            bank.write(1, 7, &[byte]).is_ok(),
            is_written,
            "write {byte}"
        );
        assert_eq!(rt; bank.sync(1).is_ok(), byte > 1, "sync {byte}");
        let read = bank.read(1, 6, &mut got);
        assert_eq!(rt; read.is_ok(), is_read, "read {byte}");
        bank.read(1, 6, &mut got)?;
        assert_eq!(rt; got, [0, stands], "content {byte}");
    }
    assert_eq!(rt;
        bank.calls()
            .iter()
            .filter(|c| c.area == 1 && c.done)
            .count(),
        9
    );
    assert_eq!(rt; bank.instant(), 15);
    Ok(())
}

#[test]
fn a_crash_leaves_what_was_picked(rt: HostRuntime) -> Result<(), Fail> {
    let mut bank = fresh_bank(rt.alloc())?;
    bank.write(1, 0, &[1, 2])?;
    bank.sync(1)?;
    bank.write(1, 1, &[3])?;
    bank.sync(0)?;
    bank.write(1, 3, &[4])?;
    for (instant, images) in [
        (0, [[0, 0, 0, 0], [0, 0, 0, 0], [0, 0, 0, 0]]),
        (1, [[0, 0, 0, 0], [1, 2, 0, 0], [0xA5, 0xA5, 0, 0]]),
        (2, [[1, 2, 0, 0], [1, 2, 0, 0], [1, 2, 0, 0]]),
        (4, [[1, 2, 0, 0], [1, 3, 0, 0], [1, 0xA5, 0, 0]]),
        (5, [[1, 2, 0, 0], [1, 3, 0, 4], [1, 0xA5, 0, 0xA5]]),
        (99, [[1, 2, 0, 0], [1, 3, 0, 4], [1, 0xA5, 0, 0xA5]]),
    ] {
        for (pick, image) in images.iter().enumerate() {
            let crashed = bank.crashed(instant, pick as u8)?;
            let mut again = crashed.crashed(0, 0)?;
            let mut got = [0u8; 4];
            again.read(1, 0, &mut got)?;
            assert_eq!(rt; got, *image, "instant {instant} pick {pick}");
        }
    }
    Ok(())
}
