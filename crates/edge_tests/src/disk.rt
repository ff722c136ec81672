//! What the store and the folder on disk answer where files or folders are gone.

use bank::{Bank, BankFailed, FileBank};
use outside::{DiskFolder, Folder, FolderFault};
use std::fs;
use std::os::unix::fs::symlink;
use std::test::Fail;

#[test]
fn files_of_a_folder_that_is_gone_are_not_absent(rt: HostRuntime) -> Result<(), Fail> {
    fs::create_dir_all(&rt, "texts")?;
    symlink(&rt, "nowhere", "texts/link")?;
    let mut folder = DiskFolder::new(rt.alloc(), &rt, "texts")?;
    assert_eq!(rt; folder.read_file(b"none").err(), Some(FolderFault::NoFile));
    assert_eq!(rt; folder.read_file(b"link").err(), Some(FolderFault::Failed));
    fs::rename(&rt, "texts", "moved")?;
    assert_eq!(rt; folder.read_file(b"none").err(), Some(FolderFault::Failed));
    fs::create_dir_all(&rt, "texts")?;
    assert_eq!(rt; folder.read_file(b"none").err(), Some(FolderFault::Failed));
    fs::remove_dir(&rt, "texts")?;
    fs::rename(&rt, "moved", "texts")?;
    assert_eq!(rt; folder.read_file(b"none").err(), Some(FolderFault::NoFile));
    fs::remove_dir_all(&rt, "texts")?;
    Ok(())
}

// A store over a folder with so many areas that the files of the first ones from 2 on were closed.
fn with_closed_files(rt: HostRuntime, folder: &str) -> Result<FileBank<HostRuntime>, Fail> {
    fs::create_dir_all(&rt, folder)?;
    let mut bank = FileBank::open(rt, rt.alloc(), folder)?;
    for area in 0..40u32 {
        bank.write(area, 0, &[area as u8])?;
        bank.sync(area)?;
    }
    Ok(bank)
}

#[test]
fn a_file_that_is_gone_is_no_area_without_one(rt: HostRuntime) -> Result<(), Fail> {
    let mut bank = with_closed_files(rt, "gone")?;
    let mut got = [7u8; 1];
    bank.read(3, 0, &mut got)?;
    assert_eq!(rt; got, [3]);
    for area in [4, 39u32] {
        fs::remove_file(&rt, format!(in rt.alloc(); "gone/{area}")?)?;
    }
    assert_eq!(rt; bank.read(4, 0, &mut got), Err(BankFailed {}));
    assert_eq!(rt; bank.write(4, 0, &[4]), Err(BankFailed {}));
    assert_eq!(rt; bank.sync(4), Err(BankFailed {}));
    assert_eq!(rt; bank.sync(39), Err(BankFailed {}));
    bank.read(40, 0, &mut got)?;
    assert_eq!(rt; got, [0]);
    fs::rename(&rt, "gone", "moved_store")?;
    assert_eq!(rt; bank.read(41, 0, &mut got), Err(BankFailed {}));
    fs::remove_dir_all(&rt, "moved_store")?;
    Ok(())
}

#[test]
fn a_file_is_settled_when_it_is_first_opened(rt: HostRuntime) -> Result<(), Fail> {
    let mut bank = with_closed_files(rt, "settled")?;
    // A device that no sync is possible of stands for an area's file.
    fs::remove_file(&rt, "settled/5")?;
    symlink(&rt, "/dev/zero", "settled/5")?;
    let mut got = [7u8; 1];
    bank.read(5, 0, &mut got)?;
    assert_eq!(rt; got, [0]);
    drop(bank);
    let mut bank = FileBank::open(rt, rt.alloc(), "settled")?;
    for _ in 0..2 {
        assert_eq!(rt; bank.read(5, 0, &mut got), Err(BankFailed {}));
    }
    fs::remove_dir_all(&rt, "settled")?;
    Ok(())
}
