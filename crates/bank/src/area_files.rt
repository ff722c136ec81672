//! The areas of a store as files of a folder.

ghost use Rattle.std.specs.Prelude.{◌≡◌, ◌+◌, ◌^◌, ◌<◌, ◌≤◌, length, vec_len, IfOk, IfSome};

use std::alloc::Global;
use std::fs::{File, Files, Metadata, OpenOptions};
use std::io::ErrorKind;
use std::os::fd::AsRawFd;
use std::os::unix::fs::{FileExt, MetadataExt, OpenOptionsExt};
use std::{fs, io};

/// The permissions of a file that is made: the owner reads and writes it.
pub(crate) const FILE_MODE: u32 = 0o600;

// How many files are kept open at most, those of spoiled areas aside.
const KEPT_OPEN: usize = 32;

// What the system calls a process's limit on the size of the files that it writes.
const RLIMIT_FSIZE: i32 = 1;

// What the system knows a file or a folder by, whatever path leads to it.
#[derive(Clone, Copy, PartialEq, Eq)]
struct Identity {
    device: u64,
    inode: u64,
}

impl Identity {
    fn of(found: &Metadata) -> Self {
        Identity {
            device: found.dev(),
            inode: found.ino(),
        }
    }
}

#[derive(Drop)]
struct AreaFile {
    area: u32,
    path: String,
    file: File,
    identity: Identity,
    has_unsynced: bool,
    // A sync of it failed. The system may have dropped what it could not write, and a later sync would not tell: so
    // none is tried.
    is_spoiled: bool,
}

// An area whose file was opened since the store was.
#[derive(Clone, Copy)]
struct SeenArea {
    area: u32,
    // What stood in it when it was first opened is on the medium. Where that sync failed, the file is not opened again.
    is_settled: bool,
}

/// A folder with a file for each area that was written, named by the area's number in decimal.
#[derive(Drop)]
pub(crate) struct AreaFiles<R> {
    rt: R,
    alloc: Global,
    path: String,
    folder: File,
    folder_identity: Identity,
    // The folder's list of files may not have reached the medium.
    folder_is_due: bool,
    folder_is_spoiled: bool,
    // The open files.
    files: Vec<AreaFile>,
    // The areas of all files that are or were open.
    seen: Vec<SeenArea>,
    // The limit on the size in bytes of a file, as it was last asked for.
    size_limit: u64,
}

// Opens a file for reading and writing.
fn open_file<R: Files<File = File>>(rt: &R, path: &str, creates: bool) -> io::Result<File> {
    OpenOptions::new()
        .read(true)
        .write(true)
        .create(creates)
        .mode(FILE_MODE)
        .open(rt, path)
}

// Brings what an earlier process wrote to the medium, and drops the system's copies of it, which a failed sync may
// have left other than the medium has them.
fn settle(file: &File) -> io::Result<()> {
    file.sync_all()?;
    let _ = libc::posix_fadvise(file.as_raw_fd(), 0, 0, libc::POSIX_FADV_DONTNEED);
    Ok(())
}

// Fails where a path does not lead to what was opened by it.
fn check_leads_to<R: Files>(rt: &R, path: &str, opened: Identity) -> io::Result<()> {
    if Identity::of(&fs::metadata(rt, path)?) == opened {
        Ok(())
    } else {
        Err(ErrorKind::StaleNetworkFileHandle.into())
    }
}

// The limit on the size in bytes of the files that this process writes; the greatest number where there is none.
fn file_size_limit() -> u64 {
    let mut limit = libc::types::rlimit {
        rlim_cur: u64::MAX,
        rlim_max: u64::MAX,
    };
    libc::getrlimit(RLIMIT_FSIZE, &mut limit);
    limit.rlim_cur
}

// Reads, with zeros past the file's end.
fn read_padded(file: &File, place: u64, into: &mut [u8]) -> io::Result<()>
    requires { place + length into.old < 2 ^ 63 }
{
    let mut at = 0;
    for _ in 0..u64::MAX {
        if at >= into.len() {
            return Ok(());
        }
        match file.read_at(&mut into[at..], place + at as u64) {
            Ok(0) => {
                into[at..].fill(0);
                return Ok(());
            }
            Ok(n) => at += n,
            Err(e) if e.kind() == ErrorKind::Interrupted => {}
            Err(e) => return Err(e),
        }
    }
    Err(ErrorKind::TimedOut.into())
}

impl<R: Files<File = File> + Drop> AreaFiles<R> {
    pub(crate) fn new(rt: R, alloc: Global, path: String) -> io::Result<Self> {
        let folder = fs::open(&rt, path.as_str())?;
        let folder_identity = Identity::of(&folder.metadata()?);
        Ok(AreaFiles {
            rt,
            alloc,
            path,
            folder,
            folder_identity,
            folder_is_due: true,
            folder_is_spoiled: false,
            files: Vec::new(alloc),
            seen: Vec::new(alloc),
            size_limit: file_size_limit(),
        })
    }

    pub(crate) fn read(&mut self, area: u32, place: u64, into: &mut [u8]) -> io::Result<()>
        requires { place + length into.old < 2 ^ 63 }
    {
        match self.find(area, false)? {
            Some(i) => read_padded(&self.files[i].file, place, into),
            None => {
                into.fill(0);
                Ok(())
            }
        }
    }

    pub(crate) fn write(&mut self, area: u32, place: u64, bytes: &[u8]) -> io::Result<()> {
        self.check_limit(place, bytes.len())?;
        let Some(i) = self.find(area, true)? else {
            return Err(ErrorKind::NotFound.into());
        };
        self.files[i].has_unsynced = true;
        self.files[i].file.write_all_at(bytes, place)
    }

    pub(crate) fn sync(&mut self, area: u32) -> io::Result<()> {
        if let Some(i) = self.find(area, false)? {
            self.sync_open(i)?;
            self.sync_folder()?;
            // What was synced is lost with the file where its name is gone.
            let opened = &self.files[i];
            check_leads_to(&self.rt, opened.path.as_str(), opened.identity)?;
        }
        Ok(())
    }

    // Fails where a write would reach beyond the limit on the size of files, at which the system would end the process by a
    // signal.
    fn check_limit(&mut self, place: u64, count: usize) -> io::Result<()> {
        let end = place.saturating_add(count as u64);
        if end > self.size_limit {
            self.size_limit = file_size_limit();
        }
        if end > self.size_limit {
            return Err(ErrorKind::FileTooLarge.into());
        }
        Ok(())
    }

    // Where the area's file stands among the open ones; None where there is none, and none is to be made.
    fn find(&mut self, area: u32, creates: bool) -> io::Result<Option<usize>>
        ensures { IfOk result (λ o. IfSome o (λ i. i < vec_len self.new.files)) }
    {
        if let Some(i) = self.files.iter().position(|f| f.area == area) {
            return Ok(Some(i));
        }
        self.make_room()?;
        let path = format!(in self.alloc; "{}/{}", self.path, area)?;
        let Some(file) = self.open_area(area, path.as_str(), creates)? else {
            return Ok(None);
        };
        let identity = Identity::of(&file.metadata()?);
        self.files.push(AreaFile {
            area,
            path,
            file,
            identity,
            has_unsynced: false,
            is_spoiled: false,
        })?;
        Ok(Some(self.files.len() - 1))
    }

    // Opens the area's file; None where there is none, and none is to be made.
    fn open_area(&mut self, area: u32, path: &str, creates: bool) -> io::Result<Option<File>> {
        if let Some(seen) = self.seen.iter().find(|s| s.area == area) {
            if !seen.is_settled {
                return Err(ErrorKind::Other.into());
            }
            return Ok(Some(open_file(&self.rt, path, false)?));
        }
        let opened = open_file(&self.rt, path, false);
        // In another folder the area's file is another one, or is missing and yet not absent.
        check_leads_to(&self.rt, self.path.as_str(), self.folder_identity)?;
        match opened {
            Ok(file) => {
                self.settle_first(area, &file)?;
                Ok(Some(file))
            }
            Err(e) if e.kind() != ErrorKind::NotFound => Err(e),
            Err(_) if creates => Ok(Some(self.make_file(area, path)?)),
            Err(_) => Ok(None),
        }
    }

    // Settles a file that is opened for the first time.
    fn settle_first(&mut self, area: u32, file: &File) -> io::Result<()> {
        self.seen.push(SeenArea {
            area,
            is_settled: false,
        })?;
        settle(file)?;
        if let Some(seen) = self.seen.last_mut() {
            seen.is_settled = true;
        }
        Ok(())
    }

    // Makes the file of an area that has none.
    fn make_file(&mut self, area: u32, path: &str) -> io::Result<File> {
        self.folder_is_due = true;
        let file = open_file(&self.rt, path, true)?;
        self.seen.push(SeenArea {
            area,
            is_settled: true,
        })?;
        Ok(file)
    }

    // Closes a file where too many are open, and never that of the journal or the cache.
    fn make_room(&mut self) -> io::Result<()> {
        if self.files.len() < KEPT_OPEN {
            return Ok(());
        }
        let Some(i) = self.files.iter().position(|f| f.area > 1 && !f.is_spoiled) else {
            return Ok(());
        };
        if self.files[i].has_unsynced {
            self.sync_open(i)?;
        }
        self.files.remove(i);
        Ok(())
    }

    fn sync_open(&mut self, i: usize) -> io::Result<()>
        requires { i < vec_len self.old.files }
        ensures { vec_len self.new.files ≡ vec_len self.old.files }
    {
        let opened = &mut self.files[i];
        if opened.is_spoiled {
            return Err(ErrorKind::Other.into());
        }
        opened.is_spoiled = true;
        opened.file.sync_all()?;
        opened.is_spoiled = false;
        opened.has_unsynced = false;
        Ok(())
    }

    fn sync_folder(&mut self) -> io::Result<()>
        ensures { vec_len self.new.files ≡ vec_len self.old.files }
    {
        if self.folder_is_spoiled {
            return Err(ErrorKind::Other.into());
        }
        if self.folder_is_due {
            self.folder_is_spoiled = true;
            self.folder.sync_all()?;
            self.folder_is_spoiled = false;
            self.folder_is_due = false;
        }
        Ok(())
    }
}
