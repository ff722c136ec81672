//! A folder of the file system.

ghost use Rattle.std.specs.Prelude.{◌≡◌, ◌≤◌, length, IfOk};

use super::tries::read_some;
use crate::folder::{Folder, FolderFault, LONGEST_READ};
use base::Bytes;
use std::alloc::{AllocError, Global};
use std::io::ErrorKind;
use std::os::unix::fs::MetadataExt;
use std::path::Path;
use std::rt::Files;
use std::{fs, io, str};

/// What the system knows a folder by, whatever path leads to it.
#[derive(Clone, Copy, Debug, PartialEq, Eq)]
struct FolderIdentity {
    device: u64,
    inode: u64,
}

/// A folder of the file system. It tells nothing of its texts.
#[derive(Drop)]
pub struct DiskFolder<R> {
    alloc: Global,
    host: R,
    directory: String,
    // None where the path led to no folder when it was first looked at.
    identity: Option<FolderIdentity>,
    faults: u64,
}

impl<R: Files + Drop> DiskFolder<R> {
    /// The folder that stands at this path of a host now. Where none does, or another one later, each read fails from
    /// then on until it stands there again. Err is want of memory.
    pub fn new(alloc: Global, host: R, directory: &str) -> Result<Self, AllocError>
        ensures { IfOk result (λ f. ⟦<DiskFolder<R> as Folder>⟧.faults f ≡ 0) }
    {
        Ok(DiskFolder {
            alloc,
            identity: identity_of(&host, directory),
            host,
            directory: String::from_str(alloc, directory)?,
            faults: 0,
        })
    }
}

// The folder that a path leads to now; None where it leads to none, or the system does not tell.
fn identity_of<R: Files>(host: &R, directory: &str) -> Option<FolderIdentity> {
    match fs::metadata(host, directory) {
        Ok(found) if found.is_dir() => Some(FolderIdentity {
            device: found.dev(),
            inode: found.ino(),
        }),
        _ => None,
    }
}

// Whether nothing has the name, not even a link that leads nowhere.
fn is_absent<R: Files>(host: &R, path: Path<'_>) -> bool {
    match fs::symlink_metadata(host, path) {
        Ok(_) => false,
        Err(error) => error.kind() == ErrorKind::NotFound,
    }
}

// Reads the front of a file into a buffer, up to its end.
fn fill<R: Files>(host: &R, path: Path<'_>, into: &mut [u8]) -> io::Result<usize>
    ensures { IfOk result (λ n. n ≤ length into.new) }
{
    let mut file = fs::open(host, path)?;
    let mut filled = 0;
    while filled < into.len() {
        let count = read_some(&mut file, &mut into[filled..])?;
        if count == 0 {
            break;
        }
        filled += count;
    }
    Ok(filled)
}

// Reads the front of the file of a name.
fn read_front<R: Files>(
    alloc: Global,
    host: &R,
    directory: &str,
    name: &[u8],
) -> Result<Bytes, FolderFault> {
    let Ok(name) = str::from_utf8(name) else {
        return Err(FolderFault::Failed);
    };
    let Ok(path) = Path::new(directory).join(alloc, name) else {
        return Err(FolderFault::NoMemory);
    };
    let Ok(mut buffer) = vec![in alloc; 0; LONGEST_READ] else {
        return Err(FolderFault::NoMemory);
    };
    match fill(host, path.as_path(), &mut buffer) {
        Ok(count) => {
            buffer.truncate(count);
            Ok(Bytes::from_vec(buffer))
        }
        Err(error) if error.kind() == ErrorKind::NotFound && is_absent(host, path.as_path()) => {
            Err(FolderFault::NoFile)
        }
        Err(_) => Err(FolderFault::Failed),
    }
}

impl<R: Files + Drop> DiskFolder<R> {
    // Whether the path still leads to the folder. A file is absent only there: where the folder was moved or unmounted, its
    // files are missing and yet not absent.
    fn is_in_place(&self) -> bool {
        let now = identity_of(&self.host, self.directory.as_str());
        now.is_some() && now == self.identity
    }

    // Reads the front of the file of a name, where the folder is still in place.
    fn read_in_place(&self, name: &[u8]) -> Result<Bytes, FolderFault> {
        let answer = read_front(self.alloc, &self.host, self.directory.as_str(), name);
        match answer {
            Err(FolderFault::NoMemory) => Err(FolderFault::NoMemory),
            answer if self.is_in_place() => answer,
            _ => Err(FolderFault::Failed),
        }
    }
}

impl<R: Files + Drop> Folder for DiskFolder<R> {
    ghost use Rattle.std.specs.Prelude.{None};

    ghost texts = { λ _. None };

    ghost faults = { λ f. f.faults };

    fn read_file(&mut self, name: &[u8]) -> Result<Bytes, FolderFault> {
        match self.read_in_place(name) {
            Err(FolderFault::Failed) => {
                self.faults = self.faults.saturating_add(1);
                Err(FolderFault::Failed)
            }
            answer => answer,
        }
    }
}
