//! A store over a folder of the file system.

ghost use Rattle.std.specs.Prelude.{◌≡◌, ◌+◌, ◌^◌, ◌<◌, ◌≤◌, ℕ, false, length, IsErr, IfOk, OnErr, OnOk};
ghost use Rattle.base.specs.Causes.{HasCause};
ghost use Rattle.bank.specs.Faults.{HasJournalCause};
ghost use Rattle.bank.specs.View.{untold};
ghost use Rattle.bank.specs.declared.file.FileBankRefusal.TheVariants.{NoMemory};

use crate::area_files::{AreaFiles, FILE_MODE};
use crate::bank::{Bank, BankFailed};
use std::alloc::{AllocError, Global};
use std::fs::{File, Files, OpenOptions, TryLockError};
use std::io;
use std::os::unix::fs::OpenOptionsExt;

/// Why a folder was not opened as a store.
#[derive(Clone, Copy, Debug, PartialEq, Eq)]
pub enum FileBankRefusal {
    /// Another store, of this process or another, is open over it.
    Locked,
    /// It is no folder, or the system refused.
    Failed,
    NoMemory,
}

impl From<AllocError> for FileBankRefusal {
    ghost from_gives = { λ _ e. e ≡ NoMemory };

    fn from(_e: AllocError) -> FileBankRefusal {
        FileBankRefusal::NoMemory
    }
}

/// A store over a folder, for which it holds the lock as long as it is there. It tells nothing of its content: that a
/// file gives back what was written to it, and that a sync brings it to the medium, is the system's word.
///
/// An area is a file named by its number in decimal, and zeros stand past the end of a file. The file `lock` carries
/// the lock. Files are made for the owner alone. An area's file that was opened once and is not found later is a fault, and a
/// write that would reach beyond the process's limit on the size of files is one too.
#[derive(Drop)]
pub struct FileBank<R> {
    areas: AreaFiles<R>,
    lock: File,
    faults: u64,
    journal_faults: u64,
    last_fault: u32,
}

impl<R: Files<File = File> + Drop> FileBank<R> {
    /// Opens a folder that is there.
    pub fn open(rt: R, alloc: Global, folder: &str) -> Result<Self, FileBankRefusal>
        ensures faults { IfOk result (λ b. b.faults ≡ 0) }
        ensures journal_faults { IfOk result (λ b. b.journal_faults ≡ 0) }
    {
        let path = format!(in alloc; "{folder}/lock")?;
        let opened = OpenOptions::new()
            .read(true)
            .write(true)
            .create(true)
            .mode(FILE_MODE)
            .open(&rt, path.as_str());
        let Ok(lock) = opened else {
            return Err(FileBankRefusal::Failed);
        };
        match lock.try_lock() {
            Ok(()) => {}
            Err(TryLockError::WouldBlock) => return Err(FileBankRefusal::Locked),
            Err(TryLockError::Error(_)) => return Err(FileBankRefusal::Failed),
        }
        let folder = String::from_str(alloc, folder)?;
        let Ok(areas) = AreaFiles::new(rt, alloc, folder) else {
            return Err(FileBankRefusal::Failed);
        };
        Ok(FileBank {
            areas,
            lock,
            faults: 0,
            journal_faults: 0,
            last_fault: 0,
        })
    }

    // Counts a fault.
    fn counted(&mut self, area: u32, answer: io::Result<()>) -> Result<(), BankFailed>
        ensures cause { HasCause self.old.faults self.new.faults result }
        ensures journal_cause { HasJournalCause area self.old.journal_faults self.new.journal_faults result }
        ensures area { OnErr result (self.new.last_fault ≡ area) }
        ensures last { OnOk result (self.new.last_fault ≡ self.old.last_fault) }
    {
        match answer {
            Ok(()) => Ok(()),
            Err(_) => {
                self.faults = self.faults.saturating_add(1);
                if area == 0 {
                    self.journal_faults = self.journal_faults.saturating_add(1);
                }
                self.last_fault = area;
                Err(BankFailed {})
            }
        }
    }
}

impl<R: Files<File = File> + Drop> Bank for FileBank<R> {
    ghost tells = { false };

    ghost view = { λ b. untold };

    ghost faults = { λ b. b.faults };

    ghost last_fault = { λ b. b.last_fault };

    ghost journal_faults = { λ b. b.journal_faults };

    ghost sound = { λ b told. record { reads_as_image = λ a. tt; counts_now = λ t c le i. tt; only_now = λ c l a. tt } };

    fn read(&mut self, area: u32, place: u64, into: &mut [u8]) -> Result<(), BankFailed> {
        let answer = self.areas.read(area, place, into);
        self.counted(area, answer)
    }

    fn write(&mut self, area: u32, place: u64, bytes: &[u8]) -> Result<(), BankFailed> {
        let answer = self.areas.write(area, place, bytes);
        self.counted(area, answer)
    }

    fn sync(&mut self, area: u32) -> Result<(), BankFailed> {
        let answer = self.areas.sync(area);
        self.counted(area, answer)
    }

    fn instant(&self) -> u64 {
        0
    }
}
