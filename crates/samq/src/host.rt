//! The objects of the host, made for the top call.

use crate::folders::{make_folders, sync_names};
use crate::top::{is_form, samq};
use bank::{FileBank, FileBankRefusal};
use base::List;
use outside::{DiskFolder, LiteralPatterns, StandardInput, StandardOutput, SystemClock};
use std::alloc::AllocError;
use std::fs::File;
use std::os::fd::AsRawFd;
use std::rt::{Env, Files};
use std::{env, fs, io};

/// Why an object could not be made.
enum Refusal {
    NoMemory,
    Failed,
    InUse,
}

impl From<AllocError> for Refusal {
    fn from(_: AllocError) -> Self {
        Refusal::NoMemory
    }
}

impl From<FileBankRefusal> for Refusal {
    fn from(refusal: FileBankRefusal) -> Self {
        match refusal {
            FileBankRefusal::Locked => Refusal::InUse,
            FileBankRefusal::Failed => Refusal::Failed,
            FileBankRefusal::NoMemory => Refusal::NoMemory,
        }
    }
}

// The words after the program's name.
fn words(rt: &HostRuntime) -> io::Result<Vec<String>> {
    let mut words = Vec::new(rt.alloc());
    for (place, word) in env::args(rt)?.enumerate() {
        if place > 0 {
            words.push(word)?;
        }
    }
    Ok(words)
}

// Takes the numbers of those standard streams that are closed, since the next file that is opened would get the lowest of them,
// and answers would be written into it. A folder that is open for reading stands there: it takes no bytes and gives none.
fn hold_closed_streams(rt: &HostRuntime) -> Result<Vec<File>, Refusal> {
    let mut held = Vec::new(rt.alloc());
    for _ in 0..3 {
        let Ok(folder) = fs::open(rt, "/") else {
            return Err(Refusal::Failed);
        };
        if folder.as_raw_fd() > 2 {
            break;
        }
        if held.push(folder).is_err() {
            return Err(Refusal::NoMemory);
        }
    }
    Ok(held)
}

// Opens the store in the folder `bank` of a folder; both are made if they are not there.
fn open_bank(rt: &HostRuntime, folder: &str) -> Result<FileBank<HostRuntime>, Refusal> {
    // Behind no name at all the store would stand at the root.
    if folder.is_empty() {
        return Err(Refusal::Failed);
    }
    let path = format!(in rt.alloc(); "{folder}/bank")?;
    if make_folders(rt, path.as_str()).is_err() || sync_names(rt, folder).is_err() {
        return Err(Refusal::Failed);
    }
    Ok(FileBank::open(rt.clone()?, rt.alloc(), path.as_str())?)
}

// Answers standard input over the store of the folder.
fn answer(rt: &HostRuntime, words: &[String], folder: &str) -> Result<u8, Refusal> {
    let alloc = rt.alloc();
    let _held = hold_closed_streams(rt)?;
    let bank = open_bank(rt, folder)?;
    let mut clock = SystemClock::new(rt.clone()?);
    let mut texts = DiskFolder::new(alloc, rt.clone()?, folder)?;
    let patterns = LiteralPatterns::new(alloc, List::new(alloc), List::new(alloc));
    let mut input = StandardInput::new(rt.reader());
    let mut output = StandardOutput::new(rt.clone()?);
    let outcome = samq(
        alloc,
        words,
        bank,
        &mut clock,
        &mut texts,
        patterns,
        &mut input,
        &mut output,
    );
    Ok(outcome.status)
}

// Tells why the program ended before it read a line, and gives its status.
fn tell(rt: &HostRuntime, refusal: Refusal, folder: &str) -> u8 {
    let (status, told) = match refusal {
        Refusal::NoMemory => (9, eprintln!(rt; "samq: no memory")),
        Refusal::Failed => (
            3,
            eprintln!(rt; "samq: the store of {folder} cannot be opened"),
        ),
        Refusal::InUse => (
            3,
            eprintln!(rt; "samq: the store of {folder} is in use by another process"),
        ),
    };
    let _ = told;
    status
}

/// Runs the program by the words of its call, and gives its status.
pub fn run(rt: &HostRuntime) -> u8 {
    let words = match words(rt) {
        Ok(words) if is_form(&words) => words,
        _ => {
            let _ = eprintln!(rt; "usage: samq run DIR");
            return 1;
        }
    };
    let folder = match words.get(1) {
        Some(folder) => folder.as_str(),
        None => return 1,
    };
    match answer(rt, &words, folder) {
        Ok(status) => status,
        Err(refusal) => tell(rt, refusal, folder),
    }
}
