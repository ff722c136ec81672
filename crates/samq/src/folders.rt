//! Makes the folders of a store.

use std::fs::DirBuilder;
use std::io::ErrorKind;
use std::os::unix::fs::DirBuilderExt;
use std::path::Path;
use std::{fs, io};

// The permissions of a folder that is made: the owner alone uses it.
const FOLDER_MODE: u32 = 0o700;

fn is_folder(rt: &HostRuntime, path: &str) -> bool {
    match fs::metadata(rt, path) {
        Ok(found) => found.is_dir(),
        Err(_) => false,
    }
}

// The folder in which the last name of a path stands.
fn folder_above(path: &str) -> &str {
    match Path::new(path).parent() {
        Some(above) if !above.as_str().is_empty() => above.as_str(),
        _ => ".",
    }
}

/// Brings the list of a folder's names to the medium.
pub fn sync_names(rt: &HostRuntime, folder: &str) -> io::Result<()> {
    fs::open(rt, folder)?.sync_all()
}

// Brings the name of a folder that was there to the medium: an earlier run may have made it and been cut off before it did so.
// Where the list in which the name stands may not be read, this process's user did not make the folder.
fn settle_name(rt: &HostRuntime, folder: &str) -> io::Result<()> {
    match fs::open(rt, folder_above(folder)) {
        Ok(above) => above.sync_all(),
        Err(e) if e.kind() == ErrorKind::PermissionDenied => Ok(()),
        Err(e) => Err(e),
    }
}

// Makes a folder where none is there, once the name of the one above stands on the medium, and brings its name there too.
fn make_folder(rt: &HostRuntime, path: &str) -> io::Result<()> {
    if is_folder(rt, path) {
        return Ok(());
    }
    let above = folder_above(path);
    settle_name(rt, above)?;
    match DirBuilder::new().mode(FOLDER_MODE).create(rt, path) {
        Ok(()) => {}
        // Another process made it meanwhile.
        Err(_) if is_folder(rt, path) => {}
        Err(e) => return Err(e),
    }
    sync_names(rt, above)
}

/// Makes a folder and those above it, as far as they are not there. The name of each that is made is on the medium before the
/// next one is.
pub fn make_folders(rt: &HostRuntime, path: &str) -> io::Result<()> {
    for end in 1..path.len() {
        if let Some((above, rest)) = path.split_at_checked(end) {
            if rest.starts_with('/') {
                make_folder(rt, above)?;
            }
        }
    }
    make_folder(rt, path)
}
