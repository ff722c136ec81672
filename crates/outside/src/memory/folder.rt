//! A folder in memory.

ghost use Rattle.std.specs.Prelude.{◌≡◌, MatchResult, take};
ghost use Rattle.std.specs.Option.{option_map};
ghost use Rattle.outside.specs.Folders.{text_under};

use crate::folder::{Folder, FolderFault, LONGEST_READ, NamedText};
use crate::memory::calls::Calls;
use base::{Bytes, List};
use std::alloc::Global;
use std::marker::Model;

/// A folder of texts in memory.
#[derive(Drop)]
pub struct MemoryFolder {
    alloc: Global,
    texts: List<NamedText>,
    calls: Calls,
    faults: u64,
}

impl Model for MemoryFolder {
    ghost use Rattle.outside.specs.Texts.{Texts};

    ghost Value = { Texts };

    ghost view = { λ f. record { texts = f.texts; faults = f.faults } };
}

impl MemoryFolder {
    /// A folder of these texts. The calls with these numbers fail.
    pub fn new(alloc: Global, texts: List<NamedText>, failing: List<u64>) -> Self
        ensures texts { result.texts ≡ texts }
        ensures faults { result.faults ≡ 0 }
    {
        MemoryFolder {
            alloc,
            texts,
            calls: Calls::new(failing),
            faults: 0,
        }
    }

    /// How many calls have failed.
    pub fn faults(&self) -> u64
        ensures { result ≡ self.now.faults }
    {
        self.faults
    }
}

// The text under a name: that of the first entry of this name.
fn text_under<'a>(texts: &'a [NamedText], name: &[u8]) -> Option<&'a [u8]>
    ensures { option_map (λ t. t.now) result ≡ text_under texts.now name.now }
{
    for named in texts {
        if named.name.as_slice() == name {
            return Some(named.text.as_slice());
        }
    }
    None
}

// A copy of a text up to its 65,537th byte.
fn copy_front(alloc: Global, text: &[u8]) -> Result<Bytes, FolderFault>
    ensures { MatchResult result (λ b. b ≡ take LONGEST_READ text.now) (λ fault. fault ≡ FolderFault.NoMemory) }
{
    let length = LONGEST_READ.min(text.len());
    match Bytes::from_slice(alloc, &text[..length]) {
        Ok(bytes) => Ok(bytes),
        Err(_) => Err(FolderFault::NoMemory),
    }
}

impl Folder for MemoryFolder {
    ghost use Rattle.std.specs.Prelude.{Some};

    ghost texts = { λ f. Some f.texts };

    ghost faults = { λ f. f.faults };

    fn read_file(&mut self, name: &[u8]) -> Result<Bytes, FolderFault> {
        if self.calls.next_fails() {
            self.faults = self.faults.saturating_add(1);
            return Err(FolderFault::Failed);
        }
        let Some(text) = text_under(self.texts.as_slice(), name) else {
            return Err(FolderFault::NoFile);
        };
        copy_front(self.alloc, text)
    }
}
