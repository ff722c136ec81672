//! A folder of texts.

ghost use Rattle.std.specs.Prelude.{◌≡◌, ◌≤◌, ℕ, List, Option, IfSome};
ghost use Rattle.base.specs.Causes.{Rose};
ghost use Rattle.outside.specs.Folders.{Answers};
ghost use Rattle.outside.specs.declared.folder.NamedText.{NamedText};

use base::{Bytes, COMMAND_FILE_MAX};

/// The longest front of a text that is read: one byte more than a text may have.
pub const LONGEST_READ: usize = COMMAND_FILE_MAX + 1;

/// A name and the text that stands under it.
#[derive(Drop)]
pub struct NamedText {
    pub name: Bytes,
    pub text: Bytes,
}

/// Why a text was not read.
#[derive(Clone, Copy, Debug, PartialEq, Eq)]
pub enum FolderFault {
    /// The folder has no text of this name.
    NoFile,
    /// The call failed, and the folder counted it.
    Failed,
    /// Want of memory.
    NoMemory,
}

/// A folder of texts. No call changes them.
pub trait Folder: Drop {
    /// The texts with their names, where it tells them. The first of a name counts.
    ghost texts: { Self → Option (List NamedText) };

    /// How many calls have failed.
    ghost faults: { Self → ℕ };

    /// Reads the text of a name. Of a text over 65,536 bytes it gives the first 65,537.
    fn read_file(&mut self, name: &[u8]) -> Result<Bytes, FolderFault>
        ensures answer { IfSome (texts self.old) (λ t. Answers t name.now result) }
        ensures failed { result ≡ Err FolderFault.Failed → Rose (faults self.old) (faults self.new) }
        ensures later { faults self.old ≤ faults self.new }
        ensures texts { texts self.new ≡ texts self.old };
}
