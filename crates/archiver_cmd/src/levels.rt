//! Under which names a copy of a set is looked up.

ghost use Rattle.std.specs.Prelude.{◌≡◌};
ghost use Rattle.archiver_lines.specs.Names.{same_name};
ghost use Rattle.archiver_cmd.specs.Levels.{name_at};

use archiver_lines::CopyName;

/// How much a name says.
#[derive(Clone, Copy, Debug, PartialEq, Eq)]
pub enum Level {
    /// The copy of the set, `SET.N`.
    Set,
    /// This copy of all sets, `allsets.N`.
    Copy,
    /// All copies of all sets, `allsets`.
    All,
}

/// The name is that of this copy of this set at this level.
pub fn is_named(name: &CopyName, level: Level, set: &[u8], copy: u8) -> bool
    ensures { result ≡ same_name name.now (name_at level set.now copy) }
{
    match (name, level) {
        (CopyName::SetCopy(own, number), Level::Set) => own.as_slice() == set && *number == copy,
        (CopyName::AllSetsCopy(number), Level::Copy) => *number == copy,
        (CopyName::AllSets, Level::All) => true,
        _ => false,
    }
}
