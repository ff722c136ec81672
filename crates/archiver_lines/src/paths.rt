//! The paths of assignments.

ghost use Rattle.std.specs.Prelude.{◌≡◌};
ghost use Rattle.archiver_lines.specs.Paths.{is_set_path};

use base::is_legal_below_root;

/// The path of an assignment: `.`, or the path of a file or directory without its first `/`.
pub fn is_set_path(field: &[u8]) -> bool
    ensures { result ≡ is_set_path field.now }
{
    field == b".".as_slice() || is_legal_below_root(field)
}
