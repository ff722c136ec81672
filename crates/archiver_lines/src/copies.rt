//! Copies of what lines said.

ghost use Rattle.std.specs.Prelude.{◌≡◌, IfOk};

use crate::reading::{CopyName, VsnExpr};
use std::alloc::AllocError;

impl CopyName {
    /// A copy.
    pub fn copy(&self) -> Result<CopyName, AllocError>
        ensures { IfOk result (λ copy. copy ≡ self.now) }
    {
        match self {
            CopyName::AllSets => Ok(CopyName::AllSets),
            CopyName::AllSetsCopy(number) => Ok(CopyName::AllSetsCopy(*number)),
            CopyName::SetCopy(set, number) => Ok(CopyName::SetCopy(set.copy()?, *number)),
        }
    }
}

impl VsnExpr {
    /// A copy.
    pub fn copy(&self) -> Result<VsnExpr, AllocError>
        ensures { IfOk result (λ copy. copy ≡ self.now) }
    {
        Ok(VsnExpr {
            media: self.media.copy()?,
            text: self.text.copy()?,
            line: self.line,
        })
    }
}
