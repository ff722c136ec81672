//! Why a call of the journal fails.

ghost use Rattle.std.specs.Prelude.{◌≡◌};
ghost use Rattle.journal.specs.declared.refusal.AppendRefusal.TheVariants.{BankFault as append_fault};
ghost use Rattle.journal.specs.declared.refusal.JournalRefusal.TheVariants.{BankFault as reopen_fault, NoMemory};

use bank::BankFailed;
use std::alloc::{AllocError, AllocFailed};

/// Why the reading of a journal does not begin.
#[derive(Clone, Copy, Debug, PartialEq, Eq)]
pub enum JournalRefusal {
    /// A call of the store failed, and the store counted it.
    BankFault,
    /// Memory was wanting.
    NoMemory,
}

/// Why a record is not added.
#[derive(Clone, Copy, Debug, PartialEq, Eq)]
pub enum AppendRefusal {
    /// A call of the store failed, and the store counted it.
    BankFault,
    /// The record and a closed gate behind it have no room. Nothing was touched.
    JournalFull,
}

impl From<BankFailed> for AppendRefusal {
    ghost from_gives = { λ _ e. e ≡ append_fault };

    fn from(_: BankFailed) -> Self {
        AppendRefusal::BankFault
    }
}

impl From<BankFailed> for JournalRefusal {
    ghost from_gives = { λ _ e. e ≡ reopen_fault };

    fn from(_: BankFailed) -> Self {
        JournalRefusal::BankFault
    }
}

impl From<AllocError> for JournalRefusal {
    ghost from_gives = { λ _ e. e ≡ NoMemory };

    fn from(_: AllocError) -> Self {
        JournalRefusal::NoMemory
    }
}

impl<T: Drop> From<AllocFailed<T>> for JournalRefusal {
    ghost from_gives = { λ _ e. e ≡ NoMemory };

    fn from(_: AllocFailed<T>) -> Self {
        JournalRefusal::NoMemory
    }
}
