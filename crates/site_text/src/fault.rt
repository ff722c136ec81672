//! Why a command file is refused.

ghost use Rattle.std.specs.Prelude.{◌≡◌};
ghost use Rattle.site_text.specs.Faults.{fault_text, refused_at};

use std::alloc::AllocError;

/// What is wrong with a line. Of two faults at one field the one that stands first here is told, but for a mark of site.conf, whose
/// form and range are looked at before the other mark.
#[derive(Clone, Copy, Debug, PartialEq, Eq)]
pub enum ConfFault {
    /// A name, an option or a criterion is none of those that may stand there.
    UnknownDirective = 1,
    /// A field that must follow is not there.
    MissingField,
    /// A field follows where none may.
    ExtraField,
    /// A field is not of its form.
    BadValue,
    /// A copy line stands before any set.
    CopyBeforeSet,
    /// The set has that copy number already.
    CopyTwice,
    /// A name names no set so far.
    UnknownSet,
    /// A name names no pool so far.
    UnknownPool,
    /// The text ends inside a section, whose first line this is.
    SectionNotClosed,
    /// A limit is exceeded at this line.
    TooMany,
    /// Two things exclude each other.
    Conflict,
    /// A name or a directive stands a second time.
    Duplicate,
    /// A number is of its form and outside its range.
    OutOfRange,
    /// The text is not UTF-8, or its last line goes on in a next one that is not there.
    NotText,
}

impl ConfFault {
    /// The words that tell it.
    pub fn text(self) -> &'static str
        ensures { result.now ≡ fault_text self }
    {
        match self {
            ConfFault::UnknownDirective => "unknown directive",
            ConfFault::MissingField => "missing field",
            ConfFault::ExtraField => "extra field",
            ConfFault::BadValue => "bad value",
            ConfFault::CopyBeforeSet => "copy before set",
            ConfFault::CopyTwice => "copy twice",
            ConfFault::UnknownSet => "unknown set",
            ConfFault::UnknownPool => "unknown pool",
            ConfFault::SectionNotClosed => "section not closed",
            ConfFault::TooMany => "too many",
            ConfFault::Conflict => "conflict",
            ConfFault::Duplicate => "duplicate",
            ConfFault::OutOfRange => "out of range",
            ConfFault::NotText => "not text",
        }
    }
}

/// The first line of a command file that is wrong, counted from 1, and what is wrong with it.
#[derive(Clone, Copy, Debug, PartialEq, Eq)]
pub struct ConfRefusal {
    pub line: u32,
    pub fault: ConfFault,
}

/// Why there is no configuration.
#[derive(Clone, Copy, Debug, PartialEq, Eq)]
pub enum ConfError {
    Refused(ConfRefusal),
    NoMemory,
}

impl From<AllocError> for ConfError {
    ghost use Rattle.std.specs.Prelude.{◌≡◌};
    ghost use Rattle.site_text.specs.declared.fault.ConfError.TheVariants.{NoMemory};

    ghost from_gives = { λ _ e. e ≡ NoMemory };

    fn from(_e: AllocError) -> ConfError {
        ConfError::NoMemory
    }
}

/// Why a line, or a field of it, is not read.
#[derive(Clone, Copy, Debug, PartialEq, Eq)]
pub enum LineError {
    Fault(ConfFault),
    NoMemory,
}

impl LineError {
    /// The same, of the line with this number.
    pub fn at_line(self, line: u32) -> ConfError
        ensures { result ≡ refused_at line self }
    {
        match self {
            LineError::Fault(fault) => ConfError::Refused(ConfRefusal { line, fault }),
            LineError::NoMemory => ConfError::NoMemory,
        }
    }
}

impl From<ConfFault> for LineError {
    ghost use Rattle.std.specs.Prelude.{◌≡◌};
    ghost use Rattle.site_text.specs.declared.fault.LineError.TheVariants.{Fault};

    ghost from_gives = { λ fault e. e ≡ Fault fault };

    fn from(fault: ConfFault) -> LineError {
        LineError::Fault(fault)
    }
}

impl From<AllocError> for LineError {
    ghost use Rattle.std.specs.Prelude.{◌≡◌};
    ghost use Rattle.site_text.specs.declared.fault.LineError.TheVariants.{NoMemory};

    ghost from_gives = { λ _ e. e ≡ NoMemory };

    fn from(_e: AllocError) -> LineError {
        LineError::NoMemory
    }
}
