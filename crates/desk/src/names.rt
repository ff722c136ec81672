//! The names of rules, causes and the like in answers.

ghost use Rattle.std.specs.Prelude.{◌≡◌};
ghost use Rattle.desk.specs.Texts.{rule_text, cause_text, daemon_text, file_text, state_text, truth_text, flags_text, key_text, vsn_text};

use site_events::{CommandFile, Daemon, FileState, IdleCause, Rule, Vsn};

pub fn rule_text(rule: Rule) -> &'static [u8]
    ensures { result.now ≡ rule_text rule }
{
    match rule {
        Rule::NoFile => b"no file",
        Rule::Exists => b"exists",
        Rule::BadPath => b"bad path",
        Rule::NoSpace => b"no space",
        Rule::VolumeNotAllowed => b"volume not allowed",
        Rule::LastData => b"last data",
        Rule::StillCurrent => b"still current",
        Rule::NotOffline => b"not offline",
        Rule::Never => b"never",
        Rule::QueueFull => b"queue full",
        Rule::TooLarge => b"too large",
        Rule::TooMany => b"too many",
        Rule::BadAttribute => b"bad attribute",
        Rule::NoCopy => b"no copy",
        Rule::NoVolume => b"no volume",
        Rule::Unreachable => b"unreachable",
        Rule::Running => b"running",
    }
}

pub fn cause_text(cause: IdleCause) -> &'static [u8]
    ensures { result.now ≡ cause_text cause }
{
    match cause {
        IdleCause::NothingDue => b"nothing due",
        IdleCause::NotStarted => b"not started",
        IdleCause::Waiting => b"waiting",
        IdleCause::NoDrive => b"no drive",
        IdleCause::NoVolume => b"no volume",
        IdleCause::NothingWanted => b"nothing wanted",
        IdleCause::NoSpace => b"no space",
        IdleCause::NoRelease => b"no release",
        IdleCause::BelowMark => b"below the mark",
        IdleCause::NoCandidate => b"no candidate",
        IdleCause::Draining => b"draining",
    }
}

pub fn daemon_text(daemon: Daemon) -> &'static [u8]
    ensures { result.now ≡ daemon_text daemon }
{
    match daemon {
        Daemon::Archiver => b"archiver",
        Daemon::Stager => b"stager",
        Daemon::Releaser => b"releaser",
        Daemon::Recycler => b"recycler",
    }
}

pub fn file_text(file: CommandFile) -> &'static [u8]
    ensures { result.now ≡ file_text file }
{
    match file {
        CommandFile::Site => b"site.conf",
        CommandFile::Archiver => b"archiver.cmd",
        CommandFile::Stager => b"stager.cmd",
        CommandFile::Releaser => b"releaser.cmd",
        CommandFile::Recycler => b"recycler.cmd",
    }
}

pub fn state_text(state: FileState) -> &'static [u8]
    ensures { result.now ≡ state_text state }
{
    match state {
        FileState::Online => b"online",
        FileState::Offline => b"offline",
        FileState::Partial => b"partial",
    }
}

pub fn truth_text(truth: bool) -> &'static [u8]
    ensures { result.now ≡ truth_text truth }
{
    if truth { b"yes" } else { b"no" }
}

/// Whether a volume is read-only, unavailable, recycling.
pub fn flags_text(readonly: bool, unavailable: bool, recycling: bool) -> [u8; 3]
    ensures { result ≡ flags_text readonly unavailable recycling }
{
    [
        if readonly { b'R' } else { b'-' },
        if unavailable { b'U' } else { b'-' },
        if recycling { b'c' } else { b'-' },
    ]
}

/// A reservation's key, or `-`.
pub fn key_text(key: &[u8]) -> &[u8]
    ensures { result.now ≡ key_text key.now }
{
    if key.is_empty() { b"-" } else { key }
}

/// The bytes of a volume's name.
pub fn vsn_text(vsn: &Vsn) -> &[u8]
    ensures { result.now ≡ vsn_text vsn.now }
{
    let length = usize::from(vsn.length).min(vsn.bytes.len());
    &vsn.bytes[..length]
}
