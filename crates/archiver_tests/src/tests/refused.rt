//! Texts that are refused.

use super::refusal;
use site_text::ConfFault;
use std::test::Fail;

/// A text that is refused, at which line, and why.
type Refused = (&'static [u8], u32, ConfFault);

/// Lines of no directive, with fields that lack or are too many.
const FORMS: [Refused; 41] = [
    (b"set1 work -color red", 1, ConfFault::UnknownDirective),
    (
        b"a .\n1\nset1 work -color red",
        3,
        ConfFault::UnknownDirective,
    ),
    (b"wait", 1, ConfFault::UnknownDirective),
    (b"endvsns", 1, ConfFault::UnknownDirective),
    (b"archmax = 1M", 1, ConfFault::UnknownDirective),
    (b"a .\n1 -force", 2, ConfFault::UnknownDirective),
    (b"a .\n1 -release -force", 2, ConfFault::UnknownDirective),
    (
        b"params\nallsets -offline_copy none\nendparams",
        2,
        ConfFault::UnknownDirective,
    ),
    (
        b"params\nallsets -priority age 1\nendparams",
        2,
        ConfFault::UnknownDirective,
    ),
    (b"ovflmin = li 1G", 1, ConfFault::UnknownDirective),
    (b"a . -after 2020-01-01", 1, ConfFault::UnknownDirective),
    (b"endparams", 1, ConfFault::UnknownDirective),
    (b"endvsnpools", 1, ConfFault::UnknownDirective),
    (b"1 = 2", 1, ConfFault::UnknownDirective),
    (b"a . -frob -minsize", 1, ConfFault::UnknownDirective),
    (b"a .\n1 -x 1q", 2, ConfFault::UnknownDirective),
    (b"# c\nfrob =\nfs =", 2, ConfFault::UnknownDirective),
    (b"fs =", 1, ConfFault::MissingField),
    (b"= x", 1, ConfFault::MissingField),
    (b"interval =", 1, ConfFault::MissingField),
    (b"a", 1, ConfFault::MissingField),
    (b"a . -minsize", 1, ConfFault::MissingField),
    (b"vsnpools\np li\nendvsnpools", 2, ConfFault::MissingField),
    (b"vsns\nallsets li\nendvsns", 2, ConfFault::MissingField),
    (
        b"vsns\nallsets li -pool\nendvsns",
        2,
        ConfFault::MissingField,
    ),
    (
        b"params\nallsets -archmax\nallsets",
        2,
        ConfFault::MissingField,
    ),
    (b"a .\\\n-x\nb", 3, ConfFault::MissingField),
    (b"a .\n1\ncopy\n1", 3, ConfFault::MissingField),
    (b"archivemeta =", 1, ConfFault::MissingField),
    (b"a \\\n\nb", 1, ConfFault::MissingField),
    (b"vsnpools\np\nendvsnpools", 2, ConfFault::MissingField),
    (b"vsns\nallsets\nendvsns", 2, ConfFault::MissingField),
    (
        b"params\nallsets -archmax 1 -reserve\nendparams",
        2,
        ConfFault::MissingField,
    ),
    (b"fs = samfs1 x", 1, ConfFault::ExtraField),
    (b"archivemeta = off off", 1, ConfFault::ExtraField),
    (b"a . b", 1, ConfFault::ExtraField),
    (b"a .\n1 1 2 -release", 2, ConfFault::ExtraField),
    (b"a .\n1 -release -release", 2, ConfFault::ExtraField),
    (
        b"params\nallsets -lock on\nendparams",
        2,
        ConfFault::ExtraField,
    ),
    (b"a .\n1 1 2 x", 2, ConfFault::ExtraField),
    (b"a . -minsize 1 2 -frob", 1, ConfFault::ExtraField),
];

/// Fields that are not of their form or out of their range.
const VALUES: [Refused; 57] = [
    (b"archivemeta = on", 1, ConfFault::BadValue),
    (b"fs = a/b", 1, ConfFault::BadValue),
    (b"-foo .", 1, ConfFault::BadValue),
    (b"s-t .", 1, ConfFault::BadValue),
    (b"a /x", 1, ConfFault::BadValue),
    (b"a x/../y", 1, ConfFault::BadValue),
    (b"a .\n1x", 2, ConfFault::BadValue),
    (b"a .\n1 1q", 2, ConfFault::BadValue),
    (b"a .\n1 1 -release", 2, ConfFault::BadValue),
    (b"a . -minsize 1q", 1, ConfFault::BadValue),
    (b"a . -release x", 1, ConfFault::BadValue),
    (b"params\na\nendparams", 2, ConfFault::BadValue),
    (b"a .\nparams\na.5\nendparams", 3, ConfFault::BadValue),
    (
        b"params\nallsets -bufsize=x\nendparams",
        2,
        ConfFault::BadValue,
    ),
    (b"vsns\nallsets l x\nendvsns", 2, ConfFault::BadValue),
    (b"a .\nparams\n\nendparams x", 4, ConfFault::BadValue),
    (b"a .\nparams\nendvsns", 3, ConfFault::BadValue),
    (b"archivemeta = on off", 1, ConfFault::BadValue),
    (b"fs = a/b c", 1, ConfFault::BadValue),
    (b"-foo", 1, ConfFault::BadValue),
    (b"abcdefghijklmnopqrstuvwxyzABCD .", 1, ConfFault::BadValue),
    (b"_a .", 1, ConfFault::BadValue),
    (b"a x/", 1, ConfFault::BadValue),
    (b"a x//y", 1, ConfFault::BadValue),
    (b"a .. -frob", 1, ConfFault::BadValue),
    (b"a x/./y", 1, ConfFault::BadValue),
    (b"a x\xc2\x85y", 1, ConfFault::BadValue),
    (b"a x\x7f", 1, ConfFault::BadValue),
    (b"a . -user a/b", 1, ConfFault::BadValue),
    (
        b"a . -group abcdefghijklmnopqrstuvwxyz0123456",
        1,
        ConfFault::BadValue,
    ),
    (b"a . -access 1x", 1, ConfFault::BadValue),
    (b"a . -access 34866y", 1, ConfFault::BadValue),
    (b"a . -maxsize 1024T", 1, ConfFault::BadValue),
    (b"a . -stage p", 1, ConfFault::BadValue),
    (b"1x", 1, ConfFault::BadValue),
    (b"a .\n1x\nfrob =", 2, ConfFault::BadValue),
    (b"a .\n1 -release 1q 2", 2, ConfFault::BadValue),
    (b"a .\n1 1 1q x", 2, ConfFault::BadValue),
    (b"params\nx.5\nendparams", 2, ConfFault::BadValue),
    (b"params\nallsets.0\nendparams", 2, ConfFault::BadValue),
    (b"params\nsamfs1 -lock\nendparams", 2, ConfFault::BadValue),
    (
        b"params\nallsets -join x -frob\nendparams",
        2,
        ConfFault::BadValue,
    ),
    (
        b"params\nallsets -sort -rsort\nendparams",
        2,
        ConfFault::BadValue,
    ),
    (
        b"params\nallsets -bufsize=\nendparams",
        2,
        ConfFault::BadValue,
    ),
    (
        b"params\nallsets -drivemin x\nendparams",
        2,
        ConfFault::BadValue,
    ),
    (
        b"params\nallsets -unarchage never\nendparams",
        2,
        ConfFault::BadValue,
    ),
    (b"vsnpools\np LI x\nendvsnpools", 2, ConfFault::BadValue),
    (b"vsns\nallsets LI\nendvsns", 2, ConfFault::BadValue),
    (
        b"fs = f\nvsns\nallsets.5 l\nendvsns",
        3,
        ConfFault::BadValue,
    ),
    (b"no_archive .\n1x", 2, ConfFault::BadValue),
    (b"a .\n0", 2, ConfFault::OutOfRange),
    (b"a .\n5 -x", 2, ConfFault::OutOfRange),
    (
        b"params\nallsets -startcount 0\nendparams",
        2,
        ConfFault::OutOfRange,
    ),
    (
        b"params\nallsets -recycle_hwm 101 -x\nendparams",
        2,
        ConfFault::OutOfRange,
    ),
    (b"a .\n09", 2, ConfFault::OutOfRange),
    (b"a .\n1\n5\n5", 3, ConfFault::OutOfRange),
    (
        b"params\nallsets -recycle_mingain 101\nendparams\nfrob",
        2,
        ConfFault::OutOfRange,
    ),
];

/// Lines against others, and texts that are refused as a whole.
const AGAINST_OTHERS: [Refused; 32] = [
    (b"1", 1, ConfFault::CopyBeforeSet),
    (b"9", 1, ConfFault::CopyBeforeSet),
    (b"\n5", 2, ConfFault::CopyBeforeSet),
    (
        b"params\nendparams\n1 -release -norelease",
        3,
        ConfFault::CopyBeforeSet,
    ),
    (b"a .\n1\nfs = samfs1\n1\na .\n1", 6, ConfFault::CopyTwice),
    (b"a .\n1\n1 1q", 3, ConfFault::CopyTwice),
    (b"a .\n1 1\\\n2m3\n1", 4, ConfFault::CopyTwice),
    (b"a .\n1\n2\n1 -x", 4, ConfFault::CopyTwice),
    (
        b"fs = samfs1\n3\nfs = x\n3\nfs = samfs1\n3",
        6,
        ConfFault::CopyTwice,
    ),
    (b"params\na.1\nendparams\na .", 2, ConfFault::UnknownSet),
    (b"vsns\nfilm.1 li x\nendvsns", 2, ConfFault::UnknownSet),
    (
        b"a .\nparams\na.1\nb.1 -frob\nendparams",
        4,
        ConfFault::UnknownSet,
    ),
    (b"vsns\nb.1 LI\nendvsns", 2, ConfFault::UnknownSet),
    (
        b"vsns\nallsets li -pool p\nendvsns\nvsnpools\np li x\nendvsnpools",
        2,
        ConfFault::UnknownPool,
    ),
    (
        b"vsnpools\np li x\nendvsnpools\nvsns\nallsets li -pool p -pool q -pool\nendvsns",
        5,
        ConfFault::UnknownPool,
    ),
    (b"a .\n vsns\nallsets li x", 2, ConfFault::SectionNotClosed),
    (
        b"params\nallsets\nendparams\nvsnpools\np li x",
        4,
        ConfFault::SectionNotClosed,
    ),
    (b"a .\n\npar\\\nams", 3, ConfFault::SectionNotClosed),
    (b"allsets .", 1, ConfFault::Conflict),
    (b"a .\n1 -release -norelease", 2, ConfFault::Conflict),
    (b"no_archive .\n1", 2, ConfFault::Conflict),
    (
        b"params\nallsets -reserve dir -reserve set\nallsets -reserve user\nendparams",
        3,
        ConfFault::Conflict,
    ),
    (b"allsets", 1, ConfFault::Conflict),
    (b"a .\n1 -norelease -release 1q", 2, ConfFault::Conflict),
    (b"no_archive .\n1 x", 2, ConfFault::Conflict),
    (b"no_archive .\n5", 2, ConfFault::Conflict),
    (b"fs = no_archive\n1", 2, ConfFault::Conflict),
    (
        b"params\nallsets -reserve user -reserve group -frob\nendparams",
        2,
        ConfFault::Conflict,
    ),
    (b"x\n\xff", 2, ConfFault::NotText),
    (b"x\n1\\", 2, ConfFault::NotText),
    (b"a .\n\xc3(", 2, ConfFault::NotText),
    (b"params\\\r\n", 1, ConfFault::NotText),
];

#[test]
fn refuses_forms(rt: HostRuntime) -> Result<(), Fail> {
    for (text, line, fault) in FORMS {
        assert_eq!(rt; refusal(rt.alloc(), text)?, Some((line, fault)));
    }
    Ok(())
}

#[test]
fn refuses_values(rt: HostRuntime) -> Result<(), Fail> {
    for (text, line, fault) in VALUES {
        assert_eq!(rt; refusal(rt.alloc(), text)?, Some((line, fault)));
    }
    Ok(())
}

#[test]
fn refuses_what_is_against_others(rt: HostRuntime) -> Result<(), Fail> {
    for (text, line, fault) in AGAINST_OTHERS {
        assert_eq!(rt; refusal(rt.alloc(), text)?, Some((line, fault)));
    }
    Ok(())
}
