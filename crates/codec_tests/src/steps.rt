//! The form of each kind, written out by hand.

use site_types::{
    AttributedStep, DamagedStep, FileCopy, Flag, FlaggedStep, RelabelledStep, ReleaseKind,
    ReleasedStep, Run, StageKind, StepKind, VolumeEnd,
};
use std::alloc::Global;
use std::test::Fail;
use step_codec::{StepRefusal, decode_step, encode_step};

// Moment 5, then the fields.
const CONFIGURED: &[u8] =
    b"\x01\x05\0\0\0\0\0\0\0\x01\0\0\0a\0\0\0\0\x02\0\0\0bc\0\0\0\0\x01\0\0\0d";

const PUT: &[u8] =
    b"\x02\x05\0\0\0\0\0\0\0\x07\0\0\0\0\0\0\0\x02\0\0\0/a\x01\0\0\0u\x01\0\0\0g\x02\x01\0\0\0\0\0\0\x02\0\0\0\x03\0\0\0\x01\0\0\0\x09\0\0\0\x02\0\0\0";

const ACCESSED: &[u8] = b"\x03\x05\0\0\0\0\0\0\0\x07\0\0\0\0\0\0\0";

const REMOVED: &[u8] = b"\x04\x05\0\0\0\0\0\0\0\xFE\xFF\xFF\xFF\0\0\0\0";

const RENAMED: &[u8] = b"\x05\x05\0\0\0\0\0\0\0\x07\0\0\0\0\0\0\0\x02\0\0\0/b";

const ATTRIBUTED: &[u8] = b"\x06\x05\0\0\0\0\0\0\0\x07\0\0\0\0\0\0\0\x03\0\x20\0\0\0\0\0\0\x02";

const COPY_MADE: &[u8] =
    b"\x07\x05\0\0\0\0\0\0\0\x02\0\0\0\0\0\0\0\x01\0\0\0\0\0\0\0\0\0\0\0\x01\0\0\0\x07\0\0\0\0\0\0\0\x03\0\0\0\0\0\0\0\x01\0\0\0\x04\0\0\0\0\0\0\0\x01\0\0\0\0\0\0\0\0\x02\0\0\0\0\0\0\x05\0\0\0\0\0\0\0\x01\0\0\0\x04\0\0\0\0\0\0\0\0\x04\0\0\0\0\0\0";

const REARCHIVE: &[u8] = b"\x08\x05\0\0\0\0\0\0\0\x07\0\0\0\0\0\0\0\x01\0\0\0\0\0\0\0";

const UNARCHIVED: &[u8] = b"\x09\x05\0\0\0\0\0\0\0\x07\0\0\0\0\0\0\0\x04\0\0\0\0\0\0\0";

const RELEASED: &[u8] = b"\x0A\x05\0\0\0\0\0\0\0\x07\0\0\0\0\0\0\0\0\x40\0\0\0\0\0\0";

const WANTED: &[u8] = b"\x0B\x05\0\0\0\0\0\0\0\x02\0\0\0\x08\0\0\0\0\0\0\0\x07\0\0\0\0\0\0\0";

const STAGED: &[u8] =
    b"\x0C\x05\0\0\0\0\0\0\0\x07\0\0\0\0\0\0\0\x02\0\0\0\0\0\0\0\x01\0\0\0\x06\0\0\0\x04\0\0\0";

const STAGE_FAILED: &[u8] = b"\x0D\x05\0\0\0\0\0\0\0\x07\0\0\0\0\0\0\0";

const DAMAGED: &[u8] = b"\x0E\x05\0\0\0\0\0\0\0\x07\0\0\0\0\0\0\0\x03\0\0\0\0\0\0\0\x01";

const RECYCLING: &[u8] = b"\x0F\x05\0\0\0\0\0\0\0\x02\x01\0\0\0\0\0\0";

const RELABELLED: &[u8] = b"\x10\x05\0\0\0\0\0\0\0\x02\0\0\0\0\0\0\0\x06\0\0\0\0\0\0\0";

const FLAGGED: &[u8] = b"\x11\x05\0\0\0\0\0\0\0\x02\0\0\0\0\0\0\0\x01\0";

// The step that the bytes are the form of, and whether it is written so again.
fn is_form(alloc: Global, bytes: &[u8]) -> Result<Option<StepKind>, StepRefusal> {
    let step = decode_step(alloc, bytes)?;
    let mut written = Vec::new(alloc);
    encode_step(&step, &mut written)?;
    let same = written.as_slice() == bytes && step.moment == 5;
    Ok(if same { Some(step.kind) } else { None })
}

#[test]
fn a_configuration(rt: HostRuntime) -> Result<(), Fail> {
    let Some(StepKind::Configured(texts)) = is_form(rt.alloc(), CONFIGURED)? else {
        return Err("another step")?;
    };
    assert!(rt; texts.site.as_slice() == b"a".as_slice() && texts.archiver.is_empty());
    assert!(rt; texts.stager.as_slice() == b"bc".as_slice() && texts.releaser.is_empty());
    assert!(rt; texts.recycler.as_slice() == b"d".as_slice());
    Ok(())
}

#[test]
fn a_put(rt: HostRuntime) -> Result<(), Fail> {
    let Some(StepKind::Put(put)) = is_form(rt.alloc(), PUT)? else {
        return Err("another step")?;
    };
    let runs = [Run { first: 3, count: 1 }, Run { first: 9, count: 2 }];
    assert!(rt; put.inode == 7 && put.length == 258 && put.path.as_slice() == b"/a".as_slice());
    assert!(rt; put.owner.as_slice() == b"u".as_slice() && put.group.as_slice() == b"g".as_slice());
    assert!(rt; put.runs.as_slice() == runs.as_slice());
    Ok(())
}

#[test]
fn an_access(rt: HostRuntime) -> Result<(), Fail> {
    let step = is_form(rt.alloc(), ACCESSED)?;
    assert!(rt; matches!(&step, Some(StepKind::Accessed { inode }) if *inode == 7));
    Ok(())
}

#[test]
fn a_removal(rt: HostRuntime) -> Result<(), Fail> {
    let step = is_form(rt.alloc(), REMOVED)?;
    assert!(rt; matches!(&step, Some(StepKind::Removed { inode }) if *inode == 4_294_967_294));
    Ok(())
}

#[test]
fn a_new_path(rt: HostRuntime) -> Result<(), Fail> {
    let step = is_form(rt.alloc(), RENAMED)?;
    assert!(rt;
        matches!(&step, Some(StepKind::Renamed(x)) if x.inode == 7 && x.path.as_slice() == b"/b".as_slice())
    );
    Ok(())
}

#[test]
fn new_attributes(rt: HostRuntime) -> Result<(), Fail> {
    let step = is_form(rt.alloc(), ATTRIBUTED)?;
    let expected = AttributedStep {
        inode: 7,
        release: ReleaseKind::Partial,
        partial: 8192,
        stage: StageKind::Associative,
    };
    assert!(rt; matches!(&step, Some(StepKind::Attributed(x)) if *x == expected));
    Ok(())
}

#[test]
fn an_archive_run(rt: HostRuntime) -> Result<(), Fail> {
    let Some(StepKind::CopyMade(made)) = is_form(rt.alloc(), COPY_MADE)? else {
        return Err("another step")?;
    };
    let ends = [VolumeEnd {
        volume: 4,
        used: 1024,
    }];
    assert!(rt; made.set == 2 && made.copy == 1 && made.key.is_empty());
    assert!(rt; made.members.len() == 1 && made.ends.as_slice() == ends.as_slice());
    Ok(())
}

#[test]
fn a_copy_to_be_made_again(rt: HostRuntime) -> Result<(), Fail> {
    let step = is_form(rt.alloc(), REARCHIVE)?;
    assert!(rt;
        matches!(&step, Some(StepKind::Rearchive(x)) if *x == FileCopy { inode: 7, copy: 1 })
    );
    Ok(())
}

#[test]
fn a_copy_given_up(rt: HostRuntime) -> Result<(), Fail> {
    let step = is_form(rt.alloc(), UNARCHIVED)?;
    assert!(rt;
        matches!(&step, Some(StepKind::Unarchived(x)) if *x == FileCopy { inode: 7, copy: 4 })
    );
    Ok(())
}

#[test]
fn a_release(rt: HostRuntime) -> Result<(), Fail> {
    let step = is_form(rt.alloc(), RELEASED)?;
    assert!(rt;
        matches!(&step, Some(StepKind::Released(x)) if *x == ReleasedStep { inode: 7, cached: 16_384 })
    );
    Ok(())
}

#[test]
fn wanted_files(rt: HostRuntime) -> Result<(), Fail> {
    let step = is_form(rt.alloc(), WANTED)?;
    assert!(rt;
        matches!(&step, Some(StepKind::Wanted { inodes }) if inodes.as_slice() == [8, 7].as_slice())
    );
    Ok(())
}

#[test]
fn a_stage(rt: HostRuntime) -> Result<(), Fail> {
    let Some(StepKind::Staged(staged)) = is_form(rt.alloc(), STAGED)? else {
        return Err("another step")?;
    };
    let runs = [Run { first: 6, count: 4 }];
    assert!(rt; staged.inode == 7 && staged.copy == 2 && staged.runs.as_slice() == runs.as_slice());
    Ok(())
}

#[test]
fn a_failed_stage(rt: HostRuntime) -> Result<(), Fail> {
    let step = is_form(rt.alloc(), STAGE_FAILED)?;
    assert!(rt; matches!(&step, Some(StepKind::StageFailed { inode }) if *inode == 7));
    Ok(())
}

#[test]
fn a_damaged_copy(rt: HostRuntime) -> Result<(), Fail> {
    let step = is_form(rt.alloc(), DAMAGED)?;
    assert!(rt;
        matches!(&step, Some(StepKind::Damaged(x)) if *x == DamagedStep { inode: 7, copy: 3, on: true })
    );
    Ok(())
}

#[test]
fn a_volume_to_be_recycled(rt: HostRuntime) -> Result<(), Fail> {
    let step = is_form(rt.alloc(), RECYCLING)?;
    assert!(rt; matches!(&step, Some(StepKind::Recycling { volume }) if *volume == 258));
    Ok(())
}

#[test]
fn a_new_label(rt: HostRuntime) -> Result<(), Fail> {
    let step = is_form(rt.alloc(), RELABELLED)?;
    assert!(rt;
        matches!(&step, Some(StepKind::Relabelled(x)) if *x == RelabelledStep { volume: 2, label: 6 })
    );
    Ok(())
}

#[test]
fn a_flag(rt: HostRuntime) -> Result<(), Fail> {
    let step = is_form(rt.alloc(), FLAGGED)?;
    let expected = FlaggedStep {
        volume: 2,
        flag: Flag::Unavailable,
        on: false,
    };
    assert!(rt; matches!(&step, Some(StepKind::Flagged(x)) if *x == expected));
    Ok(())
}

#[test]
fn refusals(rt: HostRuntime) {
    let rows: [(&[u8], StepRefusal); 12] = [
        (b"", StepRefusal::Truncated),
        (b"\x03\x05\0\0", StepRefusal::Truncated),
        (&ACCESSED[..16], StepRefusal::Truncated),
        // The path is longer than what is left.
        (
            b"\x05\x05\0\0\0\0\0\0\0\x07\0\0\0\0\0\0\0\x03\0\0\0/b",
            StepRefusal::Truncated,
        ),
        // A list of four milliards of inodes.
        (
            b"\x0B\x05\0\0\0\0\0\0\0\xFF\xFF\xFF\xFF\x08\0\0\0\0\0\0\0",
            StepRefusal::Truncated,
        ),
        (b"\0\x05\0\0\0\0\0\0\0", StepRefusal::BadKind),
        (b"\x12", StepRefusal::BadKind),
        // Inode 0, moment 2^40, copy 5, a truth value of 2.
        (
            b"\x03\x05\0\0\0\0\0\0\0\0\0\0\0\0\0\0\0",
            StepRefusal::BadField,
        ),
        (b"\x03\0\0\0\0\0\x01\0\0", StepRefusal::BadField),
        (
            b"\x08\x05\0\0\0\0\0\0\0\x07\0\0\0\0\0\0\0\x05\0\0\0\0\0\0\0",
            StepRefusal::BadField,
        ),
        (
            b"\x0E\x05\0\0\0\0\0\0\0\x07\0\0\0\0\0\0\0\x03\0\0\0\0\0\0\0\x02",
            StepRefusal::BadField,
        ),
        // A byte follows the last field.
        (
            b"\x03\x05\0\0\0\0\0\0\0\x07\0\0\0\0\0\0\0\0",
            StepRefusal::BadField,
        ),
    ];
    for (bytes, refusal) in rows {
        assert!(rt; matches!(decode_step(rt.alloc(), bytes), Err(e) if e == refusal));
    }
}
