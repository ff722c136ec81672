//! A configuration as a text: all its fields, one behind the other.

use archiver_cmd::{
    ArchiverConf, Assignment, CopyConf, CopyName, ParamsLine, SetConf, VsnsGroup, read_archiver,
};
use base::{Bytes, COMMAND_FILE_MAX};
use std::alloc::{AllocError, Global};
use std::test::Fail;

fn put_text(shown: &mut Bytes, label: &[u8], text: &Option<Bytes>) -> Result<(), AllocError> {
    if let Some(text) = text {
        shown.extend(label)?;
        shown.extend(text.as_slice())?;
    }
    Ok(())
}

fn put_number(
    shown: &mut Bytes,
    alloc: Global,
    label: &[u8],
    number: Option<u64>,
) -> Result<(), AllocError> {
    if let Some(number) = number {
        shown.extend(label)?;
        let digits = format!(in alloc; "{number}")?;
        shown.extend(digits.as_bytes())?;
    }
    Ok(())
}

/// `|a LINE SET LOCAL PATH`, the criteria that are given, and both attributes.
fn put_assignment(
    shown: &mut Bytes,
    alloc: Global,
    assignment: &Assignment,
) -> Result<(), AllocError> {
    let Assignment { line, local, .. } = assignment;
    let front = format!(in alloc; "|a {line} ")?;
    shown.extend(front.as_bytes())?;
    shown.extend(assignment.set.as_slice())?;
    let part = format!(in alloc; " {local:?} ")?;
    shown.extend(part.as_bytes())?;
    shown.extend(assignment.path.as_slice())?;
    put_text(shown, b" name=", &assignment.name)?;
    put_text(shown, b" user=", &assignment.user)?;
    put_text(shown, b" group=", &assignment.group)?;
    put_number(shown, alloc, b" min=", assignment.minsize)?;
    put_number(shown, alloc, b" max=", assignment.maxsize)?;
    put_number(shown, alloc, b" access=", assignment.access)?;
    let (release, stage) = (assignment.release, assignment.stage);
    let attributes = format!(in alloc; " {release:?} {stage:?}")?;
    shown.extend(attributes.as_bytes())
}

/// `COPY@AGE`, behind it `+UNAGE`, `r` for release and `n` for norelease.
fn put_copy(shown: &mut Bytes, alloc: Global, conf: CopyConf) -> Result<(), AllocError> {
    let CopyConf { copy, age, .. } = conf;
    let front = format!(in alloc; " {copy}@{age}")?;
    shown.extend(front.as_bytes())?;
    put_number(shown, alloc, b"+", conf.unage)?;
    if conf.release {
        shown.push(b'r')?;
    }
    if conf.norelease {
        shown.push(b'n')?;
    }
    Ok(())
}

/// `|s NAME` and the copies.
fn put_set(shown: &mut Bytes, alloc: Global, set: &SetConf) -> Result<(), AllocError> {
    shown.extend(b"|s ")?;
    shown.extend(set.name.as_slice())?;
    for conf in set.copies.as_slice() {
        put_copy(shown, alloc, *conf)?;
    }
    Ok(())
}

fn put_name(shown: &mut Bytes, alloc: Global, name: &CopyName) -> Result<(), AllocError> {
    match name {
        CopyName::AllSets => shown.extend(b"allsets"),
        CopyName::AllSetsCopy(number) => {
            shown.extend(b"allsets")?;
            put_number(shown, alloc, b".", Some(u64::from(*number)))
        }
        CopyName::SetCopy(set, number) => {
            shown.extend(set.as_slice())?;
            put_number(shown, alloc, b".", Some(u64::from(*number)))
        }
    }
}

/// `|p NAME` and what is given.
fn put_params(shown: &mut Bytes, alloc: Global, line: &ParamsLine) -> Result<(), AllocError> {
    shown.extend(b"|p ")?;
    put_name(shown, alloc, &line.name)?;
    for given in line.given.as_slice() {
        let option = format!(in alloc; " {given:?}")?;
        shown.extend(option.as_bytes())?;
    }
    Ok(())
}

/// `|v NAME` and the expressions as `MEDIA:TEXT@LINE`.
fn put_group(shown: &mut Bytes, alloc: Global, group: &VsnsGroup) -> Result<(), AllocError> {
    shown.extend(b"|v ")?;
    put_name(shown, alloc, &group.name)?;
    for expr in group.exprs.as_slice() {
        shown.push(b' ')?;
        shown.extend(expr.media.as_slice())?;
        shown.push(b':')?;
        shown.extend(expr.text.as_slice())?;
        put_number(shown, alloc, b"@", Some(u64::from(expr.line)))?;
    }
    Ok(())
}

/// Assignments, sets, params, volumes, and `|V` where there is a vsns section.
fn shown(alloc: Global, conf: &ArchiverConf) -> Result<Bytes, AllocError> {
    let mut text = Bytes::new(alloc);
    for assignment in conf.assignments.as_slice() {
        put_assignment(&mut text, alloc, assignment)?;
    }
    for set in conf.sets.as_slice() {
        put_set(&mut text, alloc, set)?;
    }
    for line in conf.params.as_slice() {
        put_params(&mut text, alloc, line)?;
    }
    for group in conf.vsns.as_slice() {
        put_group(&mut text, alloc, group)?;
    }
    if conf.has_vsns {
        text.extend(b"|V")?;
    }
    Ok(text)
}

/// What a text says, for a site with this file system.
pub fn shown_in(alloc: Global, text: &[u8], fs: &[u8]) -> Result<Bytes, Fail> {
    if text.len() > COMMAND_FILE_MAX {
        return Err("a long text".into());
    }
    Ok(shown(alloc, &read_archiver(alloc, text, fs)?)?)
}
