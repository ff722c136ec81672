//! What archiver.cmd says as a whole.

ghost use Rattle.std.specs.Prelude.{◌≡◌, ◌++◌, ◌&&◌, ◌==◌, ◌<◌, ◌∷◌, [], List as Seq, OnOk, IfOk, IfSome, length, map, filter, unwrap_or};
ghost use Rattle.std.specs.Str.{bytes_eq};
ghost use Rattle.std.specs.List.{list_any};
ghost use Rattle.std.specs.Option.{option_map, option_copied};
ghost use Rattle.archiver_lines.specs.declared.reading.Reading.{Reading};
ghost use Rattle.archiver_lines.specs.declared.reading.CopyName.{CopyName};
ghost use Rattle.archiver_lines.specs.Names.{same_name};
ghost use Rattle.archiver_cmd.specs.Levels.{name_at};
ghost use Rattle.archiver_cmd.specs.Params.{AreParams};
ghost use Rattle.archiver_lines.specs.KnownSteps.{Knows};
ghost use Rattle.archiver_cmd.specs.Conf.{is_copy_of, copies_numbered, given_copies, default_copy, set_copies, set_conf, exprs_under, exprs_in, with_name, group_of, groups_of, exprs_for, Tells};

use crate::levels::{Level, is_named};
use crate::params::{Params, params_of_copy};
use archiver_lines::{
    Assignment, CopyConf, CopyName, DEFAULT_AGE, Known, ParamsLine, SetCopy, VsnExpr, VsnsLine,
    mention, same_name,
};
use base::{Bytes, List};
use std::alloc::{AllocError, Global};

/// A set with its copies.
#[derive(Debug, Drop)]
pub struct SetConf {
    pub name: Bytes,
    /// By their numbers; none of `no_archive`, and of another set at least one.
    pub copies: List<CopyConf>,
}

/// The expressions for volumes that stand under a name.
#[derive(Debug, Drop)]
pub struct VsnsGroup {
    pub name: CopyName,
    pub exprs: List<VsnExpr>,
}

/// What archiver.cmd says.
#[derive(Debug, Drop)]
pub struct ArchiverConf {
    /// The assignment lines, in file order.
    pub assignments: List<Assignment>,
    /// The sets, in the order of their first mention; the set of the site's file system last where no line mentions it.
    pub sets: List<SetConf>,
    /// The lines of params, in file order.
    pub params: List<ParamsLine>,
    /// The names of vsns lines, in the order of their first lines, each with the expressions of all its lines.
    pub vsns: List<VsnsGroup>,
    /// There is a vsns section.
    pub has_vsns: bool,
}

fn is_copy_of(line: &SetCopy, set: &[u8], number: u8) -> bool
    ensures { result ≡ is_copy_of set.now number line.now }
{
    line.set.as_slice() == set && line.conf.copy == number
}

/// Puts the copy of a set of this number at the end, if its lines give one.
fn put_copy(
    found: &mut List<CopyConf>,
    copies: &[SetCopy],
    set: &[u8],
    number: u8,
) -> Result<(), AllocError>
    ensures { OnOk result (found.new ≡ found.old ++ copies_numbered copies.now set.now number) }
{
    for line in copies {
        if is_copy_of(line, set, number) {
            found.push(line.conf)?;
        }
    }
    Ok(())
}

/// The copies of a set that its lines give, by their numbers.
fn given_copies(alloc: Global, copies: &[SetCopy], set: &[u8]) -> Result<List<CopyConf>, AllocError>
    ensures { IfOk result (λ found. found ≡ given_copies copies.now set.now) }
{
    let mut found = List::new(alloc);
    put_copy(&mut found, copies, set, 1)?;
    put_copy(&mut found, copies, set, 2)?;
    put_copy(&mut found, copies, set, 3)?;
    put_copy(&mut found, copies, set, 4)?;
    Ok(found)
}

/// The copy of a set whose lines give none.
fn default_copy() -> CopyConf
    ensures { result ≡ default_copy }
{
    CopyConf {
        copy: 1,
        age: DEFAULT_AGE,
        unage: None,
        release: false,
        norelease: false,
    }
}

/// The copies of a set.
fn set_copies(alloc: Global, copies: &[SetCopy], set: &[u8]) -> Result<List<CopyConf>, AllocError>
    ensures { IfOk result (λ found. found ≡ set_copies copies.now set.now) }
{
    if set == b"no_archive".as_slice() {
        return Ok(List::new(alloc));
    }
    let mut given = given_copies(alloc, copies, set)?;
    if given.is_empty() {
        given.push(default_copy())?;
    }
    Ok(given)
}

fn set_conf(alloc: Global, copies: &[SetCopy], name: &[u8]) -> Result<SetConf, AllocError>
    ensures { IfOk result (λ conf. conf ≡ set_conf copies.now name.now) }
{
    let copies = set_copies(alloc, copies, name)?;
    let name = Bytes::from_slice(alloc, name)?;
    Ok(SetConf { name, copies })
}

fn set_confs(
    alloc: Global,
    copies: &[SetCopy],
    names: &[Bytes],
) -> Result<List<SetConf>, AllocError>
    ensures { IfOk result (λ sets. sets ≡ map (set_conf copies.now) names.now) }
{
    let mut sets = List::new(alloc);
    for name in names {
        sets.push(set_conf(alloc, copies, name.as_slice())?)?;
    }
    Ok(sets)
}

fn put_exprs(found: &mut List<VsnExpr>, exprs: &[VsnExpr]) -> Result<(), AllocError>
    ensures { OnOk result (found.new ≡ found.old ++ exprs.now) }
{
    for expr in exprs {
        found.push(expr.copy()?)?;
    }
    Ok(())
}

/// The expressions of all lines of a name.
fn exprs_under(
    alloc: Global,
    lines: &[VsnsLine],
    name: &CopyName,
) -> Result<List<VsnExpr>, AllocError>
    ensures { IfOk result (λ found. found ≡ exprs_under lines.now name.now) }
{
    let mut found = List::new(alloc);
    for line in lines {
        if same_name(&line.name, name) {
            put_exprs(&mut found, line.exprs.as_slice())?;
        }
    }
    Ok(found)
}

fn has_group(groups: &[VsnsGroup], name: &CopyName) -> bool
    ensures { result ≡ list_any (λ g. same_name g.name name.now) groups.now }
{
    groups.iter().any(|g| same_name(&g.name, name))
}

fn group_of(alloc: Global, lines: &[VsnsLine], name: &CopyName) -> Result<VsnsGroup, AllocError>
    ensures { IfOk result (λ group. group ≡ group_of lines.now name.now) }
{
    let exprs = exprs_under(alloc, lines, name)?;
    let name = name.copy()?;
    Ok(VsnsGroup { name, exprs })
}

/// The name of a line has its group from now on.
fn add_group(
    alloc: Global,
    groups: &mut List<VsnsGroup>,
    lines: &[VsnsLine],
    line: &VsnsLine,
) -> Result<(), AllocError>
    ensures { (names : Seq CopyName) → groups.old ≡ map (group_of lines.now) names → OnOk result (groups.new ≡ map (group_of lines.now) (with_name names line.now.name)) }
{
    if has_group(groups.as_slice(), &line.name) {
        return Ok(());
    }
    let group = group_of(alloc, lines, &line.name)?;
    groups.push(group)?;
    Ok(())
}

/// The names of some vsns lines, each with the expressions of its lines.
fn groups_of(alloc: Global, lines: &[VsnsLine]) -> Result<List<VsnsGroup>, AllocError>
    ensures { IfOk result (λ groups. groups ≡ groups_of lines.now) }
{
    let mut groups = List::new(alloc);
    for line in lines {
        add_group(alloc, &mut groups, lines, line)?;
    }
    Ok(groups)
}

/// The configuration that lines told.
pub fn conf_of(alloc: Global, site: &[u8], known: Known) -> Result<ArchiverConf, AllocError>
    ensures { IfOk result (λ conf. (said : Seq Reading) → Knows site.now said known → Tells site.now said conf) }
{
    let mut names = known.sets;
    let site = Bytes::from_slice(alloc, site)?;
    mention(&mut names, &site)?;
    let sets = set_confs(alloc, known.copies.as_slice(), names.as_slice())?;
    let vsns = groups_of(alloc, known.vsns.as_slice())?;
    Ok(ArchiverConf {
        assignments: known.assignments,
        sets,
        params: known.params,
        vsns,
        has_vsns: known.has_vsns,
    })
}

/// The expressions that stand under the name of this copy of this set at this level, if a line has that name.
fn exprs_at<'a>(
    groups: &'a [VsnsGroup],
    level: Level,
    set: &[u8],
    copy: u8,
) -> Option<&'a [VsnExpr]>
    ensures { option_copied result ≡ exprs_in groups.now (name_at level set.now copy) }
{
    for group in groups {
        if is_named(&group.name, level, set, copy) {
            return Some(group.exprs.as_slice());
        }
    }
    None
}

impl ArchiverConf {
    /// The assignment lines, in file order.
    pub fn assignments(&self) -> &[Assignment]
        ensures { result.now ≡ self.now.assignments }
    {
        self.assignments.as_slice()
    }

    /// The sets, in the order of their first mention; the set of the site's file system last where no line mentions it.
    pub fn sets(&self) -> &[SetConf]
        ensures { result.now ≡ self.now.sets }
    {
        self.sets.as_slice()
    }

    /// The options of params for a copy of the set of this name.
    pub fn params(&self, set: &[u8], copy: u8) -> Params
        ensures { AreParams self.now.params set.now copy result }
    {
        params_of_copy(self.params.as_slice(), set, copy)
    }

    /// The expressions for the volumes of a copy of the set of this name: those of its own lines, else those of this copy of all
    /// sets, else those of all sets.
    pub fn exprs(&self, set: &[u8], copy: u8) -> &[VsnExpr]
        ensures { result.now ≡ exprs_for self.now.vsns set.now copy }
    {
        let groups = self.vsns.as_slice();
        if let Some(exprs) = exprs_at(groups, Level::Set, set, copy) {
            return exprs;
        }
        if let Some(exprs) = exprs_at(groups, Level::Copy, set, copy) {
            return exprs;
        }
        match exprs_at(groups, Level::All, set, copy) {
            Some(exprs) => exprs,
            None => &[],
        }
    }

    /// There is a vsns section.
    pub fn has_vsns(&self) -> bool
        ensures { result ≡ self.now.has_vsns }
    {
        self.has_vsns
    }
}
