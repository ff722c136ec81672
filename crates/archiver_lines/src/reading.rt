//! What single lines of archiver.cmd say.

use crate::criteria::{Release, Stage};
use crate::param_options::Given;
use base::{Bytes, List};

/// For which file systems a line stands.
#[derive(Clone, Copy, Debug, PartialEq, Eq)]
pub enum Local {
    /// It stands before the first `fs =`, and so for all.
    Global,
    /// It stands in the part of the site's file system.
    Site,
    /// It stands in the part of another one, and is for no file of the site.
    Elsewhere,
}

/// An assignment of files to a set. All criteria that it gives must hold of a file.
#[derive(Debug, Drop)]
pub struct Assignment {
    /// The number of its line, from 1.
    pub line: u32,
    /// The name of its set.
    pub set: Bytes,
    pub local: Local,
    /// `.`, or a path without its first `/`.
    pub path: Bytes,
    /// A pattern that is found in the path without its first `/`.
    pub name: Option<Bytes>,
    pub user: Option<Bytes>,
    pub group: Option<Bytes>,
    /// Bytes, inclusive; below 2^50.
    pub minsize: Option<u64>,
    /// Bytes, inclusive; below 2^50.
    pub maxsize: Option<u64>,
    /// Seconds since the last access, at least; below 2^40.
    pub access: Option<u64>,
    pub release: Release,
    pub stage: Stage,
}

/// A copy of the files of a set.
#[derive(Clone, Copy, Debug, PartialEq, Eq)]
pub struct CopyConf {
    /// Its number, 1 to 4.
    pub copy: u8,
    /// The age in seconds at which it is made; below 2^40.
    pub age: u64,
    /// The age in seconds at which it is unarchived, if it is; below 2^40.
    pub unage: Option<u64>,
    pub release: bool,
    pub norelease: bool,
}

/// A copy line, with the name of the set to which it belongs.
#[derive(Debug, Drop)]
pub struct SetCopy {
    pub set: Bytes,
    pub conf: CopyConf,
}

/// Which copies a line of params or of vsns is about.
#[derive(Debug, Drop)]
pub enum CopyName {
    /// All copies of all sets.
    AllSets,
    /// The copies of this number of all sets.
    AllSetsCopy(u8),
    /// The copy of this number of the set of this name.
    SetCopy(Bytes, u8),
}

/// A line of params.
#[derive(Debug, Drop)]
pub struct ParamsLine {
    pub name: CopyName,
    pub given: List<Given>,
}

/// An expression for the names of volumes of a media type.
#[derive(Debug, Drop)]
pub struct VsnExpr {
    pub media: Bytes,
    pub text: Bytes,
    /// The number of the line on which its text stands, from 1: that of the pool, where it comes from one.
    pub line: u32,
}

/// A line of vsnpools.
#[derive(Debug, Drop)]
pub struct PoolLine {
    pub pool: Bytes,
    pub media: Bytes,
    /// The texts of its expressions, at least one.
    pub texts: List<Bytes>,
    /// Its number, from 1.
    pub line: u32,
}

/// A line of vsns, with pools put in.
#[derive(Debug, Drop)]
pub struct VsnsLine {
    pub name: CopyName,
    pub exprs: List<VsnExpr>,
}

/// A section.
#[derive(Clone, Copy, Debug, PartialEq, Eq)]
pub enum Section {
    Params,
    VsnPools,
    Vsns,
}

/// A section that is open, with the number of its first line.
#[derive(Clone, Copy, Debug, PartialEq, Eq)]
pub struct Opened {
    pub section: Section,
    pub line: u32,
}

/// What a line says.
#[derive(Debug, Drop)]
pub enum Reading {
    /// It is accepted, and has no effect.
    Nothing,
    /// The part of this file system begins, or goes on.
    FileSystem(Bytes),
    Assign(Assignment),
    Copy(SetCopy),
    Opens(Opened),
    Closes,
    Params(ParamsLine),
    Pool(PoolLine),
    Vsns(VsnsLine),
}
