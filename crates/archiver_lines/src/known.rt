//! What the lines so far told.

ghost use Rattle.std.specs.Prelude.{◌≡◌, ℕ, [], ◌∷◌, ◌++◌, List as Seq, OnOk};
ghost use Rattle.archiver_lines.specs.Told.{with_set, part_named};
ghost use Rattle.archiver_lines.specs.KnownSteps.{Knows, IsAdded};
ghost use Rattle.archiver_lines.specs.declared.reading.Reading.{Reading};

use crate::names::is_in;
use crate::reading::{
    Assignment, Local, Opened, ParamsLine, PoolLine, Reading, Section, SetCopy, VsnsLine,
};
use base::{Bytes, List};
use std::alloc::{AllocError, Global};

/// What the lines so far told.
#[derive(Debug, Drop)]
pub struct Known {
    /// The section that is open.
    pub opened: Option<Opened>,
    /// In whose part the next line stands.
    pub local: Local,
    /// The file systems of `fs =` lines.
    pub file_systems: List<Bytes>,
    /// The set to which a copy line would belong.
    pub target: Option<Bytes>,
    pub assignments: List<Assignment>,
    /// The sets that were mentioned, in the order of their first mention.
    pub sets: List<Bytes>,
    pub copies: List<SetCopy>,
    pub params: List<ParamsLine>,
    pub pools: List<PoolLine>,
    pub vsns: List<VsnsLine>,
    /// How many expressions the lines of vsns have together.
    pub exprs: usize,
    /// There was a vsns section.
    pub has_vsns: bool,
}

/// The set is there from now on.
pub fn mention(sets: &mut List<Bytes>, name: &Bytes) -> Result<(), AllocError>
    ensures { OnOk result (sets.new ≡ with_set sets.old name.now) }
{
    if !is_in(sets.as_slice(), name.as_slice()) {
        sets.push(name.copy()?)?;
    }
    Ok(())
}

/// The part of a file system.
pub fn part_named(site: &[u8], name: &[u8]) -> Local
    ensures { result ≡ part_named site.now name.now }
{
    if name == site {
        Local::Site
    } else {
        Local::Elsewhere
    }
}

impl Known {
    /// What no line told.
    pub fn new(alloc: Global) -> Self
        ensures { (site : Seq ℕ) → Knows site [] result }
    {
        Known {
            opened: None,
            local: Local::Global,
            file_systems: List::new(alloc),
            target: None,
            assignments: List::new(alloc),
            sets: List::new(alloc),
            copies: List::new(alloc),
            params: List::new(alloc),
            pools: List::new(alloc),
            vsns: List::new(alloc),
            exprs: 0,
            has_vsns: false,
        }
    }

    fn add_file_system(&mut self, site: &[u8], name: Bytes) -> Result<(), AllocError>
        ensures { OnOk result (IsAdded site.now (Reading.FileSystem name) self.old self.new) }
    {
        self.local = part_named(site, name.as_slice());
        self.target = Some(name.copy()?);
        self.file_systems.push(name)?;
        Ok(())
    }

    fn add_assignment(&mut self, assignment: Assignment) -> Result<(), AllocError>
        ensures { (site : Seq ℕ) → OnOk result (IsAdded site (Reading.Assign assignment) self.old self.new) }
    {
        mention(&mut self.sets, &assignment.set)?;
        self.target = Some(assignment.set.copy()?);
        self.assignments.push(assignment)?;
        Ok(())
    }

    fn add_copy(&mut self, line: SetCopy) -> Result<(), AllocError>
        ensures { (site : Seq ℕ) → OnOk result (IsAdded site (Reading.Copy line) self.old self.new) }
    {
        mention(&mut self.sets, &line.set)?;
        self.copies.push(line)?;
        Ok(())
    }

    fn begin_section(&mut self, opened: Opened)
        ensures { (site : Seq ℕ) → IsAdded site (Reading.Opens opened) self.old self.new }
    {
        self.opened = Some(opened);
        if matches!(opened.section, Section::Vsns) {
            self.has_vsns = true;
        }
    }

    fn add_vsns(&mut self, line: VsnsLine) -> Result<(), AllocError>
        ensures { (site : Seq ℕ) → OnOk result (IsAdded site (Reading.Vsns line) self.old self.new) }
    {
        // The expressions of all lines are in memory, so that their number never comes to the end of its type.
        self.exprs = self.exprs.checked_add(line.exprs.len()).ok_or(AllocError)?;
        self.vsns.push(line)?;
        Ok(())
    }

    fn add_reading(&mut self, site: &[u8], reading: Reading) -> Result<(), AllocError>
        ensures { OnOk result (IsAdded site.now reading self.old self.new) }
    {
        match reading {
            Reading::Nothing => Ok(()),
            Reading::FileSystem(name) => self.add_file_system(site, name),
            Reading::Assign(assignment) => self.add_assignment(assignment),
            Reading::Copy(line) => self.add_copy(line),
            Reading::Opens(opened) => {
                self.begin_section(opened);
                Ok(())
            }
            Reading::Closes => {
                self.opened = None;
                Ok(())
            }
            Reading::Params(line) => {
                self.params.push(line)?;
                Ok(())
            }
            Reading::Pool(line) => {
                self.pools.push(line)?;
                Ok(())
            }
            Reading::Vsns(line) => self.add_vsns(line),
        }
    }

    /// A line said this too.
    pub fn add(&mut self, site: &[u8], reading: Reading) -> Result<(), AllocError>
        ensures { OnOk result ((said : Seq Reading) → Knows site.now said self.old → Knows site.now (said ++ reading ∷ []) self.new) }
    {
        self.add_reading(site, reading)
    }
}
