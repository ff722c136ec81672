//! Reading the five command files.

ghost use Rattle.std.specs.Prelude.{◌≡◌, ◌/◌, IfOk, IfErr, IsTrue, None};
ghost use Rattle.site_text.specs.FileRules.{no_section};
ghost use Rattle.daemon_cmds.specs.SiteRules.{SiteLineSays, SiteLineWrong};
ghost use Rattle.daemon_cmds.specs.SiteTold.{TellsSite};
ghost use Rattle.daemon_cmds.specs.StagerRules.{StagerLineSays, StagerLineWrong};
ghost use Rattle.daemon_cmds.specs.StagerTold.{TellsStager};
ghost use Rattle.daemon_cmds.specs.ReleaserRules.{ReleaserLineSays, ReleaserLineWrong};
ghost use Rattle.daemon_cmds.specs.ReleaserTold.{TellsReleaser};
ghost use Rattle.daemon_cmds.specs.RecyclerRules.{RecyclerLineSays, RecyclerLineWrong};
ghost use Rattle.daemon_cmds.specs.RecyclerTold.{TellsRecycler};
ghost use Rattle.archiver_lines.specs.LineRules.{LineSays, LineWrong};
ghost use Rattle.archiver_lines.specs.Told.{open_line};
ghost use Rattle.archiver_cmd.specs.Conf.{Tells};
ghost use Rattle.site_types.specs.declared.file.SiteTexts.{SiteTexts};
ghost use Rattle.site_events.specs.declared.reply.CommandFile.TheVariants.{Site, Archiver, Stager, Releaser, Recycler};
ghost use Rattle.configuration.specs.ConfigurationRules.{AreWithin, Says, ConfigurationAnswers, FileTold};
ghost use Rattle.configuration.specs.ConfigurationSteps.{is_within, are_within, refusal_of, blocks_of, TellsRefusal, in_file};

use archiver_cmd::{ArchiverConf, read_archiver};
use base::{Bytes, COMMAND_FILE_MAX};
use daemon_cmds::{
    RecyclerConf, ReleaserConf, SiteConf, StagerConf, read_recycler, read_releaser, read_site,
    read_stager,
};
use site_events::CommandFile;
use site_text::{ConfError, ConfFault};
use site_types::SiteTexts;
use std::alloc::Global;

/// The bytes of a block of the cache.
const BLOCK_SIZE: u64 = 4096;

/// What the command files of a site say.
#[derive(Drop)]
pub struct Configuration {
    pub site: SiteConf,
    pub archiver: ArchiverConf,
    pub stager: StagerConf,
    pub releaser: ReleaserConf,
    pub recycler: RecyclerConf,
}

impl Configuration {
    /// How many blocks of 4,096 bytes the cache has: 1 to 16,777,216 where texts say this configuration, and at most 4,294,967,295.
    pub fn blocks(&self) -> u32
        ensures { (texts : SiteTexts) → Says texts self.now → result ≡ blocks_of texts }
    {
        u32::try_from(self.site.cache / BLOCK_SIZE).unwrap_or(u32::MAX)
    }
}

/// The first command file that is wrong, its first wrong line, counted from 1, and what is wrong with it.
#[derive(Clone, Copy, Debug, PartialEq, Eq)]
pub struct FileRefusal {
    pub file: CommandFile,
    pub line: u32,
    pub fault: ConfFault,
}

/// Why there is no configuration.
#[derive(Clone, Copy, Debug, PartialEq, Eq)]
pub enum ConfigurationError {
    Refused(FileRefusal),
    NoMemory,
}

fn is_within(text: &Bytes) -> bool
    ensures { result ≡ is_within text.now }
{
    text.len() <= COMMAND_FILE_MAX
}

/// Whether each text has at most 65,536 bytes.
pub fn are_within(texts: &SiteTexts) -> bool
    ensures test { result ≡ are_within texts.now }
    ensures within { IsTrue result → AreWithin texts.now }
{
    is_within(&texts.site)
        && is_within(&texts.archiver)
        && is_within(&texts.stager)
        && is_within(&texts.releaser)
        && is_within(&texts.recycler)
}

/// What was read of this file; what is wrong with it is told with the file.
fn in_file<C: Drop>(file: CommandFile, read: Result<C, ConfError>) -> Result<C, ConfigurationError>
    ensures { result ≡ in_file file read }
{
    match read {
        Ok(conf) => Ok(conf),
        Err(ConfError::Refused(refusal)) => Err(ConfigurationError::Refused(FileRefusal {
            file,
            line: refusal.line,
            fault: refusal.fault,
        })),
        Err(ConfError::NoMemory) => Err(ConfigurationError::NoMemory),
    }
}

/// What site.conf says.
fn site_of(alloc: Global, texts: &SiteTexts) -> Result<SiteConf, ConfigurationError>
    requires { AreWithin texts.now }
    ensures { FileTold Site SiteLineSays SiteLineWrong no_section TellsSite texts.now.site result }
{
    in_file(CommandFile::Site, read_site(alloc, texts.site.as_slice()))
}

/// What archiver.cmd says in this site.
fn archiver_of(
    alloc: Global,
    texts: &SiteTexts,
    site: &SiteConf,
) -> Result<ArchiverConf, ConfigurationError>
    requires { AreWithin texts.now }
    ensures { FileTold Archiver (LineSays site.now.name) (LineWrong site.now.name) open_line (Tells site.now.name) texts.now.archiver result }
{
    in_file(
        CommandFile::Archiver,
        read_archiver(alloc, texts.archiver.as_slice(), site.name.as_slice()),
    )
}

/// What stager.cmd says in this site.
fn stager_of(
    alloc: Global,
    texts: &SiteTexts,
    site: &SiteConf,
) -> Result<StagerConf, ConfigurationError>
    requires { AreWithin texts.now }
    ensures { FileTold Stager (StagerLineSays site.now) (StagerLineWrong site.now) no_section (TellsStager site.now) texts.now.stager result }
{
    in_file(
        CommandFile::Stager,
        read_stager(alloc, texts.stager.as_slice(), site),
    )
}

/// What releaser.cmd says in this site.
fn releaser_of(
    alloc: Global,
    texts: &SiteTexts,
    site: &SiteConf,
) -> Result<ReleaserConf, ConfigurationError>
    requires { AreWithin texts.now }
    ensures { FileTold Releaser ReleaserLineSays ReleaserLineWrong no_section (TellsReleaser site.now) texts.now.releaser result }
{
    in_file(
        CommandFile::Releaser,
        read_releaser(alloc, texts.releaser.as_slice(), site),
    )
}

/// What recycler.cmd says in this site.
fn recycler_of(
    alloc: Global,
    texts: &SiteTexts,
    site: &SiteConf,
) -> Result<RecyclerConf, ConfigurationError>
    requires { AreWithin texts.now }
    ensures { FileTold Recycler (RecyclerLineSays site.now) (RecyclerLineWrong site.now) no_section (TellsRecycler site.now) texts.now.recycler result }
{
    in_file(
        CommandFile::Recycler,
        read_recycler(alloc, texts.recycler.as_slice(), site),
    )
}

fn read_files(alloc: Global, texts: &SiteTexts) -> Result<Configuration, ConfigurationError>
    requires { AreWithin texts.now }
    ensures { ConfigurationAnswers texts.now result }
{
    let site = site_of(alloc, texts)?;
    let archiver = archiver_of(alloc, texts, &site)?;
    let stager = stager_of(alloc, texts, &site)?;
    let releaser = releaser_of(alloc, texts, &site)?;
    let recycler = recycler_of(alloc, texts, &site)?;
    Ok(Configuration {
        site,
        archiver,
        stager,
        releaser,
        recycler,
    })
}

/// What the five texts say, or which of them, in the order site.conf, archiver.cmd, stager.cmd, releaser.cmd, recycler.cmd, is
/// the first that is wrong, with its first wrong line.
pub fn read_configuration(
    alloc: Global,
    texts: &SiteTexts,
) -> Result<Configuration, ConfigurationError>
    requires { AreWithin texts.now }
    ensures answer { ConfigurationAnswers texts.now result }
    ensures read { IfOk result (λ conf. refusal_of texts.now ≡ None) }
    ensures refused { IfErr result (TellsRefusal texts.now) }
    ensures blocks { IfOk result (λ conf. conf.site.cache / 4096 ≡ blocks_of texts.now) }
{
    read_files(alloc, texts)
}
