//! Reading releaser.cmd.

ghost use Rattle.std.specs.Prelude.{◌≡◌, ◌≤◌, ℕ, length, List as Seq, OnOk, IfOk, Some, None};
ghost use Rattle.site_text.specs.FileRules.{FileAnswers, no_section};
ghost use Rattle.site_text.specs.OneMeaning.{SaysOneThing};
ghost use Rattle.daemon_cmds.specs.ReleaserTold.{same_part, TellsReleaser};
ghost use Rattle.daemon_cmds.specs.ReleaserRules.{ReleaserLineSays, ReleaserLineWrong};
ghost use Rattle.daemon_cmds.specs.ReleaserSteps.{releaser_line, ComesTo, nothing_set, with_setting, with_releaser_reading, weight_or_one, has_separate, separate_hold, age_weights};

use crate::releaser_conf::{
    AgeWeights, PartSetting, ReleaserConf, ReleaserReading, ReleaserSoFar, Setting, Settings,
    Weight,
};
use crate::releaser_lines::read_releaser_line;
use crate::site_conf::SiteConf;
use base::{Bytes, COMMAND_FILE_MAX, List};
use site_text::{CommandFile, ConfError, Line, LineError, each_text_says_one_thing, read_file};
use std::alloc::{AllocError, Global};

/// The weight 1.0, in millionths, which holds where none is given.
const WEIGHT_ONE: u32 = 1_000_000;

/// The least residence where none is given, in seconds.
const DEFAULT_RESIDENCE: u64 = 600;

fn nothing_set() -> Settings
    ensures { result ≡ nothing_set }
{
    Settings {
        age: None,
        access: None,
        modify: None,
        residence: None,
        size: None,
        min_residence_age: None,
        no_release: false,
        rearch_no_release: false,
    }
}

/// The same with one thing set anew.
fn with_setting(settings: &Settings, setting: Setting) -> Settings
    ensures { result ≡ with_setting settings.now setting }
{
    let mut settings = *settings;
    match setting {
        Setting::Weight(Weight::Age, n) => settings.age = Some(n),
        Setting::Weight(Weight::Access, n) => settings.access = Some(n),
        Setting::Weight(Weight::Modify, n) => settings.modify = Some(n),
        Setting::Weight(Weight::Residence, n) => settings.residence = Some(n),
        Setting::Weight(Weight::Size, n) => settings.size = Some(n),
        Setting::MinResidenceAge(n) => settings.min_residence_age = Some(n),
        Setting::NoRelease => settings.no_release = true,
        Setting::RearchNoRelease => settings.rearch_no_release = true,
    }
    settings
}

fn is_global(part: &Option<Bytes>) -> bool
    ensures { result ≡ same_part part.now None }
{
    part.is_none()
}

fn is_part_of(part: &Option<Bytes>, name: &[u8]) -> bool
    ensures { result ≡ same_part part.now (Some name.now) }
{
    match part {
        Some(part) => part.as_slice() == name,
        None => false,
    }
}

fn copy_part(part: &Option<Bytes>) -> Result<Option<Bytes>, AllocError>
    ensures { IfOk result (λ p. p ≡ part.now) }
{
    match part {
        Some(name) => Ok(Some(name.copy()?)),
        None => Ok(None),
    }
}

/// One line told this too.
fn add_reading(
    site: &SiteConf,
    known: &mut ReleaserSoFar,
    reading: ReleaserReading,
) -> Result<(), AllocError>
    ensures { OnOk result (known.new ≡ with_releaser_reading site.now known.old reading) }
{
    match reading {
        ReleaserReading::Part(name) => known.part = Some(name),
        ReleaserReading::Set(setting) => {
            let part = copy_part(&known.part)?;
            if is_global(&part) {
                known.global = with_setting(&known.global, setting);
            }
            if is_part_of(&part, site.name.as_slice()) {
                known.local = with_setting(&known.local, setting);
            }
            known.given.push(PartSetting { part, setting })?;
        }
        ReleaserReading::Nothing => {}
    }
    Ok(())
}

#[derive(Drop)]
struct ReleaserFile<'a> {
    site: &'a SiteConf,
}

impl CommandFile for ReleaserFile<'_> {
    ghost use Rattle.site_text.specs.FileRules.{no_section};
    ghost use Rattle.daemon_cmds.specs.ReleaserRules.{releaser_bars, releaser_forms, word_forms, ReleaserLineSays, ReleaserLineWrong};
    ghost use Rattle.daemon_cmds.specs.ReleaserSteps.{releaser_line, KnowsReleaser};
    ghost use Rattle.daemon_cmds.specs.BarLaws.{barred_said, barred_wrong, barred_read, barred_refused};

    type Reading = ReleaserReading;

    type Known = ReleaserSoFar;

    ghost line_of = { λ file. releaser_line };

    ghost line_says = { λ file. ReleaserLineSays };

    ghost line_wrong = { λ file. ReleaserLineWrong };

    ghost open_section = { λ file. no_section };

    ghost tells = { λ file. KnowsReleaser file.site.now };

    fn start(&self, alloc: Global) -> Result<ReleaserSoFar, AllocError> {
        Ok(ReleaserSoFar {
            part: None,
            given: List::new(alloc),
            global: nothing_set(),
            local: nothing_set(),
        })
    }

    fn read_line(
        &self,
        alloc: Global,
        known: &ReleaserSoFar,
        line: &Line,
    ) -> Result<ReleaserReading, LineError> {
        read_releaser_line(alloc, &known.part, &known.given, line.fields.as_slice())
    }

    fn add(&self, known: &mut ReleaserSoFar, reading: ReleaserReading) -> Result<(), AllocError> {
        add_reading(self.site, known, reading)
    }

    fn open_section(&self, _known: &ReleaserSoFar) -> Option<u32> {
        None
    }

    ghost reads_what_is_said = { λ file before line reading. (barred_said (releaser_bars before) releaser_forms word_forms line.fields reading, barred_read (releaser_bars before) releaser_forms word_forms line.fields reading) };

    ghost refuses_what_is_wrong = { λ file before line fault. (barred_wrong (releaser_bars before) releaser_forms word_forms line.fields fault, barred_refused (releaser_bars before) releaser_forms word_forms line.fields fault) };
}

fn weight_or_one(local: Option<u32>, global: Option<u32>) -> u32
    ensures { result ≡ weight_or_one local global }
{
    local.or(global).unwrap_or(WEIGHT_ONE)
}

fn has_separate(settings: &Settings) -> bool
    ensures { result ≡ has_separate settings.now }
{
    settings.access.is_some() || settings.modify.is_some() || settings.residence.is_some()
}

fn separate_hold(local: &Settings, global: &Settings) -> bool
    ensures { result ≡ separate_hold local.now global.now }
{
    has_separate(local) || (!local.age.is_some() && has_separate(global))
}

fn age_weights(local: &Settings, global: &Settings) -> AgeWeights
    ensures { result ≡ age_weights local.now global.now }
{
    if separate_hold(local, global) {
        AgeWeights::Separate {
            access: weight_or_one(local.access, global.access),
            modify: weight_or_one(local.modify, global.modify),
            residence: weight_or_one(local.residence, global.residence),
        }
    } else {
        AgeWeights::Least(weight_or_one(local.age, global.age))
    }
}

/// What the settings of the site's file system and those for all files come to.
pub fn conf_of(local: &Settings, global: &Settings) -> ReleaserConf
    ensures { ComesTo local.now global.now result }
{
    ReleaserConf {
        ages: age_weights(local, global),
        size: weight_or_one(local.size, global.size),
        min_residence_age: local
            .min_residence_age
            .or(global.min_residence_age)
            .unwrap_or(DEFAULT_RESIDENCE),
        no_release: local.no_release || global.no_release,
        rearch_no_release: local.rearch_no_release || global.rearch_no_release,
    }
}

/// What a text of releaser.cmd says in this site, or its first wrong line and what is wrong with it. An empty text says weights
/// of 1.0 for the least age and for the size, a residence of at least 600 seconds, and that files are released.
pub fn read_releaser(alloc: Global, text: &[u8], site: &SiteConf) -> Result<ReleaserConf, ConfError>
    requires { length text.now ≤ COMMAND_FILE_MAX }
    ensures { FileAnswers ReleaserLineSays ReleaserLineWrong no_section (TellsReleaser site.now) text.now result }
{
    match read_file(alloc, &ReleaserFile { site }, text) {
        Ok(known) => Ok(conf_of(&known.local, &known.global)),
        Err(error) => Err(error),
    }
}

/// Each text says one list of readings of releaser.cmd in this site, or has one refusal, and not both.
pub fn each_releaser_says_one_thing(site: &SiteConf)
    ensures { (text : Seq ℕ) → SaysOneThing releaser_line ReleaserLineSays ReleaserLineWrong no_section text }
{
    each_text_says_one_thing::<ReleaserFile>(&ReleaserFile { site })
}
