//! What is said of the five command files together.

ghost use Rattle.std.specs.Prelude.{◌≡◌, ◌↔◌, ◌≤◌, ◌/◌, None, Some};
ghost use Rattle.site_types.specs.declared.file.SiteTexts.{SiteTexts};
ghost use Rattle.configuration.specs.declared.read.Configuration.{Configuration};
ghost use Rattle.configuration.specs.declared.read.FileRefusal.{FileRefusal};
ghost use Rattle.configuration.specs.ConfigurationSteps.{refusal_of, blocks_of};
ghost use Rattle.configuration.specs.ConfigurationRules.{Readings, SayReadings, Says, IsFirstWrong};
ghost use Rattle.configuration.specs.ConfigurationTold.{configuration_of};

use base::CACHE_BLOCKS_MAX;

/// Five texts say one list of readings each, and so one configuration, or there is one refusal, of the first file that is wrong.
/// Reading them in steps gives the one or the other; the configuration is the one that is computed of them. The cache that they say has 1 to 16,777,216 blocks of 4,096 bytes.
pub fn texts_say_one_thing()
    ensures said { (texts : SiteTexts) → (refusal_of texts ≡ None) ↔ ((readings : Readings) × SayReadings texts readings) }
    ensures wrong { (texts : SiteTexts) (refusal : FileRefusal) → (refusal_of texts ≡ Some refusal) ↔ IsFirstWrong texts refusal }
    ensures one_meaning { (texts : SiteTexts) (readings other : Readings) → SayReadings texts readings → SayReadings texts other → readings ≡ other }
    ensures one_configuration { (texts : SiteTexts) (configuration : Configuration) → Says texts configuration → configuration ≡ configuration_of texts }
    ensures computed { (texts : SiteTexts) → refusal_of texts ≡ None → Says texts (configuration_of texts) }
    ensures computed_cache { (texts : SiteTexts) → (configuration_of texts).site.cache / 4096 ≡ blocks_of texts }
    ensures cache { (texts : SiteTexts) (configuration : Configuration) → Says texts configuration → configuration.site.cache / 4096 ≡ blocks_of texts }
    ensures small { (texts : SiteTexts) → (1 ≤ blocks_of texts) × (blocks_of texts ≤ CACHE_BLOCKS_MAX) }
{}
