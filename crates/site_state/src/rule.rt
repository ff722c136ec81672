//! The rules of events.

ghost use Rattle.std.specs.Prelude.{◌≡◌, ◌+◌, ◌<◌, ◌≤◌, ◌^◌, None, Some, Option, is_none, length, IfNone, IfSome, IfOk, IfErr, OnOk, IsTrue, false, option_map};
ghost use Rattle.base.specs.Paths.{is_legal_path, is_legal_name};
ghost use Rattle.site_types.specs.Ranges.{IsInode};
ghost use Rattle.site_history.specs.Site.{Fields, file_at};
ghost use Rattle.site_history.specs.PutSteps.{inode_for};
ghost use Rattle.site_events.specs.declared.reply.Reply.TheVariants.{Refused};
ghost use Rattle.configuration.specs.ConfigurationRules.{AreWithin};
ghost use Rattle.configuration.specs.ConfigurationSteps.{refusal_of};
ghost use Rattle.site_history.specs.FileAnswers.{put_rule, is_full, lacks_space};
ghost use Rattle.site_history.specs.ConfigureAnswers.{configure_refusal, conf_refused};
ghost use Rattle.site_state.specs.Keeps.{Keeps};

use crate::state::SiteState;
use base::{FILE_COUNT_MAX, FILE_SIZE_MAX, INODE_MAX, is_legal_name, is_legal_path};
use cache_space::blocks_needed;
use configuration::are_within;
use site_events::Rule;
use site_types::SiteTexts;

/// Where a put goes.
#[derive(Clone, Copy)]
pub struct Place {
    /// The inode of its file, 1 to 4,294,967,294.
    pub inode: u32,
    /// Whether the file is new.
    pub created: bool,
}

impl SiteState {
    // Whether no file has this path.
    fn is_new(&self, path: &[u8]) -> bool
        ensures listed { result ≡ is_none (file_at path.now self.now.files.list) }
        ensures file { (fields : Fields) → Keeps self.now fields → result ≡ is_none (file_at path.now fields.files) }
    {
        self.files.get(path).is_none()
    }

    // Whether a further file does not fit.
    fn is_full(&self) -> bool
        ensures inode { result ≡ false → self.now.next_inode ≤ INODE_MAX }
        ensures full { (fields : Fields) → Keeps self.now fields → result ≡ is_full fields }
    {
        self.files.len() >= FILE_COUNT_MAX || self.next_inode > INODE_MAX
    }

    // Whether fewer blocks are free than so many bytes need.
    fn lacks_space(&self, size: u32) -> bool
        ensures { (fields : Fields) → Keeps self.now fields → result ≡ lacks_space fields size }
    {
        self.space.free() < blocks_needed(size)
    }

    // The first rule that refuses a put of so many bytes.
    fn put_rule(&self, path: &[u8], owner: &[u8], group: &[u8], size: usize) -> Option<Rule>
        ensures rule { (fields : Fields) → Keeps self.now fields → result ≡ put_rule fields path.now owner.now group.now size }
        ensures legal { IfNone result (IsTrue (is_legal_path path.now) × IsTrue (is_legal_name owner.now) × IsTrue (is_legal_name group.now)) }
        ensures small { IfNone result (size ≤ FILE_SIZE_MAX) }
        ensures inode { IfNone result (file_at path.now self.now.files.list ≡ None → self.now.next_inode ≤ INODE_MAX) }
    {
        if !is_legal_path(path) {
            return Some(Rule::BadPath);
        }
        if !(is_legal_name(owner) && is_legal_name(group)) {
            return Some(Rule::BadAttribute);
        }
        if size as u64 > FILE_SIZE_MAX {
            return Some(Rule::TooLarge);
        }
        if self.is_new(path) && self.is_full() {
            return Some(Rule::TooMany);
        }
        if self.lacks_space(size as u32) {
            return Some(Rule::NoSpace);
        }
        None
    }

    // The inode of a put of this path, and whether its file is new.
    fn inode_of(&self, path: &[u8]) -> (u32, bool)
        requires { file_at path.now self.now.files.list ≡ None → self.now.next_inode ≤ INODE_MAX }
        ensures inode { (fields : Fields) → Keeps self.now fields → result.0 ≡ inode_for fields path.now }
        ensures created { (fields : Fields) → Keeps self.now fields → result.1 ≡ is_none (file_at path.now fields.files) }
        ensures range { IsInode result.0 }
    {
        match self.files.get(path) {
            Some(file) => (file.inode, false),
            None => (self.next_inode, true),
        }
    }

    /// Where a put of so many bytes goes, or the first rule that refuses it.
    pub fn place_of_put(
        &self,
        path: &[u8],
        owner: &[u8],
        group: &[u8],
        size: usize,
    ) -> Result<Place, Rule>
        ensures refused { (fields : Fields) → Keeps self.now fields → IfErr result (λ rule. put_rule fields path.now owner.now group.now size ≡ Some rule) }
        ensures admitted { (fields : Fields) → Keeps self.now fields → OnOk result (put_rule fields path.now owner.now group.now size ≡ None) }
        ensures place { (fields : Fields) → Keeps self.now fields → IfOk result (λ place. (place.inode ≡ inode_for fields path.now) × (place.created ≡ is_none (file_at path.now fields.files))) }
        ensures legal { OnOk result (IsTrue (is_legal_path path.now) × IsTrue (is_legal_name owner.now) × IsTrue (is_legal_name group.now)) }
        ensures small { OnOk result (size ≤ FILE_SIZE_MAX) }
        ensures inode { IfOk result (λ place. IsInode place.inode) }
    {
        if let Some(rule) = self.put_rule(path, owner, group, size) {
            return Err(rule);
        }
        let (inode, created) = self.inode_of(path);
        Ok(Place { inode, created })
    }

    /// The first rule that refuses to configure the site by these texts, whatever they say.
    pub fn configure_rule(&self, texts: &SiteTexts) -> Option<Rule>
        ensures refused { (fields : Fields) → Keeps self.now fields → IfSome result (λ rule. configure_refusal fields texts.now ≡ Some (Refused rule)) }
        ensures left { (fields : Fields) → Keeps self.now fields → IfNone result (configure_refusal fields texts.now ≡ option_map conf_refused (refusal_of texts.now)) }
        ensures within { IfNone result (AreWithin texts.now) }
    {
        if self.files.len() > 0 {
            return Some(Rule::Running);
        }
        if !are_within(texts) {
            return Some(Rule::TooLarge);
        }
        None
    }
}
