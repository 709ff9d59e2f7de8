//! The options of profiles, which commands share.
ghost use Rattle.std.specs.Prelude.{◌≡◌, OnOk};
ghost use Rattle.std.specs.List.{list_any};
ghost use Rattle.signed_stream.specs.ProfileOptions.{is_same_kind, names_file, nothing_wanted, profile_option, profile_wanted, stands, with_profile_option};

use crate::command::option_words::TakeOption;
use env_config::EnvConfigFileKind;
use job_text::WordsFault;
use smithy_core::Mem;
use std::alloc::Global;

/// A profile file that a word names.
#[derive(Clone, Copy, Debug)]
pub struct NamedFile<'a> {
    /// How it is read.
    pub kind: EnvConfigFileKind,
    /// Where it lies.
    pub path: &'a str,
}

/// What is asked of profiles.
#[derive(Debug, Drop)]
pub struct ProfileOptions<'a> {
    /// The id of the service that may have values of its own.
    pub service_id: Option<&'a str>,
    /// The files in the order of the words.
    pub files: Vec<NamedFile<'a>>,
}

/// An option of profiles, whose value is the next word.
#[derive(Clone, Copy, Debug)]
pub enum ProfileOption {
    ServiceId,
    NamesFile(EnvConfigFileKind),
}

impl ProfileOption {
    /// The option that a word names.
    #[tactic(auto, unfolding(crate::specs::ProfileOptions::profile_option))]
    pub fn named(word: &str) -> Option<ProfileOption>
        ensures { result ≡ profile_option word.now }
    {
        match word {
            "--service-id" => Some(ProfileOption::ServiceId),
            "--config" => Some(ProfileOption::NamesFile(EnvConfigFileKind::Config)),
            "--credentials" => Some(ProfileOption::NamesFile(EnvConfigFileKind::Credentials)),
            _ => None,
        }
    }

    /// Whether the option names a file.
    pub fn names_file(self) -> bool
        ensures { result ≡ names_file self }
    {
        matches!(self, ProfileOption::NamesFile(_))
    }
}

impl<'a> ProfileOptions<'a> {
    /// Nothing is asked.
    pub fn new(alloc: Global) -> Self
        ensures { profile_wanted result ≡ nothing_wanted }
    {
        ProfileOptions {
            service_id: None,
            files: Vec::new(alloc),
        }
    }

    /// Whether the option stood.
    #[tactic(auto, using(crate::proofs::OptionLemmas::kind_named))]
    pub fn has(&self, option: ProfileOption) -> bool
        ensures { result ≡ stands (profile_wanted self.now) option }
    {
        match option {
            ProfileOption::ServiceId => self.service_id.is_some(),
            ProfileOption::NamesFile(kind) => has_kind(self.files.as_slice(), kind),
        }
    }

    /// Takes the value of an option.
    pub fn take(&mut self, option: ProfileOption, value: &'a str) -> Mem<()>
        ensures { OnOk result (profile_wanted self.new ≡ with_profile_option (profile_wanted self.old) option value.now) }
    {
        match option {
            ProfileOption::ServiceId => self.service_id = Some(value),
            ProfileOption::NamesFile(kind) => self.files.push(NamedFile { kind, path: value })?,
        }
        Ok(())
    }
}

// Whether a file of this kind is among them.
fn has_kind(files: &[NamedFile<'_>], kind: EnvConfigFileKind) -> bool
    ensures { result ≡ list_any (λ file. is_same_kind kind file.kind) files.now }
{
    files.iter().any(|file| is_same_kind(kind, file.kind))
}

fn is_same_kind(kind: EnvConfigFileKind, other: EnvConfigFileKind) -> bool
    ensures { result ≡ is_same_kind kind other }
{
    kind == other
}

impl<'a> TakeOption<'a> for ProfileOptions<'a> {
    ghost use Rattle.std.specs.Prelude.{◌≡◌};
    ghost use Rattle.signed_stream.specs.ProfileOptions.{ProfileWanted, profile_option, profile_rules, profile_wanted};

    type Named = ProfileOption;

    ghost Given = { ProfileWanted };

    ghost given = { profile_wanted };

    ghost rules = { profile_rules };

    fn named(word: &str) -> Option<ProfileOption>
        ensures { result ≡ profile_option word.now }
    {
        ProfileOption::named(word)
    }

    fn stood(&self, option: ProfileOption) -> bool {
        self.has(option)
    }

    fn take_value(
        &mut self,
        option: ProfileOption,
        _place: usize,
        value: &'a str,
    ) -> Result<(), WordsFault> {
        Ok(self.take(option, value)?)
    }

    fn take_flag(&mut self, place: usize, _word: &str) -> Result<(), WordsFault> {
        Err(WordsFault::BadWord(place))
    }
}
