ghost use Rattle.std.specs.Prelude.{◌≡◌, ◌==◌, ℕ, List, [], None, Ok, Some, false, IfOk, OnOk, codes, length, map, option_copied, option_map, unwrap_or};
ghost use Rattle.std.specs.Ordering.{is_eq};
ghost use Rattle.std.specs.String.{string_bytes};
ghost use Rattle.env_config.specs.Fault.{flaw_message};
ghost use Rattle.env_config.specs.Heading.{heading_seen};
ghost use Rattle.env_config.specs.Kept.{keeps_of};
ghost use Rattle.env_config.specs.Latest.{taken_values};
ghost use Rattle.env_config.specs.MergedProfile.{MergesProfile, ParsesProfile, with_taken};
ghost use Rattle.env_config.specs.Raw.{raw};
ghost use Rattle.env_config.specs.Sections.{files_from, heading_of, no_sections, sections, with_file, with_raw, with_section};
ghost use Rattle.env_config.specs.Texts.{IsApart, text_cmp, value_under, words_of};
ghost use Rattle.env_config.specs.Value.{selected_value};
ghost use Rattle.env_config.specs.EnvConfigValue.{chosen_of};
ghost use Rattle.env_config.specs.EnvConfigSections.{AreKeyed, HasCopies, MergesText, ParsesSections, IsLineFault, profiles_in, sections_of, selected_of, sessions_in};
ghost use Rattle.env_config.specs.ParseFault.{faulty_line_of};
ghost use Rattle.env_config.specs.Profile.{profile_section, session_section};
ghost use Rattle.env_config.specs.Properties.{others_of};
ghost use Rattle.env_config.specs.Section.{section_of};
ghost use Rattle.env_config.specs.Source.{file_of};

use crate::by_name::ByName;
use crate::fault::{LineFlaw, RawFault};
use crate::heading::{Heading, has_profile_default};
use crate::kept::Kept;
use crate::latest::Latest;
use crate::merge::{merge_into, merge_others};
use crate::parse_fault::{EnvConfigParseError, ParseFault};
use crate::profile::{Profile, SsoSession};
use crate::properties::Properties;
use crate::raw::{read_latest, read_raw};
use crate::raw_sections::RawSections;
use crate::source::{EnvConfigFileKind, File, Source};
use crate::texts::Texts;
use smithy_core::Mem;
use std::alloc::Global;
use std::collections::BTreeMap;
use std::fmt;

/// Profiles, sessions and other sections, and the name of the selected profile.
///
/// Sections are equal where they select the same profile and hold equal ones, in whatever order the names came.
/// [`Debug`](std::fmt::Debug) prints the selected profile and how many profiles and sessions there are, since what they
/// hold may be secrets.
#[derive(PartialEq, Eq, Drop)]
pub struct EnvConfigSections {
    selected: String,
    profiles: ByName<Profile>,
    sessions: ByName<SsoSession>,
    pub(crate) others: Properties,
}

impl EnvConfigSections {
    /// No sections, with the profile `default` selected.
    pub fn new(alloc: Global) -> Mem<EnvConfigSections>
        ensures sections { IfOk result (λ sections. sections_of sections ≡ no_sections) }
        ensures selected { IfOk result (λ sections. selected_of sections ≡ codes "default") }
    {
        Ok(EnvConfigSections::with_selected(alloc, String::from_str(alloc, "default")?))
    }

    // No sections, with this profile selected.
    fn with_selected(alloc: Global, selected: String) -> EnvConfigSections
        ensures sections { sections_of result ≡ no_sections }
        ensures selected { selected_of result ≡ string_bytes selected }
        ensures keys { AreKeyed result }
    {
        EnvConfigSections {
            selected,
            profiles: ByName::new(alloc),
            sessions: ByName::new(alloc),
            others: Properties::new(alloc),
        }
    }

    /// The sections of the files, merged, with the profile of the source selected.
    ///
    /// ```rust
    /// let files = EnvConfigFiles::default_files(alloc)?;
    /// let source = load(alloc, &env, &mut disk, &files)?;
    /// let sections = EnvConfigSections::parse(alloc, &source)?;
    /// let region = sections.get("region");
    /// ```
    ///
    /// All of it is kept, in time and memory that grow with the length of the files: up to 110 bytes for a byte of a file whose
    /// sections are tiny. Of a stranger's file take what is asked for, by `SelectedProfile::parse`.
    ///
    /// # Errors
    ///
    /// [`ParseFault::Parse`] with the first line outside the grammar in the first faulty file.
    #[tactic(auto, unfolding(crate::specs::Sections::sections))]
    pub fn parse(alloc: Global, source: &Source) -> Result<EnvConfigSections, ParseFault>
        ensures parses { ParsesSections (sections (map file_of source.now.files.items)) (string_bytes source.now.profile) result }
        ensures keys { IfOk result AreKeyed }
    {
        EnvConfigSections::parse_kept(alloc, &Kept::All, source)
    }

    /// What is kept of the selected profile in the files, merged.
    pub(crate) fn parse_profile(
        alloc: Global,
        kept: &Kept<'_>,
        source: &Source,
    ) -> Result<EnvConfigSections, ParseFault>
        ensures { ParsesProfile (keeps_of kept.now) (files_from (keeps_of kept.now) no_sections (map file_of source.now.files.items)) (string_bytes source.now.profile) result }
    {
        let selected = String::from_str(alloc, source.profile.as_str())?;
        let mut sections = EnvConfigSections::with_selected(alloc, selected);
        for file in &source.files {
            sections.merge_profile(alloc, kept, source.profile.as_str(), file)?;
        }
        Ok(sections)
    }

    // Merges what is kept of the profile in the text of a file.
    fn merge_profile(
        &mut self,
        alloc: Global,
        kept: &Kept<'_>,
        profile: &str,
        file: &File,
    ) -> Result<(), ParseFault>
        ensures sections { MergesProfile (keeps_of kept.now) profile.now (raw (keeps_of kept.now) (file_of file.now).contents) (file_of file.now) (sections_of self.old) (sections_of self.new) result }
        ensures selected { selected_of self.new ≡ selected_of self.old }
    {
        match read_latest(alloc, kept, profile, file.contents.as_str()) {
            Ok(latest) => Ok(self.merge_latest(alloc, file.kind, profile, latest)?),
            Err(RawFault::Line(number, flaw)) => Err(line_fault(alloc, file, number, flaw)),
            Err(RawFault::NoMemory) => Err(ParseFault::NoMemory),
        }
    }

    // Merges the values of the profile that are taken from a file.
    fn merge_latest(
        &mut self,
        alloc: Global,
        kind: EnvConfigFileKind,
        profile: &str,
        latest: Latest<'_>,
    ) -> Mem<()>
        ensures sections { OnOk result (sections_of self.new ≡ with_taken (sections_of self.old) profile.now (taken_values latest.entry kind profile.now)) }
        ensures selected { selected_of self.new ≡ selected_of self.old }
    {
        match latest.into_taken(alloc, kind, profile)? {
            Some(pairs) => merge_into(alloc, &mut self.profiles, profile, pairs),
            None => Ok(()),
        }
    }

    /// What is kept of the sections of the files, merged.
    pub(crate) fn parse_kept(
        alloc: Global,
        kept: &Kept<'_>,
        source: &Source,
    ) -> Result<EnvConfigSections, ParseFault>
        ensures parses { ParsesSections (files_from (keeps_of kept.now) no_sections (map file_of source.now.files.items)) (string_bytes source.now.profile) result }
        ensures keys { IfOk result AreKeyed }
    {
        let selected = String::from_str(alloc, source.profile.as_str())?;
        let mut sections = EnvConfigSections::with_selected(alloc, selected);
        for file in &source.files {
            sections.merge_text(alloc, kept, file)?;
        }
        Ok(sections)
    }

    /// The value of a key of the selected profile, in whatever case the key is given.
    pub fn get(&self, key: &str) -> Option<&str>
        ensures { option_copied result ≡ selected_value (chosen_of self.now) key.now }
    {
        match self.get_profile(self.selected.as_str()) {
            Some(profile) => profile.get(key),
            None => None,
        }
    }

    /// The profile of this name.
    pub fn get_profile(&self, name: &str) -> Option<&Profile>
        ensures itself { option_copied result ≡ value_under (profiles_in self.now) name.now }
        ensures section { option_map (λ profile. section_of (profile_section profile)) (option_copied result) ≡ value_under (sections_of self.now).profiles.values name.now }
    {
        self.profiles.get(name)
    }

    /// The name of the selected profile.
    pub fn selected_profile(&self) -> &str
        ensures { result.now ≡ selected_of self.now }
    {
        self.selected.as_str()
    }

    /// Whether there is no profile.
    pub fn is_empty(&self) -> bool
        ensures { result ≡ (length (sections_of self.now).profiles.names == 0) }
    {
        self.profiles.is_empty()
    }

    /// The names of the profiles in the order of their first appearance.
    pub fn profiles(&self) -> &[String]
        ensures { map string_bytes result.now ≡ (sections_of self.now).profiles.names }
    {
        self.profiles.names()
    }

    /// The names of the sessions in the order of their first appearance.
    pub fn sso_sessions(&self) -> &[String]
        ensures { map string_bytes result.now ≡ (sections_of self.now).sessions.names }
    {
        self.sessions.names()
    }

    /// The session of this name.
    pub fn sso_session(&self, name: &str) -> Option<&SsoSession>
        ensures itself { option_copied result ≡ value_under (sessions_in self.now) name.now }
        ensures section { option_map (λ session. section_of (session_section session)) (option_copied result) ≡ value_under (sections_of self.now).sessions.values name.now }
    {
        self.sessions.get(name)
    }

    /// The properties of all other sections.
    pub fn other_sections(&self) -> &Properties
        ensures { others_of result.now ≡ (sections_of self.now).others }
    {
        &self.others
    }

    /// Equal sections.
    pub fn try_clone(&self) -> Mem<EnvConfigSections>
        ensures sections { IfOk result (λ copy. sections_of copy ≡ sections_of self.now) }
        ensures selected { IfOk result (λ copy. selected_of copy ≡ selected_of self.now) }
        ensures copies { IfOk result (HasCopies self.now) }
    {
        Ok(EnvConfigSections {
            selected: self.selected.clone()?,
            profiles: self.profiles.try_clone()?,
            sessions: self.sessions.try_clone()?,
            others: self.others.try_clone()?,
        })
    }

    // Merges what is kept of the text of a file.
    fn merge_text(&mut self, alloc: Global, kept: &Kept<'_>, file: &File) -> Result<(), ParseFault>
        ensures sections { MergesText (keeps_of kept.now) (sections_of self.old) (file_of file.now) (sections_of self.new) result }
        ensures selected { selected_of self.new ≡ selected_of self.old }
        ensures keys { AreKeyed self.old → OnOk result (AreKeyed self.new) }
    {
        match read_raw(alloc, kept, file.contents.as_str()) {
            Ok(raw) => Ok(self.merge_file(alloc, kept, file.kind, raw)?),
            Err(RawFault::Line(number, flaw)) => Err(line_fault(alloc, file, number, flaw)),
            Err(RawFault::NoMemory) => Err(ParseFault::NoMemory),
        }
    }

    // Merges the raw sections of a file.
    #[tactic(auto, unfolding(crate::specs::Sections::with_file))]
    fn merge_file(
        &mut self,
        alloc: Global,
        kept: &Kept<'_>,
        kind: EnvConfigFileKind,
        raw: RawSections<'_>,
    ) -> Mem<()>
        requires { IsApart raw.names }
        ensures sections { OnOk result (sections_of self.new ≡ with_file (keeps_of kept.now) (sections_of self.old) kind raw.entry) }
        ensures selected { selected_of self.new ≡ selected_of self.old }
        ensures keys { AreKeyed self.old → OnOk result (AreKeyed self.new) }
    {
        let (names, mut texts) = raw.into_parts();
        let overridden = has_profile_default(names.as_slice());
        for name in &names {
            self.merge_named(alloc, kept, kind, overridden, &mut texts, name)?;
        }
        Ok(())
    }

    // Merges the raw section of this name, and takes it from the others.
    fn merge_named(
        &mut self,
        alloc: Global,
        kept: &Kept<'_>,
        kind: EnvConfigFileKind,
        overridden: bool,
        texts: &mut BTreeMap<&str, Texts>,
        name: &str,
    ) -> Mem<()>
        ensures sections { OnOk result (sections_of self.new ≡ with_raw (keeps_of kept.now) (sections_of self.old) kind overridden (heading_of name.now) (unwrap_or (value_under (words_of texts.old.entries) name.now) [])) }
        ensures selected { selected_of self.new ≡ selected_of self.old }
        ensures keys { AreKeyed self.old → OnOk result (AreKeyed self.new) }
        ensures others { OnOk result ((other : List ℕ) → is_eq (text_cmp other name.now) ≡ false → value_under (words_of texts.new.entries) other ≡ value_under (words_of texts.old.entries) other) }
    {
        let pairs = taken(alloc, texts, name);
        let heading = Heading::of(name);
        if !heading.is_taken_from(kind, overridden) {
            return Ok(());
        }
        self.merge_section(alloc, kept, heading, pairs)
    }

    // Merges a raw section with this heading.
    fn merge_section(
        &mut self,
        alloc: Global,
        kept: &Kept<'_>,
        heading: Heading<'_>,
        pairs: Texts,
    ) -> Mem<()>
        ensures sections { OnOk result (sections_of self.new ≡ with_section (keeps_of kept.now) (sections_of self.old) (heading_seen heading.entry).prefix (heading_seen heading.entry).name pairs) }
        ensures selected { selected_of self.new ≡ selected_of self.old }
        ensures keys { AreKeyed self.old → OnOk result (AreKeyed self.new) }
    {
        match heading.prefix {
            None | Some("profile") => { merge_into(alloc, &mut self.profiles, heading.name, pairs) }
            Some("sso-session") => merge_into(alloc, &mut self.sessions, heading.name, pairs),
            Some(prefix) => merge_others(
                alloc,
                kept,
                &mut self.others,
                prefix,
                heading.name,
                pairs,
            ),
        }
    }
}

impl fmt::Debug for EnvConfigSections {
    ghost use Rattle.std.specs.Prelude.{Some, length};
    ghost use Rattle.env_config.specs.EnvConfigSections.{sections_of, sections_shown, selected_of};

    ghost debug_output = { λ s. Some (sections_shown (selected_of s) (length (sections_of s).profiles.names) (length (sections_of s).sessions.names)) };

    fn fmt<W: fmt::Write>(&self, f: &mut fmt::Formatter<W>) -> fmt::Result {
        let selected = self.selected.as_str();
        let (profiles, sessions) = (self.profiles.names().len(), self.sessions.names().len());
        write!(
            f,
            "EnvConfigSections({selected} selected, {profiles} profiles, {sessions} sessions)"
        )
    }
}

// The texts under the name, taken from the others.
fn taken(alloc: Global, texts: &mut BTreeMap<&str, Texts>, name: &str) -> Texts
    ensures texts { result ≡ unwrap_or (value_under (words_of texts.old.entries) name.now) [] }
    ensures others { (other : List ℕ) → is_eq (text_cmp other name.now) ≡ false → value_under (words_of texts.new.entries) other ≡ value_under (words_of texts.old.entries) other }
{
    match texts.remove(name) {
        Some(pairs) => pairs,
        None => Texts::new(alloc),
    }
}

// The fault of this line of the file.
fn line_fault(alloc: Global, file: &File, line_number: usize, flaw: LineFlaw) -> ParseFault
    ensures { IsLineFault (file_of file.now) line_number (flaw_message flaw) result }
{
    match line_error(alloc, file, line_number, flaw.message()) {
        Ok(error) => ParseFault::Parse(error),
        Err(_) => ParseFault::NoMemory,
    }
}

fn line_error(
    alloc: Global,
    file: &File,
    line_number: usize,
    message: &str,
) -> Mem<EnvConfigParseError>
    ensures { IfOk result (λ error. faulty_line_of error ≡ record { path = unwrap_or (file_of file.now).path []; line_number = line_number; message = message.now }) }
{
    Ok(EnvConfigParseError {
        path: String::from_str(alloc, path_of(file))?,
        line_number,
        message: String::from_str(alloc, message)?,
    })
}

// The path of the file, or the empty text.
fn path_of(file: &File) -> &str
    ensures { result.now ≡ unwrap_or (file_of file.now).path [] }
{
    match &file.path {
        Some(path) => path.as_str(),
        None => "",
    }
}
