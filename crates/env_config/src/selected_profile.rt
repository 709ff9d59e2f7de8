ghost use Rattle.std.specs.Prelude.{◌≡◌, IfOk, None, Ok, Some, map, option_copied, option_map};
ghost use Rattle.std.specs.String.{string_bytes};
ghost use Rattle.env_config.specs.EnvConfigValue.{asked_of, found_of};
ghost use Rattle.env_config.specs.Sections.{sections};
ghost use Rattle.env_config.specs.Selected.{ParsesSelected, ParsesService, kept_of};
ghost use Rattle.env_config.specs.Source.{file_of};
ghost use Rattle.env_config.specs.Value.{selected_value, value};

use crate::kept::Kept;
use crate::parse_fault::ParseFault;
use crate::properties::Properties;
use crate::sections::EnvConfigSections;
use crate::service_id::id_in_sections;
use crate::source::Source;
use crate::value::EnvConfigValue;
use crate::value_source::EnvConfigSource;
use smithy_core::{Env, Mem};
use std::alloc::Global;
use std::fmt;

/// What some keys and a service need of the selected profile. [`Debug`](std::fmt::Debug) prints its name, since its
/// values may be secrets.
// The sections are a part of those of the files, and so they aren't handed out.
#[derive(Drop)]
pub struct SelectedProfile {
    sections: EnvConfigSections,
}

impl SelectedProfile {
    /// What these keys and this service need of the source's selected profile, as the merged sections of the files have
    /// it: the properties with these keys, whatever their case, and `services`; and of the services section that the
    /// profile names the service's own sub-properties with these keys as they are spelled. Of all else there may be more
    /// or less than in the files, so that little memory is taken whatever else the files hold.
    ///
    /// ```rust
    /// let profile = SelectedProfile::parse(alloc, &source, &["region"], Some("S3"))?;
    /// let region = profile.get("region");
    /// ```
    ///
    /// # Errors
    ///
    /// [`ParseFault::Parse`] with the first line outside the grammar in the first faulty file, wherever it stands.
    pub fn parse(
        alloc: Global,
        source: &Source,
        keys: &[&str],
        service_id: Option<&str>,
    ) -> Result<SelectedProfile, ParseFault>
        ensures { ParsesSelected (sections (map file_of source.now.files.items)) (string_bytes source.now.profile) (map (λ k. k.now) keys.now) (option_copied service_id.entry) result }
    {
        let profile = SelectedProfile::parse_keys(alloc, source, keys)?;
        match service_id {
            Some(id) => profile.with_service(alloc, source, keys, id),
            None => Ok(profile),
        }
    }

    // The properties with these keys.
    #[tactic(auto, unfolding(crate::specs::Sections::sections))]
    fn parse_keys<'a>(
        alloc: Global,
        source: &'a Source,
        keys: &'a [&'a str],
    ) -> Result<SelectedProfile, ParseFault>
        ensures { ParsesSelected (sections (map file_of source.now.files.items)) (string_bytes source.now.profile) (map (λ k. k.now) keys.now) None result }
    {
        let kept = Kept::Profile {
            name: source.profile.as_str(),
            keys,
        };
        match EnvConfigSections::parse_profile(alloc, &kept, source) {
            Ok(sections) => Ok(SelectedProfile { sections }),
            Err(fault) => Err(fault),
        }
    }

    // This profile with the service's own sub-properties with these keys.
    fn with_service(
        mut self,
        alloc: Global,
        source: &Source,
        keys: &[&str],
        id: &str,
    ) -> Result<SelectedProfile, ParseFault>
        requires { ParsesSelected (sections (map file_of source.now.files.items)) (string_bytes source.now.profile) (map (λ k. k.now) keys.now) None (Ok self) }
        ensures { ParsesSelected (sections (map file_of source.now.files.items)) (string_bytes source.now.profile) (map (λ k. k.now) keys.now) (Some id.now) result }
    {
        let Some(services) = self.get("services") else {
            return Ok(self);
        };
        self.sections.others = service_properties(alloc, source, services, keys, id)?;
        Ok(self)
    }

    /// Its name.
    pub fn name(&self) -> &str
        ensures { result.now ≡ (kept_of self.now).selected }
    {
        self.sections.selected_profile()
    }

    /// The value of a key, in whatever case the key is given.
    pub fn get(&self, key: &str) -> Option<&str>
        ensures { option_copied result ≡ selected_value (kept_of self.now) key.now }
    {
        self.sections.get(key)
    }

    /// The value of the first place that holds one of what is asked for, among the variables and in this profile, and
    /// where that is.
    pub fn load(
        &self,
        alloc: Global,
        env: &Env,
        asked: &EnvConfigValue<'_>,
    ) -> Mem<Option<(String, EnvConfigSource)>>
        ensures { IfOk result (λ found. option_map found_of found ≡ value env.now (Some (kept_of self.now)) (asked_of asked.now)) }
    {
        asked.load(alloc, env, Some(&self.sections))
    }
}

impl fmt::Debug for SelectedProfile {
    ghost use Rattle.std.specs.Prelude.{Some};
    ghost use Rattle.env_config.specs.Selected.{kept_of, selected_shown};

    ghost debug_output = { λ profile. Some (selected_shown (kept_of profile).selected) };

    fn fmt<W: fmt::Write>(&self, f: &mut fmt::Formatter<W>) -> fmt::Result {
        let name = self.sections.selected_profile();
        write!(f, "SelectedProfile({name})")
    }
}

// The sub-properties of the service with these keys in this services section.
#[tactic(auto, unfolding(crate::specs::Sections::sections))]
fn service_properties(
    alloc: Global,
    source: &Source,
    services: &str,
    keys: &[&str],
    id: &str,
) -> Result<Properties, ParseFault>
    ensures { ParsesService (sections (map file_of source.now.files.items)) services.now (map (λ k. k.now) keys.now) id.now result }
{
    let id = id_in_sections(alloc, id)?;
    let kept = Kept::Services {
        name: services,
        service: id.as_str(),
        sub_properties: keys,
    };
    let sections = EnvConfigSections::parse_kept(alloc, &kept, source)?;
    Ok(sections.others)
}
