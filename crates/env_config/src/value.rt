ghost use Rattle.std.specs.Prelude.{◌≡◌, IfOk, option_copied, option_map};
ghost use Rattle.std.specs.Fn.{FnReturnsAt};
ghost use Rattle.env_config.specs.Value.{InProfile, in_profile, in_variables, service_property, service_variable, value};
ghost use Rattle.env_config.specs.EnvConfigValue.{Validates, ValidatesAt, asked_of, chosen_in, chosen_of, found_of, origin_of};
ghost use Rattle.env_config.specs.ValueSource.{holder_of};
ghost use Rattle.env_config.specs.EnvConfigSections.{selected_of};

use crate::properties_key::PropertiesKey;
use crate::sections::EnvConfigSections;
use crate::service_id::{id_in_sections, service_key};
use crate::value_fault::{EnvConfigError, ValidateFault};
use crate::value_source::{EnvConfigSource, Location, Origin, Scope};
use smithy_core::{Env, Mem};
use std::alloc::Global;

/// What is asked for: a variable, a key of profiles, and the id of a service that may have a value of its own.
#[derive(Clone, Copy, Debug)]
pub struct EnvConfigValue<'a> {
    environment_variable: Option<&'a str>,
    profile_key: Option<&'a str>,
    service_id: Option<&'a str>,
}

impl<'a> EnvConfigValue<'a> {
    /// Nothing yet.
    pub fn new() -> EnvConfigValue<'a>
        ensures { asked_of result ≡ record { env = None; profile = None; service_id = None } }
    {
        EnvConfigValue {
            environment_variable: None,
            profile_key: None,
            service_id: None,
        }
    }

    /// Asks for the variable.
    pub fn env(mut self, key: &'a str) -> EnvConfigValue<'a>
        ensures { asked_of result ≡ record (asked_of self.entry) { env = Some key.entry.now } }
    {
        self.environment_variable = Some(key);
        self
    }

    /// Asks for the key of profiles.
    pub fn profile(mut self, key: &'a str) -> EnvConfigValue<'a>
        ensures { asked_of result ≡ record (asked_of self.entry) { profile = Some key.entry.now } }
    {
        self.profile_key = Some(key);
        self
    }

    /// Asks for the service's own value first.
    pub fn service_id(mut self, id: &'a str) -> EnvConfigValue<'a>
        ensures { asked_of result ≡ record (asked_of self.entry) { service_id = Some id.entry.now } }
    {
        self.service_id = Some(id);
        self
    }

    /// The value of the first place that holds one, and where that is. The places are the variable of the service, the
    /// variable, the sub-property of the service in the section `services` that the selected profile names, and the
    /// property of the selected profile.
    #[tactic(auto, unfolding(crate::specs::Value::value))]
    pub fn load(
        &self,
        alloc: Global,
        env: &Env,
        sections: Option<&EnvConfigSections>,
    ) -> Mem<Option<(String, EnvConfigSource)>>
        ensures { IfOk result (λ found. option_map found_of found ≡ value env.now (chosen_in sections.entry) (asked_of self.now)) }
    {
        if let Some(key) = self.environment_variable {
            let found = in_variables(alloc, env, self.service_id, key)?;
            if found.is_some() {
                return Ok(found);
            }
        }
        match (sections, self.profile_key) {
            (Some(sections), Some(key)) => in_profile(alloc, sections, self.service_id, key),
            _ => Ok(None),
        }
    }

    /// What the validator answers for the value of the first place that holds one, and nothing where none does. It has to be one
    /// that may be called on every text.
    ///
    /// # Errors
    ///
    /// [`ValidateFault::Invalid`] where the validator refused the value that was found.
    pub fn validate<T, E, V: Fn(&str) -> Result<T, E>>(
        &self,
        alloc: Global,
        env: &Env,
        sections: Option<&EnvConfigSections>,
        validator: V,
    ) -> Result<Option<T>, ValidateFault<E>>
        requires { V.IsAlwaysCallable validator }
        ensures { Validates (FnReturnsAt V.Fn validator) (value env.now (chosen_in sections.entry) (asked_of self.now)) result }
    {
        validated(self.load(alloc, env, sections)?, validator)
    }

    /// What [`validate`](Self::validate) answers, with the kind of place that the value comes from, under the same condition.
    ///
    /// # Errors
    ///
    /// [`ValidateFault::Invalid`] where the validator refused the value that was found.
    pub fn validate_and_return_origin<T, E, V: Fn(&str) -> Result<T, E>>(
        &self,
        alloc: Global,
        env: &Env,
        sections: Option<&EnvConfigSections>,
        validator: V,
    ) -> Result<(Option<T>, Origin), ValidateFault<E>>
        requires { V.IsAlwaysCallable validator }
        ensures { ValidatesAt (FnReturnsAt V.Fn validator) (value env.now (chosen_in sections.entry) (asked_of self.now)) result }
    {
        let found = self.load(alloc, env, sections)?;
        let origin = origin_of(&found);
        match validated(found, validator) {
            Ok(valid) => Ok((valid, origin)),
            Err(fault) => Err(fault),
        }
    }
}

// What the validator answers for the value that was found.
fn validated<T, E, V: Fn(&str) -> Result<T, E>>(
    found: Option<(String, EnvConfigSource)>,
    validator: V,
) -> Result<Option<T>, ValidateFault<E>>
    requires { V.IsAlwaysCallable validator }
    ensures { Validates (FnReturnsAt V.Fn validator) (option_map found_of found) result }
{
    let Some((value, source)) = found else {
        return Ok(None);
    };
    match validator(value.as_str()) {
        Ok(valid) => Ok(Some(valid)),
        Err(err) => Err(ValidateFault::Invalid(EnvConfigError::new(source, err))),
    }
}

// The kind of place that the value comes from.
fn origin_of(found: &Option<(String, EnvConfigSource)>) -> Origin
    ensures { result ≡ origin_of (option_map found_of found.now) }
{
    match found {
        Some((_, source)) => Origin::from(source),
        None => Origin::Unknown,
    }
}

// The variable of the service, or else the variable.
fn in_variables(
    alloc: Global,
    env: &Env,
    service_id: Option<&str>,
    key: &str,
) -> Mem<Option<(String, EnvConfigSource)>>
    ensures { IfOk result (λ found. option_map found_of found ≡ in_variables env.now (option_copied service_id.entry) key.now) }
{
    if let Some(id) = service_id {
        let found = service_variable(alloc, env, id, key)?;
        if found.is_some() {
            return Ok(found);
        }
    }
    let Some(value) = env.get(key) else {
        return Ok(None);
    };
    let source = EnvConfigSource::new(
        String::from_str(alloc, key)?,
        Location::Environment,
        Scope::Global,
    );
    Ok(Some((String::from_str(alloc, value)?, source)))
}

fn service_variable(
    alloc: Global,
    env: &Env,
    id: &str,
    key: &str,
) -> Mem<Option<(String, EnvConfigSource)>>
    ensures { IfOk result (λ found. option_map found_of found ≡ service_variable env.now id.now key.now) }
{
    let key = service_key(alloc, key, id)?;
    let Some(value) = env.get(key.as_str()) else {
        return Ok(None);
    };
    let value = String::from_str(alloc, value)?;
    let scope = Scope::Service(String::from_str(alloc, id)?);
    Ok(Some((
        value,
        EnvConfigSource::new(key, Location::Environment, scope),
    )))
}

// The sub-property of the service, or else the property.
fn in_profile(
    alloc: Global,
    sections: &EnvConfigSections,
    service_id: Option<&str>,
    key: &str,
) -> Mem<Option<(String, EnvConfigSource)>>
    ensures { IfOk result (λ found. option_map found_of found ≡ in_profile (chosen_of sections.now) (option_copied service_id.entry) key.now) }
{
    if let Some(id) = service_id {
        let found = service_property(alloc, sections, id, key)?;
        if found.is_some() {
            return Ok(found);
        }
    }
    let Some(value) = sections.get(key) else {
        return Ok(None);
    };
    let source = EnvConfigSource::new(
        String::from_str(alloc, key)?,
        selected_location(alloc, sections)?,
        Scope::Global,
    );
    Ok(Some((String::from_str(alloc, value)?, source)))
}

fn service_property(
    alloc: Global,
    sections: &EnvConfigSections,
    id: &str,
    key: &str,
) -> Mem<Option<(String, EnvConfigSource)>>
    ensures { IfOk result (λ found. option_map found_of found ≡ service_property (chosen_of sections.now) id.now key.now) }
{
    let Some(services) = sections.get("services") else {
        return Ok(None);
    };
    let at = PropertiesKey::new(
        String::from_str(alloc, "services")?,
        String::from_str(alloc, services)?,
        id_in_sections(alloc, id)?,
        Some(String::from_str(alloc, key)?),
    );
    let Some(value) = sections.other_sections().get(&at) else {
        return Ok(None);
    };
    let value = String::from_str(alloc, value)?;
    let scope = Scope::Service(String::from_str(alloc, id)?);
    let source = EnvConfigSource::new(
        String::from_str(alloc, key)?,
        selected_location(alloc, sections)?,
        scope,
    );
    Ok(Some((value, source)))
}

// The selected profile.
fn selected_location(alloc: Global, sections: &EnvConfigSections) -> Mem<Location>
    ensures { IfOk result (λ location. holder_of location ≡ InProfile (selected_of sections.now)) }
{
    Ok(Location::Profile(String::from_str(alloc, sections.selected_profile())?))
}
