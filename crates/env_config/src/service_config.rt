ghost use Rattle.std.specs.Fn.{FnReturnsAt};
ghost use Rattle.env_config.specs.Value.{value};
ghost use Rattle.env_config.specs.EnvConfigValue.{Validates, asked_by, chosen_in};

use crate::sections::EnvConfigSections;
use crate::value::EnvConfigValue;
use crate::value_fault::ValidateFault;
use smithy_core::Env;
use std::alloc::Global;

/// A setting of a service.
#[derive(Clone, Copy, Debug)]
pub struct ServiceConfigKey<'a> {
    /// The variable.
    pub env: &'a str,
    /// The key of profiles.
    pub profile: &'a str,
    /// The id of the service.
    pub service_id: &'a str,
}

/// What the validator answers for the value of the setting, as [`EnvConfigValue::validate`] does. It has to be one that may be
/// called on every text.
///
/// # Errors
///
/// [`ValidateFault::Invalid`] where the validator refused the value that was found.
pub fn get_service_env_config<T, E, V: Fn(&str) -> Result<T, E>>(
    alloc: Global,
    key: &ServiceConfigKey<'_>,
    env: &Env,
    sections: Option<&EnvConfigSections>,
    validator: V,
) -> Result<Option<T>, ValidateFault<E>>
    requires { V.IsAlwaysCallable validator }
    ensures { Validates (FnReturnsAt V.Fn validator) (value env.now (chosen_in sections.entry) (asked_by key.now)) result }
{
    EnvConfigValue::new()
        .env(key.env)
        .profile(key.profile)
        .service_id(key.service_id)
        .validate(alloc, env, sections, validator)
}
