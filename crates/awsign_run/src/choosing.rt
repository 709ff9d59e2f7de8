//! How who signs is chosen, and for which region and service.
ghost use Rattle.std.specs.Prelude.{◌≡◌, ◌<◌, Ok, Some, codes, length, map, option_copied, string_bytes};
ghost use Rattle.std.specs.Option.{option_or};
ghost use Rattle.smithy_core.specs.Identity.{access_key_id, secret_access_key};
ghost use Rattle.env_config.specs.Source.{file_of};
ghost use Rattle.aws_settings.specs.Choice.{settings_seen};
ghost use Rattle.awsign_words.specs.Words.{has};
ghost use Rattle.awsign_run.specs.Chosen.{GivesSigner, chosen_service, empty_region, signer_by, signs_for, unless_empty};

use crate::chosen::Chosen;
use crate::fault::Fault;
use crate::guess::guessed_service;
use aws_settings::{AwsSettings, settings_of};
use env_config::Source;
use smithy_core::Env;
use std::alloc::Global;

/// Who signs for a host, by options, variables and the source's profile, in this order; an empty variable counts as unset. The service is
/// the one that the host names, where no option says it.
///
/// # Errors
///
/// The first of these: what lacks of key and region, as [`Fault::lacking`] has it; [`Fault::EmptyRegion`], of an option;
/// [`Fault::MissingService`]; [`Fault::EmptyService`], of an option.
pub fn signer_for(
    alloc: Global,
    options: &Env,
    host: &str,
    env: &Env,
    source: &Source,
) -> Result<Chosen, Fault>
    ensures { GivesSigner (signer_by options.now host.now env.now (string_bytes source.now.profile) (map file_of source.now.files.items)) result }
{
    let region = options.get("--region");
    match settings_of(alloc, names_profile(options), region, env, source) {
        Ok(settings) => chosen_for(alloc, settings, service_of(options, host)),
        Err(fault) => Err(Fault::lacking(alloc, fault, source)?),
    }
}

// Whether an option names the profile.
fn names_profile(options: &Env) -> bool
    ensures { result ≡ has options.now (codes "--profile") }
{
    options.get("--profile").is_some()
}

// Who signs with these settings, where they have a region and there is a service.
fn chosen_for(alloc: Global, settings: AwsSettings, service: Option<&str>) -> Result<Chosen, Fault>
    requires key_id { 0 < length (access_key_id settings.credentials) }
    requires secret { 0 < length (secret_access_key settings.credentials) }
    ensures { let region = unless_empty (string_bytes settings.region) empty_region (settings_seen settings) in GivesSigner (signs_for region (option_copied service.entry)) result }
{
    if settings.region.is_empty() {
        return Err(Fault::EmptyRegion);
    }
    match service {
        Some(service) => chosen_at(alloc, settings, service),
        None => Err(Fault::MissingService),
    }
}

// Who signs with these settings, where the service's name isn't empty.
fn chosen_at(alloc: Global, settings: AwsSettings, service: &str) -> Result<Chosen, Fault>
    requires key_id { 0 < length (access_key_id settings.credentials) }
    requires secret { 0 < length (secret_access_key settings.credentials) }
    requires region { 0 < length (string_bytes settings.region) }
    ensures { GivesSigner (signs_for (Ok (settings_seen settings)) (Some service.now)) result }
{
    if service.is_empty() {
        return Err(Fault::EmptyService);
    }
    Ok(Chosen {
        credentials: settings.credentials,
        region: settings.region,
        service: String::from_str(alloc, service)?,
    })
}

// The first text, or else the second.
fn either<'a>(first: Option<&'a str>, second: Option<&'a str>) -> Option<&'a str>
    ensures { option_copied result ≡ option_or (option_copied first.entry) (option_copied second.entry) }
{
    match first {
        Some(text) => Some(text),
        None => second,
    }
}

fn service_of<'a>(options: &'a Env, host: &'a str) -> Option<&'a str>
    ensures { option_copied result ≡ chosen_service options.now host.now }
{
    let named = options.get("--service");
    let usual = if options.get("--s3").is_some() {
        Some("s3")
    } else {
        None
    };
    either(either(named, usual), guessed_service(host))
}
