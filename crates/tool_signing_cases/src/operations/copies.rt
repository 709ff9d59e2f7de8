//! Copies, each compared with what it was made of where there is `==`.
use crate::operations::faults::error_of;
use crate::operations::inputs::{config_of, options_of, override_of};
use crate::operations::signing;
use crate::parts::{copy_compared, copy_shown, word};
use aws_auth::{OverrideError, SigV4OperationSigningConfig, SigV4SessionTokenNameOverride};
use sigv4::SigningSettings;
use smithy_core::Mem;
use std::alloc::Global;
use tool_case_lines::shown;

/// What the copy of a value of this kind shows.
pub fn answer(alloc: Global, kind: &str, words: &[&str]) -> Mem<String> {
    match kind {
        "PayloadSigningOverride" => {
            let payload = override_of(alloc, word(words, 0))?;
            copy_compared(alloc, &payload, payload.try_clone())
        }
        "SigningOptions" => {
            let options = options_of(alloc, words)?;
            copy_compared(alloc, &options, options.try_clone())
        }
        "SigV4OperationSigningConfig" => {
            let config = config_of(alloc, words)?;
            copy_compared(alloc, &config, config.try_clone())
        }
        "SigV4SigningError" => {
            copy_shown(alloc, error_of(word(words, 0), word(words, 1)).try_clone())
        }
        "SigV4SessionTokenNameOverride" => shown(alloc, name_override(alloc, word(words, 0))),
        _ => signing::answer(alloc, kind, words),
    }
}

// The name that a copy of an override gives.
fn name_override(alloc: Global, name: &str) -> Result<String, OverrideError> {
    let settings = SigningSettings::new(alloc)?;
    name_asked(
        alloc,
        name,
        &settings,
        &SigV4OperationSigningConfig::default(),
    )
}

fn name_asked(
    alloc: Global,
    name: &str,
    settings: &SigningSettings,
    config: &SigV4OperationSigningConfig,
) -> Result<String, OverrideError> {
    let name_override = SigV4SessionTokenNameOverride::new(
        move |_: &SigningSettings, _: &SigV4OperationSigningConfig| name_given(alloc, name),
    );
    let copy = name_override.try_clone()?;
    let given = copy.name_override(settings, config)?;
    Ok(format!(in alloc; "{copy:?} {given:?}")?)
}

fn name_given(alloc: Global, name: &str) -> Result<Option<String>, OverrideError> {
    Ok(Some(String::from_str(alloc, name)?))
}
