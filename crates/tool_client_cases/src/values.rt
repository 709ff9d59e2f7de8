use crate::files::sections_of;
use crate::profiles::fault_text;
use crate::texts::{env_of, given, printed, text, word};
use env_config::{
    EnvConfigError, EnvConfigSections, EnvConfigSource, EnvConfigValue, Origin, Os,
    ServiceConfigKey, ValidateFault, get_service_env_config, home_dir,
};
use smithy_core::{Env, Mem};
use std::alloc::Global;
use tool_case_lines::unknown;

// The home directory of a system, or what a call answers for a value with this file, or with none of it.
pub fn answer(alloc: Global, call: &str, words: &[&str]) -> Mem<String> {
    let env = env_of(alloc, word(words, 1))?;
    let (first, file) = (word(words, 0), word(words, 2));
    match call {
        "home" => home_of(alloc, os_of(first), &env),
        _ if file == "-" => value_in(alloc, call, value_of(first), &env, None),
        _ => match &sections_of(alloc, "default", &[file]) {
            Ok(sections) => value_in(alloc, call, value_of(first), &env, Some(sections)),
            Err(fault) => fault_text(alloc, fault),
        },
    }
}

fn os_of(system: &str) -> Os {
    match system {
        "Windows" => Os::Windows,
        "Unix" => Os::Unix,
        _ => Os::real(),
    }
}

fn home_of(alloc: Global, os: Os, env: &Env) -> Mem<String> {
    match home_dir(alloc, env, os)? {
        Some(dir) => Ok(dir),
        None => text(alloc, "-"),
    }
}

fn value_in(
    alloc: Global,
    call: &str,
    value: EnvConfigValue<'_>,
    env: &Env,
    sections: Option<&EnvConfigSections>,
) -> Mem<String> {
    match call {
        "load" => load(alloc, value, env, sections),
        "accept" => checked(alloc, value.validate(alloc, env, sections, accepts)),
        "refuse" => checked(alloc, value.validate(alloc, env, sections, refuses)),
        "reason" => reason(alloc, value.validate(alloc, env, sections, refuses)),
        "origin" => origin(alloc, value, env, sections),
        "service" => checked(
            alloc,
            get_service_env_config(alloc, &REGION, env, sections, accepts),
        ),
        _ => unknown(alloc),
    }
}

// The region of a service.
const REGION: ServiceConfigKey<'static> = ServiceConfigKey {
    env: "AWS_REGION",
    profile: "region",
    service_id: "Dynamo DB",
};

// The value `VARIABLE,KEY,SERVICE`.
fn value_of<'a>(asked: &'a str) -> EnvConfigValue<'a> {
    let (variable, others) = asked.split_once(',').unwrap_or((asked, "-"));
    let (key, service) = others.split_once(',').unwrap_or((others, "-"));
    let value = with_variable(EnvConfigValue::new(), variable);
    with_service(with_key(value, key), service)
}

fn with_variable<'a>(value: EnvConfigValue<'a>, word: &'a str) -> EnvConfigValue<'a> {
    match given(word) {
        Some(variable) => value.env(variable),
        None => value,
    }
}

fn with_key<'a>(value: EnvConfigValue<'a>, word: &'a str) -> EnvConfigValue<'a> {
    match given(word) {
        Some(key) => value.profile(key),
        None => value,
    }
}

fn with_service<'a>(value: EnvConfigValue<'a>, word: &'a str) -> EnvConfigValue<'a> {
    match given(word) {
        Some(service) => value.service_id(service),
        None => value,
    }
}

// The value, the kind of its place, and what a copy of the place prints.
fn load(
    alloc: Global,
    value: EnvConfigValue<'_>,
    env: &Env,
    sections: Option<&EnvConfigSections>,
) -> Mem<String> {
    match &value.load(alloc, env, sections)? {
        Some((value, source)) => place_text(alloc, value.as_str(), source),
        None => text(alloc, "-"),
    }
}

fn place_text(alloc: Global, value: &str, source: &EnvConfigSource) -> Mem<String> {
    let (origin, source) = (Origin::from(source), source.try_clone()?);
    format!(in alloc; "{value} ({origin:?}) {source}")
}

// Gives the number of bytes.
fn accepts(value: &str) -> Result<usize, &'static str> {
    Ok(value.len())
}

// Refuses every text.
fn refuses(_value: &str) -> Result<usize, &'static str> {
    Err("bad")
}

// The accepted number, or what a copy of the fault prints.
fn checked(
    alloc: Global,
    answer: Result<Option<usize>, ValidateFault<&'static str>>,
) -> Mem<String> {
    match answer {
        Ok(length) => length_text(alloc, length),
        Err(fault) => printed(alloc, fault.try_clone()),
    }
}

fn length_text(alloc: Global, length: Option<usize>) -> Mem<String> {
    match length {
        Some(length) => printed(alloc, Ok(length)),
        None => text(alloc, "-"),
    }
}

// Why the value was refused, and what a copy of the error prints.
fn reason(
    alloc: Global,
    answer: Result<Option<usize>, ValidateFault<&'static str>>,
) -> Mem<String> {
    match &answer {
        Err(ValidateFault::Invalid(error)) => reason_text(alloc, error),
        _ => text(alloc, "-"),
    }
}

fn reason_text(alloc: Global, error: &EnvConfigError<&'static str>) -> Mem<String> {
    let (err, copy) = (error.err(), error.try_clone()?);
    format!(in alloc; "{err} | {copy}")
}

// The accepted number and the kind of its place.
fn origin(
    alloc: Global,
    value: EnvConfigValue<'_>,
    env: &Env,
    sections: Option<&EnvConfigSections>,
) -> Mem<String> {
    match value.validate_and_return_origin(alloc, env, sections, accepts) {
        Ok((length, origin)) => {
            let length = length_text(alloc, length)?;
            format!(in alloc; "{length} ({origin:?})")
        }
        Err(fault) => printed(alloc, Ok(fault)),
    }
}
