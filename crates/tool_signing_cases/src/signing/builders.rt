//! Parameters and their builders.
use crate::parts::{debugged, identity_of, part_or_none};
use crate::signing::requests::{name_of, region_of, time_of};
use sigv4::v4::{Builder, SigningParams};
use sigv4::{SigningParams as RequestParams, SigningSettings};
use smithy_core::{Identity, Mem, Moment};
use std::alloc::Global;
use tool_case_lines::{has_part, number};

/// The answer of a call on parameters.
pub fn answer(alloc: Global, call: &str, parts: &[&str]) -> Mem<String> {
    let identity = identity_of(alloc, parts)?;
    match call {
        "build" => build(alloc, &identity, parts),
        "change" => change(alloc, &identity, parts),
        _ => whole(alloc, &identity, parts),
    }
}

// What is built of `identity`, `region`, `name`, `time` and `settings`, as far as they are there, or the part that is
// missing.
fn build(alloc: Global, identity: &Identity, parts: &[&str]) -> Mem<String> {
    match builder_of(identity, parts).build() {
        Ok(params) => shown_params(alloc, &params),
        Err(missing) => format!(in alloc; "{missing:?}: {missing}"),
    }
}

// A builder with these parts.
fn builder_of<'a>(identity: &'a Identity, parts: &[&str]) -> Builder<'a, i64> {
    let mut builder = SigningParams::builder().region("replaced").settings(0);
    builder
        .set_identity(has_part(parts, "identity").then_some(identity))
        .set_region(has_part(parts, "region").then_some("eu-west-1"))
        .set_name(has_part(parts, "name").then_some("service"))
        .set_time(has_part(parts, "time").then_some(Moment::new(7, 9)))
        .set_settings(has_part(parts, "settings").then_some(5));
    builder
}

// Region, name, second, nanoseconds, settings and algorithm.
fn shown_params(alloc: Global, params: &SigningParams<'_, i64>) -> Mem<String> {
    let (region, name, algorithm) = (params.region(), params.name(), params.algorithm());
    let (time, settings) = (params.time(), params.settings());
    let (secs, nanos) = (time.secs(), time.subsec_nanos());
    format!(in alloc; "{region} {name} {secs} {nanos} {settings} {algorithm}")
}

// Expiry, region, name, second, algorithm and version of a copy of the parameters of a request, which a copy of a
// builder built, after the settings in them got `expires-in N`.
fn change(alloc: Global, identity: &Identity, parts: &[&str]) -> Mem<String> {
    let settings = SigningSettings::new(alloc)?;
    match whole_builder(identity, settings).try_clone()?.build() {
        Ok(params) => changed(alloc, RequestParams::from(params), parts),
        Err(missing) => debugged(alloc, &missing),
    }
}

fn whole_builder<'a>(
    identity: &'a Identity,
    settings: SigningSettings,
) -> Builder<'a, SigningSettings> {
    SigningParams::builder()
        .identity(identity)
        .region("eu-west-1")
        .name("service")
        .time(Moment::new(7, 9))
        .settings(settings)
}

fn changed(alloc: Global, params: RequestParams<'_>, parts: &[&str]) -> Mem<String> {
    let mut params = params;
    params.settings_mut().expires_in = part_or_none(parts, "expires-in").parse().ok();
    shown_request_params(alloc, &params.try_clone()?)
}

fn shown_request_params(alloc: Global, params: &RequestParams<'_>) -> Mem<String> {
    let (region, name) = (params.region().unwrap_or("none"), params.name());
    let (expiry, secs) = (params.settings().expires_in, params.time().secs());
    let (algorithm, version) = (params.algorithm(), params.signature_version());
    format!(in alloc; "{expiry:?} {region} {name} {secs} {algorithm} {version}")
}

// The parameters of all parts: who signs, and what they show, under the settings `settings N` and then those of
// `again N`.
fn whole(alloc: Global, identity: &Identity, parts: &[&str]) -> Mem<String> {
    let (region, name, time) = (region_of(parts), name_of(parts), time_of(parts));
    let settings = number(part_or_none(parts, "settings"));
    let params = SigningParams::new(identity, region, name, time, settings);
    let who = key_id(params.identity());
    let first = shown_params(alloc, &params)?;
    let params = params.with_settings(number(part_or_none(parts, "again")));
    let second = shown_params(alloc, &params)?;
    format!(in alloc; "{who} {first}, {second}")
}

fn key_id<'a>(identity: &'a Identity) -> &'a str {
    match identity {
        Identity::Credentials(credentials) => credentials.access_key_id(),
        Identity::Token(_) => "a token",
    }
}
