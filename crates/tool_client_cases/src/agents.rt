use crate::metadata::{api_of, build_of};
use crate::parts::{Part, PartFault, additional_of, part_of};
use crate::texts::{debugged, env_of, rest, word};
use aws_intercept::{AwsUserAgent, OsFamily};
use smithy_core::Mem;
use std::alloc::Global;
use tool_case_lines::halves;

// The headers of an agent that was given parts: of `with` by the calls that hand it on, of `add` by those that lend it on; and of
// `copy` those of a copy of one that was handed on.
pub fn answer(alloc: Global, call: &str, words: &[&str]) -> Mem<String> {
    match agent_with(alloc, call, word(words, 0), rest(words, 1)) {
        Ok(agent) => headers_text(alloc, &agent),
        Err(fault) => debugged(alloc, Ok(fault)),
    }
}

// Both headers, or one where they are the same.
fn headers_text(alloc: Global, agent: &AwsUserAgent) -> Mem<String> {
    let header = agent.ua_header()?;
    let aws_header = agent.aws_ua_header()?;
    if header == aws_header {
        return Ok(header);
    }
    format!(in alloc; "{header} | {aws_header}")
}

// The agent for tests, or the one of the build that says `build MORE`, or of the build in an environment.
pub fn agent_of(alloc: Global, base: &str) -> Mem<AwsUserAgent> {
    let (kind, more) = halves(base);
    match kind {
        "tests" => AwsUserAgent::for_tests(alloc),
        "build" => in_environment(alloc, "", Some(more)),
        _ => in_environment(alloc, base, None),
    }
}

fn in_environment(alloc: Global, variables: &str, more: Option<&str>) -> Mem<AwsUserAgent> {
    let env = env_of(alloc, variables)?;
    let api = api_of(alloc, "dynamodb", "123")?;
    let mut build = build_of(alloc, OsFamily::Macos)?;
    if let Some(more) = more {
        build.extra = additional_of(alloc, more).ok();
    }
    AwsUserAgent::new_from_environment(alloc, &env, api, build)
}

fn agent_with(
    alloc: Global,
    call: &str,
    base: &str,
    parts: &[&str],
) -> Result<AwsUserAgent, PartFault> {
    let mut agent = agent_of(alloc, base)?;
    for part in parts {
        let (kind, value) = halves(part);
        let part = part_of(alloc, kind, &[value])?;
        if call == "add" {
            add_part(&mut agent, part)?;
        } else {
            agent = with_part(agent, part)?;
        }
    }
    if call == "copy" {
        agent = agent.try_clone()?;
    }
    Ok(agent)
}

fn with_part(agent: AwsUserAgent, part: Part) -> Mem<AwsUserAgent> {
    match part {
        Part::Metric(metric) => agent.with_business_metric(metric),
        Part::Framework(framework) => agent.with_framework_metadata(framework),
        Part::Value(value) => agent.with_additional_metadata(value),
        Part::Feature(feature) => Ok(agent.with_feature_metadata(feature)),
        Part::Config(config) => Ok(agent.with_config_metadata(config)),
        Part::App(name) => Ok(agent.with_app_name(name)),
    }
}

fn add_part(agent: &mut AwsUserAgent, part: Part) -> Mem<()> {
    match part {
        Part::Metric(metric) => agent.add_business_metric(metric)?,
        Part::Framework(framework) => agent.add_framework_metadata(framework)?,
        Part::Value(value) => agent.add_additional_metadata(value)?,
        Part::Feature(feature) => agent.add_feature_metadata(feature),
        Part::Config(config) => agent.add_config_metadata(config),
        Part::App(name) => agent.set_app_name(name),
    };
    Ok(())
}
