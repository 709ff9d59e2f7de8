ghost use Rattle.std.specs.Prelude.{◌≡◌, ◌++◌, IfOk, OnOk, codes, map, option_map, option_to_list, string_bytes};
ghost use Rattle.aws_intercept.specs.Agent.{agent_text, metric_part, spaced, system_text};
ghost use Rattle.aws_intercept.specs.Metadata.{additional_text, framework_text, with_value};

use crate::user_agent::agent::AwsUserAgent;
use crate::user_agent::framework::FrameworkMetadata;
use crate::user_agent::metadata::AdditionalMetadata;
use crate::user_agent::metric::BusinessMetric;
use crate::user_agent::metric_ids::fitting_ids;
use smithy_core::{AppName, Mem};

/// The most bytes of the ids of metrics.
const MOST_ID_BYTES: usize = 1024;

impl AwsUserAgent {
    /// The text of the header `x-amz-user-agent`.
    #[tactic(auto, using(crate::proofs::AgentLemmas::text_in_turn))]
    pub fn aws_ua_header(&self) -> Mem<String>
        ensures { IfOk result (λ text. string_bytes text ≡ agent_text self.now) }
    {
        let mut text = self.system_text()?;
        push_text(&mut text, " exec-env/", &self.execution_environment)?;
        push_metrics(&mut text, self.metrics.as_slice())?;
        push_frameworks(&mut text, self.frameworks.as_slice())?;
        push_additional(&mut text, self.additional.as_slice())?;
        push_app_name(&mut text, &self.app_name)?;
        push_build(&mut text, &self.build)?;
        Ok(text)
    }

    /// The text of the header `user-agent`, which is that of [`aws_ua_header`](Self::aws_ua_header).
    pub fn ua_header(&self) -> Mem<String>
        ensures { IfOk result (λ text. string_bytes text ≡ agent_text self.now) }
    {
        self.aws_ua_header()
    }

    // The parts that each agent has, with spaces between.
    fn system_text(&self) -> Mem<String>
        ensures { IfOk result (λ text. string_bytes text ≡ system_text self.now) }
    {
        let alloc = *self.metrics.allocator();
        let (core, agent) = (&self.core_version, &self.agent_version);
        let (api, family) = (&self.api, self.os_family);
        let mut text = format!(in alloc; "aws-sdk-rust/{core} ua/{agent} {api} os/{family}")?;
        push_text(&mut text, "/", &self.os_version)?;
        text.push_str(" lang/rust/")?;
        text.push_str(self.language_version.as_str())?;
        Ok(text)
    }
}

// Appends a text after another one, where there is one.
fn push_text(text: &mut String, before: &str, value: &Option<String>) -> Mem<()>
    ensures { OnOk result (string_bytes text.new ≡ string_bytes text.old ++ with_value before.now (option_map string_bytes value.now)) }
{
    if let Some(value) = value {
        text.push_str(before)?;
        text.push_str(value.as_str())?;
    }
    Ok(())
}

// Appends the part of the metrics, where there are any.
fn push_metrics(text: &mut String, metrics: &[BusinessMetric]) -> Mem<()>
    ensures { OnOk result (string_bytes text.new ≡ string_bytes text.old ++ spaced (option_to_list (metric_part metrics.now))) }
{
    if metrics.is_empty() {
        return Ok(());
    }
    let ids = fitting_ids(*text.allocator(), metrics, MOST_ID_BYTES)?;
    text.push_str(" m/")?;
    text.push_str(ids.as_str())
}

// Appends the part of each framework.
fn push_frameworks(text: &mut String, frameworks: &[FrameworkMetadata]) -> Mem<()>
    ensures { OnOk result (string_bytes text.new ≡ string_bytes text.old ++ spaced (map framework_text frameworks.now)) }
{
    for framework in frameworks {
        write!(text, " {framework}")?;
    }
    Ok(())
}

// Appends the part of each additional value.
fn push_additional(text: &mut String, additional: &[AdditionalMetadata]) -> Mem<()>
    ensures { OnOk result (string_bytes text.new ≡ string_bytes text.old ++ spaced (map additional_text additional.now)) }
{
    for metadata in additional {
        write!(text, " {metadata}")?;
    }
    Ok(())
}

// Appends the name of the application, where there is one.
fn push_app_name(text: &mut String, app_name: &Option<AppName>) -> Mem<()>
    ensures { OnOk result (string_bytes text.new ≡ string_bytes text.old ++ with_value (codes " app/") app_name.now) }
{
    if let Some(app_name) = app_name {
        text.push_str(" app/")?;
        text.push_str(app_name.as_str())?;
    }
    Ok(())
}

// Appends what is said of the build, if there is more.
fn push_build(text: &mut String, build: &Option<AdditionalMetadata>) -> Mem<()>
    ensures { OnOk result (string_bytes text.new ≡ string_bytes text.old ++ with_value (codes " md/") build.now) }
{
    if let Some(build) = build {
        write!(text, " {build}")?;
    }
    Ok(())
}
