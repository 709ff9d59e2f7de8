ghost use Rattle.std.specs.Prelude.{◌≡◌, [], ◌∷◌, ◌++◌, IfOk, OnErr, OnOk, Some, option_map, string_bytes};
ghost use Rattle.smithy_core.specs.TextPairs.{last_value};
ghost use Rattle.aws_intercept.specs.Agent.{agent_for_tests, agent_from};

mod text;

use crate::copied::copied_name;
use crate::user_agent::additional::copied_additional;
use crate::user_agent::build::{BuildMetadata, OsFamily};
use crate::user_agent::config::ConfigMetadata;
use crate::user_agent::feature::FeatureMetadata;
use crate::user_agent::framework::FrameworkMetadata;
use crate::user_agent::frameworks::copied_frameworks;
use crate::user_agent::metadata::{AdditionalMetadata, ApiMetadata};
use crate::user_agent::metric::BusinessMetric;
use smithy_core::{AppName, Env, Mem, copied_text};
use std::alloc::Global;
use std::marker::Model;

/// What a client says of itself in the headers `user-agent` and `x-amz-user-agent`.
///
/// Contracts see its parts.
#[derive(Debug)]
pub struct AwsUserAgent {
    core_version: String,
    agent_version: String,
    api: ApiMetadata,
    os_family: OsFamily,
    os_version: Option<String>,
    language_version: String,
    execution_environment: Option<String>,
    metrics: Vec<BusinessMetric>,
    frameworks: Vec<FrameworkMetadata>,
    additional: Vec<AdditionalMetadata>,
    app_name: Option<AppName>,
    build: Option<AdditionalMetadata>,
}

// Written out: a derived drop would be taken apart in the proof of each function that drops one.
impl Drop for AwsUserAgent {
    fn drop(self) {
        let AwsUserAgent {
            core_version,
            agent_version,
            api,
            os_family: _,
            os_version,
            language_version,
            execution_environment,
            metrics,
            frameworks,
            additional,
            app_name,
            build,
        } = self;
        drop(core_version);
        drop(agent_version);
        drop(api);
        drop(os_version);
        drop(language_version);
        drop(execution_environment);
        drop(metrics);
        drop(frameworks);
        drop(additional);
        drop(app_name);
        drop(build);
    }
}

impl Model for AwsUserAgent {
    ghost use Rattle.std.specs.Prelude.{option_map, string_bytes};
    ghost use Rattle.aws_intercept.specs.Agent.{Agent};

    ghost Value = { Agent };

    ghost view = { λ agent. record {
      core_version = string_bytes agent.core_version;
      agent_version = string_bytes agent.agent_version;
      api = agent.api;
      os_family = agent.os_family;
      os_version = option_map string_bytes agent.os_version;
      language_version = string_bytes agent.language_version;
      execution_environment = option_map string_bytes agent.execution_environment;
      metrics = agent.metrics.items;
      frameworks = agent.frameworks.items;
      additional_metadata = agent.additional.items;
      app_name = agent.app_name;
      build = agent.build;
    } };
}

impl AwsUserAgent {
    /// The agent of a program that was built so, for this service, in this environment: its execution environment is the
    /// variable `AWS_EXECUTION_ENV`, where that is set.
    pub fn new_from_environment(
        alloc: Global,
        env: &Env,
        api: ApiMetadata,
        build: BuildMetadata,
    ) -> Mem<AwsUserAgent>
        ensures { IfOk result (λ agent. agent ≡ agent_from env.now api build) }
    {
        let execution_environment = variable(alloc, env, "AWS_EXECUTION_ENV")?;
        let agent_version = String::from_str(alloc, "2.1")?;
        let BuildMetadata {
            core_version,
            rust_version,
            os_family,
            extra,
        } = build;
        Ok(AwsUserAgent {
            core_version,
            agent_version,
            api,
            os_family,
            os_version: None,
            language_version: rust_version,
            execution_environment,
            metrics: Vec::new(alloc),
            frameworks: Vec::new(alloc),
            additional: Vec::new(alloc),
            app_name: None,
            build: extra,
        })
    }

    /// The agent that tests of a client compare with.
    pub fn for_tests(alloc: Global) -> Mem<AwsUserAgent>
        ensures { IfOk result (λ agent. agent ≡ agent_for_tests) }
    {
        let service_id = String::from_str(alloc, "test-service")?;
        let version = String::from_str(alloc, "0.123")?;
        Ok(AwsUserAgent {
            core_version: String::from_str(alloc, "0.123.test")?,
            agent_version: String::from_str(alloc, "0.1")?,
            api: ApiMetadata::new(service_id, version),
            os_family: OsFamily::Windows,
            os_version: Some(String::from_str(alloc, "XPSP3")?),
            language_version: String::from_str(alloc, "1.50.0")?,
            execution_environment: None,
            metrics: Vec::new(alloc),
            frameworks: Vec::new(alloc),
            additional: Vec::new(alloc),
            app_name: None,
            build: None,
        })
    }

    /// An equal agent.
    pub fn try_clone(&self) -> Mem<AwsUserAgent>
        ensures { IfOk result (λ copy. copy ≡ self.now) }
    {
        let alloc = *self.metrics.allocator();
        Ok(AwsUserAgent {
            core_version: self.core_version.clone()?,
            agent_version: self.agent_version.clone()?,
            api: self.api.try_clone()?,
            os_family: self.os_family,
            os_version: copied_text(&self.os_version)?,
            language_version: self.language_version.clone()?,
            execution_environment: copied_text(&self.execution_environment)?,
            metrics: Vec::from_slice(alloc, self.metrics.as_slice())?,
            frameworks: copied_frameworks(alloc, self.frameworks.as_slice())?,
            additional: copied_additional(alloc, self.additional.as_slice())?,
            app_name: copied_name(&self.app_name)?,
            build: copied_build(&self.build)?,
        })
    }

    /// The agent with this metric, after the others.
    pub fn with_business_metric(mut self, metric: BusinessMetric) -> Mem<AwsUserAgent>
        ensures { IfOk result (λ agent. agent ≡ record self { metrics = self.metrics ++ metric ∷ [] }) }
    {
        self.push_metric(metric)?;
        Ok(self)
    }

    /// The agent with this framework, after the others.
    pub fn with_framework_metadata(mut self, metadata: FrameworkMetadata) -> Mem<AwsUserAgent>
        ensures { IfOk result (λ agent. agent ≡ record self { frameworks = self.frameworks ++ metadata ∷ [] }) }
    {
        self.push_framework(metadata)?;
        Ok(self)
    }

    /// The agent with this additional value, after the others.
    pub fn with_additional_metadata(mut self, metadata: AdditionalMetadata) -> Mem<AwsUserAgent>
        ensures { IfOk result (λ agent. agent ≡ record self { additional_metadata = self.additional_metadata ++ metadata ∷ [] }) }
    {
        self.push_additional(metadata)?;
        Ok(self)
    }

    /// The agent as it is: metadata of a feature isn't kept.
    pub fn with_feature_metadata(self, _metadata: FeatureMetadata) -> AwsUserAgent
        ensures { result ≡ self }
    {
        self
    }

    /// The agent as it is: metadata of the configuration isn't kept.
    pub fn with_config_metadata(self, _metadata: ConfigMetadata) -> AwsUserAgent
        ensures { result ≡ self }
    {
        self
    }

    /// The agent with this name of the application.
    pub fn with_app_name(mut self, app_name: AppName) -> AwsUserAgent
        ensures { result ≡ record self { app_name = Some app_name } }
    {
        self.app_name = Some(app_name);
        self
    }

    /// Gives the agent these frameworks in place of its own.
    pub(crate) fn set_frameworks(&mut self, frameworks: Vec<FrameworkMetadata>)
        ensures { self.new ≡ record self.old { frameworks = frameworks.items } }
    {
        self.frameworks = frameworks;
    }

    /// Appends the metrics.
    pub(crate) fn append_metrics(&mut self, metrics: &[BusinessMetric]) -> Mem<()>
        ensures { OnOk result (self.new ≡ record self.old { metrics = self.old.metrics ++ metrics.now }) }
    {
        self.metrics.extend_from_slice(metrics)
    }

    /// Appends the metric. Where memory ran out, the agent is as it was.
    pub fn add_business_metric(&mut self, metric: BusinessMetric) -> Mem<&mut AwsUserAgent>
        ensures same_agent { IfOk result (λ agent. agent.ghost_name ≡ self.entry.ghost_name) }
        ensures added { IfOk result (λ agent. agent.now ≡ record self.old { metrics = self.old.metrics ++ metric ∷ [] }) }
    {
        self.push_metric(metric)?;
        Ok(self)
    }

    /// Appends the framework. Where memory ran out, the agent is as it was.
    pub fn add_framework_metadata(&mut self, metadata: FrameworkMetadata) -> Mem<&mut AwsUserAgent>
        ensures same_agent { IfOk result (λ agent. agent.ghost_name ≡ self.entry.ghost_name) }
        ensures added { IfOk result (λ agent. agent.now ≡ record self.old { frameworks = self.old.frameworks ++ metadata ∷ [] }) }
    {
        self.push_framework(metadata)?;
        Ok(self)
    }

    /// Appends the additional value. Where memory ran out, the agent is as it was.
    pub fn add_additional_metadata(
        &mut self,
        metadata: AdditionalMetadata,
    ) -> Mem<&mut AwsUserAgent>
        ensures same_agent { IfOk result (λ agent. agent.ghost_name ≡ self.entry.ghost_name) }
        ensures added { IfOk result (λ agent. agent.now ≡ record self.old { additional_metadata = self.old.additional_metadata ++ metadata ∷ [] }) }
    {
        self.push_additional(metadata)?;
        Ok(self)
    }

    // Appends the metric, or leaves the agent as it was.
    fn push_metric(&mut self, metric: BusinessMetric) -> Mem<()>
        ensures ok { OnOk result (self.new ≡ record self.old { metrics = self.old.metrics ++ metric ∷ [] }) }
        ensures err { OnErr result (self.new ≡ self.old) }
    {
        self.metrics.push(metric)?;
        Ok(())
    }

    // Appends the framework, or leaves the agent as it was.
    fn push_framework(&mut self, metadata: FrameworkMetadata) -> Mem<()>
        ensures ok { OnOk result (self.new ≡ record self.old { frameworks = self.old.frameworks ++ metadata ∷ [] }) }
        ensures err { OnErr result (self.new ≡ self.old) }
    {
        self.frameworks.push(metadata)?;
        Ok(())
    }

    // Appends the additional value, or leaves the agent as it was.
    fn push_additional(&mut self, metadata: AdditionalMetadata) -> Mem<()>
        ensures ok { OnOk result (self.new ≡ record self.old { additional_metadata = self.old.additional_metadata ++ metadata ∷ [] }) }
        ensures err { OnErr result (self.new ≡ self.old) }
    {
        self.additional.push(metadata)?;
        Ok(())
    }

    /// Changes nothing: metadata of a feature isn't kept.
    pub fn add_feature_metadata(&mut self, _metadata: FeatureMetadata) -> &mut AwsUserAgent
        ensures same_agent { result.ghost_name ≡ self.entry.ghost_name }
        ensures same { result.now ≡ self.old }
    {
        self
    }

    /// Changes nothing: metadata of the configuration isn't kept.
    pub fn add_config_metadata(&mut self, _metadata: ConfigMetadata) -> &mut AwsUserAgent
        ensures same_agent { result.ghost_name ≡ self.entry.ghost_name }
        ensures same { result.now ≡ self.old }
    {
        self
    }

    /// Gives the application this name.
    pub fn set_app_name(&mut self, app_name: AppName) -> &mut AwsUserAgent
        ensures same_agent { result.ghost_name ≡ self.entry.ghost_name }
        ensures given { result.now ≡ record self.old { app_name = Some app_name } }
    {
        self.app_name = Some(app_name);
        self
    }
}

// The value of a variable, where it is set.
fn variable(alloc: Global, env: &Env, key: &str) -> Mem<Option<String>>
    ensures { IfOk result (λ value. option_map string_bytes value ≡ last_value env.now key.now) }
{
    Ok(match env.get(key) {
        Some(value) => Some(String::from_str(alloc, value)?),
        None => None,
    })
}

fn copied_build(build: &Option<AdditionalMetadata>) -> Mem<Option<AdditionalMetadata>>
    ensures { IfOk result (λ copy. copy ≡ build.now) }
{
    Ok(match build {
        Some(build) => Some(build.try_clone()?),
        None => None,
    })
}
