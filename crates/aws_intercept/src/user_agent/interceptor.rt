ghost use Rattle.std.specs.Prelude.{◌≡◌, [], ◌∷◌, ◌++◌, IfOk, codes, option_map, string_bytes};
ghost use Rattle.aws_intercept.specs.Interceptor.{AddsConnector, MakesAgent, MakesNewAgent, SendsAgent, SendsText};
ghost use Rattle.aws_intercept.specs.declared.user_agent.interceptor.UserAgentFault.TheVariants.{InvalidMetadataValue as InvalidValue, NoMemory};

use crate::bag::ConfigBag;
use crate::user_agent::agent::AwsUserAgent;
use crate::user_agent::build::BuildMetadata;
use crate::user_agent::feature_metrics::feature_metrics;
use crate::user_agent::frameworks::oldest_frameworks;
use crate::user_agent::metadata::{AdditionalMetadata, InvalidMetadataValue};
use smithy_core::{Env, Headers, HttpRequest, Mem, is_header_value};
use std::alloc::AllocError;
use std::fmt;

/// Why no user agent is made or sent.
#[derive(Clone, Copy, Debug, PartialEq, Eq)]
pub enum UserAgentFault {
    /// The bag has no agent, and no API metadata to make one.
    MissingApiMetadata,
    /// The bag has no agent to send.
    MissingUserAgent,
    /// The connector holds a character that metadata can't have.
    InvalidMetadataValue,
    /// The agent's text is outside the grammar of header values.
    InvalidHeaderValue,
    /// Memory ran out.
    NoMemory,
}

impl fmt::Display for UserAgentFault {
    ghost use Rattle.std.specs.Prelude.{Some};
    ghost use Rattle.aws_intercept.specs.Interceptor.{user_agent_fault_text};

    ghost output = { λ fault. Some (user_agent_fault_text fault) };

    fn fmt<W: fmt::Write>(&self, f: &mut fmt::Formatter<W>) -> fmt::Result {
        f.write_str(match self {
            UserAgentFault::MissingApiMetadata => "the API metadata is missing",
            UserAgentFault::MissingUserAgent => "the user agent is missing",
            UserAgentFault::InvalidMetadataValue => "the connector is no metadata value",
            UserAgentFault::InvalidHeaderValue => "the user agent is no header value",
            UserAgentFault::NoMemory => "no memory",
        })
    }
}

impl std::error::Error for UserAgentFault {}

impl From<AllocError> for UserAgentFault {
    ghost from_gives = { λ _ fault. fault ≡ NoMemory };

    fn from(_e: AllocError) -> UserAgentFault {
        UserAgentFault::NoMemory
    }
}

impl From<InvalidMetadataValue> for UserAgentFault {
    ghost from_gives = { λ _ fault. fault ≡ InvalidValue };

    fn from(_e: InvalidMetadataValue) -> UserAgentFault {
        UserAgentFault::InvalidMetadataValue
    }
}

/// Makes the user agent of a client, and sends it with each request.
#[derive(Clone, Copy, Debug)]
pub struct UserAgentInterceptor;

impl UserAgentInterceptor {
    /// The interceptor.
    pub fn new() -> UserAgentInterceptor {
        UserAgentInterceptor
    }

    /// Puts an agent into a bag that has none: for the service of its API metadata, with its application's name and at
    /// most 10 different frameworks, the oldest first.
    ///
    /// # Errors
    ///
    /// [`UserAgentFault::MissingApiMetadata`] where the bag has neither an agent nor API metadata, and
    /// [`UserAgentFault::NoMemory`]. Nothing changes then.
    pub fn read_after_serialization(
        &mut self,
        env: &Env,
        build: &BuildMetadata,
        bag: &mut ConfigBag,
    ) -> Result<(), UserAgentFault>
        ensures { MakesAgent env.now build.now bag.old bag.new result }
    {
        if bag.user_agent.is_some() {
            return Ok(());
        }
        let agent = make_agent(env, build, bag)?;
        bag.user_agent = Some(agent);
        Ok(())
    }

    /// Appends the text of the bag's agent as `user-agent` and as `x-amz-user-agent`, with the metrics of the bag's
    /// features, each once, and the connector as additional metadata. The bag keeps its agent as it is.
    ///
    /// Call it on the attempt's copy of the operation's request, before it is signed: on a request of an earlier attempt the
    /// agent would stand twice.
    ///
    /// # Errors
    ///
    /// The first of these, and nothing changes: [`UserAgentFault::MissingUserAgent`] where the bag has no agent,
    /// [`UserAgentFault::InvalidMetadataValue`] where its connector isn't metadata,
    /// [`UserAgentFault::InvalidHeaderValue`] where the text isn't a header's value.
    pub fn modify_before_signing(
        &mut self,
        request: &mut HttpRequest,
        bag: &mut ConfigBag,
    ) -> Result<(), UserAgentFault>
        ensures headers { SendsAgent bag.old request.old.headers request.new.headers result }
        ensures method { request.new.method ≡ request.old.method }
        ensures target { request.new.target ≡ request.old.target }
        ensures body { request.new.body ≡ request.old.body }
        ensures bag { bag.new ≡ bag.old }
    {
        let Some(agent) = &bag.user_agent else {
            return Err(UserAgentFault::MissingUserAgent);
        };
        let text = sent_text(bag, agent)?;
        request.headers = with_agent(&request.headers, text.as_str())?;
        Ok(())
    }
}

// The agent of a bag that has none.
fn make_agent(
    env: &Env,
    build: &BuildMetadata,
    bag: &ConfigBag,
) -> Result<AwsUserAgent, UserAgentFault>
    ensures { MakesNewAgent env.now build.now bag.now result }
{
    let Some(api) = &bag.api_metadata else {
        return Err(UserAgentFault::MissingApiMetadata);
    };
    let alloc = *bag.frameworks.allocator();
    let mut agent = AwsUserAgent::new_from_environment(
        alloc,
        env,
        api.try_clone()?,
        build.try_clone()?,
    )?;
    agent.set_frameworks(oldest_frameworks(alloc, bag.frameworks.as_slice())?);
    if let Some(app_name) = &bag.app_name {
        agent.set_app_name(app_name.try_clone()?);
    }
    Ok(agent)
}

// The text of the agent with what else the bag has.
fn sent_text(bag: &ConfigBag, agent: &AwsUserAgent) -> Result<String, UserAgentFault>
    ensures { SendsText bag.now agent.now result }
{
    let mut agent = agent.try_clone()?;
    agent.append_metrics(feature_metrics(bag)?.as_slice())?;
    let text = with_connector(agent, &bag.connector)?.aws_ua_header()?;
    if !is_header_value(text.as_str()) {
        return Err(UserAgentFault::InvalidHeaderValue);
    }
    Ok(text)
}

// The agent with the connector as additional metadata, where there is one.
fn with_connector(
    agent: AwsUserAgent,
    connector: &Option<String>,
) -> Result<AwsUserAgent, UserAgentFault>
    ensures { AddsConnector (option_map string_bytes connector.now) agent result }
{
    let Some(connector) = connector else {
        return Ok(agent);
    };
    let metadata = AdditionalMetadata::new(connector.clone()?)?;
    Ok(agent.with_additional_metadata(metadata)?)
}

// The headers with the text of the agent under both names.
fn with_agent(headers: &Headers, text: &str) -> Mem<Headers>
    ensures { IfOk result (λ more. more ≡ (headers.now ++ (codes "user-agent", text.now) ∷ []) ++ (codes "x-amz-user-agent", text.now) ∷ []) }
{
    let mut headers = headers.try_clone()?;
    headers.append("user-agent", text)?;
    headers.append("x-amz-user-agent", text)?;
    Ok(headers)
}
