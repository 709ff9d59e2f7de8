//! An operation with its attempts, over a transport of one's own.
ghost use Rattle.std.specs.Prelude.{◌≤◌, IfOk};
ghost use Rattle.operation_run.specs.Again.{most_attempts};

use aws_auth::{SigV4OperationSigningConfig, SigningInputs, SigningOptions};
use aws_intercept::{
    ApiMetadata, BuildMetadata, ConfigBag, InvocationIdGenerator, OsFamily, UserAgentInterceptor,
};
use operation_run::{Outcome, Reply, SendFault, Transport, operate};
use smithy_core::{
    Clock, Env, ErrorMetadata, Headers, HttpRequest, HttpResponse, Identity, Mem, Region,
    RetryConfig, SigningName,
};
use std::alloc::Global;

/// Asks for the users, three times at most, without waiting between the attempts.
pub fn list_users<T: Transport, C: Clock, G: InvocationIdGenerator>(
    alloc: Global,
    identity: &Identity,
    env: &Env,
    ids: &mut G,
    clock: &mut C,
    transport: &mut T,
) -> anyhow::Result<Outcome> {
    let target = "https://iam.amazonaws.com/?Action=ListUsers&Version=2010-05-08";
    let request = HttpRequest::new(alloc, "GET", target)?;
    let config = config_of(alloc)?;
    let inputs = SigningInputs {
        config: Some(&config),
        endpoint: None,
        name: None,
        region: None,
        payload: None,
        skew_millis: None,
    };
    let mut bag = bag_of(alloc, env)?;
    let mut moments = Vec::new(alloc);
    let outcome = operate(
        alloc,
        &request,
        identity,
        &inputs,
        env,
        &mut bag,
        ids,
        clock,
        transport,
        &mut moments,
    )?;
    Ok(outcome)
}

fn config_of(alloc: Global) -> Mem<SigV4OperationSigningConfig> {
    Ok(SigV4OperationSigningConfig {
        region: Some(Region::new(String::from_str(alloc, "us-east-1")?)),
        name: Some(SigningName::new(String::from_str(alloc, "iam")?)),
        signing_options: SigningOptions::default(),
    })
}

// The bag with the user agent, and with how many attempts are made at most, which is 1 at least.
fn bag_of(alloc: Global, env: &Env) -> anyhow::Result<ConfigBag>
    ensures { IfOk result (λ bag. 1 ≤ most_attempts bag) }
{
    let mut bag = ConfigBag::new(alloc);
    bag.api_metadata = Some(api_of(alloc)?);
    UserAgentInterceptor::new().read_after_serialization(env, &build_of(alloc)?, &mut bag)?;
    bag.retry = Some(RetryConfig::standard());
    Ok(bag)
}

/// Which service is called, for the user agent.
pub fn api_of(alloc: Global) -> Mem<ApiMetadata> {
    let service_id = String::from_str(alloc, "iam")?;
    Ok(ApiMetadata::new(service_id, String::from_str(alloc, "1.0")?))
}

/// What was built, for the user agent.
pub fn build_of(alloc: Global) -> Mem<BuildMetadata> {
    Ok(BuildMetadata {
        core_version: String::from_str(alloc, "0.1.0")?,
        rust_version: String::from_str(alloc, "1.95.0")?,
        os_family: OsFamily::Linux,
        extra: None,
    })
}

/// A transport in memory, in place of a connection: it throttles the first request, answers 200 to the others, and keeps the
/// number of each attempt.
#[derive(Drop)]
pub struct BusyAtFirst {
    pub alloc: Global,
    pub attempts: Vec<String>,
}

impl Transport for BusyAtFirst {
    ghost use Rattle.std.specs.Prelude.{None};

    ghost sent = { λ _. None };

    ghost replied = { λ _. None };

    ghost faults = { λ _. 0 };

    fn send(&mut self, request: &HttpRequest) -> Result<Reply, SendFault> {
        let attempt = request.headers.get("amz-sdk-request").unwrap_or("");
        let is_first = self.attempts.is_empty();
        keep(&mut self.attempts, String::from_str(self.alloc, attempt)?)?;
        Ok(reply_of(self.alloc, is_first)?)
    }
}

fn keep(attempts: &mut Vec<String>, attempt: String) -> Mem<()> {
    attempts.push(attempt)?;
    Ok(())
}

fn reply_of(alloc: Global, is_busy: bool) -> Mem<Reply> {
    let (status, error) = if is_busy {
        (400, Some(throttling(alloc)?))
    } else {
        (200, None)
    };
    let headers = Headers::new(alloc);
    let response = HttpResponse {
        status,
        headers,
        skew: None,
    };
    Ok(Reply { response, error })
}

fn throttling(alloc: Global) -> Mem<ErrorMetadata> {
    Ok(ErrorMetadata {
        code: Some(String::from_str(alloc, "Throttling")?),
        message: None,
    })
}
