use crate::digest::Digest;
use crate::signing::{TARGET, example_config, example_identity, moment_of};
use aws_auth::{SigV4OperationSigningConfig, SigningInputs};
use operation_run::{Reply, ScriptedTransport, operate_over};
use smithy_core::{Env, Headers, HttpRequest, HttpResponse, Identity, Moment};
use std::alloc::{AllocError, Global};

/// Runs an operation so many times over a transport in memory, each with one good reply and a second after the last one.
pub fn operations(alloc: Global, count: u32) -> anyhow::Result<Digest> {
    let identity = example_identity(alloc)?;
    let config = example_config(alloc)?;
    let request = HttpRequest::new(alloc, "GET", TARGET)?;
    let env = Env::new(alloc);
    let mut digest = Digest::new();
    for number in 0..count {
        let sent = sent_at(alloc, &request, &identity, &config, &env, moment_of(number))?;
        digest = digest.with(sent.as_bytes());
    }
    Ok(digest)
}

// The signature's header of the request that an operation sends at a moment.
fn sent_at(
    alloc: Global,
    request: &HttpRequest,
    identity: &Identity,
    config: &SigV4OperationSigningConfig,
    env: &Env,
    at: Moment,
) -> anyhow::Result<String> {
    let inputs = SigningInputs {
        config: Some(config),
        endpoint: None,
        name: None,
        region: None,
        payload: None,
        skew_millis: None,
    };
    let mut script = ScriptedTransport::new(vec![in alloc; good_reply(alloc)]?);
    operate_over(alloc, request, identity, &inputs, env, at, &mut script)?;
    Ok(authorization_of(alloc, script.sent())?)
}

fn authorization_of(alloc: Global, sent: &[HttpRequest]) -> Result<String, AllocError> {
    let text = match sent {
        [request, ..] => request.headers.get("authorization").unwrap_or(""),
        [] => "",
    };
    String::from_str(alloc, text)
}

fn good_reply(alloc: Global) -> Reply {
    Reply {
        response: HttpResponse {
            status: 200,
            headers: Headers::new(alloc),
            skew: None,
        },
        error: None,
    }
}
