//! What an operation is given.
use crate::bags::{self, moment_of};
use crate::ids::push_id;
use crate::operations::replies::reply_of;
use crate::texts::{text, word};
use aws_auth::{HttpSignatureType, SigV4OperationSigningConfig, SigningOptions};
use aws_intercept::{AwsUserAgent, ConfigBag, InvocationId};
use bytes::Bytes;
use operation_run::Reply;
use smithy_core::{
    Credentials, Env, HttpRequest, Identity, ListClock, Mem, Moment, Region, SigningName,
};
use std::alloc::Global;
use tool_case_lines::{bytes_of_hex, halves};

/// What an operation is given beside its bag.
pub struct Given {
    pub request: HttpRequest,
    pub identity: Identity,
    pub config: SigV4OperationSigningConfig,
    pub env: Env,
    /// The ids that the generator gives in order.
    pub ids: Vec<InvocationId>,
    /// The moments that the clock gives in order.
    pub moments: Vec<Moment>,
    /// What the transport replies in order.
    pub replies: Vec<Reply>,
    /// The moments that were taken.
    pub taken: Vec<Moment>,
}

// Written out: a derived drop would be taken apart in the proof of each function that drops one.
impl Drop for Given {
    fn drop(self) {
        let Given {
            request,
            identity,
            config,
            env,
            ids,
            moments,
            replies,
            taken,
        } = self;
        drop(request);
        drop(identity);
        drop(config);
        drop(env);
        drop(ids);
        drop(moments);
        drop(replies);
        drop(taken);
    }
}

/// What the words give, and the bag with its entries: the keys of the AWS signing test suite, the service `service` in
/// `us-east-1`, and the agent for tests.
pub fn given_of(alloc: Global, bag: &mut ConfigBag, method: &str, words: &[&str]) -> Mem<Given> {
    bag.user_agent = Some(AwsUserAgent::for_tests(alloc)?);
    let mut given = plain(alloc, method, word(words, 0))?;
    for part in words.iter().skip(1) {
        put(alloc, &mut given, bag, part)?;
    }
    Ok(given)
}

/// The clock that gives these moments, or second 0 where there are none.
pub fn clock_of(mut moments: Vec<Moment>) -> Mem<ListClock> {
    if moments.is_empty() {
        moments.push(Moment::new(0, 0))?;
    }
    Ok(ListClock::new(moments))
}

fn plain(alloc: Global, method: &str, target: &str) -> Mem<Given> {
    let identity = identity_of(alloc, None)?;
    let config = example_config(alloc)?;
    let request = HttpRequest::new(alloc, method, target)?;
    Ok(Given {
        request,
        identity,
        config,
        env: Env::new(alloc),
        ids: Vec::new(alloc),
        moments: Vec::new(alloc),
        replies: Vec::new(alloc),
        taken: Vec::new(alloc),
    })
}

fn identity_of(alloc: Global, token: Option<String>) -> Mem<Identity> {
    let key_id = text(alloc, "AKIDEXAMPLE")?;
    let secret = text(alloc, "wJalrXUtnFEMI/K7MDENG+bPxRfiCYEXAMPLEKEY")?;
    Ok(Identity::Credentials(Credentials::new(key_id, secret, token, None)))
}

fn example_config(alloc: Global) -> Mem<SigV4OperationSigningConfig> {
    let region = Region::from_str(alloc, "us-east-1")?;
    let name = SigningName::from_str(alloc, "service")?;
    Ok(SigV4OperationSigningConfig {
        region: Some(region),
        name: Some(name),
        signing_options: SigningOptions::default(),
    })
}

// Puts `header NAME=VALUE`, `env NAME=VALUE`, `body DIGITS`, `id TEXT`, `at SECONDS NANOSECONDS`, a reply, or else what signs.
fn put(alloc: Global, given: &mut Given, bag: &mut ConfigBag, part: &str) -> Mem<()> {
    let (kind, value) = halves(part);
    let (name, rest) = value.split_once('=').unwrap_or((value, ""));
    match kind {
        "header" => given.request.headers.append(name, rest)?,
        "env" => given.env.set(name, rest)?,
        "body" => given.request.body = Bytes::from_vec(bytes_of_hex(alloc, value)?)?,
        "id" => push_id(alloc, &mut given.ids, value)?,
        "at" => given.moments.push(moment_of(value))?,
        "reply" => given.replies.push(reply_of(alloc, value)?)?,
        "no-agent" => bag.user_agent = None,
        "token" | "bearer" | "query" => put_signing(alloc, given, kind, value)?,
        _ => bags::put(alloc, bag, part)?,
    }
    Ok(())
}

// Puts `token TEXT` of the keys, `bearer TEXT` in place of them, or the query form with an expiry after `query SECONDS`.
fn put_signing(alloc: Global, given: &mut Given, kind: &str, value: &str) -> Mem<()> {
    match kind {
        "token" => given.identity = identity_of(alloc, Some(text(alloc, value)?))?,
        "bearer" => given.identity = Identity::Token(text(alloc, value)?),
        _ => {
            let options = &mut given.config.signing_options;
            options.signature_type = HttpSignatureType::HttpRequestQueryParams;
            options.expires_in = value.parse().ok();
        }
    }
    Ok(())
}
