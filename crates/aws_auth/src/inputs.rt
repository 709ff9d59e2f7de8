ghost use Rattle.std.specs.Prelude.{◌≡◌, IfOk, option_copied};
ghost use Rattle.sigv4.specs.Body.{payload_text};
ghost use Rattle.aws_auth.specs.Inputs.{chosen_by, chosen_name, chosen_payload, chosen_region, chosen_text};
ghost use Rattle.aws_auth.specs.Steps.{Chooses, choice_of, found};

use crate::endpoint::EndpointFields;
use crate::error::SigV4SigningError;
use crate::moment::signing_moment;
use crate::options::SigV4OperationSigningConfig;
use crate::payload::PayloadSigningOverride;
use crate::settings::made_settings;
use sigv4::{SignableBody, SigningSettings};
use smithy_core::{Document, Identity, Mem, Moment, Region, SigningName};
use std::alloc::Global;

/// What a request is signed by, beside who signs and when.
#[derive(Clone, Copy, Debug)]
pub struct SigningInputs<'a> {
    /// The operation's config, without which nothing is signed.
    pub config: Option<&'a SigV4OperationSigningConfig>,
    /// The endpoint's properties, whose fields come before the inputs and the config.
    pub endpoint: Option<&'a Document>,
    /// The name of the service, which comes before the config's.
    pub name: Option<&'a SigningName>,
    /// The region, which comes before the config's.
    pub region: Option<&'a Region>,
    /// What is signed in place of the body's bytes, which comes before the config's.
    pub payload: Option<&'a PayloadSigningOverride>,
    /// By how many milliseconds the service's clock is ahead.
    pub skew_millis: Option<i64>,
}

/// The inputs that have a config and nothing else.
///
/// ```rust
/// let inputs = SigningInputs { region: Some(&region), ..SigningInputs::from(&config) };
/// ```
impl<'a> From<&'a SigV4OperationSigningConfig> for SigningInputs<'a> {
    ghost use Rattle.aws_auth.specs.Inputs.{HasOnlyConfig};

    ghost from_gives = { λ config inputs. HasOnlyConfig config.now inputs };

    fn from(config: &'a SigV4OperationSigningConfig) -> SigningInputs<'a> {
        SigningInputs {
            config: Some(config),
            endpoint: None,
            name: None,
            region: None,
            payload: None,
            skew_millis: None,
        }
    }
}

/// What a request is signed with, as the endpoint, the inputs and the config say.
#[derive(Drop)]
pub(crate) struct Choice<'a> {
    pub(crate) region: Option<&'a str>,
    pub(crate) name: Option<&'a str>,
    /// What is signed in place of the body.
    pub(crate) payload: Option<&'a PayloadSigningOverride>,
    /// The settings, with the token's usual name.
    pub(crate) settings: SigningSettings,
    /// The moment of the signature.
    pub(crate) at: Moment,
}

/// The config, and what is chosen by it, the inputs and the endpoint's fields, where the identity is credentials.
#[tactic(auto, unfolding(crate::specs::Inputs::chosen))]
pub(crate) fn choose<'a>(
    alloc: Global,
    identity: &Identity,
    inputs: &SigningInputs<'a>,
    now: Moment,
) -> Result<(&'a SigV4OperationSigningConfig, Choice<'a>), SigV4SigningError>
    ensures { Chooses identity.now inputs.now now result }
{
    if let Identity::Token(_) = identity {
        return Err(SigV4SigningError::WrongIdentityType);
    }
    let config = match inputs.config {
        Some(config) => config,
        None => return Err(SigV4SigningError::MissingOperationSigningConfig),
    };
    let fields = EndpointFields::of(inputs.endpoint)?;
    Ok((config, choice_by(alloc, &fields, inputs, config, now)?))
}

// What is chosen by the fields of an endpoint, the inputs and a config.
fn choice_by<'a>(
    alloc: Global,
    fields: &EndpointFields<'a>,
    inputs: &SigningInputs<'a>,
    config: &'a SigV4OperationSigningConfig,
    now: Moment,
) -> Mem<Choice<'a>>
    ensures { IfOk result (λ choice. choice_of choice ≡ chosen_by (found fields.now) inputs.now config.entry.now now) }
{
    let options = &config.signing_options;
    Ok(Choice {
        region: chosen_region(fields, inputs, config),
        name: chosen_name(fields, inputs, config),
        payload: chosen_payload(inputs, config),
        settings: made_settings(alloc, fields, options)?,
        at: signing_moment(now, options.signature_type, inputs.skew_millis),
    })
}

// The region: the endpoint's, or else that of the inputs, or else the config's.
fn chosen_region<'a>(
    fields: &EndpointFields<'a>,
    inputs: &SigningInputs<'a>,
    config: &'a SigV4OperationSigningConfig,
) -> Option<&'a str>
    ensures { option_copied result ≡ chosen_region (found fields.now) inputs.now config.entry.now }
{
    match (fields.region, inputs.region, &config.region) {
        (Some(region), _, _) => Some(region),
        (None, Some(region), _) => Some(region.as_str()),
        (None, None, Some(region)) => Some(region.as_str()),
        (None, None, None) => None,
    }
}

// The name of the service: the endpoint's, or else that of the inputs, or else the config's.
fn chosen_name<'a>(
    fields: &EndpointFields<'a>,
    inputs: &SigningInputs<'a>,
    config: &'a SigV4OperationSigningConfig,
) -> Option<&'a str>
    ensures { option_copied result ≡ chosen_name (found fields.now) inputs.now config.entry.now }
{
    match (fields.name, inputs.name, &config.name) {
        (Some(name), _, _) => Some(name),
        (None, Some(name), _) => Some(name.as_str()),
        (None, None, Some(name)) => Some(name.as_str()),
        (None, None, None) => None,
    }
}

// What is signed in place of the body: that of the inputs, or else the config's.
fn chosen_payload<'a>(
    inputs: &SigningInputs<'a>,
    config: &'a SigV4OperationSigningConfig,
) -> Option<&'a PayloadSigningOverride>
    ensures { option_copied result ≡ chosen_payload inputs.now config.entry.now }
{
    match inputs.payload {
        Some(payload) => Some(payload),
        None => config.signing_options.payload_override.as_ref(),
    }
}

/// What is signed of a body, or in its place.
pub(crate) fn signable_body<'a>(
    payload: Option<&PayloadSigningOverride>,
    body: &'a [u8],
) -> Mem<SignableBody<'a>>
    ensures { IfOk result (λ signable. payload_text signable ≡ chosen_text (option_copied payload.entry) body.now) }
{
    match payload {
        Some(payload) => Ok(payload.try_clone()?.to_signable_body()),
        None => Ok(SignableBody::Bytes(body)),
    }
}
