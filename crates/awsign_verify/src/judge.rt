//! Who signed a request.
ghost use Rattle.std.specs.Prelude.{◌≡◌, [], ◌∷◌, IfOk, map};
ghost use Rattle.std.specs.String.{string_bytes};
ghost use Rattle.smithy_core.specs.Given.{Gives};
ghost use Rattle.env_config.specs.Source.{file_of};
ghost use Rattle.request_door.specs.Doors.{AnswersDoor};
ghost use Rattle.awsign_run.specs.Chosen.{asked_profile, signs_for_of};
ghost use Rattle.awsign_run.specs.Run.{TakesAskedMoment, asked_moment};
ghost use Rattle.awsign_verify.specs.Verify.{Judges, JudgesBy, JudgesFor, request_host, verify_input, verify_signer};

use crate::lines::verified_text;
use crate::status::VerifyStatus;
use awsign_run::{Chosen, is_s3, moment_asked, moment_of, signer_for, url_host, usual_settings};
use env_config::Source;
use request_door::{Admitted, DoorFault, KeyList, Limits, admit};
use smithy_core::{Clock, Env, HttpRequest, Mem, Moment};
use std::alloc::Global;

/// Who signed a request with this body, by options, variables and the source's profile, at a moment that an option names or one of the
/// clock.
///
/// # Errors
///
/// [`Status::Refused`](awsign_run::Status) as [`signer_for`](awsign_run::signer_for) has it, and [`VerifyStatus::Wrong`] with the first test of
/// [`admit`](request_door::admit) that the request meets.
pub(crate) fn judge<C: Clock>(
    alloc: Global,
    options: &Env,
    env: &Env,
    source: &Source,
    request: &HttpRequest,
    body: &[u8],
    clock: &mut C,
) -> Result<Vec<u8>, VerifyStatus>
    requires { string_bytes source.now.profile ≡ asked_profile options.now env.now }
    ensures { JudgesBy (TakesAskedMoment (λ taken. Gives C.Clock clock.old taken clock.new) (asked_moment options.now)) options.now env.now
        (map file_of source.now.files.items) request.now body.now result }
{
    let at = moment_of(moment_asked(options), clock);
    judge_at(alloc, options, env, source, request, body, at)
}

// Who signed a request, at a moment.
fn judge_at(
    alloc: Global,
    options: &Env,
    env: &Env,
    source: &Source,
    request: &HttpRequest,
    body: &[u8],
    at: Moment,
) -> Result<Vec<u8>, VerifyStatus>
    requires { string_bytes source.now.profile ≡ asked_profile options.now env.now }
    ensures { JudgesFor options.now (verify_signer options.now env.now (map file_of source.now.files.items) request.now) request.now body.now at result }
{
    let host = request_host(request);
    match signer_for(alloc, options, host, env, source) {
        Ok(signer) => judge_for(alloc, options, &signer, request, body, at),
        Err(fault) => Err(VerifyStatus::from(fault)),
    }
}

// The host of a request.
#[tactic(auto, unfolding(crate::specs::Verify::request_host))]
fn request_host(request: &HttpRequest) -> &str
    ensures { result.now ≡ request_host request.now.headers (string_bytes request.now.target) }
{
    match request.headers.get("host") {
        Some(host) => host,
        None => url_host(request.target.as_str()),
    }
}

// What is printed of a request at the service of a signer.
fn judge_for(
    alloc: Global,
    options: &Env,
    signer: &Chosen,
    request: &HttpRequest,
    body: &[u8],
    at: Moment,
) -> Result<Vec<u8>, VerifyStatus>
    ensures { Judges options.now (signs_for_of signer.now) request.now body.now at result }
{
    match admit_for(alloc, options, signer, request, body, at) {
        Ok(admitted) => Ok(verified_text(alloc, signer, &admitted)?),
        Err(fault) => Err(VerifyStatus::from(fault)),
    }
}

// Asks the service of a signer for a request.
fn admit_for(
    alloc: Global,
    options: &Env,
    signer: &Chosen,
    request: &HttpRequest,
    body: &[u8],
    at: Moment,
) -> Result<Admitted, DoorFault>
    ensures { AnswersDoor (verify_input options.now (signs_for_of signer.now) request.now body.now at) result }
{
    let (region, service) = (signer.region.as_str(), signer.service.as_str());
    let settings = usual_settings(alloc, is_s3(options, service))?;
    let keys = keys_of(alloc, signer)?;
    let limits = Limits::new();
    admit(
        alloc, request, body, &settings, region, service, &keys, at, &limits,
    )
}

// The key of a signer, as the one that a service knows.
fn keys_of(alloc: Global, signer: &Chosen) -> Mem<KeyList>
    ensures { IfOk result (λ keys. keys ≡ ((signs_for_of signer.now).key.id, (signs_for_of signer.now).key.secret) ∷ []) }
{
    let mut keys = KeyList::new(alloc);
    keys.push(
        signer.credentials.access_key_id(),
        signer.credentials.secret_access_key(),
    )?;
    Ok(keys)
}
