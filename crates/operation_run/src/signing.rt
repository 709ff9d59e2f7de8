ghost use Rattle.std.specs.Prelude.{◌≡◌};
ghost use Rattle.operation_run.specs.Steps.{SignsAt};

use crate::fault::OperationFault;
use aws_auth::{SigV4Signer, SigningInputs};
use smithy_core::{HttpRequest, Identity, Moment};

/// Signs a request in place.
pub(crate) fn sign_at(
    request: &mut HttpRequest,
    identity: &Identity,
    inputs: &SigningInputs<'_>,
    first: Moment,
) -> Result<(), OperationFault>
    ensures signs { SignsAt identity.now inputs.now first request.old request.new result }
    ensures method { request.new.method ≡ request.old.method }
    ensures body { request.new.body ≡ request.old.body }
{
    SigV4Signer::new().sign_alone(request, identity, inputs, first)?;
    Ok(())
}
