ghost use Rattle.std.specs.Prelude.{◌≡◌, OnErr, OnOk};
ghost use Rattle.aws_intercept.specs.Invocation.{StoresId, with_id_header};

use crate::bag::ConfigBag;
use crate::id_fault::IdFault;
use crate::id_generator::InvocationIdGenerator;
use smithy_core::{HttpRequest, Mem};

/// Gives each invocation an id, and sends it with each attempt.
#[derive(Clone, Copy, Debug)]
pub struct InvocationIdInterceptor;

impl InvocationIdInterceptor {
    /// The interceptor.
    pub fn new() -> InvocationIdInterceptor {
        InvocationIdInterceptor
    }

    /// Puts the generator's next id into the bag, where there is one.
    ///
    /// # Errors
    ///
    /// Those of the generator; the bag stays then.
    pub fn modify_before_retry_loop<G: InvocationIdGenerator>(
        &mut self,
        generator: &mut G,
        bag: &mut ConfigBag,
    ) -> Result<(), IdFault>
        ensures { StoresId (λ answer. G.answers generator.old answer generator.new) bag.old bag.new result }
    {
        if let Some(id) = generator.generate()? {
            bag.invocation_id = Some(id);
        }
        Ok(())
    }

    /// Appends the bag's id as `amz-sdk-invocation-id`, where there is one.
    ///
    /// Call it on the attempt's copy of the operation's request, after it was signed: on a request of an earlier attempt the id
    /// would stand twice, and the signature would cover the first.
    pub fn modify_before_transmit(
        &mut self,
        request: &mut HttpRequest,
        bag: &mut ConfigBag,
    ) -> Mem<()>
        ensures ok { OnOk result (request.new.headers ≡ with_id_header request.old.headers bag.old.invocation_id) }
        ensures err { OnErr result (request.new.headers ≡ request.old.headers) }
        ensures method { request.new.method ≡ request.old.method }
        ensures target { request.new.target ≡ request.old.target }
        ensures body { request.new.body ≡ request.old.body }
        ensures bag { bag.new ≡ bag.old }
    {
        match &bag.invocation_id {
            Some(id) => request.headers.append("amz-sdk-invocation-id", id.as_str()),
            None => Ok(()),
        }
    }
}
