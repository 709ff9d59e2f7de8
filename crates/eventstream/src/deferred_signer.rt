ghost use Rattle.std.specs.Prelude.{◌≡◌, Some, None};
ghost use Rattle.eventstream.specs.Told.{plain, Signs, SignsEmpty};

use crate::sign::SignMessage;
use crate::sign_error::SignMessageError;
use smithy_core::{Message, Moment};

/// Signs as the signer does that it was handed last; before that it leaves messages as they are. A deferred signer isn't put
/// into a box itself.
pub struct DeferredSigner {
    signer: Option<Box<dyn SignMessage>>,
}

// Written out: a derived drop would be taken apart in the proof of each function that drops one.
impl Drop for DeferredSigner {
    fn drop(self) {
        let DeferredSigner { signer } = self;
        drop(signer);
    }
}

impl DeferredSigner {
    /// A signer that waits for another one.
    pub fn new() -> DeferredSigner
        ensures { ⟦<DeferredSigner as SignMessage>⟧.told result ≡ plain }
    {
        DeferredSigner { signer: None }
    }

    /// Signs as this signer does from now on. The one before it is dropped.
    pub fn wire(&mut self, signer: Box<dyn SignMessage>)
        ensures { ⟦<DeferredSigner as SignMessage>⟧.told self.new ≡ told signer }
    {
        self.signer = Some(signer);
    }
}

impl SignMessage for DeferredSigner {
    ghost use Rattle.std.specs.Prelude.{Ok, IfSome, IsNone};
    ghost use Rattle.std.specs.Option.{option_map_or};

    ghost told = { λ deferred. option_map_or (λ b. (SignMessage-box b).told b.value) deferred.signer plain };

    ghost signs = { λ old message now result new.
        IfSome old.signer (λ b. (after : _) × (SignMessage-box b).signs b.value message now result after × (new.signer ≡ Some (record b { value = after })))
        × (IsNone old.signer → (result ≡ Ok message) × IsNone new.signer) };

    ghost closes = { λ old now result new.
        IfSome old.signer (λ b. (after : _) × (SignMessage-box b).closes b.value now result after × (new.signer ≡ Some (record b { value = after })))
        × (IsNone old.signer → IsNone result × IsNone new.signer) };

    fn sign(&mut self, message: Message, now: Moment) -> Result<Message, SignMessageError> {
        match &mut self.signer {
            Some(signer) => sign_by(signer, message, now),
            None => Ok(message),
        }
    }

    fn sign_empty(&mut self, now: Moment) -> Option<Result<Message, SignMessageError>> {
        match &mut self.signer {
            Some(signer) => sign_empty_by(signer, now),
            None => None,
        }
    }
}

// The box's signer signs, and is in the box then.
fn sign_by(
    signer: &mut Box<dyn SignMessage>,
    message: Message,
    now: Moment,
) -> Result<Message, SignMessageError>
    ensures { (after : _) × Signs ((SignMessage-box signer.old).told signer.old.value) message now result ((SignMessage-box signer.old).told after)
        × (SignMessage-box signer.old).signs signer.old.value message now result after × (signer.new ≡ record signer.old { value = after }) }
{
    signer.sign(message, now)
}

// The box's signer signs the empty message, and is in the box then.
fn sign_empty_by(
    signer: &mut Box<dyn SignMessage>,
    now: Moment,
) -> Option<Result<Message, SignMessageError>>
    ensures { (after : _) × SignsEmpty ((SignMessage-box signer.old).told signer.old.value) now result ((SignMessage-box signer.old).told after)
        × (SignMessage-box signer.old).closes signer.old.value now result after × (signer.new ≡ record signer.old { value = after }) }
{
    signer.sign_empty(now)
}
