use crate::payload::DoorPayload;
use sigv4::SignatureLocation;
use smithy_core::Moment;
use std::fmt;

/// What a service learns of a signed request that it lets in.
#[derive(Drop)]
pub struct Admitted {
    /// The id of the key that signed it.
    pub key_id: String,
    /// Where the signature stands: in headers, or in the parameters of the target.
    pub place: SignatureLocation,
    /// When it was signed: a whole second.
    pub at: Moment,
    /// The first second in which it isn't good any more.
    pub until: i128,
    /// The names of the signed headers, with `;` between. No other header is signed.
    pub names: String,
    /// What was signed of the payload.
    pub payload: DoorPayload,
    /// The signature that it carries. Signed chunks go on from it.
    pub signature: String,
}

// Shows when the request's time ends: the signature signs the request for whoever has it, and the texts come from whoever sent it.
impl fmt::Debug for Admitted {
    ghost use Rattle.std.specs.Prelude.{Some};
    ghost use Rattle.request_door.specs.DoorFaults.{shown_admitted};

    ghost debug_output = { λ admitted. Some (shown_admitted admitted.until) };

    fn fmt<W: fmt::Write>(&self, f: &mut fmt::Formatter<W>) -> fmt::Result {
        let until = self.until;
        write!(f, "Admitted(until {until})")
    }
}
