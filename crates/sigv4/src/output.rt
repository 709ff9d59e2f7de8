ghost use Rattle.std.specs.Prelude.{◌≡◌, IfOk};
ghost use Rattle.sigv4.specs.Output.{output_parts, output_signature, output_with, signed_output};

use smithy_core::Mem;
use std::fmt;

/// What was signed, and its signature.
#[derive(Drop)]
pub struct SigningOutput<T> {
    output: T,
    signature: String,
}

impl<T> SigningOutput<T> {
    /// The output and its signature.
    pub fn new(output: T, signature: String) -> SigningOutput<T>
        ensures { result ≡ output_with output signature }
    {
        SigningOutput { output, signature }
    }

    /// The output.
    pub fn output(&self) -> &T
        ensures { result.now ≡ signed_output self.now }
    {
        &self.output
    }

    /// The signature.
    pub fn signature(&self) -> &str
        ensures { result.now ≡ output_signature self.now }
    {
        self.signature.as_str()
    }

    /// The output and the signature.
    pub fn into_parts(self) -> (T, String)
        ensures { result ≡ output_parts self }
    {
        (self.output, self.signature)
    }
}

impl<T: Clone + Drop> SigningOutput<T> {
    /// A copy of the output, with the same signature.
    pub fn try_clone(&self) -> Mem<SigningOutput<T>>
        ensures output { IfOk result (λ copy. T.is_clone (signed_output self.now) (signed_output copy)) }
        ensures signature { IfOk result (λ copy. output_signature copy ≡ output_signature self.now) }
    {
        Ok(SigningOutput {
            output: self.output.clone()?,
            signature: self.signature.clone()?,
        })
    }
}

// Shows neither the signature nor what was signed: with a signature anybody sends the request, and the instructions hold it too.
impl<T> fmt::Debug for SigningOutput<T> {
    ghost use Rattle.std.specs.Prelude.{Some, codes};

    ghost debug_output = { λ _. Some (codes "SigningOutput") };

    fn fmt<W: fmt::Write>(&self, f: &mut fmt::Formatter<W>) -> fmt::Result {
        f.write_str("SigningOutput")
    }
}
