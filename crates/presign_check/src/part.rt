ghost use Rattle.std.specs.Prelude.{◌≡◌};
ghost use Rattle.presign_check.specs.Faults.{part_name};
ghost use Rattle.presign_check.specs.Parameters.{parameter_name};

use std::fmt;

/// A parameter that a presigned target carries of its signature.
#[derive(Clone, Copy, Debug, PartialEq, Eq)]
pub enum PresignPart {
    /// `X-Amz-Algorithm`: `AWS4-HMAC-SHA256`.
    Algorithm,
    /// `X-Amz-Credential`: the key's id, a slash and the scope.
    Credential,
    /// `X-Amz-Date`: when the target was signed, as `YYYYMMDDTHHMMSSZ`.
    Date,
    /// `X-Amz-Expires`: for how many seconds from then on it is good.
    Expires,
    /// `X-Amz-SignedHeaders`: the names of the signed headers, with `;` between.
    SignedHeaders,
    /// `X-Amz-Signature`: 64 hexadecimal digits in lower case.
    Signature,
}

impl PresignPart {
    /// The name of the parameter, as `X-Amz-Date`.
    pub fn parameter_name(self) -> &'static str
        ensures { result.now ≡ parameter_name self }
    {
        match self {
            PresignPart::Algorithm => "X-Amz-Algorithm",
            PresignPart::Credential => "X-Amz-Credential",
            PresignPart::Date => "X-Amz-Date",
            PresignPart::Expires => "X-Amz-Expires",
            PresignPart::SignedHeaders => "X-Amz-SignedHeaders",
            PresignPart::Signature => "X-Amz-Signature",
        }
    }

    /// The name of the part, as `Date`.
    pub fn name(self) -> &'static str
        ensures { result.now ≡ part_name self }
    {
        match self {
            PresignPart::Algorithm => "Algorithm",
            PresignPart::Credential => "Credential",
            PresignPart::Date => "Date",
            PresignPart::Expires => "Expires",
            PresignPart::SignedHeaders => "SignedHeaders",
            PresignPart::Signature => "Signature",
        }
    }
}

impl fmt::Display for PresignPart {
    ghost use Rattle.std.specs.Prelude.{Some};
    ghost use Rattle.presign_check.specs.Parameters.{parameter_name};

    ghost output = { λ part. Some (parameter_name part) };

    fn fmt<W: fmt::Write>(&self, f: &mut fmt::Formatter<W>) -> fmt::Result {
        f.write_str(self.parameter_name())
    }
}
