ghost use Rattle.std.specs.Prelude.{◌≡◌, [], IfOk, option_copied, string_bytes};
ghost use Rattle.smithy_core.specs.TextPairs.{text_pairs};
ghost use Rattle.sigv4.specs.declared.settings.SignatureLocation.TheVariants.{QueryParams};
ghost use Rattle.request_door.specs.DoorPayloads.{usual_form, usual_payload};
ghost use Rattle.aws_signing.specs.Presigning.{Presigns, PresignsCase, DecidesPresigned, TestsPresigning, TestsSeconds, has_signature_pair, is_signature_key, presigned_case};
ghost use Rattle.aws_signing.specs.SigningBy.{given_payload, signer_kept};

use crate::fault::AwsSigningError;
use crate::signer::Signer;
use request_check::parts::query_pairs;
use sigv4::{PayloadChecksumKind, SigningError};
use smithy_core::{HttpRequest, Mem, Moment};
use smithy_http::{UriFault, read_target};
use std::alloc::{AllocError, Global};

/// For how many seconds a URL may be good at most, by AWS: seven days.
const MOST_SECONDS: u64 = 604_800;

impl Signer {
    /// A URL that carries its signature: whoever has it may send its method to it, without headers, for so many seconds from a
    /// moment on. A signer for Amazon S3 leaves the body open; any other signs that it is empty.
    ///
    /// ```rust
    /// let url = signer.presign("GET", "https://bucket.s3.amazonaws.com/key", 900, clock.now())?;
    /// ```
    ///
    /// # Errors
    ///
    /// The first of these: [`AwsSigningError::InvalidExpiry`] where the seconds are 0 or more than 604,800, seven days;
    /// [`AwsSigningError::AlreadyPresigned`] where the URL has a parameter `X-Amz-Signature`, since no service takes a second one;
    /// and [`AwsSigningError::Signing`] as [`Signer::sign`] has it, also where the signed URL is over 65,534 bytes.
    pub fn presign(
        &mut self,
        method: &str,
        url: &str,
        seconds: u64,
        at: Moment,
    ) -> Result<String, AwsSigningError>
        ensures { Presigns self.old method.now url.now seconds at self.new result }
    {
        let alloc = self.holder.allocator();
        test_presigning(alloc, url, seconds)?;
        let request = HttpRequest::new(alloc, method, url)?;
        Ok(self.presign_request(request, seconds, at)?)
    }

    // The target of a request without headers and body, which is signed in query form.
    fn presign_request(
        &mut self,
        mut request: HttpRequest,
        seconds: u64,
        at: Moment,
    ) -> Result<String, SigningError>
        requires headers { request.headers ≡ [] }
        requires body { request.body ≡ [] }
        ensures url { PresignsCase (presigned_case self.old (string_bytes request.method) seconds at) at (string_bytes request.target) result }
        ensures kept { self.new ≡ signer_kept self.old at }
    {
        let payload = self.unsigned_payload();
        self.sign_case(&mut request, payload, Some(seconds), at)?;
        Ok(request.target)
    }

    // The word for a payload that isn't signed in query form, where it isn't.
    fn unsigned_payload(&self) -> Option<&'static str>
        ensures { given_payload (option_copied result) [] ≡ usual_payload (usual_form QueryParams self.now.settings.payload_checksum_kind) [] }
    {
        match self.settings.payload_checksum_kind {
            PayloadChecksumKind::XAmzSha256 => Some("UNSIGNED-PAYLOAD"),
            PayloadChecksumKind::NoHeader => None,
        }
    }
}

// Tests the seconds, and that the URL isn't presigned already.
fn test_presigning(alloc: Global, url: &str, seconds: u64) -> Result<(), AwsSigningError>
    ensures { TestsPresigning url.now seconds result }
{
    test_seconds(seconds)?;
    if is_presigned(alloc, url)? {
        return Err(AwsSigningError::AlreadyPresigned);
    }
    Ok(())
}

// Tests the seconds.
fn test_seconds(seconds: u64) -> Result<(), AwsSigningError>
    ensures { TestsSeconds seconds result }
{
    if seconds == 0 || seconds > MOST_SECONDS {
        return Err(AwsSigningError::InvalidExpiry(seconds));
    }
    Ok(())
}

/// Whether a text is that of a target whose query has a signature's parameter, `X-Amz-Signature`.
pub fn is_presigned(alloc: Global, text: &str) -> Mem<bool>
    ensures { IfOk result (DecidesPresigned text.now) }
{
    match read_target(alloc, text) {
        Ok(uri) => Ok(has_signature_pair(query_pairs(alloc, &uri)?.as_slice())),
        Err(UriFault::InvalidUri) => Ok(false),
        Err(UriFault::NoMemory) => Err(AllocError),
    }
}

// Whether one of the pairs of a query is a signature.
fn has_signature_pair(pairs: &[(String, String)]) -> bool
    ensures { result ≡ has_signature_pair (text_pairs pairs.now) }
{
    for (key, _) in pairs {
        if is_signature_key(key.as_str()) {
            return true;
        }
    }
    false
}

// Whether a parameter of this name is a signature.
fn is_signature_key(key: &str) -> bool
    ensures { result ≡ is_signature_key key.now }
{
    key == "X-Amz-Signature"
}
