//! A URL that no usual call makes: with a signed header, and good for longer than seven days.
use aws_signing::{
    Credentials, Global, HttpRequest, Moment, Result, SignatureLocation, Signer, SigningSettings,
};

const OBJECT: &str = "https://examplebucket.s3.amazonaws.com/test.txt";

/// A URL to put a text to, which is good for thirty days.
pub fn put_url(alloc: Global, credentials: &Credentials, at: Moment) -> Result<String> {
    let settings = SigningSettings {
        signature_location: SignatureLocation::QueryParams,
        expires_in: Some(2_592_000),
        ..SigningSettings::for_s3(alloc)?
    };
    let mut signer = Signer::with_settings(alloc, credentials, "us-east-1", "s3", settings)?;
    let mut request = HttpRequest::new(alloc, "PUT", OBJECT)?;
    request.headers.insert("content-type", "text/plain")?;
    signer.sign_with_payload_hash(&mut request, "UNSIGNED-PAYLOAD", at)?;
    Ok(request.target)
}
