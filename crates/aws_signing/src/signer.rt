ghost use Rattle.std.specs.Prelude.{◌≡◌, codes, None, Some, IfOk, OnErr, option_copied, string_bytes};
ghost use Rattle.eventstream.specs.Key.{signing_key};
ghost use Rattle.sigv4.specs.Body.{payload_text};
ghost use Rattle.sigv4.specs.ChunkTold.{unsigned_chunk_at};
ghost use Rattle.sigv4.specs.EventStream.{unsignable};
ghost use Rattle.sigv4.specs.Request.{identity_of};
ghost use Rattle.sigv4.specs.RequestSigning.{IsRequestKey};
ghost use Rattle.sigv4.specs.Settings.{default_settings, s3_settings, settings_of};
ghost use Rattle.sigv4.specs.SigningParams.{params_time};
ghost use Rattle.aws_auth.specs.Steps.{SignsParts};
ghost use Rattle.aws_signing.specs.SigningBy.{MakesSigner, SignsBy, SignsRequestBy, TestsTexts, given_payload, settings_case, in_form, signer_case, signer_kept, text_case};

use crate::fault::AwsSigningError;
use crate::key_holder::KeyHolder;
use http_uri::Uri;
use sigv4::{
    SignableBody, SignableRequest, SignatureLocation, SigningError, SigningInstructions,
    SigningOutput, SigningParams, SigningSettings, sign_request_with_key,
};
use smithy_core::{Credentials, HttpRequest, Mem, Moment};
use std::alloc::Global;
use std::marker::Model;

/// The name by which requests to Amazon S3 are signed.
const S3_NAME: &str = "s3";

/// Signs requests to a service: it has the credentials, the region, the service's name, how a request is signed, and the signing
/// key, which is derived once a day.
///
/// ```rust
/// let mut signer = Signer::new(alloc, &credentials, "us-east-1", "iam")?;
/// let mut request = HttpRequest::new(alloc, "GET", "https://iam.amazonaws.com/?Action=ListUsers")?;
/// signer.sign(&mut request, clock.now())?;
/// ```
///
/// Contracts see a `SigningState`: the key's id, the token, the kept key with who signs, for which region and service, and how
/// requests are signed.
pub struct Signer {
    pub(crate) holder: KeyHolder,
    pub(crate) settings: SigningSettings,
}

// Written out: a derived drop would be taken apart in the proof of each function that drops one.
impl Drop for Signer {
    fn drop(self) {
        let Signer { holder, settings } = self;
        drop(holder);
        drop(settings);
    }
}

impl Model for Signer {
    ghost use Rattle.sigv4.specs.Settings.{settings_of};
    ghost use Rattle.aws_signing.specs.SigningBy.{SigningState};

    ghost Value = { SigningState };

    ghost view = { λ signer. record { holder = signer.holder; settings = settings_of signer.settings } };
}

impl Signer {
    /// A signer of credentials, for a region and the name by which requests to the service are signed, as `iam`.
    ///
    /// # Errors
    ///
    /// [`AwsSigningError::EmptyKeyId`], [`AwsSigningError::EmptySecret`], [`AwsSigningError::EmptyRegion`] and
    /// [`AwsSigningError::EmptyName`], in this order: no service accepts a signature by such a text.
    pub fn new(
        alloc: Global,
        credentials: &Credentials,
        region: &str,
        name: &str,
    ) -> Result<Signer, AwsSigningError>
        ensures { MakesSigner credentials.now region.now name.now default_settings result }
    {
        let settings = SigningSettings::new(alloc)?;
        Signer::with_settings(alloc, credentials, region, name, settings)
    }

    /// A signer of requests to Amazon S3, whose paths are escaped once and stay as they are, and whose payloads have their text in
    /// the header `x-amz-content-sha256`.
    ///
    /// ```rust
    /// let mut signer = Signer::for_s3(alloc, &credentials, "us-east-1")?;
    /// let mut request = HttpRequest::new(alloc, "GET", "https://bucket.s3.amazonaws.com/key")?;
    /// signer.sign(&mut request, clock.now())?;
    /// ```
    ///
    /// # Errors
    ///
    /// Those of [`Signer::new`].
    pub fn for_s3(
        alloc: Global,
        credentials: &Credentials,
        region: &str,
    ) -> Result<Signer, AwsSigningError>
        ensures { MakesSigner credentials.now region.now (codes "s3") s3_settings result }
    {
        let settings = SigningSettings::for_s3(alloc)?;
        Signer::with_settings(alloc, credentials, region, S3_NAME, settings)
    }

    /// A signer as [`Signer::new`] makes one, but by settings of one's own. A usual URL is that of [`Signer::presign`]; this is for
    /// a URL with headers or another expiry, and for any other form: where the settings put the signature into the query,
    /// [`Signer::sign`] and [`Signer::sign_with_payload_hash`] do.
    ///
    /// ```rust
    /// let settings = SigningSettings {
    ///     signature_location: SignatureLocation::QueryParams,
    ///     expires_in: Some(2_592_000),
    ///     ..SigningSettings::for_s3(alloc)?
    /// };
    /// let mut signer = Signer::with_settings(alloc, &credentials, "us-east-1", "s3", settings)?;
    /// signer.sign_with_payload_hash(&mut request, "UNSIGNED-PAYLOAD", clock.now())?;
    /// ```
    ///
    /// # Errors
    ///
    /// Those of [`Signer::new`].
    pub fn with_settings(
        alloc: Global,
        credentials: &Credentials,
        region: &str,
        name: &str,
        settings: SigningSettings,
    ) -> Result<Signer, AwsSigningError>
        ensures { MakesSigner credentials.now region.now name.now (settings_of settings) result }
    {
        test_texts(credentials, region, name)?;
        Ok(Signer {
            holder: KeyHolder::new(alloc, credentials, region, name)?,
            settings,
        })
    }

    /// Signs a request in its headers, with the bytes of its body, at a moment, and answers the signature. A signer that was made
    /// [by settings](Signer::with_settings) signs in the form that these name.
    ///
    /// ```rust
    /// let mut request = HttpRequest::new(alloc, "POST", "https://sqs.us-east-1.amazonaws.com/")?;
    /// request.headers.insert("content-type", "application/x-amz-json-1.0")?;
    /// request.body = Bytes::from_static(b"{}");
    /// let signature = signer.sign(&mut request, clock.now())?;
    /// ```
    ///
    /// # Errors
    ///
    /// [`AwsSigningError::Signing`] with the first of these, and the request stays as it is: the moment lies outside the years 0
    /// to 9999; the target isn't accepted; and then as [`sigv4::sign`] has them.
    pub fn sign(&mut self, request: &mut HttpRequest, at: Moment) -> Result<String, AwsSigningError>
        ensures signs { SignsRequestBy (settings_case self.old request.old None at) at (string_bytes request.old.target) request.new result }
        ensures method { request.new.method ≡ request.old.method }
        ensures body { request.new.body ≡ request.old.body }
        ensures err { OnErr result (request.new ≡ request.old) }
        ensures kept { self.new ≡ signer_kept self.old at }
    {
        Ok(self.sign_case(request, None, None, at)?)
    }

    /// Signs a request as [`Signer::sign`] does, with a text in place of the digest of its body: a digest that is known, as
    /// 64 hexadecimal digits, or a word of the service's, as `UNSIGNED-PAYLOAD` or `STREAMING-AWS4-HMAC-SHA256-EVENTS`.
    ///
    /// ```rust
    /// let mut request = HttpRequest::new(alloc, "PUT", "https://bucket.s3.amazonaws.com/key")?;
    /// signer.sign_with_payload_hash(&mut request, digest.as_str(), clock.now())?;
    /// send(&request, file)?;
    /// ```
    ///
    /// # Errors
    ///
    /// Those of [`Signer::sign`].
    pub fn sign_with_payload_hash(
        &mut self,
        request: &mut HttpRequest,
        payload_hash: &str,
        at: Moment,
    ) -> Result<String, AwsSigningError>
        ensures signs { SignsRequestBy (settings_case self.old request.old (Some payload_hash.now) at) at (string_bytes request.old.target) request.new result }
        ensures method { request.new.method ≡ request.old.method }
        ensures body { request.new.body ≡ request.old.body }
        ensures err { OnErr result (request.new ≡ request.old) }
        ensures kept { self.new ≡ signer_kept self.old at }
    {
        Ok(self.sign_case(request, Some(payload_hash), None, at)?)
    }

    // Signs a request, with this text for its payload, if one is given, and in query form for so many seconds, if these are given, or
    // else in the form of the settings.
    // The request changes last, all or nothing.
    pub(crate) fn sign_case(
        &mut self,
        request: &mut HttpRequest,
        payload: Option<&str>,
        seconds: Option<u64>,
        at: Moment,
    ) -> Result<String, SigningError>
        ensures signs { SignsBy (signer_case self.old (string_bytes request.old.method) request.old.headers (given_payload (option_copied payload.entry) request.old.body) seconds at) at
            (string_bytes request.old.target) request.new result }
        ensures method { request.new.method ≡ request.old.method }
        ensures body { request.new.body ≡ request.old.body }
        ensures err { OnErr result (request.new ≡ request.old) }
        ensures kept { self.new ≡ signer_kept self.old at }
    {
        let key = self.holder.key_at(at)?;
        let (output, uri) = self.parts_under(&key, request, payload, seconds, at)?;
        let (instructions, signature) = output.into_parts();
        instructions.apply_to_parsed(request, &uri)?;
        Ok(signature)
    }

    // What a signature under the key of a moment adds to a request, and what was read of its target. The parameters borrow the texts
    // of the settings, since a copy of them took a signature 3 in 100 longer.
    fn parts_under(
        &mut self,
        key: &[u8; 32],
        request: &HttpRequest,
        payload: Option<&str>,
        seconds: Option<u64>,
        at: Moment,
    ) -> Result<(SigningOutput<SigningInstructions>, Uri), SigningError>
        requires years { unsigned_chunk_at at ≡ None }
        requires key { key.now ≡ signing_key self.old.holder.kept.signer at }
        ensures parts { SignsParts (string_bytes request.now.target) (signer_case self.old (string_bytes request.now.method) request.now.headers
            (given_payload (option_copied payload.entry) request.now.body) seconds at) result }
        ensures kept { self.new ≡ self.old }
    {
        let settings = settings_lent(&mut self.settings, seconds);
        let mut params = SigningParams::V4(self.holder.params(at, settings));
        let parts = signed_parts(self.holder.allocator(), request, payload, &params, key);
        let settings = params.settings_mut();
        self.settings.excluded_headers = settings.excluded_headers.take();
        self.settings.session_token_name_override = settings.session_token_name_override.take();
        parts
    }
}

// The settings as they are, or where the signature goes into a query that is good for so many seconds. Their texts are taken out of
// those at hand.
fn settings_lent(settings: &mut SigningSettings, seconds: Option<u64>) -> SigningSettings
    ensures lent { settings_of result ≡ in_form (settings_of settings.old) seconds }
    ensures names { result.excluded_headers ≡ settings.old.excluded_headers }
    ensures token { result.session_token_name_override ≡ settings.old.session_token_name_override }
    ensures left { settings.new ≡ record settings.old { excluded_headers = None; session_token_name_override = None } }
{
    let excluded_headers = settings.excluded_headers.take();
    let session_token_name_override = settings.session_token_name_override.take();
    let (signature_location, expires_in) = match seconds {
        Some(seconds) => (SignatureLocation::QueryParams, Some(seconds)),
        None => (settings.signature_location, settings.expires_in),
    };
    SigningSettings {
        percent_encoding_mode: settings.percent_encoding_mode,
        payload_checksum_kind: settings.payload_checksum_kind,
        signature_location,
        expires_in,
        excluded_headers,
        uri_path_normalization_mode: settings.uri_path_normalization_mode,
        session_token_mode: settings.session_token_mode,
        session_token_name_override,
    }
}

// Tests that no text of a signer is empty.
fn test_texts(credentials: &Credentials, region: &str, name: &str) -> Result<(), AwsSigningError>
    ensures { TestsTexts credentials.now region.now name.now result }
{
    if credentials.access_key_id().is_empty() {
        return Err(AwsSigningError::EmptyKeyId);
    }
    if credentials.secret_access_key().is_empty() {
        return Err(AwsSigningError::EmptySecret);
    }
    if region.is_empty() {
        return Err(AwsSigningError::EmptyRegion);
    }
    if name.is_empty() {
        return Err(AwsSigningError::EmptyName);
    }
    Ok(())
}

// What a signature under a key adds to a request, and what was read of its target.
fn signed_parts(
    alloc: Global,
    request: &HttpRequest,
    payload: Option<&str>,
    params: &SigningParams<'_>,
    key: &[u8; 32],
) -> Result<(SigningOutput<SigningInstructions>, Uri), SigningError>
    requires able { unsignable (identity_of params.now) (params_time params.now) ≡ None }
    requires key { IsRequestKey params.now key.now }
    ensures { SignsParts (string_bytes request.now.target) (text_case request.now (option_copied payload.entry) params.now) result }
{
    let body = signable_body(alloc, payload, request.body.as_slice())?;
    let signable = SignableRequest::new(
        alloc,
        request.method.as_str(),
        request.target.as_str(),
        &request.headers,
        body,
    )?;
    let output = sign_request_with_key(alloc, &signable, params, key)?;
    Ok((output, signable.into_uri()))
}

// What is signed of a body, or in its place.
fn signable_body<'a>(alloc: Global, payload: Option<&str>, body: &'a [u8]) -> Mem<SignableBody<'a>>
    ensures { IfOk result (λ signable. payload_text signable ≡ given_payload (option_copied payload.entry) body.now) }
{
    match payload {
        Some(payload) => Ok(SignableBody::Precomputed(String::from_str(alloc, payload)?)),
        None => Ok(SignableBody::Bytes(body)),
    }
}
