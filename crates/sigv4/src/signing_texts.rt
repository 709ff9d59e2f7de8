ghost use Rattle.std.specs.Prelude.{◌≡◌, option_copied, IfOk, string_bytes};
ghost use Rattle.hex.specs.Hex.{encode_lower};
ghost use Rattle.mac_core.specs.Mac.{mac};
ghost use Rattle.smithy_core.specs.TextPairs.{AreLower};
ghost use Rattle.smithy_http.specs.Target.{target_of};
ghost use Rattle.sigv4.specs.Canonical.{added_host};
ghost use Rattle.sigv4.specs.Params.{v4_identity, v4_time};
ghost use Rattle.sigv4.specs.Request.{HasKeys, v4_request_case};
ghost use Rattle.sigv4.specs.Signature.{string_to_sign_of};

use crate::body::payload_text;
use crate::canonical::joined_text;
use crate::canonical_headers::{AddedHeaders, joined_names, signed_headers};
use crate::canonical_query::{canonical_query, signed_token, signing_parameters};
use crate::error::SigningError;
use crate::refusal::{test_request, test_texts};
use crate::request::SignableRequest;
use crate::settings::SigningSettings;
use crate::signature::signature_under;
use crate::signing_scope::SigningScope;
use crate::signing_time::SigningTime;
use crate::token_name::token_parameter;
use crate::v4::SigningParams;
use smithy_core::{Credentials, Mem};
use std::alloc::Global;

/// The texts that a signature is made of.
#[derive(Drop)]
pub(crate) struct SigningTexts {
    /// When and for what the signature is made.
    pub(crate) scope: SigningScope,
    /// The key id and the scope.
    pub(crate) credential: String,
    /// The payload's text.
    pub(crate) payload: String,
    /// The names of the signed headers, joined.
    pub(crate) names: String,
    /// The parameters that are signed, without the token's: none in header form.
    pub(crate) parameters: Vec<(String, String)>,
    /// The canonical text.
    pub(crate) canonical: String,
}

impl SigningTexts {
    ghost use Rattle.sigv4.specs.RequestSigning.{HasTexts, MakesTexts};

    /// The texts of a request, or the first of its tests that fails. Its body is hashed after all tests that need no hash.
    pub(crate) fn new(
        alloc: Global,
        request: &SignableRequest<'_>,
        params: &SigningParams<'_, SigningSettings>,
        credentials: &Credentials,
        time: &SigningTime,
    ) -> Result<SigningTexts, SigningError>
        requires time { time.now ≡ v4_time params.now }
        requires keys { HasKeys (v4_identity params.now) credentials.now }
        ensures { MakesTexts (v4_request_case request.now params.now) result }
    {
        let settings = params.settings();
        let host = test_request(request, settings, credentials.session_token())?;
        let texts = SigningTexts::with_host(alloc, request, params, credentials, time, host)?;
        test_texts(settings, texts.payload.as_str(), texts.credential.as_str())?;
        Ok(texts)
    }

    // The texts of a request to whose headers this host is added.
    fn with_host(
        alloc: Global,
        request: &SignableRequest<'_>,
        params: &SigningParams<'_, SigningSettings>,
        credentials: &Credentials,
        time: &SigningTime,
        host: Option<&str>,
    ) -> Mem<SigningTexts>
        requires time { time.now ≡ v4_time params.now }
        requires keys { HasKeys (v4_identity params.now) credentials.now }
        requires host { option_copied host ≡ added_host (target_of request.now.uri) request.now.headers.now }
        requires lower { AreLower request.now.headers.now }
        ensures { IfOk result (HasTexts (v4_request_case request.now params.now)) }
    {
        let settings = params.settings();
        let token = credentials.session_token();
        let payload = payload_text(alloc, &request.body)?;
        let scope = SigningScope::new(alloc, time, params.region(), params.name())?;
        let credential = scope.credential(alloc, credentials.access_key_id())?;
        let added = AddedHeaders {
            host,
            date: scope.stamp.as_str(),
            token,
            payload: payload.as_str(),
        };
        let headers = signed_headers(alloc, settings, request.headers, &added)?;
        let names = joined_names(alloc, headers.as_slice())?;
        let (stamp, signed) = (scope.stamp.as_str(), names.as_str());
        let parameters = signing_parameters(alloc, settings, credential.as_str(), stamp, signed)?;
        let (name, token) = (token_parameter(settings), signed_token(settings, token));
        let query = canonical_query(alloc, &request.uri, parameters.as_slice(), name, token)?;
        let (query, payload_text) = (query.as_str(), payload.as_str());
        let canonical = joined_text(
            alloc,
            request,
            settings,
            query,
            headers.as_slice(),
            signed,
            payload_text,
        )?;
        // The headers hold the scope's and the payload's texts.
        drop(headers);
        Ok(SigningTexts {
            scope,
            credential,
            payload,
            names,
            parameters,
            canonical,
        })
    }

    /// The signature of the canonical text under a signing key.
    pub(crate) fn signature(&self, alloc: Global, signing_key: &[u8]) -> Mem<String>
        ensures { IfOk result (λ text. string_bytes text ≡ encode_lower (mac signing_key.now
            (string_to_sign_of (string_bytes self.now.scope.stamp) (string_bytes self.now.scope.scope) (string_bytes self.now.canonical)))) }
    {
        signature_under(alloc, signing_key, &self.scope, self.canonical.as_bytes())
    }
}
