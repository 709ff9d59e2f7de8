//! What a request is signed by: its config, the endpoint's fields, and what the inputs have of their own.
use crate::parts::{part_or_none, part_text};
use aws_auth::{
    HttpSignatureType, PayloadSigningOverride, SigV4OperationSigningConfig, SigningInputs,
    SigningOptions,
};
use smithy_core::{Document, Mem, Region, SigningName};
use std::alloc::Global;
use tool_case_lines::{has_part, number, part};

/// All that the inputs lend.
pub struct Given {
    config: Option<SigV4OperationSigningConfig>,
    endpoint: Option<Document>,
    name: Option<SigningName>,
    region: Option<Region>,
    payload: Option<PayloadSigningOverride>,
    skew_millis: Option<i64>,
}

// Written out: a derived drop would be taken apart in the proof of each function that drops one.
impl Drop for Given {
    fn drop(self) {
        let Given {
            config,
            endpoint,
            name,
            region,
            payload,
            skew_millis: _,
        } = self;
        drop(config);
        drop(endpoint);
        drop(name);
        drop(region);
        drop(payload);
    }
}

impl Given {
    /// What `no-config`, `endpoint KEY VALUE`, `input-name N`, `input-region R`, `payload TEXT` and `skew MILLIS` give,
    /// and the words of the config.
    pub fn of(alloc: Global, parts: &[&str]) -> Mem<Given> {
        let mut given = Given {
            config: None,
            endpoint: None,
            name: None,
            region: None,
            payload: None,
            skew_millis: skew_of(parts),
        };
        given.read(alloc, parts)?;
        Ok(given)
    }

    fn read(&mut self, alloc: Global, parts: &[&str]) -> Mem<()> {
        self.name = part_text(alloc, parts, "input-name")?.map(SigningName::new);
        self.region = part_text(alloc, parts, "input-region")?.map(Region::new);
        self.payload = payload_of(alloc, part(parts, "payload"))?;
        self.endpoint = endpoint_of(alloc, parts)?;
        if !has_part(parts, "no-config") {
            self.config = Some(config_of(alloc, parts)?);
        }
        Ok(())
    }

    /// The inputs.
    pub fn inputs(&self) -> SigningInputs<'_> {
        SigningInputs {
            config: self.config.as_ref(),
            endpoint: self.endpoint.as_ref(),
            name: self.name.as_ref(),
            region: self.region.as_ref(),
            payload: self.payload.as_ref(),
            skew_millis: self.skew_millis,
        }
    }
}

/// The config with the region `us-east-1` and the name `service`, or with `no-region` and `no-name`.
pub fn config_of(alloc: Global, parts: &[&str]) -> Mem<SigV4OperationSigningConfig> {
    Ok(SigV4OperationSigningConfig {
        region: unless(alloc, parts, "no-region", "us-east-1")?.map(Region::new),
        name: unless(alloc, parts, "no-name", "service")?.map(SigningName::new),
        signing_options: options_of(alloc, parts)?,
    })
}

// The text, unless there is a part of the key.
fn unless(alloc: Global, parts: &[&str], key: &str, text: &str) -> Mem<Option<String>> {
    if has_part(parts, key) {
        return Ok(None);
    }
    Ok(Some(String::from_str(alloc, text)?))
}

/// The options: those of `for-s3` and `presigned N`, or else `encode-once`, `sha256`, `keep-path`, `omit-token`, `option-payload TEXT`,
/// `query`, `optional` and `expires N` change the usual ones.
pub fn options_of(alloc: Global, parts: &[&str]) -> Mem<SigningOptions> {
    if let Some(options) = ready_options(parts) {
        return Ok(options);
    }
    Ok(SigningOptions {
        double_uri_encode: !has_part(parts, "encode-once"),
        content_sha256_header: has_part(parts, "sha256"),
        normalize_uri_path: !has_part(parts, "keep-path"),
        omit_session_token: has_part(parts, "omit-token"),
        payload_override: payload_of(alloc, part(parts, "option-payload"))?,
        signature_type: signature_type_of(parts),
        signing_optional: has_part(parts, "optional"),
        expires_in: part_or_none(parts, "expires").parse().ok(),
    })
}

// The options of `for-s3`, of `presigned N`, or of both.
fn ready_options(parts: &[&str]) -> Option<SigningOptions> {
    match part_or_none(parts, "presigned").parse() {
        Ok(seconds) if has_part(parts, "for-s3") => Some(SigningOptions::presigned_for_s3(seconds)),
        Ok(seconds) => Some(SigningOptions::presigned(seconds)),
        Err(_) if has_part(parts, "for-s3") => Some(SigningOptions::for_s3()),
        Err(_) => None,
    }
}

fn skew_of(parts: &[&str]) -> Option<i64> {
    Some(number(part(parts, "skew")?))
}

fn signature_type_of(parts: &[&str]) -> HttpSignatureType {
    if has_part(parts, "query") {
        HttpSignatureType::HttpRequestQueryParams
    } else {
        HttpSignatureType::HttpRequestHeaders
    }
}

// The override of which this is the payload's text, where there is one.
fn payload_of(alloc: Global, text: Option<&str>) -> Mem<Option<PayloadSigningOverride>> {
    match text {
        Some(text) => Ok(Some(override_of(alloc, text)?)),
        None => Ok(None),
    }
}

/// The override of which this is the payload's text.
pub fn override_of(alloc: Global, text: &str) -> Mem<PayloadSigningOverride> {
    Ok(match text {
        "UNSIGNED-PAYLOAD" => PayloadSigningOverride::unsigned_payload(),
        "STREAMING-UNSIGNED-PAYLOAD-TRAILER" => {
            PayloadSigningOverride::StreamingUnsignedPayloadTrailer
        }
        "STREAMING-AWS4-HMAC-SHA256-PAYLOAD-TRAILER" => {
            PayloadSigningOverride::StreamingSignedPayloadTrailer
        }
        "STREAMING-AWS4-HMAC-SHA256-PAYLOAD" => {
            PayloadSigningOverride::streaming_signed_payload(alloc)?
        }
        digest => PayloadSigningOverride::Precomputed(String::from_str(alloc, digest)?),
    })
}

// The endpoint with the fields of the parts `endpoint KEY VALUE`, where there are some.
fn endpoint_of(alloc: Global, parts: &[&str]) -> Mem<Option<Document>> {
    if !has_part(parts, "endpoint") {
        return Ok(None);
    }
    let mut members = Vec::new(alloc);
    for part in parts {
        if let Some(("endpoint", field)) = part.split_once(' ') {
            members.push(field_of(alloc, field)?)?;
        }
    }
    Ok(Some(Document::Object(members)))
}

fn field_of(alloc: Global, field: &str) -> Mem<(String, Document)> {
    let (key, value) = field.split_once(' ').unwrap_or((field, ""));
    let value = value_of(alloc, value)?;
    Ok((String::from_str(alloc, key)?, value))
}

// The value `true`, `false` or `text TEXT`, and else nothing.
fn value_of(alloc: Global, value: &str) -> Mem<Document> {
    Ok(match value.split_once(' ').unwrap_or((value, "")) {
        ("true", _) => Document::Bool(true),
        ("false", _) => Document::Bool(false),
        ("text", text) => Document::String(String::from_str(alloc, text)?),
        _ => Document::Null,
    })
}
