//! A request, and how its signature is computed again, from the words `METHOD TARGET`, `header NAME: VALUE` and so on.
use bytes::Bytes;
use request_door::KeyList;
use sigv4::{PercentEncodingMode, SessionTokenMode, SignableBody, SigningSettings};
use smithy_core::{Headers, HttpRequest, Mem};
use std::alloc::Global;
use tool_case_lines::{bytes_of_hex, halves, has_part, part, with_repeats};

/// The request of `METHOD TARGET`, which comes first, its headers and its body.
pub fn request_of(alloc: Global, words: &[&str]) -> Mem<HttpRequest> {
    let line = with_repeats(alloc, first(words))?;
    let (method, target) = halves(line.as_str());
    let mut request = HttpRequest::new(alloc, method, target)?;
    let body = bytes_of_hex(alloc, part(words, "body").unwrap_or(""))?;
    request.body = Bytes::from_vec(body)?;
    add_headers(&mut request.headers, words)?;
    Ok(request)
}

fn first<'a>(words: &[&'a str]) -> &'a str {
    match words {
        [word, ..] => *word,
        [] => "",
    }
}

fn add_headers(headers: &mut Headers, words: &[&str]) -> Mem<()> {
    for word in words {
        if let Some(("header", pair)) = word.split_once(' ') {
            let (name, value) = pair.split_once(": ").unwrap_or((pair, ""));
            headers.append(name, value)?;
        }
    }
    Ok(())
}

/// The body as it is signed: that of the request, or with `unsigned-body` none.
pub fn body_of<'a>(request: &'a HttpRequest, words: &[&str]) -> SignableBody<'a> {
    if has_part(words, "unsigned-body") {
        SignableBody::UnsignedPayload
    } else {
        SignableBody::Bytes(request.body.as_slice())
    }
}

/// The keys: one, of the words `key-id ID` and `secret S`.
pub fn keys_of(alloc: Global, words: &[&str]) -> Mem<KeyList> {
    let mut keys = KeyList::new(alloc);
    keys.push(key_id_of(words), secret_of(words))?;
    Ok(keys)
}

/// The id of the key: of the word `key-id ID`, or else that of AWS's signing test suite.
pub fn key_id_of<'a>(words: &[&'a str]) -> &'a str {
    part(words, "key-id").unwrap_or("AKIDEXAMPLE")
}

/// The secret: of the word `secret S`, or else that of AWS's signing test suite.
pub fn secret_of<'a>(words: &[&'a str]) -> &'a str {
    part(words, "secret").unwrap_or("wJalrXUtnFEMI/K7MDENG+bPxRfiCYEXAMPLEKEY")
}

/// The settings: `encode-once`, `omit-token` and `token-name N` change the usual ones, and `for-s3` gives those for Amazon S3.
pub fn settings_of(alloc: Global, words: &[&str]) -> Mem<SigningSettings> {
    if has_part(words, "for-s3") {
        return SigningSettings::for_s3(alloc);
    }
    let mut settings = SigningSettings::new(alloc)?;
    if has_part(words, "encode-once") {
        settings.percent_encoding_mode = PercentEncodingMode::Single;
    }
    if has_part(words, "omit-token") {
        settings.session_token_mode = SessionTokenMode::Exclude;
    }
    if let Some(name) = part(words, "token-name") {
        settings.session_token_name_override = Some(String::from_str(alloc, name)?);
    }
    Ok(settings)
}
