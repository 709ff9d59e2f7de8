ghost use Rattle.std.specs.Prelude.{◌≡◌, ◌++◌, [], ◌∷◌, map, None, if◌then◌else◌, option_copied, IfOk, OnErr, OnOk};
ghost use Rattle.std.specs.String.{string_bytes};
ghost use Rattle.smithy_core.specs.TextPairs.{text_pairs};
ghost use Rattle.smithy_http.specs.QueryWriter.{escaped_pair};
ghost use Rattle.smithy_http.specs.Query.{pair_text};
ghost use Rattle.smithy_http.specs.Target.{target_of};
ghost use Rattle.sigv4.specs.Canonical.{expires_text, parameters_for, signed_token, token_pairs};
ghost use Rattle.sigv4.specs.Query.{decoded, decoded_pairs, joined_pairs, pair_separator, query, sorted, string_pair};
ghost use Rattle.sigv4.specs.Settings.{is_query_form, settings_of};

use crate::settings::{SessionTokenMode, SignatureLocation, SigningSettings};
use http_uri::Uri;
use smithy_core::Mem;
use smithy_http::query;
use std::alloc::Global;
use std::marker::Model;

/// The query of a canonical request: the pairs of the target's query, as form decoding gives them, then the parameters, and
/// the token under its name; each escaped, and all of them sorted by key and then by value.
pub(crate) fn canonical_query(
    alloc: Global,
    uri: &Uri,
    parameters: &[(String, String)],
    token_name: &str,
    token: Option<&str>,
) -> Mem<String>
    ensures { IfOk result (λ text. string_bytes text
        ≡ query (decoded (target_of uri.now) ++ text_pairs parameters.now ++ token_pairs token_name.now (option_copied token.entry))) }
{
    let mut pairs = EscapedPairs::new(alloc);
    pairs.push_query(uri.query().unwrap_or(""))?;
    pairs.push_parameters(parameters)?;
    pairs.push_optional(token_name, token)?;
    pairs.into_text()
}

/// The parameters that are signed, without the token's: none in header form.
pub(crate) fn signing_parameters(
    alloc: Global,
    settings: &SigningSettings,
    credential: &str,
    date: &str,
    names: &str,
) -> Mem<Vec<(String, String)>>
    ensures { IfOk result (λ parameters. text_pairs parameters.items
        ≡ (if is_query_form (settings_of settings.now) then parameters_for credential.now date.now settings.now.expires_in names.now else [])) }
{
    match settings.signature_location {
        SignatureLocation::Headers => Ok(Vec::new(alloc)),
        SignatureLocation::QueryParams => {
            let expires = expires_text(alloc, settings.expires_in)?;
            let mut parameters = Vec::with_capacity(alloc, 7)?;
            push_parameter(&mut parameters, "X-Amz-Algorithm", "AWS4-HMAC-SHA256")?;
            push_parameter(&mut parameters, "X-Amz-Credential", credential)?;
            push_parameter(&mut parameters, "X-Amz-Date", date)?;
            push_parameter(&mut parameters, "X-Amz-Expires", expires.as_str())?;
            push_parameter(&mut parameters, "X-Amz-SignedHeaders", names)?;
            Ok(parameters)
        }
    }
}

/// Appends a parameter.
pub(crate) fn push_parameter(
    parameters: &mut Vec<(String, String)>,
    key: &str,
    value: &str,
) -> Mem<()>
    ensures { OnOk result (text_pairs parameters.new.items ≡ text_pairs parameters.old.items ++ (key.now, value.now) ∷ []) }
{
    let alloc = *parameters.allocator();
    let key = String::from_str(alloc, key)?;
    let value = String::from_str(alloc, value)?;
    parameters.push((key, value))?;
    Ok(())
}

// How many seconds a signed target is good for, and no text where that isn't given.
fn expires_text(alloc: Global, expires_in: Option<u64>) -> Mem<String>
    ensures { IfOk result (λ text. string_bytes text ≡ expires_text expires_in) }
{
    match expires_in {
        Some(seconds) => format!(in alloc; "{seconds}"),
        None => Ok(String::new(alloc)),
    }
}

/// The token, where it goes into the query and is signed.
pub(crate) fn signed_token<'a>(
    settings: &SigningSettings,
    token: Option<&'a str>,
) -> Option<&'a str>
    ensures { option_copied result
        ≡ (if is_query_form (settings_of settings.now) then signed_token settings.now.session_token_mode (option_copied token.entry) else None) }
{
    match (settings.signature_location, settings.session_token_mode) {
        (SignatureLocation::QueryParams, SessionTokenMode::Include) => token,
        _ => None,
    }
}

/// Pairs of a canonical query, escaped.
#[derive(Drop)]
pub struct EscapedPairs {
    pairs: Vec<(String, String)>,
}

impl Model for EscapedPairs {
    ghost use Rattle.std.specs.Prelude.{List, map};
    ghost use Rattle.sigv4.specs.Query.{Pair, string_pair};

    ghost Value = { List Pair };

    ghost view = { λ p. map string_pair p.pairs.items };
}

impl EscapedPairs {
    /// No pairs yet.
    pub fn new(alloc: Global) -> EscapedPairs
        ensures { result ≡ [] }
    {
        EscapedPairs {
            pairs: Vec::new(alloc),
        }
    }

    /// The same pairs.
    pub fn try_clone(&self) -> Mem<EscapedPairs>
        ensures { IfOk result (λ copy. copy ≡ self.now) }
    {
        Ok(EscapedPairs {
            pairs: self.pairs.clone()?,
        })
    }

    /// Adds a pair, escaped. Where memory ran out, nothing is added.
    pub fn push(&mut self, key: &str, value: &str) -> Mem<()>
        ensures ok { OnOk result (self.new ≡ self.old ++ escaped_pair (key.now, value.now) ∷ []) }
        ensures err { OnErr result (self.new ≡ self.old) }
    {
        let alloc = *self.pairs.allocator();
        let key = query::fmt_string(alloc, key)?;
        let value = query::fmt_string(alloc, value)?;
        self.pairs.push((key, value))?;
        Ok(())
    }

    // Adds the pairs that form decoding gives of a query.
    fn push_query(&mut self, query: &str) -> Mem<()>
        ensures { OnOk result (self.new ≡ self.old ++ map escaped_pair (decoded_pairs query.now)) }
    {
        let alloc = *self.pairs.allocator();
        for pair in form_urlencoded::parse(alloc, query.as_bytes()) {
            let (key, value) = pair?;
            self.push(key.as_str(), value.as_str())?;
        }
        Ok(())
    }

    // Adds the pairs.
    fn push_parameters(&mut self, parameters: &[(String, String)]) -> Mem<()>
        ensures { OnOk result (self.new ≡ self.old ++ map escaped_pair (text_pairs parameters.now)) }
    {
        for (key, value) in parameters {
            self.push(key.as_str(), value.as_str())?;
        }
        Ok(())
    }

    // Adds a pair, where there is a value.
    fn push_optional(&mut self, key: &str, value: Option<&str>) -> Mem<()>
        ensures { OnOk result (self.new ≡ self.old ++ map escaped_pair (token_pairs key.now (option_copied value.entry))) }
    {
        match value {
            Some(value) => self.push(key, value),
            None => Ok(()),
        }
    }

    /// The pairs, sorted by key and then by value, as `key=value` with `&` between.
    pub fn into_text(mut self) -> Mem<String>
        ensures { IfOk result (λ text. string_bytes text ≡ joined_pairs (sorted self)) }
    {
        sort_pairs(&mut self.pairs);
        join_pairs(*self.pairs.allocator(), &self.pairs)
    }
}

// Puts the pairs in the order of their keys, and then of their values.
#[tactic(auto, using(crate::proofs::SortLemmas::sorted_pairs))]
fn sort_pairs(pairs: &mut Vec<(String, String)>)
    ensures { map string_pair pairs.new.items ≡ sorted (map string_pair pairs.old.items) }
{
    pairs.sort_unstable();
}

// The pairs as `key=value` with `&` between.
fn join_pairs(alloc: Global, pairs: &[(String, String)]) -> Mem<String>
    ensures { IfOk result (λ text. string_bytes text ≡ joined_pairs (map string_pair pairs.now)) }
{
    let mut text = String::new(alloc);
    for (i, pair) in pairs.iter().enumerate() {
        push_pair(&mut text, i == 0, pair)?;
    }
    Ok(text)
}

// Appends the pair, after `&` where it isn't the first.
fn push_pair(text: &mut String, is_first: bool, pair: &(String, String)) -> Mem<()>
    ensures { OnOk result (string_bytes text.new ≡ string_bytes text.old ++ (pair_separator is_first ++ pair_text (string_pair pair.now))) }
{
    if !is_first {
        text.push('&')?;
    }
    text.push_str(pair.0.as_str())?;
    text.push('=')?;
    text.push_str(pair.1.as_str())?;
    Ok(())
}
