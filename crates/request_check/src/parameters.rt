ghost use Rattle.std.specs.Prelude.{◌≡◌, ◌++◌, [], ◌∷◌, IfOk, OnOk, option_copied};
ghost use Rattle.smithy_core.specs.TextPairs.{first_value, text_pairs};
ghost use Rattle.smithy_http.specs.QueryWriter.{ParsesUri};
ghost use Rattle.smithy_http.specs.Target.{target_of};
ghost use Rattle.sigv4.specs.Query.{decoded, decoded_pairs};
ghost use Rattle.request_check.specs.Carried.{SpellsMaybe};

use http_uri::Uri;
use smithy_core::Mem;
use smithy_http::UriFault;
use std::alloc::{AllocError, Global};

/// The URI that the text spells, where it spells one.
pub(crate) fn spelled_uri(alloc: Global, text: &str) -> Mem<Option<Uri>>
    ensures { IfOk result (SpellsMaybe text.now) }
{
    match parse(alloc, text) {
        Ok(uri) => Ok(Some(uri)),
        Err(UriFault::InvalidUri) => Ok(None),
        Err(UriFault::NoMemory) => Err(AllocError),
    }
}

fn parse(alloc: Global, text: &str) -> Result<Uri, UriFault>
    ensures { ParsesUri text.now result }
{
    Ok(Uri::from_str(alloc, text)?)
}

/// The pairs of a target's query, as form decoding gives them.
pub fn query_pairs(alloc: Global, uri: &Uri) -> Mem<Vec<(String, String)>>
    ensures { IfOk result (λ pairs. text_pairs pairs.items ≡ decoded (target_of uri.now)) }
{
    decoded_pairs(alloc, uri.query().unwrap_or(""))
}

// The pairs that form decoding gives of a query.
fn decoded_pairs(alloc: Global, query: &str) -> Mem<Vec<(String, String)>>
    ensures { IfOk result (λ pairs. text_pairs pairs.items ≡ decoded_pairs query.now) }
{
    let mut pairs = Vec::new(alloc);
    for pair in form_urlencoded::parse(alloc, query.as_bytes()) {
        let (key, value) = pair?;
        push_pair(&mut pairs, key.as_str(), value.as_str())?;
    }
    Ok(pairs)
}

fn push_pair(pairs: &mut Vec<(String, String)>, key: &str, value: &str) -> Mem<()>
    ensures { OnOk result (text_pairs pairs.new.items ≡ text_pairs pairs.old.items ++ (key.now, value.now) ∷ []) }
{
    let alloc = *pairs.allocator();
    let key = String::from_str(alloc, key)?;
    let value = String::from_str(alloc, value)?;
    pairs.push((key, value))?;
    Ok(())
}

/// The value of the first pair of a key.
pub(crate) fn first_value<'a>(pairs: &'a [(String, String)], key: &str) -> Option<&'a str>
    ensures { option_copied result ≡ first_value (text_pairs pairs.now) key.now }
{
    for (name, value) in pairs {
        if name.as_str() == key {
            return Some(value.as_str());
        }
    }
    None
}
