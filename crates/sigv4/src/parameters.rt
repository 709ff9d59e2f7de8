ghost use Rattle.std.specs.Prelude.{◌≡◌, ◌<◌, ℕ, List, OnOk};
ghost use Rattle.smithy_core.specs.TextPairs.{text_pairs};
ghost use Rattle.smithy_http.specs.QueryWriter.{BuildsText, SpellsTarget};
ghost use Rattle.smithy_http.specs.Target.{target_of};
ghost use Rattle.sigv4.specs.Parameters.{Retargets, with_params};

use crate::error::SigningError;
use http_uri::Uri;
use smithy_core::Mem;
use smithy_http::{QueryWriter, UriFault};
use std::alloc::Global;

/// The text of a target with more parameters, or nothing where there are none and it stays.
pub(crate) fn target_with(
    alloc: Global,
    uri: &Uri,
    params: &[(String, String)],
) -> Result<Option<String>, SigningError>
    ensures { (old : List ℕ) → SpellsTarget old uri.now → Retargets (text_pairs params.now) (target_of uri.now) old result }
{
    if params.is_empty() {
        return Ok(None);
    }
    Ok(Some(text_with(alloc, uri, params)?))
}

// The text of a target with more parameters.
fn text_with(alloc: Global, uri: &Uri, params: &[(String, String)]) -> Result<String, UriFault>
    ensures { BuildsText (with_params (target_of uri.now) (text_pairs params.now)) result }
{
    let mut writer = QueryWriter::new(alloc, uri)?;
    insert_params(&mut writer, params)?;
    writer.build_text()
}

fn insert_params(writer: &mut QueryWriter, params: &[(String, String)]) -> Mem<()>
    ensures { OnOk result (writer.new ≡ with_params writer.old (text_pairs params.now)) }
{
    for (key, value) in params {
        writer.insert(key.as_str(), value.as_str())?;
    }
    Ok(())
}
