ghost use Rattle.std.specs.Prelude.{◌≡◌, ◌<◌, ◌↔◌, ◌++◌, IfOk, IsTrue, OnOk, codes, length, map, option_copied};
ghost use Rattle.smithy_core.specs.TextPairs.{lower_name};
ghost use Rattle.aws_chunked.specs.Decoded.{IsSignature};
ghost use Rattle.aws_chunked.specs.Rests.{ReadsTail, one_or_none, signature_texts};
ghost use Rattle.aws_chunked.specs.TailRests.{SplitsSignature};

use crate::X_AMZ_TRAILER_SIGNATURE;
use crate::decode::expecting::expect;
use crate::decode::fault::{PartFault, bad_at};
use crate::decode::trailer_lines::read_lines;
use crate::text::CRLF;
use sigv4::parts::is_signature;
use smithy_core::{Headers, Mem};
use std::alloc::Global;

// Reads the trailers and the end of the text, behind which nothing stands. The last trailer of a signed text is the signature of the
// others, which goes behind those of the chunks.
pub(crate) fn read_trailers(
    alloc: Global,
    bytes: &[u8],
    is_signed: bool,
    signatures: &mut Vec<String>,
) -> Result<Headers, PartFault>
    ensures { ReadsTail is_signed bytes.now (signature_texts signatures.old.items) (signature_texts signatures.new.items) result }
{
    let (lines, rest) = read_lines(alloc, bytes)?;
    let Some((trailers, signature)) = split_signature(is_signed, lines.as_slice()) else {
        return Err(bad_at(rest));
    };
    push_signature(alloc, signatures, signature)?;
    let rest = expect(rest, CRLF)?;
    if !rest.is_empty() {
        return Err(bad_at(rest));
    }
    Ok(headers_of(alloc, trailers)?)
}

// Puts the signature of the trailers behind those of the chunks, where there is one.
fn push_signature(alloc: Global, signatures: &mut Vec<String>, signature: Option<&str>) -> Mem<()>
    ensures { OnOk result (signature_texts signatures.new.items ≡ signature_texts signatures.old.items ++ one_or_none (option_copied signature.entry)) }
{
    if let Some(signature) = signature {
        signatures.push(String::from_str(alloc, signature)?)?;
    }
    Ok(())
}

// The trailers, and their signature, which stands behind those of a signed text, where there are some.
fn split_signature<'a, 'b>(
    is_signed: bool,
    lines: &'b [(&'a str, &'a str)],
) -> Option<(&'b [(&'a str, &'a str)], Option<&'a str>)>
    ensures { SplitsSignature is_signed lines.now result }
{
    let Some((last, trailers)) = lines.split_last() else {
        return Some((lines, None));
    };
    if !is_signed {
        return Some((lines, None));
    }
    if signs(last.0, last.1, trailers) {
        Some((trailers, Some(last.1)))
    } else {
        None
    }
}

// Whether a line of this name and value is the signature of the trailers.
fn signs(name: &str, value: &str, trailers: &[(&str, &str)]) -> bool
    ensures { IsTrue result ↔ ((0 < length trailers.now) × (name.now ≡ codes "x-amz-trailer-signature") × IsSignature value.now) }
{
    !trailers.is_empty() && name == X_AMZ_TRAILER_SIGNATURE && is_signature(value)
}

// The trailers, which have their names in lower case.
fn headers_of(alloc: Global, lines: &[(&str, &str)]) -> Mem<Headers>
    ensures { IfOk result (λ headers. headers ≡ map lower_name lines.now) }
{
    let mut trailers = Headers::new(alloc);
    for (name, value) in lines {
        trailers.append(name, value)?;
    }
    Ok(trailers)
}
