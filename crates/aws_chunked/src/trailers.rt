ghost use Rattle.std.specs.Prelude.{◌≡◌, IfOk, OnOk, length};
ghost use Rattle.smithy_core.specs.TextPairs.{lower};
ghost use Rattle.aws_chunked.specs.Body.{lines_length, merged, put_after, with_frame};
ghost use Rattle.aws_chunked.specs.Options.{counted};
ghost use Rattle.aws_chunked.specs.Text.{trailer_line};

use smithy_core::{Headers, Mem};
use std::alloc::Global;

// The trailers so far, if any came, with those of one more frame.
pub(crate) fn with_frame(alloc: Global, kept: Option<Headers>, trailers: Headers) -> Mem<Headers>
    ensures { IfOk result (λ all. all ≡ with_frame kept trailers) }
{
    match kept {
        Some(kept) => merged(alloc, kept, &trailers),
        None => Ok(trailers),
    }
}

// The trailers with those of a later frame: the first of a name replaces all of that name, and the further ones come behind. Each is
// looked up among all, so that n of them take n² steps.
fn merged(alloc: Global, mut kept: Headers, trailers: &Headers) -> Mem<Headers>
    ensures { IfOk result (λ all. all ≡ merged kept trailers.now) }
{
    let mut before = Headers::new(alloc);
    for (name, value) in trailers.iter() {
        put(&mut kept, &before, name, value)?;
        before.append(name, value)?;
    }
    Ok(kept)
}

// Puts a trailer in place of all trailers of its name, or behind them, where the name came before in its frame.
fn put(kept: &mut Headers, before: &Headers, name: &str, value: &str) -> Mem<()>
    ensures { OnOk result (kept.new ≡ put_after before.now kept.old (lower name.now) value.now) }
{
    if before.contains_key(name) {
        kept.append(name, value)
    } else {
        kept.insert(name, value)
    }
}

// How long the lines of the trailers are, counted up to the greatest number.
pub(crate) fn lines_length(trailers: &Headers) -> u64
    ensures { result ≡ counted (lines_length trailers.now) }
{
    let mut sum: u64 = 0;
    for (name, value) in trailers.iter() {
        sum = sum.saturating_add(line_length(name, value));
    }
    sum
}

// How long the line of a trailer is, counted up to the greatest number.
#[tactic(auto, using(crate::proofs::TrailerLemmas::line_length))]
fn line_length(name: &str, value: &str) -> u64
    ensures { result ≡ counted (length (trailer_line (name.now, value.now))) }
{
    let texts = (name.len() as u64).saturating_add(value.len() as u64);
    texts.saturating_add(3)
}
