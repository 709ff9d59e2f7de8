ghost use Rattle.std.specs.Prelude.{◌≡◌, ◌+◌, OnOk, Some};
ghost use Rattle.aws_chunked.specs.Body.{HasLength, HasTrailerLengthsAlways, HasTrailerLengthsIfAny, actual_length, with_frame};
ghost use Rattle.aws_chunked.specs.Options.{counted};
ghost use Rattle.aws_chunked.specs.declared.phase.Phase.TheVariants as phase;

use crate::error::AwsChunkedBodyError;
use crate::options::AwsChunkedBodyOptions;
use crate::phase::Phase;
use crate::signing::has_signature;
use crate::trailers::{lines_length, with_frame};
use smithy_core::{Headers, Mem};
use std::alloc::Global;

/// How long the line of the trailers' signature is, with its CRLF.
const SIGNATURE_LINE: u64 = 90;

/// What has come of a source.
pub(crate) struct Arrivals {
    // How far the body has come.
    pub(crate) phase: Phase,
    // How many bytes of data were taken.
    pub(crate) taken: u64,
    // The trailers so far, once some came.
    pub(crate) trailers: Option<Headers>,
}

// Written out: a derived drop would be taken apart in the proof of each function that drops one.
impl Drop for Arrivals {
    fn drop(self) {
        let Arrivals {
            phase: _,
            taken: _,
            trailers,
        } = self;
        drop(trailers);
    }
}

impl Arrivals {
    // Counts so many bytes of data more.
    pub(crate) fn count(&mut self, more: usize)
        ensures { self.new ≡ record self.old { taken = counted (self.old.taken + more) } }
    {
        self.taken = self.taken.saturating_add(more as u64);
    }

    // Keeps trailers, with which the data ends.
    pub(crate) fn take_trailers(&mut self, alloc: Global, trailers: Headers) -> Mem<()>
        ensures ok { OnOk result (self.new ≡ record self.old { phase = phase.Trailers; trailers = Some (with_frame self.old.trailers trailers) }) }
        ensures others { self.new ≡ record self.old { phase = phase.Trailers; trailers = self.new.trailers } }
    {
        self.phase = Phase::Trailers;
        let kept = self.trailers.take();
        self.trailers = Some(with_frame(alloc, kept, trailers)?);
        Ok(())
    }
}

impl Arrivals {
    // Compares the length of the data with the declared one.
    pub(crate) fn test_stream_length(
        &self,
        options: &AwsChunkedBodyOptions,
    ) -> Result<(), AwsChunkedBodyError>
        ensures { HasLength self.now options.now result }
    {
        let expected = options.stream_length();
        if self.taken == expected {
            return Ok(());
        }
        Err(AwsChunkedBodyError::StreamLengthMismatch {
            actual: self.taken,
            expected,
        })
    }

    // Compares the lengths of the trailers' lines with the declared ones, where trailers came: so for HTTP 1.x.
    pub(crate) fn test_trailer_lengths_if_any(
        &self,
        options: &AwsChunkedBodyOptions,
    ) -> Result<(), AwsChunkedBodyError>
        ensures { HasTrailerLengthsIfAny self.now options.now result }
    {
        let Some(trailers) = &self.trailers else {
            return Ok(());
        };
        let actual = signed_length(options.is_signed(), trailers);
        let expected = options.expected_length();
        if actual == expected {
            return Ok(());
        }
        Err(AwsChunkedBodyError::ReportedTrailerLengthMismatch { actual, expected })
    }

    // Compares the lengths of the trailers' lines with the declared ones, also where no trailers came: so for HTTP 0.x.
    pub(crate) fn test_trailer_lengths_always(
        &self,
        options: &AwsChunkedBodyOptions,
    ) -> Result<(), AwsChunkedBodyError>
        ensures { HasTrailerLengthsAlways self.now options.now result }
    {
        let actual = match &self.trailers {
            Some(trailers) => lines_length(trailers),
            None => 0,
        };
        let expected = options.expected_length();
        if actual == expected {
            return Ok(());
        }
        Err(AwsChunkedBodyError::ReportedTrailerLengthMismatch { actual, expected })
    }
}

// How long the lines of trailers are, with that of their signature, where chunks are signed and there are some.
pub(crate) fn signed_length(is_signed: bool, trailers: &Headers) -> u64
    ensures { result ≡ counted (actual_length is_signed trailers.now) }
{
    let lines = lines_length(trailers);
    if has_signature(is_signed, trailers) {
        lines.saturating_add(SIGNATURE_LINE)
    } else {
        lines
    }
}
