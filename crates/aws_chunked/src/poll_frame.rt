ghost use Rattle.std.specs.Prelude.{◌≡◌, ◌<◌, ◌≤◌, ◌+◌, ◌^◌, [], length, OnErr, Ok};
ghost use Rattle.aws_chunked.specs.Body.{AnswersFrame, AreTurns, Gathers, MayReadOn, HasCause, IsBodyClosed, IsBodyOpen, IsCompared, MakesEnd, MakesNextChunk, PullsFrame, HasTextOrStops, StaysClosed, TakesDue, TakesIdleFrames, TestsPart, held_after, held_bytes, idle_in, ready_bytes, with_data};
ghost use Rattle.aws_chunked.specs.Due.{due};
ghost use Rattle.aws_chunked.specs.declared.body.ChunkNext.TheVariants as next;
ghost use Rattle.aws_chunked.specs.declared.phase.Phase.TheVariants as phase;

use crate::body::{AwsChunkedBody, ChunkNext};
use crate::error::AwsChunkedBodyError;
use crate::phase::Phase;
use crate::stop::Stop;
use bytes::Bytes;
use sigv4::SignChunk;
use smithy_core::{FrameSource, Polled};

/// How many frames without data a call takes at most.
pub(crate) const MOST_IDLE: u32 = 65_536;

impl<F: FrameSource, G: SignChunk> AwsChunkedBody<F, G> {
    /// The next bytes of the text in the form for HTTP 1.x: chunks of the size that is set, whatever the pieces in which the data
    /// comes, an empty one, the trailers, and an empty line.
    ///
    /// [`ChunkNext::NotYet`] comes only where the source waited, and only while less than a chunk is held; where the data has ended
    /// its length was compared then. [`ChunkNext::OutOfTurns`] comes where this call took 65,536 frames without data, of which each
    /// frame after the first trailers counts as one. Data after the first trailers is ignored. A closed body answers
    /// [`ChunkNext::End`], and stays as it is.
    ///
    /// The first frame of trailers is kept as it is. Each trailer of a further frame is looked up among all trailers so far, so that
    /// n trailers in further frames take some n² steps: a source that hands on a stranger's trailers bounds their number. Names and
    /// values of trailers are written as they are, CR and LF in them too: [`sigv4::parts::test_headers`] says whether a stranger's
    /// are those of headers.
    ///
    /// # Errors
    ///
    /// The body is closed after each of them.
    /// - [`AwsChunkedBodyError::StreamLengthMismatch`] where the data has ended, all of it was answered, and its length isn't the
    ///   declared one;
    /// - [`AwsChunkedBodyError::ReportedTrailerLengthMismatch`] where the source has ended after trailers, and their lines
    ///   don't have the declared lengths;
    /// - [`AwsChunkedBodyError::FailedToSign`] where the signer refuses, or a signed body has none; at the end of the text only
    ///   where all lengths are the declared ones;
    /// - [`AwsChunkedBodyError::SourceFault`] where the source failed.
    pub fn poll_frame(&mut self) -> Result<ChunkNext, AwsChunkedBodyError>
        ensures due { TakesDue (due F.FrameSource G.SignChunk self.old) (due F.FrameSource G.SignChunk self.new) result }
        ensures answers { AnswersFrame F.FrameSource G.SignChunk self.old self.new result }
        ensures cause { HasCause F.FrameSource G.SignChunk self.old self.new result }
        ensures turns { TakesIdleFrames F.FrameSource (AreTurns result) self.old self.new }
        ensures closed { OnErr result (IsBodyClosed self.new) }
        ensures end { result ≡ Ok next.End → IsBodyClosed self.new }
        ensures stays { StaysClosed self.old self.new result }
    {
        if self.is_end_stream() {
            return Ok(ChunkNext::End);
        }
        match self.fill() {
            Ok(()) => Ok(ChunkNext::Frame(self.chunks.take_ready())),
            Err(stop) => self.stopped(stop),
        }
    }

    // Makes text, where none is ready, or says why none can be made.
    fn fill(&mut self) -> Result<(), Stop>
        requires { IsBodyClosed self.old → ⊥ }
        ensures { HasTextOrStops F.FrameSource G.SignChunk self.old self.new result }
    {
        if !self.chunks.ready.is_empty() {
            return Ok(());
        }
        self.gather()?;
        Ok(self.make()?)
    }

    // Takes frames until a part of the text can be made.
    fn gather(&mut self) -> Result<(), Stop>
        requires { IsBodyOpen self.old }
        ensures { Gathers F.FrameSource self.old self.new result }
    {
        let mut idle = 0;
        'frames: while idle < MOST_IDLE {
            if self.is_at_hand()? {
                return Ok(());
            }
            idle += self.pull()?;
        }
        Err(Stop::OutOfTurns)
    }

    // Whether a part can be made: a whole chunk, the last one, or the end of the text. Before the end the length of the data is
    // compared.
    fn is_at_hand(&self) -> Result<bool, AwsChunkedBodyError>
        requires { IsBodyOpen self.now }
        ensures { TestsPart self.now result }
    {
        let held = self.chunks.held.remaining();
        let size = self.options.chunk_size();
        match self.came.phase {
            Phase::Data => Ok(held >= size),
            Phase::Closed => unreachable!(),
            _ if held > 0 => Ok(true),
            Phase::Trailers => {
                self.came.test_stream_length(&self.options)?;
                Ok(false)
            }
            Phase::Ended => {
                self.came.test_stream_length(&self.options)?;
                Ok(true)
            }
        }
    }

    // Takes a frame of the source, and returns how many frames without data it took: one or none.
    fn pull(&mut self) -> Result<u32, Stop>
        requires short { length (held_bytes self.old) < self.old.options.chunk_size }
        requires bound { self.old.options.chunk_size ≤ 4294967295 }
        requires goes_on { MayReadOn self.old }
        requires compared { IsCompared self.old }
        ensures { PullsFrame F.FrameSource self.old self.new result }
    {
        self.chunks.held.reserve_one()?;
        match self.source.poll_frame() {
            Polled::Data(piece) => Ok(self.take_data(piece)),
            Polled::Trailers(trailers) => {
                self.came.take_trailers(self.alloc, trailers)?;
                Ok(1)
            }
            Polled::NotYet => Err(Stop::NotYet),
            Polled::End => {
                self.came.phase = Phase::Ended;
                Ok(0)
            }
            Polled::Failed => Err(Stop::Fault(AwsChunkedBodyError::SourceFault)),
            Polled::NoMemory => Err(Stop::Fault(AwsChunkedBodyError::NoMemory)),
        }
    }

    // Makes the part that is at hand.
    fn make(&mut self) -> Result<(), AwsChunkedBodyError>
        requires { ready_bytes self.old ≡ [] }
        ensures chunk { 0 < length (held_bytes self.old) → MakesNextChunk G.SignChunk self.old self.new result }
        ensures tail { held_bytes self.old ≡ [] → MakesEnd G.SignChunk self.old self.new result }
    {
        if self.chunks.held.remaining() > 0 {
            return self.chunks.make_chunk(self.alloc, &self.options);
        }
        self.chunks
            .make_tail(self.alloc, &self.options, &self.came)?;
        self.came.phase = Phase::Closed;
        Ok(())
    }
}

impl<F, G> AwsChunkedBody<F, G> {
    // Holds data, and counts it; after the first trailers it is ignored. Tells how many frames without data that is.
    fn take_data(&mut self, piece: Bytes) -> u32
        requires room { 1 ≤ self.old.chunks.held.spare }
        requires fits { length (held_bytes self.old) + length piece < 2 ^ 64 }
        ensures taken { self.new ≡ record (with_data self.old piece) { chunks = record self.old.chunks { held = self.new.chunks.held } } }
        ensures held { held_bytes self.new ≡ held_after self.old.came.phase (held_bytes self.old) piece }
        ensures idle { result ≡ idle_in self.old.came.phase piece }
    {
        match self.came.phase {
            Phase::Data => {
                let idle = idle_in(&piece);
                self.came.count(piece.len());
                self.chunks.held.push(piece);
                idle
            }
            _ => 1,
        }
    }
}

// How many frames without data a piece is: one where it is empty.
fn idle_in(piece: &Bytes) -> u32
    ensures { result ≡ idle_in phase.Data piece.now }
{
    if piece.is_empty() { 1 } else { 0 }
}
