ghost use Rattle.std.specs.Prelude.{◌≡◌, OnErr, Ok};
ghost use Rattle.aws_chunked.specs.Body.{AreTurns, IsBodyClosed, IsBodyOpen, StaysClosed};
ghost use Rattle.aws_chunked.specs.Passing.{AreIdleInStep, AreNoneTaken, AsksSource, TakesOnlyIdleFrames, PieceCauses, KeepsCountsUnsigned, AnswersPiece, TakesCountedFrames, Steps, TakesPiece};
ghost use Rattle.aws_chunked.specs.declared.body.ChunkNext.TheVariants as next;

use crate::body::{AwsChunkedBody, ChunkNext};
use crate::error::AwsChunkedBodyError;
use crate::phase::Phase;
use crate::piece_engine::{Sent, make_last_lines, pass_data};
use crate::poll_frame::MOST_IDLE;
use crate::stop::Stop;
use bytes::Bytes;
use smithy_core::{FrameSource, Polled};

impl<F: FrameSource, G> AwsChunkedBody<F, G> {
    /// The next piece of the text in the form for HTTP 0.x: one chunk of the declared length, whose data is passed on as it comes,
    /// an empty one, the trailers, and an empty line. Where no data is declared the empty chunk stands alone. Nothing is signed.
    ///
    /// The pieces are the line of the declared length, each piece of data that isn't empty, the end of the data with the line of the
    /// empty chunk, and the trailers with the empty line. [`ChunkNext::NotYet`] comes only where the source waited; where the data has
    /// ended its length was compared then. [`ChunkNext::OutOfTurns`] comes where this call took 65,536 frames without data, of which
    /// each frame after the first trailers counts as one. Data after the first trailers is ignored. A closed body answers
    /// [`ChunkNext::End`], and stays as it is. What [`AwsChunkedBody::poll_frame`] says of the time that trailers in further frames
    /// take, and of CR and LF in them, holds here too.
    ///
    /// # Errors
    ///
    /// The body is closed after each of them.
    /// - [`AwsChunkedBodyError::StreamLengthMismatch`] where the data has ended, all of it was answered, and its length isn't the
    ///   declared one; where none is declared, at the first data that isn't empty;
    /// - [`AwsChunkedBodyError::ReportedTrailerLengthMismatch`] where the source has ended, and the lines of the trailers don't
    ///   have the declared lengths;
    /// - [`AwsChunkedBodyError::SourceFault`] where the source failed.
    pub fn poll_data(&mut self) -> Result<ChunkNext, AwsChunkedBodyError>
        ensures takes { TakesPiece F.FrameSource self.old self.new result }
        ensures cause { PieceCauses F.FrameSource self.old self.new result }
        ensures turns { TakesCountedFrames F.FrameSource (AreTurns result) self.old self.new }
        ensures keeps { KeepsCountsUnsigned F.FrameSource self.old self.new }
        ensures closed { OnErr result (IsBodyClosed self.new) }
        ensures end { result ≡ Ok next.End → IsBodyClosed self.new }
        ensures stays { StaysClosed self.old self.new result }
    {
        if let Phase::Closed = self.came.phase {
            self.close();
            return Ok(ChunkNext::End);
        }
        match self.next_piece() {
            Ok(piece) => Ok(ChunkNext::Frame(piece)),
            Err(stop) => self.stopped(stop),
        }
    }

    // Takes frames until a piece of the text can be answered.
    fn next_piece(&mut self) -> Result<Bytes, Stop>
        requires { IsBodyOpen self.old }
        ensures { AnswersPiece F.FrameSource self.old self.new result }
    {
        for idle in 0..MOST_IDLE {
            if let Some(piece) = self.make_piece()? {
                return Ok(piece);
            }
            if let Some(piece) = self.pass_frame()? {
                return Ok(piece);
            }
        }
        Err(Stop::OutOfTurns)
    }

    // Takes a frame, and answers the piece that it brings: none where it has no data.
    fn pass_frame(&mut self) -> Result<Option<Bytes>, Stop>
        requires { AsksSource self.old }
        ensures { Steps F.FrameSource (TakesOnlyIdleFrames F.FrameSource 1 self.old self.new) AreIdleInStep self.old self.new result }
    {
        match self.source.poll_frame() {
            Polled::Data(piece) => Ok(pass_data(&self.options, &mut self.came, piece)?),
            Polled::Trailers(trailers) => {
                self.came.take_trailers(self.alloc, trailers)?;
                Ok(None)
            }
            Polled::NotYet => Err(Stop::NotYet),
            Polled::End => {
                self.came.phase = Phase::Ended;
                self.make_piece()
            }
            Polled::Failed => Err(Stop::Fault(AwsChunkedBodyError::SourceFault)),
            Polled::NoMemory => Err(Stop::Fault(AwsChunkedBodyError::NoMemory)),
        }
    }

    // Makes the piece for which no more frames are needed, if there is one.
    fn make_piece(&mut self) -> Result<Option<Bytes>, Stop>
        requires { IsBodyOpen self.old }
        ensures { Steps F.FrameSource (AsksSource self.old × (self.new ≡ self.old)) AreNoneTaken self.old self.new result }
    {
        match (self.pieces.sent, self.came.phase) {
            (Sent::Nothing, _) => {
                let length = self.options.stream_length();
                Ok(Some(self.pieces.make_length_line(self.alloc, length)?))
            }
            (_, Phase::Data) => Ok(None),
            (Sent::LengthLine, _) => {
                Ok(Some(self.pieces.make_empty_chunk(&self.options, &self.came)?))
            }
            (Sent::EmptyChunk, Phase::Trailers) => {
                self.came.test_stream_length(&self.options)?;
                Ok(None)
            }
            (Sent::EmptyChunk, Phase::Ended) => {
                let lines = make_last_lines(self.alloc, &self.options, &self.came)?;
                self.came.phase = Phase::Closed;
                Ok(Some(lines))
            }
            (Sent::EmptyChunk, Phase::Closed) => unreachable!(),
        }
    }
}
