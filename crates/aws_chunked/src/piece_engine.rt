//! Makes the text for HTTP 0.x: one chunk of the declared length, whose data is passed on as it comes, and the end.
ghost use Rattle.std.specs.Prelude.{◌≡◌, IfOk, OnErr, OnOk};
ghost use Rattle.aws_chunked.specs.Passing.{MakesEmptyChunk, MakesLastLines, PassesDataOn, length_line, piece_text, sent_after};

use crate::arrivals::Arrivals;
use crate::error::AwsChunkedBodyError;
use crate::options::AwsChunkedBodyOptions;
use crate::phase::Phase;
use crate::text::{head_text, last_lines, shared};
use bytes::Bytes;
use smithy_core::Mem;
use std::alloc::Global;

/// The end of the data's chunk, and the line of the empty one.
const EMPTY_CHUNK: &[u8] = b"\r\n0\r\n";

/// How much of the text was answered.
#[derive(Clone, Copy, Debug, PartialEq, Eq)]
pub(crate) enum Sent {
    /// Nothing.
    Nothing,
    /// The line of the declared length. Data is passed on.
    LengthLine,
    /// The line of the empty chunk. The trailers come.
    EmptyChunk,
}

/// How far the text is.
#[derive(Drop)]
pub(crate) struct PieceEngine {
    pub(crate) sent: Sent,
}

impl PieceEngine {
    // Makes the line of the declared length, which for no data is that of the empty chunk.
    pub(crate) fn make_length_line(&mut self, alloc: Global, length: u64) -> Mem<Bytes>
        ensures made { IfOk result (λ bytes. bytes ≡ piece_text (length_line length)) }
        ensures ok { OnOk result (self.new ≡ record { sent = sent_after length }) }
        ensures err { OnErr result (self.new ≡ self.old) }
    {
        let line = shared(head_text(alloc, length as usize, None)?)?;
        self.sent = sent_after(length);
        Ok(line)
    }

    // Makes the end of the data's chunk and the line of the empty one, once the length of the data was compared.
    pub(crate) fn make_empty_chunk(
        &mut self,
        options: &AwsChunkedBodyOptions,
        came: &Arrivals,
    ) -> Result<Bytes, AwsChunkedBodyError>
        ensures { MakesEmptyChunk options.now came.now self.old self.new result }
    {
        came.test_stream_length(options)?;
        self.sent = Sent::EmptyChunk;
        Ok(Bytes::from_static(EMPTY_CHUNK))
    }
}

// Makes the trailers and the empty line, once all lengths were compared.
pub(crate) fn make_last_lines(
    alloc: Global,
    options: &AwsChunkedBodyOptions,
    came: &Arrivals,
) -> Result<Bytes, AwsChunkedBodyError>
    ensures { MakesLastLines options.now came.now result }
{
    came.test_stream_length(options)?;
    came.test_trailer_lengths_always(options)?;
    Ok(shared(last_lines(alloc, came.trailers.as_ref(), None)?)?)
}

// Counts data and passes it on. After the first trailers it is ignored, and where none is declared none may come.
pub(crate) fn pass_data(
    options: &AwsChunkedBodyOptions,
    came: &mut Arrivals,
    piece: Bytes,
) -> Result<Option<Bytes>, AwsChunkedBodyError>
    ensures { PassesDataOn options.now came.old came.new piece result }
{
    if came.phase != Phase::Data || piece.is_empty() {
        return Ok(None);
    }
    came.count(piece.len());
    if options.stream_length() == 0 {
        came.test_stream_length(options)?;
    }
    Ok(Some(piece))
}

// How far the text is after the line of the declared length.
fn sent_after(length: u64) -> Sent
    ensures { result ≡ sent_after length }
{
    if length == 0 {
        Sent::EmptyChunk
    } else {
        Sent::LengthLine
    }
}
