ghost use Rattle.std.specs.Prelude.{◌≡◌, ◌↔◌, IfSome, IsTrue, None, false, length, option_map};
ghost use Rattle.aws_chunked.specs.Body.{IsBodyClosed, IsNewBody, data_before, listed, parts_due, signed_by, total_of, trailers_due, trailers_from};
ghost use Rattle.aws_chunked.specs.Due.{StartsSigned, due};
ghost use Rattle.aws_chunked.specs.Lengths.{IsPassedLengthOf};
ghost use Rattle.aws_chunked.specs.Options.{counted, data_length, encoded_length, fitting};
ghost use Rattle.aws_chunked.specs.Passing.{filled_before, pieces_due, pieces_of};
ghost use Rattle.aws_chunked.specs.Text.{chunked_text, parts_of};
ghost use Rattle.aws_chunked.specs.declared.piece_engine.Sent.TheVariants as sent;

use crate::arrivals::Arrivals;
use crate::chunk_engine::ChunkEngine;
use crate::made_text::MadeText;
use crate::options::AwsChunkedBodyOptions;
use crate::phase::Phase;
use crate::piece_engine::{PieceEngine, Sent};
use bytes::Bytes;
use seg_buf::SegBuf;
use sigv4::SignChunk;
use smithy_core::{FrameSource, Mem};
use std::alloc::Global;

/// What a poll of a body answers.
#[derive(Drop)]
pub enum ChunkNext {
    /// Some bytes of the text.
    Frame(Bytes),
    /// Nothing has come yet.
    NotYet,
    /// This call took 65,536 frames without data. The next one goes on.
    OutOfTurns,
    /// The text has ended, or the body is closed.
    End,
}

impl ChunkNext {
    ghost use Rattle.std.specs.Prelude.{IfOk};

    /// An equal answer, which shares its bytes.
    pub fn try_clone(&self) -> Mem<ChunkNext>
        ensures { IfOk result (λ copy. copy ≡ self.now) }
    {
        Ok(match self {
            ChunkNext::Frame(bytes) => ChunkNext::Frame(bytes.clone()?),
            ChunkNext::NotYet => ChunkNext::NotYet,
            ChunkNext::OutOfTurns => ChunkNext::OutOfTurns,
            ChunkNext::End => ChunkNext::End,
        })
    }
}

/// A body in the encoding aws-chunked, over a source of frames. Use one of its two polls for a body, and not both.
pub struct AwsChunkedBody<F, G> {
    pub(crate) alloc: Global,
    pub(crate) options: AwsChunkedBodyOptions,
    pub(crate) source: F,
    // What has come of the source.
    pub(crate) came: Arrivals,
    // The text for HTTP 1.x.
    pub(crate) chunks: ChunkEngine<G>,
    // The text for HTTP 0.x.
    pub(crate) pieces: PieceEngine,
}

// Written out: a derived drop would be taken apart in the proof of each function that drops one.
impl<F: Drop, G: Drop> Drop for AwsChunkedBody<F, G> {
    fn drop(self) {
        let AwsChunkedBody {
            alloc: _,
            options,
            source,
            came,
            chunks,
            pieces: _,
        } = self;
        drop(options);
        drop(source);
        drop(came);
        drop(chunks);
    }
}

impl<F: FrameSource, G: SignChunk> AwsChunkedBody<F, G> {
    /// The body of a source, of which nothing was taken.
    pub fn new(alloc: Global, body: F, options: AwsChunkedBodyOptions) -> AwsChunkedBody<F, G>
        ensures starts { IsNewBody body options result }
        ensures due { options.is_signed ≡ false → due F.FrameSource G.SignChunk result
            ≡ option_map (λ frames. chunked_text options.chunk_size (data_before frames) (listed (trailers_from None frames))) (F.FrameSource.left body) }
        ensures parts { parts_due F.FrameSource result
            ≡ option_map (λ frames. parts_of options.chunk_size (data_before frames) (listed (trailers_from None frames))) (F.FrameSource.left body) }
        ensures pieces { pieces_due F.FrameSource result
            ≡ option_map (λ frames. pieces_of sent.Nothing options.stream_length (filled_before frames) (listed (trailers_from None frames))) (F.FrameSource.left body) }
        ensures trailers { trailers_due F.FrameSource result ≡ option_map (trailers_from None) (F.FrameSource.left body) }
        ensures total { total_of F.FrameSource result ≡ option_map (λ frames. counted (length (data_before frames))) (F.FrameSource.left body) }
    {
        AwsChunkedBody {
            alloc,
            options,
            source: body,
            came: Arrivals {
                phase: Phase::Data,
                taken: 0,
                trailers: None,
            },
            chunks: ChunkEngine {
                signer: None,
                held: SegBuf::new(alloc),
                ready: MadeText::new(alloc),
            },
            pieces: PieceEngine {
                sent: Sent::Nothing,
            },
        }
    }
}

impl<F, G> AwsChunkedBody<F, G> {
    /// Whether all was answered, or there was a fault.
    pub fn is_end_stream(&self) -> bool
        ensures { IsTrue result ↔ IsBodyClosed self.now }
    {
        self.came.phase == Phase::Closed && self.chunks.ready.is_empty()
    }

    /// How long the whole text for HTTP 1.x is ([`AwsChunkedBody::poll_frame`]), by the declared lengths, where the number fits.
    pub fn size_hint(&self) -> Option<u64>
        ensures { result ≡ fitting (encoded_length self.now.options) }
    {
        self.options.checked_encoded_length()
    }

    /// How long the whole text for HTTP 0.x is ([`AwsChunkedBody::poll_data`]), by the declared lengths, where the number fits.
    #[tactic(auto, using(crate::proofs::PassedLengthLemmas::passed_told))]
    pub fn data_size_hint(&self) -> Option<u64>
        ensures value { result ≡ fitting (data_length self.now.options) }
        ensures text { IfSome result (λ n. IsPassedLengthOf self.now.options n) }
    {
        self.options.checked_data_length()
    }
}

impl<F: FrameSource, G: SignChunk> AwsChunkedBody<F, G> {
    /// With this signer of chunks and trailers. A signed body that has taken nothing has the signed text due then.
    pub fn with_signer(self, signer: G) -> AwsChunkedBody<F, G>
        ensures signer { result ≡ signed_by signer self }
        ensures due { StartsSigned F.FrameSource G.SignChunk self result }
    {
        let mut body = self;
        body.chunks.signer = Some(signer);
        body
    }
}
