ghost use Rattle.std.specs.Prelude.{◌≡◌, ◌+◌, ◌-◌, ◌<◌, ◌≤◌, ◌^◌, ◌∷◌, ◌++◌, ◌↔◌, [], IfOk, IfSome, IsTrue, false, length, min};
ghost use Rattle.aws_chunked.specs.Lengths.{IsLengthOf};
ghost use Rattle.aws_chunked.specs.Options.{IsChunkSize, chunk_length, chunks_length, counted, data_length, declared_length, encoded_length, fitting, head_length, last_length, no_chunks, options_of};
ghost use Rattle.aws_chunked.specs.Text.{length_text};

use smithy_core::Mem;
use std::alloc::Global;
use std::marker::Model;

/// How many bytes a chunk has, unless another number is set.
const DEFAULT_CHUNK_SIZE: usize = 65_536;

/// How long the signature behind a chunk's length is: `;chunk-signature=` and 64 digits.
const SIGNATURE_LENGTH: u64 = 81;

/// How a body is encoded: the lengths of its data and of its trailers, which are declared before they come, the size of a chunk,
/// and whether chunks are signed.
///
/// Contracts see these `Options`.
#[derive(Debug, Drop)]
pub struct AwsChunkedBodyOptions {
    stream_length: u64,
    trailer_lengths: Vec<u64>,
    chunk_size: usize,
    disabled: bool,
    is_signed: bool,
}

impl Model for AwsChunkedBodyOptions {
    ghost use Rattle.aws_chunked.specs.Options.{IsChunkSize, Options};

    ghost Value = { Options };

    ghost view = { λ o. record {
      stream_length = o.stream_length;
      trailer_lengths = o.trailer_lengths.items;
      chunk_size = o.chunk_size;
      disabled = o.disabled;
      is_signed = o.is_signed;
    } };

    ghost invariant = { λ o. IsChunkSize o.chunk_size };
}

impl AwsChunkedBodyOptions {
    /// Unsigned chunks of 65,536 bytes, for data of this length and trailers of these lengths. The length of a trailer is that of
    /// `name:value`; in a signed body with trailers the 88 bytes of `x-amz-trailer-signature` are declared too.
    pub fn new(stream_length: u64, trailer_lengths: Vec<u64>) -> AwsChunkedBodyOptions
        ensures { result ≡ options_of stream_length trailer_lengths.items }
    {
        AwsChunkedBodyOptions {
            stream_length,
            trailer_lengths,
            chunk_size: DEFAULT_CHUNK_SIZE,
            disabled: false,
            is_signed: false,
        }
    }

    /// The encoding is off.
    pub fn disable_chunked_encoding(alloc: Global) -> AwsChunkedBodyOptions
        ensures { result ≡ no_chunks }
    {
        AwsChunkedBodyOptions {
            disabled: true,
            ..AwsChunkedBodyOptions::new(0, Vec::new(alloc))
        }
    }

    /// With chunks of this size, which has to be 1 to 4,294,967,295 bytes. Amazon S3 takes none under 8,192 bytes but the last.
    pub fn with_chunk_size(self, n: usize) -> AwsChunkedBodyOptions
        requires { IsChunkSize n }
        ensures { result ≡ record self { chunk_size = n } }
    {
        AwsChunkedBodyOptions {
            chunk_size: n,
            ..self
        }
    }

    /// With data of this length.
    pub fn with_stream_length(self, n: u64) -> AwsChunkedBodyOptions
        ensures { result ≡ record self { stream_length = n } }
    {
        AwsChunkedBodyOptions {
            stream_length: n,
            ..self
        }
    }

    /// With one more trailer, of this length.
    pub fn with_trailer_len(self, n: u64) -> Mem<AwsChunkedBodyOptions>
        ensures { IfOk result (λ options. options ≡ record self { trailer_lengths = self.trailer_lengths ++ n ∷ [] }) }
    {
        let AwsChunkedBodyOptions {
            stream_length,
            mut trailer_lengths,
            chunk_size,
            disabled,
            is_signed,
        } = self;
        trailer_lengths.push(n)?;
        Ok(AwsChunkedBodyOptions {
            stream_length,
            trailer_lengths,
            chunk_size,
            disabled,
            is_signed,
        })
    }

    /// With signed chunks, or with unsigned ones. Nothing here compares this with what the request's head announces: behind a
    /// head that was signed for signed chunks a body without this call has plain ones, which a service refuses.
    pub fn signed_chunked_encoding(self, is_signed: bool) -> AwsChunkedBodyOptions
        ensures { result ≡ record self { is_signed = is_signed } }
    {
        AwsChunkedBodyOptions { is_signed, ..self }
    }

    /// How many bytes a chunk has.
    pub fn chunk_size(&self) -> usize
        ensures value { result ≡ self.now.chunk_size }
        ensures range { IsChunkSize self.now.chunk_size }
    {
        self.chunk_size
    }

    /// Whether the encoding is off.
    pub fn disabled(&self) -> bool
        ensures { result ≡ self.now.disabled }
    {
        self.disabled
    }

    /// Whether no trailer is declared.
    pub fn is_trailer_empty(&self) -> bool
        ensures { IsTrue result ↔ (self.now.trailer_lengths ≡ []) }
    {
        self.trailer_lengths.is_empty()
    }

    // The declared length of the data.
    pub(crate) fn stream_length(&self) -> u64
        ensures { result ≡ self.now.stream_length }
    {
        self.stream_length
    }

    // Whether chunks are signed.
    pub(crate) fn is_signed(&self) -> bool
        ensures { result ≡ self.now.is_signed }
    {
        self.is_signed
    }

    /// Equal options.
    pub fn try_clone(&self) -> Mem<AwsChunkedBodyOptions>
        ensures { IfOk result (λ copy. copy ≡ self.now) }
    {
        Ok(AwsChunkedBodyOptions {
            trailer_lengths: self.trailer_lengths.clone()?,
            stream_length: self.stream_length,
            chunk_size: self.chunk_size,
            disabled: self.disabled,
            is_signed: self.is_signed,
        })
    }
}

impl AwsChunkedBodyOptions {
    /// How long the text is, for data and trailers of the declared lengths. The number has to fit 64 bits; where that isn't known,
    /// [`checked_encoded_length`](Self::checked_encoded_length) has no condition.
    pub fn encoded_length(&self) -> u64
        requires { encoded_length self.now < 2 ^ 64 }
        ensures value { result ≡ encoded_length self.now }
        ensures text { self.now.is_signed ≡ false → IsLengthOf self.now result }
    {
        self.checked_encoded_length().unwrap()
    }

    /// How long the text is, for data and trailers of the declared lengths, and none exactly where the number doesn't fit 64 bits.
    #[tactic(auto, unfolding(crate::specs::Options::encoded_length))]
    pub fn checked_encoded_length(&self) -> Option<u64>
        ensures value { result ≡ fitting (encoded_length self.now) }
        ensures text { IfSome result (λ n. self.now.is_signed ≡ false → IsLengthOf self.now n) }
    {
        let declared = self.declared_length();
        u64::try_from(self.chunks_length().saturating_add(declared)).ok()
    }

    // How long the text of the other form is, in which data is passed on as it comes, where the number fits 64 bits.
    #[tactic(auto, unfolding(crate::specs::Options::data_length))]
    pub(crate) fn checked_data_length(&self) -> Option<u64>
        ensures { result ≡ fitting (data_length self.now) }
    {
        let data = last_length(false, self.stream_length) + head_length(false, 0);
        u64::try_from((data + 2).saturating_add(self.declared_length())).ok()
    }

    // How long the text is without trailers.
    fn chunks_length(&self) -> u128
        ensures value { result ≡ chunks_length self.now }
        ensures bound { result < 2 ^ 100 }
        ensures size { IsChunkSize self.now.chunk_size }
    {
        let size = self.chunk_size as u64;
        let full = (self.stream_length / size) as u128 * chunk_length(self.is_signed, size);
        let last = last_length(self.is_signed, self.stream_length % size);
        full + last + head_length(self.is_signed, 0) + 2
    }

    // The declared lengths of the trailers, each with its CRLF, counted up to the greatest number.
    fn declared_length(&self) -> u128
        ensures { result ≡ min (declared_length self.now.trailer_lengths) (2 ^ 128 - 1) }
    {
        let mut sum: u128 = 0;
        for length in &self.trailer_lengths {
            sum = sum.saturating_add(*length as u128 + 2);
        }
        sum
    }

    // The same, counted up to the greatest number of 64 bits.
    pub(crate) fn expected_length(&self) -> u64
        ensures { result ≡ counted (declared_length self.now.trailer_lengths) }
    {
        u64::try_from(self.declared_length()).unwrap_or(u64::MAX)
    }
}

// How long a last chunk of so many bytes is, which there is where some are left.
fn last_length(is_signed: bool, n: u64) -> u128
    ensures value { result ≡ last_length is_signed n }
    ensures bound { result < 2 ^ 65 }
{
    if n == 0 {
        0
    } else {
        chunk_length(is_signed, n)
    }
}

// How long a chunk of data is.
fn chunk_length(is_signed: bool, n: u64) -> u128
    ensures value { result ≡ chunk_length is_signed n }
    ensures bound { result ≤ n + 101 }
{
    head_length(is_signed, n) + n as u128 + 2
}

// How long the line before a chunk is.
fn head_length(is_signed: bool, n: u64) -> u128
    ensures value { result ≡ head_length is_signed n }
    ensures bound { result ≤ 99 }
{
    let signature = if is_signed { SIGNATURE_LENGTH } else { 0 };
    hexadecimal_digits(n) as u128 + signature as u128 + 2
}

// How many hexadecimal digits a number has.
#[tactic(auto, using(crate::proofs::DigitLemmas::counts_one, crate::proofs::DigitLemmas::counts_more, crate::proofs::DigitLemmas::counts_all))]
fn hexadecimal_digits(n: u64) -> u32
    ensures value { result ≡ length (length_text n) }
    ensures bound { result ≤ 16 }
{
    let mut count = 1;
    let mut rest = n / 16;
    while rest > 0 {
        count += 1;
        rest /= 16;
    }
    count
}
