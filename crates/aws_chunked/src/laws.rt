ghost use Rattle.std.specs.Prelude.{◌≡◌, ℕ, List, [], ◌∷◌, ◌++◌, length, IsOk, Ok, Option, Result, Some, true};
ghost use Rattle.std.specs.List.{AllByRecursion};
ghost use Rattle.smithy_core.specs.Moment.{Instant};
ghost use Rattle.eventstream.specs.Key.{Signer};
ghost use Rattle.aws_chunked.specs.Body.{Trailer, actual_length};
ghost use Rattle.aws_chunked.specs.Decoded.{Decodes, DecodesOnly, IsTextOf, IsTrailer};
ghost use Rattle.aws_chunked.specs.Due.{signed_chunked_text, chunk_signatures};
ghost use Rattle.aws_chunked.specs.Laws.{AnswersDecoded, IsSignedLengthOf, TakeDue, answered_bytes};
ghost use Rattle.aws_chunked.specs.Lengths.{IsPassedLengthOf};
ghost use Rattle.aws_chunked.specs.Options.{IsChunkSize, Options, data_length, declared_length, encoded_length};
ghost use Rattle.aws_chunked.specs.Text.{chunked_text, pieces_of_size};
ghost use Rattle.aws_chunked.specs.declared.body.ChunkNext.{ChunkNext};
ghost use Rattle.aws_chunked.specs.declared.body.ChunkNext.TheVariants.{End};
ghost use Rattle.aws_chunked.specs.declared.decode.DecodeFault.{DecodeFault};
ghost use Rattle.aws_chunked.specs.declared.decode.Decoded.{Decoded};
ghost use Rattle.aws_chunked.specs.declared.error.AwsChunkedBodyError.{AwsChunkedBodyError};

/// Over calls of [`crate::AwsChunkedBody::poll_frame`] up to the end of the text, of which none failed, the frames make up the text that
/// was due.
#[tactic(auto, using(crate::proofs::SealedLawLemmas::all_answered))]
pub fn frames_make_up_the_text()
    ensures { (text : List ℕ) (results : List (Result ChunkNext AwsChunkedBodyError)) (last : Option (List ℕ)) → AllByRecursion IsOk results
        → TakeDue (Some text) (results ++ Ok End ∷ []) last → answered_bytes results ≡ text }
{}

/// The text of data and trailers without signatures, in chunks of any size, is a whole text, and says that data, no signatures and
/// those trailers, where their names and values are headers' with the names in lower case.
#[tactic(auto, using(crate::proofs::LawLemmas::unsigned_whole))]
pub fn texts_are_whole()
    ensures { (size : ℕ) (body : List ℕ) (trailers : List Trailer) → IsChunkSize size → AllByRecursion IsTrailer trailers
        → IsTextOf body [] trailers (chunked_text size body trailers) }
{}

/// What [`crate::decode_chunked`] answers of a whole text, signed or not, is its data, its signatures and its trailers, but where
/// memory ran out.
pub fn whole_texts_are_decoded()
    ensures { (bytes body : List ℕ) (signatures : List (List ℕ)) (trailers : List Trailer) (result : Result Decoded DecodeFault)
        → IsTextOf body signatures trailers bytes → Decodes bytes result → DecodesOnly bytes result → AnswersDecoded body signatures trailers result }
{}

/// The text for HTTP 0.x is as long as its options say ([`crate::AwsChunkedBody::data_size_hint`]): for data of the declared length
/// in any pieces, and for trailers of the declared lengths.
#[tactic(auto, using(crate::proofs::PassedLengthLemmas::passed_long))]
pub fn passed_texts_are_as_long()
    ensures { (options : Options) → IsPassedLengthOf options (data_length options) }
{}

/// A signed text is as long as its options say.
#[tactic(auto, using(crate::proofs::LawLemmas::signed_long))]
pub fn signed_texts_are_as_long()
    ensures { (options : Options) → IsChunkSize options.chunk_size → options.is_signed ≡ true → IsSignedLengthOf options (encoded_length options) }
{}

/// The text of data and trailers in signed chunks of any size is a whole text, and says that data, its signatures in order and those
/// trailers, where their names and values are headers' with the names in lower case.
#[tactic(auto, using(crate::proofs::SealedLawLemmas::sealed_whole))]
pub fn sealed_texts_are_whole()
    ensures { (signer : Signer) (t : Instant) (before : List ℕ) (size : ℕ) (body : List ℕ) (trailers : List Trailer) → IsChunkSize size
        → AllByRecursion IsTrailer trailers
        → IsTextOf body (chunk_signatures signer t before (pieces_of_size size body) trailers) trailers (signed_chunked_text signer t before size body trailers) }
{}

/// Where the data and the lines of the trailers have the declared lengths, the signed text is as long as its options say.
#[tactic(auto, using(crate::proofs::SealedLawLemmas::sealed_long))]
pub fn sealed_texts_are_as_long()
    ensures { (options : Options) (signer : Signer) (t : Instant) (before bytes : List ℕ) (trailers : List Trailer) → IsChunkSize options.chunk_size
        → options.is_signed ≡ true → length bytes ≡ options.stream_length → actual_length true trailers ≡ declared_length options.trailer_lengths
        → length (signed_chunked_text signer t before options.chunk_size bytes trailers) ≡ encoded_length options }
{}
