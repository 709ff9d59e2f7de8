ghost use Rattle.std.specs.Prelude.{ℕ, List};
ghost use Rattle.smithy_core.specs.Moment.{Instant};
ghost use Rattle.eventstream.specs.Key.{Signer};
ghost use Rattle.chunk_watch.specs.Handed.{HandsWritten};
ghost use Rattle.chunk_watch.specs.Walk.{IsAnyCut, Rules};
ghost use Rattle.chunk_watch.specs.Written.{HandsSigned};
ghost use Rattle.chunk_watch.specs.declared.limits.ChunkLimits.{ChunkLimits};

/// The same bytes in other pieces hand out the same, and lead to the same answer.
#[tactic(auto, using(crate::proofs::WalkLemmas::any_cut))]
pub fn any_cut_hands_out_the_same()
    ensures { (rules : Rules) → IsAnyCut rules }
{}

/// What a step of a walk hands out is the data of the chunk that stands first and carries its own signature, as it is written: nothing
/// is handed out before.
#[tactic(auto, using(crate::proofs::WrittenLemmas::hands_signed))]
pub fn only_signed_data_is_handed_out()
    ensures { (rules : Rules) → HandsSigned rules }
{}

/// The text of data and trailers in signed chunks of one size, as `AwsChunkedBody` of `aws_chunked` writes it, cut however: a watch of
/// the same signer, moment and seed hands out that data, and ends with those trailers, where chunks and end keep its limits.
pub fn written_texts_are_handed_out()
    ensures { (signer : Signer) (t : Instant) (limits : ChunkLimits) (seed : List ℕ) → HandsWritten signer t limits seed }
{}
