ghost use Rattle.std.specs.Prelude.{◌≡◌, ◌++◌, ◌+◌, IfOk, OnErr, OnOk, Some, bytes_eq, option_copied};
ghost use Rattle.aws_chunked.specs.Text.{crlf};
ghost use Rattle.chunk_watch.specs.Walk.{next_place};
ghost use Rattle.sigv4.specs.Chunk.{chunk_signature};
ghost use Rattle.chunk_watch.specs.Watch.{EndsBody, EndsWithTrailers, FeedsChunks, KeepsWithin, MakesWatch, chunk_state, is_other_length, new_chunk_watch, count_after};
ghost use Rattle.chunk_watch.specs.WatchParts.{HandsChunk, JudgesChunk, StepsChunk, end_reached};

use crate::fault::ChunkFault;
use crate::front::{Front, front_of};
use crate::left::Left;
use crate::limits::ChunkLimits;
use crate::signing::ChunkSigner;
use crate::trailers::judged_trailers;
use mac_core::constant_time_eq;
use smithy_core::{Headers, Mem, Moment};
use std::alloc::Global;
use std::fmt;
use std::marker::Model;

// Where a watch is: in the chunks, behind the empty chunk, or at the first fault.
#[derive(Clone, Copy)]
pub(crate) enum Phase {
    Chunks,
    End,
    Failed(ChunkFault),
}

/// Checks a body in signed chunks that comes in pieces, and hands out a chunk's data as soon as the chunk is there whole and carries
/// its own signature: no data before its own signature, and all before it, were computed again and compared.
///
/// It keeps less than a chunk with its line between calls, and behind the empty chunk the end, as far as the limits allow;
/// trailers take up to 30 times the length of their end. The signing key is derived once. The comparison looks at each byte of
/// both signatures. Lengths are hexadecimal digits in either case; the chunks needn't have one size.
/// [`Debug`](std::fmt::Debug) shows nothing of who signs, of a signature or of data.
///
/// ```rust
/// let mut watch = ChunkWatch::new(alloc, seed, secret, "us-east-1", "s3", at, ChunkLimits::new())?;
/// let mut data = Vec::new(alloc);
/// for piece in pieces {
///     let fed = watch.feed(piece, &mut data);
///     store(&data)?;
///     data.clear();
///     fed?;
/// }
/// watch.finish()?;
/// ```
///
/// Contracts see who signs, the moment, the limits, and the point that the walk over the chunks is at (`specs/Walk.antt`).
pub struct ChunkWatch {
    alloc: Global,
    signer: ChunkSigner,
    limits: ChunkLimits,
    declared: Option<u64>,
    phase: Phase,
    place: u64,
    taken: u64,
    signature: String,
    left: Left,
}

// Written out: a derived drop would be taken apart in the proof of each function that drops one.
impl Drop for ChunkWatch {
    fn drop(self) {
        let ChunkWatch {
            alloc: _,
            signer,
            limits: _,
            declared: _,
            phase: _,
            place: _,
            taken: _,
            signature,
            left,
        } = self;
        drop(signer);
        drop(signature);
        drop(left);
    }
}

impl Model for ChunkWatch {
    ghost use Rattle.std.specs.Prelude.{string_bytes};
    ghost use Rattle.chunk_watch.specs.Watch.{ChunkWatching};
    ghost use Rattle.chunk_watch.specs.WatchParts.{chunk_point_of};

    ghost Value = { ChunkWatching };

    ghost view = { λ watch. record {
      signing = watch.signer;
      limits = watch.limits;
      declared = watch.declared;
      point = chunk_point_of watch.phase watch.place (string_bytes watch.signature) watch.left;
      taken = watch.taken;
    } };
}

impl ChunkWatch {
    /// A watch of the body whose first chunk is signed over the seed: over the signature of the request, as `Admitted::signature` of
    /// `request_door` has it, at its moment.
    ///
    /// # Errors
    ///
    /// [`ChunkFault::MomentOutOfRange`] exactly where the moment lies outside the years 0 to 9999.
    pub fn new(
        alloc: Global,
        seed: &str,
        secret: &str,
        region: &str,
        name: &str,
        at: Moment,
        limits: ChunkLimits,
    ) -> Result<ChunkWatch, ChunkFault>
        ensures { MakesWatch (new_chunk_watch (record { secret = secret.now; region = region.now; name = name.now }) at limits seed.now) result }
    {
        Ok(ChunkWatch {
            alloc,
            signer: ChunkSigner::new(alloc, secret, region, name, at)?,
            limits,
            declared: None,
            phase: Phase::Chunks,
            place: 1,
            taken: 0,
            signature: String::from_str(alloc, seed)?,
            left: Left::new(alloc),
        })
    }

    /// The same watch, at whose end the data in all is compared with this length: that which `x-amz-decoded-content-length` names.
    pub fn with_decoded_length(mut self, length: u64) -> ChunkWatch
        ensures { result ≡ record self { declared = Some length } }
    {
        self.declared = Some(length);
        self
    }

    /// How many bytes of data were handed out, counted up to the greatest number.
    pub fn taken(&self) -> u64
        ensures { result ≡ self.now.taken }
    {
        self.taken
    }

    /// Takes a piece of the body, of any length, and appends the data of the chunks that are there whole then and carry their own
    /// signatures.
    ///
    /// # Errors
    ///
    /// The first fault of a chunk: [`ChunkFault::BadLine`], [`ChunkFault::LongChunk`], [`ChunkFault::BadEnd`] or
    /// [`ChunkFault::Mismatch`] with its place, or [`ChunkFault::LongEnd`]. The data of the chunks before it is appended. Each later
    /// call answers the same fault, takes nothing and appends nothing.
    ///
    /// [`ChunkFault::NoMemory`] where memory runs out. Where the piece had no room, it isn't taken, and nothing has changed; and else
    /// some of the data is appended, that of the first chunks. The next call goes on, also with an empty piece, and nothing comes
    /// twice. Whether the piece was taken can't be seen from the answer alone: so a body whose watch ran out of memory is given up.
    #[tactic(auto, using(crate::proofs::WatchLemmas::feeds, crate::proofs::KeepLemmas::keeps))]
    pub fn feed(&mut self, piece: &[u8], out: &mut Vec<u8>) -> Result<(), ChunkFault>
        ensures feeds { FeedsChunks self.old piece.now out.old.items self.new out.new.items result }
        ensures keeps { KeepsWithin self.new result }
    {
        if let Phase::Failed(fault) = self.phase {
            return Err(fault);
        }
        self.left.push(piece)?;
        'chunks: while self.step(out)? {}
        self.state()
    }

    /// Ends the body behind the bytes that were taken: behind the line of the empty chunk stands an empty line and nothing else, as of
    /// a request over `STREAMING-AWS4-HMAC-SHA256-PAYLOAD`. A body with trailers isn't taken.
    ///
    /// # Errors
    ///
    /// The fault that was met; [`ChunkFault::NoEmptyChunk`] where the empty chunk's line wasn't there whole;
    /// [`ChunkFault::OtherLength`] where the data has another length than was declared; and [`ChunkFault::OtherEnd`] where trailers or
    /// anything else but the empty line stand behind the empty chunk. The first of these is answered.
    #[tactic(auto, using(crate::proofs::EndLemmas::ends))]
    pub fn finish(self) -> Result<(), ChunkFault>
        ensures { EndsBody self result }
    {
        self.check_reached()?;
        if is_empty_line(self.left.as_slice()) {
            Ok(())
        } else {
            Err(ChunkFault::OtherEnd)
        }
    }

    /// Ends the body of a request over `STREAMING-AWS4-HMAC-SHA256-PAYLOAD-TRAILER`, and returns its trailers, once their signature was
    /// computed again over that of the empty chunk and compared. Behind the empty chunk's line stand a line for each trailer, whose name
    /// is in lower case, the line of their signature, and an empty line, and nothing else; minio's client writes a line feed before the
    /// end of a trailer's line, which is taken too. There is one trailer at least, so that trailers that were cut off are missed.
    ///
    /// If the request's `x-amz-trailer` is handed over, the trailers have the names that it announces, in its order, each as often as
    /// it does, and `,` alone stands between them. It is compared as it is: hand it over as it was signed.
    ///
    /// # Errors
    ///
    /// The fault that was met; [`ChunkFault::NoEmptyChunk`] where the empty chunk's line wasn't there whole;
    /// [`ChunkFault::OtherLength`] where the data has another length than was declared; [`ChunkFault::BadTrailers`] where something else
    /// stands behind the empty chunk; [`ChunkFault::OtherTrailers`] where other names were announced; and
    /// [`ChunkFault::TrailerMismatch`] where the trailers carry another signature than their own. The first of these is answered, or
    /// [`ChunkFault::NoMemory`] where memory runs out.
    #[tactic(auto, using(crate::proofs::EndLemmas::ends_signed))]
    pub fn finish_with_trailers(mut self, announced: Option<&str>) -> Result<Headers, ChunkFault>
        ensures { EndsWithTrailers self (option_copied announced.entry) result }
    {
        self.check_reached()?;
        let watch = &mut self;
        let (before, bytes) = (watch.signature.as_str(), watch.left.as_slice());
        judged_trailers(watch.alloc, &mut watch.signer, before, bytes, announced)
    }

    // Says why the end isn't looked at: the empty chunk wasn't passed, or the data isn't of the declared length.
    fn check_reached(&self) -> Result<(), ChunkFault>
        ensures { result ≡ end_reached self.now }
    {
        match self.phase {
            Phase::Failed(fault) => Err(fault),
            Phase::Chunks => Err(ChunkFault::NoEmptyChunk),
            Phase::End => {
                if is_other_length(self.declared, self.taken) {
                    Err(ChunkFault::OtherLength)
                } else {
                    Ok(())
                }
            }
        }
    }

    // What is said of the body.
    fn state(&self) -> Result<(), ChunkFault>
        ensures { result ≡ chunk_state self.now.point }
    {
        match self.phase {
            Phase::Failed(fault) => Err(fault),
            Phase::Chunks | Phase::End => Ok(()),
        }
    }

    // Takes one step, where there is one, and returns whether there was.
    #[tactic(auto, using(crate::proofs::StepLemmas::steps))]
    fn step(&mut self, out: &mut Vec<u8>) -> Mem<bool>
        ensures { StepsChunk self.old out.old.items self.new out.new.items result }
    {
        match self.phase {
            Phase::Failed(_) => return Ok(false),
            Phase::End => {
                if self.left.as_slice().len() > self.limits.end as usize {
                    self.phase = Phase::Failed(ChunkFault::LongEnd);
                    return Ok(true);
                }
                return Ok(false);
            }
            Phase::Chunks => {}
        }
        let most = self.limits.chunk as usize;
        let (place, before) = (self.place, self.signature.as_str());
        match front_of(most, place, self.left.as_slice()) {
            Front::Short => Ok(false),
            Front::Bad(fault) => {
                self.phase = Phase::Failed(fault);
                Ok(true)
            }
            Front::Chunk(signature, bytes, len) => {
                let Some(own) = hand_out(&mut self.signer, before, bytes, signature, out)? else {
                    self.phase = Phase::Failed(ChunkFault::Mismatch(place));
                    return Ok(true);
                };
                self.taken = count_after(self.taken, bytes);
                self.signature = own;
                self.place = next_place(place);
                self.phase = Phase::Chunks;
                self.left.advance(len);
                Ok(true)
            }
            Front::Empty(signature, len) => {
                let Some(own) = judged(&mut self.signer, before, &[], signature)? else {
                    self.phase = Phase::Failed(ChunkFault::Mismatch(place));
                    return Ok(true);
                };
                self.signature = own;
                self.phase = Phase::End;
                self.left.advance(len);
                Ok(true)
            }
        }
    }
}

// Whether bytes are the empty line with which a body without trailers ends.
fn is_empty_line(bytes: &[u8]) -> bool
    ensures { result ≡ bytes_eq bytes.now crlf }
{
    bytes == b"\r\n".as_slice()
}

// Whether data was declared, and of another length.
fn is_other_length(declared: Option<u64>, taken: u64) -> bool
    ensures { result ≡ is_other_length declared taken }
{
    match declared {
        Some(length) => length != taken,
        None => false,
    }
}

// How much data was handed out after these bytes, counted up to the greatest number.
#[tactic(auto, using(crate::proofs::CountLemmas::counted_after))]
fn count_after(taken: u64, bytes: &[u8]) -> u64
    ensures { result ≡ count_after taken bytes.now }
{
    taken.saturating_add(bytes.len() as u64)
}

// The place behind a chunk's, which stays if it is the last that can be named.
fn next_place(place: u64) -> u64
    ensures { result ≡ next_place place }
{
    place.saturating_add(1)
}

// Appends a chunk's data where the chunk carries its own signature, and answers that signature.
fn hand_out(
    signer: &mut ChunkSigner,
    before: &str,
    bytes: &[u8],
    signature: &[u8],
    out: &mut Vec<u8>,
) -> Mem<Option<String>>
    ensures hands { HandsChunk (chunk_signature bytes.now signer.old.signer signer.old.at before.now) signature.now bytes.now out.old.items out.new.items result }
    ensures same { signer.new ≡ signer.old }
{
    match judged(signer, before, bytes, signature)? {
        Some(own) => {
            append(out, bytes)?;
            Ok(Some(own))
        }
        None => Ok(None),
    }
}

// Puts bytes behind those that were handed out.
fn append(out: &mut Vec<u8>, bytes: &[u8]) -> Mem<()>
    ensures ok { OnOk result (out.new.items ≡ out.old.items ++ bytes.now) }
    ensures err { OnErr result (out.new.items ≡ out.old.items) }
{
    out.extend_from_slice(bytes)
}

// The signature of a chunk's data over the signature before it, where it is the one that the chunk carries.
fn judged(
    signer: &mut ChunkSigner,
    before: &str,
    bytes: &[u8],
    signature: &[u8],
) -> Mem<Option<String>>
    ensures judges { IfOk result (JudgesChunk (chunk_signature bytes.now signer.old.signer signer.old.at before.now) signature.now) }
    ensures same { signer.new ≡ signer.old }
{
    let own = signer.chunk_signature(bytes, before)?;
    if constant_time_eq(own.as_bytes(), signature) {
        Ok(Some(own))
    } else {
        Ok(None)
    }
}

// Shows neither who signs nor a signature nor data.
impl fmt::Debug for ChunkWatch {
    ghost use Rattle.std.specs.Prelude.{Some, codes};

    ghost debug_output = { λ _. Some (codes "ChunkWatch") };

    fn fmt<W: fmt::Write>(&self, f: &mut fmt::Formatter<W>) -> fmt::Result {
        f.write_str("ChunkWatch")
    }
}
