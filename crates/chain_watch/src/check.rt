ghost use Rattle.chain_watch.specs.Chain.{AnswersEvents};
ghost use Rattle.chain_watch.specs.Walk.{AnswersChain, chain_events};

use crate::chain_fault::ChainFault;
use crate::watch::ChainWatch;
use bytes::Bytes;
use smithy_core::Message;
use std::alloc::Global;

/// The events of the chain of signed frames that the bytes are: one frame for each, and an empty one last, each signed
/// over the signature before it, the first over the seed, in lower-case hexadecimal. No signature is trusted: each is
/// recomputed from the secret, the frame's own date, the region and the service's name.
///
/// Events are answered exactly where the bytes are the frames of their chain, one after another, for the moments that
/// those frames carry. The moments in their own headers are whole milliseconds.
///
/// ```rust
/// match check_chain(alloc, bytes, seed, secret, "us-east-1", "transcribe") {
///     Ok(events) => println!(rt; "{} events", events.len())?,
///     Err(fault) => println!(rt; "{fault}")?,
/// }
/// ```
///
/// # Errors
///
/// The first test that fails, frame by frame, each in this order: [`ChainFault::NotChain`] with
/// [`ChainPart::NotFrame`] where the bytes are no frame, or one of over 16,777,216 bytes, with [`ChainPart::Headers`] where its headers aren't exactly
/// `:chunk-signature` with 32 bytes and `:date`, with [`ChainPart::Date`] where the date is no whole second in the years 0 to
/// 9999, and with [`ChainPart::Inner`] where the payload isn't empty and is no frame of a message;
/// [`ChainFault::Mismatch`] where it carries another signature than its own. The first frame with an empty payload is the
/// closing one: bytes after it are [`ChainPart::AfterClosing`] at the next place, an end without it is
/// [`ChainPart::NoClosing`] there. [`ChainFault::NoMemory`] where memory runs out.
pub fn check_chain(
    alloc: Global,
    bytes: &[u8],
    seed: &str,
    secret: &str,
    region: &str,
    name: &str,
) -> Result<Vec<Message>, ChainFault>
    ensures answer { AnswersChain (chain_events (record { secret = secret.now; region = region.now; name = name.now }) seed.now bytes.now) result }
    ensures exact { AnswersEvents (record { secret = secret.now; region = region.now; name = name.now }) seed.now bytes.now result }
{
    let mut watch = ChainWatch::new(alloc, seed, secret, region, name)?;
    let mut events = Vec::new(alloc);
    let _ = watch.feed(Bytes::copy_from_slice(alloc, bytes)?, &mut events)?;
    watch.finish(&mut events)?;
    Ok(events)
}
