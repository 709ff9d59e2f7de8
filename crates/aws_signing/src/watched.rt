ghost use Rattle.std.specs.Prelude.{◌≡◌, IfOk};
ghost use Rattle.std.specs.List.{flat_map};
ghost use Rattle.chain_watch.specs.Watch.{new_watch};
ghost use Rattle.aws_signing.specs.Watched.{ChecksEvents, EndsWatched, FeedsWatched};

use crate::fault::AwsSigningError;
use crate::signer::Signer;
use bytes::Bytes;
use chain_watch::{ChainWatch, Watched};
use smithy_core::{Mem, Message};
use std::marker::Model;

/// A stream of signed events that is checked while it comes in pieces: each event is handed out once its own signature, and all
/// before it, were computed again.
///
/// ```rust
/// let mut watch = signer.watch(signature.as_str())?;
/// let mut events = Vec::new(alloc);
/// for piece in pieces {
///     let watched = watch.feed(piece, &mut events);
///     for event in events.drain(..) {
///         act_on(event)?;
///     }
///     let _ = watched?;
/// }
/// watch.finish(&mut events)?;
/// ```
///
/// Contracts see what they see of a [`ChainWatch`].
#[derive(Debug, Drop)]
pub struct WatchedEvents {
    watch: ChainWatch,
}

impl Model for WatchedEvents {
    ghost use Rattle.chain_watch.specs.Watch.{Watching};

    ghost Value = { Watching };

    ghost view = { λ watched. watched.watch };
}

impl Signer {
    /// The check of the events that go on from the signature of a request: those that whoever has this signer's secret signed for
    /// its region and service.
    ///
    /// # Errors
    ///
    /// Memory ran out.
    pub fn watch(&self, signature: &str) -> Mem<WatchedEvents>
        ensures { IfOk result (λ watched. watched ≡ new_watch self.now.holder.kept.signer signature.now) }
    {
        Ok(WatchedEvents {
            watch: self.holder.watch(signature)?,
        })
    }

    /// The events of a whole stream that goes on from the signature of a request, each of which was signed as [`Signer::watch`]
    /// says. None is answered before all signatures were computed again, and the stream was seen to end.
    ///
    /// ```rust
    /// for event in signer.check_events(signature.as_str(), &pieces)? {
    ///     act_on(event)?;
    /// }
    /// ```
    ///
    /// # Errors
    ///
    /// [`AwsSigningError::Chain`] with the first test that a frame fails, or where the stream ends before its closing frame;
    /// [`AwsSigningError::StreamTooLong`] where it has 18,446,744,073,709,551,616 bytes or more.
    #[tactic(auto, using(crate::proofs::WatchedLemmas::checks))]
    pub fn check_events(
        &self,
        signature: &str,
        pieces: &[Bytes],
    ) -> Result<Vec<Message>, AwsSigningError>
        ensures { ChecksEvents self.now.holder.kept.signer signature.now (flat_map (λ piece. piece) pieces.now) result }
    {
        let mut watch = self.watch(signature)?;
        let mut events = Vec::new(self.holder.allocator());
        for piece in pieces {
            watch.feed(piece.clone()?, &mut events)?;
        }
        watch.finish(&mut events)?;
        Ok(events)
    }
}

impl WatchedEvents {
    /// Takes a piece of the stream, and appends the events whose frames are there whole then and pass.
    ///
    /// # Errors
    ///
    /// [`AwsSigningError::Chain`] with the first test that a frame fails, now and at each later call; the events before it are
    /// appended by the call that answers it first, so look at them before the fault. [`AwsSigningError::StreamTooLong`] where the
    /// stream has 18,446,744,073,709,551,616 bytes or more with this piece, which isn't taken. Where memory runs out, the next call
    /// goes on: no event is lost, and none comes twice.
    pub fn feed(
        &mut self,
        piece: Bytes,
        events: &mut Vec<Message>,
    ) -> Result<Watched, AwsSigningError>
        ensures { FeedsWatched self.old piece events.old.items self.new events.new.items result }
    {
        if piece.len() as u64 > u64::MAX - self.watch.fed() {
            return Err(AwsSigningError::StreamTooLong);
        }
        Ok(self.watch.feed(piece, events)?)
    }

    /// Ends the stream, and appends the events that weren't yet, where memory had run out. Act on what needs the whole stream
    /// after this answered `Ok`.
    ///
    /// # Errors
    ///
    /// [`AwsSigningError::Chain`] with the fault that was met, or where the stream ended before its closing frame.
    pub fn finish(self, events: &mut Vec<Message>) -> Result<(), AwsSigningError>
        ensures { EndsWatched self events.old.items events.new.items result }
    {
        Ok(self.watch.finish(events)?)
    }
}
