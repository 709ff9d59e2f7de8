//! A stream of events that is checked while it comes in pieces.
use anyhow::bail;
use bytes::Bytes;
use chain_watch::ChainWatch;
use smithy_core::Message;
use std::alloc::Global;

/// What a service does with the events of a stream.
pub trait EventHandler {
    /// Acts on an event, which is safe: its signature and all before it were computed again.
    fn handle(&mut self, event: Message) -> anyhow::Result<()>;
}

/// Hands each event of a stream on as soon as its frame has passed, and stops at the first fault.
pub fn watch_stream<H: EventHandler>(
    alloc: Global,
    mut watch: ChainWatch,
    pieces: Vec<Bytes>,
    handler: &mut H,
) -> anyhow::Result<()> {
    for piece in pieces {
        watch_piece(alloc, &mut watch, piece, handler)?;
    }
    // Each piece handed its events on, so that the end has none.
    watch.finish(&mut Vec::new(alloc))?;
    Ok(())
}

// The events that come before a fault are safe, and are handed on too.
fn watch_piece<H: EventHandler>(
    alloc: Global,
    watch: &mut ChainWatch,
    piece: Bytes,
    handler: &mut H,
) -> anyhow::Result<()> {
    if piece.len() as u64 > u64::MAX - watch.fed() {
        bail!("the stream is too long");
    }
    let mut events = Vec::new(alloc);
    let watched = watch.feed(piece, &mut events);
    for event in events {
        handler.handle(event)?;
    }
    let _ = watched?;
    Ok(())
}

/// Counts the events.
#[derive(Drop)]
pub struct EventCount {
    pub events: u32,
}

impl EventHandler for EventCount {
    fn handle(&mut self, _event: Message) -> anyhow::Result<()> {
        self.events = self.events.saturating_add(1);
        Ok(())
    }
}

/// So many bytes make a piece.
const PIECE: usize = 7;

/// The pieces of a stream.
pub fn pieces_of(alloc: Global, stream: &[u8]) -> anyhow::Result<Vec<Bytes>> {
    let mut pieces = Vec::new(alloc);
    for piece in stream.chunks(PIECE) {
        pieces.push(Bytes::copy_from_slice(alloc, piece)?)?;
    }
    Ok(pieces)
}
