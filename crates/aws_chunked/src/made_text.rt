ghost use Rattle.std.specs.Prelude.{◌≡◌, ◌<◌, ◌↔◌, [], ◌++◌, length, IsTrue, MatchOption, OnOk};

use bytes::Bytes;
use smithy_core::Mem;
use std::alloc::Global;
use std::collections::VecDeque;
use std::marker::Model;

/// Text that was made and isn't answered yet, in pieces of which none is empty.
///
/// Contracts see the text.
#[derive(Drop)]
pub(crate) struct MadeText {
    pieces: VecDeque<Bytes>,
}

impl Model for MadeText {
    ghost use Rattle.std.specs.Prelude.{ℕ, List};
    ghost use Rattle.aws_chunked.specs.Made.{AreFilled, joined};

    ghost Value = { List ℕ };

    ghost view = { λ made. joined made.pieces.items };

    ghost invariant = { λ made. AreFilled made.pieces.items };
}

impl MadeText {
    // No text.
    pub(crate) fn new(alloc: Global) -> MadeText
        ensures { result ≡ [] }
    {
        MadeText {
            pieces: VecDeque::new(alloc),
        }
    }

    // Whether there is no text.
    #[tactic(auto, using(crate::proofs::MadeLemmas::empty_told))]
    pub(crate) fn is_empty(&self) -> bool
        ensures { IsTrue result ↔ (self.now ≡ []) }
    {
        self.pieces.len() == 0
    }

    // Appends a piece, without copying it.
    pub(crate) fn push(&mut self, piece: Bytes) -> Mem<()>
        ensures { OnOk result (self.new ≡ self.old ++ piece) }
    {
        if piece.is_empty() {
            return Ok(());
        }
        self.push_filled(piece)
    }

    // Appends a piece that isn't empty.
    #[tactic(auto, using(crate::proofs::MadeLemmas::joined_more, crate::proofs::MadeLemmas::filled_more))]
    fn push_filled(&mut self, piece: Bytes) -> Mem<()>
        requires { 0 < length piece }
        ensures { OnOk result (self.new ≡ self.old ++ piece) }
    {
        Ok(self.pieces.push_back(piece)?)
    }

    // Takes the first piece.
    pub(crate) fn pop(&mut self) -> Option<Bytes>
        ensures { MatchOption result ((self.old ≡ []) × (self.new ≡ [])) (λ piece. (0 < length piece) × (self.old ≡ piece ++ self.new)) }
    {
        self.pieces.pop_front()
    }

    // Drops all text.
    pub(crate) fn clear(&mut self)
        ensures { self.new ≡ [] }
    {
        self.pieces.clear();
    }
}
