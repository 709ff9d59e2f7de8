//! The text of a chunk.
ghost use Rattle.std.specs.Prelude.{◌≡◌, IfOk, option_copied};
ghost use Rattle.aws_chunked.specs.Text.{chunk_text};

use aws_chunked::parts::head_text;
use smithy_core::Mem;
use std::alloc::Global;

/// The end of a line.
const CRLF: &[u8] = b"\r\n";

/// The text of a chunk of data.
#[tactic(auto, unfolding(aws_chunked::specs::Text::chunk_text))]
pub(crate) fn chunk_text(alloc: Global, signature: Option<&str>, piece: &[u8]) -> Mem<Vec<u8>>
    ensures { IfOk result (λ text. text.items ≡ chunk_text (option_copied signature.entry) piece.now) }
{
    let mut text = head_text(alloc, piece.len(), signature)?;
    text.reserve(piece.len().saturating_add(CRLF.len()))?;
    text.extend_from_slice(piece)?;
    text.extend_from_slice(CRLF)?;
    Ok(text)
}
