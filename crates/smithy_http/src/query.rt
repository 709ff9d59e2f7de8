//! Values in a query, as Smithy's trait `httpQuery` has them.
ghost use Rattle.std.specs.Prelude.{◌≡◌, ◌++◌, true, codes, if◌then◌else◌, IfOk, OnOk, OnErr};
ghost use Rattle.std.specs.String.{string_bytes};
ghost use Rattle.percent_encoding.specs.Percent.{percent_decode};
ghost use Rattle.smithy_http.specs.Escape.{base_set, escaped, FormatsEscaped};
ghost use Rattle.smithy_http.specs.Query.{before_pieces, held_text, pair, with_piece, written_query};

use crate::escape::{BASE_SET, escape};
use crate::piece::{marked, marked_pair};
use smithy_core::{DateTime, Format, FormatFault, Mem};
use std::alloc::Global;

/// The text as a key or a value of a query: each byte that isn't unreserved escaped (RFC 3986, section 2).
/// Decoding the escapes gives the text again.
#[tactic(auto, using(crate::proofs::EscapeLemmas::by_base_set))]
pub fn fmt_string(alloc: Global, t: &str) -> Mem<String>
    ensures text { IfOk result (λ escape. string_bytes escape ≡ escaped base_set t.now) }
    ensures undone { IfOk result (λ escape. percent_decode (string_bytes escape) ≡ t.now) }
{
    escape(alloc, t, BASE_SET)
}

/// The text of a moment as a key or a value of a query.
///
/// # Errors
///
/// Those of [`DateTime::fmt`].
pub fn fmt_timestamp(alloc: Global, t: &DateTime, format: Format) -> Result<String, FormatFault>
    ensures { FormatsEscaped format t.now result }
{
    let text = t.fmt(alloc, format)?;
    Ok(fmt_string(alloc, text.as_str())?)
}

/// Appends a query to a text, piece by piece: `?` before the first, `&` before the others. Nothing is escaped.
#[derive(Drop)]
pub struct Writer<'a> {
    out: &'a mut String,
    has_piece: bool,
}

impl<'a> Writer<'a> {
    /// A writer that goes on after the text.
    pub fn new(out: &'a mut String) -> Writer<'a>
        ensures same_text { (held_text result).ghost_name ≡ out.entry.ghost_name }
        ensures begun { written_query result ≡ before_pieces (string_bytes out.old) }
    {
        Writer {
            out,
            has_piece: false,
        }
    }

    /// Appends a key and its value, with `=` between. Where memory ran out, nothing is appended.
    pub fn push_kv(&mut self, k: &str, v: &str) -> Mem<()>
        ensures same_text { (held_text self.new).ghost_name ≡ (held_text self.old).ghost_name }
        ensures ok { OnOk result (written_query self.new ≡ with_piece (written_query self.old) (pair k.now v.now)) }
        ensures err { OnErr result (written_query self.new ≡ written_query self.old) }
    {
        let piece = marked_pair(*self.out.allocator(), self.mark(), k, v)?;
        self.push(piece.as_str())
    }

    /// Appends a value, which is its own key. Where memory ran out, nothing is appended.
    pub fn push_v(&mut self, v: &str) -> Mem<()>
        ensures same_text { (held_text self.new).ghost_name ≡ (held_text self.old).ghost_name }
        ensures ok { OnOk result (written_query self.new ≡ with_piece (written_query self.old) v.now) }
        ensures err { OnErr result (written_query self.new ≡ written_query self.old) }
    {
        let piece = marked(*self.out.allocator(), self.mark(), v)?;
        self.push(piece.as_str())
    }

    // What stands before the next piece.
    fn mark(&self) -> &'static str
        ensures { result.now ≡ (if self.now.has_piece then codes "&" else codes "?") }
    {
        if self.has_piece { "&" } else { "?" }
    }

    // Appends a piece with its mark.
    fn push(&mut self, piece: &str) -> Mem<()>
        ensures same_text { (held_text self.new).ghost_name ≡ (held_text self.old).ghost_name }
        ensures ok { OnOk result (written_query self.new ≡ record { text = (written_query self.old).text ++ piece.now; has_piece = true }) }
        ensures err { OnErr result (written_query self.new ≡ written_query self.old) }
    {
        self.out.push_str(piece)?;
        self.has_piece = true;
        Ok(())
    }
}
