ghost use Rattle.std.specs.Prelude.{◌≡◌, ◌++◌, ℕ, List, OnOk};
ghost use Rattle.smithy_core.specs.Text.{line};

use crate::digest::TextDigest;
use smithy_core::Mem;

/// What takes a text piece by piece: the text itself, or its digest. Contracts see by `holds` that it has taken a text.
pub trait TextSink {
    ghost use Rattle.std.specs.Prelude.{ℕ, List};

    // it has taken this text
    ghost holds: { Self → List ℕ → Type 0 };

    /// Takes the next piece.
    fn push_text(&mut self, text: &str) -> Mem<()>
        ensures { OnOk result ((front : List ℕ) → holds self.old front → holds self.new (front ++ text.now)) };
}

impl TextSink for String {
    ghost use Rattle.std.specs.Prelude.{◌≡◌, string_bytes};

    ghost holds = { λ taken text. string_bytes taken ≡ text };

    fn push_text(&mut self, text: &str) -> Mem<()> {
        self.push_str(text)
    }
}

impl TextSink for TextDigest {
    ghost use Rattle.sigv4.specs.Digest.{HoldsText};

    ghost holds = { HoldsText };

    fn push_text(&mut self, text: &str) -> Mem<()> {
        self.push_str(text);
        Ok(())
    }
}

/// Hands over a line, ended by LF.
pub(crate) fn push_text_line<T: TextSink>(sink: &mut T, text: &str) -> Mem<()>
    ensures { OnOk result ((front : List ℕ) → T.holds sink.old front → T.holds sink.new (front ++ line text.now)) }
{
    sink.push_text(text)?;
    sink.push_text("\n")
}
