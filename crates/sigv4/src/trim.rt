ghost use Rattle.std.specs.Prelude.{◌≡◌, ◌++◌, IfOk, OnOk};
ghost use Rattle.std.specs.String.{string_bytes};
ghost use Rattle.sigv4.specs.Trim.{before_word, trim_all};

use smithy_core::Mem;
use std::alloc::Global;

/// The text with the spaces at its ends cut and each run of spaces made one. Other blanks stay.
pub fn trimmed(alloc: Global, text: &str) -> Mem<String>
    ensures { IfOk result (λ value. string_bytes value ≡ trim_all text.now) }
{
    let mut value = String::with_capacity(alloc, text.len())?;
    push_trimmed(&mut value, text)?;
    Ok(value)
}

/// Appends the text with the spaces at its ends cut and each run of spaces made one.
pub(crate) fn push_trimmed(out: &mut String, text: &str) -> Mem<()>
    ensures { OnOk result (string_bytes out.new ≡ string_bytes out.old ++ trim_all text.now) }
{
    let mut is_first = true;
    for word in text.split(' ') {
        if !word.is_empty() {
            push_word(out, is_first, word)?;
            is_first = false;
        }
    }
    Ok(())
}

// Appends the word, after a space where it isn't the first.
fn push_word(out: &mut String, is_first: bool, word: &str) -> Mem<()>
    ensures { OnOk result (string_bytes out.new ≡ string_bytes out.old ++ (before_word is_first ++ word.now)) }
{
    if !is_first {
        out.push(' ')?;
    }
    out.push_str(word)?;
    Ok(())
}
