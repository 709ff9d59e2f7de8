ghost use Rattle.std.specs.Prelude.{◌≡◌, ◌++◌, IfOk, OnOk, OnErr, option_map};
ghost use Rattle.std.specs.String.{string_bytes};
ghost use Rattle.smithy_core.specs.Text.{line};

use crate::memory::Mem;

/// Appends a line of bytes, ended by LF. Where memory ran out, nothing is appended.
pub fn push_line(buffer: &mut Vec<u8>, text: &[u8]) -> Mem<()>
    ensures ok { OnOk result (buffer.new.items ≡ buffer.old.items ++ line text.now) }
    ensures err { OnErr result (buffer.new.items ≡ buffer.old.items) }
{
    buffer.reserve(text.len() + 1)?;
    buffer.extend_from_slice(text).unwrap();
    buffer.push(b'\n').unwrap();
    Ok(())
}

/// A copy of the text, where there is one. The SDK has no such public call.
pub fn copied_text(text: &Option<String>) -> Mem<Option<String>>
    ensures { IfOk result (λ copy. option_map string_bytes copy ≡ option_map string_bytes text.now) }
{
    Ok(match text {
        Some(text) => Some(text.clone()?),
        None => None,
    })
}

/// Appends a line of text, ended by LF. Where memory ran out, nothing is appended.
pub fn push_text_line(text: &mut String, content: &str) -> Mem<()>
    ensures ok { OnOk result (string_bytes text.new ≡ string_bytes text.old ++ line content.now) }
    ensures err { OnErr result (string_bytes text.new ≡ string_bytes text.old) }
{
    text.reserve(content.len() + 1)?;
    text.push_str(content).unwrap();
    text.push('\n').unwrap();
    Ok(())
}
