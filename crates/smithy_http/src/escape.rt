ghost use Rattle.std.specs.Prelude.{◌≡◌, true, IfOk};
ghost use Rattle.std.specs.String.{string_bytes};
ghost use Rattle.percent_encoding.specs.AsciiSet.{contains};
ghost use Rattle.percent_encoding.specs.Percent.{percent_decode, percent_encode};

use percent_encoding::{AsciiSet, CONTROLS, ascii_set, utf8_percent_encode};
use smithy_core::Mem;
use std::alloc::Global;

/// The ASCII bytes of the base set.
pub(crate) const BASE_SET: AsciiSet = ascii_set!(
    CONTROLS
        .add(b' ')
        .add(b'/')
        .add(b':')
        .add(b',')
        .add(b'?')
        .add(b'#')
        .add(b'[')
        .add(b']')
        .add(b'{')
        .add(b'}')
        .add(b'|')
        .add(b'@')
        .add(b'!')
        .add(b'$')
        .add(b'&')
        .add(b'\'')
        .add(b'(')
        .add(b')')
        .add(b'*')
        .add(b'+')
        .add(b';')
        .add(b'=')
        .add(b'%')
        .add(b'<')
        .add(b'>')
        .add(b'"')
        .add(b'^')
        .add(b'`')
        .add(b'\\')
);

/// The ASCII bytes of the base set but `/`.
pub(crate) const GREEDY_SET: AsciiSet = ascii_set!(BASE_SET.remove(b'/'));

/// The text with its bytes of the set, and those past ASCII, escaped. `%` is one of the set.
pub(crate) fn escape(alloc: Global, text: &str, set: AsciiSet) -> Mem<String>
    requires { contains set 37 ≡ true }
    ensures text { IfOk result (λ escape. string_bytes escape ≡ percent_encode set text.now) }
    ensures undone { IfOk result (λ escape. percent_decode (string_bytes escape) ≡ text.now) }
{
    let mut out = String::new(alloc);
    utf8_percent_encode(text, set).append_to(&mut out)?;
    Ok(out)
}
