ghost use Rattle.std.specs.Prelude.{◌≡◌, ◌++◌, IfOk, OnOk};
ghost use Rattle.std.specs.List.{flat_map};
ghost use Rattle.std.specs.String.{string_bytes};
ghost use Rattle.signed_stream.specs.Written.{head, name_value_line};

use smithy_core::{HttpRequest, Mem, push_line};
use std::alloc::Global;

/// The head of a request: `METHOD target`, the headers, and an empty line.
#[tactic(auto, unfolding(crate::specs::Written::head))]
pub fn head_of(alloc: Global, request: &HttpRequest) -> Mem<Vec<u8>>
    ensures { IfOk result (λ text. text.items ≡ head (string_bytes request.now.method) (string_bytes request.now.target) request.now.headers) }
{
    let mut text = Vec::new(alloc);
    text.extend_from_slice(request.method.as_bytes())?;
    text.extend_from_slice(b" ")?;
    push_line(&mut text, request.target.as_bytes())?;
    push_headers(&mut text, request)?;
    push_line(&mut text, b"")?;
    Ok(text)
}

fn push_headers(text: &mut Vec<u8>, request: &HttpRequest) -> Mem<()>
    ensures { OnOk result (text.new.items ≡ text.old.items ++ flat_map name_value_line request.now.headers) }
{
    for (name, value) in request.headers.iter() {
        push_header(text, name, value)?;
    }
    Ok(())
}

fn push_header(text: &mut Vec<u8>, name: &str, value: &str) -> Mem<()>
    ensures { OnOk result (text.new.items ≡ text.old.items ++ name_value_line (name.now, value.now)) }
{
    text.extend_from_slice(name.as_bytes())?;
    text.extend_from_slice(b": ")?;
    push_line(text, value.as_bytes())
}
