ghost use Rattle.std.specs.Prelude.{◌≡◌, IfOk};
ghost use Rattle.std.specs.String.{string_bytes};
ghost use Rattle.env_config.specs.Value.{id_in_sections, id_in_variables, service_key, with_spaces_as};

use crate::text::joined;
use smithy_core::Mem;
use std::alloc::Global;

/// The name of the service's own variable.
pub fn service_key(alloc: Global, key: &str, id: &str) -> Mem<String>
    ensures { IfOk result (λ name. string_bytes name ≡ service_key key.now id.now) }
{
    let mut name = joined(alloc, key, "_")?;
    name.push_str(id_in_variables(alloc, id)?.as_str())?;
    Ok(name)
}

/// The id as it stands in the names of variables: in upper case, with `_` for a space.
pub fn id_in_variables(alloc: Global, id: &str) -> Mem<String>
    ensures { IfOk result (λ name. string_bytes name ≡ id_in_variables id.now) }
{
    let mut name = with_spaces_as(alloc, "_", id)?;
    name.make_ascii_uppercase();
    Ok(name)
}

/// The id as it stands in sections: in lower case, with `-` for a space.
pub fn id_in_sections(alloc: Global, id: &str) -> Mem<String>
    ensures { IfOk result (λ name. string_bytes name ≡ id_in_sections id.now) }
{
    let mut name = with_spaces_as(alloc, "-", id)?;
    name.make_ascii_lowercase();
    Ok(name)
}

// The id with the sign in place of each space.
fn with_spaces_as(alloc: Global, sign: &str, id: &str) -> Mem<String>
    ensures { IfOk result (λ name. string_bytes name ≡ with_spaces_as sign.now id.now) }
{
    let mut name = String::new(alloc);
    let mut rest = id;
    while let Some((word, others)) = rest.split_once(' ') {
        name.push_str(word)?;
        name.push_str(sign)?;
        rest = others;
    }
    name.push_str(rest)?;
    Ok(name)
}
