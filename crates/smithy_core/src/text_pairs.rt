ghost use Rattle.std.specs.Prelude.{◌≡◌, ◌++◌, codes, IfOk};
ghost use Rattle.std.specs.Char.{is_ascii};
ghost use Rattle.std.specs.Fmt.{WritesOnOk};
ghost use Rattle.std.specs.List.{flat_map, list_all};
ghost use Rattle.smithy_core.specs.TextPairs.{shown_name, text_pair, text_pairs, value_size, value_sizes};

use crate::memory::Mem;
use std::alloc::Global;
use std::fmt;

/// Pairs of the same texts.
pub(crate) fn copied_pairs(alloc: Global, pairs: &[(String, String)]) -> Mem<Vec<(String, String)>>
    ensures { IfOk result (λ copies. text_pairs copies.items ≡ text_pairs pairs.now) }
{
    let mut copies = Vec::new(alloc);
    for pair in pairs {
        copies.push((pair.0.clone()?, pair.1.clone()?))?;
    }
    Ok(copies)
}

/// Prints the names and how long the values are, since a value may be a secret.
pub(crate) fn fmt_value_sizes<W: fmt::Write>(
    pairs: &[(String, String)],
    f: &mut fmt::Formatter<W>,
) -> fmt::Result
    ensures { WritesOnOk W.write_str_gives f.old result (value_sizes (text_pairs pairs.now)) f.new }
{
    match pairs {
        [] => f.write_str("{}"),
        [first, rest @ ..] => {
            f.write_str("{")?;
            fmt_value_size(first, f)?;
            fmt_more_value_sizes(rest, f)?;
            f.write_str("}")
        }
    }
}

// Prints each pair after a comma.
fn fmt_more_value_sizes<W: fmt::Write>(
    pairs: &[(String, String)],
    f: &mut fmt::Formatter<W>,
) -> fmt::Result
    ensures { WritesOnOk W.write_str_gives f.old result (flat_map (λ pair. codes ", " ++ value_size pair) (text_pairs pairs.now)) f.new }
{
    for pair in pairs {
        f.write_str(", ")?;
        fmt_value_size(pair, f)?;
    }
    Ok(())
}

// Prints the name and how long the value is.
fn fmt_value_size<W: fmt::Write>(pair: &(String, String), f: &mut fmt::Formatter<W>) -> fmt::Result
    ensures { WritesOnOk W.write_str_gives f.old result (value_size (text_pair pair.now)) f.new }
{
    let len = pair.1.len();
    fmt_name(pair.0.as_str(), f)?;
    write!(f, ": {len}")
}

/// Prints a name in quotes, or how many bytes it has where not all of them are ASCII.
pub(crate) fn fmt_name<W: fmt::Write>(name: &str, f: &mut fmt::Formatter<W>) -> fmt::Result
    ensures { WritesOnOk W.write_str_gives f.old result (shown_name name.now) f.new }
{
    if is_ascii(name) {
        return write!(f, "{name:?}");
    }
    let len = name.len();
    write!(f, "{len} bytes")
}

// Whether all bytes are ASCII.
fn is_ascii(text: &str) -> bool
    ensures { result ≡ list_all is_ascii text.now }
{
    text.bytes().all(|byte| byte.is_ascii())
}
