//! The lines of the signed headers in a canonical text, which goes to its digest piece by piece: with names that are listed many
//! times it is many times as long as the request.
ghost use Rattle.std.specs.Prelude.{◌++◌, ℕ, List, codes, OnOk, option_copied};
ghost use Rattle.std.specs.List.{flat_map};
ghost use Rattle.sigv4.specs.Canonical.{given_headers, header_line, joined_values, with_optional};
ghost use Rattle.sigv4.specs.Digest.{HoldsText};
ghost use Rattle.sigv4.specs.Trim.{trim_all};
ghost use Rattle.request_check.specs.HeaderLines.{before_listed};
ghost use Rattle.request_check.specs.Recomputed.{carried_names};

use sigv4::parts::{TextDigest, trimmed};
use smithy_core::{Headers, Mem, is_lower_of};
use std::alloc::Global;

/// Hands over the line of each of the names: its values of these headers, and of the host where one is added.
pub(crate) fn push_header_lines(
    text: &mut TextDigest,
    alloc: Global,
    headers: &Headers,
    host: Option<&str>,
    names: &str,
) -> Mem<()>
    ensures { OnOk result ((front : List ℕ) → HoldsText text.old front → HoldsText text.new (front
        ++ flat_map (header_line (with_optional (codes "host") (option_copied host.entry) (given_headers headers.now))) (carried_names names.now))) }
{
    for name in names.split(';') {
        push_header_line(text, alloc, headers, host, name)?;
    }
    Ok(())
}

// Hands over the line of a name.
fn push_header_line(
    text: &mut TextDigest,
    alloc: Global,
    headers: &Headers,
    host: Option<&str>,
    name: &str,
) -> Mem<()>
    ensures { OnOk result ((front : List ℕ) → HoldsText text.old front → HoldsText text.new (front
        ++ header_line (with_optional (codes "host") (option_copied host.entry) (given_headers headers.now)) name.now)) }
{
    text.push_str(name);
    text.push_str(":");
    push_hosted_values(text, alloc, headers, host, name)?;
    text.push_str("\n");
    Ok(())
}

// Hands over the values of a name: the host, where it is added, and else those of the headers.
fn push_hosted_values(
    text: &mut TextDigest,
    alloc: Global,
    headers: &Headers,
    host: Option<&str>,
    name: &str,
) -> Mem<()>
    ensures { OnOk result ((front : List ℕ) → HoldsText text.old front → HoldsText text.new (front
        ++ joined_values (with_optional (codes "host") (option_copied host.entry) (given_headers headers.now)) name.now)) }
{
    let Some(host) = host else {
        return push_values(text, alloc, headers, name);
    };
    if name == "host" {
        text.push_str(host);
        Ok(())
    } else {
        push_values(text, alloc, headers, name)
    }
}

// Hands over the values of a name in order, trimmed, with `,` between.
fn push_values(text: &mut TextDigest, alloc: Global, headers: &Headers, name: &str) -> Mem<()>
    ensures { OnOk result ((front : List ℕ) → HoldsText text.old front → HoldsText text.new (front ++ joined_values (given_headers headers.now) name.now)) }
{
    let mut is_first = true;
    for (key, value) in headers.iter() {
        if is_lower_of(name, key) {
            push_value(text, alloc, is_first, value)?;
            is_first = false;
        }
    }
    Ok(())
}

// Hands over a value, trimmed, behind `,` where it isn't the first.
fn push_value(text: &mut TextDigest, alloc: Global, is_first: bool, value: &str) -> Mem<()>
    ensures { OnOk result ((front : List ℕ) → HoldsText text.old front → HoldsText text.new (front ++ (before_listed is_first ++ trim_all value.now))) }
{
    if !is_first {
        text.push_str(",");
    }
    let value = trimmed(alloc, value)?;
    text.push_str(value.as_str());
    Ok(())
}
