//! The line of a property in a profile file.
ghost use Rattle.std.specs.Prelude.{◌≡◌, ◌<◌, IfOk, bytes_eq, length, map, option_copied};
ghost use Rattle.std.specs.String.{string_bytes};
ghost use Rattle.smithy_core.specs.TextPairs.{lower};
ghost use Rattle.env_config.specs.Source.{file_of};
ghost use Rattle.awsign_settings.specs.Own.{alone};
ghost use Rattle.awsign_settings.specs.ValueLine.{begins_with_key, has_other, has_value, is_other, lines_of, other_file, other_text, property_line};

use crate::own::read_alone;
use crate::part::Part;
use aws_settings::SettingsFault;
use env_config::File;
use smithy_core::Mem;
use std::alloc::{AllocError, Global};

/// The place of the line on which a value of the profile stands: the first one that begins with the part's key and on which another value
/// would be the profile's. Places count from 1.
///
/// Each line that begins with the key costs a reading of the file, up to the one that is found.
#[tactic(auto, unfolding(crate::specs::ValueLine::property_line))]
pub fn property_line(
    alloc: Global,
    profile: &str,
    file: &File,
    part: Part,
    value: &str,
) -> Mem<Option<usize>>
    ensures { IfOk result (λ place. place ≡ property_line profile.now (file_of file.now) part value.now) }
{
    let lines = lines_of(alloc, file.contents.as_str())?;
    let lines = lines.as_slice();
    for at in 0..lines.len() {
        if has_value(alloc, profile, file, part, value, lines, at)? {
            return Ok(Some(at + 1));
        }
    }
    Ok(None)
}

// Whether the value of the part stands on the line with so many before it.
fn has_value(
    alloc: Global,
    profile: &str,
    file: &File,
    part: Part,
    value: &str,
    lines: &[&str],
    at: usize,
) -> Mem<bool>
    requires lines { map (λ l. l.now) lines.now ≡ lines_of (file_of file.now).contents }
    requires within { at < length lines.now }
    ensures { IfOk result (λ has. has ≡ has_value profile.now (file_of file.now) part value.now at) }
{
    if !begins_with_key(lines[at], part.key()) {
        return Ok(false);
    }
    let other = other_file(alloc, file, lines, part, at)?;
    has_other(alloc, profile, other, part, value)
}

fn lines_of(alloc: Global, text: &str) -> Mem<Vec<&str>>
    ensures { IfOk result (λ lines. map (λ l. l.now) lines.items ≡ lines_of text.now) }
{
    let mut lines = Vec::new(alloc);
    for line in text.split('\n') {
        lines.push(line)?;
    }
    Ok(lines)
}

// Whether a line begins with the key, in whatever case.
fn begins_with_key(line: &str, key: &str) -> bool
    ensures { result ≡ begins_with_key key.now line.now }
{
    key.len() <= line.len() && is_same_name(&line.as_bytes()[..key.len()], key.as_bytes())
}

fn is_same_name(name: &[u8], other: &[u8]) -> bool
    ensures { result ≡ bytes_eq (lower name.now) (lower other.now) }
{
    name.eq_ignore_ascii_case(other)
}

// The file with another value of the part on the line with so many before it.
fn other_file(alloc: Global, file: &File, lines: &[&str], part: Part, at: usize) -> Mem<File>
    requires lines { map (λ l. l.now) lines.now ≡ lines_of (file_of file.now).contents }
    requires within { at < length lines.now }
    ensures { IfOk result (λ other. file_of other ≡ other_file (file_of file.now) part at) }
{
    let other = file.try_clone()?;
    Ok(File {
        contents: other_text(alloc, lines, part.key(), at)?,
        ..other
    })
}

#[tactic(auto, unfolding(crate::specs::ValueLine::other_text))]
fn other_text(alloc: Global, lines: &[&str], key: &str, at: usize) -> Mem<String>
    requires { at < length lines.now }
    ensures { IfOk result (λ text. string_bytes text ≡ other_text key.now (map (λ l. l.now) lines.now) at) }
{
    let before = lines[..at].join(alloc, "\n")?;
    let behind = lines[at + 1..].join(alloc, "\n")?;
    format!(in alloc; "{before}\n{key} = ?\n{behind}")
}

// Whether the profile has another value of the part in a file.
fn has_other(alloc: Global, profile: &str, file: File, part: Part, value: &str) -> Mem<bool>
    ensures { IfOk result (λ has. has ≡ has_other part value.now (alone profile.now (file_of file))) }
{
    match read_alone(alloc, profile, file) {
        Ok(values) => Ok(is_other(value, part.of(&values))),
        Err(SettingsFault::NoMemory) => Err(AllocError),
        Err(_) => Ok(false),
    }
}

fn is_other(value: &str, other: Option<&str>) -> bool
    ensures { result ≡ is_other value.now (option_copied other.entry) }
{
    match other {
        Some(other) => other != value,
        None => false,
    }
}
