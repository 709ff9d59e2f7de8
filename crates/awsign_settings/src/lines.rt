//! The lines that are printed of the settings.
ghost use Rattle.std.specs.Prelude.{◌≡◌, ◌++◌, ◌-◌, IfOk, OnOk, drop, length, option_map};
ghost use Rattle.std.specs.String.{string_bytes};
ghost use Rattle.awsign_settings.specs.Settings.{used_key_of, used_of, used_settings_of, whence_of};
ghost use Rattle.awsign_settings.specs.Lines.{key_lines, missed_at, used_line, settings_text, value_shown, tabbed_line, whence_text};

use crate::settings::{KeySettings, Settings};
use crate::sourced::{FoundIn, Sourced};
use smithy_core::{Mem, push_line};
use std::alloc::Global;

/// How a value is shown.
#[derive(Clone, Copy, Debug, PartialEq, Eq)]
pub enum Shown {
    /// As it is.
    Plain,
    /// By its last four bytes.
    Masked,
    /// Not at all.
    Hidden,
}

/// What is printed of settings: a line for each of profile, key, secret, token and region, with its value, or that it isn't set, and where it
/// came from, or was looked for: `paths` are those of the profile files. Of the key's id it has the last four bytes, and of secret and
/// token none.
#[tactic(auto, unfolding(crate::specs::Lines::settings_text))]
pub fn settings_text(alloc: Global, settings: &Settings<'_>, paths: &str) -> Mem<Vec<u8>>
    ensures { IfOk result (λ text. text.items ≡ settings_text paths.now (used_settings_of settings.now)) }
{
    let mut text = Vec::new(alloc);
    push_setting(
        alloc,
        &mut text,
        "profile",
        Shown::Plain,
        paths,
        Some(settings.profile),
    )?;
    push_key(alloc, &mut text, paths, &settings.key)?;
    push_setting(
        alloc,
        &mut text,
        "region",
        Shown::Plain,
        paths,
        settings.region,
    )?;
    Ok(text)
}

#[tactic(auto, unfolding(crate::specs::Lines::key_lines))]
fn push_key(alloc: Global, text: &mut Vec<u8>, paths: &str, key: &KeySettings<'_>) -> Mem<()>
    ensures { OnOk result (text.new.items ≡ text.old.items ++ key_lines paths.now (used_key_of key.now)) }
{
    let secret = missed_at(key, "AWS_SECRET_ACCESS_KEY", paths);
    let token = missed_at(key, "AWS_SESSION_TOKEN", paths);
    push_setting(alloc, text, "key", Shown::Masked, paths, key.key_id)?;
    push_setting(alloc, text, "secret", Shown::Hidden, secret, key.secret)?;
    push_setting(alloc, text, "token", Shown::Hidden, token, key.token)
}

// Where a part of the key was looked for.
fn missed_at<'a>(key: &KeySettings<'_>, name: &'static str, paths: &'a str) -> &'a str
    ensures { result.now ≡ missed_at (used_key_of key.now) name.now paths.now }
{
    if key.by_variables { name } else { paths }
}

fn push_setting(
    alloc: Global,
    text: &mut Vec<u8>,
    name: &str,
    form: Shown,
    missed: &str,
    sourced: Option<Sourced<'_>>,
) -> Mem<()>
    ensures { OnOk result (text.new.items ≡ text.old.items ++ used_line name.now form missed.now (option_map used_of sourced.entry)) }
{
    match sourced {
        Some(sourced) => {
            let value = value_shown(alloc, form, sourced.value)?;
            let whence = whence_text(alloc, sourced.origin)?;
            push_tabbed(text, name, value.as_slice(), whence.as_str())
        }
        None => push_tabbed(text, name, b"not set", missed),
    }
}

fn push_tabbed(text: &mut Vec<u8>, name: &str, value: &[u8], whence: &str) -> Mem<()>
    ensures { OnOk result (text.new.items ≡ text.old.items ++ tabbed_line name.now value.now whence.now) }
{
    text.extend_from_slice(name.as_bytes())?;
    text.extend_from_slice(b"\t")?;
    text.extend_from_slice(value)?;
    text.extend_from_slice(b"\t")?;
    push_line(text, whence.as_bytes())
}

fn value_shown(alloc: Global, form: Shown, value: &str) -> Mem<Vec<u8>>
    ensures { IfOk result (λ made. made.items ≡ value_shown form value.now) }
{
    let mut made = Vec::new(alloc);
    match form {
        Shown::Plain => made.extend_from_slice(value.as_bytes())?,
        Shown::Masked => {
            made.extend_from_slice(b"****************")?;
            made.extend_from_slice(last_four(value.as_bytes()))?;
        }
        Shown::Hidden => made.extend_from_slice(b"set")?,
    }
    Ok(made)
}

fn last_four(bytes: &[u8]) -> &[u8]
    ensures { result.now ≡ drop (length bytes.now - 4) bytes.now }
{
    &bytes[bytes.len().saturating_sub(4)..]
}

fn whence_text(alloc: Global, origin: FoundIn<'_>) -> Mem<String>
    ensures { IfOk result (λ text. string_bytes text ≡ whence_text (whence_of origin.entry)) }
{
    match origin {
        FoundIn::Named(name) => String::from_str(alloc, name),
        FoundIn::File(path, None) => String::from_str(alloc, path),
        FoundIn::File(path, Some(place)) => format!(in alloc; "{path}, line {place}"),
        FoundIn::Unnamed => String::from_str(alloc, "not named"),
    }
}
