//! What the commands print that show what they read.
ghost use Rattle.std.specs.Prelude.{◌≡◌, ◌++◌, IfOk, OnOk, codes, option_copied};
ghost use Rattle.std.specs.String.{string_bytes};
ghost use Rattle.smithy_core.specs.Text.{line};
ghost use Rattle.smithy_http.specs.Escape.{escaped};
ghost use Rattle.signed_stream.specs.Settings.{selected_in};
ghost use Rattle.signed_stream.specs.Shown.{is_hidden, shown_line, shown_settings, yes_or_no};

use crate::settings::Settings;
use percent_encoding::{AsciiSet, CONTROLS, ascii_set, utf8_percent_encode};
use smithy_core::Mem;
use std::alloc::Global;

// The ASCII bytes that aren't shown as they are.
const HIDDEN: AsciiSet = ascii_set!(CONTROLS.add(b'%'));

/// The lines of the command `settings`: the profile, the region, the key id, and whether there is a token.
#[tactic(auto, unfolding(crate::specs::Shown::shown_settings))]
pub fn settings_text(alloc: Global, settings: &Settings) -> Mem<String>
    ensures { IfOk result (λ text. string_bytes text ≡ shown_settings (selected_in settings.now)) }
{
    let credentials = &settings.credentials;
    let mut text = String::new(alloc);
    push_shown(&mut text, "profile", settings.profile.as_str())?;
    push_shown(&mut text, "region", settings.region.as_str())?;
    push_shown(&mut text, "key-id", credentials.access_key_id())?;
    text.push_str(token_line(credentials.session_token()))?;
    Ok(text)
}

// Appends `NAME VALUE` as a line, with the hidden bytes of the value escaped.
fn push_shown(text: &mut String, name: &str, value: &str) -> Mem<()>
    ensures { OnOk result (string_bytes text.new ≡ string_bytes text.old ++ shown_line name.now value.now) }
{
    text.push_str(name)?;
    text.push(' ')?;
    push_escaped(text, value)?;
    text.push('\n')?;
    Ok(())
}

// Appends the value with its hidden bytes escaped.
#[tactic(auto, using(crate::proofs::ShownLemmas::by_hidden))]
fn push_escaped(text: &mut String, value: &str) -> Mem<()>
    ensures { OnOk result (string_bytes text.new ≡ string_bytes text.old ++ escaped is_hidden value.now) }
{
    utf8_percent_encode(value, HIDDEN).append_to(text)
}

// The line that says whether there is a token.
fn token_line(token: Option<&str>) -> &'static str
    ensures { result.now ≡ line (codes "token " ++ yes_or_no (option_copied token.entry)) }
{
    match token {
        Some(_) => "token yes\n",
        None => "token no\n",
    }
}
