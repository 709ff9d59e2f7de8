//! Settings, of profile files and variables.
ghost use Rattle.std.specs.Prelude.{◌≡◌, None, Result, IfOk, Ok, string_bytes};
ghost use Rattle.env_config.specs.ParseFault.{faulty_line_of};
ghost use Rattle.aws_settings.specs.Choice.{lack_in, profile_name, settings_seen};
ghost use Rattle.firuvaik_c.specs.Selecting.{AppendsText, LendsSelection, SelectsLent, DescribesSettings, lack_or_memory, line_fault};
ghost use Rattle.firuvaik_c.specs.declared.fault.Fault.{Fault};
ghost use Rattle.firuvaik_c.specs.declared.select.FoundSettings.{FoundSettings};

use crate::answer::{Answer, lend, refuse};
use crate::fault::{Fault, placed, plain};
use crate::lent::Sources;
use crate::texts::{text_of, variables_of};
use aws_settings::{AwsSettings, EnvConfigParseError, SettingsFault, profile_name};
use smithy_core::{Env, Mem};
use std::alloc::Global;

/// Where a text stands in the room.
#[repr(C)]
#[derive(Clone, Copy)]
pub struct Span {
    /// Where it begins, in bytes from the first one on.
    pub start: usize,
    /// How many bytes it has.
    pub length: usize,
}

/// Where the texts of settings stand in the room.
#[repr(C)]
#[derive(Clone, Copy)]
pub struct Selection {
    /// The access key id.
    pub key_id: Span,
    /// The secret access key.
    pub secret: Span,
    /// The session token; one of no bytes where there is none.
    pub token: Span,
    /// The region.
    pub region: Span,
    /// The name of the profile.
    pub profile: Span,
}

/// Selects what there is to sign with: key and region, each of the variables or else of the profile that these select.
///
/// The texts, and where each stands, are written where they fit the room, and else nothing is.
#[unsafe(no_mangle)]
pub extern "C" fn firuvaik_select(
    alloc: Global,
    sources: &Sources<'_>,
    selection: &mut Selection,
    out: &mut [u8],
) -> Answer
    ensures { (made : Result FoundSettings Fault) × SelectsLent sources.now made × LendsSelection made selection.old selection.new out.old out.new result }
{
    match selected(alloc, sources) {
        Ok(found) => lend_selection(&found, selection, out),
        Err(fault) => refuse(fault),
    }
}

// The texts of settings, one behind the other, and where each stands.
#[derive(Drop)]
struct FoundSettings {
    text: Vec<u8>,
    selection: Selection,
}

// Writes what was found, where the texts fit.
fn lend_selection(found: &FoundSettings, selection: &mut Selection, out: &mut [u8]) -> Answer
    ensures { LendsSelection (Ok found.now) selection.old selection.new out.old out.new result }
{
    let answer = lend(found.text.as_slice(), out);
    if answer.status == 0 {
        *selection = found.selection;
    }
    answer
}

// What is selected.
fn selected(alloc: Global, sources: &Sources<'_>) -> Result<FoundSettings, Fault>
    ensures { SelectsLent sources.now result }
{
    let config = text_of(sources.config)?;
    let credentials = text_of(sources.credentials)?;
    let env = variables_of(alloc, sources.variables)?;
    match AwsSettings::from_texts(alloc, &env, config, credentials) {
        Ok(settings) => Ok(found_in(alloc, &settings, &env)?),
        Err(fault) => Err(settings_fault(&fault)),
    }
}

// The fault of texts and variables that give no settings.
fn settings_fault(fault: &SettingsFault) -> Fault
    ensures { result ≡ lack_or_memory (lack_in fault.now) }
{
    match fault {
        SettingsFault::Profile(error) => line_fault(error),
        SettingsFault::MissingKey(_) => plain(92),
        SettingsFault::MissingSecret => plain(93),
        SettingsFault::MissingRegion(_) => plain(94),
        SettingsFault::NoMemory => plain(2),
    }
}

// The fault of a line, of the config text or of the credentials text.
fn line_fault(error: &EnvConfigParseError) -> Fault
    ensures { result ≡ line_fault (faulty_line_of error.now) }
{
    let status = if error.path.as_str() == "the config text" {
        90
    } else {
        91
    };
    placed(status, error.line_number)
}

// The texts of settings, and the name of the profile that the variables select.
fn found_in(alloc: Global, settings: &AwsSettings, env: &Env) -> Mem<FoundSettings>
    ensures { IfOk result (λ found. DescribesSettings found.text.items found.selection (settings_seen settings.now) (profile_name None env.now)) }
{
    let name = name_of_profile(alloc, env)?;
    let keys = &settings.credentials;
    let mut text = Vec::new(alloc);
    let key_id = push_text(&mut text, keys.access_key_id())?;
    let secret = push_text(&mut text, keys.secret_access_key())?;
    let token = push_text(&mut text, keys.session_token().unwrap_or(""))?;
    let region = push_text(&mut text, settings.region.as_str())?;
    let profile = push_text(&mut text, name.as_str())?;
    Ok(FoundSettings {
        text,
        selection: Selection {
            key_id,
            secret,
            token,
            region,
            profile,
        },
    })
}

// The name of the profile that the variables select.
fn name_of_profile(alloc: Global, env: &Env) -> Mem<String>
    ensures { IfOk result (λ name. string_bytes name ≡ profile_name None env.now) }
{
    String::from_str(alloc, profile_name(None, env))
}

// Appends a text, and tells where it stands.
fn push_text(texts: &mut Vec<u8>, text: &str) -> Mem<Span>
    ensures { IfOk result (λ span. AppendsText texts.old.items text.now span texts.new.items) }
{
    let start = texts.len();
    texts.extend_from_slice(text.as_bytes())?;
    Ok(Span {
        start,
        length: text.len(),
    })
}
