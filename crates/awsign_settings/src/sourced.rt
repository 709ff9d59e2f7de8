//! A value, and where it came from.
ghost use Rattle.std.specs.Prelude.{◌≡◌, IfOk, map, option_map};
ghost use Rattle.awsign_settings.specs.Own.{own_of};
ghost use Rattle.awsign_settings.specs.Settings.{filled_use, from_files, from_option, from_variable, last_part, part_of_own, used_of};

use crate::own::OwnProfile;
use crate::part::Part;
use crate::value_line::property_line;
use smithy_core::{Env, Mem};
use std::alloc::Global;

/// Where a value came from.
#[derive(Clone, Copy)]
pub enum FoundIn<'a> {
    /// An option or a variable of this name.
    Named(&'a str),
    /// The profile file at this path, and the line in it, where that is found.
    File(&'a str, Option<usize>),
    /// Nothing names it.
    Unnamed,
}

/// A value, and where it came from. There is no [`Debug`](std::fmt::Debug), so that no secret is printed.
#[derive(Clone, Copy)]
pub struct Sourced<'a> {
    /// The value.
    pub value: &'a str,
    /// Where it came from.
    pub origin: FoundIn<'a>,
}

/// The value of an option.
pub(crate) fn from_option<'a>(options: &'a Env, word: &'static str) -> Option<Sourced<'a>>
    ensures { option_map used_of result ≡ from_option options.now word.now }
{
    match options.get(word) {
        Some(value) => Some(Sourced {
            value,
            origin: FoundIn::Named(word),
        }),
        None => None,
    }
}

/// A variable; an empty one counts as unset.
pub(crate) fn from_variable<'a>(env: &'a Env, name: &'static str) -> Option<Sourced<'a>>
    ensures { option_map used_of result ≡ from_variable env.now name.now }
{
    filled(from_option(env, name))
}

// The value, unless it is empty.
fn filled(sourced: Option<Sourced<'_>>) -> Option<Sourced<'_>>
    ensures { option_map used_of result ≡ filled_use (option_map used_of sourced.entry) }
{
    match sourced {
        Some(sourced) if !sourced.value.is_empty() => Some(sourced),
        _ => None,
    }
}

/// A part of the profile in the last file that has it; an empty one counts as none.
pub(crate) fn from_files<'a>(
    alloc: Global,
    profile: &str,
    owns: &'a [OwnProfile],
    part: Part,
) -> Mem<Option<Sourced<'a>>>
    ensures { IfOk result (λ sourced. option_map used_of sourced ≡ from_files profile.now part (map own_of owns.now)) }
{
    match last_part(owns, part) {
        Some((own, value)) => {
            let line = property_line(alloc, profile, &own.file, part, value)?;
            let origin = FoundIn::File(own.path(), line);
            Ok(filled(Some(Sourced { value, origin })))
        }
        None => Ok(None),
    }
}

// A part of the profile in the last file that has it.
fn last_part(owns: &[OwnProfile], part: Part) -> Option<(&OwnProfile, &str)>
    ensures { option_map (λ found. ((own_of found.0.now).file, found.1.now)) result ≡ last_part part (map own_of owns.now) }
{
    let mut found = None;
    for own in owns {
        found = part_of_own(own, part).or(found);
    }
    found
}

fn part_of_own(own: &OwnProfile, part: Part) -> Option<(&OwnProfile, &str)>
    ensures { option_map (λ found. ((own_of found.0.now).file, found.1.now)) result ≡ part_of_own part (own_of own.now) }
{
    match part.of(&own.values) {
        Some(value) => Some((own, value)),
        None => None,
    }
}
