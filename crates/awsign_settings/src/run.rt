//! A run of `awsign settings`, behind its words.
ghost use Rattle.std.specs.Prelude.{◌≡◌, ◌≤◌, IfOk, map, option_map, string_bytes};
ghost use Rattle.smithy_core.specs.Outside.{CountsFault};
ghost use Rattle.env_config.specs.Loading.{Loaded, StopsAtFile};
ghost use Rattle.env_config.specs.Source.{file_of};
ghost use Rattle.awsign_run.specs.Chosen.{asked_profile, file_paths, refusal_of};
ghost use Rattle.awsign_run.specs.Run.{asked_places};
ghost use Rattle.awsign_settings.specs.Own.{own_of};
ghost use Rattle.awsign_settings.specs.Settings.{used_of, used_settings_of};
ghost use Rattle.awsign_settings.specs.Lines.{settings_text};
ghost use Rattle.awsign_settings.specs.SettingsRun.{RanSettings, PrintsFiles, PrintsOwns, PrintsText, region_refusal, settings_refusal};

use crate::lines::settings_text;
use crate::own::{OwnProfile, own_profiles};
use crate::settings::{Settings, lack, settings_of};
use awsign_run::{Fault, Status, file_paths, load_source};
use env_config::Source;
use smithy_core::{ByteSink, Disk, Env, Mem, write_all};
use std::alloc::Global;

/// Prints which settings are used under these options, and where each came from. [`Status::Refused`] says what lacks for a signature; the
/// settings are printed all the same, unless a profile file has a line outside the grammar.
///
/// The first test that fails ends the run, in this order: a profile file that an option names, the lines of profile files, the output, the
/// key, the region, and that an option doesn't name an empty one.
pub fn run_settings<D: Disk, K: ByteSink>(
    alloc: Global,
    options: &Env,
    env: &Env,
    disk: &mut D,
    out: &mut K,
) -> Status
    // What was printed is the lines of the settings by options, variables and the texts of files; or why nothing was.
    ensures headline { RanSettings
        (Loaded D.answers D.faults (D.files disk.old) env.now (asked_places options.now) disk.old disk.new)
        (StopsAtFile D.answers D.faults (D.files disk.old) env.now (asked_places options.now) disk.old disk.new)
        options.now env.now result (K.held out.old) (K.held out.new) }

    // No file changed, and no count fell.
    ensures outside { (D.files disk.new ≡ D.files disk.old) × (D.faults disk.old ≤ D.faults disk.new) × (K.faults out.old ≤ K.faults out.new) }

    // It answers that the output failed exactly where that counted a fault.
    ensures failed { CountsFault (result ≡ Status.OutputFault) (K.faults out.old) (K.faults out.new) }
{
    match load_source(alloc, env, disk, options) {
        Ok(source) => print_source(alloc, options, env, &source, out),
        Err(fault) => Status::from(fault),
    }
}

// Prints the settings by the texts of profile files.
fn print_source<K: ByteSink>(
    alloc: Global,
    options: &Env,
    env: &Env,
    source: &Source,
    out: &mut K,
) -> Status
    requires { string_bytes source.now.profile ≡ asked_profile options.now env.now }
    ensures prints { PrintsFiles options.now env.now (map file_of source.now.files.items) result (K.held out.old) (K.held out.new) }
    ensures failed { CountsFault (result ≡ Status.OutputFault) (K.faults out.old) (K.faults out.new) }
{
    match own_profiles(alloc, source) {
        Ok(owns) => print_owns(alloc, options, env, source, owns.as_slice(), out),
        Err(fault) => match Fault::lacking(alloc, fault, source) {
            Ok(fault) => Status::Refused(fault),
            Err(_) => Status::NoMemory,
        },
    }
}

// Prints the settings by what each profile file has by itself.
fn print_owns<K: ByteSink>(
    alloc: Global,
    options: &Env,
    env: &Env,
    source: &Source,
    owns: &[OwnProfile],
    out: &mut K,
) -> Status
    ensures prints { PrintsOwns (file_paths (map file_of source.now.files.items)) options.now env.now (map own_of owns.now) result (K.held out.old) (K.held out.new) }
    ensures failed { CountsFault (result ≡ Status.OutputFault) (K.faults out.old) (K.faults out.new) }
{
    match settings_of(alloc, options, env, owns) {
        Ok(settings) => print_settings(alloc, &settings, source, out),
        Err(_) => Status::NoMemory,
    }
}

// Prints settings.
fn print_settings<K: ByteSink>(
    alloc: Global,
    settings: &Settings<'_>,
    source: &Source,
    out: &mut K,
) -> Status
    ensures prints { let settings = used_settings_of settings.now in let paths = file_paths (map file_of source.now.files.items) in
        PrintsText (settings_text paths settings) (settings_refusal paths settings) result (K.held out.old) (K.held out.new) }
    ensures failed { CountsFault (result ≡ Status.OutputFault) (K.faults out.old) (K.faults out.new) }
{
    let Ok(refusal) = refusal_of(alloc, settings, source) else {
        return Status::NoMemory;
    };
    let Ok(paths) = file_paths(alloc, source.files.as_slice()) else {
        return Status::NoMemory;
    };
    match settings_text(alloc, settings, paths.as_str()) {
        Ok(text) => print_text(text.as_slice(), refusal, out),
        Err(_) => Status::NoMemory,
    }
}

// Why nothing can be signed by these settings, where it can't.
fn refusal_of(alloc: Global, settings: &Settings<'_>, source: &Source) -> Mem<Option<Fault>>
    ensures { IfOk result (λ refusal. option_map refusal_of refusal ≡ settings_refusal (file_paths (map file_of source.now.files.items)) (used_settings_of settings.now)) }
{
    match lack(alloc, settings)? {
        Some(fault) => Ok(Some(Fault::lacking(alloc, fault, source)?)),
        None => Ok(region_refusal(settings)),
    }
}

// Why nothing can be signed for the region, where it is empty.
fn region_refusal(settings: &Settings<'_>) -> Option<Fault>
    ensures { option_map refusal_of result ≡ region_refusal (option_map used_of settings.now.region) }
{
    match settings.region {
        Some(region) if region.value.is_empty() => Some(Fault::EmptyRegion),
        _ => None,
    }
}

// Writes the text, and answers how that went, or why nothing can be signed.
fn print_text<K: ByteSink>(text: &[u8], refusal: Option<Fault>, out: &mut K) -> Status
    ensures prints { PrintsText text.now (option_map refusal_of refusal) result (K.held out.old) (K.held out.new) }
    ensures failed { CountsFault (result ≡ Status.OutputFault) (K.faults out.old) (K.faults out.new) }
{
    match write_all(out, text) {
        Ok(()) => match refusal {
            Some(fault) => Status::Refused(fault),
            None => Status::Done,
        },
        Err(fault) => Status::from(fault),
    }
}
