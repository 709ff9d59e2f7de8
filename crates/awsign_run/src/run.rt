//! A run of the tool, behind its words.
ghost use Rattle.std.specs.Prelude.{◌≡◌, ◌≤◌, ◌++◌, IfOk, IsErrOf, OnErr, codes, map, true, option_copied, option_map, string_bytes};
ghost use Rattle.smithy_core.specs.Given.{Gives};
ghost use Rattle.smithy_core.specs.Outside.{CountsFault, RoseOrStands};
ghost use Rattle.env_config.specs.Files.{chosen_places, file_places, or_usual};
ghost use Rattle.env_config.specs.Source.{file_of};
ghost use Rattle.env_config.specs.Loading.{Loaded, StopsAtFile};
ghost use Rattle.awsign_run.specs.Chosen.{asked_profile};
ghost use Rattle.awsign_run.specs.Run.{Digests, GivesByDigest, GivesByFiles, GivesRunText, HasWritten, LoadsAsked, RanSigning, TakesAskedMoment, asked_moment, asked_places, named_place};
ghost use Rattle.awsign_run.specs.Signing.{FailsReading, GivesNoEnd};
ghost use Rattle.awsign_words.specs.Words.{has, sign_wanted};

use crate::digest::digest_of;
use crate::signing::signed_text;
use crate::status::Status;
use aws_settings::profile_name;
use awsign_words::Asked;
use env_config::{
    BuildFault, Builder, EnvConfigFileKind, EnvConfigFileLoadError, EnvConfigFiles, Source, load,
};
use job_text::{lent, parse_i64};
use smithy_core::{ByteSink, ByteSource, Clock, Disk, Env, Mem, Moment, ReadFault, write_all};
use std::alloc::{AllocError, Global};

/// Signs the request that words ask for, and prints it. The data is read where an option names some, to its end and piece by piece; the
/// moment is the one that an option names, or one of the clock.
///
/// The first test that fails ends the run, in this order: a profile file that an option names, the data, and then the tests of
/// [`signed_text`](crate::signed_text). Until all passed nothing is written.
pub fn run_signing<S: ByteSource, D: Disk, C: Clock, K: ByteSink>(
    alloc: Global,
    asked: &Asked<'_>,
    env: &Env,
    body: &mut S,
    disk: &mut D,
    clock: &mut C,
    out: &mut K,
) -> Status
    // What was printed is the signed request of the words, the variables, the texts of files, the data and the moment; or why nothing was.
    ensures headline { RanSigning (Digests asked.now.options (S.left body.old) (S.left body.new))
        (TakesAskedMoment (λ taken. Gives C.Clock clock.old taken clock.new) (asked_moment asked.now.options)) (sign_wanted asked.now) env.now
        (Loaded D.answers D.faults (D.files disk.old) env.now (asked_places asked.now.options) disk.old disk.new)
        (StopsAtFile D.answers D.faults (D.files disk.old) env.now (asked_places asked.now.options) disk.old disk.new) result (K.held out.old) (K.held out.new) }

    // No file changed, and no count fell.
    ensures outside { (D.files disk.new ≡ D.files disk.old) × (D.faults disk.old ≤ D.faults disk.new) × (S.faults body.old ≤ S.faults body.new)
        × (K.faults out.old ≤ K.faults out.new) }

    // It answers that the data couldn't be read only where its source counted a fault, or gave 2^64 - 1 bytes and no end.
    ensures unread { result ≡ Status.DataFault → FailsReading (S.faults body.old) (S.faults body.new) (S.left body.old) (S.left body.new) }

    // It answers that the output failed exactly where that counted a fault.
    ensures failed { CountsFault (result ≡ Status.OutputFault) (K.faults out.old) (K.faults out.new) }
{
    match signed_bytes(alloc, asked, env, body, disk, clock) {
        Ok(text) => write_text(text.as_slice(), out),
        Err(status) => status,
    }
}

/// Writes a text, and answers how that went.
pub fn write_text<K: ByteSink>(text: &[u8], out: &mut K) -> Status
    ensures wrote { HasWritten text.now result (K.held out.old) (K.held out.new) }
    ensures count { K.faults out.old ≤ K.faults out.new }
    ensures failed { CountsFault (result ≡ Status.OutputFault) (K.faults out.old) (K.faults out.new) }
{
    match write_all(out, text) {
        Ok(()) => Status::Done,
        Err(fault) => Status::from(fault),
    }
}

// The text that is printed.
fn signed_bytes<S: ByteSource, D: Disk, C: Clock>(
    alloc: Global,
    asked: &Asked<'_>,
    env: &Env,
    body: &mut S,
    disk: &mut D,
    clock: &mut C,
) -> Result<Vec<u8>, Status>
    ensures gives { GivesRunText (Digests asked.now.options (S.left body.old) (S.left body.new))
        (TakesAskedMoment (λ taken. Gives C.Clock clock.old taken clock.new) (asked_moment asked.now.options)) (sign_wanted asked.now) env.now
        (Loaded D.answers D.faults (D.files disk.old) env.now (asked_places asked.now.options) disk.old disk.new)
        (StopsAtFile D.answers D.faults (D.files disk.old) env.now (asked_places asked.now.options) disk.old disk.new) result }
    ensures outside { (D.files disk.new ≡ D.files disk.old) × (D.faults disk.old ≤ D.faults disk.new) × (S.faults body.old ≤ S.faults body.new) }
    ensures unread { IsErrOf result Status.DataFault → FailsReading (S.faults body.old) (S.faults body.new) (S.left body.old) (S.left body.new) }
{
    match load_source(alloc, env, disk, &asked.options) {
        Ok(source) => sign_source(alloc, asked, env, &source, body, clock),
        Err(fault) => Err(Status::from(fault)),
    }
}

// The text that is printed with the texts of profile files.
fn sign_source<S: ByteSource, C: Clock>(
    alloc: Global,
    asked: &Asked<'_>,
    env: &Env,
    source: &Source,
    body: &mut S,
    clock: &mut C,
) -> Result<Vec<u8>, Status>
    requires { string_bytes source.now.profile ≡ asked_profile asked.now.options env.now }
    ensures gives { GivesByFiles (Digests asked.now.options (S.left body.old) (S.left body.new))
        (TakesAskedMoment (λ taken. Gives C.Clock clock.old taken clock.new) (asked_moment asked.now.options))
        (sign_wanted asked.now) env.now (map file_of source.now.files.items) result }
    ensures count { S.faults body.old ≤ S.faults body.new }
    ensures unread { IsErrOf result Status.DataFault → FailsReading (S.faults body.old) (S.faults body.new) (S.left body.old) (S.left body.new) }
{
    match data_digest(alloc, &asked.options, body) {
        Ok(digest) => sign_digest(alloc, asked, env, source, &digest, clock),
        Err(fault) => Err(Status::from(fault)),
    }
}

// The text that is printed with the digest of the data.
fn sign_digest<C: Clock>(
    alloc: Global,
    asked: &Asked<'_>,
    env: &Env,
    source: &Source,
    digest: &Option<String>,
    clock: &mut C,
) -> Result<Vec<u8>, Status>
    requires { string_bytes source.now.profile ≡ asked_profile asked.now.options env.now }
    ensures { GivesByDigest (TakesAskedMoment (λ taken. Gives C.Clock clock.old taken clock.new) (asked_moment asked.now.options))
        (sign_wanted asked.now) env.now (map file_of source.now.files.items) (option_map string_bytes digest.now) result }
{
    let at = moment_of(moment_asked(&asked.options), clock);
    match signed_text(alloc, asked, env, source, lent(digest), at) {
        Ok(text) => Ok(text),
        Err(fault) => Err(Status::from(fault)),
    }
}

/// The texts of the profile files that options name, or of the default ones, and the name of the profile.
///
/// # Errors
///
/// Those of [`load`](env_config::load).
pub fn load_source<D: Disk>(
    alloc: Global,
    env: &Env,
    disk: &mut D,
    options: &Env,
) -> Result<Source, EnvConfigFileLoadError>
    ensures count { D.faults disk.old ≤ D.faults disk.new }
    ensures same { D.files disk.new ≡ D.files disk.old }
    ensures loads { LoadsAsked (Loaded D.answers D.faults (D.files disk.old) env.now (asked_places options.now) disk.old disk.new)
        (StopsAtFile D.answers D.faults (D.files disk.old) env.now (asked_places options.now) disk.old disk.new) (asked_profile options.now env.now) result }
{
    let profile = String::from_str(alloc, profile_name(options.get("--profile"), env))?;
    let files = files_of(alloc, options)?;
    let source = load(alloc, env, disk, &files)?;
    Ok(Source { profile, ..source })
}

// The profile files that options name, or else the default ones.
fn files_of(alloc: Global, options: &Env) -> Mem<EnvConfigFiles>
    ensures { IfOk result (λ files. file_places files ≡ asked_places options.now) }
{
    let builder = EnvConfigFiles::builder(alloc);
    let builder = with_named(
        builder,
        alloc,
        EnvConfigFileKind::Config,
        options.get("--config"),
    )?;
    let kind = EnvConfigFileKind::Credentials;
    built(
        alloc,
        with_named(builder, alloc, kind, options.get("--credentials"))?,
    )
}

// The files of a builder, or else the default ones.
fn built(alloc: Global, builder: Builder) -> Mem<EnvConfigFiles>
    ensures { IfOk result (λ files. file_places files ≡ or_usual (chosen_places builder)) }
{
    match builder.build() {
        Ok(files) => Ok(files),
        Err(BuildFault::NoFiles) => EnvConfigFiles::default_files(alloc),
        Err(BuildFault::NoMemory) => Err(AllocError),
    }
}

// The builder with the file at a path, where there is one.
#[tactic(auto, using(env_config::proofs::FilesLemmas::chosen_grows))]
fn with_named(
    builder: Builder,
    alloc: Global,
    kind: EnvConfigFileKind,
    path: Option<&str>,
) -> Mem<Builder>
    ensures { IfOk result (λ now. chosen_places now ≡ chosen_places builder ++ named_place kind (option_copied path.entry)) }
{
    match path {
        Some(path) => builder.with_file(kind, String::from_str(alloc, path)?),
        None => Ok(builder),
    }
}

// The digest of the data, where an option names some.
fn data_digest<S: ByteSource>(
    alloc: Global,
    options: &Env,
    body: &mut S,
) -> Result<Option<String>, ReadFault>
    ensures digests { IfOk result (λ digest. Digests options.now (S.left body.old) (S.left body.new) (option_map string_bytes digest)) }
    ensures named { OnErr result (has options.now (codes "--data") ≡ true) }
    ensures failed { IsErrOf result ReadFault.Failed → RoseOrStands (S.faults body.old) (S.faults body.new) }
    ensures too_large { IsErrOf result ReadFault.TooLarge → GivesNoEnd (S.left body.old) (S.left body.new) }
    ensures count { S.faults body.old ≤ S.faults body.new }
{
    if options.get("--data").is_some() {
        Ok(Some(digest_of(alloc, body)?))
    } else {
        Ok(None)
    }
}

/// The moment that an option names.
pub fn moment_asked(options: &Env) -> Option<Moment>
    ensures { result ≡ asked_moment options.now }
{
    let secs = parse_i64(options.get("--at")?)?;
    Some(Moment::new(secs, 0))
}

/// The moment that is asked for, or else one of the clock.
pub fn moment_of<C: Clock>(asked: Option<Moment>, clock: &mut C) -> Moment
    ensures { TakesAskedMoment (λ taken. Gives C.Clock clock.old taken clock.new) asked result }
{
    match asked {
        Some(at) => at,
        None => clock.now(),
    }
}
