ghost use Rattle.std.specs.Prelude.{◌≡◌, ◌≤◌, Ok, IfOk, map};
ghost use Rattle.std.specs.String.{string_bytes};
ghost use Rattle.smithy_core.specs.Given.{Gives};
ghost use Rattle.smithy_core.specs.Outside.{IsAtEnd, IsRestOf};
ghost use Rattle.sigv4.specs.Settings.{settings_of};
ghost use Rattle.job_text.specs.RequestLines.{request_job, request_parts};
ghost use Rattle.presign_check.specs.Presigned.{ChecksPresigned};
ghost use Rattle.presigned_program.specs.PresignRun.{CountsInput, CountsOutput, GoesPresigned, HasChecked, HasCheckedSelected, IsAfterRead, IsAfterRequest, IsAfterSelection, KeepsDiskAt, KeepsPresigned, RanCheck, RanPresigned, RanWords, TakesOne, UnlessWords, presign_asked, presign_settings, valid_until};
ghost use Rattle.presigned_program.specs.PresignStatus.{ends, presign_ending};
ghost use Rattle.signed_stream.specs.RequestWords.{request_wanted, request_words};
ghost use Rattle.signed_stream.specs.Settings.{selected_in};
ghost use Rattle.signed_stream.specs.Sources.{DiskGives};
ghost use Rattle.signed_stream.specs.Status.{done};

use crate::saying::say_presigned;
use crate::status::PresignStatus;
use job_text::{JobFault, RequestJob, WordsFault, take_request_job};
use presign_check::{PresignFault, check_presigned};
use signed_stream::{MOST_INPUT, RequestWords, Settings, read_request_words, select};
use sigv4::{SignableBody, SignatureLocation, SigningSettings};
use smithy_core::{
    ByteSink, ByteSource, Clock, Disk, Env, HttpRequest, Mem, Moment, ReadFault, SinkError,
    read_all, write_all,
};
use std::alloc::Global;

/// Checks the presigned request that the input spells, and says on `err` how it ended.
///
/// The words are the command-line arguments after the program's name: `--name NAME`, which is required, `--at N`,
/// `--service-id ID`, `--config PATH` and `--credentials PATH`, each at most once and in any order. The input is a job without
/// events. Region and key are what files and variables select, as for [`run`](signed_stream::run); the body is the job's; and
/// the moment is N, or one of the clock, which is asked only once region and key are there. Where the request meets no test of
/// [`check_presigned`](presign_check::check_presigned) the output gains `valid until` and the second.
///
/// The first test that fails ends the run, in this order: the words, the length of the input, its lines, the files that are named,
/// the lines of the texts, the key, the region, and then the tests of the request. Until all passed nothing is written.
pub fn run_presigned<S: ByteSource, D: Disk, C: Clock, K: ByteSink, E: ByteSink>(
    alloc: Global,
    words: &[String],
    env: &Env,
    input: &mut S,
    disk: &mut D,
    clock: &mut C,
    out: &mut K,
    err: &mut E,
) -> PresignStatus
    // How it went: it ended, gained and said what words, variables, input, files and clock ask for.
    ensures headline { RanPresigned (DiskGives D.answers D.faults (D.files disk.old) env.now disk.old disk.new)
        (λ taken. Gives C.Clock clock.old taken clock.new) env.now
        (request_words (map string_bytes words.now)) (S.left input.old) (presign_ending result) (S.faults input.old) (S.faults input.new)
        (record { held_before = K.held out.old; held_now = K.held out.new; faults_before = K.faults out.old; faults_now = K.faults out.new })
        (record { held_before = E.held err.old; held_now = E.held err.new; faults_before = E.faults err.old; faults_now = E.faults err.new }) }

    // Where a word is bad, output, input and disk are as they were.
    ensures untouched { UnlessWords (request_words (map string_bytes words.now)) ((K.held out.new ≡ K.held out.old) × (K.faults out.new ≡ K.faults out.old)
        × (S.left input.new ≡ S.left input.old) × (S.faults input.new ≡ S.faults input.old) × (disk.new ≡ disk.old)) }

    // The disk was asked only once the input was read and is a job; and its files are as they were.
    ensures disk { KeepsDiskAt (presign_ending result) disk.old disk.new × (D.files disk.new ≡ D.files disk.old) }

    // The input was read to its end, a suffix of it is left, and no count fell.
    ensures outside { (presign_ending result ≡ ends done → IsAtEnd (S.left input.new)) × IsRestOf (S.left input.old) (S.left input.new)
        × (S.faults input.old ≤ S.faults input.new) × (D.faults disk.old ≤ D.faults disk.new) × (K.faults out.old ≤ K.faults out.new)
        × (E.faults err.old ≤ E.faults err.new) }
{
    let status = answer(alloc, words, env, input, disk, clock, out);
    say_presigned(alloc, status, err)
}

// Checks the request, and answers how it ended.
#[tactic(auto, using(crate::proofs::PresignLemmas::holds_unless_words))]
fn answer<S: ByteSource, D: Disk, C: Clock, K: ByteSink>(
    alloc: Global,
    words: &[String],
    env: &Env,
    input: &mut S,
    disk: &mut D,
    clock: &mut C,
    out: &mut K,
) -> PresignStatus
    ensures ran { RanWords (DiskGives D.answers D.faults (D.files disk.old) env.now disk.old disk.new) (λ taken. Gives C.Clock clock.old taken clock.new) env.now
        (request_words (map string_bytes words.now)) (S.left input.old) (presign_ending result) (K.held out.old) (K.held out.new) }
    ensures kept { KeepsPresigned (presign_ending result) (K.held out.old) (K.held out.new) }
    ensures reads { CountsInput (presign_ending result) (S.faults input.old) (S.faults input.new) }
    ensures writes { CountsOutput (presign_ending result) (K.faults out.old) (K.faults out.new) }
    ensures untouched { UnlessWords (request_words (map string_bytes words.now)) ((K.held out.new ≡ K.held out.old) × (K.faults out.new ≡ K.faults out.old)
        × (S.left input.new ≡ S.left input.old) × (S.faults input.new ≡ S.faults input.old) × (disk.new ≡ disk.old)) }
    ensures disk { KeepsDiskAt (presign_ending result) disk.old disk.new × (D.files disk.new ≡ D.files disk.old) }
    ensures outside { (presign_ending result ≡ ends done → IsAtEnd (S.left input.new)) × IsRestOf (S.left input.old) (S.left input.new)
        × (S.faults input.old ≤ S.faults input.new) × (D.faults disk.old ≤ D.faults disk.new) × (K.faults out.old ≤ K.faults out.new) }
{
    match read_request_words(alloc, words) {
        Ok(words) => answer_words(alloc, &words, env, input, disk, clock, out),
        Err(WordsFault::BadWord(place)) => PresignStatus::BadWords(place),
        Err(WordsFault::NoMemory) => PresignStatus::NoMemory,
    }
}

// Checks the request that the input spells, as the words ask.
fn answer_words<S: ByteSource, D: Disk, C: Clock, K: ByteSink>(
    alloc: Global,
    words: &RequestWords<'_>,
    env: &Env,
    input: &mut S,
    disk: &mut D,
    clock: &mut C,
    out: &mut K,
) -> PresignStatus
    ensures ran { RanCheck (DiskGives D.answers D.faults (D.files disk.old) env.now disk.old disk.new) (λ taken. Gives C.Clock clock.old taken clock.new) env.now
        (request_wanted words.now) (S.left input.old) (presign_ending result) (K.held out.old) (K.held out.new) }
    ensures kept { KeepsPresigned (presign_ending result) (K.held out.old) (K.held out.new) }
    ensures reads { CountsInput (presign_ending result) (S.faults input.old) (S.faults input.new) }
    ensures writes { CountsOutput (presign_ending result) (K.faults out.old) (K.faults out.new) }
    ensures disk { KeepsDiskAt (presign_ending result) disk.old disk.new × (D.files disk.new ≡ D.files disk.old) }
    ensures outside { (presign_ending result ≡ ends done → IsAtEnd (S.left input.new)) × IsRestOf (S.left input.old) (S.left input.new)
        × (S.faults input.old ≤ S.faults input.new) × (D.faults disk.old ≤ D.faults disk.new) × (K.faults out.old ≤ K.faults out.new) }
{
    match read_all(alloc, input, MOST_INPUT) {
        Ok(bytes) => answer_bytes(alloc, words, bytes, env, disk, clock, out),
        Err(ReadFault::Failed) => PresignStatus::ReadFault,
        Err(ReadFault::TooLarge) => PresignStatus::JobTooLarge,
        Err(ReadFault::NoMemory) => PresignStatus::NoMemory,
    }
}

// Checks the request that the bytes spell. They go as soon as they are read.
fn answer_bytes<D: Disk, C: Clock, K: ByteSink>(
    alloc: Global,
    words: &RequestWords<'_>,
    bytes: Vec<u8>,
    env: &Env,
    disk: &mut D,
    clock: &mut C,
    out: &mut K,
) -> PresignStatus
    ensures checked { HasChecked (DiskGives D.answers D.faults (D.files disk.old) env.now disk.old disk.new) (λ taken. Gives C.Clock clock.old taken clock.new) env.now
        (request_wanted words.now) (request_job bytes.items) (presign_ending result) (K.held out.old) (K.held out.new) }
    ensures end { IsAfterRead (presign_ending result) }
    ensures writes { CountsOutput (presign_ending result) (K.faults out.old) (K.faults out.new) }
    ensures disk { KeepsDiskAt (presign_ending result) disk.old disk.new × (D.files disk.new ≡ D.files disk.old) }
    ensures count { (D.faults disk.old ≤ D.faults disk.new) × (K.faults out.old ≤ K.faults out.new) }
{
    match take_request_job(alloc, bytes) {
        Ok(job) => answer_job(alloc, words, job, env, disk, clock, out),
        Err(JobFault::BadLine(place)) => PresignStatus::BadJob(place),
        Err(JobFault::NoMemory) => PresignStatus::NoMemory,
    }
}

// Checks the request of a job, under what its texts and the files select that the words name.
fn answer_job<D: Disk, C: Clock, K: ByteSink>(
    alloc: Global,
    words: &RequestWords<'_>,
    job: RequestJob,
    env: &Env,
    disk: &mut D,
    clock: &mut C,
    out: &mut K,
) -> PresignStatus
    ensures checked { HasChecked (DiskGives D.answers D.faults (D.files disk.old) env.now disk.old disk.new) (λ taken. Gives C.Clock clock.old taken clock.new) env.now
        (request_wanted words.now) (Ok (request_parts job)) (presign_ending result) (K.held out.old) (K.held out.new) }
    ensures end { IsAfterRequest (presign_ending result) }
    ensures writes { CountsOutput (presign_ending result) (K.faults out.old) (K.faults out.new) }
    ensures disk { D.files disk.new ≡ D.files disk.old }
    ensures count { (D.faults disk.old ≤ D.faults disk.new) × (K.faults out.old ≤ K.faults out.new) }
{
    let RequestJob { request, texts } = job;
    match select(alloc, env, disk, &words.profile, texts) {
        Ok(settings) => answer_selected(alloc, words, &request, &settings, clock, out),
        Err(fault) => PresignStatus::from(fault),
    }
}

// Checks a request under what is selected.
fn answer_selected<C: Clock, K: ByteSink>(
    alloc: Global,
    words: &RequestWords<'_>,
    request: &HttpRequest,
    settings: &Settings,
    clock: &mut C,
    out: &mut K,
) -> PresignStatus
    ensures checked { HasCheckedSelected (λ taken. Gives C.Clock clock.old taken clock.new) (request_wanted words.now) (selected_in settings.now) request.now
        (presign_ending result) (K.held out.old) (K.held out.new) }
    ensures end { IsAfterSelection (presign_ending result) }
    ensures writes { CountsOutput (presign_ending result) (K.faults out.old) (K.faults out.new) }
    ensures count { K.faults out.old ≤ K.faults out.new }
{
    let now = moment_of(words.at, clock);
    match check_at(alloc, words.name, request, settings, now) {
        Ok(until) => write_until(alloc, until, out),
        Err(met) => PresignStatus::from(met),
    }
}

// The moment that the words name, or else one of the clock.
fn moment_of<C: Clock>(at: Option<Moment>, clock: &mut C) -> Moment
    ensures { TakesOne (λ taken. Gives C.Clock clock.old taken clock.new) at result }
{
    match at {
        Some(at) => at,
        None => clock.now(),
    }
}

// Until when the request is good at a moment, under what is selected and with the usual settings in query form.
fn check_at(
    alloc: Global,
    name: &str,
    request: &HttpRequest,
    settings: &Settings,
    now: Moment,
) -> Result<i128, PresignFault>
    ensures { ChecksPresigned (presign_asked name.now (selected_in settings.now) request.now now) result }
{
    let signing = query_settings(alloc)?;
    check_presigned(
        alloc,
        request,
        &signing,
        settings.region.as_str(),
        name,
        &SignableBody::Bytes(request.body.as_slice()),
        settings.credentials.access_key_id(),
        settings.credentials.secret_access_key(),
        now,
    )
}

// The usual settings, in query form.
fn query_settings(alloc: Global) -> Mem<SigningSettings>
    ensures { IfOk result (λ settings. settings_of settings ≡ presign_settings) }
{
    Ok(SigningSettings {
        signature_location: SignatureLocation::QueryParams,
        ..SigningSettings::new(alloc)?
    })
}

// Writes until when a request is good.
fn write_until<K: ByteSink>(alloc: Global, until: i128, out: &mut K) -> PresignStatus
    ensures printed { GoesPresigned (Ok (valid_until until)) (presign_ending result) (K.held out.old) (K.held out.new) }
    ensures end { IsAfterSelection (presign_ending result) }
    ensures writes { CountsOutput (presign_ending result) (K.faults out.old) (K.faults out.new) }
    ensures count { K.faults out.old ≤ K.faults out.new }
{
    match until_text(alloc, until) {
        Ok(text) => write_text(text.as_str(), out),
        Err(_) => PresignStatus::NoMemory,
    }
}

// The line that says until when a request is good.
#[tactic(auto, unfolding(crate::specs::PresignRun::valid_until))]
fn until_text(alloc: Global, until: i128) -> Mem<String>
    ensures { IfOk result (λ text. string_bytes text ≡ valid_until until) }
{
    format!(in alloc; "valid until {until}\n")
}

/// Writes a text, and answers how the check ended.
pub fn write_text<K: ByteSink>(text: &str, out: &mut K) -> PresignStatus
    ensures printed { GoesPresigned (Ok text.now) (presign_ending result) (K.held out.old) (K.held out.new) }
    ensures end { IsAfterSelection (presign_ending result) }
    ensures writes { CountsOutput (presign_ending result) (K.faults out.old) (K.faults out.new) }
    ensures count { K.faults out.old ≤ K.faults out.new }
{
    match write_all(out, text.as_bytes()) {
        Ok(()) => PresignStatus::Done,
        Err(SinkError::Failed) => PresignStatus::OutputFault,
        Err(SinkError::NoMemory) => PresignStatus::NoMemory,
    }
}
