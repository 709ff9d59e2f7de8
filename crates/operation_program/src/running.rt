ghost use Rattle.std.specs.Prelude.{◌≡◌, ◌≤◌, ℕ, List, Ok, map};
ghost use Rattle.std.specs.String.{string_bytes};
ghost use Rattle.smithy_core.specs.Outside.{IsAtEnd, IsRestOf};
ghost use Rattle.job_text.specs.OperationJob.{operation_input, operation_job, reply_parts};
ghost use Rattle.signed_stream.specs.Plan.{unreadable};
ghost use Rattle.job_text.specs.ProfileTexts.{ProfileTexts};
ghost use Rattle.signed_stream.specs.Settings.{selected_in};
ghost use Rattle.signed_stream.specs.Sources.{DiskGives};
ghost use Rattle.signed_stream.specs.Status.{could_not_read_file, done, output_fault, read_fault};
ghost use Rattle.operation_program.specs.Carriers.{GoesFor, GoesRead, GoesScripted, IsAfterBytes, IsAfterJob, IsAfterSelected, scripted_with};
ghost use Rattle.operation_program.specs.Running.{CountsFor, EndsByWords, GoesSo, KeepsFiles, KeepsOut, NamesFile, RanOperation, UnlessWanted, operation_words};
ghost use Rattle.operation_program.specs.Status.{operation_ending, usual};
ghost use Rattle.operation_program.specs.Words.{operation_wanted};

use crate::saying::say_operation;
use crate::status::OperationStatus;
use crate::text::operation_text;
use crate::words::{OperationWords, read_operation_words};
use job_text::{JobFault, OperationJob, ReplyLine, RequestJob, WordsFault, take_operation_job};
use signed_stream::{MOST_INPUT, Settings, select};
use smithy_core::{
    ByteSink, ByteSource, Clock, Disk, Env, HttpRequest, ReadFault, SinkError, read_all, write_all,
};
use std::alloc::Global;

// Does what is asked for with a job, and answers how it ended.
fn answer_job<D: Disk, K: ByteSink>(
    alloc: Global,
    job: OperationJob,
    words: &OperationWords<'_>,
    env: &Env,
    disk: &mut D,
    out: &mut K,
) -> OperationStatus
    ensures goes { GoesRead (DiskGives D.answers D.faults (D.files disk.old) env.now disk.old disk.new) env.now (operation_wanted words.now) (Ok (operation_input job)) (operation_ending result) (K.held out.old) (K.held out.new) }
    ensures end { IsAfterJob (operation_ending result) }
    ensures named { (path : List ℕ) → operation_ending result ≡ usual (could_not_read_file path)
        → DiskGives D.answers D.faults (D.files disk.old) env.now disk.old disk.new (operation_wanted words.now).profile.files (unreadable path) }
    ensures same { D.files disk.new ≡ D.files disk.old }
    ensures writes { CountsFor output_fault (operation_ending result) (K.faults out.old) (K.faults out.new) }
    ensures count { D.faults disk.old ≤ D.faults disk.new }
{
    let OperationJob { request, replies } = job;
    let RequestJob { request, texts } = request;
    match select(alloc, env, disk, &words.profile, texts) {
        Ok(settings) => {
            let replies = replies.as_slice();
            answer_selected(alloc, &request, replies, settings, words, env, out)
        }
        Err(fault) => OperationStatus::from(fault),
    }
}

// Does what is asked for under what is selected, and answers how it ended.
fn answer_selected<K: ByteSink>(
    alloc: Global,
    request: &HttpRequest,
    replies: &[ReplyLine],
    settings: Settings,
    words: &OperationWords<'_>,
    env: &Env,
    out: &mut K,
) -> OperationStatus
    ensures goes { (texts : ProfileTexts) → GoesScripted (scripted_with env.now (operation_wanted words.now) request.now texts (map reply_parts replies.now) (selected_in settings)) (operation_ending result) (K.held out.old) (K.held out.new) }
    ensures end { IsAfterSelected (operation_ending result) }
    ensures writes { CountsFor output_fault (operation_ending result) (K.faults out.old) (K.faults out.new) }
{
    match operation_text(alloc, request, settings, words.name, env, words.at, replies) {
        Ok(text) => write_text(text.as_slice(), out),
        Err(status) => status,
    }
}

/// Writes a text, and answers how the run ended.
pub fn write_text<K: ByteSink>(text: &[u8], out: &mut K) -> OperationStatus
    ensures goes { GoesSo (Ok text.now) (operation_ending result) (K.held out.old) (K.held out.new) }
    ensures end { IsAfterSelected (operation_ending result) }
    ensures writes { CountsFor output_fault (operation_ending result) (K.faults out.old) (K.faults out.new) }
{
    match write_all(out, text) {
        Ok(()) => OperationStatus::Done,
        Err(SinkError::Failed) => OperationStatus::OutputFault,
        Err(SinkError::NoMemory) => OperationStatus::NoMemory,
    }
}

// Does what is asked for with the bytes of the input, and answers how it ended. The bytes go once they are read.
fn answer_bytes<D: Disk, K: ByteSink>(
    alloc: Global,
    bytes: Vec<u8>,
    words: &OperationWords<'_>,
    env: &Env,
    disk: &mut D,
    out: &mut K,
) -> OperationStatus
    ensures goes { GoesRead (DiskGives D.answers D.faults (D.files disk.old) env.now disk.old disk.new) env.now (operation_wanted words.now) (operation_job bytes.items) (operation_ending result) (K.held out.old) (K.held out.new) }
    ensures end { IsAfterBytes (operation_ending result) }
    ensures named { (path : List ℕ) → operation_ending result ≡ usual (could_not_read_file path)
        → DiskGives D.answers D.faults (D.files disk.old) env.now disk.old disk.new (operation_wanted words.now).profile.files (unreadable path) }
    ensures same { D.files disk.new ≡ D.files disk.old }
    ensures disk { KeepsFiles (operation_ending result) disk.old disk.new }
    ensures writes { CountsFor output_fault (operation_ending result) (K.faults out.old) (K.faults out.new) }
    ensures count { D.faults disk.old ≤ D.faults disk.new }
{
    match take_operation_job(alloc, bytes) {
        Ok(job) => answer_job(alloc, job, words, env, disk, out),
        Err(JobFault::BadLine(place)) => OperationStatus::BadJob(place),
        Err(JobFault::NoMemory) => OperationStatus::NoMemory,
    }
}

// Does what is asked for with the input, and answers how it ended.
fn answer_input<S: ByteSource, D: Disk, K: ByteSink>(
    alloc: Global,
    words: &OperationWords<'_>,
    env: &Env,
    input: &mut S,
    disk: &mut D,
    out: &mut K,
) -> OperationStatus
    ensures goes { GoesFor (DiskGives D.answers D.faults (D.files disk.old) env.now disk.old disk.new) env.now (Ok (operation_wanted words.now)) (S.left input.old) (operation_ending result) (K.held out.old) (K.held out.new) }
    ensures ended { EndsByWords (Ok (operation_wanted words.now)) (operation_ending result) }
    ensures kept { KeepsOut (operation_ending result) (K.held out.old) (K.held out.new) }
    ensures named { (path : List ℕ) → operation_ending result ≡ usual (could_not_read_file path)
        → DiskGives D.answers D.faults (D.files disk.old) env.now disk.old disk.new (operation_wanted words.now).profile.files (unreadable path) }
    ensures same { D.files disk.new ≡ D.files disk.old }
    ensures disk { KeepsFiles (operation_ending result) disk.old disk.new }
    ensures reads { CountsFor read_fault (operation_ending result) (S.faults input.old) (S.faults input.new) }
    ensures writes { CountsFor output_fault (operation_ending result) (K.faults out.old) (K.faults out.new) }
    ensures count { D.faults disk.old ≤ D.faults disk.new }
    ensures at_end { operation_ending result ≡ usual done → IsAtEnd (S.left input.new) }
    ensures rest { IsRestOf (S.left input.old) (S.left input.new) }
{
    match read_all(alloc, input, MOST_INPUT) {
        Ok(bytes) => answer_bytes(alloc, bytes, words, env, disk, out),
        Err(ReadFault::Failed) => OperationStatus::ReadFault,
        Err(ReadFault::TooLarge) => OperationStatus::JobTooLarge,
        Err(ReadFault::NoMemory) => OperationStatus::NoMemory,
    }
}

// Does what the words ask for, and answers how it ended.
fn answer<S: ByteSource, D: Disk, K: ByteSink>(
    alloc: Global,
    words: &[String],
    env: &Env,
    input: &mut S,
    disk: &mut D,
    out: &mut K,
) -> OperationStatus
    ensures goes { GoesFor (DiskGives D.answers D.faults (D.files disk.old) env.now disk.old disk.new) env.now (operation_words (map string_bytes words.now)) (S.left input.old) (operation_ending result) (K.held out.old) (K.held out.new) }
    ensures ended { EndsByWords (operation_words (map string_bytes words.now)) (operation_ending result) }
    ensures kept { KeepsOut (operation_ending result) (K.held out.old) (K.held out.new) }
    ensures named { (path : List ℕ) → operation_ending result ≡ usual (could_not_read_file path)
        → NamesFile (DiskGives D.answers D.faults (D.files disk.old) env.now disk.old disk.new) (operation_words (map string_bytes words.now)) path }
    ensures same { D.files disk.new ≡ D.files disk.old }
    ensures disk { KeepsFiles (operation_ending result) disk.old disk.new }
    ensures untouched { UnlessWanted (operation_words (map string_bytes words.now))
        ((K.held out.new ≡ K.held out.old) × (K.faults out.new ≡ K.faults out.old) × (S.left input.new ≡ S.left input.old) × (S.faults input.new ≡ S.faults input.old) × (disk.new ≡ disk.old)) }
    ensures reads { CountsFor read_fault (operation_ending result) (S.faults input.old) (S.faults input.new) }
    ensures writes { CountsFor output_fault (operation_ending result) (K.faults out.old) (K.faults out.new) }
    ensures count { D.faults disk.old ≤ D.faults disk.new }
    ensures at_end { operation_ending result ≡ usual done → IsAtEnd (S.left input.new) }
    ensures rest { IsRestOf (S.left input.old) (S.left input.new) }
{
    match read_operation_words(alloc, words) {
        Ok(wanted) => answer_input(alloc, &wanted, env, input, disk, out),
        Err(WordsFault::BadWord(place)) => OperationStatus::BadWords(place),
        Err(WordsFault::NoMemory) => OperationStatus::NoMemory,
    }
}

/// Runs an operation over listed replies, as the words ask, and says on `err` how it ended.
///
/// The words are those behind the program's name: `--name NAME` and `--at N`, which are required, `--service-id ID`,
/// `--config PATH` and `--credentials PATH`. The input is a job without events, and then one or more lines `reply STATUS CODE` with
/// an optional date: what the service answers, attempt by attempt. Region and credentials are selected as
/// [`run`](signed_stream::run) selects them. Each attempt is dressed, signed and numbered anew, as
/// [`operate`](operation_run::operate) does it, with the standard retries, the agent for tests, the invocation's id `invocation-1`
/// and no timeout; all moments are N, and the clock isn't asked. The output gains the head of each request that is sent, in order,
/// and `attempts N`.
///
/// The first test that fails ends the run, in this order: the words, the length of the input, its lines, the files that are named,
/// the lines of the texts, the credentials, the region, then attempt by attempt the moment, the target, each header, the host and
/// the signature's own texts, and at last whether there is a reply for each attempt. Until then nothing is written.
pub fn run_operation<S: ByteSource, D: Disk, C: Clock, K: ByteSink, E: ByteSink>(
    alloc: Global,
    words: &[String],
    env: &Env,
    input: &mut S,
    disk: &mut D,
    clock: &mut C,
    out: &mut K,
    err: &mut E,
) -> OperationStatus
    // How it went: there is what I/O supplied for which the headline holds, what can be done is done, and the run ended, gained and
    // said what words, variables, input and files ask for.
    ensures ran { RanOperation (DiskGives D.answers D.faults (D.files disk.old) env.now disk.old disk.new) env.now (operation_words (map string_bytes words.now)) (S.left input.old)
        (operation_ending result) (S.faults input.old) (S.faults input.new)
        (record { held_before = K.held out.old; held_now = K.held out.new; faults_before = K.faults out.old; faults_now = K.faults out.new })
        (record { held_before = E.held err.old; held_now = E.held err.new; faults_before = E.faults err.old; faults_now = E.faults err.new }) }

    // Where the words are bad, neither the output nor the input nor the disk was asked.
    ensures untouched { UnlessWanted (operation_words (map string_bytes words.now))
        ((K.held out.new ≡ K.held out.old) × (K.faults out.new ≡ K.faults out.old) × (S.left input.new ≡ S.left input.old) × (S.faults input.new ≡ S.faults input.old) × (disk.new ≡ disk.old)) }

    // The disk was asked only once the input was read and is a job, and its files are as they were; the clock wasn't asked.
    ensures disk { KeepsFiles (operation_ending result) disk.old disk.new × (D.files disk.new ≡ D.files disk.old) }
    ensures clock { clock.new ≡ clock.old }

    // An input that is read was read to its end, a suffix of it is left, and no count fell.
    ensures outside { (operation_ending result ≡ usual done → IsAtEnd (S.left input.new)) × IsRestOf (S.left input.old) (S.left input.new)
        × (D.faults disk.old ≤ D.faults disk.new) × (E.faults err.old ≤ E.faults err.new) }
{
    let status = answer(alloc, words, env, input, disk, out);
    say_operation(alloc, status, err)
}
