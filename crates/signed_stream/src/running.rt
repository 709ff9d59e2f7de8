ghost use Rattle.std.specs.Prelude.{◌≡◌, ◌≤◌, length, map, option_map};
ghost use Rattle.std.specs.String.{string_bytes};
ghost use Rattle.smithy_core.specs.Outside.{CountsFault, IsAtEnd, IsRestOf};
ghost use Rattle.signed_stream.specs.Carriers.{GoesForBytes, GoesForInput, IsAfterInput};
ghost use Rattle.signed_stream.specs.Command.{command};
ghost use Rattle.signed_stream.specs.Effects.{ReadsAndWrites};
ghost use Rattle.signed_stream.specs.Options.{input_commanded};
ghost use Rattle.signed_stream.specs.Plan.{most_input};
ghost use Rattle.smithy_core.specs.Given.{Gives};
ghost use Rattle.signed_stream.specs.Running.{AsksDiskLast, EndsAsAsked, KeepsDisk, KeepsOutput, NamesUnreadable, AsksWatch, Unless, UnlessTask, UnlessCommand, Went, When, task, comes_late, reads_files, reads_input, takes_files, takes_input};
ghost use Rattle.signed_stream.specs.Sources.{DiskGives};
ghost use Rattle.signed_stream.specs.Status.{done, ending_of, read_fault};

use crate::check_record::check_record;
use crate::command::{Command, InputCommand, read_words};
use crate::generate::show_generated;
use crate::saying::say;
use crate::show_chunked::show_chunked;
use crate::show_settings::show_settings;
use crate::status::Status;
use crate::stream::stream_job;
use crate::watch_chain::watch;
use job_text::{JobFault, WordsFault, take_job, take_profile_texts, take_record};
use smithy_core::{ByteSink, ByteSource, Clock, Disk, Env, ReadFault, read_all};
use std::alloc::Global;

/// The most bytes of an input.
pub const MOST_INPUT: usize = 67_108_864;

/// Does what the words ask for, on I/O objects, and says on `err` how it ended.
///
/// The words are the command-line arguments after the program's name. `stream --name NAME` reads a job from `input`, signs its
/// request by AWS Signature Version 4, and writes to `out` the head of the signed request and then a chain of event stream
/// frames: one for each event in order and an empty one last, each signed over the signature before it, the first over
/// that of the request. The request, each event and the closing frame take a moment each of the clock, in this order;
/// with `--at N` all of them have the moment N. The request's is shifted by `--skew`. Options say how the request is
/// signed: `--query` with `--expires N` makes a presigned one. With `--raw` the frames alone are written, as bytes, and
/// else lines: the head, and each frame in hexadecimal. `settings` writes what was selected to sign with: profile,
/// region, key id, and whether there is a token. `watch --name NAME --seed HEX` reads a chain of frames as bytes, and
/// writes the frame of each event as soon as it is there whole and has passed, and at last how many there were.
///
/// Key id, secret and token are those of the selected profile, which is that of `AWS_PROFILE` or else `default`, and
/// the region is the service's own variable, `AWS_REGION`, the service's own setting or the profile's, the first that
/// is there. The profile files are those that `--config` and `--credentials` name, in the order of the words, and then
/// the texts of the input; where there is none of both, `~/.aws/config` and `~/.aws/credentials`.
///
/// The first test that fails ends the run, in this order: the words, the length of the input, its lines, the files that
/// are named, the lines of the texts, the credentials, the region, the moment, the target, each header of the request,
/// the host, the token's name, the signature's own texts or the expiry, and the length of the signed target. Until then
/// nothing is written. Then each event is tested before its frame is written, and last the closing frame's moment, so a
/// refused event leaves the head and the frames of the events before it. `watch` tests the words, the files and what is
/// selected before it reads, and then each frame as it comes: a refused frame, more bytes than an input may have and a
/// read that fails leave the lines of the events before them.
pub fn run<S: ByteSource, D: Disk, C: Clock, K: ByteSink, E: ByteSink>(
    alloc: Global,
    words: &[String],
    env: &Env,
    input: &mut S,
    disk: &mut D,
    clock: &mut C,
    out: &mut K,
    err: &mut E,
) -> Status
    // How it went: there is what I/O supplied, for which the headline holds, what can be done is done, and the run ended,
    // gained and said what words, variables, input, files and clock ask for.
    ensures headline { Went (DiskGives D.answers D.faults (D.files disk.old) env.now disk.old disk.new)
        (λ taken. Gives C.Clock clock.old taken clock.new) env.now
        (task (map string_bytes words.now)) (S.left input.old) (S.left input.new) (ending_of result) (S.faults input.old) (S.faults input.new)
        (record { held_before = K.held out.old; held_now = K.held out.new; faults_before = K.faults out.old; faults_now = K.faults out.new })
        (record { held_before = E.held err.old; held_now = E.held err.new; faults_before = E.faults err.old; faults_now = E.faults err.new }) }

    // Where the words are no command, the output is as it was; and so is the input where they ask for none.
    ensures untouched { UnlessTask (task (map string_bytes words.now)) ((K.held out.new ≡ K.held out.old) × (K.faults out.new ≡ K.faults out.old)) }
    ensures unread { Unless (takes_input (task (map string_bytes words.now))) ((S.left input.new ≡ S.left input.old) × (S.faults input.new ≡ S.faults input.old)) }

    // But for `watch`, the disk was asked only once the input was read and is a job; it isn't asked by a command that asks
    // for no files; and its files are as they were.
    ensures disk { AsksDiskLast (task (map string_bytes words.now)) (ending_of result) disk.old disk.new × (D.files disk.new ≡ D.files disk.old) }
    ensures unasked { Unless (takes_files (task (map string_bytes words.now))) (disk.new ≡ disk.old) }

    // An input that is read was read to its end, a suffix of it is left, and no count fell.
    ensures outside { When (takes_input (task (map string_bytes words.now))) (ending_of result ≡ done → IsAtEnd (S.left input.new)) × IsRestOf (S.left input.old) (S.left input.new)
        × (S.faults input.old ≤ S.faults input.new) × (D.faults disk.old ≤ D.faults disk.new) × (K.faults out.old ≤ K.faults out.new)
        × (E.faults err.old ≤ E.faults err.new) }
{
    match words_of_watch(words) {
        Some(rest) => {
            let status = watch(alloc, rest, env, input, disk, out);
            say(alloc, status, err)
        }
        None => {
            let status = answer(alloc, words, env, input, disk, clock, out);
            say(alloc, status, err)
        }
    }
}

// The words behind `watch`, where that is the first.
#[tactic(auto, using(crate::proofs::OptionLemmas::task_empty, crate::proofs::OptionLemmas::task_first), unfolding(crate::specs::Running::task))]
fn words_of_watch(words: &[String]) -> Option<&[String]>
    ensures { AsksWatch (map string_bytes words.now) (option_map (λ rest. map string_bytes rest.now) result) }
{
    let [first, rest @ ..] = words else {
        return None;
    };
    match first.as_str() {
        "watch" => Some(rest),
        _ => None,
    }
}

// Does what the words ask for, and answers how it ended.
#[tactic(auto, using(crate::proofs::RunLemmas::words_of_runs))]
fn answer<S: ByteSource, D: Disk, C: Clock, K: ByteSink>(
    alloc: Global,
    words: &[String],
    env: &Env,
    input: &mut S,
    disk: &mut D,
    clock: &mut C,
    out: &mut K,
) -> Status
    ensures asked { EndsAsAsked (command (map string_bytes words.now)) (ending_of result) }
    ensures planned { GoesForInput (DiskGives D.answers D.faults (D.files disk.old) env.now disk.old disk.new) (λ taken. Gives C.Clock clock.old taken clock.new) env.now
        (command (map string_bytes words.now)) (S.left input.old) (ending_of result) (K.held out.old) (K.held out.new) }
    ensures kept { KeepsOutput (comes_late (command (map string_bytes words.now))) (ending_of result) (K.held out.old) (K.held out.new) }
    ensures effects { ReadsAndWrites (NamesUnreadable (DiskGives D.answers D.faults (D.files disk.old) env.now disk.old disk.new) (command (map string_bytes words.now)))
        (ending_of result) D.Disk disk.old disk.new (K.faults out.old) (K.faults out.new) }
    ensures reads { CountsFault (ending_of result ≡ read_fault) (S.faults input.old) (S.faults input.new) }
    ensures untouched { UnlessCommand (command (map string_bytes words.now)) ((K.held out.new ≡ K.held out.old) × (K.faults out.new ≡ K.faults out.old)) }
    ensures unread { Unless (reads_input (command (map string_bytes words.now))) ((S.left input.new ≡ S.left input.old) × (S.faults input.new ≡ S.faults input.old)) }
    ensures disk { KeepsDisk (ending_of result) disk.old disk.new }
    ensures unasked { Unless (reads_files (command (map string_bytes words.now))) (disk.new ≡ disk.old) }
    ensures outside { When (reads_input (command (map string_bytes words.now))) (ending_of result ≡ done → IsAtEnd (S.left input.new)) × IsRestOf (S.left input.old) (S.left input.new) }
{
    match read_words(alloc, words) {
        Ok(Command::Generate(words)) => show_generated(alloc, words, out),
        Ok(Command::OfInput(command)) => {
            answer_command(alloc, command, env, input, disk, clock, out)
        }
        Err(WordsFault::BadWord(place)) => Status::BadWords(place),
        Err(WordsFault::NoMemory) => Status::NoMemory,
    }
}

// Does what the command asks for on the input, and answers how it ended.
#[tactic(auto, using(crate::proofs::CommandLemmas::asks_command, crate::proofs::RunLemmas::after_input))]
fn answer_command<S: ByteSource, D: Disk, C: Clock, K: ByteSink>(
    alloc: Global,
    command: InputCommand<'_>,
    env: &Env,
    input: &mut S,
    disk: &mut D,
    clock: &mut C,
    out: &mut K,
) -> Status
    ensures asked { EndsAsAsked (input_commanded command.entry) (ending_of result) }
    ensures planned { GoesForInput (DiskGives D.answers D.faults (D.files disk.old) env.now disk.old disk.new) (λ taken. Gives C.Clock clock.old taken clock.new) env.now
        (input_commanded command.entry) (S.left input.old) (ending_of result) (K.held out.old) (K.held out.new) }
    ensures kept { KeepsOutput (comes_late (input_commanded command.entry)) (ending_of result) (K.held out.old) (K.held out.new) }
    ensures effects { ReadsAndWrites (NamesUnreadable (DiskGives D.answers D.faults (D.files disk.old) env.now disk.old disk.new) (input_commanded command.entry))
        (ending_of result) D.Disk disk.old disk.new (K.faults out.old) (K.faults out.new) }
    ensures reads { CountsFault (ending_of result ≡ read_fault) (S.faults input.old) (S.faults input.new) }
    ensures disk { KeepsDisk (ending_of result) disk.old disk.new }
    ensures unasked { Unless (reads_files (input_commanded command.entry)) (disk.new ≡ disk.old) }
    ensures outside { (ending_of result ≡ done → IsAtEnd (S.left input.new)) × IsRestOf (S.left input.old) (S.left input.new) }
{
    match read_all(alloc, input, MOST_INPUT) {
        Ok(bytes) => answer_bytes(alloc, command, bytes, env, disk, clock, out),
        Err(ReadFault::Failed) => Status::ReadFault,
        Err(ReadFault::TooLarge) => Status::JobTooLarge,
        Err(ReadFault::NoMemory) => Status::NoMemory,
    }
}

// Does what the command asks for on the bytes of the input, and answers how it ended. The bytes go as soon as they are
// read, so that they take no room beside what is made of them.
#[tactic(auto, using(crate::proofs::RunLemmas::after_output))]
fn answer_bytes<D: Disk, C: Clock, K: ByteSink>(
    alloc: Global,
    command: InputCommand<'_>,
    bytes: Vec<u8>,
    env: &Env,
    disk: &mut D,
    clock: &mut C,
    out: &mut K,
) -> Status
    requires { length bytes.items ≤ most_input }
    ensures end { IsAfterInput (ending_of result) }
    ensures planned { GoesForBytes (DiskGives D.answers D.faults (D.files disk.old) env.now disk.old disk.new) (λ taken. Gives C.Clock clock.old taken clock.new) env.now
        (input_commanded command.entry) bytes.items (ending_of result) (K.held out.old) (K.held out.new) }
    ensures effects { ReadsAndWrites (NamesUnreadable (DiskGives D.answers D.faults (D.files disk.old) env.now disk.old disk.new) (input_commanded command.entry))
        (ending_of result) D.Disk disk.old disk.new (K.faults out.old) (K.faults out.new) }
    ensures disk { KeepsDisk (ending_of result) disk.old disk.new }
    ensures unasked { Unless (reads_files (input_commanded command.entry)) (disk.new ≡ disk.old) }
{
    match command {
        InputCommand::Stream(words) => match take_job(alloc, bytes) {
            Ok(job) => stream_job(alloc, job, words, env, disk, clock, out),
            Err(JobFault::BadLine(place)) => Status::BadJob(place),
            Err(JobFault::NoMemory) => Status::NoMemory,
        },
        InputCommand::Check(words) => match take_record(alloc, bytes) {
            Ok(draft) => check_record(alloc, draft, words, env, disk, out),
            Err(JobFault::BadLine(place)) => Status::BadJob(place),
            Err(JobFault::NoMemory) => Status::NoMemory,
        },
        InputCommand::Settings(options) => match take_profile_texts(alloc, bytes) {
            Ok(texts) => show_settings(alloc, texts, options, env, disk, out),
            Err(JobFault::BadLine(place)) => Status::BadJob(place),
            Err(JobFault::NoMemory) => Status::NoMemory,
        },
        InputCommand::Chunk(words) => show_chunked(alloc, words, bytes, out),
    }
}
