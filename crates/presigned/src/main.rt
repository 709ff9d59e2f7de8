//! The program: makes the real objects, hands them to `run_presigned`, and ends with the number of its status.
#![tactic(auto)]

ghost use Rattle.std.specs.Prelude.{◌≡◌, IfNone, IfSome, Ok, map};
ghost use Rattle.std.specs.Process.{exit_status};
ghost use Rattle.std.specs.String.{string_bytes};
ghost use Rattle.smithy_core.specs.Given.{Gives};
ghost use Rattle.presigned.specs.PresignedTexts.{presigned_help, presigned_version};
ghost use Rattle.presigned_program.specs.PresignRun.{GoesPresigned, RanPresigned};
ghost use Rattle.presigned_program.specs.PresignSaying.{SaysPresigned};
ghost use Rattle.presigned_program.specs.PresignStatus.{presign_code, presign_ending};
ghost use Rattle.program_start.specs.Texts.{text_of_words};
ghost use Rattle.signed_stream.specs.RequestWords.{request_words};
ghost use Rattle.signed_stream.specs.Sources.{DiskGives};

mod help;

use crate::help::text_asked;
use presigned_program::{PresignStatus, run_presigned, say_presigned, write_text};
use program_start::{Program, StartFault, run_program};
use smithy_core::{ByteSink, ByteSource, Clock, Disk, Env};
use std::alloc::Global;
use std::process::ExitCode;

// The program `presigned`.
struct Presigned;

impl Program for Presigned {
    type Status = PresignStatus;

    // Prints the text that the words ask for, or else checks as `run_presigned` does, and says on `err` how it ended.
    fn answer<S: ByteSource, D: Disk, C: Clock, K: ByteSink, E: ByteSink>(
        alloc: Global,
        words: &[String],
        env: &Env,
        input: &mut S,
        disk: &mut D,
        clock: &mut C,
        out: &mut K,
        err: &mut E,
    ) -> PresignStatus
        ensures printed { IfSome (text_of_words presigned_help presigned_version (map string_bytes words.now)) (λ text. GoesPresigned (Ok text) (presign_ending result) (K.held out.old) (K.held out.new)) }
        ensures said { SaysPresigned (presign_ending result) (E.held err.old) (E.held err.new) (E.faults err.old) (E.faults err.new) }
        ensures headline { IfNone (text_of_words presigned_help presigned_version (map string_bytes words.now)) (RanPresigned (DiskGives D.answers D.faults (D.files disk.old) env.now disk.old disk.new)
            (λ taken. Gives C.Clock clock.old taken clock.new) env.now
            (request_words (map string_bytes words.now)) (S.left input.old) (presign_ending result) (S.faults input.old) (S.faults input.new)
            (record { held_before = K.held out.old; held_now = K.held out.new; faults_before = K.faults out.old; faults_now = K.faults out.new })
            (record { held_before = E.held err.old; held_now = E.held err.new; faults_before = E.faults err.old; faults_now = E.faults err.new })) }
    {
        match text_asked(words) {
            Some(text) => say_presigned(alloc, write_text(text, out), err),
            None => run_presigned(alloc, words, env, input, disk, clock, out, err),
        }
    }

    fn refuse<E: ByteSink>(alloc: Global, fault: StartFault, err: &mut E) -> PresignStatus {
        match fault {
            StartFault::BadWord => say_presigned(alloc, PresignStatus::BadWords(1), err),
            StartFault::NoMemory => say_presigned(alloc, PresignStatus::NoMemory, err),
        }
    }

    fn exit_code(status: PresignStatus) -> ExitCode
        ensures { exit_status result ≡ presign_code (presign_ending status) }
    {
        ExitCode::from(status.code())
    }
}

fn main(rt: HostRuntime) -> ExitCode {
    run_program::<Presigned>(&rt)
}
