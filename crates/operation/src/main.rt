//! The program: makes the real objects, hands them to `run_operation`, and ends with the number of its status.
#![tactic(auto)]

ghost use Rattle.std.specs.Prelude.{◌≡◌, IfNone, IfSome, Ok, map};
ghost use Rattle.std.specs.Process.{exit_status};
ghost use Rattle.std.specs.String.{string_bytes};
ghost use Rattle.operation.specs.Asked.{operation_help, operation_version};
ghost use Rattle.program_start.specs.Texts.{text_of_words};
ghost use Rattle.signed_stream.specs.Sources.{DiskGives};
ghost use Rattle.signed_stream.specs.Status.{output_fault};
ghost use Rattle.operation_program.specs.Running.{CountsFor, GoesSo, RanOperation, SaysOperation, operation_words};
ghost use Rattle.operation_program.specs.Status.{operation_code, operation_ending};

mod help;

use operation_program::{OperationStatus, run_operation, say_operation, write_text};
use program_start::{Program, StartFault, run_program};
use smithy_core::{ByteSink, ByteSource, Clock, Disk, Env};
use std::alloc::Global;
use std::process::ExitCode;

// The program `operation`.
struct Operation;

impl Program for Operation {
    type Status = OperationStatus;

    // Prints the text that the words ask for, or else does what they ask for, as `run_operation` does, and says on `err` how it ended.
    fn answer<S: ByteSource, D: Disk, C: Clock, K: ByteSink, E: ByteSink>(
        alloc: Global,
        words: &[String],
        env: &Env,
        input: &mut S,
        disk: &mut D,
        clock: &mut C,
        out: &mut K,
        err: &mut E,
    ) -> OperationStatus
        ensures printed { IfSome (text_of_words operation_help operation_version (map string_bytes words.now)) (λ text. GoesSo (Ok text) (operation_ending result) (K.held out.old) (K.held out.new)) }
        ensures counted { CountsFor output_fault (operation_ending result) (K.faults out.old) (K.faults out.new) }
        ensures said { SaysOperation (operation_ending result) (E.held err.old) (E.held err.new) (E.faults err.old) (E.faults err.new) }
        ensures ran { IfNone (text_of_words operation_help operation_version (map string_bytes words.now)) (RanOperation (DiskGives D.answers D.faults (D.files disk.old) env.now disk.old disk.new) env.now
            (operation_words (map string_bytes words.now)) (S.left input.old) (operation_ending result) (S.faults input.old) (S.faults input.new)
            (record { held_before = K.held out.old; held_now = K.held out.new; faults_before = K.faults out.old; faults_now = K.faults out.new })
            (record { held_before = E.held err.old; held_now = E.held err.new; faults_before = E.faults err.old; faults_now = E.faults err.new })) }
    {
        match help::text_asked(words) {
            Some(text) => say_operation(alloc, write_text(text.as_bytes(), out), err),
            None => run_operation(alloc, words, env, input, disk, clock, out, err),
        }
    }

    fn refuse<E: ByteSink>(alloc: Global, fault: StartFault, err: &mut E) -> OperationStatus {
        match fault {
            StartFault::BadWord => say_operation(alloc, OperationStatus::BadWords(1), err),
            StartFault::NoMemory => say_operation(alloc, OperationStatus::NoMemory, err),
        }
    }

    fn exit_code(status: OperationStatus) -> ExitCode
        ensures { exit_status result ≡ operation_code (operation_ending status) }
    {
        ExitCode::from(status.code())
    }
}

fn main(rt: HostRuntime) -> ExitCode {
    run_program::<Operation>(&rt)
}
