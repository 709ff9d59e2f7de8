//! The program: makes the real objects, hands them to `run`, and ends with the number of its status.
#![tactic(auto)]

ghost use Rattle.std.specs.Prelude.{◌≡◌, ◌≤◌, IfNone, IfSome, map};
ghost use Rattle.std.specs.Process.{exit_status};
ghost use Rattle.std.specs.String.{string_bytes};
ghost use Rattle.smithy_core.specs.Given.{Gives};
ghost use Rattle.firuvaik.specs.Asked.{help as firuvaik_help, version as firuvaik_version};
ghost use Rattle.program_start.specs.Texts.{text_of_words};
ghost use Rattle.signed_stream.specs.Plan.{GoesAsPlanned, writes};
ghost use Rattle.signed_stream.specs.Running.{CountsWrites, Unless, UnlessTask, Went, task, takes_input};
ghost use Rattle.signed_stream.specs.Saying.{SaysEnding};
ghost use Rattle.signed_stream.specs.Sources.{DiskGives};
ghost use Rattle.signed_stream.specs.Status.{done, ending_of, exit_code};

mod help;

use program_start::{Program, StartFault, run_program};
use signed_stream::{Status, run, say};
use smithy_core::{ByteSink, ByteSource, Clock, Disk, Env, SinkError, write_all};
use std::alloc::Global;
use std::process::ExitCode;

// The program `firuvaik`.
struct Firuvaik;

impl Program for Firuvaik {
    type Status = Status;

    // Prints the text that the words ask for, or else does what they ask for, as `run` does, and says on `err` how it ended.
    fn answer<S: ByteSource, D: Disk, C: Clock, K: ByteSink, E: ByteSink>(
        alloc: Global,
        words: &[String],
        env: &Env,
        input: &mut S,
        disk: &mut D,
        clock: &mut C,
        out: &mut K,
        err: &mut E,
    ) -> Status
        ensures printed { IfSome (text_of_words firuvaik_help firuvaik_version (map string_bytes words.now)) (λ text. GoesAsPlanned (writes text done) (ending_of result) (K.held out.old) (K.held out.new)) }
        ensures counted { CountsWrites (ending_of result) (K.faults out.old) (K.faults out.new) }
        ensures said { SaysEnding (ending_of result) (E.held err.old) (E.held err.new) (E.faults err.old) (E.faults err.new) }
        ensures headline { IfNone (text_of_words firuvaik_help firuvaik_version (map string_bytes words.now)) (Went (DiskGives D.answers D.faults (D.files disk.old) env.now disk.old disk.new)
            (λ taken. Gives C.Clock clock.old taken clock.new) env.now
            (task (map string_bytes words.now)) (S.left input.old) (S.left input.new) (ending_of result) (S.faults input.old) (S.faults input.new)
            (record { held_before = K.held out.old; held_now = K.held out.new; faults_before = K.faults out.old; faults_now = K.faults out.new })
            (record { held_before = E.held err.old; held_now = E.held err.new; faults_before = E.faults err.old; faults_now = E.faults err.new })) }
        ensures untouched { IfNone (text_of_words firuvaik_help firuvaik_version (map string_bytes words.now))
            (UnlessTask (task (map string_bytes words.now)) ((K.held out.new ≡ K.held out.old) × (K.faults out.new ≡ K.faults out.old))) }
        ensures unread { Unless (takes_input (task (map string_bytes words.now))) ((S.left input.new ≡ S.left input.old) × (S.faults input.new ≡ S.faults input.old)) }
    {
        match help::text_asked(words) {
            Some(text) => say(alloc, print_text(text, out), err),
            None => run(alloc, words, env, input, disk, clock, out, err),
        }
    }

    fn refuse<E: ByteSink>(alloc: Global, fault: StartFault, err: &mut E) -> Status {
        match fault {
            StartFault::BadWord => say(alloc, Status::BadWords(1), err),
            StartFault::NoMemory => say(alloc, Status::NoMemory, err),
        }
    }

    fn exit_code(status: Status) -> ExitCode
        ensures { exit_status result ≡ exit_code (ending_of status) }
    {
        ExitCode::from(status.code())
    }
}

// Prints a text, and answers how the run ends.
fn print_text<K: ByteSink>(text: &str, out: &mut K) -> Status
    ensures printed { GoesAsPlanned (writes text.now done) (ending_of result) (K.held out.old) (K.held out.new) }
    ensures counted { CountsWrites (ending_of result) (K.faults out.old) (K.faults out.new) }
    ensures count { K.faults out.old ≤ K.faults out.new }
{
    match write_all(out, text.as_bytes()) {
        Ok(()) => Status::Done,
        Err(SinkError::Failed) => Status::OutputFault,
        Err(SinkError::NoMemory) => Status::NoMemory,
    }
}

fn main(rt: HostRuntime) -> ExitCode {
    run_program::<Firuvaik>(&rt)
}
