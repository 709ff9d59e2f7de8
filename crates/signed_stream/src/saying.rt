ghost use Rattle.std.specs.Prelude.{◌≡◌, ◌≤◌, ◌⊎◌, IfOk};
ghost use Rattle.std.specs.String.{string_bytes};
ghost use Rattle.signed_stream.specs.Saying.{SaysEnding, ending_line, failed_at};
ghost use Rattle.signed_stream.specs.Status.{check_failed, done, ending_of, no_memory};

use crate::shared_status::SharedStatus;
use crate::status::{CheckFault, Status};
use chain_watch::ChainFault;
use smithy_core::{ByteSink, Mem, SinkError, write_all};
use std::alloc::Global;

/// Says the line of a status on `err`, and answers how the run ended: as the status says, or out of memory.
pub fn say<E: ByteSink>(alloc: Global, status: Status, err: &mut E) -> Status
    ensures answer { (ending_of result ≡ ending_of status) ⊎ (ending_of result ≡ no_memory) }
    ensures said { SaysEnding (ending_of result) (E.held err.old) (E.held err.new) (E.faults err.old) (E.faults err.new) }
    ensures count { E.faults err.old ≤ E.faults err.new }
{
    if let Status::Done = &status {
        return status;
    }
    match line_of(alloc, &status) {
        Ok(line) => say_line(status, line.as_str(), err),
        Err(_) => say_line(Status::NoMemory, "no memory\n", err),
    }
}

fn say_line<E: ByteSink>(status: Status, line: &str, err: &mut E) -> Status
    requires not_done { ending_of status ≡ done → ⊥ }
    requires line { line.now ≡ ending_line (ending_of status) }
    ensures answer { (ending_of result ≡ ending_of status) ⊎ (ending_of result ≡ no_memory) }
    ensures said { SaysEnding (ending_of result) (E.held err.old) (E.held err.new) (E.faults err.old) (E.faults err.new) }
    ensures count { E.faults err.old ≤ E.faults err.new }
{
    match write_all(err, line.as_bytes()) {
        Err(SinkError::NoMemory) => Status::NoMemory,
        Ok(()) | Err(SinkError::Failed) => status,
    }
}

fn line_of(alloc: Global, status: &Status) -> Mem<String>
    requires { ending_of status.now ≡ done → ⊥ }
    ensures { IfOk result (λ line. string_bytes line ≡ ending_line (ending_of status.now)) }
{
    match status {
        Status::Done => unreachable!(),
        Status::BadWords(place) => SharedStatus::BadWords(*place).line(alloc),
        Status::JobTooLarge => SharedStatus::JobTooLarge.line(alloc),
        Status::BadJob(place) => SharedStatus::BadJob(*place).line(alloc),
        Status::ReadFault => SharedStatus::ReadFault.line(alloc),
        Status::CouldNotReadFile(path) => SharedStatus::CouldNotReadFile(path.as_str()).line(alloc),
        Status::Refused(fault) => SharedStatus::Refused(fault).line(alloc),
        Status::CheckFailed(fault) => check_line(alloc, *fault),
        Status::OutputFault => SharedStatus::OutputFault.line(alloc),
        Status::NoMemory => SharedStatus::NoMemory.line(alloc),
    }
}

fn check_line(alloc: Global, fault: CheckFault) -> Mem<String>
    ensures { IfOk result (λ line. string_bytes line ≡ ending_line (check_failed fault)) }
{
    let (frame, part) = failed_at(fault);
    format!(in alloc; "check failed at frame {frame} {part}\n")
}

// The frame that isn't as in a chain, and what of it.
fn failed_at(fault: CheckFault) -> (usize, &'static str)
    ensures frame { result.0 ≡ (failed_at fault).0 }
    ensures part { result.1.now ≡ (failed_at fault).1 }
{
    match fault {
        CheckFault::NoSignature => (0, "NoSignature"),
        CheckFault::Chain(ChainFault::NotChain { frame, part }) => (frame, part.name()),
        CheckFault::Chain(ChainFault::Mismatch { frame, .. }) => (frame, "Mismatch"),
        CheckFault::Chain(ChainFault::NoMemory) => (0, "NoMemory"),
    }
}
