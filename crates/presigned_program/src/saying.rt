ghost use Rattle.std.specs.Prelude.{◌≡◌, ◌≤◌, ◌⊎◌, IfOk};
ghost use Rattle.std.specs.String.{string_bytes};
ghost use Rattle.presigned_program.specs.PresignSaying.{SaysPresigned, presign_line};
ghost use Rattle.presigned_program.specs.PresignStatus.{ends, fails, presign_ending, presign_fault_name};
ghost use Rattle.signed_stream.specs.Status.{done, no_memory};

use crate::status::PresignStatus;
use presign_check::PresignFault;
use signed_stream::SharedStatus;
use smithy_core::{ByteSink, Mem, SinkError, write_all};
use std::alloc::Global;

/// Says the line of a status on `err`, and answers how the check ended: as the status says, or out of memory.
pub fn say_presigned<E: ByteSink>(
    alloc: Global,
    status: PresignStatus,
    err: &mut E,
) -> PresignStatus
    ensures answer { (presign_ending result ≡ presign_ending status) ⊎ (presign_ending result ≡ ends no_memory) }
    ensures said { SaysPresigned (presign_ending result) (E.held err.old) (E.held err.new) (E.faults err.old) (E.faults err.new) }
    ensures count { E.faults err.old ≤ E.faults err.new }
{
    if let PresignStatus::Done = &status {
        return status;
    }
    match line_of(alloc, &status) {
        Ok(line) => say_line(status, line.as_str(), err),
        Err(_) => say_line(PresignStatus::NoMemory, "no memory\n", err),
    }
}

fn say_line<E: ByteSink>(status: PresignStatus, line: &str, err: &mut E) -> PresignStatus
    requires not_done { presign_ending status ≡ ends done → ⊥ }
    requires line { line.now ≡ presign_line (presign_ending status) }
    ensures answer { (presign_ending result ≡ presign_ending status) ⊎ (presign_ending result ≡ ends no_memory) }
    ensures said { SaysPresigned (presign_ending result) (E.held err.old) (E.held err.new) (E.faults err.old) (E.faults err.new) }
    ensures count { E.faults err.old ≤ E.faults err.new }
{
    match write_all(err, line.as_bytes()) {
        Err(SinkError::NoMemory) => PresignStatus::NoMemory,
        Ok(()) | Err(SinkError::Failed) => status,
    }
}

fn line_of(alloc: Global, status: &PresignStatus) -> Mem<String>
    requires { presign_ending status.now ≡ ends done → ⊥ }
    ensures { IfOk result (λ line. string_bytes line ≡ presign_line (presign_ending status.now)) }
{
    match status {
        PresignStatus::Done => unreachable!(),
        PresignStatus::BadWords(place) => SharedStatus::BadWords(*place).line(alloc),
        PresignStatus::JobTooLarge => SharedStatus::JobTooLarge.line(alloc),
        PresignStatus::BadJob(place) => SharedStatus::BadJob(*place).line(alloc),
        PresignStatus::ReadFault => SharedStatus::ReadFault.line(alloc),
        PresignStatus::CouldNotReadFile(path) => {
            SharedStatus::CouldNotReadFile(path.as_str()).line(alloc)
        }
        PresignStatus::Refused(fault) => SharedStatus::Refused(fault).line(alloc),
        PresignStatus::CheckFailed(fault) => check_line(alloc, fault),
        PresignStatus::OutputFault => SharedStatus::OutputFault.line(alloc),
        PresignStatus::NoMemory => SharedStatus::NoMemory.line(alloc),
    }
}

// The line of a request that meets a test.
fn check_line(alloc: Global, fault: &PresignFault) -> Mem<String>
    ensures { IfOk result (λ line. string_bytes line ≡ presign_line (fails fault.now)) }
{
    let name = fault_name(fault);
    format!(in alloc; "check failed {name}\n")
}

// The name of a fault. The signatures that it holds are none of it.
fn fault_name(fault: &PresignFault) -> &'static str
    ensures { result.now ≡ presign_fault_name fault.now }
{
    match fault {
        PresignFault::HeaderForm => "HeaderForm",
        PresignFault::Missing(_) => "Missing",
        PresignFault::Repeated(_) => "Repeated",
        PresignFault::BadPart(_) => "BadPart",
        PresignFault::UnknownKey => "UnknownKey",
        PresignFault::TooEarly { .. } => "TooEarly",
        PresignFault::Expired { .. } => "Expired",
        PresignFault::Mismatch { .. } => "Mismatch",
        PresignFault::Signing(_) => "Signing",
        PresignFault::NoMemory => "NoMemory",
    }
}
