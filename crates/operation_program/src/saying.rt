ghost use Rattle.std.specs.Prelude.{◌≡◌, ◌≤◌, ◌⊎◌, IfOk};
ghost use Rattle.std.specs.String.{string_bytes};
ghost use Rattle.signed_stream.specs.Status.{done, no_memory};
ghost use Rattle.operation_program.specs.Running.{SaysOperation, operation_line};
ghost use Rattle.operation_program.specs.Status.{operation_ending, usual};

use crate::status::OperationStatus;
use signed_stream::SharedStatus;
use smithy_core::{ByteSink, Mem, SinkError, write_all};
use std::alloc::Global;

/// Says the line of a status on `err`, and answers how the run ended: as the status says, or out of memory.
pub fn say_operation<E: ByteSink>(
    alloc: Global,
    status: OperationStatus,
    err: &mut E,
) -> OperationStatus
    ensures answer { (operation_ending result ≡ operation_ending status) ⊎ (operation_ending result ≡ usual no_memory) }
    ensures said { SaysOperation (operation_ending result) (E.held err.old) (E.held err.new) (E.faults err.old) (E.faults err.new) }
    ensures count { E.faults err.old ≤ E.faults err.new }
{
    if let OperationStatus::Done = &status {
        return status;
    }
    match line_of(alloc, &status) {
        Ok(line) => say_line(status, line.as_str(), err),
        Err(_) => say_line(OperationStatus::NoMemory, "no memory\n", err),
    }
}

fn say_line<E: ByteSink>(status: OperationStatus, line: &str, err: &mut E) -> OperationStatus
    requires not_done { operation_ending status ≡ usual done → ⊥ }
    requires line { line.now ≡ operation_line (operation_ending status) }
    ensures answer { (operation_ending result ≡ operation_ending status) ⊎ (operation_ending result ≡ usual no_memory) }
    ensures said { SaysOperation (operation_ending result) (E.held err.old) (E.held err.new) (E.faults err.old) (E.faults err.new) }
    ensures count { E.faults err.old ≤ E.faults err.new }
{
    match write_all(err, line.as_bytes()) {
        Err(SinkError::NoMemory) => OperationStatus::NoMemory,
        Ok(()) | Err(SinkError::Failed) => status,
    }
}

fn line_of(alloc: Global, status: &OperationStatus) -> Mem<String>
    requires { operation_ending status.now ≡ usual done → ⊥ }
    ensures { IfOk result (λ line. string_bytes line ≡ operation_line (operation_ending status.now)) }
{
    match status {
        OperationStatus::Done => unreachable!(),
        OperationStatus::BadWords(place) => SharedStatus::BadWords(*place).line(alloc),
        OperationStatus::JobTooLarge => SharedStatus::JobTooLarge.line(alloc),
        OperationStatus::BadJob(place) => SharedStatus::BadJob(*place).line(alloc),
        OperationStatus::ReadFault => SharedStatus::ReadFault.line(alloc),
        OperationStatus::CouldNotReadFile(path) => {
            SharedStatus::CouldNotReadFile(path.as_str()).line(alloc)
        }
        OperationStatus::Refused(fault) => SharedStatus::Refused(fault).line(alloc),
        OperationStatus::OutputFault => SharedStatus::OutputFault.line(alloc),
        OperationStatus::NoMemory => SharedStatus::NoMemory.line(alloc),
        OperationStatus::TransportFault => String::from_str(alloc, "transport fault\n"),
    }
}
