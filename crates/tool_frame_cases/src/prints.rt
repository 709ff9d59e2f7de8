use crate::shown::{copy_debugged, debugged};
use smithy_core::{
    DiskError, Failed, FormatFault, InvalidAppName, Mem, ReadFault, SdkError, SinkError,
    TimeOutOfRange,
};
use std::alloc::Global;
use std::fmt::{Debug, Display};
use tool_case_lines::unknown;

// The text of a fault, or how a copy of it shows itself.
pub fn answer(alloc: Global, kind: &str, name: &str) -> Mem<String> {
    match kind {
        "InvalidAppName" => InvalidAppName.to_string(alloc),
        "TimeOutOfRange" => TimeOutOfRange.to_string(alloc),
        "Failed" => Failed.to_string(alloc),
        "SdkError" => sdk_error(name).to_string(alloc),
        "copied" => copy_debugged(alloc, sdk_error(name).try_clone()),
        _ => of_kind(alloc, kind, name),
    }
}

fn of_kind(alloc: Global, kind: &str, name: &str) -> Mem<String> {
    match kind {
        "FormatFault" => named(
            alloc,
            &[FormatFault::OutOfRange, FormatFault::NoMemory],
            name,
        ),
        "DiskError" => {
            let all = [DiskError::NotFound, DiskError::Failed, DiskError::NoMemory];
            named(alloc, &all, name)
        }
        "ReadFault" => {
            let all = [ReadFault::Failed, ReadFault::TooLarge, ReadFault::NoMemory];
            named(alloc, &all, name)
        }
        "SinkError" => named(alloc, &[SinkError::Failed, SinkError::NoMemory], name),
        _ => unknown(alloc),
    }
}

// The text of the one of these that `Debug` shows by this name.
fn named<T: Debug + Display>(alloc: Global, all: &[T], name: &str) -> Mem<String> {
    for fault in all {
        if debugged(alloc, fault)?.as_str() == name {
            return fault.to_string(alloc);
        }
    }
    unknown(alloc)
}

fn sdk_error(name: &str) -> SdkError<u8, u16, u32> {
    match name {
        "ConstructionFailure" => SdkError::ConstructionFailure(1),
        "DispatchFailure" => SdkError::DispatchFailure,
        "ResponseError" => SdkError::ResponseError { source: 2, raw: 3 },
        "ServiceError" => SdkError::ServiceError { source: 4, raw: 5 },
        _ => SdkError::NoMemory,
    }
}
