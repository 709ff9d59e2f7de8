//! What faults print, each by its type and its name.
use crate::parts::{printed, printed_of};
use smithy_core::Mem;
use smithy_http::{HeaderFault, InvalidEndpointError, MergeFault, UriFault};
use std::alloc::Global;

/// What the fault of a type prints.
pub fn answer(alloc: Global, kind: &str, name: &str) -> Mem<String> {
    match kind {
        "UriFault" => printed_of(alloc, &[UriFault::InvalidUri, UriFault::NoMemory], name),
        "HeaderFault" => {
            let (of_name, of_value) = (
                HeaderFault::InvalidHeaderName,
                HeaderFault::InvalidHeaderValue,
            );
            printed_of(alloc, &[of_name, of_value, HeaderFault::NoMemory], name)
        }
        "MergeFault" => {
            printed_of(
                alloc,
                &[MergeFault::MaxSizeReached, MergeFault::NoMemory],
                name,
            )
        }
        _ => printed(alloc, &endpoint_error_of(alloc, name)?),
    }
}

/// The error `scheme`, `uri` or `memory`, and of another text as an authority.
pub fn endpoint_error_of(alloc: Global, text: &str) -> Mem<InvalidEndpointError> {
    Ok(match text {
        "scheme" => InvalidEndpointError::endpoint_must_have_scheme(),
        "uri" => InvalidEndpointError::failed_to_construct_uri(),
        "memory" => InvalidEndpointError::NoMemory,
        authority => {
            InvalidEndpointError::failed_to_construct_authority(String::from_str(alloc, authority)?)
        }
    })
}
