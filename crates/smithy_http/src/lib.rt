//! Requests before they are signed: labels and queries are escaped, targets are built and sent to endpoints, headers are
//! set and merged.
//!
//! The layer above is promised that an escaped text has the escapes of `specs/Escape.antt` and decodes to the text again;
//! that [`QueryWriter`] builds the target with its pairs, and refuses exactly where there is no such target
//! (`specs/QueryWriter.antt`); that [`apply_endpoint`] gives the target at the endpoint, or the first test that fails
//! (`specs/Endpoint.antt`); and that headers are set where they are absent and merged in order
//! (`specs/SetHeader.antt`, `specs/Merge.antt`).
#![tactic(auto)]

mod endpoint;
mod endpoint_error;
mod endpoint_prefix;
mod escape;
pub mod label;
mod laws;
mod merge;
mod piece;
pub mod query;
mod query_writer;
mod resolve_error;
mod set_header;
mod target;
mod uri_fault;

pub use crate::endpoint::apply_endpoint;
pub use crate::endpoint_error::InvalidEndpointError;
pub use crate::endpoint_prefix::EndpointPrefix;
pub use crate::laws::{
    labels_fit, pairs_are_joined, pairs_are_read_back, pieces_are_joined, query_parts_fit,
};
pub use crate::merge::{MergeFault, append_merge_header_maps};
pub use crate::query_writer::QueryWriter;
pub use crate::resolve_error::ResolveEndpointError;
pub use crate::set_header::{
    HeaderFault, set_request_header_if_absent, set_response_header_if_absent,
};
pub use crate::target::read_target;
pub use crate::uri_fault::UriFault;
pub use smithy_core::{is_header_name, is_header_value};
