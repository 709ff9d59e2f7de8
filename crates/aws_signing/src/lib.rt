//! One call for each common use of the crates below: settings, requests that are signed in their headers or their target, uploads in
//! signed chunks, streams of events that are signed, received and checked, and a service's door.
//!
//! The layer above is promised that a [`Signer`] makes the signed request of its case, or answers exactly the first test that fails
//! (`specs/SigningBy.antt`), a URL likewise (`specs/Presigning.antt`), and an upload behind its request (`specs/Upload.antt`); that the
//! frames of [`SignedEvents`] are links of the chain from a request's signature on (`specs/EventFrames.antt`), whose messages
//! [`ReceivedEvents`] gives and [`WatchedEvents`] checks (`specs/Received.antt`, `specs/Watched.antt`); and that a [`Service`] lets a
//! request in as `request_door` does (`specs/Service.antt`). [`AwsSettings`] are those of `aws_settings`.
#![tactic(auto)]

mod events;
mod fault;
mod key_holder;
mod presigning;
mod received_events;
mod service;
mod signer;
mod upload;
mod watched;

pub use crate::events::SignedEvents;
pub use crate::fault::{AwsSigningError, Result};
pub use crate::presigning::is_presigned;
pub use crate::received_events::{ReceivedEvents, ReceivedMessages, received};
pub use crate::service::Service;
pub use crate::signer::Signer;
pub use crate::watched::WatchedEvents;
pub use aws_chunked::AnnounceFault;
pub use aws_settings::{AwsSettings, EnvConfigParseError, SettingsFault};
pub use bytes::Bytes;
pub use chain_watch::{ChainFault, Watched};
pub use request_door::{Admitted, DoorFault, DoorPayload, ErrorCode, KeyList, Keys, Limits};
pub use sigv4::{
    PayloadChecksumKind, PercentEncodingMode, SessionTokenMode, SignatureLocation, SigningError,
    SigningSettings, UriPathNormalizationMode,
};
pub use smithy_core::{
    Clock, Credentials, Disk, Env, FixedClock, Header, HeaderValue, Headers, HostDisk, HttpRequest,
    Message, Moment, StrBytes, SystemClock,
};
pub use std::alloc::Global;
