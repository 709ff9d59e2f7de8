//! The base of the stack: moments and civil dates, messages and their headers, requests,
//! credentials, the environment, and the I/O traits with their versions in memory.
//!
//! The layer above is promised that a [`Message`] is a list of headers and a payload, that
//! [`Headers`] is a list of pairs under `insert` and `append`, that [`civil`] counts the days of the
//! Gregorian calendar, and that each I/O object counts its faults
//! (`specs/Outside.antt`, `specs/Clock.antt`, `specs/FrameSource.antt`), in memory exactly at the calls
//! that are to fail (`specs/Calls.antt`).
#![tactic(auto)]

mod app_name;
mod blob;
mod civil_date;
mod civil_text;
mod client_config;
mod document;
mod env;
mod error_metadata;
mod format;
mod header;
mod header_grammar;
mod header_iter;
mod header_values;
mod headers;
mod identity;
mod lower;
mod memory;
mod message;
mod moment;
mod names;
mod outside;
mod raw_message;
mod request;
mod response;
mod sdk_error;
mod str_bytes;
mod text;
mod text_pairs;

pub use crate::app_name::{AppName, InvalidAppName};
pub use crate::blob::Blob;
pub use crate::civil_date::{civil, day_number, is_in_years, is_same_day};
pub use crate::civil_text::Civil;
pub use crate::client_config::{RetryConfig, TimeoutConfig};
pub use crate::document::Document;
pub use crate::env::Env;
pub use crate::error_metadata::ErrorMetadata;
pub use crate::format::{Format, FormatFault};
pub use crate::header::{Header, HeaderValue};
pub use crate::header_grammar::{is_header_name, is_header_value};
pub use crate::header_iter::HeaderIter;
pub use crate::header_values::HeaderValues;
pub use crate::headers::Headers;
pub use crate::identity::{Credentials, Identity};
pub use crate::lower::is_lower_of;
pub use crate::memory::{Mem, NoMemory};
pub use crate::message::Message;
pub use crate::moment::{DateTime, Moment, TimeOutOfRange};
pub use crate::names::{Region, SigningName};
pub use crate::outside::clock::{Clock, FixedClock, ListClock};
pub use crate::outside::disk::{CalmDisk, Disk, DiskError, FaultyDisk};
pub use crate::outside::frame_part::{FramePart, Polled};
pub use crate::outside::frame_source::{CalmFrames, FaultyFrames, FrameSource, MOST_PIECE};
pub use crate::outside::host::{HostDisk, StdSink, StdSource, SystemClock};
pub use crate::outside::read_all::{ReadFault, read_all};
pub use crate::outside::sink::{ByteSink, CalmSink, FaultySink, SinkError};
pub use crate::outside::source::{ByteSource, CalmSource, Failed, FaultySource};
pub use crate::outside::write_all::write_all;
pub use crate::raw_message::RawMessage;
pub use crate::request::HttpRequest;
pub use crate::response::HttpResponse;
pub use crate::sdk_error::SdkError;
pub use crate::str_bytes::StrBytes;
pub use crate::text::{copied_text, push_line, push_text_line};
