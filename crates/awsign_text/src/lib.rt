//! The texts that the tool `awsign` prints of a signed request.
//!
//! The layer above is promised of [`text_of`] the request in exactly the form that is asked for (`specs/Forms.antt`), and that what is
//! printed as a config of curl reads back as exactly the options by which curl sends the request ([`config_reads_back`],
//! `specs/Curl.antt`). A head is that of `specs/Head.antt`.
#![tactic(auto)]

mod curl;
mod forms;
mod head;
mod laws;

pub use crate::curl::curl_config;
pub use crate::forms::{Form, text_of};
pub use crate::laws::config_reads_back;
