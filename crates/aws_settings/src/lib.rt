//! What there is to sign with: a region and a key, by what a caller says, by variables and by profile files, in this order, as the
//! command line of AWS has it.
//!
//! The layer above is promised that [`AwsSettings`] are what files, variables and the caller's words give, or else exactly what is
//! missing (`specs/Choice.antt`, `specs/AwsSettings.antt`).
#![tactic(auto)]

mod choice;
mod fault;
mod profile;
mod settings;

pub use crate::choice::{choose_settings, profile_name, settings_of};
pub use crate::fault::SettingsFault;
pub use crate::profile::{ProfileValues, read_profile};
pub use crate::settings::AwsSettings;
pub use env_config::EnvConfigParseError;
