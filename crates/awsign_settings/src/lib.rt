//! Says which settings are used and where each came from, as the tool `awsign settings` does.
//!
//! The program is promised of [`run_settings`]: what it prints is a line for each of profile, key, secret, token and region, with the value
//! that options, variables and profile files give in this order, and where that stood; and it answers [`Status::Done`](awsign_run::Status)
//! exactly where there is what a signature needs (`specs/SettingsRun.antt`, and below it `specs/Lines.antt`, `specs/Settings.antt`,
//! `specs/Own.antt` and `specs/ValueLine.antt`). [`settings_are_used`] says that these are the values that signing uses, and
//! [`secrets_are_hidden`] that no secret is in what is printed.
#![tactic(auto)]

mod laws;
mod lines;
mod own;
mod part;
mod run;
mod settings;
mod sourced;
mod value_line;

pub use crate::laws::{secrets_are_hidden, settings_are_used};
pub use crate::lines::settings_text;
pub use crate::own::{OwnProfile, own_profiles};
pub use crate::part::Part;
pub use crate::run::run_settings;
pub use crate::settings::{KeySettings, Settings, lack, settings_of};
pub use crate::sourced::{FoundIn, Sourced};
pub use crate::value_line::property_line;
