//! Settings from profile files and the environment: the config and credentials files of AWS, read
//! line by line, their sections merged, and one order of precedence of variables and properties.
#![tactic(auto)]

mod by_name;
mod entries;
mod fault;
mod few_pairs;
mod files;
mod heading;
mod home;
mod kept;
mod last_property;
mod latest;
mod laws;
mod line;
mod load_fault;
mod loading;
mod merge;
mod parse_fault;
mod profile;
mod profile_sink;
mod properties;
mod properties_key;
mod property;
mod raw;
mod raw_sections;
mod reader;
mod section;
mod section_properties;
mod sections;
mod sections_sink;
mod selected_profile;
mod service_config;
mod service_id;
mod source;
mod text;
mod texts;
mod value;
mod value_fault;
mod value_source;

pub use crate::files::{BuildFault, Builder, EnvConfigFiles};
pub use crate::home::{Os, home_dir};
pub use crate::laws::{found_in_any_case, later_file_wins};
pub use crate::load_fault::{CouldNotReadConfigFile, EnvConfigFileLoadError};
pub use crate::loading::load;
pub use crate::parse_fault::{EnvConfigParseError, ParseFault};
pub use crate::profile::{Profile, SsoSession};
pub use crate::properties::Properties;
pub use crate::properties_key::{PropertiesKey, PropertiesKeyBuilder, PropertiesKeyFault};
pub use crate::property::Property;
pub use crate::sections::EnvConfigSections;
pub use crate::selected_profile::SelectedProfile;
pub use crate::service_config::{ServiceConfigKey, get_service_env_config};
pub use crate::source::{EnvConfigFileKind, File, Source};
pub use crate::value::EnvConfigValue;
pub use crate::value_fault::{EnvConfigError, ValidateFault};
pub use crate::value_source::{EnvConfigSource, Origin};
