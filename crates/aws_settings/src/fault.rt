//! Why there is nothing to sign with.
use env_config::{EnvConfigParseError, ParseFault};
use std::alloc::AllocError;
use std::fmt;

/// Why there is nothing to sign with.
#[derive(Debug, Drop)]
pub enum SettingsFault {
    /// A line of a profile file is outside the grammar: the first one of the first faulty file.
    Profile(EnvConfigParseError),
    /// No variable has a key id, and the profile of this name has no key id or no secret.
    MissingKey(String),
    /// `AWS_ACCESS_KEY_ID` has a value and `AWS_SECRET_ACCESS_KEY` doesn't.
    MissingSecret,
    /// Neither the caller nor a variable names the region, and the profile of this name has none.
    MissingRegion(String),
    /// Memory ran out.
    NoMemory,
}

impl fmt::Display for SettingsFault {
    ghost use Rattle.std.specs.Prelude.{Some};
    ghost use Rattle.aws_settings.specs.Faults.{settings_lack_text};

    ghost output = { λ fault. Some (settings_lack_text fault) };

    fn fmt<W: fmt::Write>(&self, f: &mut fmt::Formatter<W>) -> fmt::Result {
        match self {
            SettingsFault::Profile(error) => write!(f, "{error}"),
            SettingsFault::MissingKey(profile) => write!(
                f,
                "there is no key: AWS_ACCESS_KEY_ID isn't set, and the profile '{profile}' has no aws_access_key_id or no aws_secret_access_key"
            ),
            SettingsFault::MissingSecret => {
                f.write_str("AWS_ACCESS_KEY_ID is set and AWS_SECRET_ACCESS_KEY isn't")
            }
            SettingsFault::MissingRegion(profile) => write!(
                f,
                "there is no region: AWS_REGION and AWS_DEFAULT_REGION aren't set, and the profile '{profile}' has none"
            ),
            SettingsFault::NoMemory => f.write_str("no memory"),
        }
    }
}

impl std::error::Error for SettingsFault {}

impl From<AllocError> for SettingsFault {
    ghost use Rattle.std.specs.Prelude.{◌≡◌};
    ghost use Rattle.aws_settings.specs.declared.fault.SettingsFault.TheVariants.{NoMemory};

    ghost from_gives = { λ _ fault. fault ≡ NoMemory };

    fn from(_e: AllocError) -> SettingsFault {
        SettingsFault::NoMemory
    }
}

impl From<ParseFault> for SettingsFault {
    ghost use Rattle.std.specs.Prelude.{◌≡◌};
    ghost use Rattle.aws_settings.specs.Faults.{parse_fault};

    ghost from_gives = { λ inner fault. fault ≡ parse_fault inner };

    fn from(inner: ParseFault) -> SettingsFault {
        match inner {
            ParseFault::Parse(error) => SettingsFault::Profile(error),
            ParseFault::NoMemory => SettingsFault::NoMemory,
        }
    }
}
