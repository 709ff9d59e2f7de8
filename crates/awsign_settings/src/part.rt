//! What a profile has to sign with, part by part.
ghost use Rattle.std.specs.Prelude.{◌≡◌, option_copied};
ghost use Rattle.aws_settings.specs.Choice.{profile_values};
ghost use Rattle.awsign_settings.specs.Own.{part_in, part_key};

use aws_settings::ProfileValues;
use job_text::lent;

/// A part of what a profile has to sign with.
#[derive(Clone, Copy, Debug, PartialEq, Eq)]
pub enum Part {
    /// The id of its key.
    KeyId,
    /// The secret of its key.
    Secret,
    /// The session token.
    Token,
    /// The region.
    Region,
}

impl Part {
    /// The key of its property.
    pub fn key(self) -> &'static str
        ensures { result.now ≡ part_key self }
    {
        match self {
            Part::KeyId => "aws_access_key_id",
            Part::Secret => "aws_secret_access_key",
            Part::Token => "aws_session_token",
            Part::Region => "region",
        }
    }

    /// This part of the values of a profile.
    pub fn of(self, values: &ProfileValues) -> Option<&str>
        ensures { option_copied result ≡ part_in self (profile_values values.now) }
    {
        match self {
            Part::KeyId => lent(&values.key_id),
            Part::Secret => lent(&values.secret),
            Part::Token => lent(&values.token),
            Part::Region => lent(&values.region),
        }
    }
}
