//! Why nothing is signed.
ghost use Rattle.std.specs.Prelude.{◌≡◌, Some, IfOk, map, option_map, string_bytes};
ghost use Rattle.env_config.specs.Source.{file_of};
ghost use Rattle.aws_settings.specs.Choice.{lack_in};
ghost use Rattle.awsign_run.specs.Chosen.{file_path, file_paths, lack_refusal, refusal_of};

use aws_settings::{EnvConfigParseError, SettingsFault};
use env_config::{File, Source};
use sigv4::SigningError;
use smithy_core::Mem;
use std::alloc::{AllocError, Global};

/// Why nothing is signed.
#[derive(Debug, Drop)]
pub enum Fault {
    /// A line of a profile file is outside the grammar: the first one of the first faulty file.
    Profile(EnvConfigParseError),
    /// No variable that counts has a key id, and the profile has no key id or no secret.
    MissingKey {
        /// The profile's name.
        profile: String,
        /// The paths of the profile files, with commas between them; a default file that is absent counts too.
        files: String,
    },
    /// `AWS_ACCESS_KEY_ID` has a value and `AWS_SECRET_ACCESS_KEY` doesn't.
    MissingSecret,
    /// Neither an option nor a variable names the region, and the profile of this name has none.
    MissingRegion(String),
    /// An option names an empty region.
    EmptyRegion,
    /// Neither an option nor the host names the service.
    MissingService,
    /// An option names an empty service.
    EmptyService,
    /// A presigned URL would be good for more than seven days.
    LongExpiry,
    /// The URL that was to be presigned has a parameter `X-Amz-Signature`.
    AlreadyPresigned,
    /// The request can't be signed.
    Signing(SigningError),
    /// Memory ran out.
    NoMemory,
}

impl Fault {
    /// The fault where settings lack this, by the texts of a source.
    ///
    /// # Errors
    ///
    /// Memory ran out, then or now.
    pub fn lacking(alloc: Global, fault: SettingsFault, source: &Source) -> Mem<Fault>
        ensures { IfOk result (λ made. Some (refusal_of made) ≡ option_map (lack_refusal (file_paths (map file_of source.now.files.items))) (lack_in fault)) }
    {
        match fault {
            SettingsFault::Profile(error) => Ok(Fault::Profile(error)),
            SettingsFault::MissingKey(profile) => Ok(Fault::MissingKey {
                profile,
                files: file_paths(alloc, source.files.as_slice())?,
            }),
            SettingsFault::MissingSecret => Ok(Fault::MissingSecret),
            SettingsFault::MissingRegion(profile) => Ok(Fault::MissingRegion(profile)),
            SettingsFault::NoMemory => Err(AllocError),
        }
    }
}

/// The paths of profile files, with commas between them.
pub fn file_paths(alloc: Global, files: &[File]) -> Mem<String>
    ensures { IfOk result (λ text. string_bytes text ≡ file_paths (map file_of files.now)) }
{
    let mut paths = Vec::new(alloc);
    for file in files {
        paths.push(file_path(file))?;
    }
    paths.as_slice().join(alloc, ", ")
}

// The path of a profile file, where it has one.
fn file_path(file: &File) -> &str
    ensures { result.now ≡ file_path (file_of file.now) }
{
    match &file.path {
        Some(path) => path.as_str(),
        None => "",
    }
}

impl From<AllocError> for Fault {
    ghost use Rattle.std.specs.Prelude.{◌≡◌};
    ghost use Rattle.awsign_run.specs.declared.fault.Fault.TheVariants.{NoMemory};

    ghost from_gives = { λ _ fault. fault ≡ NoMemory };

    fn from(_e: AllocError) -> Fault {
        Fault::NoMemory
    }
}

impl From<SigningError> for Fault {
    ghost use Rattle.std.specs.Prelude.{◌≡◌};
    ghost use Rattle.awsign_run.specs.Faults.{signing_fault};

    ghost from_gives = { λ error fault. fault ≡ signing_fault error };

    fn from(error: SigningError) -> Fault {
        match error {
            SigningError::NoMemory => Fault::NoMemory,
            error => Fault::Signing(error),
        }
    }
}
