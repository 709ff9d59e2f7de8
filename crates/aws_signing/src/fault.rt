use aws_chunked::AnnounceFault;
use aws_settings::SettingsFault;
use chain_watch::ChainFault;
use eventstream::{Error, ErrorKind};
use request_door::DoorFault;
use sigv4::SigningError;
use std::alloc::{AllocError, AllocFailed};
use std::fmt;

/// What a call of this crate answers that may fail.
pub type Result<T> = std::result::Result<T, AwsSigningError>;

/// Why a call of this crate doesn't do what was asked. [`Debug`] and [`Display`](fmt::Display) print no secret and no signature.
#[derive(Debug, Drop)]
pub enum AwsSigningError {
    /// The credentials have an empty key id.
    EmptyKeyId,
    /// The credentials have an empty secret.
    EmptySecret,
    /// The region is empty.
    EmptyRegion,
    /// The service's name is empty.
    EmptyName,
    /// A URL was to be good for so many seconds, which aren't from 1 to 604,800.
    InvalidExpiry(u64),
    /// The URL that was to be presigned has a parameter `X-Amz-Signature`.
    AlreadyPresigned,
    /// There is nothing to sign with for this reason.
    Settings(SettingsFault),
    /// A chunk was to have so many bytes, which aren't from 1 to 4,294,967,295.
    InvalidChunkSize(usize),
    /// The data of an upload has more than 4,294,967,295 bytes.
    DataTooLong,
    /// An upload isn't announced for this reason.
    Unannounced(AnnounceFault),
    /// The stream of events has 18,446,744,073,709,551,616 bytes or more.
    StreamTooLong,
    /// The stream of events ended with bytes that no message was answered of.
    CutOff,
    /// A request, a message or a chunk isn't signed for this reason.
    Signing(SigningError),
    /// The bytes that came are no frame.
    Frame(Error),
    /// The bytes that came aren't the chain of events.
    Chain(ChainFault),
    /// The service doesn't let the request in.
    Refused(DoorFault),
    /// Memory ran out.
    NoMemory,
}

impl fmt::Display for AwsSigningError {
    ghost use Rattle.std.specs.Prelude.{Some};
    ghost use Rattle.aws_signing.specs.SigningFaults.{signing_fault_text};

    ghost output = { λ fault. Some (signing_fault_text fault) };

    fn fmt<W: fmt::Write>(&self, f: &mut fmt::Formatter<W>) -> fmt::Result {
        match self {
            AwsSigningError::EmptyKeyId => f.write_str("the key id is empty"),
            AwsSigningError::EmptySecret => f.write_str("the secret is empty"),
            AwsSigningError::EmptyRegion => f.write_str("the region is empty"),
            AwsSigningError::EmptyName => f.write_str("the service's name is empty"),
            AwsSigningError::InvalidExpiry(seconds) => write!(
                f,
                "a URL is good for 1 to 604800 seconds, not for {seconds}"
            ),
            AwsSigningError::AlreadyPresigned => f.write_str("the URL is presigned already"),
            AwsSigningError::Settings(fault) => write!(f, "{fault}"),
            AwsSigningError::InvalidChunkSize(size) => write!(
                f,
                "a chunk has 1 to 4294967295 bytes, not {size}"
            ),
            AwsSigningError::DataTooLong => f.write_str("the data is too long"),
            AwsSigningError::Unannounced(fault) => write!(f, "{fault}"),
            AwsSigningError::StreamTooLong => f.write_str("the stream is too long"),
            AwsSigningError::CutOff => f.write_str("the stream ended within a frame"),
            AwsSigningError::Signing(error) => write!(f, "{error}"),
            AwsSigningError::Frame(error) => write!(f, "{error}"),
            AwsSigningError::Chain(fault) => write!(f, "{fault}"),
            AwsSigningError::Refused(fault) => write!(f, "{fault}"),
            AwsSigningError::NoMemory => f.write_str("no memory"),
        }
    }
}

impl std::error::Error for AwsSigningError {}

impl From<SigningError> for AwsSigningError {
    ghost use Rattle.std.specs.Prelude.{◌≡◌};
    ghost use Rattle.aws_signing.specs.SigningFaults.{of_signing};

    ghost from_gives = { λ inner fault. fault ≡ of_signing inner };

    fn from(inner: SigningError) -> AwsSigningError {
        match inner {
            SigningError::NoMemory => AwsSigningError::NoMemory,
            _ => AwsSigningError::Signing(inner),
        }
    }
}

impl From<ChainFault> for AwsSigningError {
    ghost use Rattle.std.specs.Prelude.{◌≡◌};
    ghost use Rattle.aws_signing.specs.SigningFaults.{of_chain};

    ghost from_gives = { λ inner fault. fault ≡ of_chain inner };

    fn from(inner: ChainFault) -> AwsSigningError {
        match inner {
            ChainFault::NoMemory => AwsSigningError::NoMemory,
            _ => AwsSigningError::Chain(inner),
        }
    }
}

impl From<Error> for AwsSigningError {
    ghost use Rattle.std.specs.Prelude.{◌≡◌};
    ghost use Rattle.aws_signing.specs.SigningFaults.{of_encoding};

    ghost from_gives = { λ inner fault. fault ≡ of_encoding inner };

    fn from(inner: Error) -> AwsSigningError {
        match inner.kind() {
            ErrorKind::NoMemory => AwsSigningError::NoMemory,
            _ => AwsSigningError::Frame(inner),
        }
    }
}

impl From<DoorFault> for AwsSigningError {
    ghost use Rattle.std.specs.Prelude.{◌≡◌};
    ghost use Rattle.aws_signing.specs.SigningFaults.{of_door};

    ghost from_gives = { λ inner fault. fault ≡ of_door inner };

    fn from(inner: DoorFault) -> AwsSigningError {
        match inner {
            DoorFault::NoMemory => AwsSigningError::NoMemory,
            _ => AwsSigningError::Refused(inner),
        }
    }
}

impl From<SettingsFault> for AwsSigningError {
    ghost use Rattle.std.specs.Prelude.{◌≡◌};
    ghost use Rattle.aws_signing.specs.SigningFaults.{of_settings};

    ghost from_gives = { λ inner fault. fault ≡ of_settings inner };

    fn from(inner: SettingsFault) -> AwsSigningError {
        match inner {
            SettingsFault::NoMemory => AwsSigningError::NoMemory,
            _ => AwsSigningError::Settings(inner),
        }
    }
}

impl From<AnnounceFault> for AwsSigningError {
    ghost use Rattle.std.specs.Prelude.{◌≡◌};
    ghost use Rattle.aws_signing.specs.SigningFaults.{of_announcing};

    ghost from_gives = { λ inner fault. fault ≡ of_announcing inner };

    fn from(inner: AnnounceFault) -> AwsSigningError {
        match inner {
            AnnounceFault::NoMemory => AwsSigningError::NoMemory,
            _ => AwsSigningError::Unannounced(inner),
        }
    }
}

impl From<AllocError> for AwsSigningError {
    ghost use Rattle.std.specs.Prelude.{◌≡◌};
    ghost use Rattle.aws_signing.specs.declared.fault.AwsSigningError.TheVariants.{NoMemory};

    ghost from_gives = { λ _ fault. fault ≡ NoMemory };

    fn from(_e: AllocError) -> AwsSigningError {
        AwsSigningError::NoMemory
    }
}

impl<T: Drop> From<AllocFailed<T>> for AwsSigningError {
    ghost use Rattle.std.specs.Prelude.{◌≡◌};
    ghost use Rattle.aws_signing.specs.declared.fault.AwsSigningError.TheVariants.{NoMemory};

    ghost from_gives = { λ _ fault. fault ≡ NoMemory };

    fn from(_e: AllocFailed<T>) -> AwsSigningError {
        AwsSigningError::NoMemory
    }
}
