ghost use Rattle.std.specs.Prelude.{◌≡◌};
ghost use Rattle.request_door.specs.DoorCodes.{error_entry};

use crate::fault::DoorFault;
use presign_check::PresignPart;

/// An error as a service's answer has it.
#[derive(Clone, Copy, Debug)]
pub struct ErrorCode {
    /// The name, as `SignatureDoesNotMatch`.
    pub name: &'static str,
    /// The HTTP status.
    pub status: u16,
}

impl DoorFault {
    /// The error of Amazon S3 that the fault is, with its HTTP status. The names and statuses are those of S3's "List of error
    /// codes", as botocore's model of S3 has it (1.43.11), but for `AuthorizationQueryParametersError`, which OpenStack Swift's
    /// implementation of S3 answers (2.30.1), and `XAmzContentSHA256Mismatch`, which stands in neither.
    ///
    /// Which fault is which error goes by Swift, where it makes the test, and for [`DoorFault::OtherAlgorithm`] by that list. No
    /// source was found for the rows of [`DoorFault::InvalidHeader`], [`DoorFault::BothForms`], [`DoorFault::TooManyNames`],
    /// [`DoorFault::BadNames`], [`DoorFault::UnsignedHost`], the header `x-amz-content-sha256` and repeated parts. In header form
    /// and in query form a fault has one error here: for a part of a presigned target that is outside its form Swift answers
    /// `AuthorizationQueryParametersError`, of the same status, and for one that is too late `AccessDenied`, likewise.
    pub fn code(self) -> ErrorCode
        ensures name { result.name.now ≡ (error_entry self).name }
        ensures status { result.status ≡ (error_entry self).status }
    {
        let (name, status) = match self {
            DoorFault::InvalidTarget => ("InvalidURI", 400),
            DoorFault::InvalidHeader | DoorFault::OtherAlgorithm => ("InvalidRequest", 400),
            DoorFault::BothForms | DoorFault::RepeatedPayload | DoorFault::BadPayload => {
                ("InvalidArgument", 400)
            }
            DoorFault::NoForm
            | DoorFault::Missing(PresignPart::Date)
            | DoorFault::Repeated(PresignPart::Date)
            | DoorFault::BadDate
            | DoorFault::UnsignedHost
            | DoorFault::UnsignedHeader => ("AccessDenied", 403),
            DoorFault::Missing(_)
            | DoorFault::Repeated(_)
            | DoorFault::BadExpiry
            | DoorFault::LongExpiry => ("AuthorizationQueryParametersError", 400),
            DoorFault::Malformed
            | DoorFault::BadCredential
            | DoorFault::OtherService
            | DoorFault::OtherRegion
            | DoorFault::OtherDay
            | DoorFault::TooManyNames
            | DoorFault::BadNames => ("AuthorizationHeaderMalformed", 400),
            DoorFault::AbsentHeader | DoorFault::Mismatch => ("SignatureDoesNotMatch", 403),
            DoorFault::TooEarly | DoorFault::TooLate => ("RequestTimeTooSkewed", 403),
            DoorFault::UnknownKey => ("InvalidAccessKeyId", 403),
            DoorFault::OtherPayload => ("XAmzContentSHA256Mismatch", 400),
            DoorFault::NoMemory => ("InternalError", 500),
        };
        ErrorCode { name, status }
    }
}
