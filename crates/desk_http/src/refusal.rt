//! Why HTTP itself refuses a request, and why a connection got no response.
ghost use Rattle.std.specs.Prelude.{◌≡◌};
ghost use Rattle.desk_http.specs.Refusals.{refusal_of_error, refusal_text, status_of_refusal};

use http::StatusCode;
use httparse::Error as HeadError;
use thiserror::Error;

/// One of HTTP's own refusals: what was sent asks nothing of the desk (RFC 9110, section 15.5; RFC 6585, section 5).
#[derive(Clone, Copy)]
pub enum Refusal {
    /// 400: what was sent begins no head, or ends before a head or its body is whole; or the length of the body is no
    /// length, or stands there twice
    BadRequest,
    /// 404: the target is no path of the desk, or a part of it is no BIC, type or number
    NotFound,
    /// 405: the path has another method
    MethodNotAllowed,
    /// 411: the head tells no length of the body
    LengthRequired,
    /// 413: the body is longer than `desk_text::LONGEST_TEXT`
    PayloadTooLarge,
    /// 431: the head is longer than `LONGEST_HEAD`, or has more fields than `MOST_FIELDS`
    HeaderFieldsTooLarge,
}

impl Refusal {
    /// Its status.
    pub fn status(self) -> StatusCode
        ensures { result ≡ status_of_refusal self }
    {
        match self {
            Refusal::BadRequest => StatusCode::BAD_REQUEST,
            Refusal::NotFound => StatusCode::NOT_FOUND,
            Refusal::MethodNotAllowed => StatusCode::METHOD_NOT_ALLOWED,
            Refusal::LengthRequired => StatusCode::LENGTH_REQUIRED,
            Refusal::PayloadTooLarge => StatusCode::PAYLOAD_TOO_LARGE,
            Refusal::HeaderFieldsTooLarge => StatusCode::REQUEST_HEADER_FIELDS_TOO_LARGE,
        }
    }

    /// The text that it is told with.
    pub fn text(self) -> &'static str
        ensures { result.now ≡ refusal_text self }
    {
        match self {
            Refusal::BadRequest => "refused 400",
            Refusal::NotFound => "refused 404",
            Refusal::MethodNotAllowed => "refused 405",
            Refusal::LengthRequired => "refused 411",
            Refusal::PayloadTooLarge => "refused 413",
            Refusal::HeaderFieldsTooLarge => "refused 431",
        }
    }
}

/// Why a connection got no response.
#[derive(Clone, Copy, Debug, PartialEq, Eq, Error)]
pub enum HttpFault {
    /// The reader failed; nothing was asked. An interrupted read counts as failed.
    #[error("reading failed")]
    ReadFailed,
    /// The writer failed, or took no byte. What was asked stands.
    #[error("writing failed")]
    WriteFailed,
    /// There was no room for a request; nothing was read.
    #[error("out of memory")]
    Memory,
}

/// The refusal of a head with this error.
pub fn refusal_of(error: HeadError) -> Refusal
    ensures { result ≡ refusal_of_error error }
{
    match error {
        HeadError::TooManyHeaders => Refusal::HeaderFieldsTooLarge,
        _ => Refusal::BadRequest,
    }
}
