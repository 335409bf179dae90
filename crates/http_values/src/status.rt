//! The statuses of replies, with the codes and the reason phrases that the crate `http` has for them.

ghost use Rattle.std.specs.Prelude.{◌≡◌, ◌≤◌, length};
ghost use Rattle.http_values.specs.Codes.{code_of};
ghost use Rattle.http_values.specs.Phrases.{phrase_of};

use http::StatusCode;

/// The status of a reply (RFC 9110, 15; 507 is RFC 4918, 11.5).
#[derive(Clone, Copy, PartialEq, Eq)]
pub enum Status {
    /// 200
    Ok,
    /// 204
    NoContent,
    /// 206
    PartialContent,
    /// 304
    NotModified,
    /// 400
    BadRequest,
    /// 404
    NotFound,
    /// 405
    MethodNotAllowed,
    /// 409
    Conflict,
    /// 410
    Gone,
    /// 412
    PreconditionFailed,
    /// 413
    PayloadTooLarge,
    /// 416
    RangeNotSatisfiable,
    /// 417
    ExpectationFailed,
    /// 500
    InternalServerError,
    /// 501
    NotImplemented,
    /// 503
    ServiceUnavailable,
    /// 507
    InsufficientStorage,
}

impl Status {
    /// The status as `http` has it.
    fn to_http(self) -> StatusCode
        ensures { result ≡ code_of self }
    {
        match self {
            Status::Ok => StatusCode::OK,
            Status::NoContent => StatusCode::NO_CONTENT,
            Status::PartialContent => StatusCode::PARTIAL_CONTENT,
            Status::NotModified => StatusCode::NOT_MODIFIED,
            Status::BadRequest => StatusCode::BAD_REQUEST,
            Status::NotFound => StatusCode::NOT_FOUND,
            Status::MethodNotAllowed => StatusCode::METHOD_NOT_ALLOWED,
            Status::Conflict => StatusCode::CONFLICT,
            Status::Gone => StatusCode::GONE,
            Status::PreconditionFailed => StatusCode::PRECONDITION_FAILED,
            Status::PayloadTooLarge => StatusCode::PAYLOAD_TOO_LARGE,
            Status::RangeNotSatisfiable => StatusCode::RANGE_NOT_SATISFIABLE,
            Status::ExpectationFailed => StatusCode::EXPECTATION_FAILED,
            Status::InternalServerError => StatusCode::INTERNAL_SERVER_ERROR,
            Status::NotImplemented => StatusCode::NOT_IMPLEMENTED,
            Status::ServiceUnavailable => StatusCode::SERVICE_UNAVAILABLE,
            Status::InsufficientStorage => StatusCode::INSUFFICIENT_STORAGE,
        }
    }

    /// Its code, such as 404.
    pub fn code(self) -> u16
        ensures { result ≡ code_of self }
    {
        self.to_http().as_u16()
    }

    /// Its reason phrase, such as `Not Found`. It has at most 32 bytes.
    pub fn phrase(self) -> &'static str
        ensures value { result.now ≡ phrase_of (code_of self) }
        ensures short { length result.now ≤ 32 }
    {
        match self.to_http().canonical_reason() {
            Some(phrase) => phrase,
            None => "",
        }
    }
}
