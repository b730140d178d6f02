//! The statuses of answers.

/// The status of an answer.
#[derive(Clone, Copy, Debug, PartialEq, Eq)]
pub enum Status {
    /// 200: the request was answered.
    Okay,
    /// 303: what was asked for stands at another target.
    SeeOther,
    /// 400: the head, or the form of the request, is at fault.
    BadRequest,
    /// 403: the message was not sent to this machine by name, or comes from a foreign page.
    Forbidden,
    /// 404: no route matches the target.
    NotFound,
    /// 405: the route has another method.
    MethodNotAllowed,
    /// 409: the desk refuses the request.
    Conflict,
    /// 411: a body comes without its length.
    LengthRequired,
    /// 413: the body is too long.
    ContentTooLarge,
    /// 500: memory or the store failed.
    InternalServerError,
    /// 501: the body is not sent by its length.
    NotImplemented,
}
