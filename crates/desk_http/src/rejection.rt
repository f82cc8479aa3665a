//! Requests that aren't handed on.

/// Why a request isn't handed to the service.
#[derive(Clone, Copy, Debug)]
pub enum Rejection {
    /// The head doesn't end within 8,192 bytes, or has more than 64 fields: 431.
    HeadTooLarge,
    /// The head isn't one of HTTP/1.1 or 1.0, or a POST tells no one length of its body: 400.
    BadRequest,
    /// The target is none of the routes, or a part of it isn't of its kind: 404.
    NotFound,
    /// The target has the method POST alone: 405.
    OnlyPost,
    /// The target has the method GET alone: 405.
    OnlyGet,
    /// The field `Host` names another service, or stands there twice: 421.
    Misdirected,
    /// The request is sent for a page of another origin, as its browser says: 403.
    Forbidden,
    /// The token that is asked for isn't shown: 401.
    Unauthorized,
    /// A POST without a length of its body: 411.
    LengthRequired,
    /// A body of more than 1,048,576 bytes: 413.
    BodyTooLarge,
}
