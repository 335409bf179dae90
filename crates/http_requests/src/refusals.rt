//! Why bytes begin with no request.

/// Why bytes begin with no request: the first reason that applies.
#[derive(Clone, Copy, PartialEq, Eq)]
pub enum Refusal {
    /// There is no head.
    Head,
    /// The head has more than one host, or an HTTP/1.1 head has none.
    Host,
    /// The body has a coding.
    Coding,
    /// An HTTP/1.1 head expects something.
    Expect,
    /// There is more than one content-length, or it isn't digits alone.
    Length,
    /// The body is longer than 65,536 bytes.
    Body,
    /// The input ends before the body does.
    Short,
}

/// A refusal, and whether its reply is only a head, because a head with the method HEAD was read.
#[derive(Clone, Copy)]
pub struct Rejection {
    pub refusal: Refusal,
    pub bare: bool,
}

/// There is no head.
pub const NO_HEAD: Rejection = Rejection {
    refusal: Refusal::Head,
    bare: false,
};
