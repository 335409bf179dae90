//! Where a head can be invalid, byte by byte. It decides only when a head is parsed, not the result.
use httparse::{is_header_name_token, is_header_value_token, is_method_token, is_uri_token};

/// A version up to its last digit (RFC 9112, 2.3).
const VERSION: &[u8] = b"HTTP/1.";

/// Where a prefix of a head ends (RFC 9112, 2.2 to 5).
#[derive(Clone, Copy)]
pub enum Position {
    /// Before the method, after empty lines at most.
    Front,
    /// After the carriage return of an empty line before the method.
    FrontReturn,
    /// In the method.
    Method,
    /// After the space that ends the method.
    MethodEnd,
    /// In the target, which is ASCII so far or isn't.
    Target { ascii: bool },
    /// After a target that isn't ASCII: only a parse shows whether it is UTF-8.
    Doubt,
    /// In the version: these bytes and a digit are left.
    Version(&'static [u8]),
    /// After the version.
    VersionEnd,
    /// After the carriage return of a line.
    LineReturn,
    /// After the end of a line.
    LineEnd,
    /// In the name of a field.
    Name,
    /// In the value of a field.
    Value,
    /// After the carriage return of the empty line that ends the head.
    LastReturn,
    /// After a byte that is invalid there.
    Fault,
    /// After the head or a fault.
    Over,
}

impl Position {
    /// Whether a parse may find a fault here that it didn't find a byte earlier.
    fn may_be_fault(self) -> bool {
        matches!(self, Position::Doubt | Position::Fault)
    }

    /// The same with one more byte of the version: `rest` and a digit are left.
    fn in_version(rest: &'static [u8], byte: u8) -> Position {
        match rest {
            [first, more @ ..] if *first == byte => Position::Version(more),
            [] if byte == b'0' || byte == b'1' => Position::VersionEnd,
            _ => Position::Fault,
        }
    }

    /// The same with one more byte of the first line or of the empty lines before it.
    fn in_request_line(self, byte: u8) -> Position {
        match (self, byte) {
            (Position::Front | Position::FrontReturn, b'\n') => Position::Front,
            (Position::Front, b'\r') => Position::FrontReturn,
            (Position::Front | Position::Method, _) if is_method_token(byte) => Position::Method,
            (Position::Method, b' ') => Position::MethodEnd,
            (Position::MethodEnd, _) if is_uri_token(byte) => Position::Target {
                ascii: byte.is_ascii(),
            },
            (Position::Target { ascii }, _) if is_uri_token(byte) => Position::Target {
                ascii: ascii && byte.is_ascii(),
            },
            (Position::Target { ascii: true }, b' ') => Position::Version(VERSION),
            (Position::Target { ascii: false }, b' ') => Position::Doubt,
            (Position::Doubt, _) => Position::in_version(VERSION, byte),
            (Position::Version(rest), _) => Position::in_version(rest, byte),
            _ => Position::Fault,
        }
    }

    /// The same with one more byte after the version.
    fn in_fields(self, byte: u8) -> Position {
        match (self, byte) {
            (Position::VersionEnd | Position::Value | Position::LineReturn, b'\n') =>
                Position::LineEnd,
            (Position::VersionEnd | Position::Value, b'\r') => Position::LineReturn,
            (Position::LineEnd | Position::LastReturn, b'\n') => Position::Over,
            (Position::LineEnd, b'\r') => Position::LastReturn,
            (Position::LineEnd | Position::Name, _) if is_header_name_token(byte) => Position::Name,
            (Position::Name, b':') => Position::Value,
            (Position::Value, _) if is_header_value_token(byte) => Position::Value,
            _ => Position::Fault,
        }
    }

    /// The same with one more byte.
    fn after_byte(self, byte: u8) -> Position {
        match self {
            Position::Fault | Position::Over => Position::Over,
            Position::VersionEnd
            | Position::LineReturn
            | Position::LineEnd
            | Position::Name
            | Position::Value
            | Position::LastReturn => self.in_fields(byte),
            _ => self.in_request_line(byte),
        }
    }

    /// The same with more bytes, up to the end of the head or a fault, and whether a parse may find a new fault in them.
    pub(crate) fn after_bytes(self, bytes: &[u8]) -> (Position, bool) {
        let mut position = self;
        let mut doubtful = false;
        for byte in bytes {
            if let Position::Over = position {
                return (position, doubtful);
            }
            position = position.after_byte(*byte);
            doubtful = doubtful || position.may_be_fault();
        }
        (position, doubtful)
    }
}
