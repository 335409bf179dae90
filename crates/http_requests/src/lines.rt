//! The empty line that ends a head.
ghost use Rattle.std.specs.Prelude.{◌≡◌, ◌↔◌, IsTrue};
ghost use Rattle.http_requests.specs.Lines.{after_byte, after_bytes};

/// The progress of bytes towards an empty line after a line. Carriage returns between two line feeds are ignored.
#[derive(Clone, Copy)]
pub enum Lines {
    /// All bytes are line ends.
    Blank,
    /// They end inside a line.
    Inside,
    /// They end after the end of a line.
    Ended,
    /// An empty line follows a line.
    Empty,
}

impl Lines {
    /// The same with one more byte.
    fn after_byte(self, byte: u8) -> Lines
        ensures { result ≡ after_byte self byte }
    {
        match (self, byte) {
            (Lines::Empty, _) | (Lines::Ended, b'\n') => Lines::Empty,
            (Lines::Inside, b'\n') | (Lines::Ended, b'\r') => Lines::Ended,
            (Lines::Blank, b'\n' | b'\r') => Lines::Blank,
            _ => Lines::Inside,
        }
    }

    /// Whether an empty line follows a line.
    pub(crate) fn has_empty(self) -> bool
        ensures { IsTrue result ↔ (self ≡ Lines.Empty) }
    {
        matches!(self, Lines::Empty)
    }

    /// The same with more bytes. It looks no further than the empty line.
    pub(crate) fn after_bytes(self, bytes: &[u8]) -> Lines
        ensures { result ≡ after_bytes self bytes.now }
    {
        let mut lines = self;
        for byte in bytes {
            if let Lines::Empty = lines {
                return Lines::Empty;
            }
            lines = lines.after_byte(*byte);
        }
        lines
    }
}
