//! Where a section is stored.

/// The bytes of a section of an archive.
#[derive(Clone, Copy, Debug, PartialEq, Eq)]
pub struct SectionSpan {
    /// The offset of the first byte from the start of the archive.
    pub offset: u64,
    /// The length in bytes.
    pub length: u64,
}
