//! A record of the journal.

/// A record of the journal, as it is read.
#[derive(Drop)]
pub struct Record {
    /// The version of its form, from `FIRST_RECORD_VERSION` to `LAST_RECORD_VERSION`.
    pub version: u32,
    /// The edit's text in this form.
    pub text: Vec<u8>,
}
