//! The counts of a sound archive.

ghost use Rattle.std.specs.Prelude.{Some};
ghost use Rattle.pm_verify.specs.Shown.{report_text};

use std::fmt;

/// The counts of a sound archive.
#[derive(Clone, Copy, Debug, PartialEq, Eq)]
pub struct Report {
    /// The number of tile ids that have a content.
    pub tiles: u64,
    /// The number of tile entries.
    pub entries: u64,
    /// The number of different contents, by their offset and length in the file.
    pub contents: u64,
}

impl fmt::Display for Report {
    ghost output = { λ report. Some (report_text report) };

    fn fmt<W: fmt::Write>(&self, f: &mut fmt::Formatter<W>) -> fmt::Result {
        let Report {
            tiles,
            entries,
            contents,
        } = self;
        write!(f, "{tiles} tiles, {entries} entries, {contents} contents")
    }
}
