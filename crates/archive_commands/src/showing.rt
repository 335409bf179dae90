//! Prints the header and the metadata of an archive.

ghost use Rattle.std.specs.Prelude.{◌≡◌, ◌≢◌, ℕ, ◌≤◌, ◌<◌, ◌↔◌, List, ◌++◌, length, take, OnOk, IfOk, IfErr, MatchOption, Option, Some, slice_index};
ghost use Rattle.std.specs.Io.KnownBytes.{Appends};
ghost use Rattle.pm_header.specs.Layout.{IsHeader};
ghost use Rattle.pm_archive.specs.Sections.{end_of, section_bytes};
ghost use Rattle.archive_commands.specs.Shown.{HeaderHas, HasText, IfWrite, IsMetadataLine, IsShown, fault_name, header_lines, metadata_line};
ghost use Rattle.whole_write.specs.Writes.{AppendsPart, WritesWhole};

use crate::putting::{Piece, put_pieces};
use pm_header::{Header, HeaderFault, SectionSpan};
use std::io::Write;
use std::{fmt, io, str};

/// Why an archive can't be shown.
#[derive(Debug, Drop)]
pub enum ShowFault {
    /// The bytes don't begin with a header.
    Header(HeaderFault),
    /// The text couldn't be written.
    Write(io::Error),
}

impl fmt::Display for ShowFault {
    ghost output = { λ fault. Some (fault_name fault) };

    fn fmt<W: fmt::Write>(&self, f: &mut fmt::Formatter<W>) -> fmt::Result {
        f.write_str(match self {
            ShowFault::Header(HeaderFault::Short) => "Short",
            ShowFault::Header(HeaderFault::Magic) => "Magic",
            ShowFault::Header(HeaderFault::Version(_)) => "Version",
            ShowFault::Write(_) => "Write",
        })
    }
}

impl std::error::Error for ShowFault {}

/// The bytes of a section, or `None` if it isn't inside the file.
fn section(archive: &[u8], part: SectionSpan) -> Option<&[u8]>
    ensures { MatchOption result (length archive.now < end_of part)
        (λ bytes. (end_of part ≤ length archive.now) × (bytes.now ≡ section_bytes part archive.now)) }
{
    let end = part.offset.checked_add(part.length)?;
    if end > archive.len() as u64 {
        return None;
    }
    Some(&archive[part.offset as usize..end as usize])
}

/// The metadata as text, or `None` if it isn't inside the file or isn't UTF-8.
fn metadata_text<'a>(archive: &'a [u8], header: &Header) -> Option<&'a str>
    ensures { MatchOption result (¬ HasText archive.now header.now)
        (λ text. HasText archive.now header.now × (text.now ≡ section_bytes header.now.metadata archive.now)) }
{
    let bytes = section(archive, header.metadata)?;
    str::from_utf8(bytes).ok()
}

/// Writes the lines of a header.
#[tactic(auto, unfolding(crate::specs::Shown::header_lines))]
fn write_header<W: Write>(header: &Header, out: &mut W) -> io::Result<()>
    ensures { WritesWhole (W.contents out.old) (W.contents out.new) result (header_lines header.now) }
{
    let pieces = [
        Piece::Text("version: 3\ntile type: "),
        Piece::Number(u64::from(header.kind)),
        Piece::Text("\ntile compression: "),
        Piece::Number(u64::from(header.compression)),
        Piece::Text("\ninternal compression: "),
        Piece::Number(u64::from(header.internal)),
        Piece::Text("\nclustered: "),
        Piece::Number(u64::from(header.clustered)),
        Piece::Text("\nzooms: "),
        Piece::Number(u64::from(header.min_zoom)),
        Piece::Text(" to "),
        Piece::Number(u64::from(header.max_zoom)),
        Piece::Text("\naddressed tiles: "),
        Piece::Number(header.addressed),
        Piece::Text("\ntile entries: "),
        Piece::Number(header.entries),
        Piece::Text("\ntile contents: "),
        Piece::Number(header.contents),
        Piece::Text("\n"),
    ];
    put_pieces(out, &pieces)
}

/// The metadata, as `show` prints it.
#[derive(Clone, Copy)]
enum Metadata<'a> {
    /// Compressed, with this number of the header.
    Compressed(u8),
    /// Text inside the file.
    Text(&'a str),
    /// Outside of the file, or not UTF-8.
    Unreadable,
}

/// How the metadata is printed.
fn metadata_of<'a>(archive: &'a [u8], header: &Header) -> Metadata<'a>
    ensures { IsMetadataLine archive.now header.now (metadata_line result) }
{
    if !header.has_plain_directories() {
        return Metadata::Compressed(header.internal);
    }
    match metadata_text(archive, header) {
        Some(text) => Metadata::Text(text),
        None => Metadata::Unreadable,
    }
}

/// Writes the line of the metadata.
#[tactic(auto, unfolding(crate::specs::Shown::compressed_line, crate::specs::Shown::text_line, crate::specs::Shown::unreadable_line))]
fn write_metadata<W: Write>(metadata: Metadata<'_>, out: &mut W) -> io::Result<()>
    ensures { WritesWhole (W.contents out.old) (W.contents out.new) result (metadata_line metadata.entry) }
{
    match metadata {
        Metadata::Compressed(internal) => put_pieces(
            out,
            &[
                Piece::Text("metadata: compressed "),
                Piece::Number(u64::from(internal)),
                Piece::Text("\n"),
            ],
        ),
        Metadata::Text(text) => put_pieces(
            out,
            &[
                Piece::Text("metadata: "),
                Piece::Text(text),
                Piece::Text("\n"),
            ],
        ),
        Metadata::Unreadable => put_pieces(out, &[Piece::Text("metadata: unreadable\n")]),
    }
}

/// Writes the lines of a header and the line of the metadata.
fn write_shown<W: Write>(header: &Header, metadata: Metadata<'_>, out: &mut W) -> io::Result<()>
    ensures { WritesWhole (W.contents out.old) (W.contents out.new) result (header_lines header.now ++ metadata_line metadata.entry) }
{
    write_header(header, out)?;
    write_metadata(metadata, out)
}

/// Writes the header and the metadata of an archive as text.
///
/// # Errors
///
/// `Header` if the bytes don't begin with a header; nothing is written then. `Write` if the writer fails: a proper prefix of the
/// text was written then.
pub fn show<W: Write>(archive: &[u8], out: &mut W) -> Result<(), ShowFault>
    ensures shown { OnOk result ((text : List ℕ) × IsShown archive.now text × Appends (W.contents out.old) (W.contents out.new) text) }
    ensures header { (fault : HeaderFault) → (result ≡ Err (ShowFault.Header fault)) ↔ HeaderHas archive.now fault }
    ensures part { IfErr result (λ fault. IfWrite ((text : List ℕ) × IsShown archive.now text
        × AppendsPart (W.contents out.old) (W.contents out.new) text) fault) }
    ensures nothing { (fault : HeaderFault) → result ≡ Err (ShowFault.Header fault) → out.new ≡ out.old }
{
    let header = match Header::from_bytes(archive) {
        Ok(header) => header,
        Err(fault) => return Err(ShowFault::Header(fault)),
    };
    let metadata = metadata_of(archive, &header);
    match write_shown(&header, metadata, out) {
        Ok(()) => Ok(()),
        Err(error) => Err(ShowFault::Write(error)),
    }
}
