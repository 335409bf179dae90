//! Writes text piece by piece. If the writer fails, a proper prefix was written.

ghost use Rattle.std.specs.Prelude.{decimal};
ghost use Rattle.archive_commands.specs.Pieces.{piece_text, pieces_text};
ghost use Rattle.whole_write.specs.Writes.{WritesWhole};

use std::io::{self, Write};
use whole_write::write_whole;

/// A piece of a text.
#[derive(Clone, Copy)]
pub(crate) enum Piece<'a> {
    /// Text as it is.
    Text(&'a str),
    /// A number in decimal digits.
    Number(u64),
}

/// Writes a number in decimal digits.
fn put_number<W: Write>(out: &mut W, number: u64) -> io::Result<()>
    ensures { WritesWhole (W.contents out.old) (W.contents out.new) result (decimal number) }
{
    if number < 10 {
        return write_whole(out, &[b'0' + number as u8]);
    }
    put_number(out, number / 10)?;
    write_whole(out, &[b'0' + (number % 10) as u8])
}

/// Writes a piece.
fn put_piece<W: Write>(out: &mut W, piece: Piece<'_>) -> io::Result<()>
    ensures { WritesWhole (W.contents out.old) (W.contents out.new) result (piece_text piece.entry) }
{
    match piece {
        Piece::Text(text) => write_whole(out, text.as_bytes()),
        Piece::Number(number) => put_number(out, number),
    }
}

/// Writes the pieces one after the other.
pub(crate) fn put_pieces<W: Write>(out: &mut W, pieces: &[Piece<'_>]) -> io::Result<()>
    ensures { WritesWhole (W.contents out.old) (W.contents out.new) result (pieces_text pieces.now) }
{
    for piece in pieces {
        put_piece(out, *piece)?;
    }
    Ok(())
}
