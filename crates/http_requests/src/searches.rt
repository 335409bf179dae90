//! The search for a request in bytes that arrive in pieces.
ghost use Rattle.std.specs.Prelude.{◌≡◌, ◌≤◌, length, take, IfSome};
ghost use Rattle.http_requests.specs.declared.lines.Lines.TheVariants.{Blank};
ghost use Rattle.http_requests.specs.Frame.{IsNext, IsMissing};
ghost use Rattle.http_requests.specs.Lines.{after_bytes};
ghost use Rattle.http_requests.specs.Search.{IsKnown};

use crate::frames::{FieldSpans, MAX_HEAD, Missing, Next, find_request};
use crate::lines::Lines;
use crate::positions::Position;
use crate::refusals::NO_HEAD;

/// What is known about the waiting bytes, so that they aren't scanned again for each piece.
#[derive(Clone, Copy)]
pub enum Search {
    /// Progress of the first `scanned` bytes to the empty line that ends a head, and where in the head they end.
    Head {
        scanned: usize,
        lines: Lines,
        position: Position,
    },
    /// Below a length, no request is complete.
    Until(Missing),
}

/// Nothing is known.
pub const START: Search = Search::Head {
    scanned: 0,
    lines: Lines::Blank,
    position: Position::Front,
};

/// Continues the scan of a head after `scanned` bytes.
fn scan_head(
    bytes: &[u8],
    scanned: usize,
    lines: Lines,
    position: Position,
    search: &mut Search,
) -> Option<Missing>
    requires within { scanned ≤ length bytes.now }
    requires lines { after_bytes Blank (take scanned bytes.now) ≡ lines }
    ensures missing { IfSome result (λ missing. IsMissing bytes.now missing.rejection missing.until) }
    ensures known { IsKnown bytes.now search.new }
{
    let lines = lines.after_bytes(&bytes[scanned..]);
    let (position, doubtful) = position.after_bytes(&bytes[scanned..]);
    let scanned = bytes.len();
    *search = Search::Head {
        scanned,
        lines,
        position,
    };
    if lines.has_empty() {
        return None;
    }
    if doubtful || scanned >= MAX_HEAD {
        return None;
    }
    Some(Missing {
        rejection: NO_HEAD,
        until: scanned + 1,
    })
}

/// What is missing, if that is known without a parse. A head is parsed once an empty line follows a line, once a byte
/// may be its fault, or once it has the maximum length; a body once it is complete.
fn known_missing(bytes: &[u8], search: &mut Search) -> Option<Missing>
    requires { IsKnown bytes.now search.old }
    ensures missing { IfSome result (λ missing. IsMissing bytes.now missing.rejection missing.until) }
    ensures known { IsKnown bytes.now search.new }
{
    match *search {
        Search::Until(missing) if bytes.len() < missing.until => Some(missing),
        Search::Until(_) => None,
        Search::Head {
            scanned,
            lines,
            position,
        } => scan_head(bytes, scanned, lines, position, search),
    }
}

/// Parses what bytes begin with.
fn parse_now(bytes: &[u8], fields: &mut FieldSpans, search: &mut Search) -> Next
    requires { IsKnown bytes.now search.old }
    ensures next { IsNext bytes.now fields.new result }
    ensures known { IsKnown bytes.now search.new }
{
    let next = find_request(bytes, fields);
    if let Next::More(missing) = next {
        if missing.until - bytes.len() > 1 {
            *search = Search::Until(missing);
        }
    }
    next
}

/// Parses what bytes begin with, of which nothing is known: most heads arrive whole. What has to wait for more is scanned, so that the
/// next piece continues there.
fn parse_first(bytes: &[u8], fields: &mut FieldSpans, search: &mut Search) -> Next
    requires { IsKnown bytes.now search.old }
    ensures next { IsNext bytes.now fields.new result }
    ensures known { IsKnown bytes.now search.new }
{
    let next = parse_now(bytes, fields, search);
    if let Next::More(_) = next {
        if is_fresh(search) {
            scan_head(bytes, 0, Lines::Blank, Position::Front, search);
        }
    }
    next
}

/// Whether nothing was scanned.
fn is_fresh(search: &Search) -> bool {
    matches!(search, Search::Head { scanned: 0, .. })
}

/// What bytes begin with. If it is a request, its header fields are at the first `fields`. Each byte of a head is visited a fixed number of
/// times, whatever the pieces: `search` is what a call over the first of them left, or `START`.
pub fn find_next(bytes: &[u8], fields: &mut FieldSpans, search: &mut Search) -> Next
    requires { IsKnown bytes.now search.old }
    ensures next { IsNext bytes.now fields.new result }
    ensures known { IsKnown bytes.now search.new }
{
    if is_fresh(search) {
        return parse_first(bytes, fields, search);
    }
    match known_missing(bytes, search) {
        Some(missing) => Next::More(missing),
        None => parse_now(bytes, fields, search),
    }
}
