//! Where the text of a change ends, found without any memory.

ghost use Rattle.std.specs.Prelude.{◌≡◌, ◌≢◌, ◌↔◌, ℕ, length, map, IfOk};
ghost use Rattle.feature_model.specs.Data.{ChangeData, change_data};
ghost use Rattle.feature_model.specs.Spelled.{spelled_change};
ghost use Rattle.reader.specs.Reading.{Reads};
ghost use Rattle.edit_text.specs.Checking.{Checks};
ghost use Rattle.edit_text.specs.Decoding.{BeginsWithChange, IsCutChange};
ghost use Rattle.edit_text.specs.Reading.{zooms_at, feature_at, is_new, next_number_at, put_at, change_behind, change_at, decode_change_at};

use crate::checked_shapes::check_geometry;
use crate::checked_tags::check_tags;
use crate::fault::TextFault;
use crate::fields::{read_byte, read_name, read_number};
use feature_model::{Change, DELETE_KIND, MAX_EDIT_BYTES, MAX_ZOOM, PUT_KIND, is_new, zooms_fit};

/// The most bytes of the text of a change.
pub(crate) const MAX_CHANGE_BYTES: usize = MAX_EDIT_BYTES as usize;

/// The first and the last zoom.
#[tactic(auto, unfolding(crate::specs::Reading::zooms_at))]
fn read_zooms(bytes: &[u8]) -> Result<((u8, u8), &[u8]), TextFault>
    ensures { Reads (λ r. (r.0, r.1.now)) result (zooms_at bytes.now) }
{
    let (first, rest) = read_byte(bytes)?;
    if first > MAX_ZOOM {
        return Err(TextFault::Bad);
    }
    let (last, rest) = read_byte(rest)?;
    if !zooms_fit(first, last) {
        return Err(TextFault::Bad);
    }
    Ok(((first, last), rest))
}

/// The bytes after a feature.
#[tactic(auto, unfolding(crate::specs::Reading::feature_at))]
fn check_feature(bytes: &[u8]) -> Result<&[u8], TextFault>
    ensures { Checks (λ rest. rest.now) result (feature_at bytes.now) }
{
    let (_, rest) = read_name(bytes)?;
    let (_, rest) = read_zooms(rest)?;
    let rest = check_geometry(rest)?;
    check_tags(rest)
}

/// Whether a change of this number may follow these.
fn is_next(changes: &[Change], number: u64) -> bool
    ensures { result ≡ is_new (map change_data changes.now) number }
{
    is_new(changes, number)
}

/// The number of the change after these.
#[tactic(auto, unfolding(crate::specs::Reading::next_number_at))]
fn read_next_number<'a>(changes: &[Change], bytes: &'a [u8]) -> Result<(u64, &'a [u8]), TextFault>
    ensures { Reads (λ r. (r.0, r.1.now)) result (next_number_at (map change_data changes.now) bytes.entry.now) }
{
    let (number, rest) = read_number(bytes)?;
    if !is_next(changes, number) {
        return Err(TextFault::Bad);
    }
    Ok((number, rest))
}

/// The bytes after a change that gives a number a feature, without its kind.
#[tactic(auto, unfolding(crate::specs::Reading::put_at))]
fn check_put<'a>(changes: &[Change], bytes: &'a [u8]) -> Result<&'a [u8], TextFault>
    ensures { Checks (λ rest. rest.now) result (put_at (map change_data changes.now) bytes.entry.now) }
{
    let (_, rest) = read_next_number(changes, bytes)?;
    check_feature(rest)
}

/// The bytes after a change of this kind.
#[tactic(auto, unfolding(crate::specs::Reading::change_behind))]
fn check_change_of<'a>(kind: u8, changes: &[Change], bytes: &'a [u8]) -> Result<&'a [u8], TextFault>
    ensures { Checks (λ rest. rest.now) result (change_behind (map change_data changes.now) kind bytes.entry.now) }
{
    match kind {
        PUT_KIND => check_put(changes, bytes),
        DELETE_KIND => Ok(read_next_number(changes, bytes)?.1),
        _ => Err(TextFault::Bad),
    }
}

/// The bytes after the change at the start, which comes after these.
#[tactic(auto, unfolding(crate::specs::Reading::change_at))]
pub(crate) fn check_next<'a>(changes: &[Change], bytes: &'a [u8]) -> Result<&'a [u8], TextFault>
    ensures { Checks (λ rest. rest.now) result (change_at (map change_data changes.now) bytes.entry.now) }
{
    let (kind, rest) = read_byte(bytes)?;
    check_change_of(kind, changes, rest)
}

/// The bytes after the change at the start, up to the length of the longest text of a change.
#[tactic(auto, unfolding(crate::specs::Reading::decode_change_at))]
fn check_short_change(bytes: &[u8]) -> Result<&[u8], TextFault>
    ensures { Checks (λ rest. rest.now) result (decode_change_at bytes.now) }
{
    if bytes.len() < MAX_CHANGE_BYTES {
        return check_next(&[], bytes);
    }
    match check_next(&[], &bytes[..MAX_CHANGE_BYTES]) {
        Ok(rest) => Ok(rest),
        Err(TextFault::Cut | TextFault::Bad) => Err(TextFault::Bad),
        Err(TextFault::Memory) => Err(TextFault::Memory),
    }
}

/// The length of the text of the change at the start, in bytes. Bytes may follow it. It allocates nothing.
pub fn check_change(bytes: &[u8]) -> Result<usize, TextFault>
    // The answer is that of `decode_change` with memory enough.
    ensures found { IfOk result (λ len. (c : ChangeData) × BeginsWithChange c bytes.now × (len ≡ length (spelled_change c))) }
    ensures only { (c : ChangeData) → BeginsWithChange c bytes.now → result ≡ Ok (length (spelled_change c)) }
    ensures cut { (result ≡ Err TextFault.Cut) ↔ IsCutChange bytes.now }
    ensures memory { result ≢ Err TextFault.Memory }
    ensures bad { result ≡ Err TextFault.Bad → ¬ IsCutChange bytes.now × ((c : ChangeData) → ¬ BeginsWithChange c bytes.now) }
{
    let rest = check_short_change(bytes)?;
    Ok(bytes.len().min(MAX_CHANGE_BYTES) - rest.len())
}
