//! Edits at the start of bytes.

ghost use Rattle.std.specs.Prelude.{◌≡◌, ℕ, [], map};
ghost use Rattle.feature_model.specs.Data.{change_data, edit_data};
ghost use Rattle.edit_text.specs.Decoding.{BeginsAsEdit};
ghost use Rattle.reader.specs.Reading.{Reads, Finds, Gives};
ghost use Rattle.edit_text.specs.Reading.{many_at, change_at, change_count_at, edit_at};

use crate::checking::check_next;
use crate::fault::TextFault;
use crate::fields::read_byte;
use crate::owned::to_change;
use feature_model::{Change, Edit, change_count_fits};
use std::alloc::Global;

/// The change after these. Memory is allocated once its whole text is known to be there.
fn read_change<'a>(
    alloc: Global,
    changes: &[Change],
    bytes: &'a [u8],
) -> Result<(Change, &'a [u8]), TextFault>
    ensures { Finds TextFault.Memory (λ r. (change_data r.0, r.1.now)) result (change_at (map change_data changes.now) bytes.entry.now) }
{
    let rest = check_next(changes, bytes)?;
    let change = to_change(alloc, bytes)?;
    Ok((change, rest))
}

/// `count` changes, each of a number of its own.
fn read_each_change(
    alloc: Global,
    count: u8,
    bytes: &[u8],
) -> Result<(Vec<Change>, &[u8]), TextFault>
    ensures { Gives TextFault.Memory (λ r. (map change_data r.0.items, r.1.now)) result (many_at change_at count [] bytes.now) }
{
    let mut changes = Vec::new(alloc);
    let mut rest = bytes;
    for _ in 0..count {
        let (change, behind) = read_change(alloc, &changes, rest)?;
        changes.push(change)?;
        rest = behind;
    }
    Ok((changes, rest))
}

/// How many changes there are: one, and at most `MAX_CHANGES`.
fn read_change_count(bytes: &[u8]) -> Result<(u8, &[u8]), TextFault>
    ensures { Reads (λ r. (r.0, r.1.now)) result (change_count_at bytes.now) }
{
    let (count, rest) = read_byte(bytes)?;
    if !change_count_fits(usize::from(count)) {
        return Err(TextFault::Bad);
    }
    Ok((count, rest))
}

/// The count of changes, and each one.
#[tactic(auto, unfolding(crate::specs::Reading::edit_at))]
pub(crate) fn read_edit(alloc: Global, bytes: &[u8]) -> Result<(Edit, &[u8]), TextFault>
    ensures edit { Gives TextFault.Memory (λ r. (edit_data r.0, r.1.now)) result (edit_at bytes.now) }
    ensures memory { result ≡ Err TextFault.Memory → BeginsAsEdit bytes.now }
{
    let (count, rest) = read_change_count(bytes)?;
    let (changes, rest) = read_each_change(alloc, count, rest)?;
    Ok((Edit { changes }, rest))
}
