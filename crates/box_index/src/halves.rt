//! A list of entries in two halves along the curve.

ghost use Rattle.std.specs.Prelude.{◌≡◌, ◌+◌, ◌/◌, ◌<◌, ◌≤◌, ◌++◌, [], length, map, vec_len, vec_capacity};
ghost use Rattle.std.specs.List.Sorted.{IsPermutation};

use crate::block::CAPACITY;
use crate::curve::CurveKey;
use crate::entry::IndexEntry;
use crate::span::NOWHERE;

/// An entry with its key.
pub(crate) type Keyed = (CurveKey, IndexEntry);

/// What is overwritten.
pub(crate) const UNUSED: Keyed = (
    CurveKey::FIRST,
    IndexEntry {
        id: 0,
        span: NOWHERE,
    },
);

/// Writes the entries with their keys.
pub(crate) fn write_keyed(keyed: &mut [Keyed], entries: &[IndexEntry])
    requires { length keyed.old ≡ length entries.now }
    ensures { map (λ k. k.1) keyed.new ≡ entries.now }
{
    for at in 0..entries.len() {
        keyed[at] = (CurveKey::of(&entries[at]), entries[at]);
    }
}

/// Appends the entries without their keys.
pub(crate) fn append(entries: &mut Vec<IndexEntry>, keyed: &[Keyed])
    requires { vec_len entries.old + length keyed.now ≤ vec_capacity entries.old }
    ensures items { entries.new.items ≡ entries.old.items ++ map (λ k. k.1) keyed.now }
    ensures len { vec_len entries.new ≡ vec_len entries.old + length keyed.now }
    ensures capacity { vec_capacity entries.old ≤ vec_capacity entries.new }
{
    for entry in keyed {
        entries.push(entry.1).unwrap();
    }
}

/// Appends the half of the entries that comes first on the curve to one empty list and the other half to another one. It returns the
/// first key of the latter. It takes no memory.
fn write_halves(
    lower: &mut Vec<IndexEntry>,
    upper: &mut Vec<IndexEntry>,
    keyed: &mut [Keyed],
) -> CurveKey
    requires some { 0 < length keyed.old }
    requires empty { (lower.old.items ≡ []) × (upper.old.items ≡ []) }
    requires room { (length keyed.old ≤ vec_capacity lower.old) × (length keyed.old ≤ vec_capacity upper.old) }
    ensures entries { IsPermutation (map (λ k. k.1) keyed.old) (lower.new.items ++ upper.new.items) }
    ensures lower_half { vec_len lower.new ≡ length keyed.old / 2 }
    ensures both { vec_len lower.new + vec_len upper.new ≡ length keyed.old }
    ensures capacity { (vec_capacity lower.old ≤ vec_capacity lower.new) × (vec_capacity upper.old ≤ vec_capacity upper.new) }
{
    let half = keyed.len() / 2;
    let (front, middle, back) = keyed.select_nth_unstable_by_key(half, |entry| entry.0);
    append(lower, front);
    upper.push(middle.1).unwrap();
    append(upper, back);
    middle.0
}

/// Moves the half of the entries that comes last on the curve to an empty list, and returns the first key of that half, or
/// `CurveKey::FIRST` if there is no entry. It computes each key once, and takes no memory.
pub(crate) fn move_upper_half(
    entries: &mut Vec<IndexEntry>,
    upper: &mut Vec<IndexEntry>,
) -> CurveKey
    requires few { vec_len entries.old ≤ CAPACITY }
    requires empty { upper.old.items ≡ [] }
    requires room { CAPACITY ≤ vec_capacity upper.old }
    ensures entries { IsPermutation entries.old.items (entries.new.items ++ upper.new.items) }
    ensures lower_half { vec_len entries.new < CAPACITY }
    ensures upper_half { vec_len upper.new < CAPACITY }
    ensures capacity { vec_capacity entries.old ≤ vec_capacity entries.new }
    ensures upper_capacity { vec_capacity upper.old ≤ vec_capacity upper.new }
{
    if entries.is_empty() {
        return CurveKey::FIRST;
    }
    let mut keyed = [UNUSED; CAPACITY];
    let keyed = &mut keyed[..entries.len()];
    write_keyed(keyed, entries);
    entries.clear();
    write_halves(entries, upper, keyed)
}
