//! Entries sorted along the curve, in blocks.

ghost use Rattle.std.specs.Prelude.{◌≡◌, map, IfOk};
ghost use Rattle.std.specs.List.Sorted.{IsPermutation};
ghost use Rattle.box_index.specs.Blocks.{joined};

use crate::block::{CAPACITY, IndexBlock};
use crate::curve::CurveKey;
use crate::entry::IndexEntry;
use crate::halves::{Keyed, UNUSED, write_keyed};
use std::alloc::{AllocError, Global};

/// How many entries a block has at first. There is room for more, so that a few later ones don't halve it.
const FILLED: usize = CAPACITY / 4 * 3;

/// The entries with their keys, in the order of these. It computes each key once. The only error: an allocation fails.
pub(crate) fn sort(alloc: Global, entries: Vec<IndexEntry>) -> Result<Vec<Keyed>, AllocError>
    ensures { IfOk result (λ v. IsPermutation entries.items (map (λ k. k.1) v.items)) }
{
    let mut keyed = vec![in alloc; UNUSED; entries.len()]?;
    write_keyed(&mut keyed, &entries);
    keyed.sort_unstable_by_key(|entry| entry.0);
    Ok(keyed)
}

/// Where the next block starts: the first one before all entries, and each other one at its first.
fn start_of(blocks: &[IndexBlock], part: &[Keyed]) -> CurveKey {
    if blocks.is_empty() || part.is_empty() {
        return CurveKey::FIRST;
    }
    part[0].0
}

/// Sorted entries in blocks, in their order. The only error: an allocation fails.
pub(crate) fn fill(alloc: Global, keyed: &[Keyed]) -> Result<Vec<IndexBlock>, AllocError>
    ensures { IfOk result (λ v. joined v.items ≡ map (λ k. k.1) keyed.now) }
{
    let mut blocks = Vec::with_capacity(alloc, keyed.len().div_ceil(FILLED))?;
    let mut rest = keyed;
    while rest.len() > 0 {
        let (part, behind) = rest.split_at(FILLED.min(rest.len()));
        let start = start_of(&blocks, part);
        blocks.push(IndexBlock::filled(alloc, start, part)?)?;
        rest = behind;
    }
    Ok(blocks)
}
