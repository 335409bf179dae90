//! Which entries meet a box of the world, whatever their zooms.

ghost use Rattle.std.specs.Prelude.{◌≡◌, ◌<◌, ◌≤◌, ◌++◌, length, All, IfOk, IfSome, None, Ok, OnOk};
ghost use Rattle.box_index.specs.Blocks.{joined};
ghost use Rattle.box_index.specs.Covers.{CoversAll};
ghost use Rattle.box_index.specs.Met.{AreAdded, ids_met, is_met};
ghost use Rattle.box_index.specs.Runs.{AreCovered};
ghost use Rattle.box_index.specs.Shown.{meets};

use crate::block::IndexBlock;
use crate::entry::IndexEntry;
use crate::runs::run_of;
use crate::span::Span;
use feature_model::WorldBox;
use std::alloc::{AllocError, Global};

/// Whether two boxes have a point in common.
pub fn boxes_meet(one: &WorldBox, other: &WorldBox) -> bool
    ensures { result ≡ meets one.now other.now }
{
    one.x0 <= other.x1 && other.x0 <= one.x1 && one.y0 <= other.y1 && other.y0 <= one.y1
}

/// Whether an entry has the id `from` or a greater one, and its box meets this one.
fn is_met(entry: &IndexEntry, bounds: &WorldBox, from: u64) -> bool
    ensures { result ≡ is_met bounds.now from entry.now }
{
    from <= entry.id && boxes_meet(&entry.span.bounds, bounds)
}

/// Appends the ids from `from` on of the entries whose box meets this one.
fn add_entries(
    entries: &[IndexEntry],
    found: &mut Vec<u64>,
    bounds: &WorldBox,
    from: u64,
) -> Result<(), AllocError>
    ensures { OnOk result (found.new.items ≡ found.old.items ++ ids_met bounds.now from entries.now) }
{
    for entry in entries {
        if is_met(entry, bounds, from) {
            found.push(entry.id)?;
        }
    }
    Ok(())
}

/// Appends those of a block. It is `None` if the block may have such entries, and has more than `left`; else it is how many are left.
fn add_block(
    block: &IndexBlock,
    found: &mut Vec<u64>,
    bounds: &WorldBox,
    from: u64,
    left: usize,
) -> Result<Option<usize>, AllocError>
    ensures { IfOk result (AreAdded bounds.now from block.now left found.old.items found.new.items) }
{
    if !boxes_meet(&block.span().bounds, bounds) {
        return Ok(Some(left));
    }
    if block.len() > left {
        return Ok(None);
    }
    add_entries(block.entries(), found, bounds, from)?;
    Ok(Some(left - block.len()))
}

/// The same of blocks.
fn add_blocks(
    blocks: &[IndexBlock],
    found: &mut Vec<u64>,
    bounds: &WorldBox,
    from: u64,
    left: usize,
) -> Result<Option<usize>, AllocError>
    ensures { IfOk result (AreAdded bounds.now from (joined blocks.now) left found.old.items found.new.items) }
{
    let mut rest = left;
    for block in blocks {
        match add_block(block, found, bounds, from, rest)? {
            Some(fewer) => rest = fewer,
            None => return Ok(None),
        }
    }
    Ok(Some(rest))
}

/// The same of a run's blocks, which its span covers.
fn add_run(
    blocks: &[IndexBlock],
    span: &Span,
    found: &mut Vec<u64>,
    bounds: &WorldBox,
    from: u64,
    left: usize,
) -> Result<Option<usize>, AllocError>
    requires { All (CoversAll span.now) blocks.now }
    ensures { IfOk result (AreAdded bounds.now from (joined blocks.now) left found.old.items found.new.items) }
{
    if !boxes_meet(&span.bounds, bounds) {
        return Ok(Some(left));
    }
    add_blocks(blocks, found, bounds, from, left)
}

/// The same of blocks in runs.
fn add_runs(
    blocks: &[IndexBlock],
    runs: &[Span],
    found: &mut Vec<u64>,
    bounds: &WorldBox,
    from: u64,
    left: usize,
) -> Result<Option<usize>, AllocError>
    requires { AreCovered runs.now blocks.now }
    ensures { IfOk result (AreAdded bounds.now from (joined blocks.now) left found.old.items found.new.items) }
{
    let mut rest = left;
    for (run, span) in runs.iter().enumerate() {
        match add_run(run_of(blocks, run), span, found, bounds, from, rest)? {
            Some(fewer) => rest = fewer,
            None => return Ok(None),
        }
    }
    Ok(Some(rest))
}

/// The ids from `from` on of the entries whose box meets this one, or `None` if more than `most` entries may be such. The only error: an
/// allocation fails.
pub(crate) fn gather_met(
    alloc: Global,
    blocks: &[IndexBlock],
    runs: &[Span],
    bounds: &WorldBox,
    from: u64,
    most: usize,
) -> Result<Option<Vec<u64>>, AllocError>
    requires { AreCovered runs.now blocks.now }
    ensures ids { IfOk result (λ o. IfSome o (λ v. v.items ≡ ids_met bounds.now from (joined blocks.now))) }
    ensures few { IfOk result (λ o. IfSome o (λ v. length v.items ≤ most)) }
    ensures many { result ≡ Ok None → most < length (joined blocks.now) }
{
    let mut found = Vec::new(alloc);
    match add_runs(blocks, runs, &mut found, bounds, from, most)? {
        Some(_) => Ok(Some(found)),
        None => Ok(None),
    }
}
