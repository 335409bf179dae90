//! Runs of neighbouring blocks: a query skips a whole run where its span doesn't show.

ghost use Rattle.std.specs.Prelude.{◌≡◌, ℕ, ◌*◌, ◌/◌, ◌^◌, ◌<◌, ◌≤◌, ◌++◌, length, take, drop, slice_index_or, All, IfOk, OnOk, vec_len, vec_capacity};
ghost use Rattle.std.specs.Int.{div_ceil};
ghost use Rattle.box_index.specs.Blocks.{joined};
ghost use Rattle.box_index.specs.Covers.{Covers, CoversAll};
ghost use Rattle.box_index.specs.Runs.{AreCovered, AreCoveredTo};
ghost use Rattle.box_index.specs.Shown.{ids_shown};
ghost use Rattle.box_index.specs.declared.span.Span.{Span};

use crate::block::IndexBlock;
use crate::span::{NOWHERE, Span};
use feature_model::WorldBox;
use std::alloc::{AllocError, Global};

/// How many blocks a run has. The last one may have fewer.
pub(crate) const RUN: usize = 32;

/// The blocks of a run.
pub(crate) fn run_of(blocks: &[IndexBlock], run: usize) -> &[IndexBlock]
    requires { run * RUN ≤ length blocks.now }
    ensures { result.now ≡ take RUN (drop (run * RUN) blocks.now) }
{
    let rest = &blocks[run * RUN..];
    &rest[..RUN.min(rest.len())]
}

/// The least span that covers the entries of all blocks.
fn span_of_blocks(blocks: &[IndexBlock]) -> Span
    ensures { All (λ b. CoversAll result b) blocks.now }
{
    let mut span = NOWHERE;
    for block in blocks {
        span = span.widened(block.span());
    }
    span
}

/// Widens the span of a block's run.
pub(crate) fn widen(runs: &mut Vec<Span>, block: usize, span: Span)
    requires { block / RUN < vec_len runs.old }
    ensures span { (s : Span) → Covers (slice_index_or runs.new.items (block / RUN) s) span }
    ensures wider { (r : ℕ) (s : Span) → r < vec_len runs.old → Covers (slice_index_or runs.new.items r s) (slice_index_or runs.old.items r s) }
    ensures len { vec_len runs.new ≡ vec_len runs.old }
    ensures capacity { vec_capacity runs.new ≡ vec_capacity runs.old }
{
    let run = &mut runs[block / RUN];
    *run = run.widened(span);
}

/// Gives each run its span, where the blocks before this one are as they were when the runs had theirs.
pub(crate) fn cover_from(runs: &mut Vec<Span>, blocks: &[IndexBlock], block: usize)
    requires before { AreCoveredTo block runs.old.items blocks.now }
    requires room { div_ceil (length blocks.now) RUN ≤ vec_capacity runs.old }
    ensures covered { AreCovered runs.new.items blocks.now }
    ensures capacity { vec_capacity runs.old ≤ vec_capacity runs.new }
{
    let count = blocks.len().div_ceil(RUN);
    runs.truncate(count.min(block / RUN));
    for run in runs.len()..count {
        runs.push(span_of_blocks(run_of(blocks, run))).unwrap();
    }
}

/// Appends the ids of the entries that show to `found`. The only error: an allocation fails.
fn add_shown(
    blocks: &[IndexBlock],
    found: &mut Vec<u64>,
    bounds: &WorldBox,
    zoom: u8,
) -> Result<(), AllocError>
    ensures { OnOk result (found.new.items ≡ found.old.items ++ ids_shown bounds.now zoom (joined blocks.now)) }
{
    for block in blocks {
        block.add_shown(found, bounds, zoom)?;
    }
    Ok(())
}

/// The ids of the entries that show. The only error: an allocation fails.
pub(crate) fn gather(
    alloc: Global,
    blocks: &[IndexBlock],
    runs: &[Span],
    bounds: &WorldBox,
    zoom: u8,
) -> Result<Vec<u64>, AllocError>
    requires { AreCovered runs.now blocks.now }
    ensures { IfOk result (λ v. v.items ≡ ids_shown bounds.now zoom (joined blocks.now)) }
{
    let mut found = Vec::new(alloc);
    for (run, span) in runs.iter().enumerate() {
        if span.shows(bounds, zoom) {
            add_shown(run_of(blocks, run), &mut found, bounds, zoom)?;
        }
    }
    Ok(found)
}

/// How many entries the blocks have whose span shows, or `usize::MAX` if they are more.
fn reach_of_blocks(blocks: &[IndexBlock], bounds: &WorldBox, zoom: u8) -> usize
    ensures least { length (ids_shown bounds.now zoom (joined blocks.now)) < 2 ^ 64 → length (ids_shown bounds.now zoom (joined blocks.now)) ≤ result }
    ensures most { result ≤ length (joined blocks.now) }
{
    let mut count: usize = 0;
    for block in blocks {
        count = count.saturating_add(block.reach(bounds, zoom));
    }
    count
}

/// How many entries the blocks have whose run and own span show, or `usize::MAX` if they are more. It looks at no entry.
pub(crate) fn reach(blocks: &[IndexBlock], runs: &[Span], bounds: &WorldBox, zoom: u8) -> usize
    requires { AreCovered runs.now blocks.now }
    ensures least { length (ids_shown bounds.now zoom (joined blocks.now)) < 2 ^ 64 → length (ids_shown bounds.now zoom (joined blocks.now)) ≤ result }
    ensures most { result ≤ length (joined blocks.now) }
{
    let mut count: usize = 0;
    for (run, span) in runs.iter().enumerate() {
        if span.shows(bounds, zoom) {
            let here = reach_of_blocks(run_of(blocks, run), bounds, zoom);
            count = count.saturating_add(here);
        }
    }
    count
}
