//! What a tile shows of lines.

ghost use Rattle.std.specs.Prelude.{◌≡◌, ◌≤◌, ◌++◌, [], false, All, IfOk, OnOk};
ghost use Rattle.feature_model.specs.Limits.{CountFits};
ghost use Rattle.edit_text.specs.Views.{points_view, lines_view};
ghost use Rattle.geometry_commands.specs.Encodable.{CanSpellLines};
ghost use Rattle.geometry_commands.specs.Packed.{Adds};
ghost use Rattle.geometry_commands.specs.Shapes as shapes;
ghost use Rattle.tile_cutter.specs.Cut.{line_cut, lines_cut, unless_empty};
ghost use Rattle.tile_cutter.specs.Passes.{other_than, chain_after, chain_of, ended_by};
ghost use Rattle.tile_cutter.specs.Put.{IsClear, HasPut};
ghost use Rattle.tile_cutter.specs.Range.{IsDrawable, IsOfTile};

use crate::bounds::{points_meet_box, segment_meets_box};
use crate::coordinates::{position, repeats};
use edit_text::{Lines, Points};
use feature_model::MAX_ZOOM;
use geometry_commands::{PackedShape, Pt, ShapeKind};
use hilbert_id::TileAt;
use std::alloc::AllocError;

/// The point before, where it is another one.
fn other_than(before: Option<Pt>, here: Pt) -> Option<Pt>
    ensures { result ≡ other_than before here }
{
    if repeats(before, here) { None } else { before }
}

/// Appends a chain, where there is one, and makes it empty.
fn end_chain(out: &mut PackedShape, chain: &mut Vec<Pt>) -> Result<(), AllocError>
    requires { CanSpellLines false out.old.at (chain_of chain.old.items) }
    ensures chain { OnOk result (chain.new.items ≡ []) }
    ensures put { OnOk result (Adds false out.old out.new (chain_of chain.old.items)) }
{
    if !chain.is_empty() {
        out.put_line(false, chain)?;
        chain.clear();
    }
    Ok(())
}

/// Goes on along a line: a segment that is kept makes the open chain longer, another one ends it.
fn go_on(out: &mut PackedShape, chain: &mut Vec<Pt>, from: Pt, to: Pt) -> Result<(), AllocError>
    requires { CanSpellLines false out.old.at (chain_of chain.old.items) }
    ensures chain { OnOk result (chain.new.items ≡ chain_after chain.old.items (from, to)) }
    ensures ended { OnOk result (Adds false out.old out.new (ended_by chain.old.items (from, to))) }
{
    if !segment_meets_box(from, to) {
        return end_chain(out, chain);
    }
    if chain.is_empty() {
        chain.push(from)?;
    }
    chain.push(to)?;
    Ok(())
}

/// Appends what a tile shows of a line. `chain` is overwritten.
fn put_line(
    out: &mut PackedShape,
    chain: &mut Vec<Pt>,
    line: Points<'_>,
    at: TileAt,
) -> Result<(), AllocError>
    requires zoom { at.z ≤ MAX_ZOOM }
    requires limits { CountFits 2 (points_view line) }
    requires cursor { IsOfTile at.x at.y out.old.at }
    ensures chains { OnOk result (Adds false out.old out.new (line_cut at.z at.x at.y (points_view line.entry))) }
    ensures drawable { OnOk result (All (IsDrawable false at.x at.y) (line_cut at.z at.x at.y (points_view line.entry))) }
{
    if !points_meet_box(line, at) {
        return Ok(());
    }
    chain.clear();
    let mut before = None;
    for point in line {
        let here = position(point, at);
        if let Some(last) = other_than(before, here) {
            go_on(out, chain, last, here)?;
        }
        before = Some(here);
    }
    end_chain(out, chain)?;
    Ok(())
}

/// Appends what a tile shows of lines. `chain` is overwritten.
fn put_all(
    out: &mut PackedShape,
    chain: &mut Vec<Pt>,
    lines: Lines<'_>,
    at: TileAt,
) -> Result<(), AllocError>
    requires zoom { at.z ≤ MAX_ZOOM }
    requires limits { All (CountFits 2) (lines_view lines) }
    requires cursor { IsOfTile at.x at.y out.old.at }
    ensures chains { OnOk result (Adds false out.old out.new (lines_cut at.z at.x at.y (lines_view lines.entry))) }
    ensures drawable { OnOk result (All (IsDrawable false at.x at.y) (lines_cut at.z at.x at.y (lines_view lines.entry))) }
{
    for line in lines {
        put_line(out, chain, line, at)?;
    }
    Ok(())
}

/// Writes what a tile shows of lines. `chain` is overwritten.
pub(crate) fn put_lines(
    out: &mut PackedShape,
    chain: &mut Vec<Pt>,
    lines: Lines<'_>,
    at: TileAt,
) -> Result<Option<ShapeKind>, AllocError>
    requires zoom { at.z ≤ MAX_ZOOM }
    requires limits { All (CountFits 2) (lines_view lines) }
    requires clear { IsClear out.old }
    ensures { IfOk result (λ o. HasPut out.new o (unless_empty shapes.lines (lines_cut at.z at.x at.y (lines_view lines.entry)))) }
{
    put_all(out, chain, lines, at)?;
    if out.bytes.is_empty() {
        return Ok(None);
    }
    Ok(Some(ShapeKind::Lines))
}
