//! The squares that are left of a walk.

ghost use Rattle.std.specs.Prelude.{◌≡◌, ◌+◌, ◌-◌, ◌*◌, ◌<◌, ◌≤◌, ◌^◌, ◌++◌, [], length, take, Ok, IfOk, IfSome, OnOk, OnErr, vec_len};
ghost use Rattle.tile_walk.specs.Boxes.{has, numbers_at};
ghost use Rattle.tile_walk.specs.Cut.{IsCut, IsCutOfLast};
ghost use Rattle.tile_walk.specs.Inside.{ahead_of, placed_of};
ghost use Rattle.tile_walk.specs.Quarters.{ArePlaced};
ghost use Rattle.tile_walk.specs.Squares.{tiles_of, tiles_in, left_of, weight, weights};
ghost use Rattle.tile_walk.specs.Walk.{IsFurther, before_step};
ghost use Rattle.tile_walk.specs.declared.square.Square.{Square};
ghost use Rattle.tile_walk.specs.declared.step.Step.TheVariants.{Over};

use crate::cut::Cut;
use crate::numbered::Numbered;
use crate::quarter::{Quarter, order_of};
use crate::square::Square;
use crate::step::{STEP_BOXES, Step};
use std::alloc::{AllocError, Global};
use tile_cutter::TileRange;

/// How many tiles a quarter of a square of this zoom has.
fn quarter_tiles(zoom: u8) -> u64
    requires { (0 < zoom) × (zoom ≤ 31) }
    ensures quarter { result ≡ 4 ^ (zoom - 1) }
    ensures whole { 4 * result ≡ 4 ^ zoom }
    ensures small { result ≤ 4 ^ 30 }
{
    1 << (2 * (zoom - 1))
}

/// Whether a range has the first column and the first row.
fn has_first(range: TileRange) -> bool
    ensures { result ≡ has range 0 0 }
{
    range.x0 == 0 && range.y0 == 0
}

/// The numbers of the boxes that have the first column and the first row. The only error is out of memory.
fn numbers_of(alloc: Global, boxes: &[Numbered]) -> Result<Vec<u64>, AllocError>
    ensures { IfOk result (λ v. v.items ≡ numbers_at boxes.now 0 0) }
{
    boxes
        .iter()
        .filter(|numbered| has_first(numbered.range))
        .map(|numbered| numbered.number)
        .collect(alloc)
}

/// A quarter of a square, by the boxes that have tiles there.
fn quarter_of(quarter: Quarter, square: &Square, boxes: Vec<Numbered>) -> Square
    requires some { 0 < square.now.zoom }
    requires placed { ArePlaced quarter (2 ^ (square.now.zoom - 1)) square.now.boxes.items boxes.items }
    ensures tiles { tiles_of result ≡ tiles_in quarter square.now }
    ensures zoom { result.zoom + 1 ≡ square.now.zoom }
{
    let tiles = quarter_tiles(square.zoom);
    Square {
        zoom: square.zoom - 1,
        first: square.first + order_of(quarter) * tiles,
        boxes,
    }
}

/// Appends a quarter of a square, unless it has no boxes. The only error is out of memory.
fn push_quarter(
    squares: &mut Vec<Square>,
    quarter: Quarter,
    square: &Square,
    boxes: Vec<Numbered>,
) -> Result<(), AllocError>
    requires some { 0 < square.now.zoom }
    requires placed { ArePlaced quarter (2 ^ (square.now.zoom - 1)) square.now.boxes.items boxes.items }
    ensures left { OnOk result (left_of squares.new.items ≡ tiles_in quarter square.now ++ left_of squares.old.items) }
    ensures weight { OnOk result (weights squares.new.items ≤ weights squares.old.items + weight (square.now.zoom - 1)) }
{
    let part = quarter_of(quarter, square, boxes);
    if !part.boxes.is_empty() {
        squares.push(part)?;
    }
    Ok(())
}

/// The quarters of a square that have boxes, the first one last, once all its boxes are placed. The only error is out of memory.
fn quarters_of(alloc: Global, square: &Square, cut: Cut) -> Result<Vec<Square>, AllocError>
    requires cut { IsCut square.now cut }
    requires all { cut.placed ≡ length square.now.boxes.items }
    ensures left { IfOk result (λ v. left_of v.items ≡ tiles_of square.now) }
    ensures weight { IfOk result (λ v. weights v.items < weight square.now.zoom) }
{
    let mut quarters = Vec::with_capacity(alloc, 4)?;
    push_quarter(&mut quarters, Quarter::Fourth, square, cut.fourth)?;
    push_quarter(&mut quarters, Quarter::Third, square, cut.third)?;
    push_quarter(&mut quarters, Quarter::Second, square, cut.second)?;
    push_quarter(&mut quarters, Quarter::First, square, cut.first)?;
    Ok(quarters)
}

/// Puts squares in the place of the last one. The list is as it was where memory is refused, which is the only error.
fn replace_last(squares: &mut Vec<Square>, mut others: Vec<Square>) -> Result<(), AllocError>
    requires { 0 < vec_len squares.old }
    ensures items { OnOk result (squares.new.items ≡ take (vec_len squares.old - 1) squares.old.items ++ others.items) }
    ensures unchanged { OnErr result (squares.new.items ≡ squares.old.items) }
{
    squares.reserve(others.len())?;
    squares.pop();
    squares.append(&mut others).unwrap();
    Ok(())
}

/// What is made of the quarters of a square, or a cut of which no box is placed.
fn begun_or_new(alloc: Global, cut: Option<Cut>) -> Cut
    ensures cut { (s : Square) → 0 < s.zoom → IfSome cut (IsCut s) → IsCut s result }
    ensures placed { result.placed ≡ placed_of cut }
{
    match cut {
        Some(cut) => cut,
        None => Cut::new(alloc),
    }
}

/// Looks for the next tile of squares, of which the last is the next one and may be cut in part. It looks at `STEP_BOXES` boxes at most, but for
/// those of the tile. The only error is out of memory; no tile is passed over then.
pub(crate) fn step(
    alloc: Global,
    squares: &mut Vec<Square>,
    cut: &mut Option<Cut>,
) -> Result<Step, AllocError>
    requires { IfSome cut.old (IsCutOfLast squares.old.items) }
    ensures cut { IfSome cut.new (IsCutOfLast squares.new.items) }
    ensures left { IfOk result (λ s. left_of squares.old.items ≡ before_step s (left_of squares.new.items)) }
    ensures over { result ≡ Ok Over → left_of squares.new.items ≡ [] }
    ensures further { IfOk result (IsFurther (ahead_of squares.old.items cut.old) (ahead_of squares.new.items cut.new)) }
    ensures failed { OnErr result (left_of squares.new.items ≡ left_of squares.old.items) }
{
    let mut room = STEP_BOXES;
    while room > 0 {
        let begun = cut.take();
        let Some(square) = squares.last() else {
            return Ok(Step::Over);
        };
        let boxes = square.boxes.len();
        if square.zoom > 0 {
            let more = begun_or_new(alloc, begun).go_on(square, room)?;
            if more.placed < boxes {
                *cut = Some(more);
                return Ok(Step::Part);
            }
            let quarters = quarters_of(alloc, square, more)?;
            replace_last(squares, quarters)?;
        } else {
            let id = square.first;
            let numbers = numbers_of(alloc, &square.boxes)?;
            squares.pop();
            if !numbers.is_empty() {
                return Ok(Step::Tile((id, numbers)));
            }
        }
        room = room.saturating_sub(boxes).saturating_sub(1);
    }
    Ok(Step::Part)
}
