//! The newest edit of each cell of the world.

ghost use Rattle.std.specs.Prelude.{◌≡◌, ◌↔◌, ℕ, ◌+◌, ◌-◌, ◌<◌, ◌≤◌, ◌^◌, ◌∷◌, [], List, count_by, length, min, nat_lt, IsTrue};
ghost use Rattle.tile_cache.specs.Cells.{cell_at, cell_of, cells_of, side_of, most_of, place_in, level_end, HasLevels};
ghost use Rattle.tile_cache.specs.Cells.{IsNear, IsNarrow, HasCell, RisesTo, StaysBut, IsInRow, IsOfCells, IsOfBox, IsZeroOrOneOf};
ghost use Rattle.tile_cache.specs.Cells.{IsGreatestIn, IsNewestIn, stale_cells};
ghost use Rattle.tile_cache.specs.Touched.{Mark, RemembersIn, StaysElsewhere, IsNewest, shown_box};

use feature_model::{MAX_ZOOM, WorldBox};
use hilbert_id::TileAt;
use std::marker::Model;
use tile_cutter::tile_box;

/// The number of columns of cells of a level of a touch grid, and of rows.
const SIDE: usize = 32;

/// The number of columns of cells of the wide level, and of rows.
const WIDE_SIDE: usize = 256;

/// The wide level is looked at for boxes that touch at most so many columns and rows of its cells: those of tiles of zoom 10 and above.
const WIDE_MOST: usize = 40;

/// The number of cells of a level of a touch grid.
pub const LEVEL_CELLS: usize = SIDE * SIDE;

/// The number of levels of a touch grid. The one after them is the wide level.
pub(crate) const LEVELS: usize = 3;

/// The number of levels of a wide grid: those of a touch grid, and the wide one.
pub const WIDE_LEVELS: usize = LEVELS + 1;

/// The number of cells of a touch grid, and the index of the first one of the wide level.
pub(crate) const CELLS: usize = LEVELS * LEVEL_CELLS;

/// The number of cells with those of the wide level.
pub(crate) const WIDE_CELLS: usize = CELLS + WIDE_SIDE * WIDE_SIDE;

/// The index of the first cell of the finest level of a touch grid.
pub(crate) const FINEST: usize = CELLS - LEVEL_CELLS;

/// The bits of a coordinate within a cell, by level. The first level is as wide as the world. The two after it are as wide as a cell of
/// the one before, and are repeated over the world: cells that are `SIDE` columns or rows apart share one number. The wide level has the
/// cells of the third one, and is repeated after `WIDE_SIDE` of them, 313 km at the equator.
const CELL_BITS: [u32; WIDE_LEVELS] = [27, 22, 17, 17];

/// The newest edit of each of 32 by 32 cells of the world, and of finer cells.
///
/// A contract says of it which lists of marked edits it remembers.
#[derive(Drop)]
pub struct TouchGrid {
    cells: [u64; CELLS],
}

impl Model for TouchGrid {
    ghost use Rattle.std.specs.Prelude.{◌≡◌, ℕ, List, length};
    ghost use Rattle.tile_cache.specs.declared.touch_grid.TheConstants.{CELLS};

    ghost Value = { List ℕ };

    ghost view = { λ g. g.cells };

    ghost invariant = { λ g. length g.cells ≡ CELLS };
}

/// A rectangle of cells of a level, ends included.
#[derive(Clone, Copy)]
pub(crate) struct Cells {
    left: usize,
    right: usize,
    top: usize,
    bottom: usize,
}

impl Cells {
    /// Whether they are so few that their level is looked at.
    fn is_narrow(self, level: usize) -> bool
        requires { IsNear self }
        ensures { IsTrue result ↔ IsNarrow level self }
    {
        let most = most_of(level);
        self.right < self.left + most && self.bottom < self.top + most
    }
}

/// The number of columns of cells of a level, and of rows.
fn side_of(level: usize) -> usize
    ensures { result ≡ side_of level }
{
    if level < LEVELS { SIDE } else { WIDE_SIDE }
}

/// A level is looked at for boxes that touch at most so many columns and rows of its cells, and the first level for all. No two cells of
/// so few share a number.
fn most_of(level: usize) -> usize
    ensures most { result ≡ most_of level }
    ensures few { result ≤ 2 ^ 32 }
{
    if level < LEVELS { SIDE } else { WIDE_MOST }
}

/// The column of cells of a level that contains a column of the world, or the row that contains a row.
fn cell_of(level: usize, coordinate: u32) -> usize
    requires { level < WIDE_LEVELS }
    ensures cell { result ≡ cell_of level coordinate }
    ensures near { result < 2 ^ 32 }
{
    (coordinate >> CELL_BITS[level]) as usize
}

/// The cells of a level that a box of the world touches.
fn cells_of(level: usize, bounds: &WorldBox) -> Cells
    requires { level < WIDE_LEVELS }
    ensures cells { result ≡ cells_of level bounds.now }
    ensures near { IsNear result }
{
    Cells {
        left: cell_of(level, bounds.x0),
        right: cell_of(level, bounds.x1),
        top: cell_of(level, bounds.y0),
        bottom: cell_of(level, bounds.y1),
    }
}

/// The index of the number of a cell.
fn place_in(level: usize, column: usize, row: usize) -> usize
    requires { level < WIDE_LEVELS }
    ensures place { result ≡ place_in level column row }
    ensures within { result < level_end level }
{
    let side = side_of(level);
    LEVEL_CELLS * level + side * (row % side) + column % side
}

/// The end of the cells of a level from one to another, at most `side_of` the level: those after share their numbers.
fn end_of(level: usize, first: usize, last: usize) -> usize
    requires { first < 2 ^ 32 }
    ensures { result ≡ min last (first + (side_of level - 1)) + 1 }
{
    last.min(first + (side_of(level) - 1)) + 1
}

/// Raises the numbers of cells of a row to this one.
fn raise_row(cells: &mut [u64], level: usize, row: usize, first: usize, end: usize, number: u64)
    requires level { level < WIDE_LEVELS }
    requires all { level_end level ≤ length cells.old }
    ensures rises { RisesTo number cells.old cells.new }
    ensures raised { (column : ℕ) → first ≤ column → column < end → number ≤ cell_at cells.new level column row }
    ensures stays { StaysBut (IsInRow level row first end) cells.old cells.new }
{
    for column in first..end {
        let at = place_in(level, column, row);
        cells[at] = cells[at].max(number);
    }
}

/// Raises the numbers of cells of a level to this one.
fn raise_cells(cells: &mut [u64], level: usize, range: Cells, number: u64)
    requires level { level < WIDE_LEVELS }
    requires all { level_end level ≤ length cells.old }
    requires near { IsNear range }
    ensures rises { RisesTo number cells.old cells.new }
    ensures raised { (column row : ℕ) → HasCell range column row → number ≤ cell_at cells.new level column row }
    ensures stays { StaysBut (IsOfCells level range) cells.old cells.new }
{
    let end = end_of(level, range.left, range.right);
    for row in range.top..end_of(level, range.top, range.bottom) {
        raise_row(cells, level, row, range.left, end, number);
    }
}

/// Raises the numbers of the cells of so many levels that a box of the world touches to this one.
pub(crate) fn raise_levels(cells: &mut [u64], levels: usize, bounds: &WorldBox, number: u64)
    requires levels { levels ≤ WIDE_LEVELS }
    requires all { HasLevels levels cells.old }
    ensures rises { RisesTo number cells.old cells.new }
    ensures raised { (level column row : ℕ) → level < levels → HasCell (cells_of level bounds.now) column row → number ≤ cell_at cells.new level column row }
    ensures stays { StaysBut (IsOfBox bounds.now) cells.old cells.new }
{
    for level in 0..levels {
        raise_cells(cells, level, cells_of(level, bounds), number);
    }
}

/// The greatest of the numbers of cells of a row, or 0.
fn greatest(cells: &[u64], level: usize, row: usize, first: usize, end: usize) -> u64
    requires level { level < WIDE_LEVELS }
    requires all { level_end level ≤ length cells.now }
    ensures reached { (column : ℕ) → first ≤ column → column < end → cell_at cells.now level column row ≤ result }
    ensures found { IsZeroOrOneOf cells.now level row first end result }
{
    let mut newest = 0;
    for column in first..end {
        newest = cells[place_in(level, column, row)].max(newest);
    }
    newest
}

/// The greatest of the numbers of cells of a level, or 0.
fn greatest_of(cells: &[u64], level: usize, range: Cells) -> u64
    requires level { level < WIDE_LEVELS }
    requires all { level_end level ≤ length cells.now }
    requires near { IsNear range }
    ensures { IsGreatestIn cells.now level range result }
{
    let mut newest = 0;
    for row in range.top..range.bottom + 1 {
        newest = greatest(cells, level, row, range.left, range.right + 1).max(newest);
    }
    newest
}

/// The greatest number of the cells that a box touches, on the one of so many levels where it is the least. A level of which the box
/// touches many cells is skipped, except the first.
pub(crate) fn newest_of(cells: &[u64], levels: usize, bounds: &WorldBox) -> u64
    requires first { 0 < levels }
    requires levels { levels ≤ WIDE_LEVELS }
    requires all { HasLevels levels cells.now }
    ensures { IsNewestIn levels cells.now bounds.now result }
{
    let mut newest = greatest_of(cells, 0, cells_of(0, bounds));
    for level in 1..levels {
        let range = cells_of(level, bounds);
        if range.is_narrow(level) {
            newest = greatest_of(cells, level, range).min(newest);
        }
    }
    newest
}

/// How many of these numbers are above this one.
pub(crate) fn count_above(numbers: &[u64], number: u64) -> usize
    ensures { result ≡ count_by (nat_lt number) numbers.now }
{
    numbers.iter().filter(|other| **other > number).count()
}

/// The box that a tile shows: the world, if no tile of the zoom shows anything.
pub(crate) fn shown_by(at: TileAt) -> WorldBox
    ensures { result ≡ shown_box at.z at.x at.y }
{
    if at.z > MAX_ZOOM {
        return WorldBox {
            x0: 0,
            x1: u32::MAX,
            y0: 0,
            y1: u32::MAX,
        };
    }
    tile_box(at)
}

impl TouchGrid {
    /// A grid without edits.
    pub fn new() -> TouchGrid
        ensures { RemembersIn LEVELS result [] }
    {
        TouchGrid { cells: [0; CELLS] }
    }

    /// Notes that an edit of this number touched a box. The numbers of the cells that the box touches rise to this one, if they are
    /// lower; all others are unchanged.
    pub fn mark(&mut self, bounds: &WorldBox, number: u64)
        ensures remembers { (marks : List Mark) → RemembersIn LEVELS self.old marks → RemembersIn LEVELS self.new ((bounds.now, number) ∷ marks) }
        // With no marks and `first` the grid before the call: only numbers of cells that the box touches change.
        ensures stays { (marks : List Mark) (first : List ℕ) → StaysElsewhere marks first self.old
            → StaysElsewhere ((bounds.now, number) ∷ marks) first self.new }
    {
        if bounds.x1 < bounds.x0 || bounds.y1 < bounds.y0 {
            return;
        }
        raise_levels(&mut self.cells, LEVELS, bounds, number);
    }

    /// At least the number of every marked edit whose box can reach the tile, its margin included; 0 if none was marked.
    pub fn newest(&self, at: TileAt) -> u64
        ensures marked { (marks : List Mark) → RemembersIn LEVELS self.now marks → IsNewest marks at.z at.x at.y result }
        ensures of_cells { IsNewestIn LEVELS self.now (shown_box at.z at.x at.y) result }
    {
        newest_of(&self.cells, LEVELS, &shown_by(at))
    }

    /// How many cells of the finest level an edit after this number has touched, from 0 to `LEVEL_CELLS`. Cells that share a number are
    /// one.
    pub fn stale(&self, number: u64) -> u64
        ensures { result ≡ stale_cells self.now number }
    {
        count_above(&self.cells[FINEST..], number) as u64
    }
}
