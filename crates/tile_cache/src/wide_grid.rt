//! The newest edit of each cell of a wide map.

ghost use Rattle.std.specs.Prelude.{◌≡◌, ℕ, ◌∷◌, [], List, IfOk};
ghost use Rattle.tile_cache.specs.Cells.{stale_cells};
ghost use Rattle.tile_cache.specs.Touched.{Mark, Remembers, StaysElsewhere, IsNewest, IsNewestOf};

use crate::touch_grid::{
    CELLS, FINEST, WIDE_CELLS, WIDE_LEVELS, count_above, newest_of, raise_levels, shown_by,
};
use feature_model::WorldBox;
use hilbert_id::TileAt;
use std::alloc::{AllocError, Global};
use std::marker::Model;

/// The levels of a touch grid, and one of 256 by 256 of the finest cells: a map of up to 313 km has a number for each of them, where the
/// finest level of a touch grid is repeated after 39 km.
///
/// A contract says of it which lists of marked edits it remembers.
#[derive(Drop)]
pub struct WideGrid {
    cells: Vec<u64>,
}

impl Model for WideGrid {
    ghost use Rattle.std.specs.Prelude.{◌≡◌, ℕ, List, length};
    ghost use Rattle.tile_cache.specs.declared.touch_grid.TheConstants.{WIDE_CELLS};

    ghost Value = { List ℕ };

    ghost view = { λ g. g.cells.items };

    ghost invariant = { λ g. length g.cells.items ≡ WIDE_CELLS };
}

impl WideGrid {
    /// A grid without edits. The only error is out of memory.
    pub fn new(alloc: Global) -> Result<WideGrid, AllocError>
        ensures { IfOk result (λ g. Remembers g []) }
    {
        Ok(WideGrid {
            cells: vec![in alloc; 0; WIDE_CELLS]?,
        })
    }

    /// Notes that an edit of this number touched a box. The numbers of the cells that the box touches rise to this one, if they are
    /// lower; all others are unchanged.
    pub fn mark(&mut self, bounds: &WorldBox, number: u64)
        ensures remembers { (marks : List Mark) → Remembers self.old marks → Remembers self.new ((bounds.now, number) ∷ marks) }
        // With no marks and `first` the grid before the call: only numbers of cells that the box touches change.
        ensures stays { (marks : List Mark) (first : List ℕ) → StaysElsewhere marks first self.old
            → StaysElsewhere ((bounds.now, number) ∷ marks) first self.new }
    {
        if bounds.x1 < bounds.x0 || bounds.y1 < bounds.y0 {
            return;
        }
        raise_levels(&mut self.cells, WIDE_LEVELS, bounds, number);
    }

    /// At least the number of every marked edit whose box can reach the tile, its margin included; 0 if none was marked.
    pub fn newest(&self, at: TileAt) -> u64
        ensures marked { (marks : List Mark) → Remembers self.now marks → IsNewest marks at.z at.x at.y result }
        ensures of_cells { IsNewestOf self.now at.z at.x at.y result }
    {
        newest_of(&self.cells, WIDE_LEVELS, &shown_by(at))
    }

    /// How many of the `LEVEL_CELLS` cells of the finest level of a touch grid an edit after this number has touched. Cells that share a
    /// number are one.
    pub fn stale(&self, number: u64) -> u64
        ensures { result ≡ stale_cells self.now number }
    {
        count_above(&self.cells[FINEST..CELLS], number) as u64
    }
}
