//! A walk along the curve over the tiles of numbered boxes.

ghost use Rattle.std.specs.Prelude.{◌≡◌, ◌≤◌, ◌<◌, ◌^◌, [], Ok, IfOk, OnErr};
ghost use Rattle.tile_walk.specs.Boxes.{AreTilesOf};
ghost use Rattle.tile_walk.specs.Walk.{IsFurther, before_step};

use crate::cut::Cut;
use crate::numbered::Numbered;
use crate::square::Square;
use crate::squares::step;
use crate::step::Step;
use hilbert_id::{TileAt, id_of};
use std::alloc::{AllocError, Global};
use std::marker::Model;

/// The tiles of a zoom that numbered boxes have, in ascending order of their ids, found by steps.
///
/// It keeps the squares that are left, of which each is cut into four when it is next: for each box at most three a level, and not an
/// entry for each of its tiles.
#[derive(Drop)]
pub struct Walk {
    /// The squares that are left, the next one last.
    squares: Vec<Square>,
    /// What is made of the quarters of the next one, if it is begun.
    cut: Option<Cut>,
    alloc: Global,
}

impl Model for Walk {
    ghost use Rattle.tile_walk.specs.Walk.{WalkView};

    ghost Value = { WalkView };

    ghost use Rattle.tile_walk.specs.Inside.{walk_view, IsWalk};

    ghost view = { walk_view };

    ghost invariant = { IsWalk };
}

impl Walk {
    ghost use Rattle.tile_walk.specs.declared.step.Step.TheVariants.{Over};

    /// The walk over the tiles of a zoom that some boxes have. What they have beyond the zoom's last column or row is no tile. It looks at no
    /// box. The only error is out of memory.
    pub fn new(alloc: Global, zoom: u8, boxes: Vec<Numbered>) -> Result<Walk, AllocError>
        requires { zoom ≤ 31 }
        ensures tiles { IfOk result (λ walk. AreTilesOf zoom boxes.items walk.left) }
        ensures ahead { IfOk result (λ walk. walk.ahead < 2 ^ 128) }
    {
        let first = id_of(TileAt {
            z: zoom,
            x: 0,
            y: 0,
        });
        let mut squares = Vec::new(alloc);
        squares.push(Square { zoom, first, boxes })?;
        Ok(Walk {
            squares,
            cut: None,
            alloc,
        })
    }

    /// Looks for the next tile, if there is one left, at `STEP_BOXES` boxes at most beside those of the tile. The only error is out of memory;
    /// no tile is passed over then.
    pub fn step(&mut self) -> Result<Step, AllocError>
        ensures left { IfOk result (λ s. self.old.left ≡ before_step s self.new.left) }
        ensures over { result ≡ Ok Over → self.new.left ≡ [] }
        // So steps until `Over` end.
        ensures further { IfOk result (IsFurther self.old.ahead self.new.ahead) }
        ensures failed { OnErr result (self.new.left ≡ self.old.left) }
    {
        step(self.alloc, &mut self.squares, &mut self.cut)
    }
}
