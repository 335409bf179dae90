//! The tiles of a map that are left to make, zoom by zoom.
ghost use Rattle.std.specs.Prelude.{◌≡◌, ◌≤◌, ◌+◌, ◌<◌, [], None, Ok, ℕ, IfOk, IfSome, OnOk, OnErr};
ghost use Rattle.feature_model.specs.declared.limits.TheConstants.{MAX_ZOOM};
ghost use Rattle.tile_walk.specs.Walk.{IsFurther, before_step};
ghost use Rattle.tile_walk.specs.declared.step.Step.TheVariants.{Over};
ghost use Rattle.feature_store.specs.Boxes.{AreFirst};
ghost use Rattle.feature_store.specs.Left.{AreLeft, AllStay, left_of, stage_in, stage_of};
ghost use Rattle.feature_store.specs.Store.{FeatureMap};

use crate::feature_boxes::{Covers, FeatureBoxes, begun_or_new};
use feature_model::MAX_ZOOM;
use std::alloc::{AllocError, Global};
use tile_walk::{Step, Walk};

/// The tiles that are left of the zooms of a map, each with the features that cover it.
#[derive(Drop)]
pub(crate) struct TilesLeft {
    /// The zoom that is walked next.
    pub(crate) zoom: u8,
    /// The walk over the zoom before it, if it isn't at its end.
    pub(crate) walk: Option<Walk>,
    /// What is read of the zoom that is walked next.
    pub(crate) first: Option<Covers>,
}

/// Takes a step of a walk, which is dropped at its end. The only error is out of memory; no tile is lost then.
fn walk_on(walk: &mut Option<Walk>) -> Result<Step, AllocError>
    ensures left { IfOk result (λ s. left_of walk.old ≡ before_step s (left_of walk.new)) }
    ensures over { result ≡ Ok Over → walk.new ≡ None }
    ensures further { (zoom read : ℕ) → IfOk result (IsFurther (stage_in zoom walk.old read) (stage_in zoom walk.new read)) }
    ensures failed { OnErr result (left_of walk.new ≡ left_of walk.old) }
{
    let Some(tiles) = walk else {
        return Ok(Step::Over);
    };
    let found = tiles.step()?;
    if let Step::Over = found {
        *walk = None;
    }
    Ok(found)
}

impl TilesLeft {
    /// All tiles of a map.
    pub(crate) fn new() -> TilesLeft
        ensures zoom { result.zoom ≤ MAX_ZOOM + 1 }
        ensures first { result.first ≡ None }
        ensures left { (m : FeatureMap) → AreLeft m result.zoom 0 (left_of result.walk) }
    {
        TilesLeft {
            zoom: 0,
            walk: None,
            first: None,
        }
    }

    /// Reads which tiles the next features cover at the next zoom, whose walk begins with the last of them. The only error is out of memory; no
    /// tile is lost then.
    fn read_on(&mut self, alloc: Global, map: &FeatureBoxes) -> Result<(), AllocError>
        requires zoom { self.old.zoom ≤ MAX_ZOOM }
        requires walk { self.old.walk ≡ None }
        requires first { IfSome self.old.first (AreFirst self.old.zoom map.now) }
        ensures zoom { self.new.zoom ≤ MAX_ZOOM + 1 }
        ensures first { IfSome self.new.first (AreFirst self.new.zoom map.now) }
        ensures left { OnOk result (AllStay map.now self.old.zoom [] self.new.zoom (left_of self.new.walk)) }
        ensures further { OnOk result (stage_of self.new < stage_of self.old) }
        ensures failed { OnErr result ((self.new.zoom ≡ self.old.zoom) × (self.new.walk ≡ None)) }
    {
        let first = begun_or_new(alloc, self.first.take());
        let more = map.read_on(self.zoom, first)?;
        if !map.are_all(&more) {
            self.first = Some(more);
            return Ok(());
        }
        let walk = Walk::new(alloc, self.zoom, more.tiles)?;
        self.walk = Some(walk);
        self.zoom += 1;
        Ok(())
    }

    /// Looks for the next tile in the walk, or goes on to that of the next zoom. It looks at `STEP_BOXES` boxes at most beside those of the tile.
    /// The only error is out of memory; no tile is lost then.
    pub(crate) fn step(&mut self, alloc: Global, map: &FeatureBoxes) -> Result<Step, AllocError>
        requires zoom { self.old.zoom ≤ MAX_ZOOM + 1 }
        requires first { IfSome self.old.first (AreFirst self.old.zoom map.now) }
        ensures zoom { self.new.zoom ≤ MAX_ZOOM + 1 }
        ensures first { IfSome self.new.first (AreFirst self.new.zoom map.now) }
        ensures left { IfOk result (λ s. AllStay map.now self.old.zoom (left_of self.old.walk) self.new.zoom (before_step s (left_of self.new.walk))) }
        ensures over { result ≡ Ok Over → (self.new.zoom ≡ MAX_ZOOM + 1) × (left_of self.new.walk ≡ []) }
        ensures further { IfOk result (IsFurther (stage_of self.old) (stage_of self.new)) }
        ensures failed { OnErr result (AllStay map.now self.old.zoom (left_of self.old.walk) self.new.zoom (left_of self.new.walk)) }
    {
        let found = walk_on(&mut self.walk)?;
        let Step::Over = found else {
            return Ok(found);
        };
        if self.zoom > MAX_ZOOM {
            return Ok(Step::Over);
        }
        self.read_on(alloc, map)?;
        Ok(Step::Part)
    }
}
