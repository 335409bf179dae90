//! Counts the tiles of a moment whose contents are not kept.
ghost use Rattle.std.specs.Prelude.{◌≡◌, ◌<◌, ◌↔◌, ◌++◌, ◌∷◌, [], ℕ, List, All, IsTrue, false, length, OnOk, IfOk, IfErr};
ghost use Rattle.feature_store.specs.Moments.{IsAsOf};
ghost use Rattle.feature_store.specs.Store.{FeatureMap};
ghost use Rattle.feature_store.specs.Tiles.{IsTile};
ghost use Rattle.pm_build.specs.Building.{AreFew, AreTooMany, CanAdd};
ghost use Rattle.pm_build.specs.Counted.{IsPlaceOf};
ghost use Rattle.pm_build.specs.Different.{content_at, contents_of};
ghost use Rattle.pm_build.specs.Tiles.{Tile};
ghost use Rattle.area_content.specs.Faults.{HasManyTiles, IsContentFault};

use crate::collected::to_content_fault;
use crate::fault::ContentFault;
use crate::frame::MapThen;
use feature_store::Tiles;
use pm_build::ArchiveCounter;
use std::alloc::AllocError;

/// Whether the content at a place is equal to this one. Its first tile is made once more. The only error is out of memory.
fn is_equal(
    counter: &ArchiveCounter,
    place: usize,
    content: &[u8],
    tiles: &mut Tiles,
    map: MapThen<'_>,
) -> Result<bool, AllocError>
    requires place { place < length (contents_of counter.now) }
    requires of_map { All (IsTile tiles.old.features) counter.now }
    requires same { map.moment.now.features ≡ tiles.old.features }
    requires there { map.moment.now.lost ≡ false }
    requires as_of { IsAsOf map.moment.now map.store.now.features }
    ensures equal { IfOk result (λ is. IsTrue is ↔ (content_at (contents_of counter.now) place ≡ content.now)) }
    ensures unchanged { tiles.new ≡ tiles.old }
{
    let tile = tiles.again(map.store, map.moment, counter.first_with(place))?;
    Ok(tile.as_slice() == content)
}

/// The place of the content that is equal to this one, if one is. The only error is out of memory.
fn place_of_equal(
    counter: &ArchiveCounter,
    content: &[u8],
    tiles: &mut Tiles,
    map: MapThen<'_>,
) -> Result<Option<usize>, AllocError>
    requires of_map { All (IsTile tiles.old.features) counter.now }
    requires same { map.moment.now.features ≡ tiles.old.features }
    requires there { map.moment.now.lost ≡ false }
    requires as_of { IsAsOf map.moment.now map.store.now.features }
    ensures place { IfOk result (λ place. IsPlaceOf counter.now content.now place) }
    ensures unchanged { tiles.new ≡ tiles.old }
{
    let mut next = counter.last_like(content);
    while let Some(place) = next {
        if is_equal(counter, place, content, tiles, map)? {
            return Ok(Some(place));
        }
        next = counter.like_before(place);
    }
    Ok(None)
}

/// Counts a tile of a moment.
///
/// # Errors
///
/// `TooManyTiles` if the tiles need more entries than an archive takes. `Memory` if an allocation fails.
pub(crate) fn count_tile(
    counter: &mut ArchiveCounter,
    id: u64,
    content: Vec<u8>,
    tiles: &mut Tiles,
    map: MapThen<'_>,
) -> Result<(), ContentFault>
    requires can { CanAdd counter.old (id, content.items) }
    requires of_map { All (IsTile tiles.old.features) counter.old }
    requires same { map.moment.now.features ≡ tiles.old.features }
    requires there { map.moment.now.lost ≡ false }
    requires as_of { IsAsOf map.moment.now map.store.now.features }
    ensures added { OnOk result (counter.new ≡ counter.old ++ (id, content.items) ∷ []) }
    ensures few { OnOk result (AreFew counter.new) }
    ensures unchanged { tiles.new ≡ tiles.old }
    ensures fault { IfErr result (λ fault. (m : FeatureMap) (metadata : List ℕ) (area : ℕ)
        → (AreTooMany (counter.old ++ (id, content.items) ∷ []) → HasManyTiles m) → IsContentFault m metadata area fault) }
{
    if counter.join(id, &content) {
        return Ok(());
    }
    let equal = match place_of_equal(counter, &content, tiles, map) {
        Ok(equal) => equal,
        Err(_) => return Err(ContentFault::Memory),
    };
    match counter.begin(id, content, equal) {
        Ok(()) => Ok(()),
        Err(fault) => Err(to_content_fault(fault)),
    }
}
