//! Checks a tile that is to be added.

ghost use Rattle.std.specs.Prelude.{◌≤◌, ◌↔◌, IsTrue};
ghost use Rattle.pm_build.specs.Tiles.{IsTile};

use hilbert_id::TILE_IDS;

/// Whether an id is at least `from` and that of a tile of zooms 0 to 31, and a content has from 1 to 2^32 - 1 bytes.
pub(crate) fn is_tile(from: u64, id: u64, content: &[u8]) -> bool
    ensures { IsTrue result ↔ ((from ≤ id) × IsTile (id, content.now)) }
{
    from <= id && id < TILE_IDS && content.len() > 0 && content.len() <= u32::MAX as usize
}
