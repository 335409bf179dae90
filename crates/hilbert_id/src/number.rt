//! Ids along the Hilbert curve.

ghost use Rattle.std.specs.Prelude.{◌≡◌, ◌↔◌, ℕ, ◌+◌, ◌-◌, ◌*◌, ◌<◌, ◌≤◌, ◌^◌, IfSome, IsSome};
ghost use Rattle.hilbert_id.specs.Curve.{StandsAt, IsTileId, first_id};

use crate::tile_at::TileAt;

/// The number of tiles of zooms 0 to 31 together. Their ids are the numbers below it.
pub const TILE_IDS: u64 = 6_148_914_691_236_517_205;

/// Half the columns of a zoom.
fn half_side(zoom: u8) -> u32
    requires { (0 < zoom) × (zoom ≤ 31) }
    ensures half { result ≡ 2 ^ (zoom - 1) }
    ensures twice { 2 * result ≡ 2 ^ zoom }
    ensures small { result ≤ 2 ^ 30 }
{
    1 << (zoom - 1)
}

/// The number of tiles in a quarter of a zoom.
fn quarter(zoom: u8) -> u64
    requires { (0 < zoom) × (zoom ≤ 31) }
    ensures quarter { result ≡ 4 ^ (zoom - 1) }
    ensures whole { 4 * result ≡ 4 ^ zoom }
    ensures small { result ≤ 4 ^ 30 }
{
    1 << (2 * (zoom - 1))
}

/// The position of a column and a row on the curve of a zoom.
fn position(zoom: u8, x: u32, y: u32) -> u64
    requires zoom { zoom ≤ 31 }
    requires column { x < 2 ^ zoom }
    requires row { y < 2 ^ zoom }
    ensures small { result < 4 ^ zoom }
    ensures stands { StandsAt zoom x y result }
{
    if zoom == 0 {
        return 0;
    }
    let half = half_side(zoom);
    let each = quarter(zoom);
    match (x < half, y < half) {
        (true, true) => position(zoom - 1, y, x),
        (true, false) => each + position(zoom - 1, x, y - half),
        (false, false) => 2 * each + position(zoom - 1, x - half, y - half),
        (false, true) => 3 * each + position(zoom - 1, half - 1 - y, 2 * half - 1 - x),
    }
}

/// The id of the first tile of a zoom.
fn first_of(z: u8) -> u64
    requires { z ≤ 31 }
    ensures first { result ≡ first_id z }
    ensures small { result < 2 ^ 62 }
{
    ((1u64 << (2 * z)) - 1) / 3
}

/// The zoom of an id.
fn zoom_of(id: u64) -> u8
    requires { id < TILE_IDS }
    ensures zoom { result ≤ 31 }
    ensures first { first_id result ≤ id }
    ensures last { id < first_id result + 4 ^ result }
{
    // Three times the first id of a zoom, plus one, is the number of tiles of the zoom: a power of four.
    ((3 * id + 1).ilog2() / 2) as u8
}

/// The column and the row at a position of the curve of a zoom.
fn column_and_row(zoom: u8, position: u64) -> (u32, u32)
    requires zoom { zoom ≤ 31 }
    requires position { position < 4 ^ zoom }
    ensures column { result.0 < 2 ^ zoom }
    ensures row { result.1 < 2 ^ zoom }
    ensures stands { StandsAt zoom result.0 result.1 position }
{
    if zoom == 0 {
        return (0, 0);
    }
    let half = half_side(zoom);
    let each = quarter(zoom);
    let (x, y) = column_and_row(zoom - 1, position % each);
    match position / each {
        0 => (y, x),
        1 => (x, y + half),
        2 => (x + half, y + half),
        _ => (2 * half - 1 - y, half - 1 - x),
    }
}

/// The id of a tile.
pub fn id_of(at: TileAt) -> u64
    ensures id { IsTileId at.z at.x at.y result }
    ensures only { (id : ℕ) → IsTileId at.z at.x at.y id → id ≡ result }
    ensures below { result < TILE_IDS }
{
    first_of(at.z) + position(at.z, at.x, at.y)
}

/// The tile of an id, or `None` if the id is `TILE_IDS` or more.
pub fn tile_of(id: u64) -> Option<TileAt>
    ensures there { IsSome result ↔ (id < TILE_IDS) }
    ensures tile { IfSome result (λ at. IsTileId at.z at.x at.y id) }
    // So `tile_of(id_of(at))` is `Some(at)`.
    ensures only { (at : TileAt) → IsTileId at.z at.x at.y id → result ≡ Some at }
{
    if id >= TILE_IDS {
        return None;
    }
    let z = zoom_of(id);
    let (x, y) = column_and_row(z, id - first_of(z));
    Some(TileAt { z, x, y })
}
