//! The parts of a tile's path. They are cut here and not asked of the router, which would test each of them, and each name, for UTF-8.
ghost use Rattle.std.specs.Prelude.{◌≡◌, length};
ghost use Rattle.matchit.specs.Params.{next_at, part_of};
ghost use Rattle.tile_routes.specs.Parts.{tile_parts, zoom_at, part_end};
ghost use Rattle.tile_routes.specs.Paths.{asked_on};
ghost use Rattle.tile_routes.specs.Targets.{asked_of, IsInRange};
ghost use Rattle.tile_routes.specs.declared.routes.Route.TheVariants.{Tile};

use crate::target::{Target, tile_target};

/// How many bytes of a tile's path are before its zoom: `/map/`.
const BEFORE_ZOOM: usize = 5;

/// Where the zoom of a tile's path begins.
fn zoom_at(path: &[u8]) -> usize
    ensures { result ≡ zoom_at path.now }
{
    if path.len() < BEFORE_ZOOM {
        path.len()
    } else {
        BEFORE_ZOOM
    }
}

/// Where a part that begins at a place ends, if a slash follows it.
fn part_end(path: &[u8], at: usize) -> usize
    ensures { result ≡ part_end path.now at }
{
    let mut end = at;
    while end < path.len() {
        end += 1;
        if path[end - 1] == b'/' {
            break;
        }
    }
    end.saturating_sub(1)
}

/// The next place of a path, but not past its end.
fn next_at(path: &[u8], at: usize) -> usize
    ensures { result ≡ next_at (length path.now) at }
{
    if at < path.len() { at + 1 } else { at }
}

/// The bytes between two places of a path, or none if the places don't fit.
fn part_of(path: &[u8], start: usize, end: usize) -> &[u8]
    ensures { result.now ≡ part_of path.now start end }
{
    match path.get(start..end) {
        Some(part) => part,
        None => b"",
    }
}

/// The tile that a path on the tiles' route asks for.
pub fn requested_tile(path: &[u8]) -> Target
    ensures asked { asked_of result ≡ asked_on Tile (tile_parts path.now) }
    ensures range { IsInRange result }
{
    let zoom = zoom_at(path);
    let zoom_end = part_end(path, zoom);
    let column = next_at(path, zoom_end);
    let column_end = part_end(path, column);
    let row = next_at(path, column_end);
    tile_target(
        part_of(path, zoom, zoom_end),
        part_of(path, column, column_end),
        part_of(path, row, path.len()),
    )
}
