//! The header of an archive whose sections are stored without gaps.

ghost use Rattle.pm_header.specs.declared.header.TheConstants.{HEADER_BYTES};
ghost use Rattle.std.specs.Prelude.{◌≡◌, ◌+◌, ◌<◌, ◌^◌};
ghost use Rattle.pm_build.specs.Laid.{IsZoomOf, header_for};

use hilbert_id::{TILE_IDS, tile_of};
use pm_header::{CLUSTERED, HEADER_BYTES, Header, NOT_COMPRESSED, SectionSpan, VECTOR_TILES};

/// The lengths of the sections in bytes.
#[derive(Clone, Copy)]
pub(crate) struct Lengths {
    pub(crate) root: u64,
    pub(crate) metadata: u64,
    pub(crate) leaves: u64,
    pub(crate) tiles: u64,
}

/// The numbers of tiles, of tile entries and of different contents.
#[derive(Clone, Copy)]
pub(crate) struct Counts {
    pub(crate) addressed: u64,
    pub(crate) entries: u64,
    pub(crate) contents: u64,
}

/// The eastern edge of the map, in 1/10,000,000 of a degree.
const EAST: i32 = 1_800_000_000;

/// The northern edge of the map, in 1/10,000,000 of a degree.
const NORTH: i32 = 850_511_287;

/// The zoom of a tile id.
pub(crate) fn zoom_of(id: u64) -> u8
    requires { id < TILE_IDS }
    ensures { IsZoomOf id result }
{
    match tile_of(id) {
        Some(at) => at.z,
        None => unreachable!(),
    }
}

/// The header of sections of these lengths, in the order root directory, metadata, leaf directories, contents.
#[tactic(auto, unfolding(crate::specs::Laid::header_for))]
pub(crate) fn header_of(lengths: Lengths, counts: Counts, min_zoom: u8, max_zoom: u8) -> Header
    requires { HEADER_BYTES + lengths.root + lengths.metadata + lengths.leaves < 2 ^ 64 }
    ensures { result ≡ header_for lengths counts min_zoom max_zoom }
{
    let metadata = HEADER_BYTES as u64 + lengths.root;
    let leaves = metadata + lengths.metadata;
    let tiles = leaves + lengths.leaves;
    Header {
        root: SectionSpan {
            offset: HEADER_BYTES as u64,
            length: lengths.root,
        },
        metadata: SectionSpan {
            offset: metadata,
            length: lengths.metadata,
        },
        leaves: SectionSpan {
            offset: leaves,
            length: lengths.leaves,
        },
        tiles: SectionSpan {
            offset: tiles,
            length: lengths.tiles,
        },
        addressed: counts.addressed,
        entries: counts.entries,
        contents: counts.contents,
        clustered: CLUSTERED,
        internal: NOT_COMPRESSED,
        compression: NOT_COMPRESSED,
        kind: VECTOR_TILES,
        min_zoom,
        max_zoom,
        min_lon: -EAST,
        min_lat: -NORTH,
        max_lon: EAST,
        max_lat: NORTH,
        centre_zoom: min_zoom,
        centre_lon: 0,
        centre_lat: 0,
    }
}
