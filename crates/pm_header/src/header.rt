//! The header of an archive as a value.

use crate::compression::{NOT_COMPRESSED, UNKNOWN_COMPRESSION};
use crate::fault::HeaderFault;
use crate::reading::fields;
use crate::section_span::SectionSpan;
use crate::writing::{MAGIC, VERSION, header_bytes};

/// The length of a header in bytes.
pub const HEADER_BYTES: usize = 127;
/// The `clustered` of an archive whose contents are stored in ascending order of their tile ids.
pub const CLUSTERED: u8 = 1;
/// The `kind` of Mapbox vector tiles.
pub const VECTOR_TILES: u8 = 1;

/// The header of an archive (PMTiles 3, 3.2).
///
/// Any values of the fields are a header: they need not agree with one another or with the rest of the archive.
#[derive(Clone, Copy, Debug, PartialEq, Eq)]
pub struct Header {
    /// The root directory.
    pub root: SectionSpan,
    /// The metadata, a JSON object.
    pub metadata: SectionSpan,
    /// The leaf directories.
    pub leaves: SectionSpan,
    /// The contents of the tiles.
    pub tiles: SectionSpan,
    /// The number of tile ids that have a content. 0 if it isn't known, as for the next two counts.
    pub addressed: u64,
    /// The number of tile entries in all directories.
    pub entries: u64,
    /// The number of different contents.
    pub contents: u64,
    /// [`CLUSTERED`] if the contents are stored in ascending order of their tile ids.
    pub clustered: u8,
    /// The compression of directories and metadata: [`UNKNOWN_COMPRESSION`], [`NOT_COMPRESSED`], `GZIP`, `BROTLI`, `ZSTD`, or another number.
    pub internal: u8,
    /// The compression of each tile, by the same numbers.
    pub compression: u8,
    /// The type of the tiles: 0 unknown, [`VECTOR_TILES`], other numbers images.
    pub kind: u8,
    /// The least zoom of the tiles.
    pub min_zoom: u8,
    /// The greatest zoom of the tiles.
    pub max_zoom: u8,
    /// The western bound of the tiles, in 1/10,000,000 of a degree, as all positions here.
    pub min_lon: i32,
    /// The southern bound of the tiles.
    pub min_lat: i32,
    /// The eastern bound of the tiles.
    pub max_lon: i32,
    /// The northern bound of the tiles.
    pub max_lat: i32,
    /// The zoom of a viewer's first view.
    pub centre_zoom: u8,
    /// The longitude of its centre.
    pub centre_lon: i32,
    /// The latitude of its centre.
    pub centre_lat: i32,
}

impl Header {
    ghost use Rattle.std.specs.Prelude.{◌≡◌, ◌≢◌, ℕ, ◌<◌, ◌≤◌, ◌↔◌, List, length, take, Ok, Err, IfOk, IsTrue, slice_index};
    ghost use Rattle.pm_header.specs.Compression.{IsPlain};
    ghost use Rattle.pm_header.specs.Layout.{IsHeader, magic};

    /// The bytes of the header, as an archive begins with them.
    pub fn to_bytes(&self) -> [u8; HEADER_BYTES]
        ensures { IsHeader result self.now }
    {
        header_bytes(*self)
    }

    /// Decodes the header with which bytes begin. The bytes after it are ignored.
    ///
    /// # Errors
    ///
    /// `Short`, `Magic`, `Version`, the first that applies.
    pub fn from_bytes(bytes: &[u8]) -> Result<Header, HeaderFault>
        ensures found { IfOk result (λ header. IsHeader bytes.now header) }
        ensures only { (header : Header) → IsHeader bytes.now header → result ≡ Ok header }
        ensures short { (result ≡ Err HeaderFault.Short) ↔ (length bytes.now < HEADER_BYTES) }
        ensures magic { (result ≡ Err HeaderFault.Magic) ↔ ((HEADER_BYTES ≤ length bytes.now) × (take 7 bytes.now ≢ magic)) }
        ensures version { (n : ℕ) → (result ≡ Err (HeaderFault.Version n))
            ↔ ((HEADER_BYTES ≤ length bytes.now) × (take 7 bytes.now ≡ magic) × (slice_index bytes.now 7 ≡ n) × (n ≢ 3)) }
    {
        if bytes.len() < HEADER_BYTES {
            return Err(HeaderFault::Short);
        }
        if !bytes.starts_with(&MAGIC) {
            return Err(HeaderFault::Magic);
        }
        if bytes[7] != VERSION {
            return Err(HeaderFault::Version(bytes[7]));
        }
        Ok(fields(bytes))
    }

    /// Whether directories and metadata are read as they are: they aren't compressed, or the archive doesn't say how.
    pub fn has_plain_directories(&self) -> bool
        ensures { IsTrue result ↔ IsPlain self.now.internal }
    {
        self.internal == UNKNOWN_COMPRESSION || self.internal == NOT_COMPRESSED
    }
}
