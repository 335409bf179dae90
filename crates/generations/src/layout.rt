//! How the sectors of a disk are divided.
ghost use Rattle.std.specs.Prelude.{◌≡◌, ◌≤◌, ◌+◌, ◌*◌, MatchOption};
ghost use Rattle.generations.specs.Areas.{IsSize, journal_sectors, area_sectors, area_start, archive_start, sectors_of};
ghost use Rattle.generations.specs.declared.sizes.TheConstants.{JOURNAL_START};

use crate::root::Root;
use crate::sizes::{JOURNAL_START, MAX_SECTORS, MIN_SECTORS};
use sector_disk::SECTOR_BYTES;

/// How many sectors each part of a disk has. The format's sector and two sectors of roots come first, then the
/// journal, and then the areas of the even and of the odd generations, one as long as the other.
#[derive(Clone, Copy, Debug)]
pub struct Layout {
    /// How many sectors the disk was formatted with, from `MIN_SECTORS` to `MAX_SECTORS`.
    pub sectors: u64,
    /// How many of them are the journal's.
    pub journal: u64,
    /// How many of them each area has.
    pub area: u64,
    ghost size: { IsSize sectors },
    ghost journal_is: { journal ≡ journal_sectors sectors },
    ghost area_is: { area ≡ area_sectors sectors },
    ghost fits: { JOURNAL_START + journal + 2 * area ≤ sectors },
}

impl Layout {
    /// The layout of a disk formatted with `sectors` sectors, or `None` if it isn't from `MIN_SECTORS` to `MAX_SECTORS`.
    pub fn of(sectors: u64) -> Option<Layout>
        ensures size { MatchOption result (IsSize sectors → ⊥) (λ layout. layout.sectors ≡ sectors) }
    {
        if sectors < MIN_SECTORS || sectors > MAX_SECTORS {
            return None;
        }
        let journal = sectors / 4;
        let area = (sectors - JOURNAL_START - journal) / 2;
        Some(Layout {
            sectors,
            journal,
            area,
        })
    }

    /// The first sector of the area of a generation.
    pub fn area_start(self, generation: u64) -> u64
        ensures { result ≡ area_start self.sectors generation }
    {
        JOURNAL_START + self.journal + generation % 2 * self.area
    }

    /// The first sector of the archive of a root: the one after its snapshot.
    pub fn archive_start(self, root: Root) -> u64
        ensures { result ≡ archive_start self.sectors root.generation root.snapshot_len }
    {
        self.area_start(root.generation) + sectors_for(root.snapshot_len)
    }
}

/// How many sectors `bytes` bytes take.
pub fn sectors_for(bytes: u64) -> u64
    ensures { result ≡ sectors_of bytes }
{
    bytes.div_ceil(SECTOR_BYTES as u64)
}
