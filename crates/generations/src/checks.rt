//! What a sector has, by its bytes.
ghost use Rattle.std.specs.Prelude.{◌≡◌, ◌<◌, ◌%◌, ◌↔◌, ℕ, IsTrue, IfOk, IfErr, MatchOption};
ghost use Rattle.generations.specs.Sectors.{HasMark, IsFormat, CanStand, IsBad, IsSlot, IsNewest};
ghost use Rattle.generations.specs.declared.fault.StoreFault.TheVariants.{Damaged};
ghost use Rattle.generations.specs.declared.fault.What.TheVariants.{RootSector};

use crate::encoding::{DISK_MARK, root_of, size_of};
use crate::fault::{StoreFault, What};
use crate::layout::{Layout, sectors_for};
use crate::root::Root;
use sector_disk::SECTOR_BYTES;

/// Whether a sector begins as that of a formatted disk.
#[tactic(auto, unfolding(crate::specs::Sectors::disk_mark))]
pub(crate) fn has_mark(sector: &[u8; SECTOR_BYTES]) -> bool
    ensures { IsTrue result ↔ HasMark sector.now }
{
    sector.starts_with(&DISK_MARK)
}

/// The layout of a disk of this count of sectors, by the sector of its format.
pub(crate) fn layout_in(sector: &[u8; SECTOR_BYTES], count: u64) -> Option<Layout>
    ensures { MatchOption result ((n : ℕ) → IsFormat count sector.now n → ⊥) (λ layout. IsFormat count sector.now layout.sectors) }
{
    match size_of(sector) {
        Some(sectors) if sectors <= count => Layout::of(sectors),
        _ => None,
    }
}

/// Whether the root's snapshot and archive fit an area, and its journal place is one of the layout's.
fn is_possible(root: Root, layout: Layout) -> bool
    ensures { IsTrue result ↔ CanStand layout.sectors root }
{
    let held = sectors_for(root.snapshot_len) + sectors_for(root.archive_len);
    root.journal_at < layout.journal && held <= layout.area
}

/// The root in the sector of even generations, for parity 0, or of odd ones, for parity 1.
pub(crate) fn slot_in(
    sector: &[u8; SECTOR_BYTES],
    layout: Layout,
    parity: u64,
) -> Result<Option<Root>, StoreFault>
    ensures slot { IfOk result (IsSlot layout.sectors parity sector.now) }
    ensures fault { IfErr result (λ fault. fault ≡ Damaged RootSector) }
    ensures bad { IfErr result (λ _. IsBad layout.sectors parity sector.now) }
{
    if *sector == [0; SECTOR_BYTES] {
        return Ok(None);
    }
    match root_of(sector) {
        Some(root) if root.generation % 2 == parity && is_possible(root, layout) => Ok(Some(root)),
        _ => Err(StoreFault::Damaged(What::RootSector)),
    }
}

/// Of two roots the one of greater generation.
pub(crate) fn newest(first: Option<Root>, second: Option<Root>) -> Option<Root>
    ensures { IsNewest first second result }
{
    match (first, second) {
        (Some(one), Some(other)) => Some(if one.generation < other.generation {
            other
        } else {
            one
        }),
        (Some(one), None) => Some(one),
        (None, other) => other,
    }
}
