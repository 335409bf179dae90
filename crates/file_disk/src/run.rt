//! Runs of consecutive sectors.
ghost use Rattle.std.specs.Prelude.{◌≡◌, ◌+◌, ◌<◌, ◌≤◌, ◌⊎◌, IsTrue, false};
ghost use Rattle.sector_disk.specs.Disk.{Image};
ghost use Rattle.file_disk.specs.Runs.{Shows, Apart};
ghost use Rattle.file_disk.specs.declared.run.TheConstants.{RUN_SECTORS};

use sector_disk::SECTOR_BYTES;

/// The greatest number of sectors that one call of a file reads or writes.
pub const RUN_SECTORS: usize = 64;

/// How many sectors are read ahead at first.
pub(crate) const FIRST_RUN: usize = 8;

/// `RUN_SECTORS` consecutive sectors.
pub type Run = [[u8; SECTOR_BYTES]; RUN_SECTORS];

/// Gives sector `at`, if it is one of the first `len` of these, which begin with sector `first`, and says whether it is.
pub(crate) fn get_from(
    sectors: &Run,
    first: u64,
    len: usize,
    at: u64,
    into: &mut [u8; SECTOR_BYTES],
) -> bool
    requires { len ≤ RUN_SECTORS }
    ensures given { IsTrue result → (image : Image) → Shows image first len sectors.now → into.new ≡ image at }
    ensures other { result ≡ false → (at < first) ⊎ (first + len ≤ at) }
{
    if at < first {
        return false;
    }
    let index = at - first;
    if index < len as u64 {
        *into = sectors[index as usize];
        true
    } else {
        false
    }
}

/// Whether a sector is both among the `len` sectors from `first` on and among the `other_len` sectors from `other` on.
pub(crate) fn overlap(first: u64, len: usize, other: u64, other_len: usize) -> bool
    ensures apart { result ≡ false → Apart first len other other_len }
    ensures common { IsTrue result → Apart first len other other_len → ⊥ }
{
    if first < other {
        other - first < len as u64 && other_len > 0
    } else {
        first - other < other_len as u64 && len > 0
    }
}
