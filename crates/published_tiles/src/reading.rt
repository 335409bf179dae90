//! Contents of the archive in a source, and of the one on a disk.
ghost use Rattle.std.specs.Prelude.{◌≡◌, ◌≤◌, ◌+◌, ℕ, List, Option, Err, MatchResult, option_map};
ghost use Rattle.generations.specs.Areas.{sectors_of};
ghost use Rattle.pm_archive.specs.Answers.{IsOutside};
ghost use Rattle.pm_archive.specs.Archive.{HasContents};
ghost use Rattle.byte_source.specs.Source.{Keeps};
ghost use Rattle.sector_bytes.specs.Counts.{HasRisen, NeverFalls};
ghost use Rattle.sector_bytes.specs.Source.{AreItsBytes};
ghost use Rattle.sector_disk.specs.Asked.{OnlyReads};
ghost use Rattle.sector_disk.specs.Disk.{seen};
ghost use Rattle.published_tiles.specs.Opened.{IsOpenedOf, IsOpenedUpTo};
ghost use Rattle.published_tiles.specs.Reading.{IsReadingOf, IsReadingUpTo, StaysOrNone};

use crate::opened::{Opened, find_in};
use crate::place::ArchivePlace;
use crate::tile_reading::{TileReading, read_part, read_rest};
use byte_source::Bytes;
use pm_archive::ArchiveFault;
use sector_bytes::SectorBytes;
use sector_disk::Sectors;
use std::alloc::Global;

/// The content of a tile id in the archive of a source.
fn content_in<B: Bytes>(
    alloc: Global,
    source: &mut B,
    archive: ArchivePlace,
    opened: &mut Option<Opened>,
    reading: &mut Option<TileReading>,
    id: u64,
) -> Result<Option<Vec<u8>>, ArchiveFault>
    requires { archive.len ≡ B.count source.old }
    ensures source { Keeps B.count B.holds B.unchanged source.old source.new }
    ensures still { (bytes : List ℕ) → B.holds source.new bytes → IsOpenedOf archive bytes opened.old → IsOpenedOf archive bytes opened.new }
    ensures up_to { (last : ℕ) → IsOpenedUpTo last opened.old → archive.generation ≤ last → IsOpenedUpTo last opened.new }
    ensures left { StaysOrNone reading.old reading.new }
    ensures content { (bytes : List ℕ) (content : ℕ → Option (List ℕ)) → B.holds source.new bytes → IsOpenedOf archive bytes opened.old
        → IsReadingOf archive bytes reading.old → HasContents bytes content
        → MatchResult result (λ found. option_map (λ v. v.items) found ≡ content id) IsOutside }
    ensures read { result ≡ Err ArchiveFault.Read → B.failed source.old source.new }
{
    match find_in(alloc, source, archive, opened, id) {
        Ok(Some(span)) => match read_rest(alloc, source, archive, reading, span) {
            Ok(bytes) => Ok(Some(bytes)),
            Err(fault) => Err(fault),
        },
        Ok(None) => Ok(None),
        Err(fault) => Err(fault),
    }
}

/// Reads the next part of the content of a tile id in the archive of a source, if it has more than one, and says whether parts are left. Without
/// `begins` the first part isn't read.
fn part_in<B: Bytes>(
    alloc: Global,
    source: &mut B,
    archive: ArchivePlace,
    opened: &mut Option<Opened>,
    reading: &mut Option<TileReading>,
    id: u64,
    begins: bool,
) -> Result<Option<bool>, ArchiveFault>
    requires { archive.len ≡ B.count source.old }
    ensures source { Keeps B.count B.holds B.unchanged source.old source.new }
    ensures still { (bytes : List ℕ) → B.holds source.new bytes → IsOpenedOf archive bytes opened.old → IsOpenedOf archive bytes opened.new }
    ensures up_to { (last : ℕ) → IsOpenedUpTo last opened.old → archive.generation ≤ last → IsOpenedUpTo last opened.new }
    ensures reading { (bytes : List ℕ) → B.holds source.new bytes → IsReadingOf archive bytes reading.old → IsReadingOf archive bytes reading.new }
    ensures reading_up_to { (last : ℕ) → IsReadingUpTo last reading.old → archive.generation ≤ last → IsReadingUpTo last reading.new }
    ensures read { result ≡ Err ArchiveFault.Read → B.failed source.old source.new }
{
    match find_in(alloc, source, archive, opened, id) {
        Ok(Some(span)) => read_part(alloc, source, archive, reading, span, begins),
        Ok(None) => Ok(None),
        Err(fault) => Err(fault),
    }
}

/// The content of a tile id of the archive on a disk.
pub(crate) fn read_tile<D: Sectors>(
    alloc: Global,
    disk: &mut D,
    archive: ArchivePlace,
    opened: &mut Option<Opened>,
    reading: &mut Option<TileReading>,
    id: u64,
) -> Result<Option<Vec<u8>>, ArchiveFault>
    requires on_disk { archive.first + sectors_of archive.len ≤ D.sectors disk.old }
    ensures disk { OnlyReads D.sectors D.honest D.history disk.old disk.new }
    ensures never_falls { NeverFalls (D.faults disk.old) (D.faults disk.new) }
    ensures still { (bytes : List ℕ) → D.honest disk.new → AreItsBytes archive.first archive.len bytes (seen (D.history disk.old))
        → IsOpenedOf archive bytes opened.old → IsOpenedOf archive bytes opened.new }
    ensures up_to { (last : ℕ) → IsOpenedUpTo last opened.old → archive.generation ≤ last → IsOpenedUpTo last opened.new }
    ensures left { StaysOrNone reading.old reading.new }
    ensures content { (bytes : List ℕ) (content : ℕ → Option (List ℕ)) → D.honest disk.new
        → AreItsBytes archive.first archive.len bytes (seen (D.history disk.old)) → IsOpenedOf archive bytes opened.old
        → IsReadingOf archive bytes reading.old → HasContents bytes content
        → MatchResult result (λ found. option_map (λ v. v.items) found ≡ content id) IsOutside }
    ensures read { result ≡ Err ArchiveFault.Read → HasRisen (D.faults disk.old) (D.faults disk.new) }
{
    let mut source = SectorBytes::new(disk, archive.first, archive.len);
    let content = content_in(alloc, &mut source, archive, opened, reading, id);
    let _disk = source.into_disk();
    content
}

/// Reads the next part of the content of a tile id of the archive on a disk, if it has more than one, and says whether parts are left. Without
/// `begins` the first part isn't read.
pub(crate) fn read_tile_part<D: Sectors>(
    alloc: Global,
    disk: &mut D,
    archive: ArchivePlace,
    opened: &mut Option<Opened>,
    reading: &mut Option<TileReading>,
    id: u64,
    begins: bool,
) -> Result<Option<bool>, ArchiveFault>
    requires on_disk { archive.first + sectors_of archive.len ≤ D.sectors disk.old }
    ensures disk { OnlyReads D.sectors D.honest D.history disk.old disk.new }
    ensures never_falls { NeverFalls (D.faults disk.old) (D.faults disk.new) }
    ensures still { (bytes : List ℕ) → D.honest disk.new → AreItsBytes archive.first archive.len bytes (seen (D.history disk.old))
        → IsOpenedOf archive bytes opened.old → IsOpenedOf archive bytes opened.new }
    ensures up_to { (last : ℕ) → IsOpenedUpTo last opened.old → archive.generation ≤ last → IsOpenedUpTo last opened.new }
    ensures reading { (bytes : List ℕ) → D.honest disk.new → AreItsBytes archive.first archive.len bytes (seen (D.history disk.old))
        → IsReadingOf archive bytes reading.old → IsReadingOf archive bytes reading.new }
    ensures reading_up_to { (last : ℕ) → IsReadingUpTo last reading.old → archive.generation ≤ last → IsReadingUpTo last reading.new }
    ensures read { result ≡ Err ArchiveFault.Read → HasRisen (D.faults disk.old) (D.faults disk.new) }
{
    let mut source = SectorBytes::new(disk, archive.first, archive.len);
    let parts_left = part_in(alloc, &mut source, archive, opened, reading, id, begins);
    let _disk = source.into_disk();
    parts_left
}
