//! An archive in two sectors, over a disk that was lent.
ghost use Rattle.std.specs.Prelude.{◌≡◌, ◌≤◌, ◌+◌, ℕ, List, length, MatchResult, option_map};
ghost use Rattle.generations.specs.Areas.{sectors_of};
ghost use Rattle.pm_archive.specs.Answers.{IsOutside};
ghost use Rattle.pm_archive.specs.Archive.{content_of};
ghost use Rattle.pm_archive.specs.Entries.{HasEntries};
ghost use Rattle.pm_archive.specs.Sections.{HasSections};
ghost use Rattle.sector_bytes.specs.Bytes.{StandsIn};
ghost use Rattle.sector_disk.specs.Disk.{seen};

use super::disk_with;
use crate::wanted::same;
use pm_archive::{Archive, ArchiveFault};
use sector_bytes::SectorBytes;
use sector_disk::FailingCalls::AllFrom;
use sector_disk::Sectors;
use std::alloc::Global;

/// An archive of three tiles with one content, written by hand: after the header of 127 bytes its root directory of 9, metadata of
/// 366, of which 300 are spaces, and from byte 502 on the content of 21, so that a sector's border cuts it.
fn archive() -> [u8; 1536] {
    let mut bytes = [b' '; 1536];
    bytes[..136].copy_from_slice(
        b"PMTiles\x03\
        \x7f\0\0\0\0\0\0\0\x09\0\0\0\0\0\0\0\x88\0\0\0\0\0\0\0\x6e\x01\0\0\0\0\0\0\
        \xf6\x01\0\0\0\0\0\0\0\0\0\0\0\0\0\0\xf6\x01\0\0\0\0\0\0\x15\0\0\0\0\0\0\0\
        \x03\0\0\0\0\0\0\0\x02\0\0\0\0\0\0\0\x01\0\0\0\0\0\0\0\
        \x01\x01\x01\x01\0\x02\
        \0\0\0\0\0\0\0\0\0\0\0\0\0\0\0\0\0\0\0\0\0\0\0\0\0\
        \x02\0\x05\x02\x01\x15\x15\x01\x01",
    );
    bytes[136..202].copy_from_slice(
        b"{\"vector_layers\":[{\"fields\":{},\"id\":\"p\",\"maxzoom\":2,\"minzoom\":0}]}",
    );
    bytes[502..523].copy_from_slice(&CONTENT);
    bytes
}

/// A layer `p` with one point.
static CONTENT: [u8; 21] =
    *b"\x1a\x13\x0a\x01\x70\x12\x09\x08\x07\x18\x01\x22\x03\x09\0\0\x28\x80\x20\x78\x02";

/// Opens an archive of `len` bytes that begins in this sector, looks up the content of a tile id, and gives the disk back to its
/// owner, who knows that nothing was written to it and whose content this is.
fn look_up<D: Sectors>(
    alloc: Global,
    disk: &mut D,
    first: u64,
    len: u64,
    id: u64,
) -> Result<Option<Vec<u8>>, ArchiveFault>
    requires on_disk { first + sectors_of len ≤ D.sectors disk.old }
    ensures count { D.sectors disk.new ≡ D.sectors disk.old }
    ensures honest { D.honest disk.new → D.honest disk.old }
    ensures history { D.honest disk.new → D.history disk.new ≡ D.history disk.old }
    ensures content { (bytes : List ℕ) (h : _) (tiles : _) → D.honest disk.new → length bytes ≡ len
        → StandsIn first bytes (seen (D.history disk.old)) → HasSections bytes h → HasEntries bytes h tiles
        → MatchResult result (λ content. option_map (λ v. v.items) content ≡ content_of bytes h tiles id) IsOutside }
{
    let mut archive = match Archive::open(alloc, SectorBytes::new(disk, first, len)) {
        Ok(archive) => archive,
        Err((source, fault)) => {
            let _disk = source.into_disk();
            return Err(fault);
        }
    };
    let content = archive.tile(id);
    let _disk = archive.into_source().into_disk();
    content
}

/// Whether there is a content, and whether it is that of the archive.
type Found = Result<Option<bool>, ArchiveFault>;

fn found(content: Result<Option<Vec<u8>>, ArchiveFault>) -> Found {
    match content {
        Ok(Some(bytes)) => Ok(Some(bytes.as_slice() == CONTENT.as_slice())),
        Ok(None) => Ok(None),
        Err(fault) => Err(fault),
    }
}

/// A tile id, from which call on the disk fails, what is looked up, and how many calls there are.
type Row = (u64, u64, Found, u64);

/// The header, the root directory and the first bytes of the content are in the first sector, which is read once. Each of the two reads
/// fails in turn.
static ROWS: [Row; 6] = [
    (0, 100, Ok(Some(true)), 2),
    (1, 100, Ok(Some(true)), 2),
    (5, 100, Ok(Some(true)), 2),
    (2, 100, Ok(None), 1),
    (5, 1, Err(ArchiveFault::Read), 1),
    (5, 2, Err(ArchiveFault::Read), 2),
];

/// Whether that is so of a row.
fn is_so(alloc: Global, row: &Row) -> bool {
    let (id, failing, wanted, calls) = row;
    let Ok(mut disk) = disk_with(alloc, &archive(), AllFrom(*failing)) else {
        return false;
    };
    let content = found(look_up(alloc, &mut disk, 2, 523, *id));
    let made = disk.calls();
    drop(disk);
    content == *wanted && made == *calls
}

/// The index of the first row of which that isn't so, if there is one.
fn other_row(alloc: Global) -> Option<usize> {
    for (index, row) in ROWS.iter().enumerate() {
        if !is_so(alloc, row) {
            return Some(index);
        }
    }
    None
}

#[test]
fn tiles_of_an_archive(rt: HostRuntime) {
    same(&rt, &other_row(rt.alloc()), &None);
}
