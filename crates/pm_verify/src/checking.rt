//! Checks that the contents of tiles can be decoded.

ghost use Rattle.std.specs.Prelude.{◌≡◌, ◌≢◌, ◌↔◌, ℕ, List, false, Err, IfOk, IfErr, OnOk, OnErr, IsTrue};
ghost use Rattle.std.specs.List.{AllByRecursion};
ghost use Rattle.byte_source.specs.Source.{Keeps};
ghost use Rattle.pm_archive.specs.Entries.{LiesIn};
ghost use Rattle.pm_archive.specs.Answers.{UnlessOutside};
ghost use Rattle.pm_verify.specs.Verified.{IsTile, HasTile};
ghost use Rattle.pm_verify.specs.VerifiedPieces.{IsTileFault, IsFirstTileFault, AreRead};

use byte_source::Bytes;
use mvt_layer::TileFault;
use pm_archive::{Archive, ArchiveFault};
use pm_directory::DirectoryEntry;
use std::alloc::{AllocError, Global};
use std::collections::BTreeSet;

/// The meaning of a fault: the bytes aren't a tile, or memory ran out.
fn refused(fault: TileFault) -> Result<bool, AllocError>
    ensures memory { OnErr result (fault ≡ TileFault.Memory) }
    ensures other { IfOk result (λ is. (is ≡ false) × (fault ≢ TileFault.Memory)) }
{
    match fault {
        TileFault::Memory => Err(AllocError),
        _ => Ok(false),
    }
}

/// Whether the bytes are a vector tile.
pub(crate) fn is_tile(alloc: Global, content: &[u8]) -> Result<bool, AllocError>
    ensures { IfOk result (λ is. IsTrue is ↔ IsTile content.now) }
{
    match mvt_layer::check_tile(alloc, content) {
        Ok(()) => Ok(true),
        Err(fault) => refused(fault),
    }
}

/// Returns the fault unless the condition holds.
pub(crate) fn check_holds(is: bool, otherwise: ArchiveFault) -> Result<(), ArchiveFault>
    ensures holds { OnOk result (IsTrue is) }
    ensures fault { IfErr result (λ fault. (fault ≡ otherwise) × ¬ IsTrue is) }
{
    if is { Ok(()) } else { Err(otherwise) }
}

/// Decodes the tile of an entry.
#[tactic(auto, unfolding(pm_archive::specs::Reading::content_of_tile))]
fn check_tile<B: Bytes + Drop>(
    alloc: Global,
    archive: &mut Archive<B>,
    entry: DirectoryEntry,
) -> Result<(), ArchiveFault>
    ensures header { archive.new.header ≡ archive.old.header }
    ensures root { archive.new.root ≡ archive.old.root }
    ensures source { Keeps B.count B.holds B.unchanged archive.old.source archive.new.source }
    ensures tile { (bytes : List ℕ) → B.holds archive.new.source bytes → LiesIn archive.old.header.tiles entry
        → OnOk result (HasTile bytes archive.old.header entry) }
    ensures fault { (bytes : List ℕ) → B.holds archive.new.source bytes → LiesIn archive.old.header.tiles entry
        → IfErr result (UnlessOutside (IsTileFault bytes archive.old.header entry)) }
    ensures read { result ≡ Err ArchiveFault.Read → B.failed archive.old.source archive.new.source }
{
    let content = archive.content(entry)?;
    match is_tile(alloc, &content) {
        Ok(is) => check_holds(is, ArchiveFault::Tile(entry.id)),
        Err(_) => Err(ArchiveFault::Memory),
    }
}

/// Remembers where the bytes of an entry's tile are, and decodes them unless they were remembered before.
fn check_once<B: Bytes + Drop>(
    alloc: Global,
    archive: &mut Archive<B>,
    spans: &mut BTreeSet<(u64, u32)>,
    entry: DirectoryEntry,
) -> Result<(), ArchiveFault>
    ensures header { archive.new.header ≡ archive.old.header }
    ensures root { archive.new.root ≡ archive.old.root }
    ensures source { Keeps B.count B.holds B.unchanged archive.old.source archive.new.source }
    ensures tile { (bytes : List ℕ) → B.holds archive.new.source bytes → LiesIn archive.old.header.tiles entry
        → AreRead bytes archive.old.header spans.old → OnOk result (HasTile bytes archive.old.header entry) }
    ensures spans { (bytes : List ℕ) → B.holds archive.new.source bytes → LiesIn archive.old.header.tiles entry
        → AreRead bytes archive.old.header spans.old → OnOk result (AreRead bytes archive.old.header spans.new) }
    ensures fault { (bytes : List ℕ) → B.holds archive.new.source bytes → LiesIn archive.old.header.tiles entry
        → AreRead bytes archive.old.header spans.old → IfErr result (UnlessOutside (IsTileFault bytes archive.old.header entry)) }
    ensures read { result ≡ Err ArchiveFault.Read → B.failed archive.old.source archive.new.source }
{
    match spans.insert((entry.offset, entry.length)) {
        Ok(true) => check_tile(alloc, archive, entry),
        Ok(false) => Ok(()),
        Err(_) => Err(ArchiveFault::Memory),
    }
}

/// Decodes the tile of each entry, the same bytes once.
pub(crate) fn check_tiles<B: Bytes + Drop>(
    alloc: Global,
    archive: &mut Archive<B>,
    tiles: &[DirectoryEntry],
) -> Result<(), ArchiveFault>
    ensures header { archive.new.header ≡ archive.old.header }
    ensures root { archive.new.root ≡ archive.old.root }
    ensures source { Keeps B.count B.holds B.unchanged archive.old.source archive.new.source }
    ensures each { (bytes : List ℕ) → B.holds archive.new.source bytes → AllByRecursion (LiesIn archive.old.header.tiles) tiles.now
        → OnOk result (AllByRecursion (HasTile bytes archive.old.header) tiles.now) }
    ensures fault { (bytes : List ℕ) → B.holds archive.new.source bytes → AllByRecursion (LiesIn archive.old.header.tiles) tiles.now
        → IfErr result (UnlessOutside (IsFirstTileFault bytes archive.old.header tiles.now)) }
    ensures read { result ≡ Err ArchiveFault.Read → B.failed archive.old.source archive.new.source }
{
    let mut spans = BTreeSet::new(alloc);
    for entry in tiles {
        check_once(alloc, archive, &mut spans, *entry)?;
    }
    Ok(())
}
