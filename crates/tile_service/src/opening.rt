//! A service made from what a disk holds.
ghost use Rattle.std.specs.Prelude.{◌≡◌, ◌⊎◌, ◌≤◌, ◌+◌, ◌*◌, false, ℕ, List, length, take, None, IfErr, IfOk, OnOk, MatchResult};
ghost use Rattle.sector_disk.specs.Asked.{MayWrite, OnlyReads};
ghost use Rattle.sector_disk.specs.Disk.{seen};
ghost use Rattle.sector_disk.specs.Disk.History.{synced};
ghost use Rattle.sector_disk.specs.declared.disk.TheConstants.{SECTOR_BYTES};
ghost use Rattle.generations.specs.Areas.{area_sectors};
ghost use Rattle.generations.specs.Faults.{CountsDevice, TellsDevice};
ghost use Rattle.generations.specs.Sectors.{CanStand, IsVersion};
ghost use Rattle.generations.specs.declared.fault.StoreFault.TheVariants.{Device, Memory};
ghost use Rattle.edit_journal.specs.Appends.{ring_of};
ghost use Rattle.edit_journal.specs.Releases.{IsCounted};
ghost use Rattle.edit_journal.specs.declared.sizes.TheConstants.{PART_BYTES};
ghost use Rattle.cached_map.specs.Cached.{AreReadRight};
ghost use Rattle.feature_store.specs.Store.{snapshot};
ghost use Rattle.published_tiles.specs.Published.{ArePublished};
ghost use Rattle.published_tiles.specs.declared.place.ArchivePlace.{ArchivePlace};
ghost use Rattle.tile_service.specs.Headline.{WasStopped, HasSomeFirst};
ghost use Rattle.tile_service.specs.Machine.{Happening};
ghost use Rattle.tile_service.specs.Opening.{HasSnapshot, IsReplayed, IsRead, IsOpened, IsContentFault, IsOpenFault, HasNoOpenFault, HasLiveRoot};
ghost use Rattle.tile_service.specs.Opening.{recovery_told_as};
ghost use Rattle.tile_service.specs.Runs.{way_of};
ghost use Rattle.tile_service.specs.Service.{ServiceView, IsUp};
ghost use Rattle.tile_service.specs.Stored.{Stored, Holds, journal_ring};

use crate::replaying::replay;
use crate::service::Service;
use crate::snapshot_reading::read_snapshot;
use cached_map::CachedMap;
use edit_journal::{Journal, JournalFault, JournalPosition};
use feature_store::Store;
use generations::{JOURNAL_START, Layout, Root, StoreFault, What, read_root};
use published_tiles::PublishedTiles;
use sector_disk::{DiskFault, Sectors};
use std::alloc::{AllocError, Global};

/// Converts a recovery's fault, which is never `NumbersSpent` or `Full`.
fn to_store_fault(fault: JournalFault) -> StoreFault
    ensures { result ≡ recovery_told_as fault }
{
    match fault {
        JournalFault::Device => StoreFault::Device,
        JournalFault::Memory => StoreFault::Memory,
        JournalFault::NumbersSpent | JournalFault::Full { .. } | JournalFault::Damaged =>
            StoreFault::Damaged(What::Journal),
    }
}

/// What is read from a disk.
#[derive(Drop)]
struct Found {
    layout: Layout,
    version: u32,
    root: Root,
    journal: Journal,
    map: CachedMap,
    published: PublishedTiles,
}

/// Reads the journal that a root names, and applies its edits to the map of the root's snapshot.
fn read_edits<D: Sectors>(
    alloc: Global,
    disk: &mut D,
    layout: Layout,
    version: u32,
    root: Root,
    store: Store,
) -> Result<(Journal, CachedMap), StoreFault>
    requires within { layout.sectors ≤ D.sectors disk.old }
    requires version { IsVersion version }
    requires can { CanStand layout.sectors root }
    requires texts { length (snapshot store.features) ≤ SECTOR_BYTES * area_sectors layout.sectors }
    ensures disk { OnlyReads D.sectors D.honest D.history disk.old disk.new }
    ensures failed { TellsDevice result (D.faults disk.old) (D.faults disk.new) }
    ensures ring { IfOk result (λ found. ring_of found.0 ≡ journal_ring layout.sectors) }
    ensures texts { IfOk result (λ found.
        length (snapshot found.1.features) ≤ SECTOR_BYTES * area_sectors layout.sectors + PART_BYTES * found.0.used) }
    ensures counted { IfOk result (λ found. IsCounted found.0) }
    ensures last { IfOk result (λ found. found.1.last ≡ found.0.last) }
    ensures reads { IfOk result (λ found. AreReadRight found.1.features found.1.touched found.0.last found.1.kept) }
    ensures found { D.honest disk.new → HasSnapshot layout.sectors root store.features (seen (D.history disk.old))
        → IfOk result (λ found. IsReplayed layout.sectors version root (seen (D.history disk.old)) found.0 found.1.features found.1.touched) }
    ensures fault { D.honest disk.new → HasSnapshot layout.sectors root store.features (seen (D.history disk.old))
        → IfErr result (λ fault. (fault ≡ Device) ⊎ (fault ≡ Memory) ⊎ IsContentFault layout.sectors version root (seen (D.history disk.old)) fault) }
{
    let start = JournalPosition {
        place: root.journal_at,
        edits: root.edits,
    };
    let (journal, records) = match Journal::recover(
        alloc,
        disk,
        JOURNAL_START,
        layout.journal,
        start,
        version,
    ) {
        Ok(found) => found,
        Err(fault) => return Err(to_store_fault(fault)),
    };
    let mut map = match CachedMap::new(alloc, store, root.edits) {
        Ok(map) => map,
        Err(AllocError) => return Err(StoreFault::Memory),
    };
    match replay(alloc, &mut map, records) {
        Ok(()) => Ok((journal, map)),
        Err(fault) => {
            map.end();
            Err(fault)
        }
    }
}

/// Reads the snapshot and the journal that a root names, and the map after the journal's edits.
fn read_map<D: Sectors>(
    alloc: Global,
    disk: &mut D,
    layout: Layout,
    version: u32,
    root: Root,
) -> Result<(Journal, CachedMap), StoreFault>
    requires within { layout.sectors ≤ D.sectors disk.old }
    requires version { IsVersion version }
    requires can { CanStand layout.sectors root }
    ensures disk { OnlyReads D.sectors D.honest D.history disk.old disk.new }
    ensures failed { TellsDevice result (D.faults disk.old) (D.faults disk.new) }
    ensures ring { IfOk result (λ found. ring_of found.0 ≡ journal_ring layout.sectors) }
    ensures texts { IfOk result (λ found.
        length (snapshot found.1.features) ≤ SECTOR_BYTES * area_sectors layout.sectors + PART_BYTES * found.0.used) }
    ensures counted { IfOk result (λ found. IsCounted found.0) }
    ensures last { IfOk result (λ found. found.1.last ≡ found.0.last) }
    ensures reads { IfOk result (λ found. AreReadRight found.1.features found.1.touched found.0.last found.1.kept) }
    ensures found { D.honest disk.new
        → IfOk result (λ found. IsReplayed layout.sectors version root (seen (D.history disk.old)) found.0 found.1.features found.1.touched) }
    ensures fault { D.honest disk.new
        → IfErr result (λ fault. (fault ≡ Device) ⊎ (fault ≡ Memory) ⊎ IsContentFault layout.sectors version root (seen (D.history disk.old)) fault) }
{
    let store = match read_snapshot(alloc, disk, layout, root) {
        Ok(store) => store,
        Err(fault) => return Err(fault),
    };
    match read_edits(alloc, disk, layout, version, root, store) {
        Ok(found) => Ok(found),
        Err(fault) => Err(fault),
    }
}

/// Reads what a disk holds, after a sync.
fn load<D: Sectors>(alloc: Global, disk: &mut D) -> Result<Found, StoreFault>
    ensures disk { MayWrite D.sectors D.honest disk.old disk.new }
    ensures synced { D.honest disk.new → OnOk result (D.history disk.new ≡ synced (D.history disk.old)) }
    ensures written { D.honest disk.new → (D.history disk.new ≡ D.history disk.old) ⊎ (D.history disk.new ≡ synced (D.history disk.old)) }
    ensures failed { TellsDevice result (D.faults disk.old) (D.faults disk.new) }
    ensures within { IfOk result (λ found. found.layout.sectors ≤ D.sectors disk.new) }
    ensures version { IfOk result (λ found. IsVersion found.version) }
    ensures can { IfOk result (λ found. CanStand found.layout.sectors found.root) }
    ensures ring { IfOk result (λ found. ring_of found.journal ≡ journal_ring found.layout.sectors) }
    ensures texts { IfOk result (λ found.
        length (snapshot found.map.features) ≤ SECTOR_BYTES * area_sectors found.layout.sectors + PART_BYTES * found.journal.used) }
    ensures counted { IfOk result (λ found. IsCounted found.journal) }
    ensures last { IfOk result (λ found. found.map.last ≡ found.journal.last) }
    ensures reads { IfOk result (λ found. AreReadRight found.map.features found.map.touched found.journal.last found.map.kept) }
    ensures found { D.honest disk.new → IfOk result (λ found.
        IsRead (D.sectors disk.old) found.layout.sectors found.version (seen (D.history disk.old)) found.root found.journal
        found.map.features found.map.touched) }
    ensures published { IfOk result (λ found. (place : ArchivePlace) (bytes : List ℕ) → ArePublished found.published place bytes) }
    ensures fault { D.honest disk.new
        → IfErr result (λ fault. (fault ≡ Device) ⊎ (fault ≡ Memory) ⊎ IsOpenFault (D.sectors disk.old) (seen (D.history disk.old)) fault) }
    ensures memory { D.honest disk.new → IfErr result (λ fault. fault ≡ Memory → HasLiveRoot (D.sectors disk.old) (seen (D.history disk.old))) }
{
    match disk.sync() {
        Ok(()) => {}
        Err(DiskFault) => return Err(StoreFault::Device),
    }
    let generations::Found {
        layout,
        root,
        version,
    } = match read_root(disk) {
        Ok(found) => found,
        Err(fault) => return Err(fault),
    };
    let published = PublishedTiles::new(alloc);
    match read_map(alloc, disk, layout, version, root) {
        Ok((journal, map)) => Ok(Found {
            layout,
            version,
            root,
            journal,
            map,
            published,
        }),
        Err(fault) => Err(fault),
    }
}

impl<D: Sectors + Drop> Service<D> {
    /// Opens a disk: reads its live root, the map of its snapshot and the journal, replays the journal's edits, and then builds the index
    /// of the boxes, once for all features. It syncs and reads, and writes nothing. On error it returns the disk.
    ///
    /// # Errors
    ///
    /// `NotFormatted`, `Damaged` of `Size`, `RootSector`, `Snapshot`, `Journal` or `Text`, the first that is found in the order of
    /// reading; `Device`; and `Memory`, only after the first three, since nothing is allocated before the root is read.
    pub fn open(alloc: Global, disk: D) -> Result<Service<D>, (D, StoreFault)>
        ensures disk { MatchResult result (λ service. MayWrite D.sectors D.honest disk service.disk) (λ e. MayWrite D.sectors D.honest disk e.0) }
        ensures history { IfOk result (λ service. D.honest service.disk → D.history service.disk ≡ synced (D.history disk)) }
        ensures written { IfErr result (λ e. D.honest e.0 → (D.history e.0 ≡ D.history disk) ⊎ (D.history e.0 ≡ synced (D.history disk))) }
        ensures failed { MatchResult result (λ service. D.faults service.disk ≡ D.faults disk) (λ e. CountsDevice e.1 (D.faults disk) (D.faults e.0)) }
        ensures unbroken { IfOk result (λ service. service.broken ≡ false) }
        ensures idle { IfOk result (λ service. service.publication ≡ None) }
        ensures undrafted { IfOk result (λ service. service.drafting ≡ None) }

        // A disk opens only without a fault, to what it holds.
        ensures read { IfOk result (λ service. D.honest service.disk → IsOpened (D.sectors disk) (seen (D.history disk)) service) }
        ensures sound { IfOk result (λ service. D.honest service.disk → HasNoOpenFault (D.sectors disk) (seen (D.history disk))) }
        ensures fault { IfErr result (λ e. D.honest e.0
            → (e.1 ≡ Device) ⊎ (e.1 ≡ Memory) ⊎ IsOpenFault (D.sectors disk) (seen (D.history disk)) e.1) }
        ensures memory { IfErr result (λ e. D.honest e.0 → e.1 ≡ Memory → HasLiveRoot (D.sectors disk) (seen (D.history disk))) }

        // A disk that holds a state opens to it; only a call of the disk or an allocation can fail.
        ensures opened { (n : ℕ) (stored : Stored) → Holds (D.sectors disk) n stored (seen (D.history disk))
            → IfOk result (λ service. D.honest service.disk → (service.size ≡ n) × IsUp (D.sectors service.disk) (D.history service.disk) stored service) }
        ensures refused { (n : ℕ) (stored : Stored) → Holds (D.sectors disk) n stored (seen (D.history disk))
            → IfErr result (λ e. D.honest e.0 → (e.1 ≡ Device) ⊎ (e.1 ≡ Memory)) }

        // The headline. A disk that a run left, stopped at any moment, opens to a service of the map after some first edits of the run, every
        // acknowledged edit among them; and its archive is that of the map after its own first edits. Only a call of the disk or an allocation
        // can fail.
        ensures headline { (start : Stored) (old new : ServiceView D) (happenings : List Happening) (k m : ℕ)
            → WasStopped D.sectors D.honest D.history start old happenings new k m disk
            → IfOk result (λ service. D.honest service.disk → HasSomeFirst (D.sectors service.disk) (D.history service.disk) start
            (way_of start.edits old.publication) (take m happenings) k service) }
        ensures no_other_fault { (start : Stored) (old new : ServiceView D) (happenings : List Happening) (k m : ℕ)
            → WasStopped D.sectors D.honest D.history start old happenings new k m disk
            → IfErr result (λ e. D.honest e.0 → (e.1 ≡ Device) ⊎ (e.1 ≡ Memory)) }
    {
        let mut disk = disk;
        match load(alloc, &mut disk) {
            Ok(found) => Ok(Service {
                alloc,
                disk,
                layout: found.layout,
                version: found.version,
                journal: found.journal,
                kept_journal: found.journal,
                map: found.map,
                metadata: None,
                root: found.root,
                publication: None,
                draft: None,
                moment: None,
                spent: None,
                published: found.published,
                broken: false,
            }),
            Err(fault) => Err((disk, fault)),
        }
    }
}
