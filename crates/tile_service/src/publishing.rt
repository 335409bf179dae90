//! Publications: the snapshot of the map and the archive of its tiles, written by steps into the area of the next generation.
ghost use Rattle.std.specs.Prelude.{◌≡◌, ◌≢◌, ◌⊎◌, ◌<◌, ◌≤◌, ◌+◌, ◌^◌, ℕ, false, true, None, Some, Ok, IfOk, IfErr, OnOk, OnErr};
ghost use Rattle.std.proofs.Common.{suc};
ghost use Rattle.sector_disk.specs.Asked.{MayWrite, TellsFailure};
ghost use Rattle.sector_disk.specs.Disk.{moment, seen};
ghost use Rattle.sector_disk.specs.Moments.{LeavesOnly};
ghost use Rattle.feature_store.specs.Store.{IsMap, snapshot};
ghost use Rattle.area_content.specs.Content.{sectors_taken};
ghost use Rattle.tile_service.specs.Publishing.{HasFirst, HasNoContent, IsBeside, told_content};
ghost use Rattle.tile_service.specs.Machine.{begin, step, IsPublishable, AnswersBegin, AnswersStep, AnswersCancel, after_install};
ghost use Rattle.tile_service.specs.Service.{IsGoing, with_publication, going_of, known_installed, installed, KeepsDraft, KeepsArchive, KeepsEdits, KeepsArea};
ghost use Rattle.tile_service.specs.Service.{Known, IsUp, state_of, known_after, EventLeaves, stored_after, TellsDevice};
ghost use Rattle.tile_service.specs.Stored.{Stored, Holds, Keeps};
ghost use Rattle.tile_service.specs.declared.fault.ServiceFault.TheVariants.{Device};

use crate::fault::ServiceFault;
use crate::letting_go::{let_go, let_spent_go};
use crate::service::Service;
use area_content::{AreaContent, ContentFault, SpentContent, content_of};
use edit_journal::JournalPosition;
use feature_store::Store;
use generations::{Layout, Root, install, write_area};
use map_metadata::metadata_text;
use sector_disk::{DiskFault, Sectors};
use std::alloc::{AllocError, Global};
use std::marker::Model;

/// How many sectors a step of a publication writes at most, beside the root.
pub const STEP_SECTORS: u64 = 64;

/// After how many sectors what the steps of a publication wrote is synced: so much at most does the sync of an edit write beside the edit.
const SYNC_SECTORS: u64 = 512;

/// A publication under way.
#[derive(Drop)]
pub(crate) struct Publication {
    /// The snapshot and the archive of the map when it began.
    pub(crate) content: AreaContent,
    /// Where the journal continued when it began.
    pub(crate) start: JournalPosition,
    /// How many of its places were in use then.
    pub(crate) places: u64,
    /// How many sectors of the content are written.
    pub(crate) written: u64,
    /// Whether steps sync what they wrote, since an edit may come before the next.
    pub(crate) pauses: bool,
}

impl Model for Publication {
    ghost use Rattle.tile_service.specs.Service.{PublicationView};

    ghost Value = { PublicationView };

    ghost use Rattle.tile_service.specs.Inside.{publication_view};

    ghost view = { publication_view };
}

/// Converts the fault of `content_of`.
pub(crate) fn to_service_fault(fault: ContentFault) -> ServiceFault
    ensures { result ≡ told_content fault }
{
    match fault {
        ContentFault::TooManyTiles => ServiceFault::TooManyTiles,
        ContentFault::AreaFull { need, free } => ServiceFault::AreaFull { need, free },
        ContentFault::Memory => ServiceFault::Memory,
    }
}

/// The snapshot and the archive of a map, for an area of `area` sectors.
fn content_for(alloc: Global, store: &Store, area: u64) -> Result<AreaContent, ServiceFault>
    requires { area < 2 ^ 23 }
    ensures map { IsMap store.now.features }
    ensures snapshot { IfOk result (λ c. c.snapshot ≡ snapshot store.now.features) }
    ensures archive { IfOk result (λ c. IsPublishable store.now.features c.archive) }
    ensures fits { IfOk result (λ c. sectors_taken c ≤ area) }
    ensures fault { IfErr result (HasNoContent store.now.features area) }
{
    // The contract of `len` states that the features are a map.
    let _count = store.len();
    let metadata = match metadata_text(alloc, store) {
        Ok(text) => text,
        Err(AllocError) => return Err(ServiceFault::Memory),
    };
    match content_of(alloc, store, metadata.as_bytes(), area) {
        Ok(content) => Ok(content),
        Err(fault) => Err(to_service_fault(fault)),
    }
}

/// Writes the sectors `from..to` of the content into the area of a generation. If a pause follows, and they aren't the last, it syncs after each
/// `SYNC_SECTORS` sectors, so that the sync of an edit before the next step doesn't write more of them.
fn write_sectors<D: Sectors>(
    disk: &mut D,
    layout: Layout,
    generation: u64,
    content: &AreaContent,
    from: u64,
    to: u64,
    pauses: bool,
) -> Result<(), DiskFault>
    requires order { from ≤ to }
    requires within { to ≤ sectors_taken content.now }
    requires area { sectors_taken content.now ≤ layout.area }
    requires on_disk { layout.sectors ≤ D.sectors disk.old }
    ensures disk { MayWrite D.sectors D.honest disk.old disk.new }
    ensures failed { TellsFailure result (D.faults disk.old) (D.faults disk.new) }
    ensures steps { D.honest disk.new → moment (D.history disk.new) + from ≤ moment (D.history disk.old) + to + 1 }
    ensures last { to ≡ sectors_taken content.now → D.honest disk.new
        → moment (D.history disk.new) + from ≤ moment (D.history disk.old) + to }

    // The stored state, one generation older, is unchanged.
    ensures leaves { (stored : Stored) → D.honest disk.new → generation ≡ suc stored.generation
        → Keeps (D.sectors disk.old) layout.sectors stored (D.history disk.old)
        → LeavesOnly (D.history disk.old) (D.history disk.new) (Holds (D.sectors disk.old) layout.sectors stored) }
    ensures keeps { (stored : Stored) → D.honest disk.new → generation ≡ suc stored.generation
        → Keeps (D.sectors disk.old) layout.sectors stored (D.history disk.old)
        → Keeps (D.sectors disk.old) layout.sectors stored (D.history disk.new) }

    // On success and on error, reads outside of that area are unchanged.
    ensures beside { D.honest disk.new → IsBeside layout.sectors generation (seen (D.history disk.old)) (seen (D.history disk.new)) }

    // If the sectors before `from` are written, so are now those before `to`.
    ensures first { D.honest disk.new
        → HasFirst layout.sectors generation content.now.snapshot content.now.archive from (seen (D.history disk.old))
        → OnOk result (HasFirst layout.sectors generation content.now.snapshot content.now.archive to (seen (D.history disk.new))) }
{
    for index in from..to {
        write_area(disk, layout, generation, index, &content.sector(index))?;
    }
    if pauses && to < content.sectors() && to.is_multiple_of(SYNC_SECTORS) {
        disk.sync()?;
    }
    Ok(())
}

impl<D: Sectors + Drop> Service<D> {
    /// Makes a publication whose sectors are all written the live generation.
    fn install_now(&mut self, publication: Publication) -> Result<u64, ServiceFault>
        requires none { self.old.publication ≡ None }
        requires unbroken { self.old.broken ≡ false }
        requires going { (root : Root) × (root.generation ≡ self.old.generation)
            × IsGoing self.old.size root self.old.journal self.old.features publication }
        requires written { publication.written ≡ sectors_taken publication.content }
        ensures told { IfOk result (λ told. told ≡ 0) }
        ensures fault { IfErr result (λ fault. fault ≡ Device) }
        ensures broken { OnErr result (self.new ≡ record self.old { disk = self.new.disk; broken = true }) }
        ensures size { self.new.size ≡ self.old.size }
        ensures touched { self.new.touched ≡ self.old.touched }
        ensures drafting { KeepsDraft self.old.drafting self.new.drafting }
        ensures state { (known : Known) → OnOk result (state_of (known_installed known (Some publication)) self.new
            ≡ after_install (state_of known (with_publication self.old publication)) (going_of known.publishing publication)) }
        ensures disk { MayWrite D.sectors D.honest self.old.disk self.new.disk }
        ensures failed { TellsFailure result (D.faults self.old.disk) (D.faults self.new.disk) }
        ensures archive { OnErr result (KeepsArchive D.honest D.history self.old self.new) }
        ensures edits { (OnOk result ((stored : Stored)
            × IsUp (D.sectors self.old.disk) (D.history self.old.disk) stored (with_publication self.old publication)))
            → KeepsEdits D.honest D.history self.old self.new }
        ensures area { (generation : ℕ) → KeepsArea D.honest D.history generation self.old self.new }
        ensures steps { D.honest self.new.disk → moment (D.history self.new.disk) ≤ moment (D.history self.old.disk) + 3 }
        ensures any_moment { (stored : Stored) → D.honest self.new.disk
            → IsUp (D.sectors self.old.disk) (D.history self.old.disk) stored (with_publication self.old publication)
            → LeavesOnly (D.history self.old.disk) (D.history self.new.disk) (λ image. Holds (D.sectors self.old.disk) self.old.size stored image
            ⊎ Holds (D.sectors self.old.disk) self.old.size (installed self.old.size stored (Some publication)) image) }
        ensures after { (stored : Stored) → D.honest self.new.disk
            → IsUp (D.sectors self.old.disk) (D.history self.old.disk) stored (with_publication self.old publication)
            → OnOk result
            (IsUp (D.sectors self.new.disk) (D.history self.new.disk) (installed self.old.size stored (Some publication)) self.new) }
    {
        let root = Root {
            generation: self.root.generation + 1,
            edits: publication.start.edits,
            journal_at: publication.start.place,
            snapshot_len: publication.content.snapshot_len(),
            archive_len: publication.content.archive_len(),
        };
        let_spent_go(self.spent.replace(publication.content.into_spent()));
        match install(&mut self.disk, root) {
            Ok(()) => {
                self.journal.release(publication.start);
                self.root = root;
                let draft = self.draft.take();
                let moment = self.moment.take();
                let_go(draft, moment);
                Ok(0)
            }
            Err(DiskFault) => {
                self.broken = true;
                Err(ServiceFault::Device)
            }
        }
    }

    /// Continues a publication, taken out of the service, by a step.
    fn advance(&mut self, publication: Publication) -> Result<u64, ServiceFault>
        requires none { self.old.publication ≡ None }
        requires unbroken { self.old.broken ≡ false }
        requires going { (root : Root) × (root.generation ≡ self.old.generation)
            × IsGoing self.old.size root self.old.journal self.old.features publication }
        ensures machine { (known : Known) → AnswersStep (state_of known (with_publication self.old publication)) result
            (state_of (known_after known (with_publication self.old publication) (step result)) self.new) }
        ensures fault { IfErr result (λ fault. fault ≡ Device) }
        ensures size { self.new.size ≡ self.old.size }
        ensures touched { self.new.touched ≡ self.old.touched }
        ensures drafting { KeepsDraft self.old.drafting self.new.drafting }
        ensures disk { MayWrite D.sectors D.honest self.old.disk self.new.disk }
        ensures failed { TellsFailure result (D.faults self.old.disk) (D.faults self.new.disk) }
        ensures archive { (result ≡ Ok 0 → ⊥) → KeepsArchive D.honest D.history self.old self.new }
        ensures edits { (result ≡ Ok 0 → (stored : Stored)
            × IsUp (D.sectors self.old.disk) (D.history self.old.disk) stored (with_publication self.old publication))
            → KeepsEdits D.honest D.history self.old self.new }
        ensures area { KeepsArea D.honest D.history self.old.generation self.old self.new }
        ensures steps { D.honest self.new.disk → moment (D.history self.new.disk) ≤ moment (D.history self.old.disk) + 67 }
        ensures any_moment { (stored : Stored) → D.honest self.new.disk
            → IsUp (D.sectors self.old.disk) (D.history self.old.disk) stored (with_publication self.old publication)
            → LeavesOnly (D.history self.old.disk) (D.history self.new.disk)
            (EventLeaves (D.sectors self.old.disk) self.old.size stored (Some publication) (step result)) }
        ensures after { (stored : Stored) → D.honest self.new.disk
            → IsUp (D.sectors self.old.disk) (D.history self.old.disk) stored (with_publication self.old publication)
            → OnOk result (IsUp (D.sectors self.new.disk) (D.history self.new.disk)
            (stored_after self.old.size stored (Some publication) (step result)) self.new) }
    {
        let left = publication.content.sectors() - publication.written;
        let more = left.min(STEP_SECTORS);
        let written = publication.written + more;
        match write_sectors(
            &mut self.disk,
            self.layout,
            self.root.generation + 1,
            &publication.content,
            publication.written,
            written,
            publication.pauses,
        ) {
            Ok(()) => {}
            Err(DiskFault) => {
                self.broken = true;
                return Err(ServiceFault::Device);
            }
        }
        let publication = Publication {
            content: publication.content,
            start: publication.start,
            places: publication.places,
            written,
            pauses: publication.pauses,
        };
        if left <= STEP_SECTORS {
            return self.install_now(publication);
        }
        let rest = publication.content.left(written);
        self.publication = Some(publication);
        Ok(rest + 1)
    }

    /// Begins a publication: builds the snapshot of the map and the archive of its tiles in memory, and returns how many sectors they
    /// take, and 1 more for the root. Nothing is written yet. Edits continue meanwhile: the map of this moment is published.
    ///
    /// # Errors
    ///
    /// `Broken`, `Busy` if a publication is under way, `NumbersSpent` after the last generation, the first that applies in this order;
    /// `Memory`; or else what the first tile, by its id, gives that has 2^32 bytes or more, `AreaFull` with its number of sectors as
    /// `need`, or with which the tiles need more entries than an archive takes, `TooManyTiles`; or else `AreaFull` if snapshot and archive
    /// of all tiles take more sectors than the area has: `need` is how many. On error nothing changes.
    pub fn publish_begin(&mut self) -> Result<u64, ServiceFault>
        ensures machine { (known : Known) → AnswersBegin (state_of known self.old) result
            (state_of (known_after known self.old (begin result)) self.new) }
        ensures same { self.new ≡ record self.old { publication = self.new.publication } }
        ensures refused { OnErr result (self.new ≡ self.old) }
        ensures up { (stored : Stored) → IsUp (D.sectors self.old.disk) (D.history self.old.disk) stored self.old
            → IsUp (D.sectors self.new.disk) (D.history self.new.disk) stored self.new }
    {
        if self.broken {
            return Err(ServiceFault::Broken);
        }
        if self.publication.is_some() {
            return Err(ServiceFault::Busy);
        }
        if self.root.generation == u64::MAX {
            return Err(ServiceFault::NumbersSpent);
        }
        self.spent = None;
        match content_for(self.alloc, self.map.store(), self.layout.area) {
            Ok(content) => {
                let left = content.sectors() + 1;
                let (start, places) = self.journal.begin();
                self.publication = Some(Publication {
                    content,
                    start,
                    places,
                    written: 0,
                    pauses: true,
                });
                Ok(left)
            }
            Err(fault) => Err(fault),
        }
    }

    /// Continues the publication: writes its next `STEP_SECTORS` sectors, or the rest. Once all are written, it makes the publication
    /// the live generation and reclaims the journal places of its edits. Returns how much is left, 0 once it is live. It doesn't
    /// allocate.
    ///
    /// # Errors
    ///
    /// `Broken`, `Idle` if no publication is under way, `Device`, the first that applies in this order. After `Device` the service is
    /// broken, and the publication is cancelled.
    pub fn publish_step(&mut self) -> Result<u64, ServiceFault>
        ensures machine { (known : Known) → AnswersStep (state_of known self.old) result
            (state_of (known_after known self.old (step result)) self.new) }
        ensures size { self.new.size ≡ self.old.size }
        ensures touched { self.new.touched ≡ self.old.touched }
        ensures drafting { KeepsDraft self.old.drafting self.new.drafting }
        ensures disk { MayWrite D.sectors D.honest self.old.disk self.new.disk }
        ensures failed { TellsDevice result (D.faults self.old.disk) (D.faults self.new.disk) }
        ensures refused { IfErr result (λ fault. fault ≢ Device → self.new ≡ self.old) }

        // Unless it returns 0, the archive that it serves is unchanged, after `Device` too.
        ensures archive { (result ≡ Ok 0 → ⊥) → KeepsArchive D.honest D.history self.old self.new }

        // Whatever it returns, it shows the edits that it showed: an installation frees the places of published ones, and they stay there.
        ensures edits { (result ≡ Ok 0 → (stored : Stored) × IsUp (D.sectors self.old.disk) (D.history self.old.disk) stored self.old)
            → KeepsEdits D.honest D.history self.old self.new }

        // Whatever it returns, the area of the generation from before it is unchanged: once another is installed, the archive from before
        // can be read until the next step.
        ensures area { KeepsArea D.honest D.history self.old.generation self.old self.new }

        // It makes at most 64 writes and a sync. The last step makes those writes, and to install two syncs and a write.
        ensures steps { D.honest self.new.disk → moment (D.history self.new.disk) ≤ moment (D.history self.old.disk) + 67 }

        // A crash during the call leaves what was stored, or in the last step what it installs.
        ensures any_moment { (stored : Stored) → D.honest self.new.disk → IsUp (D.sectors self.old.disk) (D.history self.old.disk) stored self.old
            → LeavesOnly (D.history self.old.disk) (D.history self.new.disk)
            (EventLeaves (D.sectors self.old.disk) self.old.size stored self.old.publication (step result)) }
        // After the call: what it installs if it returns 0, else what was stored.
        ensures after { (stored : Stored) → D.honest self.new.disk → IsUp (D.sectors self.old.disk) (D.history self.old.disk) stored self.old
            → OnOk result (IsUp (D.sectors self.new.disk) (D.history self.new.disk)
            (stored_after self.old.size stored self.old.publication (step result)) self.new) }
    {
        if self.broken {
            return Err(ServiceFault::Broken);
        }
        match self.publication.take() {
            None => Err(ServiceFault::Idle),
            Some(publication) => self.advance(publication),
        }
    }

    /// Cancels the publication that is under way. It allocates nothing and writes nothing.
    ///
    /// # Errors
    ///
    /// `Broken`, `Idle` if no publication is under way. Nothing changes then.
    pub fn publish_cancel(&mut self) -> Result<(), ServiceFault>
        ensures machine { (known : Known) → AnswersCancel (state_of known self.old) result (state_of known self.new) }
        ensures same { self.new ≡ record self.old { publication = self.new.publication } }
        ensures refused { OnErr result (self.new ≡ self.old) }
        ensures up { (stored : Stored) → IsUp (D.sectors self.old.disk) (D.history self.old.disk) stored self.old
            → IsUp (D.sectors self.new.disk) (D.history self.new.disk) stored self.new }
    {
        if self.broken {
            return Err(ServiceFault::Broken);
        }
        if self.publication.is_none() {
            return Err(ServiceFault::Idle);
        }
        self.publication = None;
        Ok(())
    }

    /// Gives back a part of the memory that the content of the last publication had, if some of it is left. The kernel takes time for each page,
    /// so no call gives back all of it.
    pub fn let_go(&mut self)
        ensures { self.new ≡ self.old }
    {
        if self.spent.is_some() {
            self.spent = self.spent.take().and_then(SpentContent::shrunk);
        }
    }
}
