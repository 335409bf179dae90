//! A publication as one call, and what is left of one.
ghost use Rattle.std.specs.Prelude.{◌≡◌, ◌≢◌, ◌⊎◌, false, IfErr, OnOk, OnErr, IsSome, None};
ghost use Rattle.sector_disk.specs.Asked.{MayWrite};
ghost use Rattle.tile_service.specs.Runs.{TakesPublication, TakesRest};
ghost use Rattle.tile_service.specs.Service.{KeepsArchive, KeepsArea, TellsDevice};
ghost use Rattle.tile_service.specs.declared.fault.ServiceFault.TheVariants.{Broken, Busy, Device};

use crate::fault::ServiceFault;
use crate::publishing::Publication;
use crate::service::Service;
use sector_disk::Sectors;

/// What was published.
#[derive(Clone, Copy, Debug)]
pub struct Published {
    /// The number of the generation.
    pub generation: u64,
    /// The number of the last edit in it.
    pub edits: u64,
    /// The archive's length in bytes.
    pub archive_len: u64,
}

impl Publication {
    /// The same, whose steps follow each other without a pause.
    fn without_pauses(self) -> Publication
        ensures { result ≡ self }
    {
        Publication {
            content: self.content,
            start: self.start,
            places: self.places,
            written: self.written,
            pauses: false,
        }
    }
}

impl<D: Sectors + Drop> Service<D> {
    /// Has the publication that is under way go on without a sync between its steps, since no edit comes before its end.
    fn go_on(&mut self)
        ensures { self.new ≡ self.old }
    {
        self.publication = self.publication.take().map(Publication::without_pauses);
    }

    /// Continues the publication that is under way to its end. What it writes is synced once, before the root.
    ///
    /// # Errors
    ///
    /// Those of `publish_step`. After `Device` the service is broken, and the publication is cancelled; any other changes nothing.
    pub fn publish_rest(&mut self) -> Result<Published, ServiceFault>
        ensures run { TakesRest D.sectors D.honest D.history self.old result self.new }
        ensures size { self.new.size ≡ self.old.size }
        ensures disk { MayWrite D.sectors D.honest self.old.disk self.new.disk }
        ensures failed { TellsDevice result (D.faults self.old.disk) (D.faults self.new.disk) }
        ensures idle { OnOk result (self.new.publication ≡ None) }
        ensures refused { IfErr result (λ fault. fault ≢ Device → self.new ≡ self.old) }
        // On failure the archive that it serves is unchanged, after `Device` too.
        ensures archive { OnErr result (KeepsArchive D.honest D.history self.old self.new) }
        // Whatever it returns, the area of the generation from before it is unchanged.
        ensures area { KeepsArea D.honest D.history self.old.generation self.old self.new }
        // Nothing but the disk prevents it, and then it is cancelled.
        ensures given_up { self.old.broken ≡ false → IsSome self.old.publication
            → IfErr result (λ fault. (fault ≡ Device) × (self.new.publication ≡ None)) }
    {
        self.go_on();
        let mut rest = match self.publish_step() {
            Ok(told) => told,
            Err(fault) => return Err(fault),
        };
        while rest > 0 {
            rest = match self.publish_step() {
                Ok(told) => told,
                Err(fault) => return Err(fault),
            };
        }
        Ok(Published {
            generation: self.root.generation,
            edits: self.journal.edits,
            archive_len: self.root.archive_len,
        })
    }

    /// Publishes the map: begins a publication, and continues it to its end. What it writes is synced once, before the root.
    ///
    /// # Errors
    ///
    /// Those of `publish_begin`, which change nothing, and `Device`, after which the service is broken.
    pub fn publish(&mut self) -> Result<Published, ServiceFault>
        ensures run { TakesPublication D.sectors D.honest D.history self.old result self.new }
        ensures size { self.new.size ≡ self.old.size }
        ensures disk { MayWrite D.sectors D.honest self.old.disk self.new.disk }
        ensures failed { TellsDevice result (D.faults self.old.disk) (D.faults self.new.disk) }
        ensures idle { OnOk result (self.new.publication ≡ None) }
        ensures refused { IfErr result (λ fault. fault ≢ Device → self.new ≡ self.old) }
        // On failure the archive that it serves is unchanged, after `Device` too.
        ensures archive { OnErr result (KeepsArchive D.honest D.history self.old self.new) }
        // Whatever it returns, the area of the generation from before it is unchanged.
        ensures area { KeepsArea D.honest D.history self.old.generation self.old self.new }
        ensures given_up { IfErr result (λ fault. (fault ≡ Broken) ⊎ (fault ≡ Busy) ⊎ (self.new.publication ≡ None)) }
    {
        let edits = self.journal.last;
        match self.publish_begin() {
            Ok(_) => {}
            Err(refusal) => return Err(refusal),
        }
        match self.publish_rest() {
            Ok(done) => Ok(Published {
                generation: done.generation,
                edits,
                archive_len: done.archive_len,
            }),
            Err(fault) => Err(fault),
        }
    }
}
