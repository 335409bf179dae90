//! Runs of events.
ghost use Rattle.std.specs.Prelude.{◌≡◌, true, false, List, IfErr, IfOk};
ghost use Rattle.std.specs.List.{Contains};
ghost use Rattle.sector_bytes.specs.Counts.{HasRisen, NeverFalls};
ghost use Rattle.sector_disk.specs.Asked.{MayWrite};
ghost use Rattle.sector_disk.specs.Disk.{HasFailed};
ghost use Rattle.feature_store.specs.Store.{feature_at};
ghost use Rattle.tile_service.specs.Events.{Tells, AreTold, IsTile, AsksTile, edit_answer, left_answer};
ghost use Rattle.tile_service.specs.Machine.{OrMemory, Happening, look, IfTold};
ghost use Rattle.tile_service.specs.Runs.{Takes, TakesAll, TakesRun, TakesStates};
ghost use Rattle.tile_service.specs.declared.event.Answer.TheVariants.{Refused};
ghost use Rattle.tile_service.specs.declared.event.Event.TheVariants as events;
ghost use Rattle.tile_service.specs.declared.fault.ServiceFault.TheVariants.{Memory, Device};

use crate::event::{Answer, Event};
use crate::fault::ServiceFault;
use crate::service::Service;
use edit_text::to_feature;
use sector_disk::Sectors;
use std::alloc::AllocError;

/// The answer to an edit.
fn edited(outcome: Result<u64, ServiceFault>) -> Answer
    ensures { result ≡ edit_answer outcome }
{
    match outcome {
        Ok(number) => Answer::Edited(number),
        Err(fault) => Answer::Refused(fault),
    }
}

/// The answer to the beginning or a step of a publication.
fn left(outcome: Result<u64, ServiceFault>) -> Answer
    ensures { result ≡ left_answer outcome }
{
    match outcome {
        Ok(told) => Answer::Left(told),
        Err(fault) => Answer::Refused(fault),
    }
}

impl<D: Sectors + Drop> Service<D> {
    /// The answer with the feature of an id.
    fn look(&self, id: u64) -> Answer
        ensures { (outcome : OrMemory _) × Tells self.now.version (events.Look id) result (look id outcome)
            × IfTold outcome (λ f. f ≡ feature_at self.now.features id) }
    {
        match self.feature(id) {
            None => Answer::Look(None),
            Some(feature) => match to_feature(self.alloc, feature) {
                Ok(copy) => Answer::Look(Some(copy)),
                Err(AllocError) => Answer::Refused(ServiceFault::Memory),
            },
        }
    }

    /// Answers one event.
    fn answer(&mut self, event: Event) -> Answer
        ensures takes { (happening : Happening) × Tells self.old.version event result happening
            × Takes D.sectors D.honest D.history self.old happening self.new }
        ensures never_falls { NeverFalls (D.faults self.old.disk) (D.faults self.new.disk) }
        ensures device { result ≡ Refused Device → HasRisen (D.faults self.old.disk) (D.faults self.new.disk) }
        ensures faults { ¬ IsTile event → self.new.broken ≡ false → D.faults self.new.disk ≡ D.faults self.old.disk }
        ensures failed { self.old.broken ≡ false → self.new.broken ≡ true → HasFailed (D.faults self.old.disk) (D.faults self.new.disk) }
    {
        match event {
            Event::Put { id, feature } => edited(self.put(id, feature)),
            Event::Delete { id } => edited(self.delete(id)),
            Event::Batch { changes } => edited(self.batch(changes)),
            Event::Tile { at } => match self.tile(at) {
                Ok(content) => Answer::Tile(content),
                Err(fault) => Answer::Refused(fault),
            },
            Event::Look { id } => self.look(id),
            Event::Begin => left(self.publish_begin()),
            Event::Step => left(self.publish_step()),
            Event::Cancel => match self.publish_cancel() {
                Ok(()) => Answer::Cancelled,
                Err(fault) => Answer::Refused(fault),
            },
        }
    }

    /// Answers events in order. `Memory` is the only error, returned before the first event with nothing changed.
    pub fn run(&mut self, events: Vec<Event>) -> Result<Vec<Answer>, ServiceFault>
        ensures run { IfOk result (λ answers.
            (happenings : List Happening) × AreTold self.old.version events.items answers.items happenings
            × TakesAll D.sectors D.honest D.history self.old happenings self.new
            × TakesRun D.sectors D.honest D.history self.old happenings self.new
            × TakesStates D.sectors D.honest D.history self.old happenings self.new) }
        ensures memory { IfErr result (λ fault. (fault ≡ Memory) × (self.new ≡ self.old)) }
        ensures size { self.new.size ≡ self.old.size }
        ensures version { self.new.version ≡ self.old.version }
        ensures disk { MayWrite D.sectors D.honest self.old.disk self.new.disk }
        ensures untouched { self.old.broken ≡ true → self.new.disk ≡ self.old.disk }

        // `Device` is answered, and the service breaks, only where a call of the disk failed.
        ensures never_falls { NeverFalls (D.faults self.old.disk) (D.faults self.new.disk) }
        ensures device { IfOk result (λ answers.
            Contains answers.items (Refused Device) → HasRisen (D.faults self.old.disk) (D.faults self.new.disk)) }
        ensures broke { self.old.broken ≡ false → self.new.broken ≡ true → HasRisen (D.faults self.old.disk) (D.faults self.new.disk) }

        // If a read for a tile fails, the tile is generated from the map. In a run without tiles a failed disk call breaks the service.
        ensures faults { ¬ AsksTile events.items → self.new.broken ≡ false → D.faults self.new.disk ≡ D.faults self.old.disk }
        ensures failed { ¬ AsksTile events.items → self.old.broken ≡ false → self.new.broken ≡ true
            → HasFailed (D.faults self.old.disk) (D.faults self.new.disk) }
    {
        let mut answers = match Vec::with_capacity(self.alloc, events.len()) {
            Ok(answers) => answers,
            Err(AllocError) => return Err(ServiceFault::Memory),
        };
        for event in events {
            let answer = self.answer(event);
            answers.push(answer).unwrap();
        }
        Ok(answers)
    }
}
