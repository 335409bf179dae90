//! Requests to edit features.
ghost use Rattle.std.specs.Prelude.{◌≡◌, true, IfOk};
ghost use Rattle.feature_store.specs.Store.{feature_at};
ghost use Rattle.http_serve.specs.Reply.{IsWhole};
ghost use Rattle.map_replies.specs.declared.conditions.Needed.{Needed};
ghost use Rattle.map_replies.specs.Conditions.{meets};
ghost use Rattle.map_replies.specs.Meanings.{MeansPut, MeansBatch, MeansDelete, Answers, DiskFailed};
ghost use Rattle.map_replies.specs.Sending.{IsAnswered};
ghost use Rattle.map_replies.specs.Tickets.{KeepsTickets};

use crate::bodies::{changes_in, feature_in};
use crate::calls::Calls;
use crate::conditions::Needed;
use crate::fault::RequestFault;
use crate::replies;
use http_serve::Reply;
use sector_disk::Sectors;

impl<D: Sectors + Drop> Calls<D> {
    /// Whether the feature of an id is as conditions want it.
    pub(crate) fn meets(&self, id: u64, needed: Needed) -> bool
        ensures { result ≡ meets needed (feature_at self.now.service.features id) }
    {
        match needed {
            Needed::Free => true,
            Needed::There => self.service.feature(id).is_some(),
            Needed::Absent => self.service.feature(id).is_none(),
            Needed::Unmet => false,
        }
    }

    /// Sets the feature of an id to the one in the body, if the one that is there is as the conditions want it.
    #[tactic(auto, using(crate::proofs::Answering::body_refused))]
    pub(crate) fn put(
        &mut self,
        id: u64,
        needed: Needed,
        body: &[u8],
    ) -> Result<Reply, RequestFault>
        ensures answered { IsAnswered (Answers D.sectors D.honest D.history
            (MeansPut (DiskFailed D.faults self.old.service self.new.service) self.old.service.version needed id body.now)
            self.old.service self.new.service) result }
        ensures writable { IfOk result IsWhole }
        ensures held { KeepsTickets D.honest D.history self.old self.new }
        ensures oldest { self.new.oldest ≡ self.old.oldest }
    {
        let feature = match feature_in(self.alloc, body) {
            Ok(feature) => feature,
            Err(fault) => return Err(fault),
        };
        let Ok(text) = replies::outcome_space(self.alloc) else {
            return Err(RequestFault::Memory);
        };
        if !self.meets(id, needed) {
            return Err(RequestFault::Condition);
        }
        let outcome = self.service.put(id, feature);
        Ok(replies::outcome(text, outcome))
    }

    /// Makes the changes in the body as one edit, all of them or none.
    #[tactic(auto, using(crate::proofs::Answering::body_refused))]
    pub(crate) fn batch(&mut self, body: &[u8]) -> Result<Reply, RequestFault>
        ensures answered { IsAnswered (Answers D.sectors D.honest D.history
            (MeansBatch (DiskFailed D.faults self.old.service self.new.service) self.old.service.version body.now)
            self.old.service self.new.service) result }
        ensures writable { IfOk result IsWhole }
        ensures held { KeepsTickets D.honest D.history self.old self.new }
        ensures oldest { self.new.oldest ≡ self.old.oldest }
    {
        let changes = match changes_in(self.alloc, body) {
            Ok(changes) => changes,
            Err(fault) => return Err(fault),
        };
        let Ok(text) = replies::outcome_space(self.alloc) else {
            return Err(RequestFault::Memory);
        };
        let outcome = self.service.batch(changes);
        Ok(replies::outcome(text, outcome))
    }

    /// Deletes the feature of an id, if the one that is there is as the conditions want it.
    pub(crate) fn delete(&mut self, id: u64, needed: Needed) -> Result<Reply, RequestFault>
        ensures answered { IsAnswered (Answers D.sectors D.honest D.history
            (MeansDelete (DiskFailed D.faults self.old.service self.new.service) self.old.service.version needed id)
            self.old.service self.new.service) result }
        ensures writable { IfOk result IsWhole }
        ensures held { KeepsTickets D.honest D.history self.old self.new }
        ensures oldest { self.new.oldest ≡ self.old.oldest }
    {
        let Ok(text) = replies::outcome_space(self.alloc) else {
            return Err(RequestFault::Memory);
        };
        if !self.meets(id, needed) {
            return Err(RequestFault::Condition);
        }
        let outcome = self.service.delete(id);
        Ok(replies::outcome(text, outcome))
    }
}
