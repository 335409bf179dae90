//! Edits that are made only if they get a number.
ghost use Rattle.std.specs.Prelude.{◌≡◌, ◌≤◌, [], map, vec_capacity, IfOk};
ghost use Rattle.http_serve.specs.Reply.{reply_view, IsWhole};
ghost use Rattle.feature_model.specs.Data.{change_data};
ghost use Rattle.tile_service.specs.Service.{status_of};
ghost use Rattle.map_replies.specs.Meanings.{MeansNumbered, MeansNumberedBatch, MeansNumberedPut, Answers, DiskFailed};
ghost use Rattle.map_replies.specs.Sending.{IsAnswered};
ghost use Rattle.map_replies.specs.declared.replies.TheConstants.{MAX_TEXT};
ghost use Rattle.map_replies.specs.Tickets.{KeepsTickets};

use crate::bodies::{changes_in, feature_in};
use crate::calls::Calls;
use crate::conditions::Needed;
use crate::fault::RequestFault;
use crate::queries::agrees;
use crate::replies;
use edit_journal::is_next;
use feature_model::Change;
use http_serve::Reply;
use sector_disk::Sectors;

impl<D: Sectors + Drop> Calls<D> {
    /// Makes changes as one edit if that gets the number, and the query agrees with the map. It doesn't allocate for the reply.
    fn make_numbered(
        &mut self,
        text: Vec<u8>,
        query: &[u8],
        number: u64,
        changes: Vec<Change>,
    ) -> Reply
        requires empty { text.items ≡ [] }
        requires room { MAX_TEXT ≤ vec_capacity text }
        ensures answered { Answers D.sectors D.honest D.history
            (MeansNumbered (DiskFailed D.faults self.old.service self.new.service) (status_of self.old.service) query.now number
            (map change_data changes.items))
            self.old.service self.new.service (reply_view [] result) }
        ensures writable { IsWhole result }
        ensures held { KeepsTickets D.honest D.history self.old self.new }
        ensures oldest { self.new.oldest ≡ self.old.oldest }
    {
        let last = self.service.last();
        if !is_next(last, number) {
            return replies::not_next(text, last);
        }
        if !agrees(query, self.service.digest()) {
            return replies::refusal(RequestFault::Digest);
        }
        let outcome = self.service.batch(changes);
        replies::outcome(text, outcome)
    }

    /// Makes the changes in the body as one edit, all of them or none, if that gets the number, and the query agrees with the map.
    #[tactic(auto, using(crate::proofs::Answering::body_refused))]
    pub(crate) fn numbered_batch(
        &mut self,
        query: &[u8],
        number: u64,
        body: &[u8],
    ) -> Result<Reply, RequestFault>
        ensures answered { IsAnswered (Answers D.sectors D.honest D.history
            (MeansNumberedBatch (DiskFailed D.faults self.old.service self.new.service) (status_of self.old.service) query.now number body.now)
            self.old.service self.new.service) result }
        ensures writable { IfOk result IsWhole }
        ensures held { KeepsTickets D.honest D.history self.old self.new }
        ensures oldest { self.new.oldest ≡ self.old.oldest }
    {
        let changes = match changes_in(self.alloc, body) {
            Ok(changes) => changes,
            Err(fault) => return Err(fault),
        };
        let Ok(text) = replies::outcome_space(self.alloc) else {
            return Err(RequestFault::Memory);
        };
        Ok(self.make_numbered(text, query, number, changes))
    }

    /// Sets the feature of an id to the one in the body, if that edit gets the number, the query agrees with the map, and the feature that is there is
    /// as the conditions want it.
    #[tactic(auto, using(crate::proofs::Answering::body_refused))]
    pub(crate) fn numbered_put(
        &mut self,
        id: u64,
        query: &[u8],
        number: u64,
        needed: Needed,
        body: &[u8],
    ) -> Result<Reply, RequestFault>
        ensures answered { IsAnswered (Answers D.sectors D.honest D.history
            (MeansNumberedPut (DiskFailed D.faults self.old.service self.new.service) (status_of self.old.service) query.now needed id number
            body.now)
            self.old.service self.new.service) result }
        ensures writable { IfOk result IsWhole }
        ensures held { KeepsTickets D.honest D.history self.old self.new }
        ensures oldest { self.new.oldest ≡ self.old.oldest }
    {
        let feature = match feature_in(self.alloc, body) {
            Ok(feature) => feature,
            Err(fault) => return Err(fault),
        };
        let Ok(text) = replies::outcome_space(self.alloc) else {
            return Err(RequestFault::Memory);
        };
        let last = self.service.last();
        if !is_next(last, number) {
            return Ok(replies::not_next(text, last));
        }
        if !agrees(query, self.service.digest()) {
            return Err(RequestFault::Digest);
        }
        if !self.meets(id, needed) {
            return Err(RequestFault::Condition);
        }
        let outcome = self.service.put(id, feature);
        Ok(replies::outcome(text, outcome))
    }
}
