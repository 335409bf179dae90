//! Edits that are made only if the map still has what their authors saw.
ghost use Rattle.std.specs.Prelude.{◌≡◌, ◌≤◌, [], map, vec_capacity, IfOk};
ghost use Rattle.http_serve.specs.Reply.{reply_view, IsWhole};
ghost use Rattle.feature_model.specs.Data.{change_data};
ghost use Rattle.feature_model.specs.Seen.{seen_data};
ghost use Rattle.map_replies.specs.Meanings.{MeansChecked, MeansCheckedBatch, Answers, DiskFailed};
ghost use Rattle.map_replies.specs.Sending.{IsAnswered};
ghost use Rattle.map_replies.specs.declared.replies.TheConstants.{MAX_TEXT};
ghost use Rattle.map_replies.specs.Tickets.{KeepsTickets};

use crate::bodies::checked_in;
use crate::calls::Calls;
use crate::fault::RequestFault;
use crate::replies;
use feature_model::{Change, Seen};
use http_serve::Reply;
use sector_disk::Sectors;

impl<D: Sectors + Drop> Calls<D> {
    /// Makes changes as one edit if each number still has what was seen. It doesn't allocate for the reply.
    fn make_checked(&mut self, text: Vec<u8>, changes: Vec<Change>, all: &[Seen]) -> Reply
        requires empty { text.items ≡ [] }
        requires room { MAX_TEXT ≤ vec_capacity text }
        ensures answered { Answers D.sectors D.honest D.history
            (MeansChecked (DiskFailed D.faults self.old.service self.new.service) self.old.service.version
            (record { changes = map change_data changes.items; seen = map seen_data all.now }))
            self.old.service self.new.service (reply_view [] result) }
        ensures writable { IsWhole result }
        ensures held { KeepsTickets D.honest D.history self.old self.new }
        ensures oldest { self.new.oldest ≡ self.old.oldest }
    {
        if let Some(id) = self.service.first_changed(all) {
            return replies::changed(text, id);
        }
        let outcome = self.service.batch(changes);
        replies::outcome(text, outcome)
    }

    /// Makes the changes in the body as one edit if each number still has what the body says that its author saw.
    #[tactic(auto, using(crate::proofs::Answering::body_refused))]
    pub(crate) fn checked_batch(&mut self, body: &[u8]) -> Result<Reply, RequestFault>
        ensures answered { IsAnswered (Answers D.sectors D.honest D.history
            (MeansCheckedBatch (DiskFailed D.faults self.old.service self.new.service) self.old.service.version body.now)
            self.old.service self.new.service) result }
        ensures writable { IfOk result IsWhole }
        ensures held { KeepsTickets D.honest D.history self.old self.new }
        ensures oldest { self.new.oldest ≡ self.old.oldest }
    {
        let (changes, seen) = match checked_in(self.alloc, body) {
            Ok(found) => found,
            Err(fault) => return Err(fault),
        };
        let Ok(text) = replies::outcome_space(self.alloc) else {
            return Err(RequestFault::Memory);
        };
        Ok(self.make_checked(text, changes, &seen))
    }
}
