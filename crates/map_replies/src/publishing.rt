//! Requests to publish. Memory for the reply is allocated first, so that the outcome is always reported.
ghost use Rattle.std.specs.Prelude.{◌≡◌, IfOk};
ghost use Rattle.http_serve.specs.Reply.{IsWhole};
ghost use Rattle.tile_routes.specs.Paths.{asked_action};
ghost use Rattle.tile_routes.specs.declared.target.Action.TheVariants.{Publish, PublishStep};
ghost use Rattle.tile_service.specs.Machine.{begin, step, cancel};
ghost use Rattle.tile_service.specs.Service.{status_of};
ghost use Rattle.map_replies.specs.Meanings.{MeansCall, MeansChange, OrNoMemory, MeansPublish, Answers, DiskFailed};
ghost use Rattle.map_replies.specs.Sending.{IsAnswered};
ghost use Rattle.map_replies.specs.Words.{left_reply, cancel_reply};
ghost use Rattle.map_replies.specs.Preparing.{GoesToItsEnd};
ghost use Rattle.map_replies.specs.Tickets.{KeepsArchives, KeepsTickets, oldest_after};

use crate::calls::Calls;
use crate::fault::RequestFault;
use crate::replies;
use http_serve::Reply;
use sector_disk::Sectors;
use tile_service::{Published, ServiceFault};

/// The generation at the last step that may have written an area, after a call at this generation. One that is refused writes nothing.
pub(crate) fn oldest_after<A>(
    outcome: &Result<A, ServiceFault>,
    oldest: u64,
    generation: u64,
) -> u64
    ensures { result ≡ oldest_after outcome.now oldest generation }
{
    match outcome {
        Ok(_) | Err(ServiceFault::Device) => generation,
        Err(_) => oldest,
    }
}

impl<D: Sectors + Drop> Calls<D> {
    /// Publishes the whole map.
    pub(crate) fn publish(&mut self) -> Result<Reply, RequestFault>
        ensures answered { IsAnswered (Answers D.sectors D.honest D.history
            (OrNoMemory (MeansPublish (DiskFailed D.faults self.old.service self.new.service)
            (status_of self.old.service) (status_of self.new.service)))
            self.old.service self.new.service) result }
        ensures writable { IfOk result IsWhole }
        ensures held { KeepsTickets D.honest D.history self.old self.new }
        ensures oldest { KeepsArchives (asked_action Publish) result self.old self.new }
    {
        let Ok(text) = replies::outcome_space(self.alloc) else {
            return Err(RequestFault::Memory);
        };
        let generation = self.service.archive().generation;
        let outcome = self.service.publish();
        self.oldest = oldest_after(&outcome, self.oldest, generation);
        Ok(replies::published(text, outcome))
    }

    /// Continues the publication that is under way to its end.
    pub(crate) fn publish_rest(&mut self) -> Result<Published, ServiceFault>
        ensures { GoesToItsEnd D.sectors D.honest D.history D.faults self.old result self.new }
    {
        let generation = self.service.archive().generation;
        let outcome = self.service.publish_rest();
        self.oldest = oldest_after(&outcome, self.oldest, generation);
        outcome
    }

    /// Begins a publication.
    pub(crate) fn publish_begin(&mut self) -> Result<Reply, RequestFault>
        ensures answered { IsAnswered (Answers D.sectors D.honest D.history (OrNoMemory (MeansCall begin left_reply))
            self.old.service self.new.service) result }
        ensures writable { IfOk result IsWhole }
        ensures held { KeepsTickets D.honest D.history self.old self.new }
        ensures oldest { self.new.oldest ≡ self.old.oldest }
    {
        let Ok(text) = replies::outcome_space(self.alloc) else {
            return Err(RequestFault::Memory);
        };
        let outcome = self.service.publish_begin();
        Ok(replies::left(text, outcome))
    }

    /// Continues a publication.
    pub(crate) fn publish_step(&mut self) -> Result<Reply, RequestFault>
        ensures answered { IsAnswered (Answers D.sectors D.honest D.history
            (OrNoMemory (MeansChange (DiskFailed D.faults self.old.service self.new.service) step left_reply))
            self.old.service self.new.service) result }
        ensures writable { IfOk result IsWhole }
        ensures held { KeepsTickets D.honest D.history self.old self.new }
        ensures oldest { KeepsArchives (asked_action PublishStep) result self.old self.new }
    {
        let Ok(text) = replies::outcome_space(self.alloc) else {
            return Err(RequestFault::Memory);
        };
        let generation = self.service.archive().generation;
        let outcome = self.service.publish_step();
        self.oldest = oldest_after(&outcome, self.oldest, generation);
        Ok(replies::left(text, outcome))
    }

    /// Cancels a publication.
    pub(crate) fn publish_cancel(&mut self) -> Result<Reply, RequestFault>
        ensures answered { IsAnswered (Answers D.sectors D.honest D.history (OrNoMemory (MeansCall cancel cancel_reply))
            self.old.service self.new.service) result }
        ensures writable { IfOk result IsWhole }
        ensures held { KeepsTickets D.honest D.history self.old self.new }
        ensures oldest { self.new.oldest ≡ self.old.oldest }
    {
        let Ok(text) = replies::outcome_space(self.alloc) else {
            return Err(RequestFault::Memory);
        };
        let outcome = self.service.publish_cancel();
        Ok(replies::cancelled(text, outcome))
    }
}
