//! A whole publication for a listener: once its tiles are made it begins, and is written by steps between other replies. Its last step is left to
//! its answer.
ghost use Rattle.std.specs.Prelude.{◌≡◌, ◌≤◌, true, [], vec_capacity, IsTrue, None};
ghost use Rattle.http_serve.specs.Reply.{IsWhole, reply_view};
ghost use Rattle.map_replies.specs.declared.replies.TheConstants.{MAX_TEXT};
ghost use Rattle.map_replies.specs.Preparing.{BeginsLate, BeginsWhole, CancelsBegun, EndsLate, GivesUp, HasMoreSteps, IsReady, Prepares, StepsBegun};
ghost use Rattle.map_replies.specs.Preparing.{beginning_of, has_begun};
ghost use Rattle.map_replies.specs.State.{settings_of};
ghost use Rattle.map_replies.specs.Words.{published_reply};

use crate::calls::Calls;
use crate::preparing::PreparingReplies;
use crate::publishing::oldest_after;
use crate::replies;
use http_serve::{Preparation, Reply};
use sector_disk::Sectors;
use tile_service::{Published, ServiceFault};

/// How much is left of a publication at most before its last step: the sectors of a step, and the root.
const LAST_STEP: u64 = 65;

impl<D: Sectors + Drop> Calls<D> {
    /// Whether a publication is under way of which more is left than its last step.
    fn has_more_steps(&self) -> bool
        ensures { IsTrue result → HasMoreSteps self.now.service }
    {
        match self.service.status().left {
            Some(left) => left > LAST_STEP,
            None => false,
        }
    }

    /// Begins the publication that is in the making.
    fn begin_drafted(&mut self) -> Result<u64, ServiceFault>
        requires ready { IsReady self.old.service }
        ensures { BeginsLate self.old result self.new }
    {
        self.service.publish_drafted()
    }

    /// Makes a step of the publication that is under way, which isn't its last.
    fn step_begun(&mut self) -> Result<u64, ServiceFault>
        requires more { HasMoreSteps self.old.service }
        ensures { StepsBegun D.sectors D.honest D.history D.faults self.old result self.new }
    {
        let generation = self.service.archive().generation;
        let outcome = self.service.publish_step();
        self.oldest = oldest_after(&outcome, self.oldest, generation);
        outcome
    }

    /// Cancels the publication that is under way.
    fn cancel_begun(&mut self) -> Result<(), ServiceFault>
        ensures { CancelsBegun D.sectors D.honest D.history D.faults self.old result self.new }
    {
        self.service.publish_cancel()
    }

    /// Continues a whole publication to its end, by what its beginning came to: one that was refused has ended.
    fn end_begun(&mut self, beginning: Result<u64, ServiceFault>) -> Result<Published, ServiceFault>
        ensures { EndsLate D.sectors D.honest D.history D.faults beginning self.old result self.new }
    {
        match beginning {
            Ok(_) => self.publish_rest(),
            Err(fault) => Err(fault),
        }
    }

    /// The same, with this memory for the reply.
    pub(crate) fn end_whole(&mut self, text: Vec<u8>, beginning: Result<u64, ServiceFault>) -> Reply
        requires empty { text.items ≡ [] }
        requires room { MAX_TEXT ≤ vec_capacity text }
        ensures writable { IsWhole result }
        ensures ends { (outcome : _) × (reply_view [] result ≡ published_reply outcome)
            × EndsLate D.sectors D.honest D.history D.faults beginning self.old outcome self.new }
    {
        let outcome = self.end_begun(beginning);
        replies::published(text, outcome)
    }
}

impl<D: Sectors + Drop> PreparingReplies<D> {
    /// Whether the whole publication that is prepared has begun.
    fn has_begun(&self) -> bool
        ensures { result ≡ has_begun self.now }
    {
        match self.whole {
            Some(Ok(_)) => true,
            Some(Err(_)) | None => false,
        }
    }

    /// Gives up the whole publication that is prepared: one that has begun is cancelled.
    pub(crate) fn give_up(&mut self)
        ensures gives_up { GivesUp D.sectors D.honest D.history D.faults self.old self.new }
        ensures settings { settings_of self.new.replies ≡ settings_of self.old.replies }
    {
        if self.has_begun() {
            self.whole = None;
            let _cancelled = self.replies.calls.cancel_begun();
            return;
        }
        self.whole = None;
    }

    /// Begins the whole publication whose tiles are made. Its map may be refused.
    fn begin_whole(&mut self) -> Preparation
        requires ready { IsReady self.old.replies.calls.service }
        ensures { (outcome : _) × BeginsWhole D.sectors D.honest D.history D.faults self.old outcome self.new }
    {
        self.whole = Some(self.replies.calls.begin_drafted());
        Preparation::GoesOn
    }

    /// Makes a step of the whole publication that is in the making. Once its tiles are made, it begins.
    fn prepare_or_begin(&mut self) -> Preparation
        requires unbegun { beginning_of self.old ≡ None }
        requires ready { IsReady self.old.replies.calls.service }
        ensures { Prepares D.sectors D.honest D.history D.faults self.old self.new }
    {
        match self.replies.calls.service.publish_prepare() {
            Ok(true) => Preparation::GoesOn,
            Ok(false) => self.begin_whole(),
            Err(_) => Preparation::Ready,
        }
    }

    /// Makes a step of the preparation of a whole publication that hasn't begun.
    pub(crate) fn prepare_whole(&mut self) -> Preparation
        requires unbegun { beginning_of self.old ≡ None }
        ensures { Prepares D.sectors D.honest D.history D.faults self.old self.new }
    {
        if self.replies.calls.is_ready() {
            return self.prepare_or_begin();
        }
        self.prepare_beginning()
    }

    /// Makes a step of the whole publication that is prepared, if it has begun and this isn't its last one.
    pub(crate) fn continue_whole(&mut self) -> Preparation
        ensures { Prepares D.sectors D.honest D.history D.faults self.old self.new }
    {
        if !self.has_begun() {
            return Preparation::Ready;
        }
        if !self.replies.calls.has_more_steps() {
            return Preparation::Ready;
        }
        match self.replies.calls.step_begun() {
            Ok(_) => Preparation::GoesOn,
            Err(_) => {
                self.whole = None;
                Preparation::Ready
            }
        }
    }
}
