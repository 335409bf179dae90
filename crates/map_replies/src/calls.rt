//! What is asked of the service at each path.
ghost use Rattle.std.specs.Prelude.{◌≡◌, Ok, IfOk};
ghost use Rattle.http_serve.specs.Reply.{head_view, HasShortWords, IsWhole};
ghost use Rattle.tile_routes.specs.Paths.{asked_action, asked_view};
ghost use Rattle.tile_routes.specs.Targets.{asked_of};
ghost use Rattle.tile_service.specs.Service.{status_of, status_view};
ghost use Rattle.map_replies.specs.Conditions.{ask_view};
ghost use Rattle.map_replies.specs.Meanings.{MeansOnFeature, MeansView, MeansAction, Answers, AnswersAllowed, AnswersMethod, DiskFailed};
ghost use Rattle.map_replies.specs.Sending.{IsAnswered, IsAnsweredInParts, SendsAllowed, SendsMethod};
ghost use Rattle.map_replies.specs.Tickets.{KeepsArchives, KeepsTickets};

use crate::conditions::{Ask, Needed};
use crate::fault::RequestFault;
use crate::parts::Sending;
use crate::replies;
use http_serve::Reply;
use sector_disk::Sectors;
use std::alloc::Global;
use tile_routes::{Action, Method, RouteFault, Target, View};
use tile_service::Service;

/// A service, and what the last reply with its archive sends.
#[derive(Drop)]
pub(crate) struct Calls<D: Sectors + Drop> {
    pub(crate) alloc: Global,
    pub(crate) service: Service<D>,
    /// What the last reply sends in parts.
    pub(crate) sending: Sending,
    /// The generation at the last step that may have written an area, or 0: archives before it may be overwritten.
    pub(crate) oldest: u64,
}

impl<D: Sectors + Drop> Calls<D> {
    /// Handles an allowed method on a feature. POST isn't allowed there, and a method that isn't allowed doesn't get here.
    fn on_feature(
        &mut self,
        id: u64,
        method: Method,
        needed: Needed,
        body: &[u8],
    ) -> Result<Reply, RequestFault>
        ensures answered { IsAnswered (Answers D.sectors D.honest D.history
            (MeansOnFeature (DiskFailed D.faults self.old.service self.new.service) self.old.service.version needed id method body.now)
            self.old.service self.new.service) result }
        ensures writable { IfOk result IsWhole }
        ensures held { KeepsTickets D.honest D.history self.old self.new }
        ensures oldest { self.new.oldest ≡ self.old.oldest }
    {
        match method {
            Method::Put => self.put(id, needed, body),
            Method::Delete => self.delete(id, needed),
            Method::Get | Method::Head | Method::Post => self.feature(id),
        }
    }

    /// Handles GET or HEAD of a view.
    #[tactic(auto, using(crate::proofs::SendingLemmas::whole_answer, crate::proofs::SendingLemmas::whole_words))]
    fn on_view(&mut self, view: View, method: Method, ask: Ask<'_>) -> Result<Reply, RequestFault>
        ensures answered { IsAnsweredInParts
            (Answers D.sectors D.honest D.history (MeansView (DiskFailed D.faults self.old.service self.new.service)
            (status_of self.old.service) (status_view self.new.service) view method (ask_view ask.entry))
            self.old.service self.new.service)
            (SendsAllowed D.sectors D.honest D.history D.faults (asked_view view) method
            (ask_view ask.entry) self.old.service self.new.sending self.new.service) result }
        ensures words { IfOk result (λ reply. HasShortWords (head_view reply)) }
        ensures held { KeepsTickets D.honest D.history self.old self.new }
        ensures oldest { self.new.oldest ≡ self.old.oldest }
    {
        match view {
            View::Metadata => self.metadata(),
            View::Archive => self.archive(ask, method),
            View::Status => self.status(),
        }
    }

    /// Handles POST of an action.
    fn on_action(&mut self, action: Action, body: &[u8]) -> Result<Reply, RequestFault>
        ensures answered { IsAnswered (Answers D.sectors D.honest D.history
            (MeansAction (DiskFailed D.faults self.old.service self.new.service)
            (status_of self.old.service) (status_view self.new.service) action body.now)
            self.old.service self.new.service) result }
        ensures writable { IfOk result IsWhole }
        ensures held { KeepsTickets D.honest D.history self.old self.new }
        ensures oldest { KeepsArchives (asked_action action) result self.old self.new }
    {
        match action {
            Action::Edits => self.batch(body),
            Action::CheckedEdits => self.checked_batch(body),
            Action::Publish => self.publish(),
            Action::PublishBegin => self.publish_begin(),
            Action::PublishStep => self.publish_step(),
            Action::PublishCancel => self.publish_cancel(),
        }
    }

    /// Handles an allowed method on any target.
    #[tactic(auto, using(crate::proofs::SendingLemmas::whole_answer, crate::proofs::SendingLemmas::whole_words))]
    fn allowed(
        &mut self,
        target: Target,
        method: Method,
        ask: Ask<'_>,
        body: &[u8],
    ) -> Result<Reply, RequestFault>
        ensures answered { IsAnsweredInParts
            (AnswersAllowed D.sectors D.honest D.history D.faults (asked_of target) method
            (ask_view ask.entry) body.now self.old.service self.new.service)
            (SendsAllowed D.sectors D.honest D.history D.faults (asked_of target) method
            (ask_view ask.entry) self.old.service self.new.sending self.new.service) result }
        ensures words { IfOk result (λ reply. HasShortWords (head_view reply)) }
        ensures held { KeepsTickets D.honest D.history self.old self.new }
        ensures oldest { KeepsArchives (asked_of target) result self.old self.new }
    {
        match target {
            Target::Tile(at, format) => self.tile(at, format, ask),
            Target::Feature(id) => self.on_feature(id, method, ask.needed(), body),
            Target::FeatureFrom(id) => self.feature_from(id),
            Target::FeaturePage(id) => self.feature_page(id),
            Target::FeatureBox(bounds, id) => self.box_page(&bounds, id),
            Target::EditsFrom(number) => self.edits_from(number),
            Target::EditsAt(number) => self.numbered_batch(ask.query, number, body),
            Target::FeatureAt(id, number) => {
                self.numbered_put(id, ask.query, number, ask.needed(), body)
            },
            Target::View(view) => self.on_view(view, method, ask),
            Target::Action(action) => self.on_action(action, body),
            Target::Nothing => Err(RequestFault::NotFound),
        }
    }

    /// Handles an allowed method on any target, unless its conditions can't be met.
    fn unless_refused(
        &mut self,
        target: Target,
        method: Method,
        ask: Ask<'_>,
        body: &[u8],
    ) -> Result<Reply, RequestFault>
        ensures answered { IsAnsweredInParts
            (AnswersMethod D.sectors D.honest D.history D.faults (asked_of target) (Ok method)
            (ask_view ask.entry) body.now self.old.service self.new.service)
            (SendsMethod D.sectors D.honest D.history D.faults (asked_of target) (Ok method)
            (ask_view ask.entry) self.old.service self.new.sending self.new.service) result }
        ensures words { IfOk result (λ reply. HasShortWords (head_view reply)) }
        ensures held { KeepsTickets D.honest D.history self.old self.new }
        ensures oldest { KeepsArchives (asked_of target) result self.old self.new }
    {
        if ask.refuses(method) {
            return Err(RequestFault::Condition);
        }
        self.allowed(target, method, ask, body)
    }

    /// Handles a method on any target, or one that the target refuses.
    pub(crate) fn respond(
        &mut self,
        target: Target,
        method: Result<Method, RouteFault>,
        ask: Ask<'_>,
        body: &[u8],
    ) -> Result<Reply, RequestFault>
        ensures answered { IsAnsweredInParts
            (AnswersMethod D.sectors D.honest D.history D.faults (asked_of target) method
            (ask_view ask.entry) body.now self.old.service self.new.service)
            (SendsMethod D.sectors D.honest D.history D.faults (asked_of target) method
            (ask_view ask.entry) self.old.service self.new.sending self.new.service) result }
        ensures words { IfOk result (λ reply. HasShortWords (head_view reply)) }
        ensures held { KeepsTickets D.honest D.history self.old self.new }
        ensures oldest { KeepsArchives (asked_of target) result self.old self.new }
    {
        match method {
            Ok(method) => self.unless_refused(target, method, ask, body),
            Err(RouteFault::NotFound) => Err(RequestFault::NotFound),
            Err(RouteFault::NotAllowed) => Ok(replies::not_allowed(target)),
        }
    }
}
