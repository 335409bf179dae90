//! The replies of a map whose edits are acknowledged once a standby has them. An edit is made as ever, and its reply waits. Without a standby no edit
//! is made.
ghost use Rattle.std.specs.Prelude.{◌≡◌, ◌⊎◌, ◌≤◌, ◌+◌, ◌-◌, ◌++◌, ◌&&◌, ℕ, Option, true, false, [], length, take, vec_len, vec_capacity, IsTrue, IfSome, None, Ok};
ghost use Rattle.http_serve.specs.Reply.{ReplyView, IsReply, InParts, IsWhole, HasShortWords, head_view};
ghost use Rattle.http_serve.specs.Waits.{IsRest};
ghost use Rattle.tile_routes.specs.Methods.{method_on};
ghost use Rattle.tile_routes.specs.Paths.{asked_edits, asked_view};
ghost use Rattle.tile_routes.specs.Targets.{asked_of};
ghost use Rattle.tile_routes.specs.declared.method.Method.TheVariants.{Get};
ghost use Rattle.tile_routes.specs.declared.target.View.TheVariants.{Status};
ghost use Rattle.map_replies.specs.Confirming.{puts, posts, is_edit, is_to_edit, asks_to_edit, standby_mark, heard_text, standby_end, with_end, HasEnd, Hears, KeepsHeld};
ghost use Rattle.map_replies.specs.Confirming.{confirmed_without_draft, ConfirmedReplied, ConfirmedSends, ConfirmedPrepares};
ghost use Rattle.map_replies.specs.Meanings.{asked_for};
ghost use Rattle.map_replies.specs.Preparing.{inner_size, PreparingReplied, PreparingSends};
ghost use Rattle.map_replies.specs.State.{access_of};
ghost use Rattle.map_replies.specs.Waits.{Contains};

use crate::preparing::PreparingReplies;
use crate::queries::has_word;
use crate::replies;
use crate::service::MapReplies;
use crate::standbys::Standbys;
use http_serve::{
    Content, ContentFault, Downloads, Handler, Hold, Moment, Preparation, Prepares, Reply, Request,
    RestFault, Ticket,
};
use http_values::{MAX_DIGITS, push_number, push_text};
use sector_disk::Sectors;
use std::alloc::Global;
use std::time::Duration;
use tile_routes::{Action, Method, RouteFault, Target, View};

/// How many seconds the request of a standby rests at most, so that it is heard of often enough.
const STANDBY_REST_SECONDS: u64 = 2;

/// Capacity for the member of the status: two numbers, and the texts around them.
const MAX_MEMBER: usize = 2 * MAX_DIGITS + 60;

/// The request handler of a listener whose edits are to be on two machines: the replies of a map, where the reply to an edit waits until a standby has
/// asked for what comes after it.
#[derive(Drop)]
pub struct ConfirmedReplies<D: Sectors + Drop> {
    pub(crate) inner: PreparingReplies<D>,
    pub(crate) standbys: Standbys,
}

/// Whether a method that a path allows is PUT or DELETE.
fn puts(method: Result<Method, RouteFault>) -> bool
    ensures { result ≡ puts method }
{
    match method {
        Ok(Method::Put | Method::Delete) => true,
        Ok(Method::Get | Method::Head | Method::Post) | Err(_) => false,
    }
}

/// Whether it is POST.
fn posts(method: Result<Method, RouteFault>) -> bool
    ensures { result ≡ posts method }
{
    match method {
        Ok(Method::Post) => true,
        Ok(Method::Get | Method::Head | Method::Put | Method::Delete) | Err(_) => false,
    }
}

/// Whether an action makes an edit.
fn is_edit(action: Action) -> bool
    ensures { result ≡ is_edit action }
{
    match action {
        Action::Edits | Action::CheckedEdits => true,
        Action::Publish | Action::PublishBegin | Action::PublishStep | Action::PublishCancel => {
            false
        }
    }
}

/// Whether a request asks for an edit, by a method that its path allows.
fn is_to_edit(target: Target, method: &[u8]) -> bool
    ensures { result ≡ asks_to_edit (asked_of target) (method_on method.now (asked_of target)) }
{
    match target {
        Target::Feature(_) | Target::FeatureAt(..) => puts(target.method(method)),
        Target::EditsAt(_) => posts(target.method(method)),
        Target::Action(action) => is_edit(action) && posts(target.method(method)),
        Target::Tile(..)
        | Target::FeatureFrom(_)
        | Target::FeaturePage(_)
        | Target::FeatureBox(..)
        | Target::EditsFrom(_)
        | Target::View(_)
        | Target::Nothing => false,
    }
}

/// Whether a request asks for the status.
fn is_status(target: Target) -> bool
    ensures { result ≡ true → asked_of target ≡ asked_view Status }
{
    matches!(target, Target::View(View::Status))
}

/// The edit up to which the standby has all that says so by this request.
#[tactic(auto, unfolding(crate::specs::Confirming::standby_mark))]
fn standby_has(target: Target, request: &Request<'_>) -> Option<u64>
    ensures asked { IfSome result (λ number. asked_of target ≡ asked_edits (number + 1)) }
    ensures method { IfSome result (λ _. method_on request.now.method (asked_of target) ≡ Ok Get) }
    ensures says { IfSome result (λ _. Contains request.now.query standby_mark) }
{
    let Target::EditsFrom(next) = target else {
        return None;
    };
    match target.method(request.method) {
        Ok(Method::Get) => {}
        Ok(Method::Head | Method::Put | Method::Delete | Method::Post) | Err(_) => return None,
    }
    if !has_word(request.query, b"standby") {
        return None;
    }
    next.checked_sub(1)
}

/// What a preparation for a standby comes to, which rests for a short time at most.
fn rested(prepared: Preparation, moment: Moment) -> Preparation
    ensures { IsRest result → IsRest prepared }
{
    match prepared {
        Preparation::Rests(left) => {
            let longest = Duration::from_secs(STANDBY_REST_SECONDS);
            if moment.waited >= longest {
                return Preparation::Ready;
            }
            Preparation::Rests(left.min(longest.saturating_sub(moment.waited)))
        }
        Preparation::Ready => Preparation::Ready,
        Preparation::GoesOn => Preparation::GoesOn,
        Preparation::Waits => Preparation::Waits,
    }
}

/// Adds the seconds since a standby was heard of, or `null`.
fn push_heard(out: &mut Vec<u8>, heard: Option<u64>)
    requires room { vec_len out.old + MAX_DIGITS ≤ vec_capacity out.old }
    ensures items { out.new.items ≡ out.old.items ++ heard_text heard }
    ensures len { vec_len out.new ≤ vec_len out.old + MAX_DIGITS }
    ensures capacity { vec_capacity out.old ≤ vec_capacity out.new }
{
    match heard {
        Some(seconds) => push_number(out, seconds),
        None => push_text(out, b"null"),
    }
}

/// Adds the member of a status, and what ends it.
#[tactic(auto, unfolding(crate::specs::Confirming::standby_end))]
fn push_end(out: &mut Vec<u8>, confirmed: u64, heard: Option<u64>)
    requires room { vec_len out.old + MAX_MEMBER ≤ vec_capacity out.old }
    ensures items { out.new.items ≡ out.old.items ++ standby_end confirmed heard }
{
    push_text(out, b",\"standby\":{");
    push_text(out, b"\"confirmed\":");
    push_number(out, confirmed);
    push_text(out, b",\"heard\":");
    push_heard(out, heard);
    push_text(out, b"}}");
}

/// The text of a status with the member. If memory runs out, it remains as it is.
fn with_member(alloc: Global, text: Vec<u8>, confirmed: u64, heard: Option<u64>) -> Vec<u8>
    ensures { (result ≡ text) ⊎ (result.items ≡ take (length text.items - 1) text.items ++ standby_end confirmed heard) }
{
    let count = text.len().saturating_sub(1);
    match Vec::with_capacity(alloc, count + MAX_MEMBER) {
        Ok(mut out) => {
            push_text(&mut out, &text[..count]);
            push_end(&mut out, confirmed, heard);
            out
        }
        Err(_) => text,
    }
}

/// The reply with a status, with the member.
fn with_standbys(alloc: Global, reply: Reply, confirmed: u64, heard: Option<u64>) -> Reply
    ensures { HasEnd confirmed heard reply result }
{
    let Reply {
        status,
        kind,
        range,
        tag,
        allow,
        content,
    } = reply;
    match content {
        Content::Whole(text) => Reply {
            status,
            kind,
            range,
            tag,
            allow,
            content: Content::Whole(with_member(alloc, text, confirmed, heard)),
        },
        content => Reply {
            status,
            kind,
            range,
            tag,
            allow,
            content,
        },
    }
}

impl<D: Sectors + Drop> ConfirmedReplies<D> {
    /// The handler over the replies of a map. No edit is made before a standby has the last one.
    pub fn new(inner: PreparingReplies<D>) -> ConfirmedReplies<D>
        ensures { result.inner ≡ inner }
    {
        let last = inner.replies.calls.service.last();
        ConfirmedReplies {
            inner,
            standbys: Standbys::new(last),
        }
    }

    /// Prepares no publication any more. One in the making is dropped, and a whole one that has begun stays under way.
    pub fn forget(&mut self)
        ensures { self.new ≡ confirmed_without_draft self.old }
    {
        self.inner.forget();
    }

    /// Returns the replies of the map.
    pub fn into_replies(self) -> MapReplies<D>
        ensures { result ≡ self.inner.replies }
    {
        self.inner.into_replies()
    }

    /// Notes the time of a request, and what a standby says by it. Whether it is a standby's.
    fn note(&mut self, moment: Moment, request: &Request<'_>) -> bool
        ensures inner { self.new.inner ≡ self.old.inner }
        ensures hears { Hears self.old request.now self.new }
    {
        let target = self.inner.replies.target(request);
        let last = self.inner.replies.calls.service.last();
        match standby_has(target, request) {
            Some(number) if number <= last => {
                self.standbys.hear(number, last, moment);
                self.standbys.look(moment);
                true
            }
            _ => {
                self.standbys.look(moment);
                false
            }
        }
    }

    /// Whether a request is refused: it asks for an edit, and no standby is near.
    fn refuses(&self, target: Target, request: &Request<'_>) -> bool
        requires asked { asked_of target ≡ asked_for (access_of self.now.inner.replies) request.now }
        ensures { result ≡ (self.now.standbys.away && is_to_edit self.now.inner.replies request.now) }
    {
        self.standbys.away && is_to_edit(target, request.method)
    }

    /// Answers a request as ever. Its reply waits for the edit that is made.
    fn answer_kept(&mut self, request: &Request<'_>) -> Reply
        ensures replied { (view : ReplyView) × IsReply result view
            × PreparingReplied D.sectors D.honest D.history D.faults self.old.inner request.now view self.new.inner
            × InParts result.content (PreparingSends D.sectors D.honest D.history D.faults self.old.inner request.now view self.new.inner
            × (inner_size self.new.inner ≡ length view.content)) }
        ensures writable { HasShortWords (head_view result) }
        ensures keeps { KeepsHeld self.old self.new }
    {
        let before = self.inner.replies.calls.service.last();
        let reply = self.inner.answer(request);
        let after = self.inner.replies.calls.service.last();
        self.standbys.answered(before, after);
        reply
    }
}

impl<D: Sectors + Drop> Handler for ConfirmedReplies<D> {
    ghost use Rattle.map_replies.specs.Confirming.{ConfirmedReplied, ConfirmedSends, ConfirmedFails, confirmed_size};

    ghost replies = { ConfirmedReplied D.sectors D.honest D.history D.faults };

    ghost sends = { ConfirmedSends D.sectors D.honest D.history D.faults };

    ghost fails = { ConfirmedFails D.sectors D.honest D.history D.faults };

    ghost size = { confirmed_size };

    fn answer(&mut self, request: &Request<'_>) -> Reply {
        let target = self.inner.replies.target(request);
        if self.refuses(target, request) {
            self.standbys.made = 0;
            return replies::no_standby();
        }
        let reply = self.answer_kept(request);
        if is_status(target) {
            let alloc = self.inner.replies.calls.alloc;
            let heard = self.standbys.seconds();
            return with_standbys(alloc, reply, self.standbys.confirmed, heard);
        }
        reply
    }

    fn read_content(&mut self, offset: u64, part: &mut [u8]) -> Result<(), ContentFault> {
        self.inner.read_content(offset, part)
    }
}

impl<D: Sectors + Drop> Downloads for ConfirmedReplies<D> {
    ghost use Rattle.map_replies.specs.Confirming.{ConfirmedReads, confirmed_ticket};

    ghost reads = { ConfirmedReads D.sectors D.honest D.history D.faults };

    ghost ticket_of = { confirmed_ticket };

    fn ticket(&self) -> Ticket {
        self.inner.ticket()
    }

    fn read_rest(&mut self, ticket: Ticket, offset: u64, part: &mut [u8]) -> Result<(), RestFault> {
        self.inner.read_rest(ticket, offset, part)
    }
}

impl<D: Sectors + Drop> Prepares for ConfirmedReplies<D> {
    ghost use Rattle.map_replies.specs.Confirming.{ConfirmedPrepares, held_of};
    ghost use Rattle.map_replies.specs.Waits.{WaitsForEdit};

    ghost prepares = { ConfirmedPrepares D.sectors D.honest D.history D.faults };

    ghost rests = { λ s request. WaitsForEdit s.inner request };

    ghost holds = { λ s. held_of s.standbys };

    ghost confirms = { λ s. s.standbys.confirmed };

    fn prepare(&mut self, connection: u64, moment: Moment, request: &Request<'_>) -> Preparation {
        let is_standby = self.note(moment, request);
        let prepared = self.inner.prepare(connection, moment, request);
        if is_standby {
            rested(prepared, moment)
        } else {
            prepared
        }
    }

    fn mark(&self) -> u64 {
        self.inner.mark()
    }

    fn hold(&self) -> Option<Hold> {
        self.standbys.hold()
    }

    fn confirmed(&self) -> u64 {
        self.standbys.confirmed
    }
}
