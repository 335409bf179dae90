//! The replies of a map between which a publication is prepared: its map is fixed as it is asked for, its tiles are made one by one while other
//! requests are answered, and then it begins. A whole one is written by steps between other replies too. A tile of many features is made by parts
//! too, before its reply, a large tile of the archive is read by parts, and so are the features of a large map for its metadata.
ghost use Rattle.std.specs.Prelude.{◌≡◌, ◌≤◌, true, [], length, vec_capacity, IsTrue, IfErr, IfSome, None, Some, Ok};
ghost use Rattle.http_serve.specs.Reply.{ReplyView, IsReply, InParts, IsWhole, HasShortWords, head_view, reply_view};
ghost use Rattle.http_serve.specs.Waits.{IsRest};
ghost use Rattle.tile_routes.specs.Methods.{method_on};
ghost use Rattle.tile_routes.specs.Paths.{asked_action};
ghost use Rattle.tile_routes.specs.Targets.{asked_of};
ghost use Rattle.tile_routes.specs.declared.method.Method.TheVariants.{Post};
ghost use Rattle.tile_routes.specs.declared.target.Action.TheVariants.{Publish, PublishBegin};
ghost use Rattle.map_replies.specs.declared.replies.TheConstants.{MAX_TEXT};
ghost use Rattle.map_replies.specs.Conditions.{ask_of};
ghost use Rattle.map_replies.specs.Meanings.{asked_for};
ghost use Rattle.map_replies.specs.Preparing.{asks_to_publish, calls_publication, is_to_publish, without_draft, beginning_of, inner_size};
ghost use Rattle.map_replies.specs.Preparing.{BeginsLate, MayPost, IsReady};
ghost use Rattle.map_replies.specs.Preparing.{PreparingReplied, PreparingSends, Prepares, PreparesTile, ReadsPart};
ghost use Rattle.map_replies.specs.State.{access_of, tags_of};
ghost use Rattle.map_replies.specs.Waits.{WaitsForEdit};
ghost use Rattle.map_replies.specs.Words.{left_reply};

use crate::calls::Calls;
use crate::long_metadata::{LongMetadata, is_for_metadata};
use crate::long_tiles::{LongTiles, ReadyTiles, asked_tile, is_for_edit};
use crate::queries::seconds_of;
use crate::replies;
use crate::service::MapReplies;
use crate::turns::Turns;
use hilbert_id::TileAt;
use http_serve::{
    ContentFault, Downloads, Handler, Hold, Moment, Preparation, Prepares, Reply, Request,
    RestFault, Ticket,
};
use sector_disk::Sectors;
use std::alloc::AllocError;
use std::time::Duration;
use tile_routes::{Action, Method, Target};
use tile_service::ServiceFault;

/// How many seconds a request for edits waits at most for the next one.
const MAX_WAIT_SECONDS: u64 = 60;

/// The request handler of a listener: the replies of a map, where a publication is prepared between other replies, and so is a tile of many
/// features, or a large one of the archive.
#[derive(Drop)]
pub struct PreparingReplies<D: Sectors + Drop> {
    pub(crate) replies: MapReplies<D>,
    /// What the beginning of the whole publication that is prepared came to, once it was made.
    pub(crate) whole: Option<Result<u64, ServiceFault>>,
    /// The tile in the making, or being read.
    tiles: LongTiles,
    ready: ReadyTiles,
    /// The metadata in the making.
    metadata: LongMetadata,
    /// Which connection's publication is prepared.
    turns: Turns,
    /// Whether the request that comes next is the one for which it is prepared.
    is_next: bool,
}

/// Whether this is a call of a publication.
fn is_publishing(target: Target) -> bool
    ensures { result ≡ asks_to_publish (asked_of target) }
{
    match target {
        Target::Action(action) => match action {
            Action::Publish | Action::PublishBegin | Action::PublishStep | Action::PublishCancel =>
                true,
            Action::Edits | Action::CheckedEdits => false,
        },
        Target::Tile(..)
        | Target::Feature(_)
        | Target::FeatureFrom(_)
        | Target::FeaturePage(_)
        | Target::FeatureBox(..)
        | Target::EditsFrom(_)
        | Target::EditsAt(_)
        | Target::FeatureAt(..)
        | Target::View(_)
        | Target::Nothing => false,
    }
}

/// Whether the beginning of a publication by steps is asked for.
fn is_to_begin(target: Target, method: &[u8]) -> bool
    ensures { IsTrue result → (asked_of target ≡ asked_action PublishBegin) × (method_on method.now (asked_of target) ≡ Ok Post) }
{
    match target {
        Target::Action(Action::PublishBegin) => match target.method(method) {
            Ok(Method::Post) => true,
            Ok(Method::Get | Method::Head | Method::Put | Method::Delete) | Err(_) => false,
        },
        _ => false,
    }
}

/// Whether a whole publication is asked for.
fn is_to_publish_whole(target: Target, method: &[u8]) -> bool
    ensures { IsTrue result → (asked_of target ≡ asked_action Publish) × (method_on method.now (asked_of target) ≡ Ok Post) }
{
    match target {
        Target::Action(Action::Publish) => match target.method(method) {
            Ok(Method::Post) => true,
            Ok(Method::Get | Method::Head | Method::Put | Method::Delete) | Err(_) => false,
        },
        _ => false,
    }
}

/// Whether a request is answered once its publication is prepared.
fn is_prepared(target: Target, method: &[u8]) -> bool {
    is_to_begin(target, method) || is_to_publish_whole(target, method)
}

/// What a preparation came to by a step, after which tiles may be left.
fn after_step(goes_on: bool) -> Preparation {
    if goes_on {
        Preparation::GoesOn
    } else {
        Preparation::Ready
    }
}

/// What a step of a preparation came to: none rests.
fn unrested(preparation: Preparation) -> Preparation
    ensures { IsRest result → ⊥ }
{
    match preparation {
        Preparation::Ready => Preparation::Ready,
        Preparation::GoesOn => Preparation::GoesOn,
        Preparation::Waits | Preparation::Rests(_) => Preparation::Waits,
    }
}

/// How much longer a request waits for edits, if it does.
fn wait_left(query: &[u8], moment: Moment) -> Option<Duration> {
    let seconds = seconds_of(query, b"wait=").min(MAX_WAIT_SECONDS);
    let left = Duration::from_secs(seconds).saturating_sub(moment.waited);
    if left.is_zero() { None } else { Some(left) }
}

impl<D: Sectors + Drop> Calls<D> {
    /// Whether a publication is in the making and none is under way, in a service that isn't broken.
    pub(crate) fn is_ready(&self) -> bool
        ensures { IsTrue result → IsReady self.now.service }
    {
        let status = self.service.status();
        if status.broken {
            return false;
        }
        if status.left.is_some() {
            return false;
        }
        self.service.drafting().is_some()
    }

    /// Begins the publication that is in the making, with this memory for the reply.
    fn begin_ready(&mut self, text: Vec<u8>) -> Reply
        requires ready { IsReady self.old.service }
        requires empty { text.items ≡ [] }
        requires room { MAX_TEXT ≤ vec_capacity text }
        ensures writable { IsWhole result }
        ensures begins { (outcome : _) × (reply_view [] result ≡ left_reply outcome) × BeginsLate self.old outcome self.new }
    {
        let outcome = self.service.publish_drafted();
        replies::left(text, outcome)
    }
}

impl<D: Sectors + Drop> PreparingReplies<D> {
    /// The handler over the replies of a map.
    pub fn new(replies: MapReplies<D>) -> PreparingReplies<D>
        ensures { result.replies ≡ replies }
    {
        PreparingReplies {
            replies,
            whole: None,
            tiles: LongTiles::new(),
            ready: ReadyTiles::new(),
            metadata: LongMetadata::new(),
            turns: Turns::new(),
            is_next: false,
        }
    }

    /// The replies of the map, without what is prepared between them.
    pub fn replies_mut(&mut self) -> &mut MapReplies<D> {
        &mut self.replies
    }

    /// Prepares no publication any more. One in the making is dropped, and a whole one that has begun stays under way.
    pub fn forget(&mut self)
        ensures { self.new ≡ without_draft self.old }
    {
        self.whole = None;
        self.replies.calls.service.publish_drop();
    }

    /// Returns the replies of the map.
    pub fn into_replies(self) -> MapReplies<D>
        ensures { result ≡ self.replies }
    {
        self.replies
    }

    /// Whether a request for this calls a publication: it asks for one by a method that its path allows, and its conditions don't refuse it.
    fn is_call(&self, target: Target, request: &Request<'_>) -> bool
        ensures { result ≡ calls_publication (asked_of target) (method_on request.now.method (asked_of target))
            (ask_of (tags_of self.now.replies) request.now) }
    {
        match target.method(request.method) {
            Ok(method) => !self.replies.refuses(method, request) && is_publishing(target),
            Err(_) => false,
        }
    }

    /// The same of a request that asks for this.
    fn is_to_publish(&self, target: Target, request: &Request<'_>) -> bool
        requires asked { asked_of target ≡ asked_for (access_of self.now.replies) request.now }
        ensures { result ≡ is_to_publish self.now.replies request.now }
    {
        self.is_call(target, request)
    }

    /// Whether a publication is prepared that the next request has to wait for: one that has begun, or one in the making if this is to be prepared.
    fn is_prepared(&self) -> bool {
        self.whole.is_some() || (self.is_next && self.replies.calls.service.drafting().is_some())
    }

    /// What comes before the preparation of the reply to a request: it waits while the publication of another connection is prepared that still
    /// has its turns. That of one which has none any more is dropped, or cancelled if it has begun.
    fn waits_for_another(&mut self, connection: u64) -> Option<Preparation>
        ensures prepares { Prepares D.sectors D.honest D.history D.faults self.old self.new }
        ensures stays { result ≡ None → self.new ≡ self.old }
    {
        if self.turns.is_owner(connection) {
            return None;
        }
        if !self.is_prepared() {
            return None;
        }
        if self.turns.has_to_wait(connection) {
            return Some(Preparation::Waits);
        }
        if self.whole.is_some() {
            self.give_up();
            return Some(Preparation::GoesOn);
        }
        self.replies.calls.service.publish_drop();
        Some(Preparation::GoesOn)
    }

    /// Makes a step of the beginning of a publication by steps.
    pub(crate) fn prepare_beginning(&mut self) -> Preparation
        requires unbegun { beginning_of self.old ≡ None }
        ensures { Prepares D.sectors D.honest D.history D.faults self.old self.new }
    {
        match self.replies.calls.service.publish_prepare() {
            Ok(goes_on) => after_step(goes_on),
            Err(_) => Preparation::Ready,
        }
    }

    /// Makes a step of the publication that a connection asks for, if its reply is to be prepared.
    fn prepare_own(&mut self, connection: u64, is_whole: bool) -> Preparation
        ensures { Prepares D.sectors D.honest D.history D.faults self.old self.new }
    {
        if !self.is_next {
            return Preparation::Ready;
        }
        self.turns.give(connection);
        if self.whole.is_some() {
            return self.continue_whole();
        }
        if is_whole {
            return self.prepare_whole();
        }
        self.prepare_beginning()
    }

    /// Makes a step for a request for a call of a publication.
    fn prepare_call(&mut self, connection: u64, target: Target, method: &[u8]) -> Preparation
        ensures { Prepares D.sectors D.honest D.history D.faults self.old self.new }
    {
        self.is_next = is_prepared(target, method);
        match self.waits_for_another(connection) {
            Some(preparation) => preparation,
            None => self.prepare_own(connection, is_to_publish_whole(target, method)),
        }
    }

    /// Whether a tile has many features. It is looked for in the index once, and then known.
    fn is_long(&mut self, at: TileAt) -> bool
        ensures same { self.new.replies ≡ self.old.replies }
        ensures whole { beginning_of self.new ≡ beginning_of self.old }
    {
        if self.tiles.is_known(at) {
            return true;
        }
        let is_long = self.replies.calls.service.is_long(at);
        if is_long {
            self.tiles.note(at);
        }
        is_long
    }

    /// Makes the next part of a tile for the request of a connection, which has its turn.
    fn prepare_part(&mut self, connection: u64, at: TileAt) -> Preparation
        ensures same { self.new.replies ≡ self.old.replies }
        ensures whole { beginning_of self.new ≡ beginning_of self.old }
    {
        self.tiles.give(connection, at);
        let is_begun = self.replies.calls.service.tile_in_making() == Some(at);
        if (is_begun || self.tiles.begins()) && self.replies.calls.service.prepare_tile(at) {
            return Preparation::GoesOn;
        }
        self.tiles.end(connection, at);
        Preparation::Ready
    }

    /// Makes the next part of a tile for the request of a connection. If another tile is in the making, for another connection, it waits for that
    /// one, but not if it has few features.
    fn prepare_tile(&mut self, connection: u64, at: TileAt) -> Preparation
        ensures same { self.new.replies ≡ self.old.replies }
        ensures whole { beginning_of self.new ≡ beginning_of self.old }
    {
        if self.tiles.is_other(connection, at) {
            if !self.is_long(at) {
                self.tiles.end(connection, at);
                return Preparation::Ready;
            }
            if self.tiles.has_to_wait(connection) {
                return Preparation::Waits;
            }
        }
        self.prepare_part(connection, at)
    }

    /// Reads the next part of a tile of the archive, if it has more than one, and says whether parts are left. Without `begins` the first part isn't
    /// read.
    fn read_part(&mut self, at: TileAt, begins: bool) -> Option<bool>
        ensures { ReadsPart D.sectors D.honest D.history D.faults self.old self.new }
    {
        self.replies.calls.service.prepare_published(at, begins)
    }

    /// What comes after a part of a tile for the request of a connection, where others are left. If another tile is in the making or being read, for
    /// another connection, it waits for that one.
    fn after_part(&mut self, connection: u64, at: TileAt, is_other: bool) -> Preparation
        ensures same { self.new.replies ≡ self.old.replies }
        ensures whole { beginning_of self.new ≡ beginning_of self.old }
    {
        if is_other && self.tiles.has_to_wait(connection) {
            return Preparation::Waits;
        }
        self.tiles.give(connection, at);
        Preparation::GoesOn
    }

    /// What comes before the reply to a request of a connection for a tile of which nothing is left to read or to make.
    fn end_part(&mut self, connection: u64, at: TileAt) -> Preparation
        ensures same { self.new.replies ≡ self.old.replies }
        ensures whole { beginning_of self.new ≡ beginning_of self.old }
    {
        self.tiles.end(connection, at);
        Preparation::Ready
    }

    /// Reads the next part of a tile of the archive for the request of a connection, if it has more than one. Otherwise nothing has to be read or made,
    /// which is noted.
    fn prepare_read(&mut self, connection: u64, at: TileAt) -> Preparation
        ensures { ReadsPart D.sectors D.honest D.history D.faults self.old self.new }
    {
        let is_other = self.tiles.is_other(connection, at);
        match self.read_part(at, !is_other) {
            Some(true) => self.after_part(connection, at, is_other),
            Some(false) => self.end_part(connection, at),
            None => {
                let stamp = self.replies.calls.service.tile_stamp();
                self.ready.note(at, stamp);
                self.end_part(connection, at)
            }
        }
    }

    /// Makes the next part of a tile for a request for the tile, or for its head alone. If nothing of it has to be made, it may have to be read: nothing
    /// is returned.
    fn prepare_made(&mut self, connection: u64, at: TileAt) -> Option<Preparation>
        ensures same { self.new.replies ≡ self.old.replies }
        ensures whole { beginning_of self.new ≡ beginning_of self.old }
        ensures stays { result ≡ None → self.new ≡ self.old }
    {
        let stamp = self.replies.calls.service.tile_stamp();
        if self.ready.has(at, stamp) {
            self.tiles.leave(connection);
            return Some(Preparation::Ready);
        }
        if self.replies.calls.service.tile_in_making() == Some(at) {
            // One of those who ask for it makes its steps: with steps of its own each of them would keep all others waiting as long.
            if self.tiles.waits_for_owner(connection, at) {
                return Some(Preparation::Waits);
            }
            return Some(self.prepare_tile(connection, at));
        }
        if self.replies.calls.service.is_made(at) {
            return Some(self.prepare_tile(connection, at));
        }
        None
    }

    /// Makes or reads the next part of a tile for such a request.
    fn prepare_asked(&mut self, connection: u64, at: TileAt) -> Preparation
        ensures { PreparesTile D.sectors D.honest D.history D.faults self.old self.new }
    {
        match self.prepare_made(connection, at) {
            Some(preparation) => preparation,
            None => self.prepare_read(connection, at),
        }
    }

    /// Reads the next features of the map for the request of a connection for its metadata, unless these are made. If another connection's request
    /// has the turns, it waits for that one.
    fn prepare_metadata(&mut self, connection: u64) -> Preparation
        ensures same { self.new.replies ≡ self.old.replies }
        ensures whole { beginning_of self.new ≡ beginning_of self.old }
    {
        if self.replies.calls.service.has_metadata() {
            self.metadata.end(connection);
            return Preparation::Ready;
        }
        let is_begun = self.replies.calls.service.metadata_in_making();
        if is_begun && self.metadata.waits_for_owner(connection) {
            return Preparation::Waits;
        }
        self.metadata.give(connection);
        if (is_begun || self.metadata.begins()) && self.replies.calls.service.prepare_metadata() {
            return Preparation::GoesOn;
        }
        self.metadata.end(connection);
        Preparation::Ready
    }

    /// What comes before the answer to an edit: it may have to wait for a tile, or for the metadata.
    fn prepare_edit(&mut self, connection: u64) -> Preparation
        ensures same { self.new.replies ≡ self.old.replies }
        ensures whole { beginning_of self.new ≡ beginning_of self.old }
    {
        if self.tiles.holds_edit(connection) {
            return Preparation::Waits;
        }
        if self.metadata.holds_edit(connection) {
            return Preparation::Waits;
        }
        Preparation::Ready
    }

    /// Makes the next part of what a request needs that asks for no publication.
    fn prepare_other(&mut self, connection: u64, target: Target, method: &[u8]) -> Preparation
        ensures { PreparesTile D.sectors D.honest D.history D.faults self.old self.new }
    {
        self.is_next = false;
        if !self.replies.calls.service.is_large() {
            self.tiles.forget();
            self.metadata.forget();
            return Preparation::Ready;
        }
        if let Some(at) = asked_tile(target, method) {
            return self.prepare_asked(connection, at);
        }
        if is_for_metadata(target, method) {
            return self.prepare_metadata(connection);
        }
        if is_for_edit(target, method) {
            return self.prepare_edit(connection);
        }
        Preparation::Ready
    }

    /// How much longer a request waits for the edit after the last one, if that is what it asks for.
    fn rest_left(&self, target: Target, moment: Moment, request: &Request<'_>) -> Option<Duration>
        requires asked { asked_of target ≡ asked_for (access_of self.now.replies) request.now }
        ensures { IfSome result (λ _. WaitsForEdit self.now request.now) }
    {
        let Target::EditsFrom(number) = target else {
            return None;
        };
        let last = self.replies.calls.service.last();
        if number <= last || number - 1 > last || request.method != b"GET".as_slice() {
            return None;
        }
        wait_left(request.query, moment)
    }

    /// Memory for the late answer to a beginning, if that is what is asked for, by a request whose conditions don't refuse it, and the publication in
    /// the making is of that request and can begin.
    fn room_to_begin(&self, target: Target, request: &Request<'_>) -> Option<Vec<u8>>
        ensures asked { IfSome result (λ _. (asked_of target ≡ asked_action PublishBegin) × (method_on request.now.method (asked_of target) ≡ Ok Post)) }
        ensures may { IfSome result (λ _. MayPost self.now.replies request.now) }
        ensures ready { IfSome result (λ _. IsReady self.now.replies.calls.service) }
        ensures empty { IfSome result (λ text. text.items ≡ []) }
        ensures room { IfSome result (λ text. MAX_TEXT ≤ vec_capacity text) }
    {
        if !self.is_next {
            return None;
        }
        if !is_to_begin(target, request.method) {
            return None;
        }
        if self.replies.refuses(Method::Post, request) {
            return None;
        }
        if !self.replies.calls.is_ready() {
            return None;
        }
        match replies::outcome_space(self.replies.calls.alloc) {
            Ok(text) => Some(text),
            Err(AllocError) => None,
        }
    }

    /// Memory for the answer to a whole publication, if that is what is asked for, by a request whose conditions don't refuse it.
    fn room_to_publish(&self, target: Target, request: &Request<'_>) -> Option<Vec<u8>>
        ensures asked { IfSome result (λ _. (asked_of target ≡ asked_action Publish) × (method_on request.now.method (asked_of target) ≡ Ok Post)) }
        ensures may { IfSome result (λ _. MayPost self.now.replies request.now) }
        ensures empty { IfSome result (λ text. text.items ≡ []) }
        ensures room { IfSome result (λ text. MAX_TEXT ≤ vec_capacity text) }
    {
        if !self.is_next {
            return None;
        }
        if !is_to_publish_whole(target, request.method) {
            return None;
        }
        if self.replies.refuses(Method::Post, request) {
            return None;
        }
        match replies::outcome_space(self.replies.calls.alloc) {
            Ok(text) => Some(text),
            Err(AllocError) => None,
        }
    }

    /// Answers a request for a call of a publication. The publication that is prepared is dropped before, or cancelled if it has begun.
    fn answer_afresh(&mut self, target: Target, request: &Request<'_>) -> Reply
        requires asked { asked_of target ≡ asked_for (access_of self.old.replies) request.now }
        requires calls { is_to_publish self.old.replies request.now ≡ true }
        ensures replied { (reply : ReplyView) × IsReply result reply
            × PreparingReplied D.sectors D.honest D.history D.faults self.old request.now reply self.new
            × InParts result.content (PreparingSends D.sectors D.honest D.history D.faults self.old request.now reply self.new
            × (inner_size self.new ≡ length reply.content)) }
        ensures writable { HasShortWords (head_view result) }
    {
        self.give_up();
        self.replies.calls.service.publish_drop();
        self.replies.answer_at(target, request)
    }

    /// Answers a request for a call of a publication. The whole one whose beginning came to this is made to its end, if that is what is asked for.
    fn answer_begun(
        &mut self,
        target: Target,
        request: &Request<'_>,
        beginning: Result<u64, ServiceFault>,
    ) -> Reply
        requires asked { asked_of target ≡ asked_for (access_of self.old.replies) request.now }
        requires calls { is_to_publish self.old.replies request.now ≡ true }
        requires has { beginning_of self.old ≡ Some beginning }
        ensures replied { (reply : ReplyView) × IsReply result reply
            × PreparingReplied D.sectors D.honest D.history D.faults self.old request.now reply self.new
            × InParts result.content (PreparingSends D.sectors D.honest D.history D.faults self.old request.now reply self.new
            × (inner_size self.new ≡ length reply.content)) }
        ensures writable { HasShortWords (head_view result) }
    {
        match self.room_to_publish(target, request) {
            Some(text) => {
                self.whole = None;
                self.replies.calls.end_whole(text, beginning)
            }
            None => self.answer_afresh(target, request),
        }
    }

    /// Answers a request for a call of a publication, with the whole one that is prepared.
    fn answer_whole(&mut self, target: Target, request: &Request<'_>) -> Reply
        requires asked { asked_of target ≡ asked_for (access_of self.old.replies) request.now }
        requires calls { is_to_publish self.old.replies request.now ≡ true }
        ensures replied { (reply : ReplyView) × IsReply result reply
            × PreparingReplied D.sectors D.honest D.history D.faults self.old request.now reply self.new
            × InParts result.content (PreparingSends D.sectors D.honest D.history D.faults self.old request.now reply self.new
            × (inner_size self.new ≡ length reply.content)) }
        ensures writable { HasShortWords (head_view result) }
    {
        match self.whole {
            Some(beginning) => self.answer_begun(target, request, beginning),
            None => self.answer_afresh(target, request),
        }
    }

    /// Answers a request for a call of a publication. One that is prepared is dropped or cancelled, unless it begins or is made to its end.
    fn answer_publishing(&mut self, target: Target, request: &Request<'_>) -> Reply
        requires asked { asked_of target ≡ asked_for (access_of self.old.replies) request.now }
        requires calls { is_to_publish self.old.replies request.now ≡ true }
        ensures replied { (reply : ReplyView) × IsReply result reply
            × PreparingReplied D.sectors D.honest D.history D.faults self.old request.now reply self.new
            × InParts result.content (PreparingSends D.sectors D.honest D.history D.faults self.old request.now reply self.new
            × (inner_size self.new ≡ length reply.content)) }
        ensures writable { HasShortWords (head_view result) }
    {
        match self.room_to_begin(target, request) {
            Some(text) => {
                self.whole = None;
                self.replies.calls.begin_ready(text)
            }
            None => self.answer_whole(target, request),
        }
    }
}

impl<D: Sectors + Drop> Handler for PreparingReplies<D> {
    ghost use Rattle.map_replies.specs.Preparing.{PreparingReplied, PreparingSends, PreparingFails, inner_size};

    ghost replies = { PreparingReplied D.sectors D.honest D.history D.faults };

    ghost sends = { PreparingSends D.sectors D.honest D.history D.faults };

    ghost fails = { PreparingFails D.sectors D.honest D.history D.faults };

    ghost size = { inner_size };

    fn answer(&mut self, request: &Request<'_>) -> Reply {
        let target = self.replies.target(request);
        if self.is_to_publish(target, request) {
            self.answer_publishing(target, request)
        } else {
            self.replies.answer_at(target, request)
        }
    }

    fn read_content(&mut self, offset: u64, part: &mut [u8]) -> Result<(), ContentFault> {
        self.replies.read_content(offset, part)
    }
}

impl<D: Sectors + Drop> Downloads for PreparingReplies<D> {
    ghost use Rattle.map_replies.specs.Preparing.{PreparingReads, inner_ticket};

    ghost reads = { PreparingReads D.sectors D.honest D.history D.faults };

    ghost ticket_of = { inner_ticket };

    fn ticket(&self) -> Ticket {
        self.replies.ticket()
    }

    fn read_rest(&mut self, ticket: Ticket, offset: u64, part: &mut [u8]) -> Result<(), RestFault> {
        self.replies.read_rest(ticket, offset, part)
    }
}

impl<D: Sectors + Drop> Prepares for PreparingReplies<D> {
    ghost use Rattle.map_replies.specs.Preparing.{PreparesFor};
    ghost use Rattle.map_replies.specs.Waits.{WaitsForEdit};

    ghost prepares = { PreparesFor D.sectors D.honest D.history D.faults };

    ghost rests = { WaitsForEdit };

    ghost holds = { λ _. None };

    ghost confirms = { λ _. 0 };

    fn prepare(&mut self, connection: u64, moment: Moment, request: &Request<'_>) -> Preparation {
        let target = self.replies.target(request);
        if self.is_to_publish(target, request) {
            return unrested(self.prepare_call(connection, target, request.method));
        }
        if let Some(left) = self.rest_left(target, moment, request) {
            return Preparation::Rests(left);
        }
        unrested(self.prepare_other(connection, target, request.method))
    }

    fn mark(&self) -> u64 {
        self.replies.calls.service.last()
    }

    fn hold(&self) -> Option<Hold> {
        None
    }

    fn confirmed(&self) -> u64 {
        0
    }
}
