//! The replies of a map.
ghost use Rattle.std.specs.Prelude.{◌≡◌, length};
ghost use Rattle.http_serve.specs.Reply.{ReplyView, IsReply, InParts, HasShortWords, head_view};
ghost use Rattle.http_serve.specs.declared.connection.TheConstants.{MAX_READS};
ghost use Rattle.tile_routes.specs.Targets.{asked_of};
ghost use Rattle.map_replies.specs.Conditions.{ask_of, needed, refuses};
ghost use Rattle.map_replies.specs.Meanings.{asked_for};
ghost use Rattle.map_replies.specs.Served.{ServesMap};

use crate::calls::Calls;
use crate::conditions::Ask;
use crate::parts::Sending;
use crate::replies;
use http_serve::{
    Buffers, ContentFault, Downloads, Handler, MAX_READS, Reply, Request, RestFault, ServeFault,
    Served, Ticket, serve_with,
};
use sector_disk::Sectors;
use std::alloc::Global;
use std::io::{Read, Write};
use tile_routes::{Access, Method, Routes, Target};
use tile_service::Service;

/// How a map is served.
#[derive(Clone, Copy)]
pub struct Settings {
    /// Which paths are served.
    pub access: Access,
    /// The number that tags of tiles begin with, if replies have entity tags and conditions on tags count. It is to differ from that of any
    /// earlier handler whose tiles a client may still have: with equal tags of one handler tiles have the same layers, and nothing is known
    /// of the tags of two.
    pub tags: Option<u64>,
}

/// The request handler of a map.
#[derive(Drop)]
pub struct MapReplies<D: Sectors + Drop> {
    routes: Routes,
    settings: Settings,
    pub(crate) calls: Calls<D>,
}

impl<D: Sectors + Drop> MapReplies<D> {
    ghost use Rattle.map_replies.specs.State.{access_of, tags_of, asked_service, settings_of, sending_size, ServiceReplies, ServiceSends};

    /// The handler of requests for those of these routes that the settings name, over this service.
    pub fn new(
        alloc: Global,
        routes: Routes,
        settings: Settings,
        service: Service<D>,
    ) -> MapReplies<D>
        ensures service { asked_service result ≡ service }
        ensures settings { settings_of result ≡ settings }
        ensures oldest { result.calls.oldest ≡ 0 }
    {
        MapReplies {
            routes,
            settings,
            calls: Calls {
                alloc,
                service,
                sending: Sending {
                    first: 0,
                    length: 0,
                },
                oldest: 0,
            },
        }
    }

    /// What a request asks for, where its path is served.
    pub(crate) fn target(&self, request: &Request<'_>) -> Target
        ensures { asked_of result ≡ asked_for (access_of self.now) request.now }
    {
        self.routes
            .target(request.path)
            .granted(self.settings.access)
    }

    /// Whether the conditions of a request can't be met, so that it is refused with this method.
    pub(crate) fn refuses(&self, method: Method, request: &Request<'_>) -> bool
        ensures { result ≡ refuses (needed (ask_of (tags_of self.now) request.now)) method }
    {
        let ask = Ask {
            fields: &request.fields,
            query: request.query,
            tags: self.settings.tags,
        };
        ask.refuses(method)
    }

    /// Answers a request that asks for this.
    pub(crate) fn answer_at(&mut self, target: Target, request: &Request<'_>) -> Reply
        requires asked { asked_of target ≡ asked_for (access_of self.old) request.now }
        ensures replied { (reply : ReplyView) × IsReply result reply
            × ServiceReplies D.sectors D.honest D.history D.faults self.old request.now reply self.new
            × InParts result.content (ServiceSends D.sectors D.honest D.history D.faults self.old request.now reply self.new
            × (sending_size self.new ≡ length reply.content)) }
        ensures writable { HasShortWords (head_view result) }
    {
        // Each reply gives back a part of the memory of the last publication.
        self.calls.service.let_go();
        let method = target.method(request.method);
        let ask = Ask {
            fields: &request.fields,
            query: request.query,
            tags: self.settings.tags,
        };
        match self.calls.respond(target, method, ask, request.body) {
            Ok(reply) => reply,
            Err(fault) => replies::refusal(fault),
        }
    }

    /// Returns the service.
    pub fn into_service(self) -> Service<D>
        ensures { result ≡ asked_service self }
    {
        self.calls.service
    }
}

impl<D: Sectors + Drop> Handler for MapReplies<D> {
    ghost use Rattle.map_replies.specs.State.{ServiceReplies, ServiceSends, ServiceFails, sending_size};

    ghost replies = { ServiceReplies D.sectors D.honest D.history D.faults };

    ghost sends = { ServiceSends D.sectors D.honest D.history D.faults };

    ghost fails = { ServiceFails D.sectors D.honest D.history D.faults };

    ghost size = { sending_size };

    fn answer(&mut self, request: &Request<'_>) -> Reply {
        let target = self.target(request);
        self.answer_at(target, request)
    }

    fn read_content(&mut self, offset: u64, part: &mut [u8]) -> Result<(), ContentFault> {
        self.calls.read_sent(offset, part)
    }
}

impl<D: Sectors + Drop> Downloads for MapReplies<D> {
    ghost use Rattle.map_replies.specs.State.{ServiceReads, sending_ticket};

    ghost reads = { ServiceReads D.sectors D.honest D.history D.faults };

    ghost ticket_of = { sending_ticket };

    fn ticket(&self) -> Ticket {
        self.calls.ticket()
    }

    fn read_rest(&mut self, ticket: Ticket, offset: u64, part: &mut [u8]) -> Result<(), RestFault> {
        self.calls.read_rest(ticket, offset, part)
    }
}

/// Serves a connection in at most `turns` reads: one reply to each request, in order, and one to an invalid request. After
/// `turns` reads the complete requests already read are answered.
pub fn serve_map_turns<D: Sectors + Drop, R: Read, W: Write>(
    alloc: Global,
    reader: &mut R,
    writer: &mut W,
    service: &mut MapReplies<D>,
    turns: u64,
) -> Result<Served, ServeFault>
    ensures { ServesMap D.sectors D.honest D.history D.faults R.remaining W.contents turns
        service.old reader.old writer.old result service.new reader.new writer.new }
{
    let mut buffers = Buffers::new(alloc);
    serve_with(&mut buffers, reader, writer, service, turns)
}

/// Serves a connection in at most `http_serve::MAX_READS` reads: one reply to each request, in order, and one to an
/// invalid request.
pub fn serve_map<D: Sectors + Drop, R: Read, W: Write>(
    alloc: Global,
    reader: &mut R,
    writer: &mut W,
    service: &mut MapReplies<D>,
) -> Result<Served, ServeFault>
    ensures { ServesMap D.sectors D.honest D.history D.faults R.remaining W.contents MAX_READS
        service.old reader.old writer.old result service.new reader.new writer.new }
{
    serve_map_turns(alloc, reader, writer, service, MAX_READS)
}
