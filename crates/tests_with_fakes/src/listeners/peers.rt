//! Peers that connect to a listener on this machine.
ghost use Rattle.http_serve.specs.Reply.{IsWhole};

use crate::wanted::same;
use http_listen::{Log, SystemListener, serve_on};
use http_serve::{
    Content, ContentFault, Downloads, Handler, Hold, Moment, Preparation, Prepares, Reply, Request,
    RestFault, Status, Ticket,
};
use std::io::{Read, Write};
use std::net::{Ipv4Addr, Shutdown, SocketAddr, TcpListener, TcpStream};
use std::time::Duration;

const GET: &str = "GET / HTTP/1.1\r\nhost: a\r\n\r\n";

const POST: &str = "POST / HTTP/1.1\r\nhost: a\r\ncontent-length: 0\r\n\r\n";

const PUT: &str = "PUT / HTTP/1.1\r\nhost: a\r\ncontent-length: 0\r\n\r\n";

const DELETE: &str = "DELETE / HTTP/1.1\r\nhost: a\r\ncontent-length: 0\r\n\r\n";

const PATCH: &str = "PATCH / HTTP/1.1\r\nhost: a\r\ncontent-length: 0\r\n\r\n";

const TWO_GETS: &str = "GET / HTTP/1.1\r\nhost: a\r\n\r\nGET / HTTP/1.1\r\nhost: a\r\n\r\n";

const FIRST: &str = "HTTP/1.1 200 OK\r\ncontent-length: 1\r\n\r\n0";

const FIRST_AND_SECOND: &str =
    "HTTP/1.1 200 OK\r\ncontent-length: 1\r\n\r\n0HTTP/1.1 200 OK\r\ncontent-length: 1\r\n\r\n1";

const FIRST_AND_THIRD: &str =
    "HTTP/1.1 200 OK\r\ncontent-length: 1\r\n\r\n0HTTP/1.1 200 OK\r\ncontent-length: 1\r\n\r\n2";

const SECOND: &str = "HTTP/1.1 200 OK\r\ncontent-length: 1\r\n\r\n1";

const THIRD: &str = "HTTP/1.1 200 OK\r\ncontent-length: 1\r\n\r\n2";

const SECOND_LAST: &str = "HTTP/1.1 200 OK\r\ncontent-length: 1\r\nconnection: close\r\n\r\n1";

const NO_HOST: &str =
    "HTTP/1.1 400 Bad Request\r\ncontent-type: text/plain\r\ncontent-length: 5\r\nconnection: close\r\n\r\nHost\n";

/// What peers send, one after the other, before any of them is served. What each gets, and the log.
#[derive(Clone, Copy)]
struct Row {
    name: &'static str,
    /// Whether the first peer, which doesn't end its side before, asks again where the second request is answered.
    asks_again: bool,
    peers: &'static [(&'static str, &'static str)],
    log: &'static str,
}

static ROWS: [Row; 7] = [
    Row {
        name: "a_peer_reads_its_replies",
        asks_again: false,
        peers: &[(TWO_GETS, FIRST_AND_SECOND)],
        log: "connection 1: 2 requests, closed\n",
    },
    // One that sends nothing, one that asks twice, one that asks for the end and sends on, one that is refused. All four are accepted
    // before the second asks again.
    Row {
        name: "peers_one_after_the_other",
        asks_again: false,
        peers: &[
            ("", ""),
            (TWO_GETS, FIRST_AND_THIRD),
            (
                "GET / HTTP/1.1\r\nhost: a\r\nconnection: close\r\n\r\nGET / HTTP/1.1\r\n",
                SECOND_LAST,
            ),
            ("GET / HTTP/1.1\r\n\r\n", NO_HOST),
        ],
        log: "connection 1: 0 requests, closed\nconnection 3: 1 requests, asked\n\
            connection 4: 1 requests, refused\nconnection 2: 2 requests, closed\n",
    },
    // A connection that is kept while another one is served is served again.
    Row {
        name: "a_kept_connection_is_served_again",
        asks_again: true,
        peers: &[(GET, FIRST_AND_THIRD), (GET, SECOND)],
        log: "connection 2: 1 requests, closed\nconnection 1: 2 requests, closed\n",
    },
    // The reply to the first one is prepared until the second one is answered, so it gives way to it.
    Row {
        name: "others_are_answered_while_a_reply_is_prepared",
        asks_again: false,
        peers: &[(POST, THIRD), (GET, SECOND)],
        log: "connection 2: 1 requests, closed\nconnection 1: 1 requests, closed\n",
    },
    // The preparation for the first one waits for others, so it isn't asked for again before the second one had its turn.
    Row {
        name: "who_waits_has_a_turn_after_others",
        asks_again: false,
        peers: &[(PUT, SECOND), (GET, FIRST)],
        log: "connection 2: 1 requests, closed\nconnection 1: 1 requests, closed\n",
    },
    // The first reply is made and held until there is another one, which is sent before it.
    Row {
        name: "a_reply_that_is_held_is_sent_once_it_is_confirmed",
        asks_again: false,
        peers: &[(DELETE, FIRST), (GET, SECOND)],
        log: "connection 2: 1 requests, closed\nconnection 1: 1 requests, closed\n",
    },
    // The first request rests for an hour at most, and is answered as soon as the mark is another one.
    Row {
        name: "a_request_that_rests_is_answered_once_there_is_something",
        asks_again: false,
        peers: &[(PATCH, SECOND), (GET, FIRST)],
        log: "connection 2: 1 requests, closed\nconnection 1: 1 requests, closed\n",
    },
];

/// The ticket of handlers whose contents are whole.
const NO_TICKET: Ticket = Ticket {
    version: 0,
    place: 0,
    total: 0,
    first: 0,
};

/// Answers with how many answers there were before. Has a peer ask once more and end where the second request is answered, if it is given one.
/// A POST that comes first is prepared until another request was answered, which counts as an answer. The first PUT waits for others once. A PATCH
/// rests until there is an answer, and the reply to a DELETE is held until there is another one.
#[derive(Clone, Copy)]
struct Counter<'a> {
    answers: u64,
    has_waited: bool,
    held: Option<Hold>,
    asker: Option<&'a TcpStream>,
}

/// Whether a peer sends this, and ends its side, if it is to.
fn sends(peer: &TcpStream, text: &str, ends: bool) -> bool {
    let mut writer = peer;
    writer.write_all(text.as_bytes()).is_ok() && (!ends || peer.shutdown(Shutdown::Write).is_ok())
}

/// `0`, `1`, `2`, and then `many`.
fn number_of(before: u64) -> &'static [u8] {
    match before {
        0 => b"0",
        1 => b"1",
        2 => b"2",
        _ => b"many",
    }
}

/// What the reply to a request waits for, if it is a DELETE.
fn held_for(method: &[u8], least: u64) -> Option<Hold> {
    if method != b"DELETE".as_slice() {
        return None;
    }
    let longest = Duration::from_secs(3_600);
    Some(Hold { least, longest })
}

fn reply_of(before: u64) -> Reply
    ensures { IsWhole result }
{
    let content = Content::Fixed(number_of(before));
    Reply::plain(Status::Ok, None, content)
}

impl Handler for Counter<'_> {
    ghost replies = { λ _ _ _ _. Unit {0} };

    ghost sends = { λ _ _ _ _. ⊥ };

    ghost fails = { λ _ _ _ _. ⊥ };

    ghost size = { λ _. 0 };

    fn answer(&mut self, request: &Request<'_>) -> Reply {
        let before = self.answers;
        self.held = held_for(request.method, before.saturating_add(2));
        if let (1, Some(peer)) = (before, self.asker) {
            sends(peer, GET, true);
        }
        self.answers = before.saturating_add(1);
        reply_of(before)
    }

    fn read_content(&mut self, _offset: u64, _part: &mut [u8]) -> Result<(), ContentFault> {
        Err(ContentFault)
    }
}

impl Downloads for Counter<'_> {
    ghost reads = { λ _ _ _ _ _ _. Unit {0} };

    ghost ticket_of = { λ _. record { version = 0; place = 0; total = 0; first = 0 } };

    fn ticket(&self) -> Ticket {
        NO_TICKET
    }

    fn read_rest(
        &mut self,
        _ticket: Ticket,
        _offset: u64,
        _part: &mut [u8],
    ) -> Result<(), RestFault> {
        Err(RestFault::Failed)
    }
}

impl Prepares for Counter<'_> {
    ghost prepares = { λ _ _ _ _. Unit {0} };

    ghost rests = { λ _ _. Unit {0} };

    ghost holds = { λ s. s.held };

    ghost confirms = { λ s. s.answers };

    fn prepare(&mut self, _connection: u64, _moment: Moment, request: &Request<'_>) -> Preparation {
        if request.method == b"PATCH".as_slice() && self.answers == 0 {
            return Preparation::Rests(Duration::from_secs(3_600));
        }
        if request.method == b"PUT".as_slice() && !self.has_waited {
            self.has_waited = true;
            return Preparation::Waits;
        }
        if self.answers > 1 || request.method != b"POST".as_slice() {
            return Preparation::Ready;
        }
        self.answers = 1;
        Preparation::GoesOn
    }

    fn mark(&self) -> u64 {
        self.answers
    }

    fn hold(&self) -> Option<Hold> {
        self.held
    }

    fn confirmed(&self) -> u64 {
        self.answers
    }
}

/// Whether the peers of a row that wait at a listener are served to the end.
fn serves_at(
    rt: &HostRuntime,
    row: &Row,
    listener: TcpListener,
    streams: &[TcpStream],
    log: &mut Vec<u8>,
) -> bool {
    let asker = if row.asks_again {
        streams.first()
    } else {
        None
    };
    let mut handler = Counter {
        answers: 0,
        has_waited: false,
        held: None,
        asker,
    };
    let count = row.peers.len() as u64;
    match SystemListener::new(rt, rt.alloc(), listener, 8) {
        Ok(mut listener) => {
            let mut lines = Log::new(log);
            let served = serve_on(
                rt,
                rt.alloc(),
                &mut listener,
                count,
                &mut handler,
                &mut lines,
            );
            drop(listener);
            served.is_ok()
        }
        Err(_) => false,
    }
}

/// Whether one more peer connects and sends this. It may end its side.
fn connects(
    rt: &HostRuntime,
    address: SocketAddr,
    sent: &str,
    ends: bool,
    streams: &mut Vec<TcpStream>,
) -> bool {
    match TcpStream::connect(rt, address) {
        Ok(stream) => {
            let is_sent = sends(&stream, sent, ends);
            streams.push(stream).is_ok() && is_sent
        }
        Err(_) => false,
    }
}

/// Whether the peers of a row connect to a listener.
fn connects_to(
    rt: &HostRuntime,
    row: &Row,
    listener: &TcpListener,
    streams: &mut Vec<TcpStream>,
) -> bool {
    let Ok(address) = listener.local_addr() else {
        return false;
    };
    for (sent, _) in row.peers {
        let ends = !row.asks_again || !streams.is_empty();
        if !connects(rt, address, sent, ends, streams) {
            return false;
        }
    }
    true
}

/// Whether the peers of a row connect, and are served to the end.
fn are_served(
    rt: &HostRuntime,
    row: &Row,
    streams: &mut Vec<TcpStream>,
    log: &mut Vec<u8>,
) -> bool {
    match TcpListener::bind(rt, SocketAddr::from((Ipv4Addr::LOCALHOST, 0))) {
        Ok(listener) => {
            connects_to(rt, row, &listener, streams) && serves_at(rt, row, listener, streams, log)
        }
        Err(_) => false,
    }
}

/// Whether a peer reads this up to the end.
fn reads(rt: &HostRuntime, peer: &TcpStream, wanted: &str) -> bool {
    let mut read = Vec::new(rt.alloc());
    let mut reader = peer;
    let is_read = reader.read_to_end(&mut read).is_ok() && read.as_slice() == wanted.as_bytes();
    drop(read);
    is_read
}

/// Whether each peer of a row gets what it is to get.
fn all_read(rt: &HostRuntime, row: &Row, streams: &[TcpStream]) -> bool {
    for (place, (_, wanted)) in row.peers.iter().enumerate() {
        let is_right = match streams.get(place) {
            Some(peer) => reads(rt, peer, wanted),
            None => false,
        };
        if !is_right {
            return false;
        }
    }
    true
}

/// Whether the peers of a row are served, with the log that is wanted, and each gets what it is to get.
fn is_so(rt: &HostRuntime, row: &Row, streams: &mut Vec<TcpStream>, log: &mut Vec<u8>) -> bool {
    are_served(rt, row, streams, log)
        && log.as_slice() == row.log.as_bytes()
        && all_read(rt, row, streams)
}

/// The same with streams and a log of its own.
fn is_row(rt: &HostRuntime, row: &Row) -> bool {
    let mut streams = Vec::new(rt.alloc());
    let mut log = Vec::new(rt.alloc());
    let is_so = is_so(rt, row, &mut streams, &mut log);
    drop(streams);
    drop(log);
    is_so
}

/// The name of the first row of which that isn't so, if there is one.
fn other_row(rt: &HostRuntime) -> Option<&'static str> {
    for row in &ROWS {
        if !is_row(rt, row) {
            return Some(row.name);
        }
    }
    None
}

#[test]
fn peers_on_this_machine_are_served(rt: HostRuntime) {
    same(&rt, &other_row(&rt), &None);
}
