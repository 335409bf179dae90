//! The places of open connections: which may have their turn, and which may be closed for others.
ghost use Rattle.std.specs.Prelude.{◌≡◌, ◌≢◌, ◌≤◌, ℕ, None, Some, IsSome, IfOk, IfErr, OnErr, MatchOption};
ghost use Rattle.http_listen.specs.Conversations.{Puts};
ghost use Rattle.http_listen.specs.LetsGo.{KeepsHolds, LetsGo};
ghost use Rattle.http_listen.specs.Stays.{AllStand};
ghost use Rattle.http_listen.specs.Places.{peer_at, taken_out, next_key, KeepsAll, Reports};

use crate::peers::Peer;
use crate::waits::{Change, Waits};
use slab::Slab;
use std::alloc::Global;

/// What the connections of a list have in common.
#[derive(Clone, Copy, PartialEq, Eq)]
pub(crate) enum List {
    /// They may have their turn. The one whose last turn is longest ago comes first.
    Ready,
    /// Their streams aren't watched yet for what they wait for.
    Unwatched,
    /// They wait for a request, of which nothing has come. The one that has waited longest comes first.
    Idle,
    /// They wait for the rest of a request, or until a reply can be sent.
    Busy,
    /// They have ended, and what their peers still send is dropped.
    Ended,
    /// Their requests rest until their replies say more.
    Resting,
    /// Their replies wait until they may be sent. What the first one waits for is made before what the others do.
    Held,
}

/// The keys of the first and the last connection of a list, and how many it has.
#[derive(Clone, Copy)]
pub(crate) struct Ends {
    pub(crate) first: Option<usize>,
    last: Option<usize>,
    pub(crate) count: usize,
}

const EMPTY: Ends = Ends {
    first: None,
    last: None,
    count: 0,
};

/// A connection, and its neighbours in its list.
#[derive(Drop)]
struct Place<S> {
    /// Boxed, since it is taken out for each of its turns.
    peer: Box<Peer<S>>,
    list: List,
    before: Option<usize>,
    after: Option<usize>,
    /// How many bytes it holds.
    held: usize,
}

/// The open connections, each at a key, and each in one list. What is done with one of them takes as long whether there are many or few.
#[derive(Drop)]
pub struct Places<S> {
    places: Slab<Place<S>>,
    ready: Ends,
    unwatched: Ends,
    idle: Ends,
    busy: Ends,
    ended: Ends,
    resting: Ends,
    waiting: Ends,
    /// How many bytes of requests and replies they hold.
    pub(crate) held: usize,
}

impl<S> Places<S> {
    /// No connections.
    pub(crate) fn new(alloc: Global) -> Self
        ensures { (key : ℕ) → peer_at result key ≡ None }
    {
        Places {
            places: Slab::new(alloc),
            ready: EMPTY,
            unwatched: EMPTY,
            idle: EMPTY,
            busy: EMPTY,
            ended: EMPTY,
            resting: EMPTY,
            waiting: EMPTY,
            held: 0,
        }
    }

    /// How many connections there are.
    pub(crate) fn count(&self) -> usize {
        self.places.len()
    }

    /// A number above all keys.
    pub(crate) fn key_bound(&self) -> usize
        ensures { (key : ℕ) → result ≤ key → peer_at self.now key ≡ None }
    {
        self.places.capacity()
    }

    /// The connection at a key.
    pub(crate) fn get(&self, key: usize) -> Option<&Peer<S>>
        ensures { MatchOption result (peer_at self.now key ≡ None) (λ peer. peer_at self.now key ≡ Some peer.now) }
    {
        match self.places.get(key) {
            Some(place) => Some(&*place.peer),
            None => None,
        }
    }

    /// The ends of a list.
    pub(crate) fn ends(&self, list: List) -> Ends {
        match list {
            List::Ready => self.ready,
            List::Unwatched => self.unwatched,
            List::Idle => self.idle,
            List::Busy => self.busy,
            List::Ended => self.ended,
            List::Resting => self.resting,
            List::Held => self.waiting,
        }
    }

    /// The connection that comes after the one at a key in its list.
    pub(crate) fn after(&self, key: usize) -> Option<usize> {
        match self.places.get(key) {
            Some(place) => place.after,
            None => None,
        }
    }

    /// Changes the ends of a list.
    fn set_ends(&mut self, list: List, ends: Ends)
        ensures { self.new.places ≡ self.old.places }
    {
        match list {
            List::Ready => self.ready = ends,
            List::Unwatched => self.unwatched = ends,
            List::Idle => self.idle = ends,
            List::Busy => self.busy = ends,
            List::Ended => self.ended = ends,
            List::Resting => self.resting = ends,
            List::Held => self.waiting = ends,
        }
    }

    /// The key of some connection, if there is one.
    pub(crate) fn any(&self) -> Option<usize> {
        let waiting = self.ends(List::Ended).first.or(self.ends(List::Idle).first);
        let working = self
            .ends(List::Busy)
            .first
            .or(self.ends(List::Unwatched).first);
        let resting = self
            .ends(List::Resting)
            .first
            .or(self.ends(List::Held).first);
        waiting
            .or(resting)
            .or(working)
            .or(self.ends(List::Ready).first)
    }

    /// Sets which connection of a list comes after another one, or after `None` as its first. `None` ends the list.
    fn set_after(&mut self, list: List, before: Option<usize>, after: Option<usize>)
        ensures { KeepsAll self.old self.new }
    {
        match before {
            None => {
                let ends = self.ends(list);
                self.set_ends(
                    list,
                    Ends {
                        first: after,
                        ..ends
                    },
                );
            }
            Some(key) => {
                if let Some(place) = self.places.get_mut(key) {
                    place.after = after;
                }
            }
        }
    }

    /// Sets which connection of a list comes before another one, or before `None` as its last. `None` begins the list.
    fn set_before(&mut self, list: List, before: Option<usize>, after: Option<usize>)
        ensures { KeepsAll self.old self.new }
    {
        match after {
            None => {
                let ends = self.ends(list);
                self.set_ends(
                    list,
                    Ends {
                        last: before,
                        ..ends
                    },
                );
            }
            Some(key) => {
                if let Some(place) = self.places.get_mut(key) {
                    place.before = before;
                }
            }
        }
    }

    /// Makes two connections neighbours in a list. `None` is its end.
    fn join(&mut self, list: List, before: Option<usize>, after: Option<usize>)
        ensures { KeepsAll self.old self.new }
    {
        self.set_after(list, before, after);
        self.set_before(list, before, after);
    }

    /// Adds to the number of connections of a list.
    fn add_count(&mut self, list: List, added: usize, removed: usize)
        ensures { KeepsAll self.old self.new }
    {
        let mut ends = self.ends(list);
        ends.count = ends.count.saturating_add(added).saturating_sub(removed);
        self.set_ends(list, ends);
    }

    /// Puts a connection, which is in no list, into this one between two neighbours.
    fn link(&mut self, key: usize, list: List, before: Option<usize>, after: Option<usize>)
        ensures { KeepsAll self.old self.new }
    {
        self.join(list, before, Some(key));
        self.join(list, Some(key), after);
        self.add_count(list, 1, 0);
        if let Some(place) = self.places.get_mut(key) {
            place.list = list;
        }
    }

    /// Takes a connection out of its list.
    fn unlink(&mut self, key: usize)
        ensures { KeepsAll self.old self.new }
    {
        let Some(place) = self.places.get(key) else {
            return;
        };
        let (list, before, after) = (place.list, place.before, place.after);
        self.join(list, before, after);
        self.add_count(list, 0, 1);
    }

    /// The list that a connection is to be in.
    fn list_of(&self, key: usize) -> List {
        match self.places.get(key) {
            Some(place) => place.peer.list(key),
            None => List::Ready,
        }
    }

    /// Puts a connection, which is in no list, at the end of the one that it is to be in.
    fn link_last(&mut self, key: usize)
        ensures { KeepsAll self.old self.new }
    {
        let list = self.list_of(key);
        let last = self.ends(list).last;
        self.link(key, list, last, None);
    }

    /// Moves a connection to the beginning of its list.
    pub(crate) fn move_first(&mut self, key: usize)
        ensures { KeepsAll self.old self.new }
    {
        self.unlink(key);
        let list = self.list_of(key);
        let first = self.ends(list).first;
        self.link(key, list, None, first);
    }

    /// Moves a connection if it is to be in another list.
    fn move_to_its_list(&mut self, key: usize)
        ensures { KeepsAll self.old self.new }
    {
        let wanted = self.list_of(key);
        match self.places.get(key) {
            Some(place) if place.list != wanted => {}
            _ => return,
        }
        self.unlink(key);
        self.link_last(key);
    }

    /// Adds a connection, at the end of the list that it is to be in. Returns its key, which is the one that the last connection had
    /// that was taken out, or the connection if memory runs out.
    pub(crate) fn put(&mut self, peer: Box<Peer<S>>) -> Result<usize, Box<Peer<S>>>
        ensures free { IfOk result (λ key. peer_at self.old key ≡ None) }
        ensures next { IfOk result (λ key. key ≡ next_key self.old) }
        ensures put { IfOk result (λ key. Puts (peer_at self.old) key peer.value (peer_at self.new)) }
        ensures back { IfErr result (λ back. back ≡ peer) }
        ensures same { OnErr result (KeepsAll self.old self.new) }
    {
        let held = peer.connection.held();
        let place = Place {
            peer,
            list: List::Ready,
            before: None,
            after: None,
            held,
        };
        let key = match self.places.insert(place) {
            Ok(key) => key,
            Err(refused) => {
                let Place { peer, .. } = refused.value;
                return Err(peer);
            }
        };
        self.held = self.held.saturating_add(held);
        self.link_last(key);
        Ok(key)
    }

    /// Takes a connection out.
    pub(crate) fn take(&mut self, key: usize) -> Option<Box<Peer<S>>>
        ensures taken { taken_out result ≡ peer_at self.old key }
        ensures none { peer_at self.new key ≡ None }
        ensures next { IsSome result → next_key self.new ≡ key }
        ensures others { (other : ℕ) → other ≢ key → peer_at self.new other ≡ peer_at self.old other }
    {
        self.unlink(key);
        let Place { peer, held, .. } = self.places.try_remove(key)?;
        self.held = self.held.saturating_sub(held);
        Some(peer)
    }

    /// Reports what the stream of the connection at a key has become ready for. If there is none, nothing happens.
    pub fn report(&mut self, key: usize, change: Change)
        ensures { Reports key change self.old self.new }
    {
        let Some(place) = self.places.get_mut(key) else {
            return;
        };
        place.peer.state.ready = place.peer.state.ready.changed(change);
        self.move_to_its_list(key);
    }

    /// Whether the request of the connection at a key rests.
    pub(crate) fn rests(&self, key: usize) -> bool {
        match self.places.get(key) {
            Some(place) => place.peer.state.rests.is_some(),
            None => false,
        }
    }

    /// The connection at a key rests no longer.
    pub(crate) fn wake(&mut self, key: usize)
        ensures stands { AllStand (peer_at self.old) (peer_at self.new) }
        ensures holds { KeepsHolds (peer_at self.old) (peer_at self.new) }
    {
        let Some(place) = self.places.get_mut(key) else {
            return;
        };
        place.peer.state.rests = None;
        self.move_to_its_list(key);
    }

    /// The replies of the connection at a key wait for nothing but its peer, if this is as much as they waited for.
    fn confirm(&mut self, key: usize, confirmed: u64)
        ensures stands { AllStand (peer_at self.old) (peer_at self.new) }
        ensures lets_go { LetsGo confirmed (peer_at self.old) (peer_at self.new) }
    {
        let Some(place) = self.places.get_mut(key) else {
            return;
        };
        place.peer.confirm(confirmed);
        self.move_to_its_list(key);
    }

    /// No connection rests any longer.
    pub(crate) fn wake_resting(&mut self)
        ensures stands { AllStand (peer_at self.old) (peer_at self.new) }
        ensures holds { KeepsHolds (peer_at self.old) (peer_at self.new) }
    {
        'wakes: for _ in 0..self.ends(List::Resting).count {
            let Some(key) = self.ends(List::Resting).first else {
                return;
            };
            self.wake(key);
        }
    }

    /// Replies that wait for no more than this are sent. They were made in the order of what they wait for.
    pub(crate) fn release(&mut self, confirmed: u64)
        ensures stands { AllStand (peer_at self.old) (peer_at self.new) }
        ensures lets_go { LetsGo confirmed (peer_at self.old) (peer_at self.new) }
    {
        'releases: for _ in 0..self.ends(List::Held).count {
            let Some(key) = self.ends(List::Held).first else {
                return;
            };
            self.confirm(key, confirmed);
            if self.ends(List::Held).first == Some(key) {
                return;
            }
        }
    }

    /// Has a listener watch the stream of the connection at a key for what it waits for. Whether that is done.
    pub(crate) fn watch<L>(&mut self, key: usize, listener: &mut L) -> bool
    where
        L: Waits<Stream = S>,
        ensures { AllStand (peer_at self.old) (peer_at self.new) }
    {
        let Some(place) = self.places.get_mut(key) else {
            return false;
        };
        let sends = place.peer.sends();
        if listener.watch(&place.peer.stream, key, sends).is_err() {
            return false;
        }
        place.peer.state.watched = Some((key, sends));
        self.move_to_its_list(key);
        true
    }
}
