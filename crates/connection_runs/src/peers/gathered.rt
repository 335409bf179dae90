//! What the lines of a script say of the peers that are served next.
use super::listener::Accepts;
use super::{Act, Does, Peer, Plan};
use script_bytes::Answer;
use script_disks::pair_in;
use std::alloc::Global;

/// What bounds a listener.
#[derive(Clone, Copy)]
pub(crate) struct Room {
    /// How many bytes its log takes; then it is full.
    pub(crate) log: usize,
    /// When it stops.
    pub(crate) stops: u64,
    /// How many bytes all connections may hold.
    pub(crate) held: usize,
    /// How many reads a connection may make.
    pub(crate) reads: u64,
}

/// Peers, with what they do and send, and how the first accepts end.
#[derive(Drop)]
pub(crate) struct Gathered {
    plans: Vec<Plan>,
    acts: Vec<Act>,
    bytes: Vec<u8>,
    /// How the first accepts end.
    pub(super) accepts: Vec<Accepts>,
}

impl Gathered {
    /// No peers.
    pub(crate) fn new(alloc: Global) -> Gathered {
        Gathered {
            plans: Vec::new(alloc),
            acts: Vec::new(alloc),
            bytes: Vec::new(alloc),
            accepts: Vec::new(alloc),
        }
    }

    /// There are no peers any more.
    pub(crate) fn clear(&mut self) {
        self.plans.clear();
        self.acts.clear();
        self.bytes.clear();
        self.accepts.clear();
    }

    /// Another peer. What is said next is said of it. The line doesn't fit if that is none.
    pub(crate) fn add(&mut self, plan: Option<Plan>, answer: &mut Answer) {
        let first = self.acts.len();
        match plan {
            Some(plan) => answer.note(
                self.plans.push(Plan {
                    first,
                    behind: first,
                    ..plan
                }),
            ),
            None => answer.reject(),
        }
    }

    /// So many more peers like the last one.
    pub(crate) fn add_more(&mut self, count: u64, answer: &mut Answer) {
        if let Some(plan) = self.plans.last() {
            let plan = *plan;
            for _ in 0..count {
                answer.note(self.plans.push(plan));
            }
        }
    }

    /// Nothing of the last peer's stream can be set, or it can't be watched.
    pub(crate) fn limit(&mut self, is_stubborn: bool, is_unwatched: bool) {
        if let Some(plan) = self.plans.last_mut() {
            plan.is_stubborn |= is_stubborn;
            plan.is_unwatched |= is_unwatched;
        }
    }

    /// The last peer does something at a time.
    pub(crate) fn act(&mut self, at: u64, does: Does, answer: &mut Answer) {
        answer.note(self.acts.push(Act { at, does }));
        if let Some(plan) = self.plans.last_mut() {
            plan.behind = self.acts.len();
        }
    }

    /// It sends these bytes.
    pub(crate) fn send(&mut self, at: u64, bytes: &[u8], answer: &mut Answer) {
        let from = self.bytes.len();
        answer.note(self.bytes.extend_from_slice(bytes));
        let to = self.bytes.len();
        self.act(at, Does::Sends { from, to }, answer);
    }

    /// So many accepts fail with this error of Linux, as a text says. The line doesn't fit if it says none.
    pub(crate) fn accept(&mut self, text: &str, answer: &mut Answer) {
        match pair_in::<usize, i32>(text, ' ') {
            Some((count, error)) => answer.note(self.accepts.push(Accepts { count, error })),
            None => answer.reject(),
        }
    }

    /// Adds the peers.
    pub(super) fn add_peers<'a>(
        &'a self,
        alloc: Global,
        peers: &mut Vec<Peer<'a>>,
        answer: &mut Answer,
    ) {
        for plan in &self.plans {
            answer.note(peers.push(Peer::new(alloc, *plan, &self.acts, &self.bytes)));
        }
    }
}
