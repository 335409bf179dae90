//! For which connection the metadata of a map are made by steps, before their reply.
ghost use Rattle.std.specs.Prelude.{◌≡◌, ◌+◌, ◌<◌, ◌≤◌, true, false, IsTrue};
ghost use Rattle.tile_routes.specs.Methods.{method_on};
ghost use Rattle.tile_routes.specs.Targets.{asked_of};
ghost use Rattle.map_replies.specs.Preparing.{asks_for_metadata};

use crate::long_tiles::MAX_TRIES;
use crate::turns::Turns;
use tile_routes::{Method, Target, View};

/// Whether a request asks for the metadata of the map, or for their head alone.
pub(crate) fn is_for_metadata(target: Target, method: &[u8]) -> bool
    ensures { result ≡ asks_for_metadata (asked_of target) (method_on method.now (asked_of target)) }
{
    match target {
        Target::View(View::Metadata) => match target.method(method) {
            Ok(Method::Get | Method::Head) => true,
            Ok(Method::Post | Method::Put | Method::Delete) | Err(_) => false,
        },
        _ => false,
    }
}

/// The metadata that are made by steps: those who ask for them wait for one of them, which makes the steps.
#[derive(Clone, Copy)]
pub(crate) struct LongMetadata {
    /// Whose request they are for.
    turns: Turns,
    /// Whether they are made for a request.
    is_asked: bool,
    /// How many times they were begun for it.
    tries: u32,
}

impl LongMetadata {
    /// None are made.
    pub(crate) fn new() -> LongMetadata
        ensures { result.is_asked ≡ false }
    {
        LongMetadata {
            turns: Turns::new(),
            is_asked: false,
            tries: 0,
        }
    }

    /// Whether a connection has to wait for another one, which makes the steps.
    pub(crate) fn waits_for_owner(&mut self, connection: u64) -> bool
        ensures waits { IsTrue result → self.old.is_asked ≡ true }
        ensures asked { self.new.is_asked ≡ self.old.is_asked }
        ensures tries { self.new.tries ≡ self.old.tries }
    {
        if !self.is_asked {
            return false;
        }
        if self.turns.is_owner(connection) {
            return false;
        }
        self.turns.has_to_wait(connection)
    }

    /// Gives a connection its turn, in which a step is made.
    pub(crate) fn give(&mut self, connection: u64)
        ensures asked { self.new.is_asked ≡ true }
        // They were begun so many times for a request, until its reply is ready.
        ensures goes_on { self.old.is_asked ≡ true → self.new.tries ≡ self.old.tries }
        ensures first { self.old.is_asked ≡ false → self.new.tries ≡ 0 }
    {
        self.turns.give(connection);
        if !self.is_asked {
            self.is_asked = true;
            self.tries = 0;
        }
    }

    /// Whether they may be begun, once more: an edit drops what is made.
    pub(crate) fn begins(&mut self) -> bool
        ensures may { IsTrue result → self.old.tries ≤ MAX_TRIES }
        ensures counted { IsTrue result → self.new.tries ≡ self.old.tries + 1 }
        ensures spent { result ≡ false → MAX_TRIES < self.old.tries }
    {
        if self.tries > MAX_TRIES {
            return false;
        }
        self.tries += 1;
        true
    }

    /// Whether the edit of a connection has to wait for them, since edits dropped what was made so many times. It doesn't if the connection for which
    /// they are made has no turns any more.
    pub(crate) fn holds_edit(&mut self, connection: u64) -> bool
        ensures asked { IsTrue result → self.old.is_asked ≡ true }
        ensures spent { IsTrue result → MAX_TRIES < self.old.tries }
    {
        if !self.is_asked {
            return false;
        }
        if self.tries <= MAX_TRIES {
            return false;
        }
        if self.turns.has_to_wait(connection) {
            return true;
        }
        self.is_asked = false;
        false
    }

    /// The reply of a connection is ready: none are made any more.
    pub(crate) fn end(&mut self, connection: u64)
        ensures { self.new.is_asked ≡ false }
    {
        self.turns.leave(connection);
        self.is_asked = false;
    }

    /// None are made any more: the map has few features now.
    pub(crate) fn forget(&mut self)
        ensures { self.new.is_asked ≡ false }
    {
        self.is_asked = false;
    }
}
