//! Which tile is made by parts before the reply to its request, and for which connection.
use crate::turns::Turns;
use hilbert_id::TileAt;
use tile_routes::{Action, Method, Target};

/// How many times a tile, or the metadata, are begun for a request while edits go on: an edit drops what is made. They are begun once more while they
/// wait.
pub(crate) const MAX_TRIES: u32 = 4;

/// How many tiles are known to be long.
const MAX_KNOWN: usize = 8;

/// How many tiles are known of which nothing has to be made.
const READY_PLACES: usize = 64;

/// The tile that a request asks for, or its head alone.
pub(crate) fn asked_tile(target: Target, method: &[u8]) -> Option<TileAt> {
    let Target::Tile(at, _) = target else {
        return None;
    };
    match target.method(method) {
        Ok(Method::Get | Method::Head) => Some(at),
        Ok(Method::Post | Method::Put | Method::Delete) | Err(_) => None,
    }
}

/// Whether a request asks for an edit.
pub(crate) fn is_for_edit(target: Target, method: &[u8]) -> bool {
    match target.method(method) {
        Ok(Method::Put | Method::Delete) => true,
        Ok(Method::Post) => matches!(
            target,
            Target::Action(Action::Edits | Action::CheckedEdits) | Target::EditsAt(_)
        ),
        Ok(Method::Get | Method::Head) | Err(_) => false,
    }
}

/// A tile of which nothing has to be made, and the stamp of the tiles then.
#[derive(Clone, Copy)]
struct Ready {
    at: TileAt,
    stamp: u64,
}

/// Tiles of which nothing had to be made when they were asked for last: to know that costs less than to look.
#[derive(Clone, Copy)]
pub(crate) struct ReadyTiles {
    places: [Option<Ready>; READY_PLACES],
}

/// A hash of a tile.
fn tile_hash(at: TileAt) -> u64 {
    u64::from(at.x) ^ (u64::from(at.y) << 3) ^ u64::from(at.z)
}

impl ReadyTiles {
    /// Nothing is known.
    pub(crate) fn new() -> ReadyTiles {
        ReadyTiles {
            places: [None; READY_PLACES],
        }
    }

    /// Whether nothing has to be made of a tile, and no tile was made or changed since that was found.
    pub(crate) fn has(&self, at: TileAt, stamp: u64) -> bool {
        match self.places[(tile_hash(at) % READY_PLACES as u64) as usize] {
            Some(ready) => ready.at == at && ready.stamp == stamp,
            None => false,
        }
    }

    /// Notes that nothing has to be made of a tile.
    pub(crate) fn note(&mut self, at: TileAt, stamp: u64) {
        self.places[(tile_hash(at) % READY_PLACES as u64) as usize] = Some(Ready { at, stamp });
    }
}

/// The tile that is made by parts, one at a time.
#[derive(Clone, Copy)]
pub(crate) struct LongTiles {
    /// Whose request it is for.
    turns: Turns,
    /// The tile, until its reply is ready.
    current: Option<TileAt>,
    /// How many times it was begun.
    tries: u32,
    /// Tiles that were found to be long while another one was made, and where the next one is noted.
    known: [Option<TileAt>; MAX_KNOWN],
    next: usize,
}

impl LongTiles {
    /// No tile is made.
    pub(crate) fn new() -> LongTiles {
        LongTiles {
            turns: Turns::new(),
            current: None,
            tries: 0,
            known: [None; MAX_KNOWN],
            next: 0,
        }
    }

    /// Whether another tile is made, for the request of another connection.
    pub(crate) fn is_other(&self, connection: u64, at: TileAt) -> bool {
        match self.current {
            Some(current) => current != at && !self.turns.is_owner(connection),
            None => false,
        }
    }

    /// Whether a tile was found to be long.
    pub(crate) fn is_known(&self, at: TileAt) -> bool {
        self.known.contains(&Some(at))
    }

    /// Notes that a tile was found to be long.
    pub(crate) fn note(&mut self, at: TileAt) {
        let place = self.next % MAX_KNOWN;
        self.known[place] = Some(at);
        self.next = place + 1;
    }

    /// Whether a connection has to wait before its tile is made.
    pub(crate) fn has_to_wait(&mut self, connection: u64) -> bool {
        self.turns.has_to_wait(connection)
    }

    /// Whether a connection has to wait for another one that has the turns, and whose reply has the same tile.
    pub(crate) fn waits_for_owner(&mut self, connection: u64, at: TileAt) -> bool {
        if self.current != Some(at) || self.turns.is_owner(connection) {
            return false;
        }
        self.turns.has_to_wait(connection)
    }

    /// Gives a connection its turn, in which this tile is made.
    pub(crate) fn give(&mut self, connection: u64, at: TileAt) {
        self.turns.give(connection);
        if self.current != Some(at) {
            self.current = Some(at);
            self.tries = 0;
        }
    }

    /// No tile is made any more: the map has few features now.
    pub(crate) fn forget(&mut self) {
        self.current = None;
    }

    /// Whether the edit of a connection has to wait for the tile, of which edits dropped what was made so many times. It doesn't if the connection for
    /// which the tile is made has no turns any more: the tile is forgotten then.
    pub(crate) fn holds_edit(&mut self, connection: u64) -> bool {
        if self.current.is_none() || self.tries <= MAX_TRIES {
            return false;
        }
        if self.turns.has_to_wait(connection) {
            return true;
        }
        self.current = None;
        false
    }

    /// Whether the tile may be begun, once more.
    pub(crate) fn begins(&mut self) -> bool {
        if self.tries > MAX_TRIES {
            return false;
        }
        self.tries += 1;
        true
    }

    /// The reply of a connection is ready.
    pub(crate) fn leave(&mut self, connection: u64) {
        self.turns.leave(connection);
    }

    /// The reply of a connection is ready, and has this tile.
    pub(crate) fn end(&mut self, connection: u64, at: TileAt) {
        self.leave(connection);
        if self.current == Some(at) {
            self.current = None;
        }
    }
}
