//! Whose reply is prepared, where only one is at a time.

/// After how many waits of others the first one that had to wait has no turns any more either: no listener has so many connections.
const MAX_WAITS: u32 = 20_000;

/// Which connection's reply is prepared, and whether another one has to wait for it. Connections that wait ask again after each turn of the
/// others, so one that asks twice in a row knows that the owner has no turns any more.
#[derive(Clone, Copy)]
pub(crate) struct Turns {
    /// The number of the connection that had the last turn.
    owner: u64,
    /// The first connection that had to wait since then.
    waiter: Option<u64>,
    /// How often others had to wait since that one did.
    waits: u32,
}

impl Turns {
    /// No connection had a turn.
    pub(crate) fn new() -> Turns {
        Turns {
            owner: 0,
            waiter: None,
            waits: 0,
        }
    }

    /// Whether this connection had the last turn.
    pub(crate) fn is_owner(self, connection: u64) -> bool {
        self.owner == connection
    }

    /// Gives a connection its turn.
    pub(crate) fn give(&mut self, connection: u64) {
        self.owner = connection;
        self.waiter = None;
    }

    /// Whether a connection other than the owner has to wait for the owner's next turn.
    pub(crate) fn has_to_wait(&mut self, connection: u64) -> bool {
        if self.waiter == Some(connection) {
            return false;
        }
        if self.waiter.is_none() || self.waits >= MAX_WAITS {
            self.waiter = Some(connection);
            self.waits = 0;
        }
        self.waits = self.waits.saturating_add(1);
        true
    }

    /// A connection doesn't wait any more.
    pub(crate) fn leave(&mut self, connection: u64) {
        if self.waiter == Some(connection) {
            self.waiter = None;
        }
    }
}
