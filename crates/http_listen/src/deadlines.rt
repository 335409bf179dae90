//! When the connections are looked at whose peers may have no time left.
ghost use Rattle.std.specs.Prelude.{◌≡◌, ◌+◌, ◌-◌, ◌*◌, ◌^◌, max, min};

/// How many nanoseconds it is at least from one look to the next, for each connection that was looked at: 0.1 s for 10,000.
const LOOK_NANOSECONDS: u64 = 10_000;

/// When the next look at all connections is due. All times are in nanoseconds.
#[derive(Clone, Copy)]
pub(crate) struct Deadlines {
    /// No peer's time is over before.
    next: u64,
    /// The next look isn't before either.
    pause: u64,
}

impl Deadlines {
    /// There are no connections, and there was no look.
    pub(crate) fn new() -> Deadlines
        ensures { result ≡ record { next = 2 ^ 64 - 1; pause = 0 } }
    {
        Deadlines {
            next: u64::MAX,
            pause: 0,
        }
    }

    /// A peer's time is over then.
    pub(crate) fn note(&mut self, end: u64)
        ensures { self.new ≡ record { next = min self.old.next end; pause = self.old.pause } }
    {
        self.next = self.next.min(end);
    }

    /// Begins a look at this many connections: the times of all peers are noted again.
    pub(crate) fn begin_look(&mut self, now: u64, connections: usize)
        ensures { self.new ≡ record { next = 2 ^ 64 - 1; pause = min (now + min (connections * 10_000) (2 ^ 64 - 1)) (2 ^ 64 - 1) } }
    {
        let pause = (connections as u64).saturating_mul(LOOK_NANOSECONDS);
        self.next = u64::MAX;
        self.pause = now.saturating_add(pause);
    }

    /// How long it is to the next look.
    pub(crate) fn left(&self, now: u64) -> u64
        ensures { result ≡ max self.now.next self.now.pause - now }
    {
        self.next.max(self.pause).saturating_sub(now)
    }
}
