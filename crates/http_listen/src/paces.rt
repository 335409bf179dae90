//! How much time a peer has.
ghost use Rattle.std.specs.Prelude.{◌≡◌, ◌≢◌, ◌≤◌, ◌+◌, ◌*◌, ◌↔◌, if◌then◌else◌, IsTrue};
ghost use Rattle.http_listen.specs.Paces.{begun, less_time, earned};
ghost use Rattle.http_listen.specs.declared.paces.Stage.TheVariants.{Idle, Request, Reply};

use std::time::Duration;

/// The time that a peer has for each stage, in seconds.
const WAIT_SECONDS: u64 = 60;

/// How many bytes of a reply earn its peer a second more.
const BYTES_A_SECOND: u64 = 16_384;

/// A second in nanoseconds.
const SECOND: u64 = 1_000_000_000;

/// A duration in nanoseconds, saturating at `u64::MAX`.
pub(crate) fn nanoseconds_of(duration: Duration) -> u64 {
    u64::try_from(duration.as_nanos()).unwrap_or(u64::MAX)
}

/// What a connection does.
#[derive(Clone, Copy)]
pub(crate) enum Stage {
    /// It waits for a request, of which nothing has come.
    Idle,
    /// It waits for the rest of a request.
    Request,
    /// It writes replies.
    Reply,
}

/// How much time a peer has left in the present stage. It has `WAIT_SECONDS` in each. A reply earns it more as it is sent, but never
/// more than that at once: a peer that has read fast may not stop for longer.
#[derive(Clone, Copy)]
pub(crate) struct Pace {
    stage: Stage,
    /// The time that is left, in nanoseconds.
    pub(crate) left: u64,
    /// How many bytes were sent that haven't earned a second yet.
    spare: u64,
}

impl Pace {
    /// The beginning of a stage.
    pub(crate) fn begin(stage: Stage) -> Pace
        ensures { result ≡ begun stage }
    {
        Pace {
            stage,
            left: WAIT_SECONDS * SECOND,
            spare: 0,
        }
    }

    /// A read is to be made, with nothing of a request there, or a part of one. The first read after a reply begins a stage.
    pub(crate) fn reads(self, idle: bool) -> Pace
        ensures begins { self.stage ≡ Reply → result ≡ begun (if idle then Idle else Request) }
        ensures goes_on { self.stage ≢ Reply → result ≡ self }
    {
        match self.stage {
            Stage::Reply => Pace::begin(if idle { Stage::Idle } else { Stage::Request }),
            Stage::Idle | Stage::Request => self,
        }
    }

    /// A read gave something. The first bytes of a request begin a stage.
    pub(crate) fn received(self) -> Pace
        ensures begins { self.stage ≡ Idle → result ≡ begun Request }
        ensures goes_on { self.stage ≢ Idle → result ≡ self }
    {
        match self.stage {
            Stage::Idle => Pace::begin(Stage::Request),
            Stage::Request | Stage::Reply => self,
        }
    }

    /// A write is to be made. The first write after a read begins a stage.
    pub(crate) fn writes(self) -> Pace
        ensures begins { self.stage ≢ Reply → result ≡ begun Reply }
        ensures goes_on { self.stage ≡ Reply → result ≡ self }
    {
        match self.stage {
            Stage::Idle | Stage::Request => Pace::begin(Stage::Reply),
            Stage::Reply => self,
        }
    }

    /// A call of the stream took this many nanoseconds.
    pub(crate) fn waited(self, nanoseconds: u64) -> Pace
        ensures { result ≡ less_time self nanoseconds }
    {
        let left = self.left.saturating_sub(nanoseconds);
        Pace { left, ..self }
    }

    /// This many bytes of a reply were sent.
    pub(crate) fn sent(self, bytes: usize) -> Pace
        ensures { result ≡ earned self bytes }
    {
        let unpaid = u128::from(self.spare) + bytes as u128;
        let seconds = unpaid / u128::from(BYTES_A_SECOND);
        let left = u128::from(self.left) + seconds * u128::from(SECOND);
        Pace {
            left: left.min(u128::from(WAIT_SECONDS * SECOND)) as u64,
            spare: (unpaid % u128::from(BYTES_A_SECOND)) as u64,
            ..self
        }
    }

    /// Whether a request was begun this many nanoseconds ago or earlier, and isn't whole.
    pub(crate) fn has_begun(self, nanoseconds: u64) -> bool
        ensures { IsTrue result → (self.stage ≡ Request) × (self.left + nanoseconds ≤ WAIT_SECONDS * SECOND) }
    {
        match self.stage {
            Stage::Request => self.left.saturating_add(nanoseconds) <= WAIT_SECONDS * SECOND,
            Stage::Idle | Stage::Reply => false,
        }
    }

    /// Whether no time is left.
    pub(crate) fn is_over(self) -> bool
        ensures { IsTrue result ↔ (self.left ≡ 0) }
    {
        self.left == 0
    }
}
