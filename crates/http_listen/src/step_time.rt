//! How long a turn goes on with steps of a preparation.
ghost use Rattle.std.specs.Prelude.{◌≡◌, ◌≤◌, ◌*◌, None, Some, true, false};
ghost use Rattle.std.specs.Duration.{as_nanos};

use std::time::Duration;

/// How many times as long as the shortest such turn the longest one goes on.
const LONGEST_TURN: u32 = 4;

/// How long a turn goes on with steps: as long as all other turns took since the last one with steps, within two bounds. So steps get half of the
/// time of a busy server, and where few others have turns nobody waits for long. If neither this round nor the one before had a turn with steps, it
/// goes on for the lower bound: what others took before anybody asked for steps isn't counted.
#[derive(Clone, Copy)]
pub(crate) struct StepTime {
    /// The lower bound. The upper one is `LONGEST_TURN` times as long.
    shortest: Duration,
    /// When the last turn with steps was over, if it was in this round or in the one before.
    over: Option<Duration>,
    /// Whether it was in this round.
    is_new: bool,
}

impl StepTime {
    /// No turn had steps.
    pub(crate) fn new(shortest: Duration) -> StepTime
        ensures { result.shortest ≡ shortest }
    {
        StepTime {
            shortest,
            over: None,
            is_new: false,
        }
    }

    /// How long a turn that begins now goes on.
    pub(crate) fn of_turn(&self, now: Duration) -> Duration
        ensures least { as_nanos self.now.shortest ≤ as_nanos result }
        ensures most { as_nanos result ≤ LONGEST_TURN * as_nanos self.now.shortest }
        ensures first { self.now.over ≡ None → result ≡ self.now.shortest }
    {
        let Some(over) = self.over else {
            return self.shortest;
        };
        let others = now.saturating_sub(over);
        let longest = self.shortest.saturating_mul(LONGEST_TURN);
        others.min(longest).max(self.shortest)
    }

    /// A round begins.
    pub(crate) fn begin_round(&mut self)
        ensures shortest { self.new.shortest ≡ self.old.shortest }
        // A turn of the round before the one that ends doesn't count any more.
        ensures forgets { self.old.is_new ≡ false → self.new.over ≡ None }
        ensures keeps { self.old.is_new ≡ true → self.new.over ≡ self.old.over }
        ensures none { self.new.is_new ≡ false }
    {
        if !self.is_new {
            self.over = None;
        }
        self.is_new = false;
    }

    /// A turn with steps is over.
    pub(crate) fn end(&mut self, now: Duration)
        ensures shortest { self.new.shortest ≡ self.old.shortest }
        ensures over { self.new.over ≡ Some now }
        ensures new { self.new.is_new ≡ true }
    {
        self.over = Some(now);
        self.is_new = true;
    }
}
