//! What is known of the standbys of a map: which of its edits one of them has, and when one was heard of.
ghost use Rattle.std.specs.Prelude.{◌≡◌, max};
ghost use Rattle.map_replies.specs.Confirming.{held_of, made_by};

use http_serve::{Hold, Moment};
use std::time::Duration;

/// How many seconds an edit's reply waits for a standby at most. Without news of one for longer, or with an edit that none got in that time, no edit is
/// made.
const AWAY_SECONDS: u64 = 5;

/// The standbys of a map.
#[derive(Clone, Copy)]
pub(crate) struct Standbys {
    /// Up to which edit one of them has all.
    pub(crate) confirmed: u64,
    /// The edit that the last answer made, or 0.
    pub(crate) made: u64,
    /// How long its reply waits at most.
    pub(crate) longest: Duration,
    /// Whether edits are refused.
    pub(crate) away: bool,
    /// The last edit as the server started, until a standby has it.
    first: Option<u64>,
    /// An edit that none is known to have, and since when.
    lacking: Option<(u64, Duration)>,
    /// When one was heard of last.
    heard: Option<Duration>,
    /// When the last request came to its turn.
    time: Duration,
}

impl Standbys {
    /// Nothing is known. The last edit is this one.
    pub(crate) fn new(last: u64) -> Standbys {
        Standbys {
            confirmed: 0,
            made: 0,
            longest: Duration::from_secs(AWAY_SECONDS),
            away: true,
            first: Some(last),
            lacking: None,
            heard: None,
            time: Duration::ZERO,
        }
    }

    /// A standby has all edits up to this one. The last one that was made is `last`.
    pub(crate) fn hear(&mut self, number: u64, last: u64, moment: Moment)
        ensures confirmed { self.new.confirmed ≡ max self.old.confirmed number }
        ensures made { self.new.made ≡ self.old.made }
    {
        self.heard = Some(moment.now.saturating_sub(moment.waited));
        self.confirmed = self.confirmed.max(number);
        if let Some(first) = self.first {
            if first <= number {
                self.first = None;
            }
        }
        if let Some((lacking, _)) = self.lacking {
            if lacking <= number {
                self.lacking = if number < last {
                    Some((last, moment.now))
                } else {
                    None
                };
            }
        }
    }

    /// Whether a time is longer ago than an edit's reply may wait.
    fn is_long_ago(&self, time: Duration) -> bool {
        self.time.saturating_sub(time) > self.longest
    }

    /// Whether no standby is near: none has had the last edit since the server started, none was heard of for long, or none got an edit in that time.
    fn are_away(&self) -> bool {
        if self.first.is_some() {
            return true;
        }
        let is_silent = match self.heard {
            Some(heard) => self.is_long_ago(heard),
            None => true,
        };
        let is_behind = match self.lacking {
            Some((_, since)) => self.is_long_ago(since),
            None => false,
        };
        is_silent || is_behind
    }

    /// A request has its turn.
    pub(crate) fn look(&mut self, moment: Moment)
        ensures confirmed { self.new.confirmed ≡ self.old.confirmed }
        ensures made { self.new.made ≡ self.old.made }
    {
        self.time = moment.now;
        self.away = self.are_away();
    }

    /// An answer was given, before which the last edit was `before`, and after which it is `after`.
    pub(crate) fn answered(&mut self, before: u64, after: u64)
        ensures confirmed { self.new.confirmed ≡ self.old.confirmed }
        ensures made { self.new.made ≡ made_by before after }
        ensures longest { self.new.longest ≡ self.old.longest }
    {
        if after <= before {
            self.made = 0;
            return;
        }
        self.made = after;
        if self.lacking.is_none() && self.confirmed < after {
            self.lacking = Some((after, self.time));
        }
    }

    /// What the reply to the last answer waits for.
    pub(crate) fn hold(&self) -> Option<Hold>
        ensures { result ≡ held_of self.now }
    {
        if self.made <= self.confirmed {
            return None;
        }
        Some(Hold {
            least: self.made,
            longest: self.longest,
        })
    }

    /// How many seconds ago one was heard of.
    pub(crate) fn seconds(&self) -> Option<u64> {
        match self.heard {
            Some(heard) => Some(self.time.saturating_sub(heard).as_secs()),
            None => None,
        }
    }
}
