//! What the words of a line say.
use script_bytes::parted;
use script_disks::{ANY, Fails, Narrowness, WIDE, asked};
use sector_disk::FailingCalls;

/// A line, or a part of one.
#[derive(Clone, Copy)]
pub(crate) struct Line<'a> {
    pub(crate) text: &'a str,
    /// The first word, and what follows it.
    pub(crate) word: &'a str,
    pub(crate) rest: &'a str,
    /// How many numbers follow it: none, one, or two where that is something else.
    pub(crate) count: usize,
    /// The number if it is one, and otherwise 0.
    pub(crate) number: u64,
}

impl<'a> Line<'a> {
    pub(crate) fn of(text: &'a str) -> Line<'a> {
        let (word, rest) = parted(text);
        let (count, number) = match rest.parse::<u64>() {
            Ok(number) => (1, number),
            Err(_) if rest.is_empty() => (0, 0),
            Err(_) => (2, 0),
        };
        Line {
            text,
            word,
            rest,
            count,
            number,
        }
    }
}

/// The words for which calls of a disk fail.
static FAILS: [(&str, usize, Fails); 4] = [
    ("", ANY, Fails::None),
    ("from", 1, Fails::From),
    ("lost", 1, Fails::NotMade),
    ("made", 1, Fails::Made),
];

/// Which calls of a disk fail, by a number that is counted from its opening.
#[derive(Clone, Copy)]
pub(crate) struct Failing {
    fails: Fails,
    number: u64,
}

/// No call fails.
pub(crate) const NONE: Failing = Failing {
    fails: Fails::None,
    number: 0,
};

impl Failing {
    /// The same, counted on after a number of calls.
    pub(crate) fn behind(self, calls: u64) -> FailingCalls {
        self.fails.at(calls.saturating_add(self.number))
    }
}

/// Which calls a text says that fail.
pub(crate) fn failing_in(text: &str) -> Option<Failing> {
    let line = Line::of(text);
    let fails = asked(&FAILS, line.word, line.count)?;
    let number = line.number;
    Some(Failing { fails, number })
}

/// The words for whether a writer without room fails.
static ENDS: [(&str, usize, bool); 2] = [("fails", ANY, true), ("full", ANY, false)];

/// What a text says that the writer takes.
pub(crate) fn narrowness_in(text: &str) -> Option<Narrowness> {
    let (size, rest) = parted(text);
    if size.is_empty() {
        return Some(WIDE);
    }
    let (room, end) = parted(rest);
    let size = size.parse::<usize>().ok()?;
    let room = room.parse::<usize>().ok()?;
    let fails = asked(&ENDS, end, ANY)?;
    Some(Narrowness { size, room, fails })
}

/// A number.
pub(crate) fn number_in(text: &str) -> Option<u64> {
    text.parse::<u64>().ok()
}
