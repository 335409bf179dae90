//! The part `maps`: lines over a map and its parts.
mod areas;
mod boxes;
mod caches;
mod features;
mod map;
mod numbers;
mod random;
mod texts;

use crate::lines::{Line, asked};
use box_index::BoxIndex;
use cached_map::CachedMap;
use caches::Caches;
use number_map::NumberMap;
use script_bytes::Answer;
use std::alloc::{AllocError, Global};
use std::mem;

/// What begins anew.
#[derive(Clone, Copy)]
enum Anew {
    Map,
    Numbers,
    Boxes,
    Caches,
}

/// What a line asks for.
#[derive(Clone, Copy)]
enum Asks {
    Anew(Anew),
    Feature(features::Asks),
    Map(map::Asks),
    Numbers(numbers::Asks),
    Boxes(boxes::Asks),
    Caches(caches::Asks),
}

/// The words that lines begin with.
static WORDS: [(&str, Asks); 48] = [
    ("map", Asks::Anew(Anew::Map)),
    ("numbers", Asks::Anew(Anew::Numbers)),
    ("boxes", Asks::Anew(Anew::Boxes)),
    ("caches", Asks::Anew(Anew::Caches)),
    ("json", Asks::Feature(features::Asks::Json)),
    ("changes", Asks::Feature(features::Asks::Changes)),
    ("checked", Asks::Feature(features::Asks::Checked)),
    ("reach", Asks::Feature(features::Asks::Reach)),
    ("text", Asks::Feature(features::Asks::Text)),
    ("covers", Asks::Feature(features::Asks::Covers)),
    ("put", Asks::Feature(features::Asks::Put)),
    ("deleted", Asks::Feature(features::Asks::Deleted)),
    ("record", Asks::Feature(features::Asks::Record)),
    ("delete", Asks::Map(map::Asks::Delete)),
    ("make", Asks::Map(map::Asks::Make)),
    ("random", Asks::Map(map::Asks::Random)),
    ("restore", Asks::Map(map::Asks::Restore)),
    ("tile", Asks::Map(map::Asks::Tile)),
    ("anew", Asks::Map(map::Asks::Anew)),
    ("layers", Asks::Map(map::Asks::Layers)),
    ("newest", Asks::Map(map::Asks::Newest)),
    ("square", Asks::Map(map::Asks::Square)),
    ("look", Asks::Map(map::Asks::Look)),
    ("tiles", Asks::Map(map::Asks::Tiles)),
    ("snapshot", Asks::Map(map::Asks::Snapshot)),
    ("metadata", Asks::Map(map::Asks::Metadata)),
    ("area", Asks::Map(map::Asks::Area)),
    ("set", Asks::Numbers(numbers::Asks::Set)),
    ("unset", Asks::Numbers(numbers::Asks::Unset)),
    ("get", Asks::Numbers(numbers::Asks::Get)),
    ("from", Asks::Numbers(numbers::Asks::From)),
    ("fillup", Asks::Numbers(numbers::Asks::FillUp)),
    ("filldown", Asks::Numbers(numbers::Asks::FillDown)),
    ("thin", Asks::Numbers(numbers::Asks::Thin)),
    ("serve", Asks::Numbers(numbers::Asks::Serve)),
    ("entries", Asks::Numbers(numbers::Asks::Entries)),
    ("blocks", Asks::Numbers(numbers::Asks::Blocks)),
    ("add", Asks::Boxes(boxes::Asks::Add)),
    ("take", Asks::Boxes(boxes::Asks::Take)),
    ("query", Asks::Boxes(boxes::Asks::Query)),
    ("scatter", Asks::Boxes(boxes::Asks::Scatter)),
    ("gather", Asks::Boxes(boxes::Asks::Gather)),
    ("boxblocks", Asks::Boxes(boxes::Asks::Blocks)),
    ("mark", Asks::Caches(caches::Asks::Mark)),
    ("touched", Asks::Caches(caches::Asks::Touched)),
    ("wide", Asks::Caches(caches::Asks::Wide)),
    ("hold", Asks::Caches(caches::Asks::Hold)),
    ("held", Asks::Caches(caches::Asks::Held)),
];

/// A map, and parts of maps.
#[derive(Drop)]
pub(crate) struct Maps {
    map: CachedMap,
    numbers: NumberMap<u64>,
    boxes: BoxIndex,
    caches: Caches,
}

impl Maps {
    pub(crate) fn new(alloc: Global) -> Result<Maps, AllocError> {
        let caches = Caches::new(alloc)?;
        let map = map::empty_map(alloc, 0)?;
        Ok(Maps {
            map,
            numbers: NumberMap::new(alloc),
            boxes: BoxIndex::new(alloc),
            caches,
        })
    }

    /// Begins anew with the map, whose last edit gets this number, or with what is as dear.
    fn begin_anew(&mut self, answer: &mut Answer, anew: Anew, last: u64) {
        let alloc = answer.alloc();
        match anew {
            Anew::Map => match map::empty_map(alloc, last) {
                Ok(map) => drop(mem::replace(&mut self.map, map)),
                Err(_) => answer.refuse(),
            },
            Anew::Numbers => drop(mem::replace(&mut self.numbers, NumberMap::new(alloc))),
            Anew::Boxes => drop(mem::replace(&mut self.boxes, BoxIndex::new(alloc))),
            Anew::Caches => match Caches::new(alloc) {
                Ok(caches) => drop(mem::replace(&mut self.caches, caches)),
                Err(_) => answer.refuse(),
            },
        }
        answer.say("new");
    }

    /// Answers a line.
    pub(crate) fn answer(&mut self, answer: &mut Answer, line: &Line<'_>) {
        let Some(asks) = asked(&WORDS, line.word) else {
            return answer.reject();
        };
        match asks {
            Asks::Anew(anew) => self.begin_anew(answer, anew, line.numbers[0]),
            Asks::Feature(asks) => features::answer(answer, &mut self.map, asks, line),
            Asks::Map(asks) => map::answer(answer, &mut self.map, asks, line),
            Asks::Numbers(asks) => numbers::answer(answer, &mut self.numbers, asks, line),
            Asks::Boxes(asks) => boxes::answer(answer, &mut self.boxes, asks, line),
            Asks::Caches(asks) => self.caches.answer(answer, asks, line),
        }
    }
}

/// Answers whether there are at most this many blocks.
fn blocks(answer: &mut Answer, count: usize, most: u64) {
    if count as u64 <= most {
        return write!(answer, "at most {most} blocks");
    }
    write!(answer, "{count} blocks");
}
