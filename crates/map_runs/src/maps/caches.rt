//! Lines over the newest edits of the world's cells, and over tiles that are kept.
use super::boxes::bounds_of;
use crate::lines::{Line, byte, tile_at};
use hilbert_id::TileAt;
use script_bytes::Answer;
use std::alloc::{AllocError, Global};
use std::rc::RcSlice;
use tile_cache::{CachedTile, Origin, TileCache, TouchGrid, WideGrid};

/// What a line over these asks for.
#[derive(Clone, Copy)]
pub(crate) enum Asks {
    Mark,
    Touched,
    Wide,
    Hold,
    Held,
}

/// Grids of cells, and a cache of tiles.
#[derive(Drop)]
pub(crate) struct Caches {
    grid: TouchGrid,
    wide: WideGrid,
    cache: TileCache,
}

impl Caches {
    pub(crate) fn new(alloc: Global) -> Result<Caches, AllocError> {
        Ok(Caches {
            grid: TouchGrid::new(),
            wide: WideGrid::new(alloc)?,
            cache: TileCache::new(alloc)?,
        })
    }

    /// Notes that an edit touched a box.
    fn mark(&mut self, answer: &mut Answer, numbers: [u64; 8]) {
        let [x0, x1, y0, y1, number, ..] = numbers;
        let bounds = bounds_of(x0, x1, y0, y1);
        self.grid.mark(&bounds, number);
        self.wide.mark(&bounds, number);
        answer.say("marked");
    }

    /// Keeps a tile of three bytes: this one, 1 and 2.
    fn hold(&mut self, answer: &mut Answer, at: TileAt, number: u64, first: u64) {
        let Ok(bytes) = RcSlice::from_slice(answer.alloc(), &[byte(first), 1, 2]) else {
            return answer.refuse();
        };
        let tile = CachedTile {
            origin: Origin::Cut,
            number,
            bytes,
        };
        match self.cache.keep(at, tile) {
            Ok(()) => answer.say("held"),
            Err(_) => answer.refuse(),
        }
    }

    /// The tile that is kept for a place, if it is as new as this number.
    fn held(&mut self, answer: &mut Answer, at: TileAt, newest: u64) {
        self.cache.promote(at);
        match self.cache.peek(at, newest, false) {
            Some(bytes) => answer.hex(bytes.as_slice()),
            None => answer.say("none"),
        }
    }

    /// Answers a line over these.
    pub(crate) fn answer(&mut self, answer: &mut Answer, asks: Asks, line: &Line<'_>) {
        if let Asks::Mark = asks {
            return self.mark(answer, line.numbers);
        }
        let Some(at) = tile_at(line.numbers) else {
            return answer.say("no tile");
        };
        let [_, _, _, fourth, fifth, ..] = line.numbers;
        match asks {
            Asks::Hold => self.hold(answer, at, fourth, fifth),
            Asks::Held => self.held(answer, at, fourth),
            Asks::Wide => answer.tell(&self.wide.newest(at)),
            _ => answer.tell(&self.grid.newest(at)),
        }
    }
}
