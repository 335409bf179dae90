//! The record of contents, which only clauses read.
ghost use Rattle.std.specs.Prelude.{◌≡◌, ◌++◌, ◌∷◌, [], drop};

use std::mem;
use std::snapshot::Snapshot;

/// Contents so far, the newest outermost.
#[derive(Drop)]
pub enum Listed {
    /// No content.
    Nothing,
    /// The bytes of a list from an offset on.
    Added(Snapshot<Vec<u8>>, usize, Snapshot<Listed>),
}

/// Contents in the order in which they were added. It has no bytes, and costs nothing when the program runs.
#[derive(Drop)]
pub(crate) struct ContentList {
    listed: Snapshot<Listed>,
}

impl ContentList {
    ghost use Rattle.pm_build.specs.Listed.{contents_listed};

    /// No contents.
    pub(crate) fn new() -> ContentList
        ensures { contents_listed result ≡ [] }
    {
        ContentList {
            listed: Snapshot::of(&Listed::Nothing),
        }
    }

    /// Adds the bytes of a list from an offset on.
    pub(crate) fn add(&mut self, bytes: &Vec<u8>, from: usize)
        ensures { contents_listed self.new ≡ contents_listed self.old ++ drop from bytes.now.items ∷ [] }
    {
        let before = mem::replace(&mut self.listed, Snapshot::of(&Listed::Nothing));
        let listed = Listed::Added(Snapshot::of(bytes), from, before);
        drop(mem::replace(&mut self.listed, Snapshot::of(&listed)));
    }
}
