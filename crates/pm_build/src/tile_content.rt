//! The content of a tile that is added.

ghost use Rattle.std.specs.Prelude.{◌≡◌, ◌<◌, ◌^◌, [], List, length, OnOk, OnErr, IfOk, Contains};
ghost use Rattle.pm_build.specs.TileContents.{IsApart, bytes_of};
ghost use Rattle.pm_build.specs.Different.{content_at, with_content};
ghost use Rattle.pm_build.specs.Firsts.{AreFirsts};
ghost use Rattle.pm_build.specs.Tiles.{Tile};

use crate::contents::Contents;
use std::alloc::AllocError;

/// The content of a tile that is added.
#[derive(Clone, Copy)]
pub(crate) enum TileContent<'a> {
    /// These bytes, which are copied if no equal content is stored. Nothing is put ahead.
    Given(&'a [u8]),
    /// The bytes that are put ahead.
    Ahead,
}

impl Contents {
    /// The bytes of the content of a tile.
    pub(crate) fn bytes_of<'a>(&'a self, content: TileContent<'a>) -> &'a [u8]
        ensures { result.now ≡ bytes_of content.entry self.entry.now.ahead }
    {
        match content {
            TileContent::Given(bytes) => bytes,
            TileContent::Ahead => self.ahead(),
        }
    }

    /// The place of the content of a tile, which is added after the others if it isn't stored yet, as that of the tile `first`. Nothing is ahead
    /// then. It allocates nothing if it is stored.
    pub(crate) fn place(
        &mut self,
        content: TileContent<'_>,
        first: u64,
    ) -> Result<usize, AllocError>
        requires apart { IsApart content self.old.ahead }
        requires short { length (bytes_of content self.old.ahead) < 2 ^ 32 }
        ensures placed { IfOk result (λ place.
            (place < length self.new.index.contents) × (content_at self.new.index.contents place ≡ bytes_of content.entry self.old.ahead)) }
        ensures contents { OnOk result (self.new.index.contents ≡ with_content self.old.index.contents (bytes_of content.entry self.old.ahead)) }
        ensures firsts { OnOk result ((ts : List Tile)
            → AreFirsts ts self.old.index → Contains ts (first, bytes_of content.entry self.old.ahead) → AreFirsts ts self.new.index) }
        ensures ahead { OnOk result (self.new.ahead ≡ []) }
        ensures unchanged { OnErr result (self.new ≡ self.old) }
    {
        match content {
            TileContent::Given(bytes) => self.place_given(bytes, first),
            TileContent::Ahead => self.place_ahead(first),
        }
    }
}
