//! Builds an archive from tiles.

ghost use Rattle.pm_header.specs.declared.header.TheConstants.{HEADER_BYTES};
ghost use Rattle.std.specs.Prelude.{◌≡◌, ◌≢◌, ◌+◌, ◌≤◌, ◌^◌, ◌↔◌, [], ◌∷◌, ◌++◌, length, Err, OnOk, OnErr, IfOk, IsTrue};
ghost use Rattle.std.specs.List.{concat};
ghost use Rattle.pm_build.specs.Bounded.{IsSize};
ghost use Rattle.pm_build.specs.Building.{CanAdd, AreTooMany, AreFew, NeedEntries, BeginsRun};
ghost use Rattle.pm_build.specs.Different.{contents_of};
ghost use Rattle.pm_metadata.specs.Archive.{IsMetadata};
ghost use Rattle.pm_build.specs.Built.{tile_content, archive_bytes};
ghost use Rattle.pm_build.specs.Laid.{AreLaidOut};
ghost use Rattle.pm_build.specs.Vector.{IsVectorArchive};

use crate::building::front_of_runs;
use crate::built::BuiltArchive;
use crate::checks::is_tile;
use crate::contents::Contents;
use crate::counter::ArchiveCounter;
use crate::fault::BuildFault;
use crate::limit::MAX_ENTRIES;
use crate::run::Run;
use crate::runs::{add_tile, end_of, last_content};
use crate::tile_content::TileContent;
use std::alloc::{AllocError, Global};
use std::marker::Model;

/// Builds an archive from tiles that are added in ascending order of their ids. It keeps each different content once, from the moment
/// that a tile with it is added, and a record for each run of tiles and for each content.
#[derive(Drop)]
pub struct ArchiveBuilder {
    runs: Vec<Run>,
    /// The different contents of the tiles, in the order of first use.
    contents: Contents,
    /// The number of tiles that were added.
    addressed: u64,
    alloc: Global,
}

impl Model for ArchiveBuilder {
    ghost use Rattle.pm_build.specs.Building.{BuilderView};

    ghost Value = { BuilderView };

    ghost use Rattle.pm_build.specs.Kept.{builder_view, IsBuilder};

    ghost view = { builder_view };

    ghost invariant = { IsBuilder };
}

impl ArchiveBuilder {
    /// A builder without tiles. It allocates nothing.
    pub fn new(alloc: Global) -> ArchiveBuilder
        ensures { result ≡ record { tiles = []; ahead = [] } }
    {
        ArchiveBuilder {
            runs: Vec::new(alloc),
            contents: Contents::new(alloc),
            addressed: 0,
            alloc,
        }
    }

    /// A builder without tiles, with memory for `bytes` bytes of contents, or as `new` if that is refused.
    pub fn with_capacity(alloc: Global, bytes: usize) -> ArchiveBuilder
        ensures { result ≡ record { tiles = []; ahead = [] } }
    {
        ArchiveBuilder {
            runs: Vec::new(alloc),
            contents: Contents::with_capacity(alloc, bytes),
            addressed: 0,
            alloc,
        }
    }

    /// Whether no tile was added.
    pub fn is_empty(&self) -> bool
        ensures { IsTrue result ↔ (self.now.tiles ≡ []) }
    {
        self.runs.is_empty()
    }

    /// Whether a tile of this id and content can be added: the id is greater than those of the tiles that were added and is that of a
    /// tile of zooms 0 to 31, and the content has from 1 to 2^32 - 1 bytes.
    pub fn can_add(&self, id: u64, content: &[u8]) -> bool
        ensures { IsTrue result ↔ CanAdd self.now.tiles (id, content.now) }
    {
        is_tile(end_of(&self.runs), id, content)
    }

    /// The number of bytes of the different contents of the tiles that were added. An archive of these tiles is longer.
    pub fn content_len(&self) -> usize
        ensures total { result ≡ length (concat (contents_of self.now.tiles)) }
        ensures bounded { result ≤ 2 ^ 49 }
    {
        self.contents.index().total()
    }

    /// The number of entries that an archive of the tiles that were added has, at most `MAX_ENTRIES`.
    pub fn entries(&self) -> usize
        ensures { NeedEntries self.now.tiles result }
    {
        self.runs.len()
    }

    /// Puts bytes ahead of the tile whose content is added next: the first bytes of its content, or those after the ones that are ahead. They
    /// are copied and hashed, so that `add_ahead` does neither with them.
    ///
    /// # Errors
    ///
    /// An allocation failed. Nothing is put ahead then.
    pub fn put_ahead(&mut self, part: &[u8]) -> Result<(), AllocError>
        ensures put { OnOk result (self.new ≡ record self.old { ahead = self.old.ahead ++ part.now }) }
        ensures unchanged { OnErr result (self.new ≡ self.old) }
    {
        self.contents.put_ahead(part)
    }

    /// Adds a tile. The content is copied only if no tile before it has an equal one. It allocates memory only if the tile begins a run. What is
    /// put ahead is dropped.
    ///
    /// # Errors
    ///
    /// `TooManyEntries` exactly if there are more than `MAX_ENTRIES` runs with this tile. `Memory` if an allocation fails, so only if the
    /// tile begins a run. After an error nothing is added.
    pub fn add(&mut self, id: u64, content: &[u8]) -> Result<(), BuildFault>
        requires { CanAdd self.old.tiles (id, content.now) }
        ensures added { OnOk result (self.new.tiles ≡ self.old.tiles ++ (id, content.now) ∷ []) }
        ensures unchanged { OnErr result (self.new.tiles ≡ self.old.tiles) }
        ensures ahead { self.new.ahead ≡ [] }
        ensures few { OnOk result (AreFew self.new.tiles) }
        ensures many { (result ≡ Err BuildFault.TooManyEntries) ↔ AreTooMany (self.old.tiles ++ (id, content.now) ∷ []) }
        ensures memory { result ≡ Err BuildFault.Memory → BeginsRun self.old.tiles (id, content.now) }
    {
        self.contents.drop_ahead();
        let given = TileContent::Given(content);
        match add_tile(&mut self.runs, &mut self.contents, id, given) {
            Ok(()) => {}
            Err(fault) => return Err(fault),
        }
        self.addressed += 1;
        Ok(())
    }

    /// Adds a tile whose content is what is put ahead. It copies nothing, and compares the content only with one of the same hash and with that of
    /// the tile before, if the ids are consecutive. If an equal one is stored, what was put ahead is dropped. It allocates memory only if the tile
    /// begins a run.
    ///
    /// # Errors
    ///
    /// As `add`. After an error nothing is added, and the same is ahead.
    pub fn add_ahead(&mut self, id: u64) -> Result<(), BuildFault>
        requires { CanAdd self.old.tiles (id, self.old.ahead) }
        ensures added { OnOk result (self.new ≡ record { tiles = self.old.tiles ++ (id, self.old.ahead) ∷ []; ahead = [] }) }
        ensures unchanged { OnErr result (self.new ≡ self.old) }
        ensures few { OnOk result (AreFew self.new.tiles) }
        ensures many { (result ≡ Err BuildFault.TooManyEntries) ↔ AreTooMany (self.old.tiles ++ (id, self.old.ahead) ∷ []) }
        ensures memory { result ≡ Err BuildFault.Memory → BeginsRun self.old.tiles (id, self.old.ahead) }
    {
        match add_tile(&mut self.runs, &mut self.contents, id, TileContent::Ahead) {
            Ok(()) => {}
            Err(fault) => return Err(fault),
        }
        self.addressed += 1;
        Ok(())
    }

    /// A counter of the tiles that were added, and the list of their contents, of which nothing is read any more: the caller gives its memory back.
    /// That of the last tile is copied. The only error is out of memory.
    pub fn into_counter(self) -> Result<(ArchiveCounter, Vec<u8>), AllocError>
        ensures { IfOk result (λ r. r.0 ≡ self.tiles) }
    {
        let last = Vec::from_slice(self.alloc, last_content(&self.runs, &self.contents))?;
        let (contents, spent) = self.contents.into_parts();
        let counter = ArchiveCounter {
            runs: self.runs,
            contents,
            last,
            addressed: self.addressed,
            alloc: self.alloc,
        };
        Ok((counter, spent))
    }

    /// The archive of the tiles that were added, with this metadata, a JSON object: header, root directory, metadata, leaf directories
    /// and contents, without gaps. The contents are not copied. What is put ahead is dropped.
    ///
    /// Tiles of consecutive ids with equal contents share an entry, and equal contents are stored once. Up to 512 entries are stored in
    /// the root directory, more in leaf directories of 512 each. The header has the counts of tiles, entries and contents, the zooms of
    /// the tiles, the bounds of the whole map, and as the centre its middle at the lowest zoom.
    ///
    /// # Errors
    ///
    /// An allocation failed.
    pub fn finish(self, metadata: &[u8]) -> Result<BuiltArchive, AllocError>
        requires some { self.tiles ≢ [] }
        requires metadata { IsMetadata metadata.now }
        ensures archive { IfOk result (λ a. IsVectorArchive (archive_bytes a) metadata.now (tile_content self.tiles)) }
        ensures header { IfOk result (λ a. AreLaidOut (archive_bytes a) self.tiles metadata.now) }
        ensures size { IfOk result (λ a. IsSize self.tiles metadata.now (length (archive_bytes a))) }
        ensures least { IfOk result (λ a. HEADER_BYTES + length metadata.now + length (concat (contents_of self.tiles)) ≤ length (archive_bytes a)) }
        ensures contents { IfOk result (λ a. a.contents.items ≡ concat (contents_of self.tiles)) }
    {
        let front = front_of_runs(
            self.alloc,
            &self.runs,
            self.addressed,
            self.contents.index(),
            metadata,
        )?;
        Ok(BuiltArchive {
            front,
            contents: self.contents.into_bytes(),
        })
    }
}
