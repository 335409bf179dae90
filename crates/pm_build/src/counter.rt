//! Counts the tiles of an archive.

ghost use Rattle.pm_header.specs.declared.header.TheConstants.{HEADER_BYTES};
ghost use Rattle.std.specs.Prelude.{◌≡◌, ◌≢◌, ◌+◌, ◌<◌, ◌≤◌, ◌^◌, ◌↔◌, ℕ, List, [], ◌∷◌, ◌++◌, length, true, false, Err, Some, OnOk, OnErr, IfOk, Contains};
ghost use Rattle.std.specs.List.{concat};
ghost use Rattle.pm_build.specs.Bounded.{IsSize};
ghost use Rattle.pm_build.specs.Building.{CanAdd, AreTooMany, AreFew, NeedEntries, BeginsRun};
ghost use Rattle.pm_build.specs.Counted.{IsPlaceAmong, IsPlaceOf};
ghost use Rattle.pm_build.specs.Different.{content_at, contents_of, with_content};
ghost use Rattle.pm_build.specs.Firsts.{AreFirsts};
ghost use Rattle.pm_build.specs.Indexed.{IsNextOf, up_to};
ghost use Rattle.pm_metadata.specs.Archive.{IsMetadata};
ghost use Rattle.pm_build.specs.Built.{tile_content};
ghost use Rattle.pm_build.specs.Laid.{AreLaidOut};
ghost use Rattle.pm_build.specs.Tiles.{Tile};
ghost use Rattle.pm_build.specs.Vector.{IsVectorArchive};

use crate::building::front_of_runs;
use crate::fault::BuildFault;
use crate::hashing::hash_of;
use crate::index::ContentIndex;
use crate::run::Run;
use crate::runs::{join_last, room_for_run};
use std::alloc::{AllocError, Global};
use std::marker::Model;

/// Counts what an archive of tiles has, tiles that are added in ascending order of their ids, without keeping their contents: of each
/// different one it has the length, a hash and the id of its first tile. The caller makes that tile again to see whether a content is equal.
#[derive(Drop)]
pub struct ArchiveCounter {
    pub(crate) runs: Vec<Run>,
    /// The different contents of the tiles, in the order of first use.
    pub(crate) contents: ContentIndex,
    /// The content of the last tile.
    pub(crate) last: Vec<u8>,
    /// The number of tiles that were added.
    pub(crate) addressed: u64,
    pub(crate) alloc: Global,
}

impl Model for ArchiveCounter {
    ghost use Rattle.std.specs.Prelude.{List};
    ghost use Rattle.pm_build.specs.Tiles.{Tile};

    ghost Value = { List Tile };

    ghost use Rattle.pm_build.specs.Counted.{tiles_counted, IsCounter};

    ghost view = { tiles_counted };

    ghost invariant = { IsCounter };
}

/// The place of a content: that of the equal one, or the one behind all others, where it is added as that of the tile `first`.
fn place_counted(
    contents: &mut ContentIndex,
    content: &Vec<u8>,
    first: u64,
    equal: Option<usize>,
) -> Result<usize, AllocError>
    requires short { length content.now.items < 2 ^ 32 }
    requires total { length (concat contents.old.contents) + length content.now.items < 2 ^ 64 }
    requires equal { IsPlaceAmong contents.old.contents content.now.items equal }
    ensures placed { IfOk result (λ place. (place < length contents.new.contents) × (content_at contents.new.contents place ≡ content.now.items)) }
    ensures contents { OnOk result (contents.new.contents ≡ with_content contents.old.contents content.now.items) }
    ensures firsts { OnOk result ((ts : List Tile) → AreFirsts ts contents.old → Contains ts (first, content.now.items) → AreFirsts ts contents.new) }
    ensures unchanged { OnErr result (contents.new ≡ contents.old) }
{
    match equal {
        Some(place) => Ok(place),
        None => contents.push(content, 0, hash_of(content), first),
    }
}

impl ArchiveCounter {
    /// Adds a tile if it continues the last run, and returns whether it did. It allocates nothing.
    pub fn join(&mut self, id: u64, content: &[u8]) -> bool
        requires { CanAdd self.old (id, content.now) }
        ensures added { result ≡ true → self.new ≡ self.old ++ (id, content.now) ∷ [] }
        ensures few { result ≡ true → AreFew self.new }
        ensures unchanged { result ≡ false → self.new ≡ self.old }
        ensures begins { result ≡ false → BeginsRun self.old (id, content.now) }
    {
        let joined = join_last(&mut self.runs, &self.last, id, content);
        if joined {
            self.addressed += 1;
        }
        joined
    }

    /// The place of a content that may be equal to this one, the last of all.
    pub fn last_like(&self, content: &[u8]) -> Option<usize>
        ensures { IsNextOf (contents_of self.now) content.now result }
    {
        self.contents.last_of(hash_of(content))
    }

    /// The place of a content before that at `place` that may be equal to one that this isn't equal to, though it may have been.
    pub fn like_before(&self, place: usize) -> Option<usize>
        requires { place < length (contents_of self.now) }
        ensures next { (content : List ℕ) → IsNextOf (contents_of self.now) content (Some place)
            → content_at (contents_of self.now) place ≢ content → IsNextOf (contents_of self.now) content result }
        ensures before { up_to result ≤ place }
    {
        self.contents.before(place)
    }

    /// The id of the first tile that has the content at a place.
    pub fn first_with(&self, place: usize) -> u64
        requires { place < length (contents_of self.now) }
        ensures { Contains self.now (result, content_at (contents_of self.now) place) }
    {
        self.contents.stored_at(place).first
    }

    /// Adds a tile that begins a run. `equal` is the place of the content that is equal to its own, if there is one.
    ///
    /// # Errors
    ///
    /// `TooManyEntries` exactly if there are more than `MAX_ENTRIES` runs with this tile. `Memory` if an allocation fails. After an error
    /// nothing is added.
    pub fn begin(
        &mut self,
        id: u64,
        content: Vec<u8>,
        equal: Option<usize>,
    ) -> Result<(), BuildFault>
        requires can { CanAdd self.old (id, content.items) }
        requires begins { BeginsRun self.old (id, content.items) }
        requires equal { IsPlaceOf self.old content.items equal }
        ensures added { OnOk result (self.new ≡ self.old ++ (id, content.items) ∷ []) }
        ensures unchanged { OnErr result (self.new ≡ self.old) }
        ensures few { OnOk result (AreFew self.new) }
        ensures many { (result ≡ Err BuildFault.TooManyEntries) ↔ AreTooMany (self.old ++ (id, content.items) ∷ []) }
    {
        match room_for_run(&mut self.runs) {
            Ok(()) => {}
            Err(fault) => return Err(fault),
        }
        let place = match place_counted(&mut self.contents, &content, id, equal) {
            Ok(place) => place,
            Err(_) => return Err(BuildFault::Memory),
        };
        self.runs
            .push(Run {
                first: id,
                count: 1,
                place,
            })
            .unwrap();
        self.last = content;
        self.addressed += 1;
        Ok(())
    }

    /// The number of entries that an archive of the tiles that were added has, at most `MAX_ENTRIES`.
    pub fn entries(&self) -> usize
        ensures { NeedEntries self.now result }
    {
        self.runs.len()
    }

    /// The length in bytes of the archive of the tiles that were added, with this metadata, a JSON object: that of what
    /// `ArchiveBuilder::finish` would give.
    ///
    /// # Errors
    ///
    /// An allocation failed.
    pub fn archive_len(&self, metadata: &[u8]) -> Result<usize, AllocError>
        requires some { self.now ≢ [] }
        requires metadata { IsMetadata metadata.now }
        ensures archive { IfOk result (λ len. (archive : List ℕ) × (len ≡ length archive)
            × IsVectorArchive archive metadata.now (tile_content self.now) × AreLaidOut archive self.now metadata.now) }
        ensures size { IfOk result (λ len. IsSize self.now metadata.now len) }
        ensures least { IfOk result (λ len. HEADER_BYTES + length metadata.now + length (concat (contents_of self.now)) ≤ len) }
    {
        let front = front_of_runs(
            self.alloc,
            &self.runs,
            self.addressed,
            &self.contents,
            metadata,
        )?;
        Ok(front.len() + self.contents.total())
    }
}
