//! Joins tiles to the longest runs.
ghost use Rattle.std.specs.Prelude.{◌≡◌, ◌+◌, ◌<◌, ◌≤◌, ◌^◌, ◌↔◌, ◌++◌, ◌∷◌, [], ℕ, List, length};
ghost use Rattle.std.specs.Prelude.{Err, OnOk, OnErr, Contains, false, if◌then◌else◌, vec_capacity};
ghost use Rattle.std.specs.Bool.{OnFalse};
ghost use Rattle.pm_build.specs.TileContents.{IsApart, bytes_of};
ghost use Rattle.pm_build.specs.Different.{with_content};
ghost use Rattle.pm_build.specs.Firsts.{AreFirsts};
ghost use Rattle.pm_build.specs.Joined.{ArePlaces, IsLast, run_views, goes_on, run_of, last_end, goes_on_last, last_grown, with_tile};
ghost use Rattle.pm_build.specs.Tiles.{Tile};

use crate::contents::Contents;
use crate::fault::BuildFault;
use crate::limit::MAX_ENTRIES;
use crate::run::Run;
use crate::tile_content::TileContent;

/// Whether a tile continues a run whose content is `last`: its id follows, its content is equal, and the run has fewer than 2^32 - 1 tiles.
fn goes_on(run: &Run, last: &[u8], id: u64, content: &[u8]) -> bool
    requires { run.now.first + run.now.count < 2 ^ 64 }
    ensures { result ≡ goes_on (record { first = run.now.first; count = run.now.count; content = last.now }) (id, content.now) }
{
    id == run.first + u64::from(run.count) && run.count < u32::MAX && content == last
}

/// The id after the last tile of the runs, or 0 if there are none.
pub(crate) fn end_of(runs: &[Run]) -> u64
    requires { last_end runs.now < 2 ^ 64 }
    ensures { result ≡ last_end runs.now }
{
    if runs.is_empty() {
        return 0;
    }
    let last = &runs[runs.len() - 1];
    last.first + u64::from(last.count)
}

/// The content of the last run, or no bytes if there is none.
pub(crate) fn last_content<'a>(runs: &[Run], contents: &'a Contents) -> &'a [u8]
    requires { ArePlaces contents.now.index.contents runs.now }
    ensures { IsLast contents.entry.now.index.contents runs.now result.now }
{
    if runs.is_empty() {
        return &[];
    }
    contents.at(runs[runs.len() - 1].place)
}

/// Joins a tile with the last run, whose content is `last`, if it continues it, and returns whether it did.
pub(crate) fn join_last(runs: &mut [Run], last: &[u8], id: u64, content: &[u8]) -> bool
    requires { last_end runs.old < 2 ^ 64 }
    ensures joins { (contents : List (List ℕ)) → IsLast contents runs.old last.now
        → result ≡ goes_on_last (run_views contents runs.old) (id, content.now) }
    ensures runs { (contents : List (List ℕ)) → run_views contents runs.new
        ≡ (if result then last_grown (run_views contents runs.old) else run_views contents runs.old) }
    ensures places { (contents : List (List ℕ)) → ArePlaces contents runs.old → ArePlaces contents runs.new }
    ensures last { (contents : List (List ℕ)) → IsLast contents runs.old last.now → IsLast contents runs.new last.now }
    ensures unchanged { OnFalse result (runs.new ≡ runs.old) }
    ensures count { length runs.new ≡ length runs.old }
{
    if runs.is_empty() {
        return false;
    }
    let at = runs.len() - 1;
    let run = &mut runs[at];
    if !goes_on(run, last, id, content) {
        return false;
    }
    run.count += 1;
    true
}

/// Makes room for one run more, unless there are as many as an archive has entries.
pub(crate) fn room_for_run(runs: &mut Vec<Run>) -> Result<(), BuildFault>
    ensures runs { runs.new.items ≡ runs.old.items }
    ensures room { OnOk result (length runs.old.items < vec_capacity runs.new) }
    ensures few { OnOk result (length runs.old.items < MAX_ENTRIES) }
    ensures many { (result ≡ Err BuildFault.TooManyEntries) ↔ (MAX_ENTRIES ≤ length runs.old.items) }
{
    if runs.len() >= MAX_ENTRIES {
        return Err(BuildFault::TooManyEntries);
    }
    match runs.reserve(1) {
        Ok(()) => Ok(()),
        Err(_) => Err(BuildFault::Memory),
    }
}

/// Adds a run of one tile.
fn begin_run(
    runs: &mut Vec<Run>,
    contents: &mut Contents,
    id: u64,
    content: TileContent<'_>,
) -> Result<(), BuildFault>
    requires few { length runs.old.items ≤ MAX_ENTRIES }
    requires apart { IsApart content contents.old.ahead }
    requires short { length (bytes_of content contents.old.ahead) < 2 ^ 32 }
    requires places { ArePlaces contents.old.index.contents runs.old.items }
    ensures begun { OnOk result
        (run_views contents.new.index.contents runs.new.items
        ≡ run_views contents.old.index.contents runs.old.items ++ run_of (id, bytes_of content.entry contents.old.ahead) ∷ []) }
    ensures contents { OnOk result
        (contents.new.index.contents ≡ with_content contents.old.index.contents (bytes_of content.entry contents.old.ahead)) }
    ensures firsts { OnOk result ((ts : List Tile)
        → AreFirsts ts contents.old.index → Contains ts (id, bytes_of content.entry contents.old.ahead) → AreFirsts ts contents.new.index) }
    ensures places { OnOk result (ArePlaces contents.new.index.contents runs.new.items) }
    ensures ahead { OnOk result (contents.new.ahead ≡ []) }
    ensures unchanged { OnErr result (runs.new.items ≡ runs.old.items) }
    ensures unchanged_contents { OnErr result (contents.new ≡ contents.old) }
    ensures few { length runs.new.items ≤ MAX_ENTRIES }
    ensures many { (result ≡ Err BuildFault.TooManyEntries) ↔ (MAX_ENTRIES ≤ length runs.old.items) }
{
    match room_for_run(runs) {
        Ok(()) => {}
        Err(fault) => return Err(fault),
    }
    let place = match contents.place(content, id) {
        Ok(place) => place,
        Err(_) => return Err(BuildFault::Memory),
    };
    runs.push(Run {
        first: id,
        count: 1,
        place,
    })
    .unwrap();
    Ok(())
}

/// Adds a tile to the longest runs of the tiles before it.
pub(crate) fn add_tile(
    runs: &mut Vec<Run>,
    contents: &mut Contents,
    id: u64,
    content: TileContent<'_>,
) -> Result<(), BuildFault>
    requires end { last_end runs.old.items < 2 ^ 64 }
    requires few { length runs.old.items ≤ MAX_ENTRIES }
    requires apart { IsApart content contents.old.ahead }
    requires short { length (bytes_of content contents.old.ahead) < 2 ^ 32 }
    requires places { ArePlaces contents.old.index.contents runs.old.items }
    ensures added { OnOk result
        (run_views contents.new.index.contents runs.new.items
        ≡ with_tile (run_views contents.old.index.contents runs.old.items) (id, bytes_of content.entry contents.old.ahead)) }
    ensures contents { OnOk result
        (contents.new.index.contents ≡ with_content contents.old.index.contents (bytes_of content.entry contents.old.ahead)) }
    ensures firsts { OnOk result ((ts : List Tile)
        → AreFirsts ts contents.old.index → Contains ts (id, bytes_of content.entry contents.old.ahead) → AreFirsts ts contents.new.index) }
    ensures places { OnOk result (ArePlaces contents.new.index.contents runs.new.items) }
    ensures ahead { OnOk result (contents.new.ahead ≡ []) }
    ensures unchanged { OnErr result (runs.new.items ≡ runs.old.items) }
    ensures unchanged_contents { OnErr result (contents.new ≡ contents.old) }
    ensures few { length runs.new.items ≤ MAX_ENTRIES }
    ensures many { (result ≡ Err BuildFault.TooManyEntries) ↔ (MAX_ENTRIES
        < length (with_tile (run_views contents.old.index.contents runs.old.items) (id, bytes_of content.entry contents.old.ahead))) }
    ensures memory { result ≡ Err BuildFault.Memory
        → goes_on_last (run_views contents.old.index.contents runs.old.items) (id, bytes_of content.entry contents.old.ahead) ≡ false }
{
    let last = last_content(runs, contents);
    if join_last(runs, last, id, contents.bytes_of(content)) {
        contents.drop_ahead();
        return Ok(());
    }
    begin_run(runs, contents, id, content)
}
