//! Makes the entries of runs.

ghost use Rattle.std.specs.Prelude.{◌≡◌, length, map, [], IfOk};
ghost use Rattle.pm_build.specs.Different.{with_contents};
ghost use Rattle.pm_build.specs.Joined.{ArePlaces, run_views};
ghost use Rattle.pm_build.specs.Offsets.{ArePlacedRuns};

use crate::index::ContentIndex;
use crate::run::Run;
use pm_directory::DirectoryEntry;
use std::alloc::{AllocError, Global};

/// An entry for each run, in ascending order. Offsets are from the start of the first content.
pub(crate) fn entries_of(
    alloc: Global,
    runs: &[Run],
    contents: &ContentIndex,
) -> Result<Vec<DirectoryEntry>, AllocError>
    requires places { ArePlaces contents.now.contents runs.now }
    requires contents { contents.now.contents ≡ with_contents [] (map (λ r. r.content) (run_views contents.now.contents runs.now)) }
    ensures placed { IfOk result (λ entries. ArePlacedRuns (run_views contents.now.contents runs.now) entries.items contents.now.contents) }
    ensures count { IfOk result (λ entries. length entries.items ≡ length runs.now) }
{
    let mut entries = Vec::with_capacity(alloc, runs.len())?;
    for run in runs {
        let stored = contents.stored_at(run.place);
        entries.push(DirectoryEntry {
            id: run.first,
            run: run.count,
            length: stored.len,
            offset: stored.offset as u64,
        })?;
    }
    Ok(entries)
}
