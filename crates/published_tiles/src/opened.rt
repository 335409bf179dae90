//! The cached look-up of an archive.
ghost use Rattle.std.specs.Prelude.{◌≡◌, ◌↔◌, ◌≤◌, ℕ, List, Option, Err, IfOk, IfErr, IfSome, IsTrue, MatchResult, option_map};
ghost use Rattle.pm_archive.specs.Answers.{IsOutside};
ghost use Rattle.pm_archive.specs.Archive.{HasContents};
ghost use Rattle.pm_archive.specs.Lookup.{IsLookupOf};
ghost use Rattle.pm_archive.specs.Spans.{end_of_span, span_bytes};
ghost use Rattle.byte_source.specs.Source.{Keeps};
ghost use Rattle.published_tiles.specs.Opened.{OpenedView, IsOpenedOf, IsOpenedUpTo};

use crate::place::ArchivePlace;
use byte_source::Bytes;
use pm_archive::{ArchiveFault, ContentSpan, Lookup};
use std::alloc::Global;
use std::marker::Model;

/// The cached look-up of an archive, and where the archive is stored.
#[derive(Drop)]
pub(crate) struct Opened {
    archive: ArchivePlace,
    lookup: Lookup,
}

impl Model for Opened {
    ghost Value = { OpenedView };

    ghost view = { λ o. record { archive = o.archive; lookup = o.lookup } };

    ghost invariant = { λ o. o.lookup.count ≡ o.archive.len };
}

impl Opened {
    /// Whether it belongs to the archive at this place.
    fn is_of(&self, archive: ArchivePlace) -> bool
        ensures { IsTrue result ↔ (self.now.archive ≡ archive) }
    {
        self.archive == archive
    }

    /// Opens the archive in a source.
    fn open<B: Bytes>(
        alloc: Global,
        source: &mut B,
        archive: ArchivePlace,
    ) -> Result<Opened, ArchiveFault>
        requires { archive.len ≡ B.count source.old }
        ensures source { Keeps B.count B.holds B.unchanged source.old source.new }
        ensures archive { IfOk result (λ o. o.archive ≡ archive) }
        ensures found { (bytes : List ℕ) → B.holds source.new bytes → IfOk result (λ o. IsLookupOf bytes o.lookup) }
        ensures fault { (bytes : List ℕ) (content : ℕ → Option (List ℕ)) → B.holds source.new bytes → HasContents bytes content → IfErr result IsOutside }
        ensures read { result ≡ Err ArchiveFault.Read → B.failed source.old source.new }
    {
        match Lookup::open(alloc, source) {
            Ok(lookup) => Ok(Opened { archive, lookup }),
            Err(fault) => Err(fault),
        }
    }

    /// Where the content of a tile id is.
    fn find<B: Bytes>(
        &mut self,
        source: &mut B,
        id: u64,
    ) -> Result<Option<ContentSpan>, ArchiveFault>
        requires { self.old.archive.len ≡ B.count source.old }
        ensures source { Keeps B.count B.holds B.unchanged source.old source.new }
        ensures archive { self.new.archive ≡ self.old.archive }
        ensures still { (bytes : List ℕ) → B.holds source.new bytes → IsLookupOf bytes self.old.lookup → IsLookupOf bytes self.new.lookup }
        ensures content { (bytes : List ℕ) (content : ℕ → Option (List ℕ)) → B.holds source.new bytes → IsLookupOf bytes self.old.lookup
            → HasContents bytes content → MatchResult result (λ found. option_map (span_bytes bytes) found ≡ content id) IsOutside }
        ensures inside { IfOk result (λ found. IfSome found (λ span. end_of_span span ≤ B.count source.old)) }
        ensures read { result ≡ Err ArchiveFault.Read → B.failed source.old source.new }
    {
        self.lookup.find(source, id)
    }
}

/// Where the content of a tile id is in the archive of a source. The cached look-up is used if it belongs to this archive, otherwise a new one.
pub(crate) fn find_in<B: Bytes>(
    alloc: Global,
    source: &mut B,
    archive: ArchivePlace,
    opened: &mut Option<Opened>,
    id: u64,
) -> Result<Option<ContentSpan>, ArchiveFault>
    requires { archive.len ≡ B.count source.old }
    ensures source { Keeps B.count B.holds B.unchanged source.old source.new }
    ensures still { (bytes : List ℕ) → B.holds source.new bytes → IsOpenedOf archive bytes opened.old → IsOpenedOf archive bytes opened.new }
    ensures up_to { (last : ℕ) → IsOpenedUpTo last opened.old → archive.generation ≤ last → IsOpenedUpTo last opened.new }
    ensures content { (bytes : List ℕ) (content : ℕ → Option (List ℕ)) → B.holds source.new bytes → IsOpenedOf archive bytes opened.old
        → HasContents bytes content → MatchResult result (λ found. option_map (span_bytes bytes) found ≡ content id) IsOutside }
    ensures inside { IfOk result (λ found. IfSome found (λ span. end_of_span span ≤ B.count source.old)) }
    ensures read { result ≡ Err ArchiveFault.Read → B.failed source.old source.new }
{
    if let Some(kept) = opened {
        if kept.is_of(archive) {
            return kept.find(source, id);
        }
    }
    let mut made = Opened::open(alloc, source, archive)?;
    let span = made.find(source, id);
    *opened = Some(made);
    span
}
