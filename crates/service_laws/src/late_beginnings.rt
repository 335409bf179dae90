//! The laws of a late answer: of the machine, and of the disk.
ghost use Rattle.std.specs.Prelude.{◌≡◌, ◌≤◌, ◌<◌, ◌+◌, ◌^◌, ℕ, Bool, true, List, ◌∷◌, Option, None, Some, Ok, ◌-◌, false, Err};
ghost use Rattle.std.proofs.Common.{suc};
ghost use Rattle.sector_disk.specs.Disk.{History};
ghost use Rattle.generations.specs.Areas.{area_sectors};
ghost use Rattle.area_content.specs.Content.{ContentView, sectors_taken};
ghost use Rattle.edit_text.specs.Recorded.{RecordedEdit};
ghost use Rattle.feature_store.specs.Store.{IsMap, snapshot};
ghost use Rattle.tile_service.specs.Machine.{ServiceState, Happening, begin, AnswersBegin, Runs};
ghost use Rattle.tile_service.specs.Publishing.{HasNoContent};
ghost use Rattle.tile_service.specs.declared.fault.ServiceFault.{ServiceFault};
ghost use Rattle.tile_service.specs.Runs.{Takes, TakesAll};
ghost use Rattle.tile_service.specs.Drafted.{DraftedView, IsDrafted};
ghost use Rattle.tile_service.specs.Service.{PublicationView, ServiceView, Publishes, BeginsDrafted, publication_of, with_publication};
ghost use Rattle.tile_service.specs.Stored.{Stored, IsMapArchive, with_edit};
ghost use Rattle.service_laws.specs.Begun.{IsBegunAt};
ghost use Rattle.service_laws.specs.Beside.{AreBeside, publishing};
ghost use Rattle.tile_service.specs.Prepared.{CanPrepare, prepared};

use sector_disk::Sectors;

/// A beginning that is answered after some edits and reads stands before them: if the number that it reports is what was left of the map as
/// it was then, the machine begins, and then they happen. Its publication is of the map of the beginning, and edits and reads report what
/// they would without it.
pub fn begins_before()
    ensures { (honest : Bool) (old began : ServiceState) (left : ℕ) (happenings : List Happening) (new : ServiceState)
        → AnswersBegin old (Ok left) began → AreBeside happenings → Runs (honest ≡ true) old happenings new
        → Runs (honest ≡ true) old (begin (Ok left) ∷ happenings) (publishing began.publication new) }
{}

/// A publication whose archive isn't made yet stays one of the same map while an edit is made.
pub fn stays_drafted()
    ensures { (n : ℕ) (stored : Stored) (e : RecordedEdit) (d : DraftedView) → IsDrafted n stored d → IsDrafted n (with_edit stored e) d }
{}

/// Once its content is there, it is under way, with nothing written, whatever edits came meanwhile.
pub fn drafted_publishes()
    ensures { (n : ℕ) (stored : Stored) (d : DraftedView) (content : ContentView) (h : History) → IsDrafted n stored d
        → IsMap d.features → IsMapArchive d.features content.archive → content.snapshot ≡ snapshot d.features
        → sectors_taken content ≤ area_sectors n → suc stored.generation < 2 ^ 64 → Publishes n stored h (publication_of d content) }
{}

/// What follows for a service on a disk: calls that were made while a publication was in the making, none of them one of a publication, are
/// calls made while it was under way. So where its beginning is one of the state in which the map was fixed, it and they are a run of the
/// service from there, to the state of now with that publication: all that is promised of such runs holds, at a crash at any moment too.
pub fn begins_late<D: Sectors>()
    ensures { (old new : ServiceView D) (p : PublicationView) (left : ℕ) (happenings : List Happening) → old.publication ≡ None → p.written ≡ 0
        → AreBeside happenings → Takes D.sectors D.honest D.history old (begin (Ok left)) (with_publication old p)
        → TakesAll D.sectors D.honest D.history old happenings new
        → TakesAll D.sectors D.honest D.history old (begin (Ok left) ∷ happenings) (with_publication new p) }
{}

/// The whole of it: a publication of the map that a service had then, with content that was made later, is the publication of a beginning
/// that the service answered then, with the number that the content takes. No call of the disk is a part of it.
pub fn begins_as_it_was<D: Sectors>()
    ensures { (then now : ServiceView D) (p : PublicationView) (happenings : List Happening) → IsBegunAt then p → AreBeside happenings
        → TakesAll D.sectors D.honest D.history then happenings now
        → TakesAll D.sectors D.honest D.history then (begin (Ok (sectors_taken p.content + 1)) ∷ happenings) (with_publication now p) }
{}

/// A beginning that finds no content for the map that the service had then is refused as it was then, with the fault of that map.
pub fn refused_as_it_was<D: Sectors>()
    ensures { (then now : ServiceView D) (fault : ServiceFault) (happenings : List Happening) → then.broken ≡ false → then.publication ≡ None
        → then.generation < 2 ^ 64 - 1 → HasNoContent then.features (area_sectors then.size) fault
        → TakesAll D.sectors D.honest D.history then happenings now
        → TakesAll D.sectors D.honest D.history then (begin (Err fault) ∷ happenings) now }
{}

/// What `Service::publish_prepare` and `Service::publish_drafted` do together: where a publication was prepared, whatever happened meanwhile, its
/// beginning is one of the service as it was when its map was fixed, before all that happened since. So the archive has every edit
/// that was acknowledged before the preparation began, and none that was requested later.
pub fn begins_as_prepared<D: Sectors>()
    ensures begun { (then now : ServiceView D) (happenings : List Happening) (d : DraftedView) (left : ℕ) (publication : Option PublicationView)
        → CanPrepare then → AreBeside happenings → TakesAll D.sectors D.honest D.history (prepared then) happenings now → now.drafting ≡ Some d
        → BeginsDrafted now.size d (Ok left) publication
        → TakesAll D.sectors D.honest D.history (prepared then) (begin (Ok left) ∷ happenings) (record now { publication = publication }) }
    ensures refused { (then now : ServiceView D) (happenings : List Happening) (d : DraftedView) (fault : ServiceFault) (publication : Option PublicationView)
        → CanPrepare then → AreBeside happenings → TakesAll D.sectors D.honest D.history (prepared then) happenings now → now.drafting ≡ Some d
        → BeginsDrafted now.size d (Err fault) publication
        → TakesAll D.sectors D.honest D.history (prepared then) (begin (Err fault) ∷ happenings) now }
{}
