//! Edits that a service lists stay, whatever happens to it.
ghost use Rattle.std.specs.Prelude.{◌≡◌, ◌≤◌, ◌<◌, ℕ, List, [], length, take, true};
ghost use Rattle.sector_disk.specs.Disk.{Image, moment, LeftSince};
ghost use Rattle.edit_journal.specs.Records.{RecordData};
ghost use Rattle.edit_text.specs.Recorded.{RecordedEdit};
ghost use Rattle.tile_service.specs.KeptEdits.{AreNumbered, IsListed, KeepsListed};
ghost use Rattle.tile_service.specs.Machine.{Happening};
ghost use Rattle.tile_service.specs.Runs.{Takes, TakesStates, all_edits, way_of, waiting_by};
ghost use Rattle.tile_service.specs.Service.{ServiceView, ShowsEdits, StillShows, IsUp};
ghost use Rattle.tile_service.specs.Stored.{Stored};

use sector_disk::Sectors;

/// A service that breaks, or is broken, still shows the edits that it showed, but for some first ones if the ring is full: those that were
/// acknowledged, and not the one in doubt. So what it lists are they, as long as its disk is honest.
pub fn broken_still_shows_its_edits<D: Sectors>()
    ensures { (old new : ServiceView D) (happening : Happening) (edits : List RecordedEdit) → Takes D.sectors D.honest D.history old happening new
        → new.broken ≡ true → ShowsEdits (D.history old.disk) old edits → D.honest new.disk
        → StillShows (D.history new.disk) old new edits [] (waiting_by happening) }
{}

/// What was listed stays: each edit that a list had was acknowledged before, and every image that a crash leaves from the list on has it, under its number.
/// So a follower never has an edit that the service loses.
pub fn listed_edits_are_kept<D: Sectors>()
    ensures acknowledged { (start : Stored) (old new : ServiceView D) (happenings : List Happening)
        → TakesStates D.sectors D.honest D.history old happenings new → D.honest new.disk → IsUp (D.sectors old.disk) (D.history old.disk) start old
        → (index number : ℕ) (records : List RecordData) → index < length happenings
        → IsListed start happenings index number records
        → AreNumbered start number records (all_edits start (take index happenings)) }
    ensures kept { (start : Stored) (old new : ServiceView D) (happenings : List Happening)
        (run : TakesStates D.sectors D.honest D.history old happenings new) → D.honest new.disk → IsUp (D.sectors old.disk) (D.history old.disk) start old
        → (k m : ℕ) → k ≤ m → m ≤ length happenings → (image : Image) → LeftSince (D.history (run.at m).disk) (moment (D.history (run.at k).disk)) image
        → KeepsListed (D.sectors old.disk) old.size start (way_of start.edits old.publication) (take m happenings) k image }
{}
