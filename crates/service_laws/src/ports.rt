//! The headline, and what is promised of listed edits, for a run between whose calls the disk is read and a publication is prepared: what
//! `map_server::serve_map_on` says of a port.
ghost use Rattle.std.specs.Prelude.{◌≡◌, ◌≤◌, ◌<◌, ℕ, List, length, take};
ghost use Rattle.sector_disk.specs.Disk.{Image, moment, LeftSince, seen};
ghost use Rattle.edit_journal.specs.Records.{RecordData};
ghost use Rattle.tile_service.specs.Headline.{HasSomeFirst};
ghost use Rattle.tile_service.specs.KeptEdits.{AreNumbered, IsListed, KeepsListed};
ghost use Rattle.tile_service.specs.Machine.{Happening};
ghost use Rattle.tile_service.specs.Runs.{way_of, all_edits};
ghost use Rattle.tile_service.specs.Service.{ServiceView, IsUp};
ghost use Rattle.tile_service.specs.Stored.{Stored, Holds};
ghost use Rattle.service_laws.specs.Moments.{TakesBetweenReads, WasStoppedBetweenReads};

use sector_disk::Sectors;

/// What a call of such a run listed are edits that were acknowledged before it, and an image that a crash leaves from then on holds them: it holds some
/// first edits of the run.
pub fn port_keeps_what_it_listed<D: Sectors>()
    ensures acknowledged { (start : Stored) (old new : ServiceView D) (happenings : List Happening)
        → TakesBetweenReads D.sectors D.honest D.history old happenings new → D.honest new.disk → IsUp (D.sectors old.disk) (D.history old.disk) start old
        → (index number : ℕ) (records : List RecordData) → index < length happenings
        → IsListed start happenings index number records
        → AreNumbered start number records (all_edits start (take index happenings)) }
    ensures kept { (start : Stored) (old new : ServiceView D) (happenings : List Happening)
        (run : TakesBetweenReads D.sectors D.honest D.history old happenings new) → D.honest new.disk → IsUp (D.sectors old.disk) (D.history old.disk) start old
        → (k m : ℕ) → k ≤ m → m ≤ length happenings → (image : Image) → LeftSince (D.history (run.at m).disk) (moment (D.history (run.at k).disk)) image
        → KeepsListed (D.sectors old.disk) old.size start (way_of start.edits old.publication) (take m happenings) k image }
{}

/// A service that continues from what such a run left where it was stopped, by what `tile_service::Service::open` says of each state that a disk holds,
/// has some first edits: all that were acknowledged by then, and all that were listed.
pub fn port_opens_to_its_first_edits<D: Sectors>()
    ensures { (start : Stored) (old new : ServiceView D) (happenings : List Happening) (k m : ℕ) (disk : D)
        → WasStoppedBetweenReads D.sectors D.honest D.history start old happenings new k m disk
        → (service : ServiceView D)
        → ((n : ℕ) (stored : Stored) → Holds (D.sectors disk) n stored (seen (D.history disk))
        → IsUp (D.sectors service.disk) (D.history service.disk) stored service)
        → HasSomeFirst (D.sectors service.disk) (D.history service.disk) start (way_of start.edits old.publication) (take m happenings) k service }
{}
