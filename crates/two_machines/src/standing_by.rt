//! What a server has that is given the edits of another one.
ghost use Rattle.std.specs.Prelude.{◌≡◌, ◌<◌, ◌+◌, ◌++◌, ◌∷◌, ℕ, List, length, Ok};
ghost use Rattle.http_serve.specs.Reply.{ReplyView};
ghost use Rattle.edit_journal.specs.Records.{RecordData};
ghost use Rattle.edit_text.specs.Recorded.{RecordedEdit};
ghost use Rattle.feature_model.specs.Data.{EditData};
ghost use Rattle.feature_store.specs.Store.{FeatureMap};
ghost use Rattle.tile_service.specs.Service.{ShowsEdits};
ghost use Rattle.tile_service.specs.Machine.{Happening, list_edits};
ghost use Rattle.tile_service.specs.Replayed.{AreRecordsFor};
ghost use Rattle.tile_service.specs.Runs.{Takes, TakesAll};
ghost use Rattle.tile_service.specs.Service.{ServiceView, status_of};
ghost use Rattle.map_replies.specs.Meanings.{MeansNumberedBatch, DiskFailed};
ghost use Rattle.two_machines.specs.Standby.{HasFirstEdits, IsEditOf, SaysEditOf, AreLastOf};

use sector_disk::Sectors;

/// A standby has the leader's map after its first edits, those up to the standby's own last number, and keeps it so whatever it is given:
/// an edit of the leader under its number is made once, in its order, or changes nothing.
pub fn standby_has_first_edits<D: Sectors>()
    ensures { (m : FeatureMap) (first : ℕ) (edits : List EditData) (query : List ℕ) (number : ℕ) (body : List ℕ) (reply : ReplyView)
        (happenings : List Happening) (old new : ServiceView D) → HasFirstEdits m first edits old.features old.journal.last → SaysEditOf first edits number body
        → MeansNumberedBatch (DiskFailed D.faults old new) (status_of old) query number body reply happenings
        → TakesAll D.sectors D.honest D.history old happenings new → HasFirstEdits m first edits new.features new.journal.last }
{}

/// What the feed tells under a number is the edit that the server made under it, as long as its disk is honest: also of a broken service,
/// and none that isn't acknowledged.
pub fn feed_tells_the_edits<D: Sectors>()
    ensures { (first : ℕ) (edits : List EditData) (number bytes : ℕ) (old new : ServiceView D) (shown told earlier later : List RecordedEdit)
        (e : RecordedEdit) (records : List RecordData) → ShowsEdits (D.history old.disk) old shown → AreLastOf first edits old.kept_journal.edits shown
        → D.honest new.disk → Takes D.sectors D.honest D.history old (list_edits number bytes (Ok records)) new → AreRecordsFor records told
        → old.kept_journal.edits < number → told ≡ earlier ++ e ∷ later → IsEditOf first edits (number + length earlier) e.changes }
{}
