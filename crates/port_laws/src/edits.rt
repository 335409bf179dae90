//! Edits that are made only if the map is as their requests say.
ghost use Rattle.std.specs.Prelude.{◌≡◌, ◌≢◌, ℕ, List, [], true};
ghost use Rattle.feature_store.specs.Store.{feature_at};
ghost use Rattle.http_serve.specs.Reply.{ReplyView};
ghost use Rattle.tile_routes.specs.declared.method.Method.{Method};
ghost use Rattle.tile_service.specs.Machine.{Happening};
ghost use Rattle.tile_service.specs.Runs.{acknowledged, TakesAll};
ghost use Rattle.tile_service.specs.Service.{ServiceView};
ghost use Rattle.map_replies.specs.declared.conditions.Needed.{Needed};
ghost use Rattle.map_replies.specs.Conditions.{meets};
ghost use Rattle.map_replies.specs.Meanings.{MeansCheckedBatch, MeansOnFeature, ReplacesSeen, DiskFailed};

use sector_disk::Sectors;

/// A checked edit replaces no feature that its author hadn't seen: if one is acknowledged, the map had until then what the body says of
/// each number that is changed.
pub fn replaces_what_was_seen<D: Sectors>()
    ensures { (version : ℕ) (body : List ℕ) (reply : ReplyView) (happenings : List Happening) (old new : ServiceView D)
        → MeansCheckedBatch (DiskFailed D.faults old new) version body reply happenings
        → TakesAll D.sectors D.honest D.history old happenings new → acknowledged happenings ≢ [] → ReplacesSeen old.features body }
{}

/// An edit under a condition is made only of a feature that is as the condition wants it: if one is acknowledged, that of this id was there
/// until then, or wasn't, as the request says.
pub fn edits_meet_their_conditions<D: Sectors>()
    ensures { (version id : ℕ) (needed : Needed) (method : Method) (body : List ℕ) (reply : ReplyView) (happenings : List Happening)
        (old new : ServiceView D) → MeansOnFeature (DiskFailed D.faults old new) version needed id method body reply happenings
        → TakesAll D.sectors D.honest D.history old happenings new → acknowledged happenings ≢ []
        → meets needed (feature_at old.features id) ≡ true }
{}
