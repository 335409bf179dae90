//! The laws of a leader and its standby.
ghost use Rattle.std.specs.Prelude.{◌+◌, ◌++◌, ℕ, List, [], Option, None, length, take};
ghost use Rattle.sector_disk.specs.Disk.{seen};
ghost use Rattle.http_listen.specs.Connections.{Event, Serves};
ghost use Rattle.http_serve.specs.Reply.{ReplyView};
ghost use Rattle.serde_json.specs.Data.{Data};
ghost use Rattle.edit_json.specs.Batches.{IsBatch};
ghost use Rattle.map_replies.specs.Bodies.{IsJson};
ghost use Rattle.map_replies.specs.Meanings.{MeansNumberedBatch, MeansNumberedPut, DiskFailed};
ghost use Rattle.map_replies.specs.Conditions.{AskView, needed};
ghost use Rattle.feature_model.specs.Data.{EditData};
ghost use Rattle.feature_store.specs.Store.{FeatureMap};
ghost use Rattle.tile_service.specs.Machine.{Happening};
ghost use Rattle.tile_service.specs.Runs.{acknowledged, way_of};
ghost use Rattle.tile_service.specs.Service.{ServiceView, IsUp, status_of};
ghost use Rattle.tile_service.specs.Stored.{Stored, map_of, last_of};
ghost use Rattle.service_laws.specs.Moments.{TakesBetweenReads, WasStoppedBetweenReads};
ghost use Rattle.two_machines.specs.Standby.{HasFirstEdits, IsEditOf, SaysEditOf};
ghost use Rattle.map_replies.specs.Preparing.{TellsMeanwhileRead, TellsPreparedFor, inner_service, meanwhile, without_draft};
ghost use Rattle.map_replies.specs.declared.preparing.PreparingReplies.{PreparingReplies};
ghost use Rattle.two_machines.specs.Couriers.{SaysPutOf, TellsCourier};
ghost use Rattle.two_machines.specs.Machines.{AreGiven, leader_edits, HoldsFirst, HoldOneMap};

use sector_disk::Sectors;

/// A standby that was stopped at any moment of its run has the leader's map after its first edits, those up to its own last number, and all
/// that it acknowledged: an edit in doubt is the leader's next one, and is stored whole or not.
pub fn a_standby_stays_behind<D: Sectors>()
    ensures { (m : FeatureMap) (first : ℕ) (edits : List EditData) (start : Stored) (old new : ServiceView D) (happenings : List Happening)
        (k n : ℕ) (disk : D) → WasStoppedBetweenReads D.sectors D.honest D.history start old happenings new k n disk
        → HasFirstEdits m first edits (map_of start) (last_of start) → AreGiven first edits (last_of start) (take n happenings)
        → HoldsFirst (D.sectors disk) old.size m first edits (last_of start + length (acknowledged (take k happenings))) (seen (D.history disk)) }
{}

/// Calls that are given after such calls: so request by request a standby's whole run is given.
pub fn calls_after_calls_are_given()
    ensures { (first : ℕ) (edits : List EditData) (last : ℕ) (calls more : List Happening) → AreGiven first edits last calls
        → AreGiven first edits (last + length (acknowledged calls)) more → AreGiven first edits last (calls ++ more) }
{}

/// A leader and a standby were stopped, each at any moment of its run. The standby began with the leader's map after its first edits, and was
/// given no edits but those that the leader had acknowledged before its own stop, each under its number. Then the standby's disk holds the
/// leader's map after its first edits, up to the standby's last number, and the leader's disk has all of these.
pub fn two_machines_have_one_map<D: Sectors, E: Sectors>()
    ensures { (start : Stored) (old new : ServiceView D) (happenings : List Happening) (k n : ℕ) (disk : D)
        (standby_start : Stored) (standby_old standby_new : ServiceView E) (standby_happenings : List Happening) (i l : ℕ) (standby_disk : E)
        → WasStoppedBetweenReads D.sectors D.honest D.history start old happenings new k n disk
        → WasStoppedBetweenReads E.sectors E.honest E.history standby_start standby_old standby_happenings standby_new i l standby_disk
        → HasFirstEdits start.snapshot_map start.edits (leader_edits start (take k happenings)) (map_of standby_start) (last_of standby_start)
        → AreGiven start.edits (leader_edits start (take k happenings)) (last_of standby_start) (take l standby_happenings)
        → HoldOneMap start.snapshot_map start.edits (D.sectors disk) old.size (seen (D.history disk)) (E.sectors standby_disk) standby_old.size
        (seen (E.history standby_disk)) (last_of start + length (acknowledged (take k happenings)))
        (last_of standby_start + length (acknowledged (take i standby_happenings))) }
{}

/// A body whose value is the batch of a leader's edit says that edit.
pub fn a_listed_value_says_its_edit()
    ensures { (first : ℕ) (edits : List EditData) (number : ℕ) (cs : EditData) (body : List ℕ) (taken : Data) → IsJson body taken → IsBatch taken cs
        → IsEditOf first edits number cs → SaysEditOf first edits number body }
{}

/// A request under the number of a leader's edit, whose body says that edit, gives a standby nothing else, whatever the reply is.
pub fn a_numbered_edit_is_given<D: Sectors>()
    ensures { (first : ℕ) (edits : List EditData) (query : List ℕ) (number : ℕ) (body : List ℕ) (reply : ReplyView) (happenings : List Happening)
        (old new : ServiceView D) → SaysEditOf first edits number body
        → MeansNumberedBatch (DiskFailed D.faults old new) (status_of old) query number body reply happenings
        → AreGiven first edits old.journal.last happenings }
{}

/// The same of a request that sets a feature under the number of a leader's edit: its body says the feature that this edit sets.
pub fn a_numbered_feature_is_given<D: Sectors>()
    ensures { (first : ℕ) (edits : List EditData) (id number : ℕ) (ask : AskView) (body : List ℕ) (reply : ReplyView)
        (happenings : List Happening) (old new : ServiceView D) → SaysPutOf first edits id number body
        → MeansNumberedPut (DiskFailed D.faults old new) (status_of old) ask.query (needed ask) id number body reply happenings
        → AreGiven first edits old.journal.last happenings }
{}

/// A port whose requests ask for no edit, or for the leader's edits, each under its number, gives its service no other edits: whatever readers
/// and couriers ask, in whatever order, again, late or cut off.
pub fn a_courier_gives_the_leaders_edits<D: Sectors>()
    ensures { (first : ℕ) (edits : List EditData) (old new : PreparingReplies D) (served : List Event) (run : List Happening) (fixed : Option ℕ)
        → Serves (TellsCourier D.sectors D.honest D.history D.faults first edits) (TellsMeanwhileRead D.sectors D.honest D.history D.faults)
        (TellsPreparedFor D.sectors D.honest D.history D.faults) (meanwhile (without_draft old) [] None) served (meanwhile new run fixed)
        → AreGiven first edits (inner_service old).journal.last run }
{}

/// Two ports: a leader's, and a standby's, whose requests are its readers' and its courier's. Each was stopped at any moment. The standby began
/// with the leader's map after its first edits, and its courier sent no edits but those that the leader had acknowledged before its own stop.
/// Then the standby's disk holds the leader's map after its first edits, up to the standby's last number, with all that it had acknowledged, and
/// the leader's disk has all of these.
pub fn two_ports_have_one_map<D: Sectors, E: Sectors>()
    ensures { (start : Stored) (old new : ServiceView D) (happenings : List Happening) (k n : ℕ) (disk : D)
        (standby_start : Stored) (standby_old standby_new : PreparingReplies E) (served : List Event) (run : List Happening) (fixed : Option ℕ)
        (i l : ℕ) (standby_disk : E)
        → WasStoppedBetweenReads D.sectors D.honest D.history start old happenings new k n disk
        → WasStoppedBetweenReads E.sectors E.honest E.history standby_start (inner_service standby_old) run (inner_service standby_new) i l standby_disk
        → HasFirstEdits start.snapshot_map start.edits (leader_edits start (take k happenings)) (map_of standby_start) (last_of standby_start)
        → Serves (TellsCourier E.sectors E.honest E.history E.faults start.edits (leader_edits start (take k happenings)))
        (TellsMeanwhileRead E.sectors E.honest E.history E.faults) (TellsPreparedFor E.sectors E.honest E.history E.faults)
        (meanwhile (without_draft standby_old) [] None) served (meanwhile standby_new run fixed)
        → HoldOneMap start.snapshot_map start.edits (D.sectors disk) old.size (seen (D.history disk)) (E.sectors standby_disk)
        (inner_service standby_old).size (seen (E.history standby_disk)) (last_of start + length (acknowledged (take k happenings)))
        (last_of standby_start + length (acknowledged (take i run))) }
{}
