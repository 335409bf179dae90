//! Edits of a map of which a moment may still be asked for.
ghost use Rattle.std.specs.Prelude.{◌≡◌, ◌↔◌, ◌+◌, ◌<◌, ◌≤◌, IsSome, length};
ghost use Rattle.tile_cutter.specs.WorldBox.{bounding_box};
ghost use Rattle.feature_store.specs.Moments.{IsMomentOf, moment_map};
ghost use Rattle.feature_store.specs.Store.{HasRoom, box_at, feature_at, with_feature, without_feature, snapshot};
ghost use Rattle.feature_store.specs.declared.limit.TheConstants.{TEXTS_END};

use crate::limit::TEXTS_END;
use crate::moment::Moment;
use crate::placed::PlacedBoxes;
use crate::store::Store;
use edit_text::StoredFeature;
use feature_model::WorldBox;

impl Store {
    /// `place`, or `place_after` if there is a moment.
    pub fn place_keeping(
        &mut self,
        stored: StoredFeature,
        moment: &mut Option<Moment>,
    ) -> PlacedBoxes
        requires room { HasRoom self.old }
        requires texts { length (snapshot (with_feature self.old.features stored.0 stored.1)) < TEXTS_END }
        ensures before { result.before ≡ box_at self.old.features stored.0 }
        ensures after { result.after ≡ bounding_box stored.1.geometry }
        ensures map { self.new.features ≡ with_feature self.old.features stored.0 stored.1 }
        ensures spare { self.old.spare ≤ self.new.spare + 1 }
        ensures moment { moment_map moment.new ≡ moment_map moment.old }
        ensures as_of { IsMomentOf moment.old self.old.features → IsMomentOf moment.new self.new.features }
    {
        match moment {
            Some(moment) => self.place_after(stored, moment),
            None => self.place(stored),
        }
    }

    /// `remove`, or `remove_after` if there is a moment.
    pub fn remove_keeping(&mut self, id: u64, moment: &mut Option<Moment>) -> Option<WorldBox>
        ensures found { IsSome result ↔ IsSome (feature_at self.old.features id) }
        ensures bounds { result ≡ box_at self.old.features id }
        ensures map { self.new.features ≡ without_feature self.old.features id }
        ensures spare { self.old.spare ≤ self.new.spare }
        ensures moment { moment_map moment.new ≡ moment_map moment.old }
        ensures as_of { IsMomentOf moment.old self.old.features → IsMomentOf moment.new self.new.features }
    {
        match moment {
            Some(moment) => self.remove_after(id, moment),
            None => self.remove(id),
        }
    }
}
