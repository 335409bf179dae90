//! Features appended to a map.
ghost use Rattle.std.specs.Prelude.{◌≡◌, ◌+◌, ◌<◌, ◌++◌, ◌∷◌, [], length, OnOk};
ghost use Rattle.feature_model.specs.Data.{put};
ghost use Rattle.feature_model.specs.Spelled.{spelled_change};
ghost use Rattle.feature_store.specs.Snapshots.{IsBehind};
ghost use Rattle.feature_store.specs.Store.{snapshot};
ghost use Rattle.feature_store.specs.declared.limit.TheConstants.{TEXTS_END};

use crate::limit::TEXTS_END;
use crate::store::Store;
use edit_text::StoredFeature;
use std::alloc::AllocError;

/// Gives a feature to a number above all others.
pub(crate) fn append(store: &mut Store, stored: StoredFeature) -> Result<(), AllocError>
    requires behind { IsBehind store.old.features stored.0 }
    requires texts { length (snapshot store.old.features) + length (spelled_change (put stored.0 stored.1)) < TEXTS_END }
    ensures { OnOk result (store.new.features ≡ store.old.features ++ (stored.0, stored.1) ∷ []) }
{
    store.room()?;
    store.place(stored);
    Ok(())
}
