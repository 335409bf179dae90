//! Changes as the map keeps them.

ghost use Rattle.std.specs.Prelude.{◌≡◌, ◌∷◌, ◌≤◌, [], map, All, IfOk};
ghost use Rattle.feature_model.specs.Data.{change_data};
ghost use Rattle.feature_model.specs.Limits.{IsAllowedChange};
ghost use Rattle.feature_store.specs.Prepared.{prepared_data};
ghost use Rattle.feature_store.specs.Store.{puts_in};

use edit_text::StoredFeature;
use feature_model::Change;
use std::alloc::{AllocError, Global};

/// A change, with the text of the feature that it sets.
#[derive(Drop)]
pub enum Prepared {
    Put(StoredFeature),
    Delete { id: u64 },
}

/// 1 for a change that sets a feature, else 0.
fn puts_of(change: &Prepared) -> usize
    ensures exact { result ≡ puts_in (prepared_data change.now ∷ []) }
    ensures most { result ≤ 1 }
{
    match change {
        Prepared::Put(_) => 1,
        Prepared::Delete { .. } => 0,
    }
}

/// How many of the changes set a feature.
pub(crate) fn count_puts(changes: &[Prepared]) -> usize
    ensures { result ≡ puts_in (map prepared_data changes.now) }
{
    let mut count = 0;
    for change in changes {
        count += puts_of(change);
    }
    count
}

/// The change with the text of its feature.
fn prepare_one(alloc: Global, change: &Change) -> Result<Prepared, AllocError>
    requires { IsAllowedChange (change_data change.now) }
    ensures { IfOk result (λ p. prepared_data p ≡ change_data change.now) }
{
    match change {
        Change::Put { id, feature } => {
            let stored = StoredFeature::of(alloc, *id, feature)?;
            Ok(Prepared::Put(stored))
        }
        Change::Delete { id } => Ok(Prepared::Delete { id: *id }),
    }
}

/// The changes, each with the text of its feature.
pub(crate) fn prepare_each(alloc: Global, changes: &[Change]) -> Result<Vec<Prepared>, AllocError>
    requires { All IsAllowedChange (map change_data changes.now) }
    ensures { IfOk result (λ v. map prepared_data v.items ≡ map change_data changes.now) }
{
    let mut prepared = Vec::with_capacity(alloc, changes.len())?;
    for change in changes {
        let one = prepare_one(alloc, change)?;
        prepared.push_reserved(one);
    }
    Ok(prepared)
}
