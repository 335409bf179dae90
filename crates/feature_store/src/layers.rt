//! The layers of a tile, in the order of their names.

ghost use Rattle.std.specs.Prelude.{◌≡◌, ℕ, true, IfOk, option_map};
ghost use Rattle.feature_store.specs.Gathered.{Gathers};
ghost use Rattle.feature_store.specs.Layers.{cuts_of, is_tile, layers};
ghost use Rattle.feature_store.specs.Store.{FeatureMap};
ghost use Rattle.feature_store.specs.Tiles.{tile_bytes};

use crate::gathered::Gathered;
use std::alloc::{AllocError, Global};

/// What is gathered as the bytes of a tile, or `None` if that is nothing.
pub(crate) fn written(alloc: Global, gathered: Gathered) -> Result<Option<Vec<u8>>, AllocError>
    ensures { IfOk result (λ o. (m : FeatureMap) (z x y : ℕ) → Gathers gathered (λ name. cuts_of m name z x y) → is_tile z x y ≡ true
        → option_map (λ v. v.items) o ≡ tile_bytes (layers m z x y)) }
{
    if gathered.is_empty() {
        return Ok(None);
    }
    let mut out = Vec::new(alloc);
    for (_name, writer) in gathered {
        writer.finish(&mut out)?;
    }
    Ok(Some(out))
}
