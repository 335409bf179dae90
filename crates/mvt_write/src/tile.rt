//! Tiles.

ghost use Rattle.std.specs.Prelude.{◌≡◌, IfOk};
ghost use Rattle.mvt_layer.specs.Tile.{layer_views};
ghost use Rattle.mvt_layer.specs.Reads.{ReadsAs};
ghost use Rattle.mvt_write.specs.Written.{written};
ghost use Rattle.mvt_write.specs.CanWrite.{CanWriteAll};

use crate::layer::put_layer;
use mvt_layer::Layer;
use std::alloc::{AllocError, Global};

/// The one encoding of the layers (Mapbox Vector Tile 2.1, 4): fields in ascending number, numbers in their shortest
/// encoding, the keys and values of tags in the order of their first use.
///
/// The names of the layers differ, each has version `CURRENT_VERSION` and extent `DEFAULT_EXTENT`, and fewer than 2^32 tags.
/// Each feature has an id and a shape that can be encoded; its tags are in ascending order of their keys, without floating
/// point numbers, and a `Negative` is below 0. There may be no layers. The only error is out of memory.
#[tactic(auto, unfolding(crate::specs::Written::written))]
pub fn write_tile(alloc: Global, layers: &[Layer<'_>]) -> Result<Vec<u8>, AllocError>
    requires { CanWriteAll (layer_views layers.now) }
    ensures written { IfOk result (λ v. v.items ≡ written (layer_views layers.now)) }
    ensures reads { IfOk result (λ v. ReadsAs v.items (layer_views layers.now)) }
{
    let mut out = Vec::new(alloc);
    for layer in layers {
        put_layer(alloc, &mut out, layer)?;
    }
    Ok(out)
}
