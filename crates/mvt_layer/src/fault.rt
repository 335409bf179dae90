//! What can be wrong with a tile.

ghost use Rattle.std.specs.Prelude.{◌≡◌};
ghost use Rattle.mvt_layer.specs.declared.fault.TileFault.TheVariants.{Memory};

use std::alloc::{AllocError, AllocFailed};
use std::fmt;
use thiserror::Error;

/// Why bytes are no tile, or that an allocation failed.
#[derive(Clone, Copy, Debug, PartialEq, Eq, Error)]
pub enum TileFault {
    /// M1: bytes that are to be a message are none.
    Wire,
    /// M2: a field has another wire type than its number asks for.
    Kind,
    /// M3: a version, an extent, or a number among tags or geometry of 2^32 or more.
    Range,
    /// M4: a layer's name, a key or a text is not UTF-8.
    Utf8,
    /// M5: a layer has no name.
    Name,
    /// M6: a layer's version is neither 1 nor 2.
    Version,
    /// M7: a layer's extent is 0.
    Extent,
    /// M8: two layers have one name.
    LayerTwice,
    /// M9: a value has no kind of field, or more than one.
    Value,
    /// M10: a feature has an odd number of tag indices, one that the pools lack, or one key index twice.
    Tag,
    /// M11: a feature's integers are no shape of its kind.
    Geometry,
    Memory,
}

impl fmt::Display for TileFault {
    fn fmt<W: fmt::Write>(&self, f: &mut fmt::Formatter<W>) -> fmt::Result {
        f.write_str(match self {
            TileFault::Wire => "bytes that are to be a message are none",
            TileFault::Kind => "a field has another wire type than its number asks for",
            TileFault::Range => "a number of 2^32 or more",
            TileFault::Utf8 => "a text is not UTF-8",
            TileFault::Name => "a layer has no name",
            TileFault::Version => "a layer's version is neither 1 nor 2",
            TileFault::Extent => "a layer's extent is 0",
            TileFault::LayerTwice => "two layers have one name",
            TileFault::Value => "a value has no kind of field, or more than one",
            TileFault::Tag => "a feature's tags are no pairs of indices into the pools",
            TileFault::Geometry => "a feature's geometry is no shape of its kind",
            TileFault::Memory => "out of memory",
        })
    }
}

impl<T: Drop> From<AllocFailed<T>> for TileFault {
    ghost from_gives = { λ _ e. e ≡ Memory };

    fn from(_e: AllocFailed<T>) -> TileFault {
        TileFault::Memory
    }
}

impl From<AllocError> for TileFault {
    ghost from_gives = { λ _ e. e ≡ Memory };

    fn from(_e: AllocError) -> TileFault {
        TileFault::Memory
    }
}
