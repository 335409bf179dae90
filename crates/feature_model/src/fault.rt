//! Why a feature or an edit is refused.

ghost use Rattle.feature_model.specs.declared.fault.EditFault.TheVariants.{Memory};
ghost use Rattle.std.specs.Prelude.{◌≡◌};

use std::alloc::{AllocError, AllocFailed};
use std::fmt;
use thiserror::Error;

/// Why a feature is no feature of a map, or an edit no edit of it. Of a feature the faults are returned in this order.
#[derive(Clone, Copy, Debug, Error)]
pub enum EditFault {
    /// E1: no object; a member missing, unknown or of another JSON kind; a zoom that is no whole number of 0 to 255.
    Member,
    /// E2: a number not below `NUMBER_END`.
    Number,
    /// E3: a layer's name not of 1 to `MAX_NAME_BYTES` bytes.
    Layer,
    /// E4: `minzoom` above `maxzoom`, or `maxzoom` above `MAX_ZOOM`.
    Zoom,
    /// E5: a list too short or of over `MAX_ELEMENTS`, or what is no list of points inside one.
    Geometry,
    /// E6: over `MAX_TAGS` tags, a key not of 1 to `MAX_NAME_BYTES` bytes, keys not strictly ascending.
    Tags,
    /// E7: a value that no tag has.
    Value,
    /// E8: a text of over `MAX_EDIT_BYTES` bytes, of an edit's changes together.
    Long,
    /// E9: a reach over the most tiles that a feature may cover.
    Reach,
    /// E10: an edit not of 1 to `MAX_CHANGES` changes.
    Batch,
    /// E11: an edit of which two changes are of one number.
    Twice,
    /// Out of memory.
    Memory,
}

impl fmt::Display for EditFault {
    fn fmt<W: fmt::Write>(&self, f: &mut fmt::Formatter<W>) -> fmt::Result {
        f.write_str(match self {
            EditFault::Member => "E1 Member",
            EditFault::Number => "E2 Number",
            EditFault::Layer => "E3 Layer",
            EditFault::Zoom => "E4 Zoom",
            EditFault::Geometry => "E5 Geometry",
            EditFault::Tags => "E6 Tags",
            EditFault::Value => "E7 Value",
            EditFault::Long => "E8 Long",
            EditFault::Reach => "E9 Reach",
            EditFault::Batch => "E10 Batch",
            EditFault::Twice => "E11 Twice",
            EditFault::Memory => "out of memory",
        })
    }
}

impl<T: Drop> From<AllocFailed<T>> for EditFault {
    ghost from_gives = { λ _ e. e ≡ Memory };

    fn from(_e: AllocFailed<T>) -> EditFault {
        EditFault::Memory
    }
}

impl From<AllocError> for EditFault {
    ghost from_gives = { λ _ e. e ≡ Memory };

    fn from(_e: AllocError) -> EditFault {
        EditFault::Memory
    }
}
