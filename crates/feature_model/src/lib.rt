//! Features of a map, edits, and their limits.
#![tactic(auto)]

mod fault;
mod feature;
mod kinds;
mod lengths;
mod limits;
mod seen;

pub use fault::EditFault;
pub use feature::{Change, Edit, EditValue, Feature, Geometry, Tag, World, WorldBox};
pub use kinds::{
    DELETE_KIND, FALSE_KIND, LINES_KIND, NATURAL_KIND, NEGATIVE_KIND, POINTS_KIND, POLYGONS_KIND,
    PUT_KIND, TEXT_KIND, TRUE_KIND,
};
pub use lengths::{change_text_len, put_text_len};
pub use limits::{
    MAX_CHANGES, MAX_EDIT_BYTES, MAX_ELEMENTS, MAX_NAME_BYTES, MAX_TAGS, MAX_TEXT_BYTES, MAX_ZOOM,
    MIN_LINE, MIN_RING, NUMBER_END, change_count_fits, check, check_batch, count_fits, is_name,
    is_new, is_tag_text, tag_count_fits, zooms_fit,
};
pub use seen::Seen;
