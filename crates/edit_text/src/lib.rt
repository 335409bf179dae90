//! The texts of changes and of edits: encoded, decoded, and checked without a copy. A feature is read in the bytes of its text: a view
//! (`FeatureText` and its parts) borrows the bytes and allocates nothing, `StoredFeature` owns the text of one feature and its number,
//! `to_feature` copies what a view shows, and `is_feature` compares a view with a feature.
#![tactic(auto)]

mod checked_shapes;
mod checked_tags;
mod checking;
mod decoding;
mod edits;
mod encoding;
mod fault;
mod feature;
mod fields;
mod lists;
mod owned;
mod same;
mod shapes;
mod stored;
mod tags;
mod trusted_numbers;
mod trusted_texts;

pub use checking::check_change;
pub use decoding::{decode, decode_change};
pub use encoding::{append_put, delete_edit_text, delete_text, encode, encode_change};
pub use fault::TextFault;
pub use feature::FeatureText;
pub use lists::{GeometryText, Lines, Points, Polygons};
pub use owned::to_feature;
pub use same::is_feature;
pub use stored::StoredFeature;
pub use tags::{TagText, Tags, ValueText};
