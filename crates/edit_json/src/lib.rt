//! A feature as JSON, both ways, and the changes of an edit from JSON.
//!
//! A feature's value is an object with exactly five members: `layer` is a text; `minzoom` and `maxzoom` are whole
//! numbers; `geometry` is an object with exactly one of `points`, a list of points `[x,y]`, `lines`, a list of lists of
//! points, and `polygons`, a list of polygons, each a list of rings, each a list of points; and `tags` is an object from
//! keys to texts, whole numbers and truth values. A whole number is one that `as_u64` or `as_i64` of `serde_json` gives,
//! so `-0`, `1.0` and `1e0` are none.
#![tactic(auto)]

mod batches;
mod checked;
mod edits;
mod laws;
mod lists;
mod outline;
mod reading;
mod tags;
mod writer;

pub use batches::batch_from_json;
pub use checked::checked_from_json;
pub use edits::{delete_to_json, numbered_to_json, put_to_json};
pub use laws::{a_body_of_its_changes_is_its_batch, lengths_of_texts, listed_text_is_its_edit};
pub use reading::feature_from_json;
pub use writer::feature_to_json;
