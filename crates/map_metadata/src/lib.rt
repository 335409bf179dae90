//! The JSON metadata of a map: its layers, each with its zooms and the kinds of its tags' values.
//!
//! It is an object with the one member `vector_layers`, a list with an object for each layer name of the map, ascending byte
//! by byte. The object's members are `fields`, an object that gives each key of a tag of the layer `"String"`, `"Number"` or
//! `"Boolean"`; `id`, the layer's name; and `maxzoom` and `minzoom`, the greatest and the least zoom that show a feature of it.
#![tactic(auto)]

mod draft;
mod field_kind;
mod summary;
mod writer;

pub use draft::MetadataDraft;
pub use writer::metadata_text;
