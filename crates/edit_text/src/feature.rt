//! Features in the bytes of their texts.

use crate::lists::GeometryText;
use crate::shapes::geometry_in;
use crate::tags::Tags;
use crate::trusted_numbers::{byte_in, split};
use crate::trusted_texts::name_in;

/// The bytes of a change before its feature: its kind and its number.
const HEAD_LEN: usize = 9;

/// A feature as the bytes of its text have it.
#[derive(Clone, Copy)]
pub struct FeatureText<'a> {
    /// The name of its layer.
    pub layer: &'a str,
    /// The first zoom that shows it.
    pub minzoom: u8,
    /// The last zoom that shows it.
    pub maxzoom: u8,
    pub geometry: GeometryText<'a>,
    /// Its tags, with strictly ascending keys.
    pub tags: Tags<'a>,
}

impl<'a> FeatureText<'a> {
    ghost use Rattle.std.specs.Prelude.{◌≡◌, ℕ};
    ghost use Rattle.feature_model.specs.Types.{FeatureFitsTypes};
    ghost use Rattle.edit_text.specs.Trusted.{feature_in, feature_of_text};
    ghost use Rattle.edit_text.specs.Views.{feature_view};

    /// The feature at the start.
    #[tactic(auto, unfolding(crate::specs::Trusted::feature_in))]
    pub(crate) fn front(bytes: &'a [u8]) -> Self
        requires { FeatureFitsTypes (feature_in bytes.now).0 }
        ensures { feature_view result ≡ (feature_in bytes.entry.now).0 }
    {
        let (layer, rest) = name_in(bytes);
        let (minzoom, rest) = byte_in(rest);
        let (maxzoom, rest) = byte_in(rest);
        let (geometry, rest) = geometry_in(rest);
        let tags = Tags::front(rest);
        FeatureText {
            layer,
            minzoom,
            maxzoom,
            geometry,
            tags,
        }
    }

    /// The feature that the text of a change sets.
    #[tactic(auto, unfolding(crate::specs::Trusted::feature_of_text))]
    pub(crate) fn of(text: &'a [u8]) -> Self
        requires { FeatureFitsTypes (feature_of_text text.now) }
        ensures { feature_view result ≡ feature_of_text text.entry.now }
    {
        let (_, rest) = split(text, HEAD_LEN);
        FeatureText::front(rest)
    }
}
