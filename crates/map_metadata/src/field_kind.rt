//! What the values of a key are.

ghost use Rattle.std.specs.Prelude.{◌≡◌};
ghost use Rattle.edit_text.specs.Views.{value_view};
ghost use Rattle.map_metadata.specs.Fields.{kind_of, kind_name};
ghost use Rattle.map_metadata.specs.Summaries.{joined};

use edit_text::ValueText;

/// The kind of a value, or of all values of a key.
#[derive(Clone, Copy)]
pub(crate) enum FieldKind {
    Text,
    Number,
    Truth,
}

impl FieldKind {
    /// The kind of a value.
    pub(crate) fn of(value: ValueText<'_>) -> FieldKind
        ensures { result ≡ kind_of (value_view value.entry) }
    {
        match value {
            ValueText::Text(_) => FieldKind::Text,
            ValueText::Natural(_) | ValueText::Negative(_) => FieldKind::Number,
            ValueText::Truth(_) => FieldKind::Truth,
        }
    }

    /// The kind of values of two kinds: text where they differ.
    pub(crate) fn joined(self, other: FieldKind) -> FieldKind
        ensures { result ≡ joined self other }
    {
        match (self, other) {
            (FieldKind::Number, FieldKind::Number) => FieldKind::Number,
            (FieldKind::Truth, FieldKind::Truth) => FieldKind::Truth,
            _ => FieldKind::Text,
        }
    }

    /// The name that metadata has for it.
    #[tactic(auto, unfolding(crate::specs::Fields::kind_name))]
    pub(crate) fn name(self) -> &'static str
        ensures { result.now ≡ kind_name self }
    {
        match self {
            FieldKind::Text => "String",
            FieldKind::Number => "Number",
            FieldKind::Truth => "Boolean",
        }
    }
}
