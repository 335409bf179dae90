//! The laws of a listed edit's text.
ghost use Rattle.std.specs.Prelude.{◌≡◌, ◌<◌, ◌+◌, ◌^◌, ◌∷◌, [], ℕ, List, Some, length, decimal};
ghost use Rattle.serde_json.specs.Data.{Data};
ghost use Rattle.serde_json.specs.Read.{read};
ghost use Rattle.serde_json.specs.Written.{compact_text};
ghost use Rattle.feature_model.specs.Data.{EditData, FeatureData, put};
ghost use Rattle.feature_model.specs.Types.{IsEdit};
ghost use Rattle.edit_json.specs.Json.{json_of};
ghost use Rattle.edit_json.specs.Batches.{batch_json, IsBatch};
ghost use Rattle.edit_json.specs.Numbered.{numbered_edit};
ghost use Rattle.edit_json.specs.Listed.{IsJsonText, listed_text, body_text, HasItsChanges, IsCutTo};

/// The listed text of an edit of the journal is JSON, and reads as the edit with its number.
pub fn listed_text_is_its_edit()
    ensures listed { (number : ℕ) (cs : EditData) → number < 2 ^ 64 → IsEdit cs → IsJsonText (listed_text number cs) (numbered_edit number cs) }
    ensures cut { (number : ℕ) (cs : EditData) → IsCutTo (listed_text number cs) (body_text cs) number }
{}

/// Whoever reads a listed text and sends its changes alone, spelled in any way, sends the edit's batch, and nothing else. One spelling is
/// the listed text without the number.
pub fn a_body_of_its_changes_is_its_batch()
    ensures any { (number : ℕ) (cs : EditData) (listed taken : Data) → number < 2 ^ 64 → IsEdit cs
        → read (listed_text number cs) ≡ Some listed → HasItsChanges listed taken → IsBatch taken cs }
    ensures one { (cs : EditData) → IsEdit cs → IsJsonText (body_text cs) (batch_json cs) }
{}

/// How long they are: a feature's change has more bytes than the feature.
pub fn lengths_of_texts()
    ensures listed { (number : ℕ) (cs : EditData) → length (listed_text number cs) ≡ length (body_text cs) + length (decimal number) + 8 }
    ensures put { (id : ℕ) (f : FeatureData) → length (body_text (put id f ∷ [])) ≡ length (compact_text (json_of f)) + length (decimal id) + 33 }
{}
