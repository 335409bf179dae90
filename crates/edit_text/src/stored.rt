//! Features that are kept as their texts.

ghost use Rattle.std.specs.Prelude.{◌≡◌, ◌↔◌, ℕ, IfOk, IsTrue, MatchResult, length};
ghost use Rattle.edit_text.specs.Decoding.{BeginsWithChange, BeginsAsPut, IsCutChange};
ghost use Rattle.feature_model.specs.Data.{FeatureData, feature_data, put};
ghost use Rattle.feature_model.specs.Limits.{IsAllowed};
ghost use Rattle.feature_model.specs.Spelled.{spelled_change};
ghost use Rattle.feature_model.specs.Types.{IsChange};
ghost use Rattle.edit_text.specs.Views.{feature_view};

use crate::checking::check_change;
use crate::encoding::append_put;
use crate::fault::TextFault;
use crate::feature::FeatureText;
use crate::trusted_numbers::{number_in, split};
use feature_model::{Feature, PUT_KIND, put_text_len};
use std::alloc::{AllocError, Global};
use std::marker::Model;

/// A number and its feature, kept as the text that gives the number this feature.
#[derive(Drop)]
pub struct StoredFeature {
    text: Vec<u8>,
}

impl Model for StoredFeature {
    ghost use Rattle.std.specs.Prelude.{ℕ};
    ghost use Rattle.feature_model.specs.Data.{FeatureData};
    ghost use Rattle.edit_text.specs.Stored.{stored_in, IsStored};

    ghost Value = { ℕ × FeatureData };

    ghost view = { λ s. stored_in s.text.items };

    ghost invariant = { λ s. IsStored s.text.items };
}

/// Whether bytes begin as the text of a change does that sets a feature.
fn is_put(text: &[u8]) -> bool
    ensures { IsTrue result ↔ BeginsAsPut text.now }
{
    match text {
        [kind, ..] => *kind == PUT_KIND,
        [] => false,
    }
}

/// The same bytes, as one piece of memory.
fn copy_of(alloc: Global, text: &[u8]) -> Result<Vec<u8>, AllocError>
    ensures { IfOk result (λ copy. copy.items ≡ text.now) }
{
    let mut copy = Vec::with_capacity(alloc, text.len())?;
    copy.extend_from_slice(text)?;
    Ok(copy)
}

impl StoredFeature {
    /// The number with this feature, as one piece of memory.
    pub fn of(alloc: Global, id: u64, feature: &Feature) -> Result<StoredFeature, AllocError>
        requires { IsAllowed id (feature_data feature.now) }
        ensures { IfOk result (λ s. s ≡ (id, feature_data feature.now)) }
    {
        let mut text = Vec::with_capacity(alloc, put_text_len(feature) as usize)?;
        append_put(&mut text, id, feature)?;
        Ok(StoredFeature { text })
    }

    /// The number and the feature of the change at the start, copied in one piece, and the length of its text in bytes.
    /// Bytes may follow it. The text of a deletion is `Bad`.
    pub fn read(alloc: Global, text: &[u8]) -> Result<(StoredFeature, usize), TextFault>
        // What is found is at the start, and its text has this length.
        ensures found { IfOk result (λ r. BeginsWithChange (put r.0.0 r.0.1) text.now) }
        ensures len { IfOk result (λ r. r.1 ≡ length (spelled_change (put r.0.0 r.0.1))) }
        // What is at the start is found, whatever follows it, unless memory runs out.
        ensures only { (id : ℕ) (f : FeatureData) → BeginsWithChange (put id f) text.now
            → MatchResult result (λ r. r.0 ≡ (id, f)) (λ fault. fault ≡ TextFault.Memory) }
        ensures cut { (result ≡ Err TextFault.Cut) ↔ IsCutChange text.now }
        // Memory is asked for once the whole text is known to be there.
        ensures memory { result ≡ Err TextFault.Memory → (id : ℕ) × (f : FeatureData) × BeginsWithChange (put id f) text.now }
    {
        let len = check_change(text)?;
        if !is_put(text) {
            return Err(TextFault::Bad);
        }
        let copy = copy_of(alloc, &text[..len])?;
        Ok((StoredFeature { text: copy }, len))
    }

    /// The number. It and the feature are within the limits.
    pub fn id(&self) -> u64
        ensures number { result ≡ self.now.0 }
        ensures change { IsChange (put self.now.0 self.now.1) }
    {
        let (_, rest) = split(&self.text, 1);
        let (number, _) = number_in(rest);
        number
    }

    /// What it shows.
    pub fn view(&self) -> FeatureText<'_>
        ensures { feature_view result ≡ self.now.1 }
    {
        FeatureText::of(&self.text)
    }

    /// The text, as the journal and a snapshot have it. The number and the feature are within the limits.
    pub fn text(&self) -> &[u8]
        ensures text { result.now ≡ spelled_change (put self.now.0 self.now.1) }
        ensures change { IsChange (put self.now.0 self.now.1) }
    {
        &self.text
    }
}
