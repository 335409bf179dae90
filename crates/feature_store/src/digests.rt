//! The digest of a map: the sum of the hashes of its texts.
ghost use Rattle.std.specs.Prelude.{◌≡◌, ℕ, IfSome, option_copied, option_map};
ghost use Rattle.feature_model.specs.Data.{FeatureData};
ghost use Rattle.number_map.specs.Blocks.{Ascends};
ghost use Rattle.feature_store.specs.Digests.{text_hash, entry_hash, map_digest};
ghost use Rattle.feature_store.specs.Inside.{stored_data};
ghost use Rattle.feature_store.specs.Store.{FeatureMap, feature_at, with_feature, without_feature};

use edit_text::StoredFeature;

/// The offset basis of FNV-1a with 64 bits.
const FNV_BASIS: u64 = 14_695_981_039_346_656_037;

/// The prime of FNV-1a with 64 bits.
const FNV_PRIME: u64 = 1_099_511_628_211;

/// FNV-1a with 64 bits.
#[tactic(auto, unfolding(crate::specs::Digests::text_hash))]
fn text_hash(text: &[u8]) -> u64
    ensures { result ≡ text_hash text.now }
{
    let mut hash = FNV_BASIS;
    for byte in text {
        hash = (hash ^ u64::from(*byte)).wrapping_mul(FNV_PRIME);
    }
    hash
}

/// The hash of the text that gives a number this feature.
pub(crate) fn entry_hash(stored: &StoredFeature) -> u64
    ensures { result ≡ entry_hash stored.now }
{
    text_hash(stored.text())
}

/// The digest of a map from which the number's feature is taken, if there is one.
pub(crate) fn digest_without(digest: u64, stored: Option<&StoredFeature>) -> u64
    ensures { (m : FeatureMap) (id : ℕ) → digest ≡ map_digest m → IfSome (option_copied stored.entry) (λ s. s.0 ≡ id)
        → option_map stored_data (option_copied stored.entry) ≡ feature_at m id → result ≡ map_digest (without_feature m id) }
{
    match stored {
        Some(stored) => digest.wrapping_sub(entry_hash(stored)),
        None => digest,
    }
}

/// The digest of a map in which a number is given the feature whose text has this hash, in the place of the feature before, if there was one.
pub(crate) fn digest_with(digest: u64, hash: u64, replaced: Option<&StoredFeature>) -> u64
    ensures { (m : FeatureMap) (id : ℕ) (f : FeatureData) → digest ≡ map_digest m → hash ≡ entry_hash (id, f) → Ascends m
        → IfSome (option_copied replaced.entry) (λ s. s.0 ≡ id)
        → option_map stored_data (option_copied replaced.entry) ≡ feature_at m id → result ≡ map_digest (with_feature m id f) }
{
    digest_without(digest, replaced).wrapping_add(hash)
}
