//! Texts to changes and edits.

ghost use Rattle.std.specs.Prelude.{◌≡◌, ℕ, ◌<◌, ◌⊎◌, List, length, IfOk, MatchResult};
ghost use Rattle.feature_model.specs.Data.{ChangeData, change_data, EditData, edit_data};
ghost use Rattle.feature_model.specs.Spelled.{spelled_change, spelled};
ghost use Rattle.edit_text.specs.Decoding.{BeginsWithChange, BeginsWith, BeginsAsPut, BeginsAsEdit, IsCutChange, IsCut};
ghost use Rattle.reader.specs.Reading.{Gives};
ghost use Rattle.edit_text.specs.Reading.{decode_at};

use crate::checking::{MAX_CHANGE_BYTES, check_change};
use crate::edits::read_edit;
use crate::fault::TextFault;
use crate::owned::to_change;
use feature_model::{Change, Edit};
use std::alloc::Global;

/// The most bytes of the text of an edit: its count, and the texts of its changes.
const MAX_BYTES: usize = 1 + MAX_CHANGE_BYTES;

/// The change whose text is at the start, and the length of the text in bytes. Bytes may follow it.
pub fn decode_change(alloc: Global, bytes: &[u8]) -> Result<(Change, usize), TextFault>
    // What is found is at the start, and its text has this length.
    ensures found { IfOk result (λ r. BeginsWithChange (change_data r.0) bytes.now) }
    ensures len { IfOk result (λ r. r.1 ≡ length (spelled_change (change_data r.0))) }
    // What is at the start is found, whatever follows it, unless memory runs out.
    ensures only { (c : ChangeData) → BeginsWithChange c bytes.now
        → MatchResult result (λ r. change_data r.0 ≡ c) (λ fault. fault ≡ TextFault.Memory) }
    // `Cut` is returned exactly if the bytes are cut, unless memory runs out.
    ensures cut { result ≡ Err TextFault.Cut → IsCutChange bytes.now }
    ensures only_cut { IsCutChange bytes.now
        → (result ≡ Err TextFault.Cut) ⊎ (result ≡ Err TextFault.Memory) }
    // An allocation fails only at what begins as a Put.
    ensures memory { result ≡ Err TextFault.Memory → BeginsAsPut bytes.now }
    // All other bytes are bad, unless memory runs out.
    ensures bad { result ≡ Err TextFault.Bad → ¬ IsCutChange bytes.now × ((c : ChangeData) → ¬ BeginsWithChange c bytes.now) }
{
    let len = check_change(bytes)?;
    let change = to_change(alloc, bytes)?;
    Ok((change, len))
}

/// The edit at the start, and the bytes after it, up to the length of the longest text of an edit.
#[tactic(auto, unfolding(crate::specs::Reading::decode_at))]
fn read_short(alloc: Global, bytes: &[u8]) -> Result<(Edit, &[u8]), TextFault>
    ensures edit { Gives TextFault.Memory (λ r. (edit_data r.0, r.1.now)) result (decode_at bytes.now) }
    ensures memory { result ≡ Err TextFault.Memory → BeginsAsEdit bytes.now }
{
    if bytes.len() < MAX_BYTES {
        return read_edit(alloc, bytes);
    }
    match read_edit(alloc, &bytes[..MAX_BYTES]) {
        Ok((edit, rest)) => Ok((edit, rest)),
        Err(TextFault::Cut | TextFault::Bad) => Err(TextFault::Bad),
        Err(TextFault::Memory) => Err(TextFault::Memory),
    }
}

/// The edit whose text is at the start, and the length of the text in bytes. Bytes may follow it.
pub fn decode(alloc: Global, bytes: &[u8]) -> Result<(Edit, usize), TextFault>
    // The clauses are those of `decode_change`.
    ensures found { IfOk result (λ r. BeginsWith (edit_data r.0) bytes.now) }
    ensures len { IfOk result (λ r. r.1 ≡ length (spelled (edit_data r.0))) }
    ensures only { (e : EditData) → BeginsWith e bytes.now
        → MatchResult result (λ r. edit_data r.0 ≡ e) (λ fault. fault ≡ TextFault.Memory) }
    ensures cut { result ≡ Err TextFault.Cut → IsCut bytes.now }
    ensures only_cut { IsCut bytes.now
        → (result ≡ Err TextFault.Cut) ⊎ (result ≡ Err TextFault.Memory) }
    // An allocation fails only after a count of changes was read.
    ensures memory { result ≡ Err TextFault.Memory → BeginsAsEdit bytes.now }
    ensures bad { result ≡ Err TextFault.Bad → ¬ IsCut bytes.now × ((e : EditData) → ¬ BeginsWith e bytes.now) }
{
    let (edit, rest) = read_short(alloc, bytes)?;
    let len = bytes.len().min(MAX_BYTES) - rest.len();
    Ok((edit, len))
}
