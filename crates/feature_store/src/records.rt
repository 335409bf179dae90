//! Records of edits: joined from the texts that the map keeps, and read without decoding a feature.

ghost use Rattle.std.specs.Prelude.{◌≡◌, ◌⊎◌, ◌≤◌, ◌↔◌, ℕ, ◌∷◌, ◌++◌, length, map, All, List, None, Err, IsTrue, IfOk, IfErr, OnOk, IfSome, MatchResult};
ghost use Rattle.feature_model.specs.Data.{FeatureData, ChangeData, put, delete, EditData, number_of};
ghost use Rattle.feature_model.specs.declared.kinds.TheConstants.{DELETE_KIND};
ghost use Rattle.feature_model.specs.declared.limits.TheConstants.{MAX_EDIT_BYTES};
ghost use Rattle.feature_model.specs.Limits.{AreEnough, HasChanges, IsNew, IsAllowedChange, IsAllowedEdit, TextsFit, NumberFits};
ghost use Rattle.feature_model.specs.Spelled.{spelled_change, spelled_changes};
ghost use Rattle.feature_model.specs.Types.{IsChange};
ghost use Rattle.edit_text.specs.declared.fault.TextFault.TheVariants.{Bad, Memory};
ghost use Rattle.edit_text.specs.Decoding.{BeginsWithChange};
ghost use Rattle.edit_text.specs.Recorded.{IsRecordOf, IsRecordVersion, FitsVersion, text_in, most_in};
ghost use Rattle.feature_store.specs.Prepared.{prepared_data};
ghost use Rattle.feature_store.specs.Records.{count_in, IsCounted, AreTexts, HasNoNext};

use crate::prepared::Prepared;
use edit_text::{StoredFeature, TextFault, decode_change, delete_text};
use feature_model::{Change, DELETE_KIND, MAX_EDIT_BYTES, change_count_fits};
use std::alloc::{AllocError, Global};

/// The bytes of the text of a deletion: its kind, and a number.
const DELETE_BYTES: usize = 9;

/// The length of the text of a change, in bytes.
fn text_len(change: &Prepared) -> usize
    ensures { result ≡ length (spelled_change (prepared_data change.now)) }
{
    match change {
        Prepared::Put(stored) => stored.text().len(),
        Prepared::Delete { .. } => DELETE_BYTES,
    }
}

/// The length of the texts of changes, in bytes.
fn texts_len(changes: &[Prepared]) -> usize
    requires { TextsFit (map prepared_data changes.now) }
    ensures { result ≡ length (spelled_changes (map prepared_data changes.now)) }
{
    let mut len = 0;
    for change in changes {
        len += text_len(change);
    }
    len
}

/// Memory for a record, with what it has before its changes.
fn begin_record(alloc: Global, version: u32, changes: &[Prepared]) -> Result<Vec<u8>, AllocError>
    requires count { HasChanges (map prepared_data changes.now) }
    requires text { TextsFit (map prepared_data changes.now) }
    ensures { IfOk result (λ v. v.items ≡ count_in version (length (map prepared_data changes.now))) }
{
    let len = texts_len(changes);
    if version == 1 {
        return Vec::with_capacity(alloc, len);
    }
    let mut text = Vec::with_capacity(alloc, 1 + len)?;
    text.push_reserved(changes.len() as u8);
    Ok(text)
}

/// Adds the text of a change to the end of a vector.
fn append_text(out: &mut Vec<u8>, change: &Prepared) -> Result<(), AllocError>
    requires { IsAllowedChange (prepared_data change.now) }
    ensures text { OnOk result (out.new.items ≡ out.old.items ++ spelled_change (prepared_data change.now)) }
    ensures change { OnOk result (IsChange (prepared_data change.now)) }
{
    match change {
        Prepared::Put(stored) => out.extend_from_slice(stored.text()),
        Prepared::Delete { id } => out.extend_from_slice(&delete_text(*id)),
    }
}

/// Adds the texts of changes to the end of a vector.
fn append_texts(out: &mut Vec<u8>, changes: &[Prepared]) -> Result<(), AllocError>
    requires { All IsAllowedChange (map prepared_data changes.now) }
    ensures text { OnOk result (out.new.items ≡ out.old.items ++ spelled_changes (map prepared_data changes.now)) }
    ensures changes { OnOk result (All IsChange (map prepared_data changes.now)) }
{
    for change in changes {
        append_text(out, change)?;
    }
    Ok(())
}

/// The text of a record of this version, of an edit that is within the limits: the texts of its changes, joined in one allocation. In
/// version 1 the edit has one change.
pub fn record_of(alloc: Global, version: u32, changes: &[Prepared]) -> Result<Vec<u8>, AllocError>
    requires allowed { IsAllowedEdit (map prepared_data changes.now) }
    requires version { FitsVersion version (map prepared_data changes.now) }
    ensures text { IfOk result (λ v. v.items ≡ text_in version (map prepared_data changes.now)) }
    // It is the text of a record, so it can be read.
    ensures record { IfOk result (λ v. IsRecordOf version (map prepared_data changes.now) v.items) }
    // The version says how long it may be.
    ensures len { IfOk result (λ v. length v.items ≤ most_in version) }
{
    let mut text = begin_record(alloc, version, changes)?;
    append_texts(&mut text, changes)?;
    Ok(text)
}

/// Whether bytes begin as the text of a deletion does.
fn is_deletion(text: &[u8]) -> bool
    ensures { IsTrue result ↔ ((rest : List ℕ) × (text.now ≡ DELETE_KIND ∷ rest)) }
{
    match text {
        [kind, ..] => *kind == DELETE_KIND,
        [] => false,
    }
}

/// The deletion whose text is at the start, and the bytes after it.
fn read_deletion(alloc: Global, text: &[u8]) -> Result<(Prepared, &[u8]), TextFault>
    ensures change { IfOk result (λ r. IsChange (prepared_data r.0)) }
    ensures text { IfOk result (λ r. text.now ≡ spelled_change (prepared_data r.0) ++ r.1.now) }
    ensures fault { IfErr result (λ fault. (fault ≡ Memory) ⊎ ((fault ≡ Bad) × ((id : ℕ) → BeginsWithChange (delete id) text.now → ⊥))) }
{
    match decode_change(alloc, text) {
        Ok((Change::Delete { id }, len)) => Ok((Prepared::Delete { id }, &text[len..])),
        Ok((Change::Put { .. }, _)) => Err(TextFault::Bad),
        Err(TextFault::Cut) => Err(TextFault::Bad),
        Err(TextFault::Bad) => Err(TextFault::Bad),
        Err(TextFault::Memory) => Err(TextFault::Memory),
    }
}

/// The change at the start that sets a feature, and the bytes after it.
fn read_put(alloc: Global, text: &[u8]) -> Result<(Prepared, &[u8]), TextFault>
    ensures change { IfOk result (λ r. IsChange (prepared_data r.0)) }
    ensures text { IfOk result (λ r. text.now ≡ spelled_change (prepared_data r.0) ++ r.1.now) }
    ensures fault { IfErr result (λ fault. (fault ≡ Memory)
        ⊎ ((fault ≡ Bad) × ((id : ℕ) (f : FeatureData) → BeginsWithChange (put id f) text.now → ⊥))) }
{
    match StoredFeature::read(alloc, text) {
        Ok((stored, len)) => Ok((Prepared::Put(stored), &text[len..])),
        Err(TextFault::Cut | TextFault::Bad) => Err(TextFault::Bad),
        Err(TextFault::Memory) => Err(TextFault::Memory),
    }
}

/// The change at the start, and the bytes after it.
fn read_change(alloc: Global, text: &[u8]) -> Result<(Prepared, &[u8]), TextFault>
    ensures change { IfOk result (λ r. IsChange (prepared_data r.0)) }
    ensures text { IfOk result (λ r. text.now ≡ spelled_change (prepared_data r.0) ++ r.1.now) }
    ensures fault { IfErr result (λ fault. (fault ≡ Memory) ⊎ ((fault ≡ Bad) × ((c : ChangeData) → BeginsWithChange c text.now → ⊥))) }
{
    if is_deletion(text) {
        return read_deletion(alloc, text);
    }
    read_put(alloc, text)
}

/// The number that a change is of.
fn number(change: &Prepared) -> u64
    ensures { result ≡ number_of (prepared_data change.now) }
{
    match change {
        Prepared::Put(stored) => stored.id(),
        Prepared::Delete { id } => *id,
    }
}

/// Whether none of the changes is of this number.
fn is_new(changes: &[Prepared], id: u64) -> bool
    ensures { IsTrue result ↔ IsNew (map prepared_data changes.now) id }
{
    changes.iter().all(|change| number(change) != id)
}

/// The change at the start, of a number that those before it don't have, and the bytes after it.
fn read_next<'a>(
    alloc: Global,
    before: &[Prepared],
    text: &'a [u8],
) -> Result<(Prepared, &'a [u8]), TextFault>
    ensures change { IfOk result (λ r. IsChange (prepared_data r.0)) }
    ensures new { IfOk result (λ r. IsNew (map prepared_data before.now) (number_of (prepared_data r.0))) }
    ensures text { IfOk result (λ r. text.entry.now ≡ spelled_change (prepared_data r.0) ++ r.1.now) }
    ensures fault { IfErr result (λ fault. (fault ≡ Memory) ⊎ ((fault ≡ Bad) × HasNoNext (map prepared_data before.now) text.entry.now)) }
{
    let (change, rest) = match read_change(alloc, text) {
        Ok(read) => read,
        Err(fault) => return Err(fault),
    };
    if is_new(before, number(&change)) {
        Ok((change, rest))
    } else {
        Err(TextFault::Bad)
    }
}

/// The changes, `count` of them, whose texts these bytes are.
fn read_changes(alloc: Global, count: u8, text: &[u8]) -> Result<Vec<Prepared>, TextFault>
    ensures found { IfOk result (λ v. AreTexts count (map prepared_data v.items) text.now) }
    ensures only { (cs : EditData) → AreTexts count cs text.now
        → MatchResult result (λ v. map prepared_data v.items ≡ cs) (λ fault. fault ≡ Memory) }
    ensures fault { IfErr result (λ fault. (fault ≡ Bad) ⊎ (fault ≡ Memory)) }
{
    let mut changes = Vec::with_capacity(alloc, usize::from(count))?;
    let mut rest = text;
    for _ in 0..count {
        let (change, behind) = match read_next(alloc, &changes, rest) {
            Ok(read) => read,
            Err(fault) => return Err(fault),
        };
        changes.push_reserved(change);
        rest = behind;
    }
    if rest.len() > 0 {
        return Err(TextFault::Bad);
    }
    Ok(changes)
}

/// The count of a record's changes, and the bytes of their texts.
fn split_count(version: u32, text: &[u8]) -> Option<(u8, &[u8])>
    ensures counted { IfSome result (λ r. IsCounted version r.0 r.1.now text.now) }
    ensures none { result ≡ None → (cs : EditData) → IsRecordOf version cs text.now → ⊥ }
{
    match version {
        1 => Some((1, text)),
        2 => match text {
            [count, texts @ ..] => Some((*count, texts)),
            [] => None,
        },
        _ => None,
    }
}

/// Whether an edit can have this count of changes, and texts of this length.
fn fits(count: u8, texts: &[u8]) -> bool
    ensures { IsTrue result ↔ (AreEnough count × (length texts.now ≤ MAX_EDIT_BYTES)) }
{
    change_count_fits(usize::from(count)) && texts.len() as u64 <= MAX_EDIT_BYTES
}

/// The changes of a record, by the record's version and its whole text, as the map keeps them: the text of each feature is copied, and
/// nothing is decoded. In version 1 the text is that of the edit's one change, in version 2 that of the edit. A text that is cut short or
/// that goes on after the edit is bad, and so is each of another version.
pub fn read_record(alloc: Global, version: u32, text: &[u8]) -> Result<Vec<Prepared>, TextFault>
    // What is found has this text in this version.
    ensures found { IfOk result (λ v. IsRecordOf version (map prepared_data v.items) text.now) }
    // An edit that has this text in this version is found, unless memory runs out.
    ensures only { (cs : EditData) → IsRecordOf version cs text.now
        → MatchResult result (λ v. map prepared_data v.items ≡ cs) (λ fault. fault ≡ Memory) }
    // If no edit has it, it is bad.
    ensures fault { IfErr result (λ fault. (fault ≡ Bad) ⊎ (fault ≡ Memory)) }
    // No other version allocates.
    ensures memory { result ≡ Err Memory → IsRecordVersion version }
{
    let (count, texts) = match split_count(version, text) {
        Some(parts) => parts,
        None => return Err(TextFault::Bad),
    };
    if fits(count, texts) {
        return read_changes(alloc, count, texts);
    }
    Err(TextFault::Bad)
}
