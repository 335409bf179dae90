//! The snapshot of a map: the texts of its features, by ascending number.
ghost use Rattle.std.specs.Prelude.{◌≡◌, ◌⊎◌, ◌<◌, ◌↔◌, ◌++◌, ℕ, All, IfOk, IfErr, OnOk, length};
ghost use Rattle.feature_model.specs.Data.{FeatureData, put};
ghost use Rattle.edit_text.specs.Decoding.{BeginsWithChange};
ghost use Rattle.number_map.specs.Blocks.{joined};
ghost use Rattle.feature_store.specs.Inside.{IsOwn, entries_data};
ghost use Rattle.feature_store.specs.Snapshots.{IsEditOf, IsNoSnapshot};
ghost use Rattle.feature_store.specs.Store.{entry_text, snapshot};
ghost use Rattle.feature_store.specs.declared.fault.SnapshotFault.TheVariants.{Bad, Memory};
ghost use Rattle.feature_store.specs.declared.limit.TheConstants.{TEXTS_END};

use crate::appended::append;
use crate::fault::SnapshotFault;
use crate::limit::TEXTS_END;
use crate::store::Store;
use edit_text::{StoredFeature, TextFault};
use number_map::{Block, Entry};
use std::alloc::{AllocError, Global};

/// Adds the texts of entries to the end of a vector.
fn append_texts(out: &mut Vec<u8>, entries: &[Entry<StoredFeature>]) -> Result<(), AllocError>
    requires { All IsOwn entries.now }
    ensures { OnOk result (out.new.items ≡ out.old.items ++ snapshot (entries_data entries.now)) }
{
    for entry in entries {
        out.extend_from_slice(entry.1.text())?;
    }
    Ok(())
}

/// Adds the texts of blocks of entries to the end of a vector.
pub(crate) fn append_block_texts(
    out: &mut Vec<u8>,
    blocks: &[Block<StoredFeature>],
) -> Result<(), AllocError>
    requires { All IsOwn (joined blocks.now) }
    ensures { OnOk result (out.new.items ≡ out.old.items ++ snapshot (entries_data (joined blocks.now))) }
{
    for block in blocks {
        append_texts(out, block.entries())?;
    }
    Ok(())
}

/// The fault of a text that isn't decoded.
fn to_snapshot_fault(fault: TextFault) -> SnapshotFault
    ensures either { (result ≡ Memory) ⊎ (result ≡ Bad) }
    ensures memory { (result ≡ Memory) ↔ (fault ≡ TextFault.Memory) }
{
    match fault {
        TextFault::Cut | TextFault::Bad => SnapshotFault::Bad,
        TextFault::Memory => SnapshotFault::Memory,
    }
}

/// The feature whose text is at the start, with its number, and the bytes after it.
#[tactic(auto, using(crate::proofs::Snapshots::text_behind, crate::proofs::Snapshots::text_within))]
fn read_entry(alloc: Global, text: &[u8]) -> Result<(StoredFeature, &[u8]), SnapshotFault>
    ensures edit { IfOk result (λ r. IsEditOf r.0) }
    ensures text { IfOk result (λ r. text.now ≡ entry_text r.0 ++ r.1.now) }
    ensures fault { IfErr result (λ fault. (fault ≡ Memory)
        ⊎ ((fault ≡ Bad) × ((e : ℕ × FeatureData) → BeginsWithChange (put e.0 e.1) text.now → ⊥))) }
{
    match StoredFeature::read(alloc, text) {
        Ok((stored, len)) => Ok((stored, &text[len..])),
        Err(fault) => Err(to_snapshot_fault(fault)),
    }
}

/// The map whose snapshot this is, in one pass, without an index.
#[tactic(auto, using(crate::proofs::Snapshots::all_read))]
pub(crate) fn read_map(alloc: Global, text: &[u8]) -> Result<Store, SnapshotFault>
    requires { length text.now < TEXTS_END }
    ensures map { IfOk result (λ store. snapshot store.features ≡ text.now) }
    ensures fault { IfErr result (λ fault. (fault ≡ Memory) ⊎ ((fault ≡ Bad) × IsNoSnapshot text.now)) }
{
    let mut store = Store::without_index(alloc);
    let mut end = 0;
    let mut rest = text;
    while !rest.is_empty() {
        let (stored, behind) = read_entry(alloc, rest)?;
        let id = stored.id();
        if id < end {
            return Err(SnapshotFault::Bad);
        }
        end = id + 1;
        append(&mut store, stored)?;
        rest = behind;
    }
    Ok(store)
}
