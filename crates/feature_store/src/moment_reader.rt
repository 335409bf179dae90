//! The features of a moment, read by steps.
ghost use Rattle.std.specs.Prelude.{◌≡◌, ◌<◌, ◌≤◌, ◌++◌, [], All, map, Ok, true, false, IfOk, OnOk, OnErr, option_copied};
ghost use Rattle.number_map.specs.Blocks.{Ascends};
ghost use Rattle.feature_model.specs.declared.limits.TheConstants.{NUMBER_END};
ghost use Rattle.feature_store.specs.Indexed.{index_entry};
ghost use Rattle.feature_store.specs.Inside.{IsOwn, entries_data};
ghost use Rattle.feature_store.specs.Moments.{IsAsOf};
ghost use Rattle.feature_store.specs.Reading.{IsRead, stored_in};
ghost use Rattle.feature_store.specs.Store.{IsMap, snapshot};

use crate::all_tiles::Tiles;
use crate::feature_boxes::{FeatureBoxes, append_blocks};
use crate::indexed::index_entry;
use crate::moment::Moment;
use crate::store::Store;
use box_index::IndexEntry;
use edit_text::StoredFeature;
use feature_model::NUMBER_END;
use number_map::NumberMap;
use std::alloc::{AllocError, Global};
use std::marker::Model;
use std::snapshot::Snapshot;

/// How many numbers a step looks at, of those that have a feature or were changed since the moment.
pub const STEP_NUMBERS: usize = 256;

/// For how many bytes of texts memory is reserved, 65 MiB. glibc gives a block of more than 32 MiB pages of its own, if its heap has no free block as
/// large (at its end it has less than 64 MiB): as the text grows they are moved, not copied. A smaller one may be copied at each growth. Pages that
/// nothing was written to take no memory.
const RESERVED_BYTES: usize = 68_157_440;

/// The texts and the boxes of the features of a map as of a moment, read by ascending number, by steps between which the map may be edited.
#[derive(Drop)]
pub struct MomentReader {
    /// The features, which only clauses read.
    features: Snapshot<NumberMap<StoredFeature>>,
    /// The texts of the features that are read.
    text: Vec<u8>,
    /// Their boxes.
    boxes: Vec<IndexEntry>,
    /// The features with lower numbers are read.
    from: u64,
    alloc: Global,
}

impl Model for MomentReader {
    ghost use Rattle.feature_store.specs.Reading.{ReaderView};

    ghost Value = { ReaderView };

    ghost use Rattle.feature_store.specs.ReaderInside.{reader_view, IsReader};

    ghost view = { reader_view };

    ghost invariant = { IsReader };
}

/// An empty text, with room for `RESERVED_BYTES` bytes, unless that is refused.
fn reserved_text(alloc: Global) -> Vec<u8>
    ensures { result.items ≡ [] }
{
    match Vec::with_capacity(alloc, RESERVED_BYTES) {
        Ok(text) => text,
        Err(_) => Vec::new(alloc),
    }
}

/// Appends the text and the box of the feature that a number had, if it had one. If memory is missing, neither is appended.
fn append_had(
    text: &mut Vec<u8>,
    boxes: &mut Vec<IndexEntry>,
    had: Option<&StoredFeature>,
) -> Result<(), AllocError>
    ensures text { OnOk result (text.new.items ≡ text.old.items ++ snapshot (stored_in (option_copied had.entry))) }
    ensures boxes { OnOk result (boxes.new.items ≡ boxes.old.items ++ map index_entry (stored_in (option_copied had.entry))) }
    ensures same_text { OnErr result (text.new.items ≡ text.old.items) }
    ensures same_boxes { OnErr result (boxes.new.items ≡ boxes.old.items) }
{
    let Some(stored) = had else {
        return Ok(());
    };
    boxes.reserve(1)?;
    text.extend_from_slice(stored.text())?;
    boxes.push_reserved(index_entry(stored.id(), stored.view()));
    Ok(())
}

impl MomentReader {
    /// A reader of the map as it is now, which has read nothing. It tries to reserve memory for texts, and doesn't need it. The only error is out of
    /// memory.
    pub fn of(alloc: Global, store: &Store) -> Result<MomentReader, AllocError>
        ensures features { IfOk result (λ r. r.features ≡ store.now.features) }
        ensures start { IfOk result (λ r. r.from ≡ 0) }
    {
        let boxes = Vec::with_capacity(alloc, store.len())?;
        Ok(MomentReader {
            features: Snapshot::of(store.features()),
            text: reserved_text(alloc),
            boxes,
            from: 0,
            alloc,
        })
    }

    /// A reader that has read the map as it is now, at once. The only error is out of memory.
    pub fn whole(alloc: Global, store: &Store) -> Result<MomentReader, AllocError>
        ensures features { IfOk result (λ r. r.features ≡ store.now.features) }
        ensures all { IfOk result IsRead }
    {
        let text = store.snapshot_text()?;
        let mut boxes = Vec::with_capacity(alloc, store.len())?;
        append_blocks(&mut boxes, store.blocks())?;
        Ok(MomentReader {
            features: Snapshot::of(store.features()),
            text,
            boxes,
            from: NUMBER_END,
            alloc,
        })
    }

    /// Reads the next number of the moment. It is false if none is left.
    fn read_next(
        &mut self,
        features: &NumberMap<StoredFeature>,
        moment: &Moment,
    ) -> Result<bool, AllocError>
        requires same { moment.now.features ≡ self.old.features }
        requires there { moment.now.lost ≡ false }
        requires as_of { IsAsOf moment.now (entries_data features.now.entries) }
        requires ascending { Ascends features.now.entries }
        requires own { All IsOwn features.now.entries }
        ensures features { self.new.features ≡ self.old.features }
        ensures further { result ≡ Ok true → self.old.from < self.new.from }
        ensures within { self.new.from ≤ NUMBER_END }
        ensures all { result ≡ Ok false → IsRead self.new }
    {
        let Some((number, had)) = moment.stored_from(features, self.from) else {
            self.from = NUMBER_END;
            return Ok(false);
        };
        append_had(&mut self.text, &mut self.boxes, had)?;
        self.from = number + 1;
        Ok(true)
    }

    /// Reads the next features of the moment, of at most 256 numbers. `store` is the map as it is now. It is true if features may be left.
    /// The only error is out of memory; nothing that was read is lost then.
    pub fn step(&mut self, store: &Store, moment: &Moment) -> Result<bool, AllocError>
        requires same { moment.now.features ≡ self.old.features }
        requires there { moment.now.lost ≡ false }
        requires as_of { IsAsOf moment.now store.now.features }
        ensures features { self.new.features ≡ self.old.features }
        ensures further { result ≡ Ok true → self.old.from < self.new.from }
        ensures within { self.new.from ≤ NUMBER_END }
        ensures all { result ≡ Ok false → IsRead self.new }
    {
        for _ in 0..STEP_NUMBERS {
            if !self.read_next(store.features(), moment)? {
                return Ok(false);
            }
        }
        Ok(true)
    }

    /// The snapshot of the map, and its tiles, once all features are read. The only error is out of memory.
    pub fn finish(self) -> Result<(Vec<u8>, Tiles), AllocError>
        requires { IsRead self }
        ensures is_map { IsMap self.features }
        ensures text { IfOk result (λ r. r.0.items ≡ snapshot self.features) }
        ensures map { IfOk result (λ r. r.1.features ≡ self.features) }
        ensures start { IfOk result (λ r. r.1.from ≡ 0) }
    {
        let MomentReader {
            features,
            text,
            boxes,
            from: _,
            alloc,
        } = self;
        let tiles = Tiles::of_boxes(alloc, FeatureBoxes::with(features, boxes));
        Ok((text, tiles))
    }
}
