//! What a publication of a map writes into an area.
use area_content::{AreaContent, content_of};
use feature_store::Store;
use map_metadata::metadata_text;
use pm_metadata::is_metadata;
use script_bytes::Answer;

/// One above the most sectors of an area.
const AREA_END: u64 = 1 << 23;

/// How long snapshot and archive are, how many sectors they take, and the bytes of these.
fn tell(answer: &mut Answer, content: &AreaContent) {
    let snapshot = content.snapshot_len();
    let archive = content.archive_len();
    let sectors = content.sectors();
    write!(answer, "{snapshot} {archive} {sectors} ");
    for index in 0..content.sectors() {
        answer.hex(&content.sector(index));
    }
}

/// The same of a map with this metadata.
fn tell_content(answer: &mut Answer, store: &Store, metadata: &[u8], free: u64) {
    let Ok(is_object) = is_metadata(answer.alloc(), metadata) else {
        return answer.refuse();
    };
    if free >= AREA_END || !is_object {
        return answer.say("no area");
    }
    match content_of(answer.alloc(), store, metadata, free) {
        Ok(content) => tell(answer, &content),
        Err(fault) => answer.tell(&fault),
    }
}

/// The content for an area of this size in sectors.
pub(crate) fn area(answer: &mut Answer, store: &Store, free: u64) {
    match metadata_text(answer.alloc(), store) {
        Ok(metadata) => tell_content(answer, store, metadata.as_bytes(), free),
        Err(_) => answer.refuse(),
    }
}
