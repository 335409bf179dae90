//! Lines about the texts of edits and of their records.
ghost use Rattle.std.specs.Prelude.{map};
ghost use Rattle.edit_text.specs.Recorded.{FitsVersion};
ghost use Rattle.feature_model.specs.Limits.{IsAllowedEdit};
ghost use Rattle.feature_store.specs.Prepared.{prepared_data};

use edit_text::{delete_edit_text, delete_text, encode};
use feature_model::{Change, Edit, EditFault, NUMBER_END, check_batch};
use feature_store::{Prepared, read_record, record_of};
use script_bytes::{Answer, expanded, number_in, parted, short};

/// The texts of a change and of an edit that take a number's feature away.
pub(crate) fn deleted(answer: &mut Answer, id: u64) {
    if id >= NUMBER_END {
        return answer.tell(&EditFault::Number);
    }
    answer.hex(delete_text(id).as_slice());
    answer.push(' ');
    answer.hex(delete_edit_text(id).as_slice());
}

/// The text of an edit of these changes.
pub(crate) fn batch_text(answer: &mut Answer, changes: Vec<Change>) {
    if let Err(fault) = check_batch(&changes) {
        return answer.tell(&fault);
    }
    let edit = Edit { changes };
    answer.made_bytes(encode(answer.alloc(), &edit));
}

/// The text of the edit of a record's changes, written again by this version, and as an edit's.
fn both_texts(answer: &mut Answer, version: u32, changes: &[Prepared])
    requires allowed { IsAllowedEdit (map prepared_data changes.now) }
    requires version { FitsVersion version (map prepared_data changes.now) }
{
    answer.made_bytes(record_of(answer.alloc(), version, changes));
    answer.push(' ');
    answer.made_bytes(record_of(answer.alloc(), 2, changes));
}

/// The same of a record's text.
fn rewritten(answer: &mut Answer, version: u32, text: &[u8]) {
    match read_record(answer.alloc(), version, text) {
        Ok(changes) => both_texts(answer, version, &changes),
        Err(fault) => answer.show(&fault),
    }
}

/// The same of a text that is spelled.
pub(crate) fn record(answer: &mut Answer, rest: &str) {
    let (version, text) = parted(rest);
    let Ok(text) = expanded(answer.alloc(), text) else {
        return answer.refuse();
    };
    let bytes = hex::decode(answer.alloc(), text.as_str());
    drop(text);
    match bytes {
        Ok(bytes) => rewritten(answer, short(number_in(version)), &bytes),
        Err(_) => answer.say("Hex"),
    }
}
