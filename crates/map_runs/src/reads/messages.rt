//! Lines about the bytes of messages: fields, changes and edits.
use edit_text::decode;
use pb_wire::Fields;
use script_bytes::Answer;
use std::fmt::Debug;

/// The fields up to the first fault, which is the last that is told.
pub(crate) fn fields(answer: &mut Answer, bytes: &[u8]) {
    for item in Fields::new(bytes) {
        answer.item();
        answer.show(&item);
    }
}

/// What was read and how many bytes it takes, or the fault.
pub(crate) fn counted(answer: &mut Answer, outcome: &Result<(impl Debug, usize), impl Debug>) {
    match outcome {
        Ok((found, len)) => write!(answer, "{len} bytes: {found:?}"),
        Err(fault) => answer.show(fault),
    }
}

/// The edit in front, and how many bytes it takes.
pub(crate) fn edit(answer: &mut Answer, bytes: &[u8]) {
    match decode(answer.alloc(), bytes) {
        Ok((edit, len)) => write!(answer, "{len} bytes: {:?}", edit.changes),
        Err(fault) => answer.show(&fault),
    }
}
