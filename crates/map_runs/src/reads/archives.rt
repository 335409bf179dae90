//! Lines about the bytes of archives.
use archive_commands::{Verdict, show, verify};
use pm_archive::{Archive, ArchiveFault, Lookup};
use pm_directory::{DirectoryEntry, find, read_directory};
use pm_header::{HEADER_BYTES, Header};
use script_bytes::{Answer, number_in};

/// A header, and whether it is encoded as it was decoded from these bytes.
pub(crate) fn header(answer: &mut Answer, bytes: &[u8]) {
    match Header::from_bytes(bytes) {
        Ok(header) => {
            let is_same = bytes.get(..HEADER_BYTES) == Some(header.to_bytes().as_slice());
            let written = if is_same { "the same" } else { "otherwise" };
            write!(answer, "{header:?}, written {written}");
        }
        Err(fault) => answer.show(&fault),
    }
}

/// The entry of a directory that leads to an id.
pub(crate) fn found(answer: &mut Answer, id: u64, bytes: &[u8]) {
    match read_directory(answer.alloc(), bytes) {
        Ok(entries) => answer.show(&find(&entries, id)),
        Err(fault) => answer.show(&fault),
    }
}

/// The tile entries of all directories.
pub(crate) fn list(answer: &mut Answer, bytes: &[u8]) {
    match Archive::open(answer.alloc(), bytes) {
        Ok(mut archive) => list_entries(answer, archive.list()),
        Err((_, fault)) => answer.tell(&fault),
    }
}

fn list_entries(answer: &mut Answer, listed: Result<Vec<DirectoryEntry>, ArchiveFault>) {
    match listed {
        Ok(entries) => answer.show(&entries),
        Err(fault) => answer.tell(&fault),
    }
}

/// The content of an id after those of others.
fn list_content(answer: &mut Answer, found: Result<Option<Vec<u8>>, ArchiveFault>) {
    answer.item();
    answer.push('"');
    match found {
        Ok(Some(content)) => answer.hex(&content),
        Ok(None) => answer.say("none"),
        Err(fault) => answer.tell(&fault),
    }
    answer.push('"');
}

/// The contents of an archive for these ids.
fn list_contents(answer: &mut Answer, archive: &mut Archive<&[u8]>, ids: &str) {
    answer.push('[');
    for id in ids.split(',') {
        list_content(answer, archive.tile(number_in(id)));
    }
    answer.push(']');
}

/// The same of the bytes of an archive.
pub(crate) fn contents(answer: &mut Answer, ids: &str, bytes: &[u8]) {
    match Archive::open(answer.alloc(), bytes) {
        Ok(mut archive) => list_contents(answer, &mut archive, ids),
        Err((_, fault)) => answer.tell(&fault),
    }
}

/// The contents that one look-up finds for these ids in turn.
pub(crate) fn looks(answer: &mut Answer, ids: &str, bytes: &[u8]) {
    let mut source = bytes;
    let mut lookup = match Lookup::open(answer.alloc(), &mut source) {
        Ok(lookup) => lookup,
        Err(fault) => return answer.tell(&fault),
    };
    answer.push('[');
    for id in ids.split(',') {
        list_content(answer, lookup.tile(&mut source, number_in(id)));
    }
    answer.push(']');
}

/// The line of `verify`, after the status of its program.
pub(crate) fn judged(answer: &mut Answer, bytes: &[u8]) {
    let verdict = Verdict::of(verify(answer.alloc(), bytes));
    let status = verdict.status();
    write!(answer, "{status} {verdict}");
}

/// The text that `show` writes, or the name of its fault.
pub(crate) fn shown(answer: &mut Answer, bytes: &[u8]) {
    let mut out = Vec::new(answer.alloc());
    match show(bytes, &mut out) {
        Ok(()) => answer.show_made(&String::from_utf8_lossy(answer.alloc(), &out)),
        Err(fault) => write!(answer, "{fault}, {} bytes written", out.len()),
    }
}
