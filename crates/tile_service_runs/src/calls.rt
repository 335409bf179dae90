//! Calls of a service, one a function.
use super::brief::{tell_briefly, tell_events};
use super::events::add_events;
use super::sessions::{Served, Trial};
use pm_archive::Archive;
use script_bytes::{Answer, spelled_briefly};
use script_disks::Operands;
use std::alloc::{AllocError, Global};

/// The most bytes of an archive that are read.
const MAX_READ: u64 = 1_048_576;

/// Runs the events of a line. It doesn't fit if it has anything else, or no service is open.
pub(crate) fn run_events(alloc: Global, trial: &mut Trial, line: &str, answer: &mut Answer) {
    let Some(service) = trial.service.as_mut() else {
        return answer.reject();
    };
    let mut events = Vec::new(alloc);
    add_events(alloc, &mut events, line, answer);
    if answer.is_fit() {
        match service.run(events) {
            Ok(of_events) => tell_events(alloc, &of_events, answer),
            Err(fault) => answer.show(&fault),
        }
    }
}

/// Reads bytes of the archive, and says whether it could. The line doesn't fit if the archive is shorter.
fn read(service: &mut Served, at: u64, into: &mut [u8], answer: &mut Answer) -> bool {
    let len = service.archive_len();
    if at > len || into.len() as u64 > len - at {
        answer.reject();
        return false;
    }
    match service.archive_read(at, into) {
        Ok(()) => true,
        Err(fault) => {
            answer.show(&fault);
            false
        }
    }
}

/// Room for this many bytes of the archive.
fn room_for(alloc: Global, count: u64) -> Result<Vec<u8>, AllocError> {
    vec![in alloc; 0u8; count.min(MAX_READ) as usize]
}

/// Tells `count` bytes of the archive from an offset on.
fn archive(alloc: Global, service: &mut Served, at: u64, count: u64, answer: &mut Answer) {
    if let Some(mut bytes) = answer.granted(room_for(alloc, count)) {
        if read(service, at, &mut bytes, answer) {
            answer.add(spelled_briefly(alloc, &bytes));
        }
    }
}

/// Tells the verdict on the bytes of an archive.
fn judge(alloc: Global, bytes: &[u8], answer: &mut Answer) {
    match Archive::open(alloc, bytes) {
        Ok(mut archive) => answer.show(&pm_verify::verify(alloc, &mut archive)),
        Err(fault) => answer.show(&fault),
    }
}

/// Tells the verdict on the archive, which has `len` bytes.
fn verify(alloc: Global, service: &mut Served, len: u64, answer: &mut Answer) {
    if let Some(mut bytes) = answer.granted(room_for(alloc, len)) {
        if read(service, 0, &mut bytes, answer) {
            judge(alloc, &bytes, answer);
        }
    }
}

fn metadata(alloc: Global, service: &mut Served, answer: &mut Answer) {
    match service.metadata() {
        Ok(text) => {
            if let Some(text) = answer.granted(String::from_utf8_lossy(alloc, &text)) {
                tell_briefly(&text, answer);
            }
        }
        Err(fault) => answer.show(&fault),
    }
}

/// Prepares a publication by up to `count` calls, until one doesn't return that tiles may be left. Tells what the last one returned.
fn prepare(service: &mut Served, count: u64, answer: &mut Answer) {
    let mut outcome = Ok(true);
    for _ in 0..count {
        if !matches!(outcome, Ok(true)) {
            break;
        }
        outcome = service.publish_prepare();
    }
    answer.show(&outcome);
}

/// What is asked of a service.
#[derive(Clone, Copy)]
pub(crate) enum OfService {
    Publish,
    Prepare,
    PrepareUpTo,
    Drafting,
    Drafted,
    Drop,
    Archive,
    ArchivePart,
    Verify,
    Metadata,
    Version,
}

/// Makes the call that a command asks for. It doesn't fit if no service is open.
pub(crate) fn run(
    alloc: Global,
    trial: &mut Trial,
    asks: OfService,
    operands: &Operands,
    answer: &mut Answer,
) {
    let Some(service) = trial.service.as_mut() else {
        return answer.reject();
    };
    let len = service.archive_len();
    let (at, count) = (operands.number(0), operands.number(1));
    match asks {
        OfService::Publish => answer.show(&service.publish()),
        OfService::Prepare => prepare(service, 1, answer),
        OfService::PrepareUpTo => prepare(service, at, answer),
        OfService::Drafting => answer.show(&service.drafting()),
        OfService::Drafted => answer.show(&service.publish_drafted()),
        OfService::Drop => {
            service.publish_drop();
            answer.say("dropped");
        }
        OfService::Archive => archive(alloc, service, 0, len, answer),
        OfService::ArchivePart => archive(alloc, service, at, count, answer),
        OfService::Verify => verify(alloc, service, len, answer),
        OfService::Metadata => metadata(alloc, service, answer),
        OfService::Version => answer.show(&service.version()),
    }
}
