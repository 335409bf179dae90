//! A disk, and its service while it is open.
use script_bytes::Answer;
use script_disks::{Fails, Operands, crashed};
use sector_disk::{FailingCalls, FaultyDisk, MemoryDisk};
use std::alloc::{AllocError, Global};
use std::mem;
use tile_service::Service;

/// The disk of a service, whose calls may fail.
pub(crate) type ServedDisk = FaultyDisk<MemoryDisk>;

/// The service of a script.
pub(crate) type Served = Service<ServedDisk>;

/// No call fails.
const NONE: FailingCalls = FailingCalls::OneNotMade(0);

/// The state of a script: a closed disk or an open service, the disk that was stopped last if one was, and the failing calls of the next
/// session. It ends by `end` alone.
pub struct Trial {
    /// The closed disk. While a service is open it has no sectors.
    pub(super) disk: MemoryDisk,
    pub(super) service: Option<Served>,
    stopped: Option<MemoryDisk>,
    failing: FailingCalls,
}

impl Trial {
    /// A closed disk without sectors.
    pub fn new(alloc: Global) -> Result<Trial, AllocError> {
        let disk = MemoryDisk::new(alloc, 0)?;
        Ok(Trial {
            disk,
            service: None,
            stopped: None,
            failing: NONE,
        })
    }

    /// Closes the service, if one is open. Returns the number of calls of its disk.
    fn close(&mut self) -> u64 {
        let Some(service) = self.service.take() else {
            return 0;
        };
        let disk = service.into_disk();
        let calls = disk.calls();
        self.replace(disk.into_disk());
        calls
    }

    /// Lets the disks go, and the service by way of its disk.
    pub fn end(self) {
        let Trial {
            disk,
            service,
            stopped,
            failing: _,
        } = self;
        end_service(service);
        drop(disk);
        drop(stopped);
    }

    /// Replaces the closed disk.
    pub(crate) fn replace(&mut self, disk: MemoryDisk) {
        drop(mem::replace(&mut self.disk, disk));
    }

    /// Takes the disk of the session out, with its failing calls, and leaves one without sectors and failing calls.
    pub(crate) fn take_disk(&mut self, alloc: Global) -> Result<ServedDisk, AllocError> {
        self.close();
        let failing = self.failing;
        self.failing = NONE;
        let empty = MemoryDisk::new(alloc, 0)?;
        Ok(FaultyDisk::new(mem::replace(&mut self.disk, empty), failing))
    }
}

/// Lets a service go by way of its disk.
fn end_service(service: Option<Served>) {
    if let Some(service) = service {
        drop(service.into_disk());
    }
}

/// Opens the disk. At a fault the session stays closed, and the fault is told with the number of calls.
fn open(alloc: Global, trial: &mut Trial, answer: &mut Answer) {
    let Some(disk) = answer.granted(trial.take_disk(alloc)) else {
        return;
    };
    match Service::open(alloc, disk) {
        Ok(service) => {
            end_service(mem::replace(&mut trial.service, Some(service)));
            answer.say("open");
        }
        Err((disk, fault)) => {
            let calls = disk.calls();
            trial.replace(disk.into_disk());
            answer.show_calls(&fault, calls);
        }
    }
}

fn stop(alloc: Global, trial: &mut Trial, answer: &mut Answer) {
    let calls = trial.close();
    if let Some(empty) = answer.granted(MemoryDisk::new(alloc, 0)) {
        let disk = mem::replace(&mut trial.disk, empty);
        drop(mem::replace(&mut trial.stopped, Some(disk)));
        write!(answer, "stopped in {calls}");
    }
}

fn resume(alloc: Global, trial: &mut Trial, answer: &mut Answer) {
    let made = match trial.stopped.take() {
        Some(disk) => Ok(disk),
        None => MemoryDisk::new(alloc, 0),
    };
    put(trial, made, "resumed", answer);
}

/// Begins a session with a disk that was made.
fn put(trial: &mut Trial, made: Result<MemoryDisk, AllocError>, word: &str, answer: &mut Answer) {
    if let Some(disk) = answer.granted(made) {
        trial.close();
        trial.replace(disk);
        answer.say(word);
    }
}

fn crash(alloc: Global, trial: &mut Trial, numbers: &[u64], answer: &mut Answer) {
    let made = crashed(alloc, trial.stopped.as_ref(), numbers);
    put(trial, made, "crashed", answer);
}

fn fail(trial: &mut Trial, failing: FailingCalls, answer: &mut Answer) {
    trial.failing = failing;
    answer.show(&failing);
}

/// What is asked of a session.
#[derive(Clone, Copy)]
pub(crate) enum OfSession {
    Make,
    Fail(Fails),
    Open,
    Stop,
    Resume,
    Crash,
}

/// Does what a command on a session asks for.
pub(crate) fn run(
    alloc: Global,
    trial: &mut Trial,
    asks: OfSession,
    operands: &Operands,
    answer: &mut Answer,
) {
    let number = operands.number(0);
    match asks {
        OfSession::Make => put(trial, MemoryDisk::new(alloc, number), "made", answer),
        OfSession::Fail(fails) => fail(trial, fails.at(number), answer),
        OfSession::Open => open(alloc, trial, answer),
        OfSession::Stop => stop(alloc, trial, answer),
        OfSession::Resume => resume(alloc, trial, answer),
        OfSession::Crash => crash(alloc, trial, &operands.numbers, answer),
    }
}
