//! Sectors of a disk.
use script_bytes::{Answer, choices_of, used_part};
use sector_disk::{FailingCalls, MemoryDisk, SECTOR_BYTES, Sectors};
use std::alloc::{AllocError, Global};

/// Which calls of a disk fail.
#[derive(Clone, Copy)]
pub enum Fails {
    None,
    /// Each from a number on.
    From,
    /// The one of a number, which isn't made.
    NotMade,
    /// The one of a number, which is made.
    Made,
}

impl Fails {
    /// The same of this number.
    pub fn at(self, number: u64) -> FailingCalls {
        match self {
            Fails::None => FailingCalls::OneNotMade(0),
            Fails::From => FailingCalls::AllFrom(number),
            Fails::NotMade => FailingCalls::OneNotMade(number),
            Fails::Made => FailingCalls::OneMade(number),
        }
    }
}

/// A sector of a disk. It is zeros if the disk has no such sector, or can't read it.
pub fn sector_at<D: Sectors>(disk: &mut D, at: u64) -> [u8; SECTOR_BYTES] {
    let mut sector = [0; SECTOR_BYTES];
    if at < disk.count() {
        let _ = disk.read(at, &mut sector);
    }
    sector
}

/// Tells the numbers of the sectors that are not all zeros.
pub fn tell_used_sectors<D: Sectors>(disk: &mut D, answer: &mut Answer) {
    for at in 0..disk.count() {
        if !used_part(&sector_at(disk, at)).is_empty() {
            answer.add_number(at);
        }
    }
}

/// The disk that a crash leaves of one, by the choices that numbers make. Of none it leaves one without sectors.
pub fn crashed(
    alloc: Global,
    disk: Option<&MemoryDisk>,
    numbers: &[u64],
) -> Result<MemoryDisk, AllocError> {
    let choices = choices_of(alloc, numbers)?;
    match disk {
        Some(disk) => disk.crash(&choices),
        None => MemoryDisk::new(alloc, 0),
    }
}
