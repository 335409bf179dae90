//! A disk, and what answers over it while it is open.
use super::lines::{Failing, Line, NONE, failing_in};
use generations::{FIRST_VERSION, StoreFault, format_version};
use map_replies::{ConfirmedReplies, MapReplies, PreparingReplies, Settings};
use map_server::{fresh_service, opened_service};
use script_bytes::Answer;
use script_disks::pair_in;
use sector_disk::{FailingCalls, FaultyDisk, MemoryDisk, SECTOR_BYTES, Sectors};
use std::alloc::{AllocError, Global};
use std::mem;
use tile_routes::Access;
use tile_service::Service;

/// A disk of which calls may fail.
type Disk = FaultyDisk<MemoryDisk>;

/// What answers.
pub(crate) type Map = PreparingReplies<Disk>;

/// What answers where edits need a standby.
pub(crate) type NeedingMap = ConfirmedReplies<Disk>;

/// A disk, or what answers over it. It ends by `end` alone.
pub(crate) enum Stand {
    Closed(MemoryDisk),
    Open(Map),
    Needing(NeedingMap),
}

/// How a disk is opened.
#[derive(Clone, Copy)]
struct Way {
    settings: Settings,
    needs_standby: bool,
}

/// The disk below.
fn disk_of(replies: MapReplies<Disk>) -> MemoryDisk {
    replies.into_service().into_disk().into_disk()
}

/// What answers over these replies.
fn opened(replies: MapReplies<Disk>, needs_standby: bool) -> Stand {
    let map = PreparingReplies::new(replies);
    if needs_standby {
        Stand::Needing(ConfirmedReplies::new(map))
    } else {
        Stand::Open(map)
    }
}

impl Stand {
    /// Lets the disk go, and what answers over it.
    pub(crate) fn end(self) {
        drop(match self {
            Stand::Closed(disk) => disk,
            Stand::Open(map) => disk_of(map.into_replies()),
            Stand::Needing(map) => disk_of(map.into_replies()),
        });
    }
}

/// Takes the disk out.
fn taken(alloc: Global, stand: &mut Stand) -> Result<MemoryDisk, AllocError> {
    let empty = Stand::Closed(MemoryDisk::new(alloc, 1)?);
    match mem::replace(stand, empty) {
        Stand::Closed(disk) => Ok(disk),
        Stand::Open(map) => Ok(disk_of(map.into_replies())),
        Stand::Needing(map) => Ok(disk_of(map.into_replies())),
    }
}

/// How many calls of a disk its opening makes, and the disk.
fn counted(alloc: Global, disk: MemoryDisk) -> (u64, MemoryDisk) {
    match Service::open(alloc, FaultyDisk::new(disk, FailingCalls::OneNotMade(0))) {
        Ok(service) => {
            let disk = service.into_disk();
            (disk.calls(), disk.into_disk())
        }
        Err((disk, _)) => (0, disk.into_disk()),
    }
}

/// Puts another stand in the place of one, which ends.
fn replace(stand: &mut Stand, next: Stand) {
    mem::replace(stand, next).end();
}

/// Opens this disk in the place of what was there in this way, so that these calls after its opening fail.
fn open(
    alloc: Global,
    stand: &mut Stand,
    disk: MemoryDisk,
    way: Way,
    failing: Failing,
    answer: &mut Answer,
) {
    let (calls, disk) = counted(alloc, disk);
    match opened_service(
        alloc,
        FaultyDisk::new(disk, failing.behind(calls)),
        way.settings,
    ) {
        Ok(map) => {
            replace(stand, opened(map, way.needs_standby));
            answer.say("open");
        }
        Err((disk, fault)) => match disk {
            Some(disk) => {
                replace(stand, Stand::Closed(disk.into_disk()));
                answer.show(&fault);
            }
            // (it is lost only where memory ran out)
            None => answer.refuse(),
        },
    }
}

/// Opens the disk in this way, so that these calls after its opening fail.
fn open_again(alloc: Global, stand: &mut Stand, way: Way, failing: &str, answer: &mut Answer) {
    let Some(failing) = failing_in(failing) else {
        return answer.reject();
    };
    if let Some(disk) = answer.granted(taken(alloc, stand)) {
        open(alloc, stand, disk, way, failing, answer);
    }
}

/// Puts a disk of zeros in the place of what was there.
fn clear(alloc: Global, stand: &mut Stand, sectors: u64, answer: &mut Answer) {
    if let Some(disk) = answer.granted(MemoryDisk::new(alloc, sectors)) {
        replace(stand, Stand::Closed(disk));
    }
}

/// A disk of zeros.
fn zeros(alloc: Global, stand: &mut Stand, sectors: u64, answer: &mut Answer) {
    clear(alloc, stand, sectors, answer);
    answer.say("closed");
}

/// A disk of this size in sectors that holds the empty map.
fn fresh_disk(alloc: Global, sectors: u64) -> Result<MemoryDisk, StoreFault> {
    let settings = Settings {
        access: Access::Map,
        tags: None,
    };
    match fresh_service(alloc, sectors, settings) {
        Ok(map) => Ok(map.into_service().into_disk()),
        Err(fault) => Err(fault),
    }
}

/// Makes a disk of this size in sectors that holds the empty map, and opens it.
fn begin(alloc: Global, stand: &mut Stand, sectors: u64, way: Way, answer: &mut Answer) {
    clear(alloc, stand, 1, answer);
    match fresh_disk(alloc, sectors) {
        Ok(disk) => open(alloc, stand, disk, way, NONE, answer),
        Err(fault) => answer.show(&fault),
    }
}

/// Makes a disk of this size in sectors that holds the empty map in the first version of the format, and opens it.
fn begin_first(alloc: Global, stand: &mut Stand, sectors: u64, way: Way, answer: &mut Answer) {
    if let Some(mut disk) = answer.granted(MemoryDisk::new(alloc, sectors)) {
        match format_version(&mut disk, FIRST_VERSION) {
            Ok(()) => open(alloc, stand, disk, way, NONE, answer),
            Err(fault) => answer.show(&fault),
        }
    }
}

/// Closes the disk, and upgrades it.
fn upgrade(alloc: Global, stand: &mut Stand, answer: &mut Answer) {
    if let Some(mut disk) = answer.granted(taken(alloc, stand)) {
        match Service::upgrade(&mut disk) {
            Ok(()) => answer.say("upgraded"),
            Err(fault) => answer.show(&fault),
        }
        replace(stand, Stand::Closed(disk));
    }
}

/// Writes a sector of zeros after this byte, if the disk has it.
fn write(disk: &mut MemoryDisk, at: u64, first: u8) -> bool {
    let mut sector = [0; SECTOR_BYTES];
    sector[0] = first;
    at < disk.count() && disk.write(at, &sector).is_ok()
}

/// Closes the disk, and writes a sector of zeros after a byte, as a text says.
fn overwrite(alloc: Global, stand: &mut Stand, text: &str, answer: &mut Answer) {
    let Some((at, first)) = pair_in::<u64, u8>(text, ' ') else {
        return answer.reject();
    };
    if let Some(mut disk) = answer.granted(taken(alloc, stand)) {
        let is_written = write(&mut disk, at, first);
        replace(stand, Stand::Closed(disk));
        answer.say(if is_written { "closed" } else { "not written" });
    }
}

/// What is asked of a stand.
#[derive(Clone, Copy)]
pub(crate) enum OfStand {
    Begin,
    First,
    Zeros,
    Upgrade,
    Sector,
    Again,
    Admin,
    Standby,
}

/// Does what a line about the disk asks for. What is opened has entity tags, if there is a number that those of tiles begin with.
pub(crate) fn run(
    alloc: Global,
    stand: &mut Stand,
    tags: Option<u64>,
    asks: OfStand,
    line: Line<'_>,
    answer: &mut Answer,
) {
    let access = match asks {
        OfStand::Admin | OfStand::Standby => Access::Admin,
        _ => Access::Map,
    };
    let way = Way {
        settings: Settings { access, tags },
        needs_standby: matches!(asks, OfStand::Standby),
    };
    match asks {
        OfStand::Begin => begin(alloc, stand, line.number, way, answer),
        OfStand::First => begin_first(alloc, stand, line.number, way, answer),
        OfStand::Zeros => zeros(alloc, stand, line.number, answer),
        OfStand::Upgrade => upgrade(alloc, stand, answer),
        OfStand::Sector => overwrite(alloc, stand, line.rest, answer),
        OfStand::Again | OfStand::Admin | OfStand::Standby => {
            open_again(alloc, stand, way, line.rest, answer)
        }
    }
}
