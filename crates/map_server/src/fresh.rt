//! The empty map on a disk in memory.
ghost use Rattle.std.specs.Prelude.{◌≡◌, ◌<◌, ◌⊎◌, Err, IfErr, IfOk};
ghost use Rattle.sector_disk.specs.Views.{memory_history, memory_sectors};
ghost use Rattle.generations.specs.Areas.{IsSize};
ghost use Rattle.generations.specs.declared.fault.StoreFault.TheVariants.{TooSmall, Damaged, Device, Memory};
ghost use Rattle.generations.specs.declared.fault.What.TheVariants.{Size};
ghost use Rattle.generations.specs.declared.sizes.TheConstants.{MIN_SECTORS, MAX_SECTORS};
ghost use Rattle.map_replies.specs.State.{asked_service, settings_of};
ghost use Rattle.tile_service.specs.Service.{IsUp};
ghost use Rattle.tile_service.specs.Stored.{Keeps, first_state};

use crate::opening::opened_service;
use generations::StoreFault;
use map_replies::{MapReplies, Settings};
use sector_disk::MemoryDisk;
use std::alloc::{AllocError, Global};
use tile_service::Service;

/// A disk in memory that holds the empty map.
fn fresh_disk(alloc: Global, sectors: u64) -> Result<MemoryDisk, StoreFault>
    ensures small { sectors < MIN_SECTORS → result ≡ Err TooSmall }
    ensures large { MAX_SECTORS < sectors → result ≡ Err (Damaged Size) }
    ensures only { IsSize sectors → IfErr result (λ fault. fault ≡ Device) }
    ensures count { IfOk result (λ disk. memory_sectors disk ≡ sectors) }
    ensures holds { IfOk result (λ disk. Keeps sectors sectors first_state (memory_history disk)) }
{
    let mut disk = match MemoryDisk::new(alloc, sectors) {
        Ok(disk) => disk,
        Err(AllocError) => return Err(StoreFault::Memory),
    };
    match Service::format(&mut disk) {
        Ok(()) => Ok(disk),
        Err(fault) => Err(fault),
    }
}

/// A service over the empty map on a disk in memory, served with these settings.
pub fn fresh_service(
    alloc: Global,
    sectors: u64,
    settings: Settings,
) -> Result<MapReplies<MemoryDisk>, StoreFault>
    ensures small { sectors < MIN_SECTORS → result ≡ Err TooSmall }
    ensures large { MAX_SECTORS < sectors → result ≡ Err (Damaged Size) }
    ensures only { IsSize sectors → IfErr result (λ fault. (fault ≡ Device) ⊎ (fault ≡ Memory)) }
    ensures settings { IfOk result (λ replies. settings_of replies ≡ settings) }
    ensures ready { IfOk result (λ replies. IsUp sectors (memory_history (asked_service replies).disk) first_state (asked_service replies)) }
{
    let disk = match fresh_disk(alloc, sectors) {
        Ok(disk) => disk,
        Err(fault) => return Err(fault),
    };
    match opened_service(alloc, disk, settings) {
        Ok(service) => Ok(service),
        Err((_, fault)) => Err(fault),
    }
}
