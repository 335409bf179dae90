//! A map opened on a disk: for every disk, and for all that it may have had.
ghost use Rattle.std.specs.Prelude.{◌≡◌, ◌⊎◌, ℕ, IfErr, IfOk, IfSome, None};
ghost use Rattle.sector_disk.specs.Asked.{MayWrite};
ghost use Rattle.sector_disk.specs.Disk.{seen};
ghost use Rattle.sector_disk.specs.Disk.History.{synced};
ghost use Rattle.generations.specs.declared.fault.StoreFault.TheVariants.{Device, Memory};
ghost use Rattle.generations.specs.Faults.{CountsDevice};
ghost use Rattle.map_replies.specs.State.{asked_service, settings_of};
ghost use Rattle.tile_service.specs.Opening.{IsOpenFault};
ghost use Rattle.tile_service.specs.Service.{IsUp};
ghost use Rattle.tile_service.specs.Stored.{Stored, Holds};

use generations::StoreFault;
use map_replies::{MapReplies, Settings};
use sector_disk::Sectors;
use std::alloc::{AllocError, Global};
use tile_routes::Routes;
use tile_service::Service;

/// A service that continues from what a disk holds, served with these settings; opening writes nothing. A disk that can't be opened is
/// returned.
pub fn opened_service<D: Sectors + Drop>(
    alloc: Global,
    disk: D,
    settings: Settings,
) -> Result<MapReplies<D>, (Option<D>, StoreFault)>
    ensures settings { IfOk result (λ replies. settings_of replies ≡ settings) }
    ensures disk { IfOk result (λ replies. MayWrite D.sectors D.honest disk (asked_service replies).disk) }
    ensures history { IfOk result (λ replies. D.honest (asked_service replies).disk → D.history (asked_service replies).disk ≡ synced (D.history disk)) }
    // A disk is lost only where memory is missing, and `Device` tells of a call of the disk that failed.
    ensures gone { IfErr result (λ e. e.0 ≡ None → e.1 ≡ Memory) }
    ensures failed { IfErr result (λ e. IfSome e.0 (λ left. CountsDevice e.1 (D.faults disk) (D.faults left))) }
    ensures fault { IfErr result (λ e. IfSome e.0 D.honest
        → (e.1 ≡ Device) ⊎ (e.1 ≡ Memory) ⊎ IsOpenFault (D.sectors disk) (seen (D.history disk)) e.1) }

    // The service continues from the state that the disk holds, and only a call of the disk or an allocation can fail.
    ensures opened { (n : ℕ) (stored : Stored) → Holds (D.sectors disk) n stored (seen (D.history disk))
        → IfOk result (λ replies. D.honest (asked_service replies).disk → ((asked_service replies).size ≡ n)
        × IsUp (D.sectors disk) (D.history (asked_service replies).disk) stored (asked_service replies)) }
    ensures refused { (n : ℕ) (stored : Stored) → Holds (D.sectors disk) n stored (seen (D.history disk))
        → IfErr result (λ e. IfSome e.0 D.honest → (e.1 ≡ Device) ⊎ (e.1 ≡ Memory)) }
{
    let service = match Service::open(alloc, disk) {
        Ok(service) => service,
        Err((disk, fault)) => return Err((Some(disk), fault)),
    };
    let routes = match Routes::new(alloc) {
        Ok(routes) => routes,
        Err(AllocError) => return Err((None, StoreFault::Memory)),
    };
    let replies = MapReplies::new(alloc, routes, settings, service);
    Ok(replies)
}
