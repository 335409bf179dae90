//! Connections to a map.

use crate::confirming::confirm_connections;
use crate::fault::CommandFault;
use crate::listening::{Listening, serve_connections};
use crate::looks::Looks;
use map_replies::{ConfirmedReplies, MapReplies, PreparingReplies, serve_map};
use sector_disk::Sectors;
use std::time::{SystemTime, UNIX_EPOCH};

/// Where connections come from.
#[derive(Clone, Copy)]
pub(crate) enum Peers {
    /// One, from standard input and output.
    Streams,
    /// Several, from a port.
    Port(Listening),
}

/// A number that no earlier run of the program had: the nanoseconds since 1970. `None` if the clock can't be read.
pub(crate) fn run_number(rt: &HostRuntime) -> Option<u64> {
    let Ok(now) = SystemTime::now(rt) else {
        return None;
    };
    match now.duration_since(UNIX_EPOCH) {
        Ok(since) => u64::try_from(since.as_nanos()).ok(),
        Err(_) => None,
    }
}

/// Serves a connection from standard input and output.
fn serve_streams<D: Sectors + Drop>(
    rt: &HostRuntime,
    map: &mut MapReplies<D>,
    looks: &Looks<'_>,
) -> Result<(), CommandFault> {
    looks.begin();
    match serve_map(rt.alloc(), &mut rt.stdin(), &mut rt.stdout(), map) {
        Ok(_) => Ok(()),
        Err(fault) => Err(CommandFault::Connection(fault)),
    }
}

/// Serves a map whose edits are to be on two machines, over a disk file that is watched meanwhile, and closes its disk.
fn confirm<D: Sectors + Drop>(
    rt: &HostRuntime,
    map: PreparingReplies<D>,
    asked: Listening,
    looks: &Looks<'_>,
) -> Result<(), CommandFault> {
    let mut map = ConfirmedReplies::new(map);
    let served = confirm_connections(rt, asked, &mut map, looks);
    drop(map.into_replies().into_service().into_disk());
    served
}

/// Serves a map, over a disk file that is watched meanwhile, and closes its disk.
pub(crate) fn serve<D: Sectors + Drop>(
    rt: &HostRuntime,
    map: MapReplies<D>,
    peers: Peers,
    looks: &Looks<'_>,
) -> Result<(), CommandFault> {
    let mut map = PreparingReplies::new(map);
    let served = match peers {
        Peers::Streams => serve_streams(rt, map.replies_mut(), looks),
        Peers::Port(asked) if asked.needs_standby => return confirm(rt, map, asked, looks),
        Peers::Port(asked) => serve_connections(rt, asked, &mut map, looks),
    };
    drop(map.into_replies().into_service().into_disk());
    served
}
