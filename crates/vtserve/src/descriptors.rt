//! How many connections the process has descriptors for.
ghost use Rattle.std.specs.Prelude.{◌≡◌, ◌-◌, max, min};

use http_listen::MAX_OPEN;
use libc::types::rlimit;
use libc::{RLIMIT_NOFILE, getrlimit};

/// How many descriptors are left for everything else: the standard streams, the disk file, the listener and what is opened for a moment.
const RESERVE: u64 = 16;

/// How many connections may be open within a limit of descriptors: at least one.
fn connections_within(descriptors: u64) -> usize
    ensures { result ≡ max 1 (min (descriptors - 16) 16384) }
{
    let left = descriptors.saturating_sub(RESERVE);
    left.min(MAX_OPEN as u64).max(1) as usize
}

/// How many connections may be open within the soft limit on the descriptors of this process, or `MAX_OPEN` if the system doesn't tell it.
pub(crate) fn max_connections() -> usize {
    let mut limit = rlimit {
        rlim_cur: 0,
        rlim_max: 0,
    };
    if getrlimit(RLIMIT_NOFILE, &mut limit) != 0 {
        return MAX_OPEN;
    }
    connections_within(limit.rlim_cur)
}
