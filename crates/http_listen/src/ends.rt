//! Why a connection ends at a fault.
ghost use Rattle.std.specs.Prelude.{◌≡◌};
ghost use Rattle.http_listen.specs.Rests.{cut_by};

use http_serve::RestFault;

/// Why a connection ended before all its replies were sent, with the number of requests of its last stretch that got a whole reply. The log
/// has a word for each.
#[derive(Clone, Copy)]
pub enum EndFault {
    /// There was no memory for its request, or all connections held too much.
    Memory,
    /// A read failed, or its peer was too slow to send a request.
    Read { requests: u64 },
    /// A write failed, or its peer was too slow to take a reply.
    Write { requests: u64 },
    /// The source of a content failed.
    Device { requests: u64 },
    /// A content wasn't there any more.
    Gone { requests: u64 },
    /// A reply waited too long for what it needs to be sent.
    Unconfirmed { requests: u64 },
}

impl EndFault {
    /// What a connection comes to if a part of a rest can't be read.
    pub(crate) fn cut_by(cause: RestFault) -> EndFault
        ensures { result ≡ cut_by cause }
    {
        match cause {
            RestFault::Failed => EndFault::Device { requests: 0 },
            RestFault::Gone => EndFault::Gone { requests: 0 },
        }
    }
}
