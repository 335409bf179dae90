//! Why a request is refused.
use feature_model::EditFault;

/// Why a request is refused, other than by the service. Nothing is changed.
#[derive(Clone, Copy)]
pub(crate) enum RequestFault {
    /// The path isn't served, or nothing is stored there: no feature of that id, no archive.
    NotFound,
    /// The body isn't JSON.
    Json,
    /// An invalid feature, or an invalid batch.
    Edit(EditFault),
    /// The conditions of the request don't hold, or it would change something and no condition of it can hold.
    Condition,
    /// The map has another digest than the request names.
    Digest,
    /// Edits are asked for that the journal's ring doesn't have any more.
    Gone,
    /// An allocation failed.
    Memory,
    /// A call of the disk failed.
    Device,
    /// The disk gives something else than was written.
    Damaged,
}

impl From<EditFault> for RequestFault {
    ghost use Rattle.std.specs.Prelude.{◌≡◌};
    ghost use Rattle.map_replies.specs.Bodies.{told_as};

    ghost from_gives = { λ edit fault. fault ≡ told_as edit };

    fn from(fault: EditFault) -> RequestFault {
        match fault {
            EditFault::Memory => RequestFault::Memory,
            fault => RequestFault::Edit(fault),
        }
    }
}
