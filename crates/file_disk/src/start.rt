//! What a file is supposed to have as it is opened.
ghost use Rattle.std.specs.Prelude.{[]};
ghost use Rattle.sector_disk.specs.Disk.{History, all_zeros};
ghost use Rattle.sector_disk.specs.Disk.History.{begun};

/// What a file had as it was opened. No code can read it, and a function over `S: Start` is proved for all that it may be. Disks
/// of one `S` are supposed to have had the same, so each file is opened with a start of its own.
pub trait Start: Drop {
    /// The history that the file had. After a program was killed it may end in writes that no sync has settled: a read
    /// gives them, and a crash may still take them away.
    ghost found: { History };
}

/// For a program to name, over code that is proved for any `S: Start`. At this type itself the clauses on contents say
/// nothing of a file once one of its sectors was read.
#[derive(Drop)]
pub struct Unknown;

impl Start for Unknown {
    ghost found = { begun (λ _. []) };
}

/// Zeros in each sector, as in a file that was just made.
#[derive(Drop)]
pub struct Zeros;

impl Start for Zeros {
    ghost found = { begun all_zeros };
}
