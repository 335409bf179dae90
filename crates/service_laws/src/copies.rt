//! The laws of copies: what they hold.
ghost use Rattle.std.specs.Prelude.{◌≤◌, ℕ};
ghost use Rattle.sector_disk.specs.Disk.{History, Image};
ghost use Rattle.disk_copy.specs.Copies.{IsCopied};
ghost use Rattle.disk_copy.specs.Shared.{IsOfOneMoment};
ghost use Rattle.tile_service.specs.Stored.{Stored, Holds};
ghost use Rattle.service_laws.specs.CopyHeld.{HoldsCopy, HoldsOneOf};

/// What `disk_copy::copy_disk` says of a copy is enough for it to hold what the disk held: every image that a crash leaves of it holds that
/// state, and the number that was returned is that of the state's last edit.
pub fn copies_hold()
    ensures { (sectors size n last : ℕ) (stored : Stored) (source : Image) (copy : History) → n ≤ size
        → Holds sectors n stored source → IsCopied sectors source last copy → HoldsCopy size n stored last copy }
{}

/// A copy of a disk that is edited and published meanwhile holds the state of one of the moments since it was opened.
pub fn copies_hold_one_moment()
    ensures { (sectors size n from to last : ℕ) (states : ℕ → Stored) (images : ℕ → Image) (copy : History) → n ≤ size
        → ((moment : ℕ) → from ≤ moment → moment ≤ to → Holds sectors n (states moment) (images moment)) → IsOfOneMoment sectors images from to last copy
        → HoldsOneOf size n states from to last copy }
{}
