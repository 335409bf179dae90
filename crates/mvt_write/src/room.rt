//! Room for lists that become long.

ghost use Rattle.std.specs.Prelude.{◌≡◌, ◌<◌};

/// A list of at least this many bytes is long.
const LONG_BYTES: usize = 1_048_576;

/// Memory for a long list is reserved for at least this many bytes, 65 MiB. glibc gives a block of more than 32 MiB pages of its own, if its heap
/// has no free block as large (at its end it has less than 64 MiB): as the list grows they are moved, not copied. A smaller one may be copied at each
/// growth. Pages that nothing was written to take no memory.
const RESERVED_BYTES: usize = 68_157_440;

/// Reserves memory for `RESERVED_BYTES` bytes if a list, of whose items each has `size` bytes, becomes long with `more` items. So it is copied while
/// it is short. A list doesn't need it: if memory is refused, nothing changes.
pub(crate) fn make_room<T>(list: &mut Vec<T>, size: usize, more: usize)
    requires { 0 < size }
    ensures { list.new.items ≡ list.old.items }
{
    let len = list.len();
    if len.saturating_add(more) < LONG_BYTES / size {
        return;
    }
    if RESERVED_BYTES / size <= list.capacity() {
        return;
    }
    let _ = list.reserve_exact((RESERVED_BYTES / size).saturating_sub(len));
}
