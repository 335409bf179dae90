//! Command integers.

ghost use Rattle.std.specs.Prelude.{◌≡◌, ◌<◌, ◌^◌};
ghost use Rattle.geometry_commands.specs.Commands.{command};
ghost use Rattle.geometry_commands.specs.Identifiers.{id_number};

/// What a command does: moves the cursor, draws a line to a point, or closes a ring.
#[derive(Clone, Copy)]
pub(crate) enum CommandId {
    MoveTo = 1,
    LineTo = 2,
    ClosePath = 7,
}

impl CommandId {
    /// The low three bits of the command's integers.
    pub(crate) fn number(self) -> u32
        ensures number { result ≡ id_number self }
        ensures low { result < 8 }
    {
        self as u32
    }

    /// The integer of this command, executed `count` times.
    pub(crate) fn times(self, count: u32) -> u32
        requires { count < 2 ^ 29 }
        ensures { result ≡ command (id_number self) count }
    {
        self.number() + 8 * count
    }
}
