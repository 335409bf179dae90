//! The memory of a connection.
ghost use Rattle.std.specs.Prelude.{◌≡◌, ◌≤◌, ◌<◌, ◌+◌, ◌++◌, ℕ, List, [], IsTrue, IsOk, OnOk, OnErr, IfOk, false, length, vec_len};
ghost use Rattle.std.specs.Io.KnownBytes.{Consumes, IsAtEnd};
ghost use Rattle.http_serve.specs.Buffers.{buffer_size};
ghost use Rattle.http_requests.specs.declared.frames.TheConstants.{MAX_REQUEST};

use crate::connection::{Connection, READ_SPACE};
use http_requests::ReadFault;
use std::alloc::{AllocError, Global};
use std::io::Read;
use std::marker::Model;

/// A connection whose memory is reserved, and the buffer for a read or a part of a content.
#[derive(Drop)]
pub(crate) struct Session {
    pub(crate) connection: Connection,
    pub(crate) piece: Vec<u8>,
    ghost reserved: { IsTrue connection.reserved },
    ghost space: { vec_len piece ≡ buffer_size },
}

/// Makes one read and adds its bytes to the input of a connection, of which as many bytes wait then at most as the buffer has.
fn read_more<R: Read>(
    reader: &mut R,
    buffer: &mut Vec<u8>,
    connection: &mut Connection,
) -> Result<usize, ReadFault>
    requires space { vec_len buffer.old ≡ buffer_size }
    requires reserved { IsTrue connection.old.reserved }
    requires few { length connection.old.input < MAX_REQUEST }
    ensures ok { IfOk result (λ n. (more : List ℕ) × Consumes (R.remaining reader.old) (R.remaining reader.new) more
        × (connection.new.input ≡ connection.old.input ++ more) × (n ≡ length more) × (n ≡ 0 → IsAtEnd (R.remaining reader.new))) }
    ensures few { IfOk result (λ n. n ≤ buffer_size) }
    ensures err { OnErr result (Consumes (R.remaining reader.old) (R.remaining reader.new) []
        × (connection.new.input ≡ connection.old.input)) }
    ensures output { connection.new.output ≡ connection.old.output }
    ensures reserved { connection.new.reserved ≡ connection.old.reserved }
    ensures len { vec_len buffer.new ≡ vec_len buffer.old }
{
    let space = READ_SPACE - connection.input_len();
    connection.read_from(reader, &mut buffer[..space])
}

impl Session {
    /// The memory of a connection on which nothing was read.
    pub(crate) fn new(alloc: Global) -> Result<Self, AllocError> {
        let connection = Connection::reserved(alloc)?;
        let mut piece = Vec::with_capacity(alloc, READ_SPACE)?;
        piece.resize(READ_SPACE, 0)?;
        Ok(Session { connection, piece })
    }

    /// Begins a connection: nothing of an earlier one is left.
    pub(crate) fn begin(&mut self)
        ensures input { self.new.connection.input ≡ [] }
        ensures output { self.new.connection.output ≡ [] }
    {
        self.connection.clear_input();
        self.connection.clear_output();
    }

    /// Makes one read and adds its bytes to the input, of which `READ_SPACE` bytes wait then at most. Returns how many were read: 0 only at the
    /// end of the input.
    ///
    /// # Errors
    ///
    /// The read failed. The waiting bytes are the same then.
    pub(crate) fn read_from<R: Read>(&mut self, reader: &mut R) -> Result<usize, ReadFault>
        requires { length self.old.connection.input < MAX_REQUEST }
        ensures ok { IfOk result (λ n. (more : List ℕ) × Consumes (R.remaining reader.old) (R.remaining reader.new) more
            × (self.new.connection.input ≡ self.old.connection.input ++ more) × (n ≡ length more) × (n ≡ 0 → IsAtEnd (R.remaining reader.new))) }
        ensures few { IfOk result (λ n. n ≤ buffer_size) }
        ensures err { OnErr result (Consumes (R.remaining reader.old) (R.remaining reader.new) []
            × (self.new.connection.input ≡ self.old.connection.input)) }
        ensures output { self.new.connection.output ≡ self.old.connection.output }
    {
        read_more(reader, &mut self.piece, &mut self.connection)
    }
}

/// The memory of connections that are served one after the other. The first one allocates it, and it is kept for the next.
#[derive(Drop)]
pub struct Buffers {
    alloc: Global,
    pub(crate) session: Option<Session>,
}

impl Model for Buffers {
    ghost use Rattle.std.specs.Prelude.{is_some};
    ghost use Rattle.http_serve.specs.Buffers.{BuffersView};

    ghost Value = { BuffersView };

    ghost view = { λ b. record { allocated = is_some b.session } };
}

impl Buffers {
    /// Nothing is allocated yet.
    pub fn new(alloc: Global) -> Self
        ensures { result.allocated ≡ false }
    {
        Buffers {
            alloc,
            session: None,
        }
    }

    /// Allocates the memory of a connection, unless it is kept.
    pub(crate) fn allocate(&mut self) -> Result<(), AllocError>
        ensures kept { IsTrue self.old.allocated → IsOk result }
        ensures ok { OnOk result (IsTrue self.new.allocated) }
    {
        if self.session.is_some() {
            return Ok(());
        }
        self.session = Some(Session::new(self.alloc)?);
        Ok(())
    }
}
