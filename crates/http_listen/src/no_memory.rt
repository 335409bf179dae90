//! The reply of a connection for whose request there is no memory.
ghost use Rattle.std.specs.Prelude.{◌≡◌, codes, true, false, Some};
ghost use Rattle.http_serve.specs.Reply.{reply_bytes, refused_by};
ghost use Rattle.http_listen.specs.NoMemory.{no_memory};

/// The reply for want of memory, which is the last one of its connection. It takes none.
pub(crate) fn memory_reply() -> &'static [u8]
    ensures spelled { result.now ≡ reply_bytes true false (refused_by 503 (codes "Memory\n")) }
    ensures same { result.now ≡ no_memory }
{
    b"HTTP/1.1 503 Service Unavailable\r\ncontent-type: text/plain\r\ncontent-length: 7\r\nconnection: close\r\n\r\nMemory\n"
}
