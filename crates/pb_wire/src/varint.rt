//! Varints: numbers of seven bits a byte.

ghost use Rattle.std.specs.Prelude.{◌≡◌, ℕ, ◌+◌, ◌<◌, ◌≤◌, ◌↔◌, ◌++◌, List, length, take, IfOk, IsErrOf, OnOk, OnErr, vec_len, vec_capacity};
ghost use Rattle.pb_wire.specs.Varint.{varint, varint_at, IsVarint, IsCut, IsOverlong};
ghost use Rattle.pb_wire.specs.Fault.{with_offset};

use crate::fault::{FaultKind, WireFault};
use std::alloc::AllocError;

/// The length of the shortest encoding of `n` in bytes: from 1 to 10.
fn varint_len(n: u64) -> usize
    ensures { result ≡ length (varint n) }
{
    let mut len = 1usize;
    let mut rest = n;
    while rest > 127 {
        rest /= 128;
        len += 1;
    }
    len
}

/// Appends the shortest encoding of `n`: seven bits a byte, lowest first, the high bit set on each but the last
/// (Protocol Buffers, "Encoding", "Base 128 Varints"). An `Err` leaves `out` as it was, and is returned only if the
/// vector had to grow.
pub fn put_varint(out: &mut Vec<u8>, n: u64) -> Result<(), AllocError>
    ensures ok { OnOk result (out.new.items ≡ out.old.items ++ varint n) }
    ensures err { OnErr result (out.new.items ≡ out.old.items) }
    ensures full { OnErr result (vec_capacity out.old < vec_len out.old + length (varint n)) }
{
    // Most numbers take one byte, and most others two.
    if n < 128 {
        return put_byte(out, n as u8);
    }
    if n < 16_384 {
        return put_two(out, n as u16);
    }
    put_groups(out, n)
}

/// Appends a byte, as a number that it encodes.
fn put_byte(out: &mut Vec<u8>, byte: u8) -> Result<(), AllocError>
    requires { byte < 128 }
    ensures ok { OnOk result (out.new.items ≡ out.old.items ++ varint byte) }
    ensures err { OnErr result (out.new.items ≡ out.old.items) }
    ensures full { OnErr result (vec_capacity out.old < vec_len out.old + length (varint byte)) }
{
    out.reserve(1)?;
    out.push_reserved(byte);
    Ok(())
}

/// Appends a number that takes two bytes.
fn put_two(out: &mut Vec<u8>, n: u16) -> Result<(), AllocError>
    requires { (128 ≤ n) × (n < 16384) }
    ensures ok { OnOk result (out.new.items ≡ out.old.items ++ varint n) }
    ensures err { OnErr result (out.new.items ≡ out.old.items) }
    ensures full { OnErr result (vec_capacity out.old < vec_len out.old + length (varint n)) }
{
    out.reserve(2)?;
    out.push_reserved(128 + (n % 128) as u8);
    out.push_reserved((n / 128) as u8);
    Ok(())
}

/// The same as `put_varint`, byte by byte.
fn put_groups(out: &mut Vec<u8>, n: u64) -> Result<(), AllocError>
    ensures ok { OnOk result (out.new.items ≡ out.old.items ++ varint n) }
    ensures err { OnErr result (out.new.items ≡ out.old.items) }
    ensures full { OnErr result (vec_capacity out.old < vec_len out.old + length (varint n)) }
{
    out.reserve(varint_len(n))?;
    let mut rest = n;
    while rest >= 128 {
        out.push_reserved(128 + (rest % 128) as u8);
        rest /= 128;
    }
    out.push_reserved(rest as u8);
    Ok(())
}

/// The number at the start of the bytes, and its length in bytes: at most ten, and not always the shortest encoding.
/// More bytes may follow.
///
/// Returns `Cut` if the bytes end inside the number, and `Varint` if its tenth byte is above 1.
pub fn get_varint(bytes: &[u8]) -> Result<(u64, usize), WireFault>
    // What is returned is encoded there.
    ensures found { IfOk result (λ r. (r.1 ≤ length bytes.now) × IsVarint (take r.1 bytes.now) r.0) }
    // A number that is encoded there is returned, whatever follows it.
    ensures only { (front rest : List ℕ) (n : ℕ) → IsVarint front n → bytes.now ≡ front ++ rest → result ≡ Ok (n, length front) }
    ensures cut { IsErrOf result (record { at = 0; kind = FaultKind.Cut }) ↔ IsCut bytes.now }
    ensures overlong { IsErrOf result (record { at = 0; kind = FaultKind.Varint }) ↔ IsOverlong bytes.now }
    ensures exact { result ≡ with_offset 0 (varint_at bytes.now) }
{
    read(bytes).map_err(|kind| WireFault { at: 0, kind })
}

/// The number at the start of the bytes, and its length in bytes; a fault without an offset. Most numbers take one byte.
pub(crate) fn read(bytes: &[u8]) -> Result<(u64, usize), FaultKind>
    ensures within { IfOk result (λ r. (0 < r.1) × (r.1 ≤ length bytes.now)) }
    ensures exact { result ≡ varint_at bytes.now }
{
    match bytes.first() {
        Some(byte) if *byte < 128 => Ok((u64::from(*byte), 1)),
        _ => read_groups(bytes),
    }
}

/// The same as `read`, byte by byte.
fn read_groups(bytes: &[u8]) -> Result<(u64, usize), FaultKind>
    ensures within { IfOk result (λ r. (0 < r.1) × (r.1 ≤ length bytes.now)) }
    ensures exact { result ≡ varint_at bytes.now }
{
    let mut value = 0u64;
    for (i, byte) in bytes.iter().enumerate() {
        let byte = u64::from(*byte);
        if i == 9 && byte > 1 {
            return Err(FaultKind::Varint);
        }
        value += (byte % 128) << (7 * i);
        if byte < 128 {
            return Ok((value, i + 1));
        }
    }
    Err(FaultKind::Cut)
}
