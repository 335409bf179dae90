//! Bytes as text.
use std::alloc::{AllocError, Global};

/// From this many equal bytes on, a byte is written once, with its count.
const COUNTED: usize = 5;

/// The longest spelling that is printed in full.
const LONGEST: usize = 120;

/// Appends a byte that occurs `count` times in a row.
fn push_run(text: &mut String, byte: u8, count: usize) -> Result<(), AllocError> {
    if count < COUNTED {
        for _ in 0..count {
            write!(text, "{byte:02x}")?;
        }
        return Ok(());
    }
    if !text.is_empty() && !text.ends_with(' ') {
        text.push(' ')?;
    }
    write!(text, "{byte:02x}*{count} ")
}

/// Bytes in hexadecimal, as `add_bytes` reads them: a run of five equal bytes or more is written once, with its count.
pub fn spelled(alloc: Global, bytes: &[u8]) -> Result<String, AllocError> {
    let mut text = String::new(alloc);
    let mut last = 0;
    let mut count = 0_usize;
    for byte in bytes {
        if *byte != last {
            push_run(&mut text, last, count)?;
            last = *byte;
            count = 0;
        }
        count = count.saturating_add(1);
    }
    push_run(&mut text, last, count)?;
    String::from_str(alloc, text.as_str().trim_end())
}

/// The 64-bit FNV-1a hash of bytes.
pub fn digest(bytes: &[u8]) -> u64 {
    let mut hash = 0xcbf2_9ce4_8422_2325_u64;
    for byte in bytes {
        hash = (hash ^ u64::from(*byte)).wrapping_mul(0x100_0000_01b3);
    }
    hash
}

/// The spelling of bytes, or their count and hash if it is long.
pub fn spelled_briefly(alloc: Global, bytes: &[u8]) -> Result<String, AllocError> {
    let text = spelled(alloc, bytes)?;
    if text.len() <= LONGEST {
        return Ok(text);
    }
    let hash = digest(bytes);
    let count = bytes.len();
    format!(in alloc; "{count} bytes {hash:016x}")
}
