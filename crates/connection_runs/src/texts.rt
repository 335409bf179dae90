//! Bytes as the texts of a script, both ways.
use script_bytes::{Answer, digest};

/// A reply with more bytes than these is told by its front, its length and a hash.
const MAX_TOLD: usize = 2_000;

/// So many bytes of a longer reply are told.
const FRONT: usize = 300;

/// What the next byte of a text is a part of.
#[derive(Clone, Copy)]
enum Spelling {
    /// Nothing that was begun.
    Plain,
    /// What follows a backslash.
    Escape,
    /// The first digit of a byte.
    High,
    /// The second one, after the first.
    Low(u8),
    /// What spells no bytes.
    Fault,
}

/// The number of a digit in base 16.
fn digit_of(byte: u8) -> Option<u8> {
    match byte {
        b'0'..=b'9' => Some(byte - b'0'),
        b'a'..=b'f' => Some(byte - b'a' + 10),
        _ => None,
    }
}

/// Adds a byte, and begins anew.
fn add(bytes: &mut Vec<u8>, byte: u8, answer: &mut Answer) -> Spelling {
    answer.note(bytes.push(byte));
    Spelling::Plain
}

/// Goes on with a byte of a text.
fn spell(bytes: &mut Vec<u8>, spelling: Spelling, byte: u8, answer: &mut Answer) -> Spelling {
    match (spelling, byte, digit_of(byte)) {
        (Spelling::Plain, b'\\', _) => Spelling::Escape,
        (Spelling::Plain, _, _) => add(bytes, byte, answer),
        (Spelling::Escape, b'r', _) => add(bytes, b'\r', answer),
        (Spelling::Escape, b'n', _) => add(bytes, b'\n', answer),
        (Spelling::Escape, b't', _) => add(bytes, b'\t', answer),
        (Spelling::Escape, b'x', _) => Spelling::High,
        (Spelling::High, _, Some(high)) => Spelling::Low(high),
        (Spelling::Low(high), _, Some(low)) => {
            add(bytes, high.wrapping_mul(16).wrapping_add(low), answer)
        }
        _ => Spelling::Fault,
    }
}

/// Adds the bytes of a text without repetitions, and says whether it spells some.
fn add_plain(bytes: &mut Vec<u8>, text: &str, answer: &mut Answer) -> bool {
    let mut spelling = Spelling::Plain;
    for byte in text.as_bytes() {
        spelling = spell(bytes, spelling, *byte, answer);
    }
    matches!(spelling, Spelling::Plain)
}

/// Adds what follows the beginning of a repetition: `COUNT(TEXT)`, and a text without repetitions.
fn add_repetition(bytes: &mut Vec<u8>, text: &str, answer: &mut Answer) -> bool {
    let Some((count, behind)) = text.split_once('(') else {
        return false;
    };
    let (Ok(count), Some((repeated, rest))) = (count.parse::<u32>(), behind.split_once(')')) else {
        return false;
    };
    let mut spelled = true;
    for _ in 0..count {
        spelled = spelled && add_plain(bytes, repeated, answer);
    }
    spelled && add_plain(bytes, rest, answer)
}

/// Adds the bytes that a text spells, and says whether it spells some: `\r`, `\n` and `\t`, `\x` with two digits in base 16, `\*COUNT(TEXT)` for a text
/// that is there so often, and else the character itself.
pub(crate) fn add_bytes(bytes: &mut Vec<u8>, text: &str, answer: &mut Answer) -> bool {
    let mut parts = text.split("\\*");
    let mut spelled = add_plain(bytes, parts.next().unwrap_or(""), answer);
    for part in parts {
        spelled = spelled && add_repetition(bytes, part, answer);
    }
    spelled
}

/// Tells a byte.
fn tell_byte(byte: u8, answer: &mut Answer) {
    match byte {
        b'\r' => answer.say("\\r"),
        b'\n' => answer.say("\\n"),
        b'\t' => answer.say("\\t"),
        b'\\' => answer.say("\\x5c"),
        b' '..=b'~' => answer.push(char::from(byte)),
        _ => write!(answer, "\\x{byte:02x}"),
    }
}

/// Tells bytes. Of many it tells the first ones, and then how many there are and their hash.
pub(crate) fn tell_bytes(bytes: &[u8], answer: &mut Answer) {
    let many = bytes.len() > MAX_TOLD;
    let told = if many { FRONT } else { MAX_TOLD };
    for byte in bytes.iter().take(told) {
        tell_byte(*byte, answer);
    }
    if many {
        write!(answer, " .. {} bytes, {:016x}", bytes.len(), digest(bytes));
    }
}
