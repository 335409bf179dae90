//! Zigzag encoding: signed numbers as unsigned ones.

ghost use Rattle.std.specs.Prelude.{◌≡◌};
ghost use Rattle.pb_wire.specs.Zigzag.{zigzagged};

/// A signed number as an unsigned one, small if it is near 0: a number from 0 up becomes the even number 2v, one below 0
/// the odd number -2v - 1 (Protocol Buffers, "Encoding", "Signed Integers").
pub fn zigzag(v: i64) -> u64
    ensures { result ≡ zigzagged v }
{
    if v >= 0 {
        2 * (v as u64)
    } else {
        2 * (-(v + 1) as u64) + 1
    }
}

/// The number whose zigzag encoding is `n`.
pub fn unzigzag(n: u64) -> i64
    ensures { zigzagged result ≡ n }
{
    let half = (n / 2) as i64;
    if n % 2 == 0 { half } else { -half - 1 }
}
