//! Sectors and the bytes that they begin with.

/// A sector that begins with these bytes, padded with zeros. `None` if a sector has no room for them.
pub fn sector_of(bytes: &[u8]) -> Option<[u8; 512]> {
    if bytes.len() > 512 {
        return None;
    }
    let mut sector = [0; 512];
    sector[..bytes.len()].copy_from_slice(bytes);
    Some(sector)
}

/// The bytes of a sector up to the last nonzero one.
pub fn used_part(sector: &[u8; 512]) -> &[u8] {
    match sector.iter().rposition(|byte| *byte != 0) {
        Some(last) => &sector[..=last],
        None => &[],
    }
}
