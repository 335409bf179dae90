//! The memory of long lists that are of no use any more. It is given back by parts, since the kernel takes time for each page.
use crate::content::AreaContent;

/// How many bytes a call gives back: 512 pages of 4 KiB.
const SHRINK_BYTES: usize = 2_097_152;

/// Two long lists of bytes that are of no use any more. Nobody reads them.
#[derive(Drop)]
pub struct SpentContent {
    first: Vec<u8>,
    second: Vec<u8>,
}

/// Gives back the last `SHRINK_BYTES` bytes of a list, or all if it is shorter.
fn shrink(bytes: &mut Vec<u8>) {
    bytes.truncate(bytes.len().saturating_sub(SHRINK_BYTES));
    bytes.shrink_to_fit();
}

impl SpentContent {
    /// Of these two lists.
    pub(crate) fn of(first: Vec<u8>, second: Vec<u8>) -> SpentContent {
        SpentContent { first, second }
    }

    /// Gives back `SHRINK_BYTES` bytes of the longer list, or all that is left if neither has more. It doesn't allocate.
    pub fn shrunk(self) -> Option<SpentContent> {
        let mut left = self;
        if left.first.len().max(left.second.len()) <= SHRINK_BYTES {
            return None;
        }
        if left.first.len() > left.second.len() {
            shrink(&mut left.first);
        } else {
            shrink(&mut left.second);
        }
        Some(left)
    }
}

/// Puts two lists in `spent` in place of what is left there, unless both are so short that they are given back at once. What is left then is of an
/// earlier tile, and was made shorter at each step since.
pub(crate) fn spend(spent: &mut Option<SpentContent>, first: Vec<u8>, second: Vec<u8>) {
    if let Some(left) = SpentContent::of(first, second).shrunk() {
        *spent = Some(left);
    }
}
