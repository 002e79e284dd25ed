//! Numbers as other programs write them.

/// The number that these digits say, or the largest of all where it is larger; none where there are other bytes.
pub fn number_in(digits: &[u8]) -> Option<u64> {
    if digits.is_empty() {
        return None;
    }
    let mut number: u64 = 0;
    for byte in digits {
        match *byte {
            b'_' => {}
            b'0'..=b'9' => {
                number = number
                    .saturating_mul(10)
                    .saturating_add(u64::from(byte.saturating_sub(b'0')));
            }
            _ => return None,
        }
    }
    Some(number)
}
