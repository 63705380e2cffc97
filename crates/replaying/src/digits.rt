// Numbers of a stream's words.

// Small letters alone.
fn hexadecimal_digit(byte: u8) -> Option<u64> {
    match byte {
        b'0'..=b'9' => Some(u64::from(byte - b'0')),
        b'a'..=b'f' => Some(u64::from(byte - b'a' + 10)),
        _ => None,
    }
}

// The number that decimal digits write, if there are any and it is not too large. The library's `parse` takes a plus too.
pub(crate) fn decimal(text: &[u8]) -> Option<u32> {
    if text.is_empty() {
        return None;
    }
    text.iter().try_fold(0, |n: u32, byte| {
        let digit = char::from(*byte).to_digit(10)?;
        n.checked_mul(10)?.checked_add(digit)
    })
}

// The number that so many hexadecimal digits write.
pub(crate) fn hexadecimal(text: &[u8], count: usize) -> Option<u64> {
    if text.len() != count {
        return None;
    }
    text.iter()
        .try_fold(0, |n: u64, byte| Some(n << 4 | hexadecimal_digit(*byte)?))
}
