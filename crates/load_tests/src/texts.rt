//! What is read of a printed text.

/// Whether a text has these octets at a place.
fn has_at(text: &[u8], at: usize, word: &[u8]) -> bool {
    match text.get(at..) {
        Some(left) => left.starts_with(word),
        None => false,
    }
}

/// The number whose digits stand at a place.
fn number_at(text: &[u8], at: usize) -> u64 {
    let mut number = 0u64;
    let Some(left) = text.get(at..) else {
        return 0;
    };
    for octet in left {
        if !octet.is_ascii_digit() {
            return number;
        }
        let digit = octet.saturating_sub(b'0') as u64;
        number = number.saturating_mul(10).saturating_add(digit);
    }
    number
}

/// The number behind the first of these words in a text, or none.
pub(crate) fn number_behind(text: &[u8], word: &[u8]) -> Option<u64> {
    for at in 0..text.len() {
        if has_at(text, at, word) {
            return Some(number_at(text, at.saturating_add(word.len())));
        }
    }
    None
}

/// What stands behind the first of these words in a text.
fn behind<'a>(text: &'a [u8], word: &[u8]) -> &'a [u8] {
    for at in 0..text.len() {
        if has_at(text, at, word) {
            return match text.get(at.saturating_add(word.len())..) {
                Some(left) => left,
                None => &[],
            };
        }
    }
    &[]
}

/// The fronts of the two answers, where each has as many lines as its front has rows, and the first stands before the second.
pub(crate) fn fronts_of(text: &[u8]) -> Option<(u64, u64)> {
    let first = number_behind(text, b"ask 1 front ")?;
    let of_first = number_behind(text, b"\nend ")?;
    let left = behind(text, b"\nend ");
    let second = number_behind(left, b"\nask 2 front ")?;
    let of_second = number_behind(left, b"\nend ")?;
    if first == of_first && second == of_second {
        Some((first, second))
    } else {
        None
    }
}
