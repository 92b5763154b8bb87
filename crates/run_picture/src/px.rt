//! Sums of places on the picture, which end at the largest number.

pub(crate) fn plus(a: u64, b: u64) -> u64 {
    a.saturating_add(b)
}

pub(crate) fn minus(a: u64, b: u64) -> u64 {
    a.saturating_sub(b)
}

/// `part` of `whole`, where that is `length` long: at most `length`, and 0 of nothing.
pub(crate) fn scaled(part: u64, whole: u64, length: u64) -> u64 {
    let (part, whole) = if whole >= 1 << 48 {
        (part >> 16, whole >> 16)
    } else {
        (part, whole)
    };
    match part.saturating_mul(length).checked_div(whole) {
        Some(at) => at.min(length),
        None => 0,
    }
}
