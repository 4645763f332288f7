// A double as text for reading: six digits after the point, or a word where those say too little.
use std::alloc::{AllocError, Global};
use std::num::saturating_f64_to_u64;

const MILLION: u64 = 1_000_000;

// x in millionths, halves up.
fn millionths(x: f64) -> u64 {
    saturating_f64_to_u64(x * 1_000_000.0 + 0.5)
}

// Kept: a text and no `Display`, since `{:>14}` pads a text, so that a number is made a text first.
pub fn readable(alloc: Global, x: f64) -> Result<String, AllocError> {
    if x.is_nan() {
        return String::from_str(alloc, "nan");
    }
    if x == 0.0 && x.is_sign_negative() {
        return String::from_str(alloc, "-0");
    }
    let sign = if x < 0.0 { "-" } else { "" };
    let size = x.abs();
    let n = millionths(size);
    if size == f64::INFINITY {
        format!(in alloc; "{sign}inf")
    } else if n == 0 && size != 0.0 {
        format!(in alloc; "{sign}tiny")
    } else if n >= MILLION * MILLION {
        format!(in alloc; "{sign}large")
    } else {
        format!(in alloc; "{sign}{}.{:06}", n / MILLION, n % MILLION)
    }
}
