// Numbers as words: the bits of a float in hexadecimal digits, an index or a count in decimal ones.
ghost use Rattle.std.specs.Prelude.{◌<◌, IfSome};

// The value of a hexadecimal digit.
// Kept: `char::from(byte).to_digit(16)` gives a u32, which would have to be narrowed to the byte that it is, and is no plainer than these ranges.
pub fn digit(byte: u8) -> Option<u8>
    ensures { IfSome result (λ d. d < 16) }
{
    match byte {
        b'0'..=b'9' => Some(byte - b'0'),
        b'a'..=b'f' => Some(byte - b'a' + 10),
        b'A'..=b'F' => Some(byte - b'A' + 10),
        _ => None,
    }
}

// The bits of a float: 16 hexadecimal digits.
// Kept: not recorded's `number`, which takes no digit in upper case, as a recorded answer has none.
pub fn bits(word: &[u8]) -> Option<u64> {
    if word.len() != 16 {
        return None;
    }
    word.iter()
        .try_fold(0, |bits, byte| Some(bits << 4 | u64::from(digit(*byte)?)))
}

// The number with one decimal digit more, where it has 19 significant ones at most: each of these fits.
fn appended(number: u64, byte: u8) -> Option<u64> {
    if byte.is_ascii_digit() && number < 1_000_000_000_000_000_000 {
        return Some(number * 10 + u64::from(byte - b'0'));
    }
    None
}

// An index or a count: decimal digits.
// Kept: not `parse`, which takes a `+` ahead of the digits, and numbers of 20 digits that this refuses.
pub fn decimal(word: &[u8]) -> Option<u64> {
    let (first, others) = word.split_first()?;
    others.iter().try_fold(appended(0, *first)?, |number, byte| appended(number, *byte))
}
