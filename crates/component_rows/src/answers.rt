// The recorded answers: a line each, the bits in 16 hexadecimal digits.
use std::io::{self, ErrorKind, Read};

fn number(line: &[u8]) -> Option<u64> {
    let word = line.strip_suffix(b"\n")?;
    recorded::number(str::from_utf8(word).ok()?)
}

// The answer of the next line, where it spells one.
// Kept: 17 bytes, and neither std's lines, which would take a last line with no line feed for an answer, nor recorded's `next_line`, which needs a buffer and its memory for a line whose length is known.
pub fn next(input: &mut impl Read) -> io::Result<Option<u64>> {
    let mut line = [0; 17];
    match input.read_exact(&mut line) {
        Ok(()) => Ok(number(&line)),
        Err(e) if e.kind() == ErrorKind::UnexpectedEof => Ok(None),
        Err(e) => Err(e),
    }
}

// Whether something follows the last line that was read.
pub fn is_left(input: &mut impl Read) -> io::Result<bool> {
    let mut byte = [0];
    Ok(input.read(&mut byte)? > 0)
}
