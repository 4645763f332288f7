// The lines of a script, or of a list of rows. No more of a line is held than is asked for, however long it is.
ghost use Rattle.std.specs.Prelude.{◌≡◌, ◌≢◌, ◌==◌, ◌-◌, ◌≤◌, ◌++◌, ◌↔◌, ℕ, List, [], ◌∷◌, Some, false, IfOk, IfSome, IsSome, IsTrue, OnSome, OnOk, OnErr, All, Contains, length, take, vec_len};
ghost use Rattle.std.specs.List.{position};
ghost use Rattle.std.specs.Io.{StartsWith};
ghost use Rattle.std.specs.Io.KnownBytes.{Consumes, IsAtEnd};
ghost use Rattle.std.specs.Io.BufRead.{first_piece, DropsThrough};
ghost use Rattle.recorded.specs.Lines.{feed_of};

use std::io::{self, BufRead, ErrorKind};

// The bytes of a line past these are left out.
const LONGEST: usize = 65536;

// Where the first line feed stands.
fn first_feed(bytes: &[u8]) -> Option<usize>
    ensures { result ≡ position (λ b. b == 10) bytes.now }
{
    bytes.iter().position(|byte| *byte == b'\n')
}

// What of a line stands in the bytes that a reader shows, and, where the line ends there, whether a line feed ends it: where no bytes are shown, the input does.
fn part_of(shown: &[u8]) -> (&[u8], Option<bool>)
    ensures one { All (λ b. b ≢ 10) result.0.now }
    ensures front { StartsWith shown.now (result.0.now ++ feed_of result.1) }
    ensures end { result.1 ≡ Some false → shown.now ≡ [] }
{
    match first_feed(shown) {
        Some(at) => (&shown[..at], Some(true)),
        None => (shown, shown.is_empty().then_some(false)),
    }
}

// Appends what of a part still fits `most` bytes.
fn append_start(line: &mut Vec<u8>, part: &[u8], most: usize) -> io::Result<()>
    ensures ok { OnOk result (line.new.items ≡ line.old.items ++ take (most - length line.old.items) part.now) }
    ensures err { OnErr result (line.new.items ≡ line.old.items) }
{
    let left = most.saturating_sub(line.len());
    line.extend_from_slice(&part[..part.len().min(left)])?;
    Ok(())
}

// Reads on in a line, as far as the reader shows it, and says, where the line ends there, whether a line feed ends it. A read that is interrupted shows nothing, and the line goes on.
fn read_part<B: BufRead>(input: &mut B, line: &mut Vec<u8>, most: usize) -> io::Result<Option<bool>>
    ensures ok { IfOk result (λ ended. (bs : List ℕ) × All (λ b. b ≢ 10) bs
        × (line.new.items ≡ line.old.items ++ take (most - length line.old.items) bs)
        × Consumes (B.remaining input.old) (B.remaining input.new) (bs ++ feed_of ended)
        × (ended ≡ Some false → OnSome (B.remaining input.old) (IsAtEnd (B.remaining input.new)))) }
    ensures err { OnErr result (line.new.items ≡ line.old.items) }
{
    let shown = match input.fill_buf() {
        Ok(shown) => shown,
        Err(e) if e.kind() == ErrorKind::Interrupted => return Ok(None),
        Err(e) => return Err(e),
    };
    let (part, ended) = part_of(shown);
    append_start(line, part, most)?;
    let read = part.len() + usize::from(ended == Some(true));
    input.consume(read);
    Ok(ended)
}

// Reads the next line into `line`, but for what it has past `most` bytes, and says whether a line feed ends it; where none does, the input ended.
// Kept: no `read_until`, `split` or `lines`, which hold a line whole.
pub fn read_start<B: BufRead>(input: &mut B, line: &mut Vec<u8>, most: usize) -> io::Result<bool>
    ensures held { vec_len line.new ≤ most }
    ensures one { All (λ b. b ≢ 10) line.new.items }
    ensures fed { IfOk result (λ fed. IfSome (B.remaining input.old) (λ xs. IsTrue fed ↔ Contains xs 10)) }
    ensures bytes { OnOk result (IfSome (B.remaining input.old) (λ xs. line.new.items ≡ take most (first_piece 10 xs))) }
    ensures rest { OnOk result (DropsThrough (B.remaining input.old) (B.remaining input.new) 10) }
{
    line.clear();
    // Nothing says that a line ends, so the turns are counted.
    for _ in 0..u64::MAX {
        if let Some(fed) = read_part(input, line, most)? {
            return Ok(fed);
        }
    }
    Err(ErrorKind::TimedOut.into())
}

// The next line, read into `line`, where a line feed ends it.
pub fn next_line<'a, B: BufRead>(
    input: &mut B,
    line: &'a mut Vec<u8>,
) -> io::Result<Option<&'a [u8]>>
    ensures one { IfOk result (λ found. IfSome found (λ l. All (λ b. b ≢ 10) l.now)) }
    ensures short { IfOk result (λ found. IfSome found (λ l. length l.now ≤ 65536)) }
    ensures found { IfOk result (λ found. IfSome (B.remaining input.old) (λ xs. IsSome found ↔ Contains xs 10)) }
    ensures bytes { IfOk result (λ found. IfSome (B.remaining input.old) (λ xs. IfSome found (λ l. l.now ≡ take 65536 (first_piece 10 xs)))) }
    ensures rest { OnOk result (DropsThrough (B.remaining input.old) (B.remaining input.new) 10) }
{
    let fed = read_start(input, line, LONGEST)?;
    Ok(fed.then_some(line.as_slice()))
}

#[cfg(test)]
mod tests {
    use super::*;

    // Lines below the limit, at it and past it, and a last one without a feed.
    #[test]
    fn reads_the_starts_of_lines(rt: HostRuntime) {
        let mut input: &[u8] = b"ab\n\nabc\nabcd\nabcdefg";
        let mut line = Vec::new(rt.alloc());
        for (start, is_fed) in [
            ("ab", true),
            ("", true),
            ("abc", true),
            ("abc", true),
            ("abc", false),
            ("", false),
        ] {
            let fed = read_start(&mut input, &mut line, 3);
            assert_eq!(rt; fed.ok(), Some(is_fed));
            assert_eq!(rt; line.as_slice(), start.as_bytes());
        }
    }
}
