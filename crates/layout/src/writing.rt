// Words of eight bytes, the lowest first, written into a slice.
ghost use Rattle.std.specs.Prelude.{◌≡◌, ◌+◌, leb, length};
ghost use Rattle.layout.specs.Writing.{put_word};

// Whether n bytes from a place on are in the slice.
pub fn has_room(s: &[u8], at: usize, n: usize) -> bool
    ensures { result ≡ leb (at + n) (length s.now) }
{
    n <= s.len() && at <= s.len() - n
}

// Writes the word x at a place, where it stands whole in the slice.
pub fn write_word(s: &mut [u8], at: usize, x: u64)
    ensures { s.new ≡ put_word s.old at x }
{
    if has_room(s, at, 8) {
        s[at..at + 8].copy_from_slice(&x.to_le_bytes());
    }
}
