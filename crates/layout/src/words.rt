// Words of eight bytes, the lowest first, and strings, read from a slice. Past its end stands 0.
ghost use Rattle.std.specs.Prelude.{◌≡◌, ◌+◌, drop};
ghost use Rattle.layout.specs.Words.{word, text};

// The slice from a place on; nothing past its end.
fn rest_from(s: &[u8], at: usize) -> &[u8]
    ensures { result.now ≡ drop at s.now }
{
    s.get(at..).unwrap_or(&[])
}

// The word at a place. One that stands whole in the slice is copied by one load.
pub fn read_word(s: &[u8], at: usize) -> u64
    ensures { result ≡ word s.now at }
{
    let rest = rest_from(s, at);
    let mut bytes = [0u8; 8];
    match rest.get(..8) {
        Some(whole) => bytes.copy_from_slice(whole),
        None => bytes[..rest.len()].copy_from_slice(rest),
    }
    u64::from_le_bytes(bytes)
}

// The word that stands `offset` bytes past a place. A place beyond every address is past the end.
pub fn word_past(s: &[u8], at: usize, offset: usize) -> u64
    ensures { result ≡ word s.now (at + offset) }
{
    read_word(s, at.saturating_add(offset))
}

// The string at a place: a word for its length, then its bytes; fewer where the slice ends.
pub fn read_text(s: &[u8], at: usize) -> &[u8]
    ensures { result.now ≡ text s.now at }
{
    let rest = rest_from(s, at.saturating_add(8));
    let len = read_word(s, at) as usize;
    &rest[..len.min(rest.len())]
}
