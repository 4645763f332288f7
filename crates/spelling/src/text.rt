// Tags and names as words: two hexadecimal digits a byte, `.` for the empty one.
ghost use Rattle.std.specs.Prelude.{◌≡◌, ◌<◌, ◌≤◌, [], ◌∷◌, ◌++◌, length, take};
ghost use Rattle.tag.specs.View.{Made};

use crate::number::digit;
use tag::Tag;

// The first 64 bytes that a word spells. A tag or name that fits has fewer, so the bytes past these change no answer.
// Kept: a buffer with a length beside it, since the kit's `ArrayVec` is not `Copy`; and a ghost field, no `Model`, since a `Command` that holds one is not copied where it is passed by value and used again.
#[derive(Clone, Copy)]
pub struct Text {
    pub bytes: [u8; 64],
    pub len: usize,
    ghost short: { len ≤ 64 },
}

impl Text {
    // Of no bytes.
    pub fn new() -> Text
        ensures { result.len ≡ 0 }
    {
        Text {
            bytes: [0; 64],
            len: 0,
        }
    }

    // The text's bytes.
    pub fn as_slice(&self) -> &[u8]
        ensures same { result.now ≡ take self.now.len self.now.bytes }
        ensures fits { length result.now ≤ 64 }
    {
        &self.bytes[..self.len]
    }

    // One byte more. What finds no room is left out.
    pub fn push(&mut self, byte: u8)
        ensures room { self.old.len < 64 → take self.new.len self.new.bytes ≡ take self.old.len self.old.bytes ++ byte ∷ [] }
        ensures full { 64 ≤ self.old.len → self.new ≡ self.old }
    {
        if self.len < 64 {
            self.bytes[self.len] = byte;
            self.len += 1;
        }
    }
}

// The text of no bytes.
impl Default for Text {
    ghost is_default = { λ text. text.len ≡ 0 };

    fn default() -> Text {
        Text::new()
    }
}

// The tag of a record. A text of more than 32 bytes has the length 33 as a tag, so that its model is found invalid.
pub fn record_tag(text: &Text) -> Tag
    ensures fits { text.now.len ≤ 32 → Made (take 32 (take text.now.len text.now.bytes)) result }
    ensures too_long { 32 < text.now.len → result.len ≡ 33 }
{
    let mut made = tag::tag_of(text.as_slice());
    if 32 < text.len {
        made.len = 33;
    }
    made
}

// The bytes of a word's pairs of digits.
fn paired(word: &[u8]) -> Option<Text> {
    let (pairs, []) = word.as_chunks::<2>() else {
        return None;
    };
    let mut text = Text::new();
    for [high, low] in pairs {
        let byte = digit(*high)? << 4 | digit(*low)?;
        text.push(byte);
    }
    Some(text)
}

// The bytes that a word spells.
pub fn text_of(word: &[u8]) -> Option<Text> {
    match word {
        b"" => None,
        b"." => Some(Text::new()),
        _ => paired(word),
    }
}
