// The numbered tag: a tag, `_` and a number in decimal.
ghost use Rattle.std.specs.Prelude.{◌≡◌, cond, nat_lt, ◌++◌, ◌+◌, ◌%◌};
ghost use Rattle.tag.specs.Tags.{numbered};
ghost use Rattle.tag.specs.View.{bytes_of};
ghost use Rattle.tag.specs.Fitted.{Fitted};

use crate::{Tag, tag_of};

// The last decimal digit of k.
// Kept: not `Display`, which prints all digits; a numbered tag takes the last four.
fn digit(k: usize) -> u8
    ensures { result ≡ 48 + k % 10 }
{
    b'0' + (k % 10) as u8
}

// How many of four digits are zeros ahead of the number.
fn leading_zeros(k: usize) -> usize
    ensures { result ≡ cond (nat_lt k 10) 3 (cond (nat_lt k 100) 2 (cond (nat_lt k 1000) 1 0)) }
{
    match k {
        0..=9 => 3,
        10..=99 => 2,
        100..=999 => 1,
        _ => 0,
    }
}

impl Tag {
    // The tag with more bytes behind it, where there is room.
    fn joined(&self, more: &[u8]) -> Option<Tag>
        ensures { Fitted (bytes_of self.now ++ more.now) result }
    {
        let mut tag = tag_of(self.as_bytes());
        let start = tag.len;
        let end = start + more.len();
        if 32 < end {
            return None;
        }
        tag.bytes[start..end].copy_from_slice(more);
        tag.len = end;
        Some(tag)
    }

    // The numbered tag, where it is not too long. A number has four digits at most, its last ones.
    pub fn numbered(&self, k: usize) -> Option<Tag>
        ensures { Fitted (numbered (bytes_of self.now) k) result }
    {
        let digits = [digit(k / 1000), digit(k / 100), digit(k / 10), digit(k)];
        self.joined(b"_")?.joined(&digits[leading_zeros(k)..])
    }
}
