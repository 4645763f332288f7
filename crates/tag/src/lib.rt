// Tags: byte strings of at most 32 bytes.
#![tactic(auto)]

pub mod equality;
pub mod numbered;
pub mod order;

ghost use Rattle.std.specs.Prelude.{◌≡◌, ◌≤◌, true, false, take, length, MatchResult};
ghost use Rattle.tag.specs.Tags.{empty, overlong};
ghost use Rattle.tag.specs.View.{bytes_of, tag_fits, Made};

// Kept: a buffer with a length beside it, for memory is fixed, and a length past 32 is input that the crates above refuse.
#[derive(Clone, Copy)]
pub struct Tag {
    pub bytes: [u8; 32],
    pub len: usize,
}

impl Tag {
    // The tag's bytes. A length past the size counts as the size.
    pub fn as_bytes(&self) -> &[u8]
        ensures same { result.now ≡ bytes_of self.now }
        ensures short { length result.now ≤ 32 }
    {
        &self.bytes[..self.len.min(32)]
    }

    // Whether its length is within its size.
    #[tactic(auto, unfolding(crate::specs::View::tag_fits))]
    pub fn fits(&self) -> bool
        ensures { result ≡ tag_fits self.now }
    {
        self.len <= 32
    }
}

// The tag of no bytes.
impl Default for Tag {
    ghost is_default = { Made empty };

    fn default() -> Tag {
        Tag {
            bytes: [0; 32],
            len: 0,
        }
    }
}

// The tag of the first 32 bytes: of all of them, where they are no more.
// Kept: a function and no `From`, for it may drop bytes.
pub fn tag_of(t: &[u8]) -> Tag
    ensures { Made (take 32 t.now) result }
{
    let len = t.len().min(32);
    let mut bytes = [0; 32];
    bytes[..len].copy_from_slice(&t[..len]);
    Tag { bytes, len }
}

// The bytes are too many for a tag.
#[derive(Clone, Copy, PartialEq, Eq)]
pub struct TagTooLong;

impl TryFrom<&[u8]> for Tag {
    type Error = TagTooLong;

    ghost try_from_gives = { λ t r. MatchResult r (λ tag. (overlong t.now ≡ false) × Made t.now tag) (λ _. overlong t.now ≡ true) };

    fn try_from(t: &[u8]) -> Result<Tag, TagTooLong> {
        if 32 < t.len() {
            return Err(TagTooLong);
        }
        Ok(tag_of(t))
    }
}
