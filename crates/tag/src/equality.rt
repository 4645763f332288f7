// Tags are equal where their bytes are.
ghost use Rattle.std.specs.Cmp.{on_equiv, partial_equiv_from_equiv};
ghost use Rattle.tag.specs.Tags.{is};
ghost use Rattle.tag.specs.View.{bytes_of};
ghost use Rattle.tag.specs.Comparing.{is_equivalence};

use crate::Tag;

impl PartialEq for Tag {
    ghost eq = { λ a b. is (bytes_of a) (bytes_of b) };

    ghost laws = { partial_equiv_from_equiv (on_equiv bytes_of is_equivalence) };

    // Kept: not `==` of the slices. Numbered tags differ at their end, so that from the back each is told apart at its first byte or so: of 64 tags `shape_0` and on, each held against each, a comparison takes 19 instructions so, and 26 by `==`.
    fn eq(&self, other: &Tag) -> bool {
        let (a, b) = (self.as_bytes(), other.as_bytes());
        a.len() == b.len() && a.iter().rev().eq(b.iter().rev())
    }
}

impl Eq for Tag {
    ghost laws = { on_equiv bytes_of is_equivalence };
}
