// The byte order of tags, a prefix first.
ghost use Rattle.std.specs.Prelude.{refl};
ghost use Rattle.std.specs.Cmp.{po};
ghost use Rattle.std.specs.Cmp.Lexicographic.{slice_cmp, on_texts};
ghost use Rattle.std.specs.Ordering.{nat_cmp, as_partial_cmp, on};
ghost use Rattle.tag.specs.View.{bytes_of};
ghost use Rattle.tag.specs.Comparing.{is_ties};

use crate::Tag;
use std::cmp::Ordering;

impl PartialOrd for Tag {
    ghost partial_cmp = { as_partial_cmp (on bytes_of (slice_cmp nat_cmp)) };

    ghost laws = { po (on_texts bytes_of) (λ a b. is_ties (bytes_of a) (bytes_of b)) };

    fn partial_cmp(&self, other: &Tag) -> Option<Ordering> {
        Some(self.cmp(other))
    }
}

impl Ord for Tag {
    ghost cmp = { on bytes_of (slice_cmp nat_cmp) };

    ghost total = { on_texts bytes_of };

    ghost matches_partial_cmp = { λ _ _. refl };

    ghost matches_eq = { λ a b. is_ties (bytes_of a) (bytes_of b) };

    fn cmp(&self, other: &Tag) -> Ordering {
        self.as_bytes().cmp(other.as_bytes())
    }
}
