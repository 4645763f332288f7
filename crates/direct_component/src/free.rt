// The first free tag, among the components in the bytes of a model.
ghost use Rattle.std.specs.Prelude.{◌≡◌, true};
ghost use Rattle.tag.specs.View.{bytes_of, tag_fits};
ghost use Rattle.direct_component.specs.Free.{FreeIn, FirstFreeIn};

use finding::Table;
use tag::Tag;

// Whether no component has the tag.
fn is_free(s: &[u8], t: Tag) -> bool
    ensures { FreeIn s.now (bytes_of t) result }
{
    Table::Components.row_of(s, t.as_bytes()).is_none()
}

// The tag if it is free, else tag_1, tag_2 and on, first free; none where that one is too long.
// Kept: `adding_component` finds it on the record. One function for both would take `is_free` as a closure, so it would have a `requires`, and no public one has; a trait of a store with a law for both is longer than this loop.
pub(crate) fn free_tag_in(s: &[u8], t: Tag) -> Option<Tag>
    requires { tag_fits t ≡ true }
    ensures { FirstFreeIn s.now (bytes_of t) result }
{
    if is_free(s, t) {
        return Some(t);
    }
    for k in 1..Table::Components.count(s) + 2 {
        let u = t.numbered(k)?;
        if is_free(s, u) {
            return Some(u);
        }
    }
    None
}
