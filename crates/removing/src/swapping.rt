// Places that name a tag changed: one place, one list, every list and the default.
ghost use Rattle.tag.specs.View.{bytes_of};
ghost use Rattle.removing.specs.Swapping.{PlaceSwapped, ListSwapped, PlacesSwapped};

use model::implicit_model::{InputList, Model, Place};
use tag::Tag;

// A place, replaced where it names the tag.
pub fn place_swapped(p: Place, t: Tag, by: Place) -> Place
    ensures { PlaceSwapped (bytes_of t) by p result }
{
    match p {
        Some(u) if u == t => by,
        _ => p,
    }
}

// Each place of a list that names the tag is replaced.
// Kept: tried as `for place in &mut list.places[..places]`, and the goal `returns` stays open: that the changed slice, with the places behind it put back, has the list's live rows changed. The loop over the lists below keeps this one's form, for the law that both share.
pub fn swap_list(list: &mut InputList, t: Tag, by: Place)
    ensures { ListSwapped (bytes_of t) by list.old list.new }
{
    let places = list.live_places().len();
    for i in 0..places {
        list.places[i] = place_swapped(list.places[i], t, by);
    }
}

// Each place of a model's lists that names the tag is replaced, and so is its default.
pub fn swap_places(m: &mut Model, t: Tag, by: Place)
    ensures { PlacesSwapped (bytes_of t) by m.old m.new }
{
    let lists = m.live_lists().len();
    m.default = place_swapped(m.default, t, by);
    for i in 0..lists {
        swap_list(&mut m.lists[i], t, by);
    }
}
