// Input lists judged by refusal 7: their count of places, and tags within their size.
#![tactic(auto)]

ghost use Rattle.std.specs.Prelude.{◌≡◌, map};
ghost use Rattle.model.specs.View.{every, place_fits};
ghost use Rattle.sound_lists.specs.Sound.{list_sound};

use model::implicit_model::{InputList, Place};

// Whether a place is unassigned or holds a tag within its size.
pub fn place_fits(p: &Place) -> bool
    ensures { result ≡ place_fits p.now }
{
    p.is_none_or(|t| t.fits())
}

// Whether a list has 1 to 3 places and its tags are within their size.
fn list_sound(l: &InputList) -> bool
    ensures { result ≡ list_sound l.now }
{
    let places = l.live_places();
    l.tag.fits() && (1..=3).contains(&l.count) && places.iter().all(place_fits)
}

// Whether every input list is sound.
pub fn lists_sound(lists: &[InputList]) -> bool
    ensures { result ≡ every (map list_sound lists.now) }
{
    lists.iter().all(list_sound)
}
