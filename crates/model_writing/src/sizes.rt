// Whether the counts and lengths that a record names are within their sizes.
ghost use Rattle.std.specs.Prelude.{◌≡◌};
ghost use Rattle.model.specs.View.{rows, every, place_fits, entry_fits, list_fits, fits};

use model::implicit_model::{ComponentEntry, InputList, Model};
use sound_lists::place_fits;

fn places_fit(l: &InputList) -> bool
    ensures { result ≡ every (rows place_fits l.now.count l.now.places) }
{
    l.live_places().iter().all(place_fits)
}

// Kept: sound_lists' `list_sound` judges the same three things, but of one place at least: 7 asks for one, and bytes hold a list of none.
#[tactic(auto, unfolding(model::specs::View::list_fits))]
fn list_fits(l: &InputList) -> bool
    ensures { result ≡ list_fits l.now }
{
    l.tag.fits() && l.count <= 3 && places_fit(l)
}

fn lists_fit(m: &Model) -> bool
    ensures { result ≡ every (rows list_fits m.now.list_count m.now.lists) }
{
    m.live_lists().iter().all(list_fits)
}

fn entry_fits(e: &ComponentEntry) -> bool
    ensures { result ≡ entry_fits e.now }
{
    e.tag.fits()
}

fn components_fit(m: &Model) -> bool
    ensures { result ≡ every (rows entry_fits m.now.component_count m.now.components) }
{
    m.live_components().iter().all(entry_fits)
}

// Whether the record is within its sizes: the part of 7 that bytes depend on.
#[tactic(auto, unfolding(model::specs::View::fits))]
pub fn model_fits(m: &Model) -> bool
    ensures { result ≡ fits m.now }
{
    m.component_count <= 64
        && m.list_count <= 128
        && components_fit(m)
        && lists_fit(m)
        && place_fits(&m.default)
}
