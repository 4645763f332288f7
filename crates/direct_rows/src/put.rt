// Rows and places written where they stand in the bytes of a model. Of other bytes, and past the tables, nothing is written.
ghost use Rattle.model.specs.View.{place_of};
ghost use Rattle.rows.specs.Rows.{places_of};
ghost use Rattle.direct_rows.specs.Rows.{PutEntry, PutList, PutPlace};

use layout::model::{
    COMPONENT, COMPONENT_SIZE, COMPONENTS, LIST_SIZE, LISTS, MODEL_SIZE, PLACE_COUNT, PLACE_SIZE,
    PLACES,
};
use model::implicit_model::{ComponentEntry, InputList, Place};
use rows::writing::{write_component, write_number, write_place, write_places, write_tag};

// Writes what a row of the components holds.
pub fn put_entry(s: &mut [u8], i: usize, entry: ComponentEntry)
    ensures { PutEntry i entry s.old s.new }
{
    if s.len() != MODEL_SIZE || 64 <= i {
        return;
    }
    let at = COMPONENTS + COMPONENT_SIZE * i;
    write_tag(s, at, entry.tag);
    write_component(s, at + COMPONENT, entry.component);
}

// Writes what a row of the lists holds.
pub fn put_list(s: &mut [u8], j: usize, list: InputList)
    ensures { PutList j list s.old s.new }
{
    if s.len() != MODEL_SIZE || 128 <= j || 3 < list.count {
        return;
    }
    let at = LISTS + LIST_SIZE * j;
    write_tag(s, at, list.tag);
    write_number(s, at + PLACE_COUNT, list.count as u64);
    write_places(s, at + PLACES, list);
}

// Writes one place of a list.
pub fn put_place(s: &mut [u8], j: usize, p: usize, place: Place)
    ensures { PutPlace j p (place_of place) s.old s.new }
{
    if s.len() != MODEL_SIZE || 128 <= j || 3 <= p {
        return;
    }
    write_place(s, LISTS + PLACES + LIST_SIZE * j + PLACE_SIZE * p, place);
}
